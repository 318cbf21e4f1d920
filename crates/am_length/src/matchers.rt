ghost use Rattle.std.specs.Prelude.{◌≡◌};
ghost use Rattle.am_length.specs.Capped.{capped};
ghost use Rattle.am_length.specs.Lengths.{matcher_length, matchers_length};

use crate::spelled::text_len;
use am_match::Matcher;

fn matcher_len(matcher: &Matcher) -> u64
    ensures { result ≡ capped (matcher_length matcher.now) }
{
    text_len(matcher.name())
        .saturating_add(text_len(matcher.value()))
        .saturating_add(1)
}

/// How many bytes spell matchers.
pub fn matchers_len(matchers: &[Matcher]) -> u64
    ensures { result ≡ capped (matchers_length matchers.now) }
{
    let mut total = 2u64;
    for matcher in matchers {
        total = total.saturating_add(matcher_len(matcher));
    }
    total
}
