//! The regex of a pattern.

ghost use Rattle.std.specs.Prelude.{◌≡◌, ◌≤◌, true, IfOk, IfErr, map};
ghost use Rattle.regex.specs.Patterns.{default_config};
ghost use Rattle.regex.specs.Strings.{matcher_pattern, regex_source, regex_config, regex_pattern, regex_size, IsReadFromSource};
ghost use Rattle.regex.specs.declared.string.regex.Regex.{Regex};
ghost use Rattle.am_text.specs.Outcome.{ForRefused};
ghost use Rattle.am_pattern.specs.Taking.{anchored, has_match, is_parsed, is_shallow, IsPattern};
ghost use Rattle.am_pattern.specs.Refused.{IsBuildingCause, IsPatternCause};
ghost use Rattle.am_pattern.specs.Kept.{largest, IsBuilt, HasRegex};

use crate::reading::{Cause, MAX_PATTERN, parse_text};
use am_text::Failure;
use regex::{Error, Matcher, Regex, RegexBuilder};
use regex_syntax::ErrorKind;
use std::alloc::{AllocError, Global};
use std::marker::Model;

/// About how many bytes one built pattern may take.
pub const MAX_SIZE: usize = 1 << 18;

/// A regex that was built of a text.
#[derive(Drop)]
pub(crate) struct Built {
    regex: Regex,
}

impl Model for Built {
    ghost use Rattle.std.specs.Prelude.{◌≡◌};
    ghost use Rattle.regex.specs.Patterns.{default_config};
    ghost use Rattle.regex.specs.Strings.{regex_source, regex_config, regex_size, IsReadFromSource};
    ghost use Rattle.am_pattern.specs.Kept.{Compiled};

    ghost Value = { Compiled };

    ghost view = { λ b. record { source = regex_source b.regex; size = regex_size b.regex } };

    ghost invariant = { λ b. (regex_config b.regex ≡ default_config) × IsReadFromSource b.regex };
}

impl Built {
    /// For each of the values, whether the text has a match in it. What searches for matches is made once.
    pub(crate) fn have_matches(
        &self,
        alloc: Global,
        values: &[&str],
    ) -> Result<Vec<bool>, AllocError>
        ensures { IfOk result (λ v. v.items ≡ map (λ value. has_match self.now.source value.now) values.now) }
    {
        let mut matcher = self.regex.matcher(alloc)?;
        let mut found = Vec::with_capacity(alloc, values.len())?;
        for value in values {
            found.push(is_found(&mut matcher, value))?;
        }
        Ok(found)
    }
}

// Whether what searches for matches of a regex finds one in the value.
fn is_found(matcher: &mut Matcher<'_>, value: &str) -> bool
    ensures found { (regex : Regex) → matcher_pattern matcher.old ≡ regex_pattern regex → regex_config regex ≡ default_config
        → IsReadFromSource regex → result ≡ has_match (regex_source regex) value.now }
    ensures same { matcher_pattern matcher.new ≡ matcher_pattern matcher.old }
{
    matcher.is_match(value)
}

// Builds the text as it stands.
fn build_text(alloc: Global, text: &str) -> Result<Built, Failure<Cause>>
    ensures source { IfOk result (λ built. built.source ≡ text.now) }
    ensures size { IfOk result (λ built. built.size ≤ largest) }
    ensures regex { IfOk result (λ _. IsBuilt text.now) }
    ensures parsed { IfOk result (λ _. is_parsed text.now ≡ true) }
    ensures cause { IfErr result (λ failure. ForRefused failure (IsBuildingCause text.now)) }
{
    match RegexBuilder::new(text).size_limit(MAX_SIZE).build(alloc) {
        Ok(regex) => Ok(Built { regex }),
        Err(Error::Syntax(error)) => {
            if error.kind == ErrorKind::NestLimitExceeded {
                return Err(Failure::Refused(Cause::TooDeep));
            }
            Err(Failure::Refused(Cause::NotRead))
        }
        Err(Error::CompiledTooBig) => Err(Failure::Refused(Cause::TooBig)),
        Err(Error::Internal) => unreachable!(),
        Err(Error::OutOfMemory) => Err(Failure::OutOfMemory),
    }
}

/// Builds the anchored form of a pattern, once the pattern was read alone.
pub(crate) fn build_pattern(alloc: Global, pattern: &str) -> Result<Built, Failure<Cause>>
    ensures source { IfOk result (λ built. built.source ≡ anchored pattern.now) }
    ensures size { IfOk result (λ built. built.size ≤ largest) }
    ensures regex { IfOk result (λ _. HasRegex pattern.now) }
    ensures is_pattern { IfOk result (λ _. IsPattern pattern.now) }
    ensures shallow { IfOk result (λ _. is_shallow pattern.now ≡ true) }
    ensures cause { IfErr result (λ failure. ForRefused failure (IsPatternCause pattern.now)) }
{
    if pattern.len() > MAX_PATTERN {
        return Err(Failure::Refused(Cause::NotRead));
    }
    parse_text(alloc, pattern)?;
    let text = format!(in alloc; "^(?:{pattern})$")?;
    build_text(alloc, text.as_str())
}
