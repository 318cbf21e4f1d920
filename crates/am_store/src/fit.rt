//! What may be stored.

ghost use Rattle.std.specs.Prelude.{◌≡◌, ◌<◌, ◌^◌, All, IsTrue, false, length};
ghost use Rattle.am_match.specs.Spelling.{IsShort, IsSpellable};
ghost use Rattle.am_rows.specs.Fit.{IsFit, IsNumbered};

use am_item::{GREATEST_COUNT, Part, SharedItem, Stamp};
use am_match::Matcher;

/// Whether items may be stored. That the item of a request may always be is not for the store to know.
pub(crate) fn are_fit(items: &[SharedItem]) -> bool
    ensures fits { IsTrue result → All IsFit items.now }
    ensures unfit { result ≡ false → All IsFit items.now → ⊥ }
{
    for item in items {
        if !is_fit(item) {
            return false;
        }
    }
    true
}

fn is_fit(item: &SharedItem) -> bool
    ensures fits { IsTrue result → IsFit item.now }
    ensures unfit { result ≡ false → IsFit item.now → ⊥ }
{
    if !is_numbered(item.stamp()) {
        return false;
    }
    match item.part() {
        Part::Silence(_, silence) => are_spellable(silence.matchers.as_slice()),
        Part::Configuration(_) => true,
        Part::Alert(_, _) => true,
        Part::SentEntry(_, _) => true,
    }
}

fn is_numbered(stamp: &Stamp) -> bool
    ensures fits { IsTrue result → IsNumbered stamp.now }
    ensures unfit { result ≡ false → IsNumbered stamp.now → ⊥ }
{
    1 <= stamp.instance && stamp.instance <= 8 && stamp.count <= GREATEST_COUNT
}

fn are_spellable(matchers: &[Matcher]) -> bool
    ensures fits { IsTrue result → IsSpellable matchers.now }
    ensures unfit { result ≡ false → IsSpellable matchers.now → ⊥ }
{
    matchers.len() < 1 << 16 && are_short(matchers)
}

fn are_short(matchers: &[Matcher]) -> bool
    ensures fits { IsTrue result → All IsShort matchers.now }
    ensures unfit { result ≡ false → All IsShort matchers.now → ⊥ }
{
    for matcher in matchers {
        if !is_short(matcher) {
            return false;
        }
    }
    true
}

fn is_short(matcher: &Matcher) -> bool
    ensures fits { IsTrue result → IsShort matcher.now }
    ensures unfit { result ≡ false → IsShort matcher.now → ⊥ }
{
    matcher.name().len() < 1 << 32 && matcher.value().len() < 1 << 32
}
