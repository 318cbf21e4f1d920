//! Why silences are refused.

ghost use Rattle.std.specs.Prelude.{◌≡◌, Some};
ghost use Rattle.am_silence.specs.Refusals.{code_of};

use am_match::MatcherRefusal;
use std::error::Error;
use std::fmt;

/// Why a posted silence, or a deletion, is refused.
#[derive(Clone, Copy, Debug, PartialEq, Eq)]
pub enum SilenceRefusal {
    /// There is no matcher.
    WithoutMatchers,
    /// Every matcher takes the empty text.
    TakesEmpty,
    /// It doesn't end after its start.
    EndsByStart,
    /// No silence of that identifier is held.
    Unknown,
    /// It ends at or before the moment, or has already expired.
    Ended,
    /// The body or a field is not of its form, or there are more than 64 matchers.
    BadForm,
    /// A matcher's name is no label name, or its pattern is refused.
    BadMatcher(MatcherRefusal),
}

impl SilenceRefusal {
    /// The code of the refusal: `S1` to `S6`, `M1` to `M3`, or `B2`.
    pub fn code(self) -> &'static str
        ensures { result.now ≡ code_of self }
    {
        match self {
            SilenceRefusal::WithoutMatchers => "S1",
            SilenceRefusal::TakesEmpty => "S2",
            SilenceRefusal::EndsByStart => "S3",
            SilenceRefusal::Unknown => "S4",
            SilenceRefusal::Ended => "S5",
            SilenceRefusal::BadForm => "S6",
            SilenceRefusal::BadMatcher(refusal) => refusal.code(),
        }
    }
}

impl fmt::Display for SilenceRefusal {
    ghost output = { λ refusal. Some (code_of refusal) };

    fn fmt<W: fmt::Write>(&self, f: &mut fmt::Formatter<W>) -> fmt::Result {
        f.pad(self.code())
    }
}

impl Error for SilenceRefusal {}
