//! Why a text is refused.

ghost use Rattle.std.specs.Prelude.{◌≡◌, Some};
ghost use Rattle.am_text.specs.Duration.{code_of};

use std::error::Error;
use std::fmt;

/// Why a text is refused as a moment or as a duration.
#[derive(Clone, Copy, Debug, PartialEq, Eq)]
pub enum TextRefusal {
    /// The text is no moment.
    NotAMoment,
    /// The text is no duration.
    NotADuration,
    /// The text is a duration above 100 years.
    OutOfRange,
}

impl TextRefusal {
    /// The code of the refusal, `Tx1` to `Tx3`.
    pub fn code(self) -> &'static str
        ensures { result.now ≡ code_of self }
    {
        match self {
            TextRefusal::NotAMoment => "Tx1",
            TextRefusal::NotADuration => "Tx2",
            TextRefusal::OutOfRange => "Tx3",
        }
    }
}

impl fmt::Display for TextRefusal {
    ghost output = { λ refusal. Some (code_of refusal) };

    fn fmt<W: fmt::Write>(&self, f: &mut fmt::Formatter<W>) -> fmt::Result {
        f.pad(self.code())
    }
}

impl Error for TextRefusal {}
