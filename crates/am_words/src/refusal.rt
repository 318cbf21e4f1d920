//! Why no identifier is drawn.

ghost use Rattle.std.specs.Prelude.{◌≡◌, Some, codes};

use std::error::Error;
use std::fmt;

/// Why no identifier is drawn.
#[derive(Clone, Copy, Debug, PartialEq, Eq)]
pub enum WordsRefusal {
    /// Each identifier that was drawn is held.
    NoIdentifier,
}

impl WordsRefusal {
    /// The code of the refusal, `Q3`.
    pub fn code(self) -> &'static str
        ensures { result.now ≡ codes "Q3" }
    {
        match self {
            WordsRefusal::NoIdentifier => "Q3",
        }
    }
}

impl fmt::Display for WordsRefusal {
    ghost output = { λ _. Some (codes "Q3") };

    fn fmt<W: fmt::Write>(&self, f: &mut fmt::Formatter<W>) -> fmt::Result {
        f.pad(self.code())
    }
}

impl Error for WordsRefusal {}
