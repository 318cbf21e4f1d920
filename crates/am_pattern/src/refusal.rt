//! Why a pattern gives no answer.

ghost use Rattle.std.specs.Prelude.{◌≡◌, Some};
ghost use Rattle.am_pattern.specs.Refused.{code_of};

use std::error::Error;
use std::fmt;

/// Why a pattern gives no answer. It prints as the code of a request that is refused for it.
#[derive(Clone, Copy, Debug, PartialEq, Eq)]
pub enum PatternRefusal {
    /// The text is no pattern of at most 256 bytes, or it nests too deep.
    BadPattern,
    /// The text is a pattern, but its build was refused, as for its size.
    BuildRefused,
}

impl PatternRefusal {
    /// The code of the refusal, `M2` or `B2`.
    pub fn code(self) -> &'static str
        ensures { result.now ≡ code_of self }
    {
        match self {
            PatternRefusal::BadPattern => "M2",
            PatternRefusal::BuildRefused => "B2",
        }
    }
}

impl fmt::Display for PatternRefusal {
    ghost output = { λ refusal. Some (code_of refusal) };

    fn fmt<W: fmt::Write>(&self, f: &mut fmt::Formatter<W>) -> fmt::Result {
        f.pad(self.code())
    }
}

impl Error for PatternRefusal {}
