//! Why a part doesn't do what it is asked.

ghost use Rattle.std.specs.Prelude.{◌≡◌, Some, codes};

use std::error::Error;
use std::fmt;

/// Why a part drops nothing of a tenant.
#[derive(Clone, Copy, Debug, PartialEq, Eq)]
pub enum ShareRefusal {
    /// A call of the database that the part keeps its things in was refused.
    Database,
}

impl ShareRefusal {
    /// The code of the refusal, `F2`.
    pub fn code(self) -> &'static str
        ensures { result.now ≡ codes "F2" }
    {
        match self {
            ShareRefusal::Database => "F2",
        }
    }
}

impl fmt::Display for ShareRefusal {
    ghost output = { λ _. Some (codes "F2") };

    fn fmt<W: fmt::Write>(&self, f: &mut fmt::Formatter<W>) -> fmt::Result {
        f.pad(self.code())
    }
}

impl Error for ShareRefusal {}
