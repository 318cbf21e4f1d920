//! Why a store does not do what it is asked.

ghost use Rattle.std.specs.Prelude.{◌≡◌, Some};
ghost use Rattle.am_rows.specs.Codes.{code_of};

use std::error::Error;
use std::fmt;

/// Why a store does not do what it is asked.
#[derive(Clone, Copy, Debug, PartialEq, Eq)]
pub enum StoreRefusal {
    /// A call of the database was refused.
    Database,
    /// The database has another schema, or a row that is no item of a tenant.
    Foreign,
}

impl StoreRefusal {
    /// The code of the refusal, `F2` or `F3`.
    pub fn code(self) -> &'static str
        ensures { result.now ≡ code_of self }
    {
        match self {
            StoreRefusal::Database => "F2",
            StoreRefusal::Foreign => "F3",
        }
    }
}

impl fmt::Display for StoreRefusal {
    ghost output = { λ refusal. Some (code_of refusal) };

    fn fmt<W: fmt::Write>(&self, f: &mut fmt::Formatter<W>) -> fmt::Result {
        f.pad(self.code())
    }
}

impl Error for StoreRefusal {}
