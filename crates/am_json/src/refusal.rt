use std::error::Error;
use std::fmt;

/// Why a JSON text, or a value of it, isn't taken.
#[derive(Clone, Copy, Debug, PartialEq, Eq)]
pub enum JsonRefusal {
    /// The bytes are not JSON (RFC 8259), nest more than 127 deep, or have a number past the range of a double.
    NotJson,
    /// A value is not of the form that is asked for, or is absent and must be there.
    BadForm,
}

impl JsonRefusal {
    ghost use Rattle.std.specs.Prelude.{◌≡◌};
    ghost use Rattle.am_json.specs.Refusals.{code_of};

    /// The code under which the refusal is told, `J1` or `J2`.
    pub fn code(self) -> &'static str
        ensures { result.now ≡ code_of self }
    {
        match self {
            JsonRefusal::NotJson => "J1",
            JsonRefusal::BadForm => "J2",
        }
    }
}

impl fmt::Display for JsonRefusal {
    ghost use Rattle.std.specs.Prelude.{Some};
    ghost use Rattle.am_json.specs.Refusals.{code_of};

    ghost output = { λ refusal. Some (code_of refusal) };

    fn fmt<W: fmt::Write>(&self, f: &mut fmt::Formatter<W>) -> fmt::Result {
        f.pad(self.code())
    }
}

impl Error for JsonRefusal {}
