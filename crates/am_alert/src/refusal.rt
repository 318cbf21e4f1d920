use std::error::Error;
use std::fmt;

/// Why a posted list is refused.
#[derive(Clone, Copy, Debug, PartialEq, Eq)]
pub enum PostedRefusal {
    /// An alert has no labels.
    NoLabels,
    /// An alert ends before it starts.
    EndsBeforeStart,
    /// The body, an alert or a field is not of its form, or an alert has more than 64 labels or annotations.
    BadForm,
}

impl PostedRefusal {
    ghost use Rattle.std.specs.Prelude.{◌≡◌};
    ghost use Rattle.am_alert.specs.Posted.{code_of};

    /// The code of the refusal, `A1` to `A3`.
    pub fn code(self) -> &'static str
        ensures { result.now ≡ code_of self }
    {
        match self {
            PostedRefusal::NoLabels => "A1",
            PostedRefusal::EndsBeforeStart => "A2",
            PostedRefusal::BadForm => "A3",
        }
    }
}

impl fmt::Display for PostedRefusal {
    ghost use Rattle.std.specs.Prelude.{Some};
    ghost use Rattle.am_alert.specs.Posted.{code_of};

    ghost output = { λ refusal. Some (code_of refusal) };

    fn fmt<W: fmt::Write>(&self, f: &mut fmt::Formatter<W>) -> fmt::Result {
        f.pad(self.code())
    }
}

impl Error for PostedRefusal {}
