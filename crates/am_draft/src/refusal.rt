use am_json::JsonRefusal;
use std::error::Error;
use std::fmt;

/// Why a configuration is refused before anything that it says is judged.
#[derive(Clone, Copy, Debug, PartialEq, Eq)]
pub enum DraftRefusal {
    /// The document or the text within it is not JSON (RFC 8259), nests more than 127 deep, or has a number past the
    /// range of a double.
    NotJson,
    /// A key is unknown, a required one is absent, a value is of the wrong kind, or a name of a label is none.
    BadForm,
}

impl DraftRefusal {
    ghost use Rattle.std.specs.Prelude.{◌≡◌};
    ghost use Rattle.am_draft.specs.Refusals.{code_of, refusal_of};

    /// The code of the refusal, `C1` or `C2`.
    pub fn code(self) -> &'static str
        ensures { result.now ≡ code_of self }
    {
        match self {
            DraftRefusal::NotJson => "C1",
            DraftRefusal::BadForm => "C2",
        }
    }

    // The draft's refusal where its JSON is refused.
    pub(crate) fn of_json(refusal: JsonRefusal) -> DraftRefusal
        ensures { result ≡ refusal_of refusal }
    {
        match refusal {
            JsonRefusal::NotJson => DraftRefusal::NotJson,
            JsonRefusal::BadForm => DraftRefusal::BadForm,
        }
    }
}

impl fmt::Display for DraftRefusal {
    ghost use Rattle.std.specs.Prelude.{Some};
    ghost use Rattle.am_draft.specs.Refusals.{code_of};

    ghost output = { λ refusal. Some (code_of refusal) };

    fn fmt<W: fmt::Write>(&self, f: &mut fmt::Formatter<W>) -> fmt::Result {
        f.pad(self.code())
    }
}

impl Error for DraftRefusal {}
