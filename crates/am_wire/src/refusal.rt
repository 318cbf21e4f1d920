//! Why bytes are no message, and why a message has no bytes.

ghost use Rattle.std.specs.Prelude.{◌≡◌, Some};
ghost use Rattle.am_wire.specs.Refusals.{code_of, encode_code_of};

use std::error::Error;
use std::fmt;

/// Why bytes are no message: what is met first from left to right.
#[derive(Clone, Copy, Debug)]
pub enum WireRefusal {
    /// The bytes end before the length that they state.
    CutShort,
    /// A field runs past the stated length.
    FieldPastEnd,
    /// The version isn't 2, or the kind isn't one of 1 to 7.
    UnknownKind,
    /// The tenant's name is none.
    BadTenant,
    /// A field has a value that isn't allowed.
    BadValue,
    /// Bytes are left over behind the body or behind the stated length.
    BytesLeft,
}

impl WireRefusal {
    /// The code of the refusal, `Wi1` to `Wi6`.
    pub fn code(self) -> &'static str
        ensures { result.now ≡ code_of self }
    {
        match self {
            WireRefusal::CutShort => "Wi1",
            WireRefusal::FieldPastEnd => "Wi2",
            WireRefusal::UnknownKind => "Wi3",
            WireRefusal::BadTenant => "Wi4",
            WireRefusal::BadValue => "Wi5",
            WireRefusal::BytesLeft => "Wi6",
        }
    }
}

impl fmt::Display for WireRefusal {
    ghost output = { λ refusal. Some (code_of refusal) };

    fn fmt<W: fmt::Write>(&self, f: &mut fmt::Formatter<W>) -> fmt::Result {
        f.pad(self.code())
    }
}

impl Error for WireRefusal {}

/// Why a message has no bytes.
#[derive(Clone, Copy, Debug)]
pub enum EncodeRefusal {
    /// An item's stamp names no instance, or an item has more than 65,535 labels, annotations or matchers.
    BadItem,
    /// It would have more than 2^32 - 1 bytes.
    TooLong,
}

impl EncodeRefusal {
    /// The code of the refusal, `Wo1` or `Wo2`.
    pub fn code(self) -> &'static str
        ensures { result.now ≡ encode_code_of self }
    {
        match self {
            EncodeRefusal::BadItem => "Wo1",
            EncodeRefusal::TooLong => "Wo2",
        }
    }
}

impl fmt::Display for EncodeRefusal {
    ghost output = { λ refusal. Some (encode_code_of refusal) };

    fn fmt<W: fmt::Write>(&self, f: &mut fmt::Formatter<W>) -> fmt::Result {
        f.pad(self.code())
    }
}

impl Error for EncodeRefusal {}
