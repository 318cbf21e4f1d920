//! Why a text gives no limits.

ghost use Rattle.std.specs.Prelude.{◌≡◌, IfOk};

use am_text::Text;
use std::alloc::{AllocError, Global};
use std::error::Error;
use std::fmt;

/// What is wrong at a place.
#[derive(Clone, Copy, Debug, PartialEq, Eq)]
pub enum LimitsFault {
    /// The text isn't JSON (RFC 8259), nests more than 127 deep, or has a number past the range of a double.
    NotJson,
    /// The value is no object.
    NotObject,
    /// No such key is known.
    UnknownKey,
    /// The value is no whole number of 64 bits, written without sign, fraction and exponent.
    NotNumber,
    /// The key is no tenant's name.
    NotTenant,
    /// The value stays as it was when the program began to serve.
    Fixed,
}

impl fmt::Display for LimitsFault {
    fn fmt<W: fmt::Write>(&self, f: &mut fmt::Formatter<W>) -> fmt::Result {
        f.write_str(match self {
            LimitsFault::NotJson => "isn't JSON",
            LimitsFault::NotObject => "is no object",
            LimitsFault::UnknownKey => "is no key that is known",
            LimitsFault::NotNumber => "is no whole number",
            LimitsFault::NotTenant => "is no tenant's name",
            LimitsFault::Fixed => "can't change while amring serves",
        })
    }
}

/// Why a text gives no limits: the first place at which something is wrong, and what.
#[derive(Drop)]
pub struct LimitsRefusal {
    /// The place in the text's value, as `tenants.a.alerts`; empty for the value itself.
    pub place: Text,
    pub fault: LimitsFault,
}

impl LimitsRefusal {
    // The refusal at a place.
    pub(crate) fn at(
        alloc: Global,
        place: &Text,
        fault: LimitsFault,
    ) -> Result<LimitsRefusal, AllocError>
        ensures { IfOk result (λ refusal. refusal ≡ record { place = place.now; fault = fault }) }
    {
        Ok(LimitsRefusal {
            place: place.copy(alloc)?,
            fault,
        })
    }
}

impl fmt::Display for LimitsRefusal {
    fn fmt<W: fmt::Write>(&self, f: &mut fmt::Formatter<W>) -> fmt::Result {
        if self.place.is_empty() {
            write!(f, "the text {}", self.fault)
        } else {
            write!(f, "{} {}", self.place.as_str(), self.fault)
        }
    }
}
