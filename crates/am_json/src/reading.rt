//! The JSON value of bytes.

ghost use Rattle.serde_json.specs.View.{view};
ghost use Rattle.am_text.specs.Outcome.{Gives};
ghost use Rattle.am_json.specs.Reading.{json};

use crate::refusal::JsonRefusal;
use am_text::Failure;
use serde_json::Value;
use std::alloc::Global;

/// The JSON value that the bytes are (RFC 8259). Of a key that comes twice in an object the last value counts.
///
/// # Errors
/// [`JsonRefusal::NotJson`] where they are none; it is never another refusal.
pub fn read_json(alloc: Global, bytes: &[u8]) -> Result<Value, Failure<JsonRefusal>>
    ensures { Gives view result (json bytes.now) }
{
    match Value::from_slice(alloc, bytes) {
        Ok(value) => Ok(value),
        Err(error) => {
            if error.is_memory() {
                return Err(Failure::OutOfMemory);
            }
            Err(Failure::Refused(JsonRefusal::NotJson))
        }
    }
}
