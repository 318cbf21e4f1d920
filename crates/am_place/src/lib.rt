//! Places in a JSON value, as texts: `tenants.a.alerts`. The value itself is the empty text.
#![tactic(auto)]

ghost use Rattle.std.specs.Prelude.{◌≡◌, IfOk};
ghost use Rattle.am_place.specs.Places.{at_key};

use am_text::Text;
use std::alloc::{AllocError, Global};

/// The place of the value at a key of the object at a place.
pub fn at_key(alloc: Global, place: &Text, key: &str) -> Result<Text, AllocError>
    ensures { IfOk result (λ text. text ≡ at_key place.now key.now) }
{
    let mut text = String::from_str(alloc, place.as_str())?;
    if !place.is_empty() {
        text.push_str(".")?;
    }
    text.push_str(key)?;
    Ok(Text::from_string(text))
}
