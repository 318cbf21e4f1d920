//! Places in lists.

ghost use Rattle.std.specs.Prelude.{◌≡◌, IfOk};
ghost use Rattle.am_judge.specs.Places.{at_item};

use am_text::Text;
use std::alloc::{AllocError, Global};

/// The place of the item of this number, from 0 on, of the list at a place.
pub(crate) fn at_item(alloc: Global, place: &Text, number: usize) -> Result<Text, AllocError>
    ensures { IfOk result (λ text. text ≡ at_item place.now number) }
{
    let mut text = String::from_str(alloc, place.as_str())?;
    let number = format!(in alloc; "[{number}]")?;
    text.push_str(number.as_str())?;
    Ok(Text::from_string(text))
}
