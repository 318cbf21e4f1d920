//! Labels as one text.

ghost use Rattle.std.specs.Prelude.{◌≡◌, ◌++◌, IfOk, OnOk, string_bytes};
ghost use Rattle.am_labels.specs.Flat.{are_plain, ended, flat, flat_text, is_plain};

use crate::Label;
use am_text::Text;
use std::alloc::{AllocError, Global};

// How many bytes a label takes in the text, mostly at most.
const USUAL_BYTES: usize = 32;

/// The names and values of labels in their order, each with a NUL behind it, where none of them has a NUL: so compared by
/// bytes, such texts stand as the labels do.
#[tactic(auto, unfolding(crate::specs::Flat::flat_text))]
pub fn flat_text(alloc: Global, labels: &[Label]) -> Result<Option<Text>, AllocError>
    ensures { IfOk result (λ text. text ≡ flat_text labels.now) }
{
    if !are_plain(labels) {
        return Ok(None);
    }
    let text = flat(alloc, labels)?;
    Ok(Some(Text::from_string(text)))
}

// The names and values of labels, each with a NUL behind it.
fn flat(alloc: Global, labels: &[Label]) -> Result<String, AllocError>
    ensures { IfOk result (λ text. string_bytes text ≡ flat labels.now) }
{
    let mut text = String::with_capacity(alloc, labels.len() * USUAL_BYTES)?;
    for label in labels {
        add(&mut text, label.name.as_str())?;
        add(&mut text, label.value.as_str())?;
    }
    Ok(text)
}

// Adds a text with a NUL behind it.
fn add(text: &mut String, part: &str) -> Result<(), AllocError>
    ensures { OnOk result (string_bytes text.new ≡ string_bytes text.old ++ ended part.now) }
{
    text.push_str(part)?;
    text.push_str("\0")
}

// Whether no name and no value has a NUL.
fn are_plain(labels: &[Label]) -> bool
    ensures { result ≡ are_plain labels.now }
{
    labels.iter().all(|label| is_plain(label.name.as_str()) && is_plain(label.value.as_str()))
}

// Whether a text has no NUL.
fn is_plain(text: &str) -> bool
    ensures { result ≡ is_plain text.now }
{
    text.as_bytes().iter().all(|byte| *byte != 0)
}
