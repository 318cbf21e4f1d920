//! Values that are taken apart: what is in them isn't copied. Each reader refuses what isn't of its form with
//! [`JsonRefusal::BadForm`].

ghost use Rattle.std.specs.Prelude.{◌≡◌, ℕ, List, [], false, option_map};
ghost use Rattle.std.specs.Cmp.Lexicographic.{slice_cmp};
ghost use Rattle.std.specs.Ordering.{is_eq, nat_cmp};
ghost use Rattle.serde_json.specs.Find.{as_array, as_object, get_member};
ghost use Rattle.serde_json.specs.View.{view, items_view, members_view};
ghost use Rattle.am_text.specs.Outcome.{Gives};
ghost use Rattle.am_json.specs.Reading.{formed, optional, pairs_in, pairs_of, text_in};

use crate::refusal::JsonRefusal;
use am_labels::Label;
use am_text::{Failure, Text};
use serde_json::{Map, Value};
use std::alloc::Global;

/// The members of an object.
pub fn take_object(value: Value) -> Result<Map<String, Value>, Failure<JsonRefusal>>
    ensures { Gives (λ members. members_view members.entries) result (formed (as_object (view value))) }
{
    match value {
        Value::Object(members) => Ok(members),
        _ => Err(Failure::Refused(JsonRefusal::BadForm)),
    }
}

/// The values of a list.
pub fn take_list(value: Value) -> Result<Vec<Value>, Failure<JsonRefusal>>
    ensures { Gives (λ values. items_view values.items) result (formed (as_array (view value))) }
{
    match value {
        Value::Array(values) => Ok(values),
        _ => Err(Failure::Refused(JsonRefusal::BadForm)),
    }
}

/// Takes the value at a key out of an object, where there is one. Those at other keys stay.
pub fn take_member(members: &mut Map<String, Value>, key: &str) -> Option<Value>
    ensures found { option_map view result ≡ get_member key.now (members_view members.old.entries) }
    ensures others { (other : List ℕ) → is_eq (slice_cmp nat_cmp other key.now) ≡ false →
        get_member other (members_view members.new.entries) ≡ get_member other (members_view members.old.entries) }
{
    members.remove(key)
}

/// The names and texts of an object, in order of name; none where there is no value.
pub fn take_pairs(alloc: Global, found: Option<Value>) -> Result<Vec<Label>, Failure<JsonRefusal>>
    ensures { Gives (λ pairs. pairs.items) result (optional [] pairs_in (option_map view found)) }
{
    match found {
        None => Ok(Vec::new(alloc)),
        Some(value) => pairs_in(alloc, value),
    }
}

fn pairs_in(alloc: Global, value: Value) -> Result<Vec<Label>, Failure<JsonRefusal>>
    ensures { Gives (λ pairs. pairs.items) result (pairs_in (view value)) }
{
    let members = take_object(value)?;
    pairs_of(alloc, members)
}

fn pairs_of(alloc: Global, members: Map<String, Value>) -> Result<Vec<Label>, Failure<JsonRefusal>>
    ensures { Gives (λ pairs. pairs.items) result (pairs_of (members_view members.entries)) }
{
    let mut pairs = Vec::with_capacity(alloc, members.len())?;
    for (name, value) in members {
        let value = take_text(value)?;
        let name = Text::from_string(name);
        pairs.push(Label { name, value })?;
    }
    Ok(pairs)
}

fn take_text(value: Value) -> Result<Text, Failure<JsonRefusal>>
    ensures { Gives (λ text. text) result (text_in (view value)) }
{
    match value {
        Value::String(text) => Ok(Text::from_string(text)),
        _ => Err(Failure::Refused(JsonRefusal::BadForm)),
    }
}
