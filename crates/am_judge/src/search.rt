//! The first place at which a value has the refusal that is looked for.

ghost use Rattle.std.specs.Prelude.{◌≡◌};
ghost use Rattle.serde_json.specs.View.{items_view, members_view, view};
ghost use Rattle.am_text.specs.Outcome.{Gives};
ghost use Rattle.am_judge.specs.Kinds.{absent_key};
ghost use Rattle.am_judge.specs.Search.{checked, checked_document, checked_items, checked_keys, checked_members};
ghost use Rattle.am_judge.specs.Search.{checked_text, checked_within, here};

use crate::cause::{Cause, Finding, cause_of};
use crate::facts::Facts;
use crate::faults::{has_fault, is_for_form};
use crate::kind::{Kind, ObjectKind, TextKind, absent_key, item_of, member_of, numbered};
use crate::place::at_item;
use am_json::read_json;
use am_place::at_key;
use am_text::{Failure, Text};
use serde_json::{Map, Value};
use std::alloc::Global;

/// Refused at the first place of a document, or of the text in it, at which a value has the refusal that is looked for.
/// Those of the text come first.
#[tactic(auto, unfolding(crate::specs::Search::checked_document))]
pub(crate) fn check_document(
    alloc: Global,
    facts: &Facts,
    document: &Value,
) -> Result<(), Failure<Finding>>
    ensures { Gives (λ _. tt) result (checked_document facts.now (view document.now)) }
{
    check_text(alloc, facts, document)?;
    let top = Text::read(alloc, "")?;
    check(
        alloc,
        facts,
        &top,
        Kind::Object(ObjectKind::Document),
        document,
    )
}

// The same of the text in a document, where there is one.
fn check_text(alloc: Global, facts: &Facts, document: &Value) -> Result<(), Failure<Finding>>
    ensures { Gives (λ _. tt) result (checked_text facts.now (view document.now)) }
{
    match document.get("alertmanager_config") {
        None => Ok(()),
        Some(found) => match found.as_str() {
            None => Ok(()),
            Some(text) => check_within(alloc, facts, text),
        },
    }
}

// The same of a text, which is refused itself where it isn't JSON.
fn check_within(alloc: Global, facts: &Facts, text: &str) -> Result<(), Failure<Finding>>
    ensures { Gives (λ _. tt) result (checked_within facts.now text.now) }
{
    match read_json(alloc, text.as_bytes()) {
        Ok(value) => {
            let top = Text::read(alloc, "")?;
            check(alloc, facts, &top, Kind::Object(ObjectKind::Top), &value)
        }
        Err(Failure::OutOfMemory) => Err(Failure::OutOfMemory),
        Err(Failure::Refused(_)) => {
            let place = Text::read(alloc, "alertmanager_config")?;
            let cause = Cause::Value(Kind::Text(TextKind::Plain));
            Err(Failure::Refused(Finding { place, cause }))
        }
    }
}

// The same of a value of this kind at a place, and of all that stands in it.
#[cycle(walk)]
fn check(
    alloc: Global,
    facts: &Facts,
    place: &Text,
    kind: Kind,
    value: &Value,
) -> Result<(), Failure<Finding>>
    ensures { Gives (λ _. tt) result (checked facts.now place.now kind (view value.now)) }
{
    check_here(alloc, facts, place, kind, value)?;
    match value {
        Value::Object(members) => check_members(alloc, facts, place, kind, members),
        Value::Array(items) => {
            check_items(alloc, facts, place, item_of(kind, items.len()), items)
        }
        Value::Null => Ok(()),
        Value::Bool(_) => Ok(()),
        Value::Number(_) => Ok(()),
        Value::String(_) => Ok(()),
    }
}

#[cycle(walk)]
fn check_members(
    alloc: Global,
    facts: &Facts,
    place: &Text,
    kind: Kind,
    members: &Map<String, Value>,
) -> Result<(), Failure<Finding>>
    ensures { Gives (λ _. tt) result
        (checked_members facts.now place.now kind (members_view members.now.entries)) }
{
    for (key, value) in members.iter() {
        let place = at_key(alloc, place, key.as_str())?;
        check(alloc, facts, &place, member_of(kind, key.as_str()), value)?;
    }
    Ok(())
}

// The items of a list, of which the first is of this kind.
#[cycle(walk)]
fn check_items(
    alloc: Global,
    facts: &Facts,
    place: &Text,
    kind: Kind,
    items: &Vec<Value>,
) -> Result<(), Failure<Finding>>
    ensures { Gives (λ _. tt) result
        (checked_items facts.now place.now kind 0 (items_view items.now.items)) }
{
    for (number, item) in items.iter().enumerate() {
        let place = at_item(alloc, place, number)?;
        check(alloc, facts, &place, numbered(kind, number), item)?;
    }
    Ok(())
}

// Refused here where the value by itself has the refusal, or where a key that it must have is absent.
#[tactic(auto, unfolding(crate::specs::Search::here))]
fn check_here(
    alloc: Global,
    facts: &Facts,
    place: &Text,
    kind: Kind,
    value: &Value,
) -> Result<(), Failure<Finding>>
    ensures { Gives (λ _. tt) result (here facts.now place.now kind (view value.now)) }
{
    if has_fault(alloc, facts, kind, value)? {
        let place = place.copy(alloc)?;
        let cause = cause_of(alloc, facts.reason, kind, value)?;
        return Err(Failure::Refused(Finding { place, cause }));
    }
    if is_for_form(facts.reason) {
        return check_keys(alloc, place, kind, value);
    }
    Ok(())
}

fn check_keys(
    alloc: Global,
    place: &Text,
    kind: Kind,
    value: &Value,
) -> Result<(), Failure<Finding>>
    ensures { Gives (λ _. tt) result (checked_keys place.now (absent_key kind (view value.now))) }
{
    match absent_key(kind, value) {
        None => Ok(()),
        Some(key) => {
            let place = at_key(alloc, place, key)?;
            let cause = Cause::Absent;
            Err(Failure::Refused(Finding { place, cause }))
        }
    }
}
