//! The fields of objects. Each reader refuses what isn't of its form with [`JsonRefusal::BadForm`].

ghost use Rattle.std.specs.Prelude.{[], None};
ghost use Rattle.serde_json.specs.Find.{get, as_array, as_object};
ghost use Rattle.serde_json.specs.View.{view, items_view, members_view};
ghost use Rattle.am_text.specs.Outcome.{Gives};
ghost use Rattle.am_json.specs.Reading.{formed, optional, required, count_in, flag_in, moment_in, some_text_in, text_in, texts_in, texts_of};

use crate::refusal::JsonRefusal;
use am_text::{Failure, Listed, Moment, Text, read_moment};
use serde_json::{Map, Value};
use std::alloc::Global;

/// The members of an object.
pub fn object_in(value: &Value) -> Result<&Map<String, Value>, Failure<JsonRefusal>>
    ensures { Gives (λ members. members_view members.now.entries) result (formed (as_object (view value.now))) }
{
    match value.as_object() {
        None => Err(Failure::Refused(JsonRefusal::BadForm)),
        Some(members) => Ok(members),
    }
}

/// The values of a list.
pub fn list_in(value: &Value) -> Result<&[Value], Failure<JsonRefusal>>
    ensures { Gives (λ values. items_view values.now) result (formed (as_array (view value.now))) }
{
    match value.as_array() {
        None => Err(Failure::Refused(JsonRefusal::BadForm)),
        Some(values) => Ok(values),
    }
}

/// The text at a key that must be there.
pub fn text_at(alloc: Global, value: &Value, key: &str) -> Result<Text, Failure<JsonRefusal>>
    ensures { Gives (λ text. text) result (required text_in (get key.now (view value.now))) }
{
    match value.get(key) {
        None => Err(Failure::Refused(JsonRefusal::BadForm)),
        Some(found) => text_in(alloc, found),
    }
}

/// The text at a key that may be absent.
pub fn optional_text_at(
    alloc: Global,
    value: &Value,
    key: &str,
) -> Result<Option<Text>, Failure<JsonRefusal>>
    ensures { Gives (λ text. text) result (optional None some_text_in (get key.now (view value.now))) }
{
    match value.get(key) {
        None => Ok(None),
        Some(found) => Ok(Some(text_in(alloc, found)?)),
    }
}

/// The text at a key, empty where there is none.
pub fn text_or_empty_at(
    alloc: Global,
    value: &Value,
    key: &str,
) -> Result<Text, Failure<JsonRefusal>>
    ensures { Gives (λ text. text) result (optional [] text_in (get key.now (view value.now))) }
{
    match value.get(key) {
        None => Ok(Text::read(alloc, "")?),
        Some(found) => text_in(alloc, found),
    }
}

fn text_in(alloc: Global, value: &Value) -> Result<Text, Failure<JsonRefusal>>
    ensures { Gives (λ text. text) result (text_in (view value.now)) }
{
    match value.as_str() {
        None => Err(Failure::Refused(JsonRefusal::BadForm)),
        Some(text) => Ok(Text::read(alloc, text)?),
    }
}

/// The moment at a key, `None` where there is none or the text is that of the absent instant,
/// 0001-01-01T00:00:00Z. A moment is a text as [`read_moment`] takes it (RFC 3339 section 5.6).
pub fn moment_at(value: &Value, key: &str) -> Result<Option<Moment>, Failure<JsonRefusal>>
    ensures { Gives (λ moment. moment) result (optional None moment_in (get key.now (view value.now))) }
{
    match value.get(key) {
        None => Ok(None),
        Some(found) => moment_in(found),
    }
}

fn moment_in(value: &Value) -> Result<Option<Moment>, Failure<JsonRefusal>>
    ensures { Gives (λ moment. moment) result (moment_in (view value.now)) }
{
    match value.as_str() {
        None => Err(Failure::Refused(JsonRefusal::BadForm)),
        Some(text) => match read_moment(text) {
            Ok(moment) => Ok(moment),
            Err(_) => Err(Failure::Refused(JsonRefusal::BadForm)),
        },
    }
}

/// The truth value at a key, `absent` where there is none.
pub fn flag_at(value: &Value, key: &str, absent: bool) -> Result<bool, Failure<JsonRefusal>>
    ensures { Gives (λ flag. flag) result (optional absent flag_in (get key.now (view value.now))) }
{
    match value.get(key) {
        None => Ok(absent),
        Some(found) => found
            .as_bool()
            .ok_or(Failure::Refused(JsonRefusal::BadForm)),
    }
}

/// The whole number of 64 bits at a key, written without sign, fraction and exponent; 0 where there is none.
pub fn count_at(value: &Value, key: &str) -> Result<u64, Failure<JsonRefusal>>
    ensures { Gives (λ count. count) result (optional 0 count_in (get key.now (view value.now))) }
{
    match value.get(key) {
        None => Ok(0),
        Some(found) => found.as_u64().ok_or(Failure::Refused(JsonRefusal::BadForm)),
    }
}

/// The list of texts at a key, empty where there is none.
pub fn texts_at(
    alloc: Global,
    value: &Value,
    key: &str,
) -> Result<Listed<Text>, Failure<JsonRefusal>>
    ensures { Gives (λ texts. texts) result (optional [] texts_in (get key.now (view value.now))) }
{
    match value.get(key) {
        None => Ok(Listed::from_vec(Vec::new(alloc))),
        Some(found) => Ok(Listed::from_vec(texts_in(alloc, found)?)),
    }
}

/// The texts of a list.
pub fn texts_in(alloc: Global, value: &Value) -> Result<Vec<Text>, Failure<JsonRefusal>>
    ensures { Gives (λ texts. texts.items) result (texts_in (view value.now)) }
{
    let values = list_in(value)?;
    texts_of(alloc, values)
}

fn texts_of(alloc: Global, values: &[Value]) -> Result<Vec<Text>, Failure<JsonRefusal>>
    ensures { Gives (λ texts. texts.items) result (texts_of (items_view values.now)) }
{
    let mut texts = Vec::with_capacity(alloc, values.len())?;
    for value in values {
        texts.push(text_in(alloc, value)?)?;
    }
    Ok(texts)
}
