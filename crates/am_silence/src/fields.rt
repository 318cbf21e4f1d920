//! The fields of the object of a posted body.

ghost use Rattle.std.specs.Prelude.{◌≡◌};
ghost use Rattle.serde_json.specs.Find.{get};
ghost use Rattle.serde_json.specs.View.{view, items_view};
ghost use Rattle.am_text.specs.Outcome.{Gives};
ghost use Rattle.am_json.specs.Reading.{flag_in, optional, required};
ghost use Rattle.am_silence.specs.Written.{id_in, matcher_in, matchers_in, matchers_of, operator_of, required_moment, written_of};

use crate::written::{Written, WrittenMatcher};
use am_json::{JsonRefusal, flag_at, list_in, moment_at, object_in, text_at};
use am_match::Operator;
use am_text::{Failure, Listed, Moment, Text};
use serde_json::Value;
use std::alloc::Global;

/// The most matchers of a silence.
pub(crate) const MOST_MATCHERS: usize = 64;

#[tactic(auto, unfolding(crate::specs::Written::written_of))]
pub(crate) fn written_of(alloc: Global, value: &Value) -> Result<Written, Failure<JsonRefusal>>
    ensures { Gives (λ w. w) result (written_of (view value.now)) }
{
    object_in(value)?;
    let id = id_at(alloc, value, "id")?;
    let matchers = matchers_at(alloc, value, "matchers")?;
    let starts_at = required_moment_at(value, "startsAt")?;
    let ends_at = required_moment_at(value, "endsAt")?;
    let created_by = text_at(alloc, value, "createdBy")?;
    let comment = text_at(alloc, value, "comment")?;
    Ok(Written {
        id,
        matchers,
        starts_at,
        ends_at,
        created_by,
        comment,
    })
}

// The identifier at a key, which may be absent, null or empty.
fn id_at(alloc: Global, value: &Value, key: &str) -> Result<Option<Text>, Failure<JsonRefusal>>
    ensures { Gives (λ id. id) result (optional None id_in (get key.now (view value.now))) }
{
    match value.get(key) {
        None => Ok(None),
        Some(found) => id_in(alloc, found),
    }
}

fn id_in(alloc: Global, value: &Value) -> Result<Option<Text>, Failure<JsonRefusal>>
    ensures { Gives (λ id. id) result (id_in (view value.now)) }
{
    if value.is_null() {
        return Ok(None);
    }
    match value.as_str() {
        None => Err(Failure::Refused(JsonRefusal::BadForm)),
        Some("") => Ok(None),
        Some(text) => Ok(Some(Text::read(alloc, text)?)),
    }
}

// The moment at a key that must be there.
fn required_moment_at(value: &Value, key: &str) -> Result<Moment, Failure<JsonRefusal>>
    ensures { Gives (λ moment. moment) result (required_moment key.now (view value.now)) }
{
    match moment_at(value, key)? {
        None => Err(Failure::Refused(JsonRefusal::BadForm)),
        Some(moment) => Ok(moment),
    }
}

// The truth value at a key that must be there.
fn required_flag_at(value: &Value, key: &str) -> Result<bool, Failure<JsonRefusal>>
    ensures { Gives (λ flag. flag) result (required flag_in (get key.now (view value.now))) }
{
    match value.get(key) {
        None => Err(Failure::Refused(JsonRefusal::BadForm)),
        Some(found) => found
            .as_bool()
            .ok_or(Failure::Refused(JsonRefusal::BadForm)),
    }
}

// The matchers at a key that must be there.
fn matchers_at(
    alloc: Global,
    value: &Value,
    key: &str,
) -> Result<Listed<WrittenMatcher>, Failure<JsonRefusal>>
    ensures { Gives (λ matchers. matchers) result (required matchers_in (get key.now (view value.now))) }
{
    match value.get(key) {
        None => Err(Failure::Refused(JsonRefusal::BadForm)),
        Some(found) => matchers_in(alloc, found),
    }
}

#[tactic(auto, unfolding(crate::specs::Written::matchers_in))]
fn matchers_in(alloc: Global, value: &Value) -> Result<Listed<WrittenMatcher>, Failure<JsonRefusal>>
    ensures { Gives (λ matchers. matchers) result (matchers_in (view value.now)) }
{
    let values = list_in(value)?;
    let matchers = matchers_of(alloc, values)?;
    if matchers.len() > MOST_MATCHERS {
        return Err(Failure::Refused(JsonRefusal::BadForm));
    }
    Ok(Listed::from_vec(matchers))
}

fn matchers_of(alloc: Global, values: &[Value]) -> Result<Vec<WrittenMatcher>, Failure<JsonRefusal>>
    ensures { Gives (λ matchers. matchers.items) result (matchers_of (items_view values.now)) }
{
    let mut matchers = Vec::with_capacity(alloc, values.len())?;
    for value in values {
        matchers.push(matcher_in(alloc, value)?)?;
    }
    Ok(matchers)
}

#[tactic(auto, unfolding(crate::specs::Written::matcher_in))]
fn matcher_in(alloc: Global, value: &Value) -> Result<WrittenMatcher, Failure<JsonRefusal>>
    ensures { Gives (λ matcher. matcher) result (matcher_in (view value.now)) }
{
    object_in(value)?;
    let is_equal = flag_at(value, "isEqual", true)?;
    let is_regex = required_flag_at(value, "isRegex")?;
    let name = text_at(alloc, value, "name")?;
    let value = text_at(alloc, value, "value")?;
    Ok(WrittenMatcher {
        operator: operator_of(is_regex, is_equal),
        name,
        value,
    })
}

fn operator_of(is_regex: bool, is_equal: bool) -> Operator
    ensures { result ≡ operator_of is_regex is_equal }
{
    match (is_regex, is_equal) {
        (false, true) => Operator::Equal,
        (false, false) => Operator::NotEqual,
        (true, true) => Operator::Match,
        (true, false) => Operator::NotMatch,
    }
}
