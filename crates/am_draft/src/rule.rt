//! What inhibit rules say.

ghost use Rattle.std.specs.Prelude.{[]};
ghost use Rattle.serde_json.specs.Find.{get};
ghost use Rattle.serde_json.specs.View.{view, items_view};
ghost use Rattle.am_text.specs.Outcome.{Gives};
ghost use Rattle.am_json.specs.Reading.{optional};
ghost use Rattle.am_draft.specs.Rules.{rule_of, rules_of, rules_in};

use crate::keys::{Place, leaves_out};
use crate::names::names_at;
use am_json::{JsonRefusal, list_in, texts_at};
use am_text::{Failure, Listed, Text};
use serde_json::Value;
use std::alloc::Global;

/// An inhibit rule as it is written. A list whose key is absent is empty.
#[derive(Drop)]
pub struct RuleDraft {
    /// The texts of the matchers that take an alert which inhibits.
    pub source: Listed<Text>,
    /// The texts of the matchers that take an alert which is inhibited.
    pub target: Listed<Text>,
    /// The names of the labels in which both must be equal, each a label name.
    pub equal: Listed<Text>,
    /// Whether one of its keys is left out.
    pub left_out: bool,
}

/// The inhibit rules at a key, none where it is absent.
pub(crate) fn rules_at(
    alloc: Global,
    value: &Value,
    key: &str,
) -> Result<Listed<RuleDraft>, Failure<JsonRefusal>>
    ensures { Gives (λ l. l) result (optional [] rules_in (get key.now (view value.now))) }
{
    match value.get(key) {
        None => Ok(Listed::from_vec(Vec::new(alloc))),
        Some(found) => rules_in(alloc, found),
    }
}

fn rules_in(alloc: Global, value: &Value) -> Result<Listed<RuleDraft>, Failure<JsonRefusal>>
    ensures { Gives (λ l. l) result (rules_in (view value.now)) }
{
    let values = list_in(value)?;
    Ok(Listed::from_vec(rules_of(alloc, values)?))
}

#[tactic(auto, unfolding(crate::specs::Rules::rules_of))]
fn rules_of(alloc: Global, values: &[Value]) -> Result<Vec<RuleDraft>, Failure<JsonRefusal>>
    ensures { Gives (λ v. v.items) result (rules_of (items_view values.now)) }
{
    let mut rules = Vec::with_capacity(alloc, values.len())?;
    for value in values {
        rules.push(rule_of(alloc, value)?)?;
    }
    Ok(rules)
}

#[tactic(auto, unfolding(crate::specs::Rules::rule_of))]
fn rule_of(alloc: Global, value: &Value) -> Result<RuleDraft, Failure<JsonRefusal>>
    ensures { Gives (λ r. r) result (rule_of (view value.now)) }
{
    let left_out = leaves_out(value, Place::Rule)?;
    let source = texts_at(alloc, value, "source_matchers")?;
    let target = texts_at(alloc, value, "target_matchers")?;
    let equal = names_at(alloc, value, "equal")?;
    Ok(RuleDraft {
        source,
        target,
        equal,
        left_out,
    })
}
