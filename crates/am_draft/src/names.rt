//! Lists of label names.

ghost use Rattle.std.specs.Prelude.{◌≡◌, []};
ghost use Rattle.std.specs.List.{list_all};
ghost use Rattle.serde_json.specs.Find.{get};
ghost use Rattle.serde_json.specs.View.{view};
ghost use Rattle.am_text.specs.Outcome.{Gives};
ghost use Rattle.am_json.specs.Reading.{optional};
ghost use Rattle.am_labels.specs.Labels.{is_label_name};
ghost use Rattle.am_draft.specs.Names.{named, names_in};

use am_json::{JsonRefusal, texts_in};
use am_labels::is_label_name;
use am_text::{Failure, Listed, Text};
use serde_json::Value;
use std::alloc::Global;

/// The list of label names at a key, empty where there is none.
pub(crate) fn names_at(
    alloc: Global,
    value: &Value,
    key: &str,
) -> Result<Listed<Text>, Failure<JsonRefusal>>
    ensures { Gives (λ l. l) result (optional [] names_in (get key.now (view value.now))) }
{
    match value.get(key) {
        None => Ok(Listed::from_vec(Vec::new(alloc))),
        Some(found) => named(texts_in(alloc, found)?),
    }
}

/// The list of these names. Refused where one is no label name.
pub(crate) fn named(names: Vec<Text>) -> Result<Listed<Text>, Failure<JsonRefusal>>
    ensures { Gives (λ l. l) result (named names.items) }
{
    if !are_label_names(&names) {
        return Err(Failure::Refused(JsonRefusal::BadForm));
    }
    Ok(Listed::from_vec(names))
}

fn are_label_names(names: &[Text]) -> bool
    ensures { result ≡ list_all is_label_name names.now }
{
    names.iter().all(|name| is_label_name(name.as_str()))
}
