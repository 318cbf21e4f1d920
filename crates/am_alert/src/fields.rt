//! The fields of one object of a posted list.

ghost use Rattle.std.specs.Prelude.{option_map};
ghost use Rattle.serde_json.specs.View.{view};
ghost use Rattle.am_text.specs.Outcome.{Gives};
ghost use Rattle.am_alert.specs.Written.{annotations_in, labels_in, written_of};

use crate::written::Written;
use am_json::{JsonRefusal, moment_at, take_member, take_object, take_pairs, text_or_empty_at};
use am_labels::{Annotations, LabelSet};
use am_text::{Failure, refuse_as};
use serde_json::Value;
use std::alloc::Global;

/// The most labels of an alert, and the most annotations.
const MOST_LABELS: usize = 64;

// The texts of labels and annotations are taken out of the object, not copied.
#[tactic(auto, unfolding(crate::specs::Written::written_of))]
pub(crate) fn written_of(alloc: Global, value: Value) -> Result<Written, Failure<JsonRefusal>>
    ensures { Gives (λ w. w) result (written_of (view value)) }
{
    let mut members = take_object(value)?;
    let labels = labels_in(alloc, take_member(&mut members, "labels"))?;
    let annotations = annotations_in(alloc, take_member(&mut members, "annotations"))?;
    let rest = Value::Object(members);
    let starts_at = moment_at(&rest, "startsAt")?;
    let ends_at = moment_at(&rest, "endsAt")?;
    let generator_url = text_or_empty_at(alloc, &rest, "generatorURL")?;
    Ok(Written {
        labels,
        annotations,
        starts_at,
        ends_at,
        generator_url,
    })
}

#[tactic(auto, unfolding(crate::specs::Written::labels_in))]
fn labels_in(alloc: Global, found: Option<Value>) -> Result<LabelSet, Failure<JsonRefusal>>
    ensures { Gives (λ l. l) result (labels_in (option_map view found)) }
{
    let pairs = take_pairs(alloc, found)?;
    let labels = refuse_as(LabelSet::from_pairs(alloc, pairs), JsonRefusal::BadForm)?;
    if labels.len() > MOST_LABELS {
        return Err(Failure::Refused(JsonRefusal::BadForm));
    }
    Ok(labels)
}

#[tactic(auto, unfolding(crate::specs::Written::annotations_in))]
fn annotations_in(alloc: Global, found: Option<Value>) -> Result<Annotations, Failure<JsonRefusal>>
    ensures { Gives (λ l. l) result (annotations_in (option_map view found)) }
{
    let pairs = take_pairs(alloc, found)?;
    let annotations = refuse_as(Annotations::from_pairs(alloc, pairs), JsonRefusal::BadForm)?;
    if annotations.len() > MOST_LABELS {
        return Err(Failure::Refused(JsonRefusal::BadForm));
    }
    Ok(annotations)
}
