//! The labels and annotations that all alerts of a notice have.

ghost use Rattle.std.specs.Prelude.{◌≡◌, IfOk, filter, map};
ghost use Rattle.std.specs.List.Sorted.{IsStrictlySortedBy};
ghost use Rattle.am_labels.specs.Labels.{name_cmp};
ghost use Rattle.am_payload.specs.Common.{IsCommon};
ghost use Rattle.am_payload.specs.Told.{told_alerts};
ghost use Rattle.am_payload.specs.Webhook.{is_among};

use crate::webhook::ToldAlert;
use am_labels::Label;
use std::alloc::{AllocError, Global};

/// What all alerts of a notice have.
#[derive(Drop)]
pub struct Common<'a> {
    /// The labels, in order of name.
    pub labels: Vec<&'a Label>,
    /// The annotations, in order of name.
    pub annotations: Vec<&'a Label>,
}

/// What all of the alerts have: of what the first has that which no other lacks.
pub fn common_of<'a>(alloc: Global, alerts: &[ToldAlert<'a>]) -> Result<Common<'a>, AllocError>
    ensures { IfOk result (IsCommon (told_alerts alerts.now)) }
{
    let Some((first, others)) = alerts.split_first() else {
        return Ok(Common {
            labels: Vec::new(alloc),
            annotations: Vec::new(alloc),
        });
    };
    let mut labels = borrowed(alloc, first.alert.labels.labels())?;
    let mut annotations = borrowed(alloc, first.alert.details.value.annotations.labels())?;
    for told in others {
        retain_among(&mut labels, told.alert.labels.labels());
        retain_among(
            &mut annotations,
            told.alert.details.value.annotations.labels(),
        );
    }
    Ok(Common {
        labels,
        annotations,
    })
}

fn borrowed<'a>(alloc: Global, labels: &'a [Label]) -> Result<Vec<&'a Label>, AllocError>
    ensures { IfOk result (λ v. map (λ label. label.now) v.items ≡ labels.now) }
{
    let mut borrowed = Vec::with_capacity(alloc, labels.len())?;
    for label in labels {
        borrowed.push(label)?;
    }
    Ok(borrowed)
}

// Keeps those that are among these too.
fn retain_among(kept: &mut Vec<&Label>, labels: &[Label])
    requires { IsStrictlySortedBy name_cmp labels.now }
    ensures { map (λ label. label.now) kept.new.items ≡ filter (is_among labels.now) (map (λ label. label.now) kept.old.items) }
{
    kept.retain(|label| is_among(labels, label));
}

// Whether the label is one of these.
fn is_among(labels: &[Label], label: &Label) -> bool
    requires { IsStrictlySortedBy name_cmp labels.now }
    ensures { result ≡ is_among labels.now label.now }
{
    labels.binary_search(label).is_ok()
}
