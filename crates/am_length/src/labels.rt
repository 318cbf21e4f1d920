ghost use Rattle.std.specs.Prelude.{◌≡◌, sum_by};
ghost use Rattle.am_length.specs.Capped.{capped};
ghost use Rattle.am_length.specs.Lengths.{label_length, label_sets_length, labels_length};

use crate::spelled::text_len;
use am_labels::{Label, LabelSet};

fn label_len(label: &Label) -> u64
    ensures { result ≡ capped (label_length label.now) }
{
    text_len(label.name.as_str()).saturating_add(text_len(label.value.as_str()))
}

/// How many bytes spell labels.
pub fn labels_len(labels: &[Label]) -> u64
    ensures { result ≡ capped (labels_length labels.now) }
{
    let mut total = 2u64;
    for label in labels {
        total = total.saturating_add(label_len(label));
    }
    total
}

/// How many bytes spell several label sets.
pub fn label_sets_len(sets: &[LabelSet]) -> u64
    ensures { result ≡ capped (label_sets_length sets.now) }
{
    let mut total = 4u64;
    for set in sets {
        total = total.saturating_add(labels_len(set.labels()));
    }
    total
}
