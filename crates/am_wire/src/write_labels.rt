//! Writing label sets, annotations and sets of label sets.

ghost use Rattle.std.specs.Prelude.{◌≡◌, ◌++◌, ◌≤◌, ◌<◌, ◌^◌, All, IfErr, OnOk, length};
ghost use Rattle.std.specs.List.{flat_map};
ghost use Rattle.am_wire.specs.LabelFields.{AreSetFields, HasTexts, IsAnnotationsField, IsSetField, label_bytes, label_sets_bytes, labels_bytes};
ghost use Rattle.am_wire.specs.Refusals.{IsBadBy};

use crate::refusal::EncodeRefusal;
use crate::write_fields::{push_few, push_length, push_str};
use am_item::LabelSets;
use am_labels::{Annotations, Label, LabelSet};
use am_text::Failure;
use std::alloc::AllocError;

#[tactic(auto, unfolding(crate::specs::LabelFields::label_bytes))]
fn push_label(out: &mut Vec<u8>, label: &Label) -> Result<(), AllocError>
    ensures bytes { OnOk result (out.new.items ≡ out.old.items ++ label_bytes label.now) }
    ensures texts { OnOk result (HasTexts label.now) }
{
    push_str(out, label.name.as_str())?;
    push_str(out, label.value.as_str())
}

fn push_several(out: &mut Vec<u8>, labels: &[Label]) -> Result<(), AllocError>
    ensures bytes { OnOk result (out.new.items ≡ out.old.items ++ flat_map label_bytes labels.now) }
    ensures texts { OnOk result (All HasTexts labels.now) }
{
    for label in labels {
        push_label(out, label)?;
    }
    Ok(())
}

#[tactic(auto, unfolding(crate::specs::LabelFields::labels_bytes))]
fn push_labels(out: &mut Vec<u8>, labels: &[Label]) -> Result<(), Failure<EncodeRefusal>>
    ensures bytes { OnOk result (out.new.items ≡ out.old.items ++ labels_bytes labels.now) }
    ensures texts { OnOk result (All HasTexts labels.now) }
    ensures few { OnOk result (length labels.now < 2 ^ 16) }
    ensures refused { IfErr result (IsBadBy (2 ^ 16 ≤ length labels.now)) }
{
    push_few(out, labels.len())?;
    push_several(out, labels)?;
    Ok(())
}

/// A label set.
pub fn push_label_set(out: &mut Vec<u8>, set: &LabelSet) -> Result<(), Failure<EncodeRefusal>>
    ensures bytes { OnOk result (out.new.items ≡ out.old.items ++ labels_bytes set.now) }
    ensures valid { OnOk result (IsSetField set.now) }
    ensures refused { IfErr result (IsBadBy (¬ IsSetField set.now)) }
{
    push_labels(out, set.labels())?;
    Ok(())
}

/// Annotations.
pub fn push_annotations(out: &mut Vec<u8>, set: &Annotations) -> Result<(), Failure<EncodeRefusal>>
    ensures bytes { OnOk result (out.new.items ≡ out.old.items ++ labels_bytes set.now) }
    ensures valid { OnOk result (IsAnnotationsField set.now) }
    ensures refused { IfErr result (IsBadBy (¬ IsAnnotationsField set.now)) }
{
    push_labels(out, set.labels())?;
    Ok(())
}

fn push_sets(out: &mut Vec<u8>, sets: &[LabelSet]) -> Result<(), Failure<EncodeRefusal>>
    ensures bytes { OnOk result (out.new.items ≡ out.old.items ++ flat_map labels_bytes sets.now) }
    ensures valid { OnOk result (All IsSetField sets.now) }
    ensures refused { IfErr result (IsBadBy (¬ All IsSetField sets.now)) }
{
    for set in sets {
        push_label_set(out, set)?;
    }
    Ok(())
}

/// Label sets.
#[tactic(auto, unfolding(crate::specs::LabelFields::label_sets_bytes))]
pub fn push_label_sets(out: &mut Vec<u8>, sets: &LabelSets) -> Result<(), Failure<EncodeRefusal>>
    ensures bytes { OnOk result (out.new.items ≡ out.old.items ++ label_sets_bytes sets.now) }
    ensures valid { OnOk result (AreSetFields sets.now) }
    ensures refused { IfErr result (IsBadBy (¬ AreSetFields sets.now)) }
{
    let sets = sets.as_slice();
    push_length(out, sets.len())?;
    push_sets(out, sets)?;
    Ok(())
}
