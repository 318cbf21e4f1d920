ghost use Rattle.std.specs.Prelude.{◌≡◌, ◌↔◌, IsTrue, IfOk, IsErrOf, OnOk, bytes_eq, find};
ghost use Rattle.std.specs.List.Sorted.{IsPermutation, IsSorted, IsStrictlySortedBy};
ghost use Rattle.std.specs.Option.{option_copied};
ghost use Rattle.am_text.specs.Outcome.{Gives};
ghost use Rattle.am_labels.specs.Labels.{are_label_names, label_cmp, name_cmp};
ghost use Rattle.am_labels.specs.Sets.{IsAnnotations, annotations, value_of};

use crate::names::is_label_name;
use crate::{Label, LabelRefusal};
use am_text::Failure;
use std::alloc::{AllocError, Global};

// The pairs in order of name, where each name is a label name and none is given twice. Pairs that come in
// order are left as they are, and take no memory.
pub fn read_pairs(alloc: Global, mut pairs: Vec<Label>) -> Result<Vec<Label>, Failure<LabelRefusal>>
    ensures pairs { Gives (λ labels. labels.items) result (annotations pairs.items) }
    ensures rules { IfOk result (λ labels. IsAnnotations labels.items) }
    ensures memory { IsErrOf result Failure.OutOfMemory → IsTrue (are_label_names pairs.items) }
{
    if !are_label_names(&pairs) {
        return Err(Failure::Refused(LabelRefusal::BadName));
    }
    if names_rise(&pairs) {
        return Ok(pairs);
    }
    sort(alloc, &mut pairs)?;
    if names_rise(&pairs) {
        Ok(pairs)
    } else {
        Err(Failure::Refused(LabelRefusal::Repeated))
    }
}

// Sorts the labels.
fn sort(alloc: Global, labels: &mut Vec<Label>) -> Result<(), AllocError>
    ensures permutation { IsPermutation labels.old.items labels.new.items }
    ensures sorted { OnOk result (IsSorted label_cmp labels.new.items) }
{
    labels.as_mut_slice().sort(alloc)?;
    Ok(())
}

// Whether each name is a label name.
fn are_label_names(labels: &[Label]) -> bool
    ensures { result ≡ are_label_names labels.now }
{
    labels
        .iter()
        .all(|label| is_label_name(label.name.as_str()))
}

// Whether each name is below the next.
fn names_rise(labels: &[Label]) -> bool
    ensures { IsTrue result ↔ IsStrictlySortedBy name_cmp labels.now }
{
    labels.is_sorted_by(|label, next| label.name < next.name)
}

// A copy of the labels.
pub fn copy_labels(alloc: Global, labels: &[Label]) -> Result<Vec<Label>, AllocError>
    ensures { IfOk result (λ copies. copies.items ≡ labels.now) }
{
    let mut copies = Vec::with_capacity(alloc, labels.len())?;
    for label in labels {
        copies.push(label.copy(alloc)?)?;
    }
    Ok(copies)
}

// The value that the labels give to a name, empty where they give none.
#[tactic(auto, unfolding(crate::specs::Sets::value_of))]
pub fn value_in<'a>(labels: &'a [Label], name: &str) -> &'a str
    ensures { result.now ≡ value_of name.now labels.now }
{
    match find_label(labels, name) {
        Some(label) => label.value.as_str(),
        None => "",
    }
}

// The first label of this name.
fn find_label<'a>(labels: &'a [Label], name: &str) -> Option<&'a Label>
    ensures { option_copied result ≡ find (λ label. bytes_eq name.now label.name) labels.now }
{
    labels.iter().find(|label| name == label.name.as_str())
}
