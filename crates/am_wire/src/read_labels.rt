//! Reading label sets, annotations and sets of label sets.

ghost use Rattle.std.specs.Prelude.{◌≡◌, ◌<◌, ◌^◌, ◌++◌, ◌||◌, ◌==◌, not, All, IfOk, IsTrue, IsUtf8, None, false, true, length};
ghost use Rattle.std.specs.List.{flat_map};
ghost use Rattle.am_labels.specs.Labels.{is_label_name, labels_cmp, name_cmp};
ghost use Rattle.am_text.specs.Outcome.{Gives};
ghost use Rattle.am_wire.specs.Fields.{Chain, Rises, last_of, rises, several, text_bytes};
ghost use Rattle.am_wire.specs.LabelFields.{AreSetFields, HasTexts, IsAnnotationsField, IsLabelAfter, IsSetAfter, IsSetField, label_at, label_bytes, label_set_at, label_sets_at, label_sets_bytes, labels_at, labels_bytes, name_at, value_at};

use crate::reader::Reader;
use crate::refusal::WireRefusal;
use am_item::LabelSets;
use am_labels::{Annotations, Label, LabelSet, is_label_name};
use am_text::{Failure, Text};
use std::alloc::Global;

// Whether a name is greater than that of the last label.
fn name_rises(before: &[Label], name: &str) -> bool
    ensures { result ≡ rises name_cmp (last_of before.now) (record { name = name.now; value = name.now }) }
{
    match before.last() {
        Some(label) => label.name.as_str() < name,
        None => true,
    }
}

// Whether a label set is greater than the last one.
fn set_rises(before: &[LabelSet], labels: &LabelSet) -> bool
    ensures { result ≡ rises labels_cmp (last_of before.now) labels.now }
{
    match before.last() {
        Some(last) => last < labels,
        None => true,
    }
}

impl<'a> Reader<'a> {
    // A name, greater than that of the last label.
    #[tactic(auto, unfolding(crate::specs::LabelFields::name_at))]
    fn label_name(&mut self, alloc: Global, before: &[Label]) -> Result<Text, Failure<WireRefusal>>
        ensures read { Gives (λ name. (name, self.new)) result (name_at (last_of before.now) self.old) }
        ensures found { IfOk result (λ name. self.old ≡ text_bytes name ++ self.new) }
        ensures named { IfOk result (λ name. IsTrue (is_label_name name)) }
        ensures rising { IfOk result (λ name. IsTrue (rises name_cmp (last_of before.now) (record { name = name; value = name }))) }
        ensures text { IfOk result (λ name. IsUtf8 name) }
    {
        let name = self.str()?;
        if is_label_name(name) && name_rises(before, name) {
            Ok(Text::read(alloc, name)?)
        } else {
            Err(Failure::Refused(WireRefusal::BadValue))
        }
    }

    // A value, which may be empty or not.
    #[tactic(auto, unfolding(crate::specs::LabelFields::value_at))]
    fn label_value(
        &mut self,
        alloc: Global,
        may_be_empty: bool,
    ) -> Result<Text, Failure<WireRefusal>>
        ensures read { Gives (λ value. (value, self.new)) result (value_at may_be_empty self.old) }
        ensures found { IfOk result (λ value. self.old ≡ text_bytes value ++ self.new) }
        ensures value { IfOk result (λ value. IsTrue (may_be_empty || not (length value == 0))) }
        ensures text { IfOk result (λ value. IsUtf8 value) }
    {
        let value = self.str()?;
        if may_be_empty || !value.is_empty() {
            Ok(Text::read(alloc, value)?)
        } else {
            Err(Failure::Refused(WireRefusal::BadValue))
        }
    }

    // A label, its name greater than that of the last one.
    #[tactic(auto, unfolding(crate::specs::LabelFields::label_at, crate::specs::LabelFields::label_bytes))]
    fn label(
        &mut self,
        alloc: Global,
        before: &[Label],
        may_be_empty: bool,
    ) -> Result<Label, Failure<WireRefusal>>
        ensures read { Gives (λ label. (label, self.new)) result (label_at may_be_empty (last_of before.now) self.old) }
        ensures found { IfOk result (λ label. self.old ≡ label_bytes label ++ self.new) }
        ensures valid { IfOk result (λ label. IsLabelAfter may_be_empty (last_of before.now) label) }
    {
        let name = self.label_name(alloc, before)?;
        let value = self.label_value(alloc, may_be_empty)?;
        Ok(Label { name, value })
    }

    fn several_labels(
        &mut self,
        alloc: Global,
        count: u16,
        may_be_empty: bool,
    ) -> Result<Vec<Label>, Failure<WireRefusal>>
        ensures read { Gives (λ labels. (labels.items, self.new)) result (several (label_at may_be_empty) count None self.old) }
        ensures found { IfOk result (λ labels. self.old ≡ flat_map label_bytes labels.items ++ self.new) }
        ensures valid { IfOk result (λ labels. Chain (IsLabelAfter may_be_empty) None labels.items) }
        ensures length { IfOk result (λ labels. length labels.items ≡ count) }
    {
        let mut labels = Vec::new(alloc);
        for _ in 0..count {
            let label = self.label(alloc, &labels, may_be_empty)?;
            labels.push(label)?;
        }
        Ok(labels)
    }

    // Labels, their names rising.
    #[tactic(auto, unfolding(crate::specs::LabelFields::labels_at, crate::specs::LabelFields::labels_bytes))]
    fn labels(
        &mut self,
        alloc: Global,
        may_be_empty: bool,
    ) -> Result<Vec<Label>, Failure<WireRefusal>>
        ensures read { Gives (λ labels. (labels.items, self.new)) result (labels_at may_be_empty self.old) }
        ensures found { IfOk result (λ labels. self.old ≡ labels_bytes labels.items ++ self.new) }
        ensures valid { IfOk result (λ labels. Chain (IsLabelAfter may_be_empty) None labels.items) }
        ensures few { IfOk result (λ labels. length labels.items < 2 ^ 16) }
    {
        let count = self.u16()?;
        let labels = self.several_labels(alloc, count, may_be_empty)?;
        Ok(labels)
    }

    /// A label set.
    pub fn label_set(&mut self, alloc: Global) -> Result<LabelSet, Failure<WireRefusal>>
        ensures read { Gives (λ set. (set, self.new)) result (labels_at false self.old) }
        ensures found { IfOk result (λ set. self.old ≡ labels_bytes set ++ self.new) }
        ensures valid { IfOk result (λ set. IsSetField set) }
    {
        let labels = self.labels(alloc, false)?;
        match LabelSet::from_pairs(alloc, labels) {
            Ok(set) => Ok(set),
            Err(failure) => Err(failure.refuse_as(WireRefusal::BadValue)),
        }
    }

    /// Annotations.
    pub fn annotations(&mut self, alloc: Global) -> Result<Annotations, Failure<WireRefusal>>
        ensures read { Gives (λ set. (set, self.new)) result (labels_at true self.old) }
        ensures found { IfOk result (λ set. self.old ≡ labels_bytes set ++ self.new) }
        ensures valid { IfOk result (λ set. IsAnnotationsField set) }
    {
        let labels = self.labels(alloc, true)?;
        match Annotations::from_pairs(alloc, labels) {
            Ok(set) => Ok(set),
            Err(failure) => Err(failure.refuse_as(WireRefusal::BadValue)),
        }
    }

    // A label set, greater than the last one.
    #[tactic(auto, unfolding(crate::specs::LabelFields::label_set_at))]
    fn rising_set(
        &mut self,
        alloc: Global,
        before: &[LabelSet],
    ) -> Result<LabelSet, Failure<WireRefusal>>
        ensures read { Gives (λ set. (set, self.new)) result (label_set_at (last_of before.now) self.old) }
        ensures found { IfOk result (λ set. self.old ≡ labels_bytes set ++ self.new) }
        ensures valid { IfOk result (λ set. IsSetAfter (last_of before.now) set) }
    {
        let set = self.label_set(alloc)?;
        if set_rises(before, &set) {
            Ok(set)
        } else {
            Err(Failure::Refused(WireRefusal::BadValue))
        }
    }

    fn several_sets(
        &mut self,
        alloc: Global,
        count: u32,
    ) -> Result<Vec<LabelSet>, Failure<WireRefusal>>
        ensures read { Gives (λ sets. (sets.items, self.new)) result (several label_set_at count None self.old) }
        ensures found { IfOk result (λ sets. self.old ≡ flat_map labels_bytes sets.items ++ self.new) }
        ensures valid { IfOk result (λ sets. Chain IsSetAfter None sets.items) }
        ensures length { IfOk result (λ sets. length sets.items ≡ count) }
    {
        let mut sets = Vec::new(alloc);
        for _ in 0..count {
            let set = self.rising_set(alloc, &sets)?;
            sets.push(set)?;
        }
        Ok(sets)
    }

    /// Label sets, each greater than the one before it.
    #[tactic(auto, unfolding(crate::specs::LabelFields::label_sets_at, crate::specs::LabelFields::label_sets_bytes), using(crate::proofs::Rising::sets_of_chain))]
    pub fn label_sets(&mut self, alloc: Global) -> Result<LabelSets, Failure<WireRefusal>>
        ensures read { Gives (λ sets. (sets, self.new)) result (label_sets_at self.old) }
        ensures found { IfOk result (λ sets. self.old ≡ label_sets_bytes sets ++ self.new) }
        ensures valid { IfOk result (λ sets. AreSetFields sets) }
    {
        let count = self.u32()?;
        let sets = self.several_sets(alloc, count)?;
        match LabelSets::from_rising(sets) {
            Some(sets) => Ok(sets),
            None => unreachable!(),
        }
    }
}
