ghost use Rattle.std.specs.Prelude.{◌≡◌, ◌==◌, ℕ, List, length, Some, IfOk, IsErrOf, IsTrue, refl};
ghost use Rattle.std.specs.Cmp.{partial_equiv_from_equiv, eq_by_cmp_equiv, po};
ghost use Rattle.std.specs.Ordering.{eq_by_cmp};
ghost use Rattle.am_labels.specs.Labels.{labels_cmp, labels_total};

use crate::flat::flat_text;
use crate::hash::fingerprint_of;
use crate::pairs::{read_pairs, value_in};
use crate::{Label, LabelRefusal};
use am_text::{Failure, Text};
use std::alloc::{AllocError, Global};
use std::cmp::Ordering;
use std::marker::Model;
use std::rc::Rc;

/// A finite map from label names to values that aren't empty: its labels in order of name.
///
/// Label sets are ordered by their lists of labels.
pub struct LabelSet {
    parts: Rc<Parts>,
}

// The labels, and the text that stands for them in comparisons: one text compares faster than many.
#[derive(Drop)]
struct Parts {
    labels: Vec<Label>,
    flat: Option<Text>,
}

// Written out, so that a crate which owns one need not prove anew how its parts are dropped.
impl Drop for LabelSet {
    fn drop(self) {
        let LabelSet { parts } = self;
        drop(parts);
    }
}

impl Model for LabelSet {
    ghost use Rattle.std.specs.Prelude.{List};
    ghost use Rattle.am_labels.specs.declared.Label.{Label};

    ghost Value = { List Label };

    ghost use Rattle.std.specs.Prelude.{◌≡◌};
    ghost use Rattle.am_labels.specs.Flat.{flat_text};
    ghost use Rattle.am_labels.specs.Sets.{IsLabelSet};

    ghost view = { λ set. set.parts.value.labels.items };

    ghost invariant = { λ set. IsLabelSet set.parts.value.labels.items × (set.parts.value.flat ≡ flat_text set.parts.value.labels.items) };
}

impl LabelSet {
    ghost use Rattle.am_text.specs.Outcome.{Gives};
    ghost use Rattle.am_labels.specs.Labels.{are_label_names};
    ghost use Rattle.am_labels.specs.Sets.{IsLabelSet, label_set, value_of};
    ghost use Rattle.am_labels.specs.Hashes as hashes;

    /// The label set of these pairs of names and values, in any order. A pair with an empty value gives no
    /// label.
    ///
    /// Refused with [`LabelRefusal::BadName`] where any name is no label name (`[a-zA-Z_][a-zA-Z0-9_]*`), else
    /// with [`LabelRefusal::Repeated`] where a name is given twice, both also where the value is empty, and with
    /// no refusal where memory runs out. The pairs are dropped then.
    pub fn from_pairs(alloc: Global, pairs: Vec<Label>) -> Result<LabelSet, Failure<LabelRefusal>>
        ensures set { Gives (λ set. set) result (label_set pairs.items) }
        ensures memory { IsErrOf result Failure.OutOfMemory → IsTrue (are_label_names pairs.items) }
        ensures values { IfOk result (λ set. (name : List ℕ) → value_of name set ≡ value_of name pairs.items) }
    {
        let mut held = read_pairs(alloc, pairs)?;
        held.retain(|label| !label.value.is_empty());
        let flat = flat_text(alloc, &held)?;
        let parts = Parts { labels: held, flat };
        Ok(LabelSet {
            parts: Rc::new(alloc, parts)?,
        })
    }

    /// The value of the label of this name, empty where there is none.
    pub fn get(&self, name: &str) -> &str
        ensures { result.now ≡ value_of name.now self.now }
    {
        value_in(self.labels(), name)
    }

    /// The FNV-1a hash of 64 bits over each label in order of name: its name, byte 255, its value, byte 255.
    pub fn fingerprint(&self) -> u64
        ensures { result ≡ hashes.fingerprint self.now }
    {
        fingerprint_of(self.labels())
    }

    /// The labels in order of name.
    pub fn labels(&self) -> &[Label]
        ensures labels { result.now ≡ self.now }
        ensures set { IsLabelSet self.now }
    {
        self.parts.as_ref().labels.as_slice()
    }

    /// How many labels there are.
    pub fn len(&self) -> usize
        ensures { result ≡ length self.now }
    {
        self.labels().len()
    }

    /// Whether there is no label.
    pub fn is_empty(&self) -> bool
        ensures { result ≡ (length self.now == 0) }
    {
        self.labels().is_empty()
    }

    /// A copy of the label set.
    pub fn copy(&self) -> Result<LabelSet, AllocError>
        ensures { IfOk result (λ set. set ≡ self.now) }
    {
        let parts = self.parts.clone()?;
        Ok(LabelSet { parts })
    }
}

impl PartialEq for LabelSet {
    ghost eq = { eq_by_cmp labels_cmp };

    ghost laws = { partial_equiv_from_equiv (eq_by_cmp_equiv labels_total) };

    fn eq(&self, other: &LabelSet) -> bool {
        self.cmp(other).is_eq()
    }
}

impl Eq for LabelSet {
    ghost laws = { eq_by_cmp_equiv labels_total };
}

impl PartialOrd for LabelSet {
    ghost partial_cmp = { λ a b. Some (labels_cmp a b) };

    ghost laws = { po labels_total (λ _ _. refl) };

    fn partial_cmp(&self, other: &LabelSet) -> Option<Ordering> {
        Some(self.cmp(other))
    }
}

/// By the lists of labels: the first label that differs decides, and a set stands before those that it
/// begins.
impl Ord for LabelSet {
    ghost cmp = { labels_cmp };

    ghost total = { labels_total };

    ghost matches_partial_cmp = { λ a b. refl };

    ghost matches_eq = { λ a b. refl };

    #[tactic(auto, unfolding(crate::specs::Labels::labels_cmp))]
    fn cmp(&self, other: &LabelSet) -> Ordering {
        let (own, others) = (self.parts.as_ref(), other.parts.as_ref());
        match (&own.flat, &others.flat) {
            (Some(text), Some(other)) => text.cmp(other),
            _ => own.labels.as_slice().cmp(others.labels.as_slice()),
        }
    }
}
