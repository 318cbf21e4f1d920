ghost use Rattle.std.specs.Prelude.{◌≡◌, ◌==◌, ℕ, List, length, IfOk, IsErrOf, IsTrue};
ghost use Rattle.std.specs.Cmp.{partial_equiv_from_equiv, eq_by_cmp_equiv};
ghost use Rattle.std.specs.Ordering.{eq_by_cmp};
ghost use Rattle.am_labels.specs.Labels.{labels_cmp, labels_total};

use crate::pairs::{copy_labels, read_pairs, value_in};
use crate::{Label, LabelRefusal};
use am_text::Failure;
use std::alloc::{AllocError, Global};
use std::marker::Model;

/// A finite map from label names to texts, which may be empty: its pairs in order of name.
pub struct Annotations {
    labels: Vec<Label>,
}

// Written out, so that a crate which owns one need not prove anew how its parts are dropped.
impl Drop for Annotations {
    fn drop(self) {
        let Annotations { labels } = self;
        drop(labels);
    }
}

impl Model for Annotations {
    ghost use Rattle.std.specs.Prelude.{List};
    ghost use Rattle.am_labels.specs.declared.Label.{Label};

    ghost Value = { List Label };

    ghost use Rattle.am_labels.specs.Sets.{IsAnnotations};

    ghost view = { λ set. set.labels.items };

    ghost invariant = { λ set. IsAnnotations set.labels.items };
}

impl Annotations {
    ghost use Rattle.am_text.specs.Outcome.{Gives};
    ghost use Rattle.am_labels.specs.Labels.{are_label_names};
    ghost use Rattle.am_labels.specs.Sets.{IsAnnotations, annotations, value_of};

    /// The annotations of these pairs of names and values, in any order.
    ///
    /// Refused with [`LabelRefusal::BadName`] where any name is no label name (`[a-zA-Z_][a-zA-Z0-9_]*`), else
    /// with [`LabelRefusal::Repeated`] where a name is given twice, and with no refusal where memory
    /// runs out. The pairs are dropped then.
    pub fn from_pairs(
        alloc: Global,
        pairs: Vec<Label>,
    ) -> Result<Annotations, Failure<LabelRefusal>>
        ensures set { Gives (λ set. set) result (annotations pairs.items) }
        ensures memory { IsErrOf result Failure.OutOfMemory → IsTrue (are_label_names pairs.items) }
        ensures values { IfOk result (λ set. (name : List ℕ) → value_of name set ≡ value_of name pairs.items) }
    {
        let labels = read_pairs(alloc, pairs)?;
        Ok(Annotations { labels })
    }

    /// The text that is given to the name, empty where there is none.
    pub fn get(&self, name: &str) -> &str
        ensures { result.now ≡ value_of name.now self.now }
    {
        value_in(&self.labels, name)
    }

    /// The pairs in order of name.
    pub fn labels(&self) -> &[Label]
        ensures labels { result.now ≡ self.now }
        ensures set { IsAnnotations self.now }
    {
        self.labels.as_slice()
    }

    /// How many pairs there are.
    pub fn len(&self) -> usize
        ensures { result ≡ length self.now }
    {
        self.labels.len()
    }

    /// Whether there is no pair.
    pub fn is_empty(&self) -> bool
        ensures { result ≡ (length self.now == 0) }
    {
        self.labels.is_empty()
    }

    /// A copy of the annotations.
    pub fn copy(&self, alloc: Global) -> Result<Annotations, AllocError>
        ensures { IfOk result (λ set. set ≡ self.now) }
    {
        let labels = copy_labels(alloc, &self.labels)?;
        Ok(Annotations { labels })
    }
}

impl PartialEq for Annotations {
    ghost eq = { eq_by_cmp labels_cmp };

    ghost laws = { partial_equiv_from_equiv (eq_by_cmp_equiv labels_total) };

    #[tactic(auto, unfolding(crate::specs::Labels::labels_cmp))]
    fn eq(&self, other: &Annotations) -> bool {
        self.labels.as_slice().cmp(other.labels.as_slice()).is_eq()
    }
}

impl Eq for Annotations {
    ghost laws = { eq_by_cmp_equiv labels_total };
}
