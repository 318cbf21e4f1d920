ghost use Rattle.std.specs.Prelude.{◌≡◌, MatchOption, None, Some};
ghost use Rattle.am_labels.specs.Labels.{labels_cmp};
ghost use Rattle.std.specs.List.Sorted.{IsStrictlySortedBy};

use am_labels::LabelSet;
use std::marker::Model;

/// Label sets in their order, each once.
pub struct LabelSets {
    sets: Vec<LabelSet>,
}

// Written out, so that a crate which owns one need not prove anew how its parts are dropped.
impl Drop for LabelSets {
    fn drop(self) {
        let LabelSets { sets } = self;
        drop(sets);
    }
}

impl Model for LabelSets {
    ghost use Rattle.std.specs.Prelude.{List};
    ghost use Rattle.am_labels.specs.declared.Label.{Label};

    ghost Value = { List (List Label) };

    ghost use Rattle.std.specs.List.Sorted.{IsStrictlySortedBy};
    ghost use Rattle.am_labels.specs.Labels.{labels_cmp};

    ghost view = { λ s. s.sets.items };

    ghost invariant = { λ s. IsStrictlySortedBy labels_cmp s.sets.items };
}

impl LabelSets {
    /// These label sets, where each is greater than the one before it; `None` where one isn't.
    pub fn from_rising(sets: Vec<LabelSet>) -> Option<LabelSets>
        ensures { MatchOption result (IsStrictlySortedBy labels_cmp sets.items → ⊥) (λ s. s ≡ sets.items) }
    {
        if sets.is_sorted_by(|a, b| a < b) {
            Some(LabelSets { sets })
        } else {
            None
        }
    }

    /// The label sets in their order.
    pub fn as_slice(&self) -> &[LabelSet]
        ensures sets { result.now ≡ self.now }
        ensures rising { IsStrictlySortedBy labels_cmp self.now }
    {
        self.sets.as_slice()
    }
}
