//! The values of some labels of a label set, as a key.

ghost use Rattle.std.specs.Prelude.{◌≡◌, IfOk, Some, refl};
ghost use Rattle.std.specs.Cmp.{partial_equiv_from_equiv, eq_by_cmp_equiv, po};
ghost use Rattle.std.specs.Ordering.{eq_by_cmp};
ghost use Rattle.am_inhibit.specs.Alike.{key_of, keys_cmp, keys_total};

use am_labels::LabelSet;
use am_text::Text;
use std::alloc::{AllocError, Global};
use std::cmp::Ordering;
use std::marker::Model;

/// The values of some labels, in the order of their names.
#[derive(Drop)]
pub struct Key<'a> {
    values: Vec<&'a str>,
}

impl<'a> Model for Key<'a> {
    ghost use Rattle.std.specs.Prelude.{ℕ, List, map};

    ghost Value = { List (List ℕ) };

    ghost view = { λ key. map (λ value. value.now) key.values.items };
}

impl<'a> Key<'a> {
    /// The values that the label set has of these labels, empty where it has none.
    pub fn of(alloc: Global, names: &[Text], set: &'a LabelSet) -> Result<Key<'a>, AllocError>
        ensures { IfOk result (λ key. key ≡ key_of names.now set.now) }
    {
        let mut values = Vec::with_capacity(alloc, names.len())?;
        for name in names {
            values.push(set.get(name.as_str()))?;
        }
        Ok(Key { values })
    }
}

impl PartialEq for Key<'_> {
    ghost eq = { eq_by_cmp keys_cmp };

    ghost laws = { partial_equiv_from_equiv (eq_by_cmp_equiv keys_total) };

    fn eq(&self, other: &Key<'_>) -> bool {
        self.cmp(other).is_eq()
    }
}

impl Eq for Key<'_> {
    ghost laws = { eq_by_cmp_equiv keys_total };
}

impl PartialOrd for Key<'_> {
    ghost partial_cmp = { λ a b. Some (keys_cmp a b) };

    ghost laws = { po keys_total (λ _ _. refl) };

    fn partial_cmp(&self, other: &Key<'_>) -> Option<Ordering> {
        Some(self.cmp(other))
    }
}

/// By the lists of values: the first that differs decides.
impl Ord for Key<'_> {
    ghost cmp = { keys_cmp };

    ghost total = { keys_total };

    ghost matches_partial_cmp = { λ a b. refl };

    ghost matches_eq = { λ a b. refl };

    fn cmp(&self, other: &Key<'_>) -> Ordering {
        self.values.as_slice().cmp(other.values.as_slice())
    }
}
