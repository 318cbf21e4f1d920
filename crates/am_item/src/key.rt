ghost use Rattle.std.specs.Prelude.{◌≡◌, Some, refl};
ghost use Rattle.std.specs.Cmp.{partial_equiv_from_equiv, eq_by_cmp_equiv, po};
ghost use Rattle.std.specs.Ordering.{eq_by_cmp};

use crate::entry::EntryKey;
use crate::silence::SilenceId;
use am_labels::LabelSet;
use std::cmp::Ordering;

/// What names an item within its tenant.
#[derive(Drop)]
pub enum ThingKey {
    /// Of the configuration, of which there is one.
    Configuration,
    /// Of the silence with this identifier.
    Silence(SilenceId),
    /// Of the alert with this label set.
    Alert(LabelSet),
    /// Of a sent entry.
    SentEntry(EntryKey),
}

impl ThingKey {
    ghost use Rattle.am_item.specs.Key.{kind_of};

    // The place of the kind in the order of kinds.
    fn kind(&self) -> u8
        ensures { result ≡ kind_of self.now }
    {
        match self {
            ThingKey::Configuration => 1,
            ThingKey::Silence(_) => 2,
            ThingKey::Alert(_) => 3,
            ThingKey::SentEntry(_) => 4,
        }
    }
}

impl PartialEq for ThingKey {
    ghost use Rattle.am_item.specs.Key.{key_cmp};
    ghost use Rattle.am_item.specs.KeyTotal.{keys_total};

    ghost eq = { eq_by_cmp key_cmp };

    ghost laws = { partial_equiv_from_equiv (eq_by_cmp_equiv keys_total) };

    fn eq(&self, other: &ThingKey) -> bool {
        self.cmp(other).is_eq()
    }
}

impl Eq for ThingKey {
    ghost use Rattle.am_item.specs.KeyTotal.{keys_total};

    ghost laws = { eq_by_cmp_equiv keys_total };
}

impl PartialOrd for ThingKey {
    ghost use Rattle.am_item.specs.Key.{key_cmp};
    ghost use Rattle.am_item.specs.KeyTotal.{keys_total};

    ghost partial_cmp = { λ a b. Some (key_cmp a b) };

    ghost laws = { po keys_total (λ _ _. refl) };

    fn partial_cmp(&self, other: &ThingKey) -> Option<Ordering> {
        Some(self.cmp(other))
    }
}

/// By kind: the configuration, then silences, alerts, sent entries; within a kind by what names them.
impl Ord for ThingKey {
    ghost use Rattle.am_item.specs.Key.{key_cmp};
    ghost use Rattle.am_item.specs.KeyTotal.{keys_total};

    ghost cmp = { key_cmp };

    ghost total = { keys_total };

    ghost matches_partial_cmp = { λ a b. refl };

    ghost matches_eq = { λ a b. refl };

    #[tactic(auto, unfolding(crate::specs::Key::key_cmp))]
    fn cmp(&self, other: &ThingKey) -> Ordering {
        match (self, other) {
            (ThingKey::Silence(own), ThingKey::Silence(id)) => own.cmp(id),
            (ThingKey::Alert(own), ThingKey::Alert(labels)) => own.cmp(labels),
            (ThingKey::SentEntry(own), ThingKey::SentEntry(entry)) => own.cmp(entry),
            _ => self.kind().cmp(&other.kind()),
        }
    }
}
