ghost use Rattle.std.specs.Prelude.{◌≡◌, IfOk, Some, refl};
ghost use Rattle.std.specs.Cmp.{partial_equiv_from_equiv, eq_by_cmp_equiv, po};
ghost use Rattle.std.specs.Ordering.{eq_by_cmp};

use crate::label_sets::LabelSets;
use am_text::{Moment, Text};
use std::alloc::{AllocError, Global};
use std::cmp::Ordering;

/// What names a sent entry: whom was told of what.
#[derive(Drop)]
pub struct EntryKey {
    /// The receiver's name.
    pub receiver: Text,
    /// The group's key.
    pub group: Text,
    /// Which of the receiver's webhooks it was, from 0 on.
    pub webhook: u8,
}

impl EntryKey {
    /// The same key once more.
    ///
    /// An error is out of memory.
    pub fn copy(&self, alloc: Global) -> Result<EntryKey, AllocError>
        ensures { IfOk result (λ copy. copy ≡ self.now) }
    {
        Ok(EntryKey {
            receiver: self.receiver.copy(alloc)?,
            group: self.group.copy(alloc)?,
            webhook: self.webhook,
        })
    }
}

impl PartialEq for EntryKey {
    ghost use Rattle.am_item.specs.EntryKey.{entry_cmp, entry_total};

    ghost eq = { eq_by_cmp entry_cmp };

    ghost laws = { partial_equiv_from_equiv (eq_by_cmp_equiv entry_total) };

    fn eq(&self, other: &EntryKey) -> bool {
        self.cmp(other).is_eq()
    }
}

impl Eq for EntryKey {
    ghost use Rattle.am_item.specs.EntryKey.{entry_total};

    ghost laws = { eq_by_cmp_equiv entry_total };
}

impl PartialOrd for EntryKey {
    ghost use Rattle.am_item.specs.EntryKey.{entry_cmp, entry_total};

    ghost partial_cmp = { λ a b. Some (entry_cmp a b) };

    ghost laws = { po entry_total (λ _ _. refl) };

    fn partial_cmp(&self, other: &EntryKey) -> Option<Ordering> {
        Some(self.cmp(other))
    }
}

/// By receiver, then group, then webhook.
impl Ord for EntryKey {
    ghost use Rattle.am_item.specs.EntryKey.{entry_cmp, entry_total};

    ghost cmp = { entry_cmp };

    ghost total = { entry_total };

    ghost matches_partial_cmp = { λ a b. refl };

    ghost matches_eq = { λ a b. refl };

    fn cmp(&self, other: &EntryKey) -> Ordering {
        self.receiver
            .cmp(&other.receiver)
            .then(self.group.cmp(&other.group))
            .then(self.webhook.cmp(&other.webhook))
    }
}

/// What a webhook of a receiver was last told of a group.
#[derive(Drop)]
pub struct SentEntry {
    /// The receiver's name.
    pub receiver: Text,
    /// The group's key.
    pub group: Text,
    /// Which of the receiver's webhooks it was, from 0 on.
    pub webhook: u8,
    /// Until when the entry is of use: its stamp's moment and the route's group interval and repeat interval
    /// together.
    pub ends_at: Moment,
    /// The alerts of which it was told that they fire.
    pub firing: LabelSets,
    /// The alerts of which it was told that they are resolved.
    pub resolved: LabelSets,
}

/// What a sent entry is beside its key.
#[derive(Drop)]
pub struct EntryDetails {
    /// Until when the entry is of use.
    pub ends_at: Moment,
    /// The alerts of which it was told that they fire.
    pub firing: LabelSets,
    /// The alerts of which it was told that they are resolved.
    pub resolved: LabelSets,
}

impl SentEntry {
    ghost use Rattle.am_item.specs.Details.{entry_details, entry_key};

    // The key, and what the entry is beside it.
    pub(crate) fn into_parts(self) -> (EntryKey, EntryDetails)
        ensures { result ≡ (entry_key self, entry_details self) }
    {
        let SentEntry {
            receiver,
            group,
            webhook,
            ends_at,
            firing,
            resolved,
        } = self;
        let key = EntryKey {
            receiver,
            group,
            webhook,
        };
        let details = EntryDetails {
            ends_at,
            firing,
            resolved,
        };
        (key, details)
    }
}
