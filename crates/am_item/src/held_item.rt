//! An item where it is held.

ghost use Rattle.std.specs.Prelude.{◌≡◌, ◌<◌, ◌++◌, HoldsAt, IfOk, length};
ghost use Rattle.am_length.specs.Capped.{capped};
ghost use Rattle.am_item.specs.Held.{alert_item, entry_item, items_by, silence_item};
ghost use Rattle.am_item.specs.Lengths.{spelled_length};
ghost use Rattle.am_item.specs.Shared.{held_as};

use crate::entry::{EntryDetails, EntryKey};
use crate::item::AlertDetails;
use crate::kept::{Kept, KeptValue};
use crate::shared_item::{KeptItem, SharedItem};
use crate::silence::{SilenceDetails, SilenceId};
use am_labels::LabelSet;
use am_text::Text;
use std::alloc::AllocError;

/// What is held of an item, kind by kind.
#[derive(Clone, Copy)]
pub(crate) enum HeldItem<'a> {
    Configuration(&'a KeptValue<Option<Text>>),
    Silence(&'a Kept<SilenceId, SilenceDetails>),
    Alert(&'a Kept<LabelSet, AlertDetails>),
    SentEntry(&'a Kept<EntryKey, EntryDetails>),
}

impl HeldItem<'_> {
    /// How many bytes spell the item in a message.
    #[tactic(auto, unfolding(crate::specs::Lengths::spelled_length))]
    pub(crate) fn spelled_len(&self) -> u64
        ensures { result ≡ capped (spelled_length (held_as self.now)) }
    {
        match self {
            HeldItem::Configuration(kept) => kept.spelled_len(),
            HeldItem::Silence(kept) => kept.spelled_len(),
            HeldItem::Alert(kept) => kept.spelled_len(),
            HeldItem::SentEntry(kept) => kept.spelled_len(),
        }
    }

    /// The item, held once more.
    pub(crate) fn share(&self) -> Result<SharedItem, AllocError>
        ensures { IfOk result (λ shared. shared ≡ held_as self.now) }
    {
        match self {
            HeldItem::Configuration(kept) => {
                Ok(SharedItem::of(KeptItem::Configuration(kept.copy()?)))
            }
            HeldItem::Silence(kept) => Ok(SharedItem::of(KeptItem::Silence(kept.copy()?))),
            HeldItem::Alert(kept) => Ok(SharedItem::of(KeptItem::Alert(kept.copy()?))),
            HeldItem::SentEntry(kept) => Ok(SharedItem::of(KeptItem::SentEntry(kept.copy()?))),
        }
    }
}

/// The item at a place of what is held beside the configuration, from 0 on.
pub(crate) fn item_behind<'a>(
    silences: &'a [Kept<SilenceId, SilenceDetails>],
    alerts: &'a [Kept<LabelSet, AlertDetails>],
    sent: &'a [Kept<EntryKey, EntryDetails>],
    place: usize,
) -> HeldItem<'a>
    requires { place < length (items_by silence_item silences.now
        ++ (items_by alert_item alerts.now ++ items_by entry_item sent.now)) }
    ensures { HoldsAt (λ item. held_as result ≡ item) (items_by silence_item silences.now
        ++ (items_by alert_item alerts.now ++ items_by entry_item sent.now)) place }
{
    if place < silences.len() {
        return HeldItem::Silence(&silences[place]);
    }
    let left = place - silences.len();
    if left < alerts.len() {
        return HeldItem::Alert(&alerts[left]);
    }
    HeldItem::SentEntry(&sent[left - alerts.len()])
}
