//! An item that several lists share.

ghost use Rattle.std.specs.Prelude.{◌≡◌, IfOk};
ghost use Rattle.am_length.specs.Capped.{capped};
ghost use Rattle.am_item.specs.Key.{key_of};
ghost use Rattle.am_item.specs.Lengths.{spelled_length};
ghost use Rattle.am_item.specs.Retirement.{standing_of};
ghost use Rattle.am_item.specs.Shared.{item_of, thing_in};

use crate::entry::{EntryDetails, EntryKey};
use crate::held::Standing;
use crate::item::{AlertDetails, Item, Thing};
use crate::kept::{Kept, KeptValue};
use crate::key::ThingKey;
use crate::silence::{SilenceDetails, SilenceId};
use crate::stamp::{Stamp, Stamped};
use am_labels::LabelSet;
use am_text::Text;
use std::alloc::{AllocError, Global};
use std::marker::Model;

/// An item that stands in several lists at once, and in memory once.
pub struct SharedItem {
    kept: KeptItem,
}

// Written out, so that a crate which owns one need not prove anew how its parts are dropped.
impl Drop for SharedItem {
    fn drop(self) {
        let SharedItem { kept } = self;
        drop(kept);
    }
}

// What is kept of an item, kind by kind.
#[derive(Drop)]
pub(crate) enum KeptItem {
    Configuration(KeptValue<Option<Text>>),
    Silence(Kept<SilenceId, SilenceDetails>),
    Alert(Kept<LabelSet, AlertDetails>),
    SentEntry(Kept<EntryKey, EntryDetails>),
}

/// What an item is about: what names it within its kind, and what it is beside that.
#[derive(Clone, Copy)]
pub enum Part<'a> {
    /// The tenant's configuration; without a text it was deleted.
    Configuration(&'a Option<Text>),
    /// A silence.
    Silence(&'a SilenceId, &'a SilenceDetails),
    /// An alert.
    Alert(&'a LabelSet, &'a AlertDetails),
    /// What a webhook was last told of a group.
    SentEntry(&'a EntryKey, &'a EntryDetails),
}

impl Model for SharedItem {
    ghost use Rattle.am_item.specs.declared.item.Item.{Item};
    ghost use Rattle.am_item.specs.Shared.{item_of};

    ghost Value = { Item };

    ghost view = { λ shared. item_of shared.kept };
}

impl SharedItem {
    /// An item that can be shared from now on.
    ///
    /// An error is out of memory.
    pub fn new(alloc: Global, item: Item) -> Result<SharedItem, AllocError>
        ensures { IfOk result (λ shared. shared ≡ item) }
    {
        let Item { stamp, thing } = item;
        match thing {
            Thing::Configuration(value) => {
                let kept = KeptValue::new(alloc, Stamped { stamp, value })?;
                Ok(SharedItem::of(KeptItem::Configuration(kept)))
            }
            Thing::Silence(silence) => {
                let (id, value) = silence.into_parts();
                let kept = Kept::new(alloc, id, Stamped { stamp, value })?;
                Ok(SharedItem::of(KeptItem::Silence(kept)))
            }
            Thing::Alert(alert) => {
                let (labels, value) = alert.into_parts();
                let kept = Kept::new(alloc, labels, Stamped { stamp, value })?;
                Ok(SharedItem::of(KeptItem::Alert(kept)))
            }
            Thing::SentEntry(entry) => {
                let (key, value) = entry.into_parts();
                let kept = Kept::new(alloc, key, Stamped { stamp, value })?;
                Ok(SharedItem::of(KeptItem::SentEntry(kept)))
            }
        }
    }

    // The item of which this is kept.
    pub(crate) fn of(kept: KeptItem) -> SharedItem
        ensures { result ≡ item_of kept }
    {
        SharedItem { kept }
    }

    /// The same item once more. It takes no memory; an error says that it is held as often as can be counted.
    pub fn share(&self) -> Result<SharedItem, AllocError>
        ensures { IfOk result (λ shared. shared ≡ self.now) }
    {
        match &self.kept {
            KeptItem::Configuration(kept) => {
                Ok(SharedItem::of(KeptItem::Configuration(kept.copy()?)))
            }
            KeptItem::Silence(kept) => Ok(SharedItem::of(KeptItem::Silence(kept.copy()?))),
            KeptItem::Alert(kept) => Ok(SharedItem::of(KeptItem::Alert(kept.copy()?))),
            KeptItem::SentEntry(kept) => Ok(SharedItem::of(KeptItem::SentEntry(kept.copy()?))),
        }
    }

    // What is kept of it.
    pub(crate) fn into_kept(self) -> KeptItem
        ensures { item_of result ≡ self }
    {
        let SharedItem { kept } = self;
        kept
    }

    /// When and where it was written.
    pub fn stamp(&self) -> &Stamp
        ensures { result.now ≡ self.now.stamp }
    {
        match &self.kept {
            KeptItem::Configuration(kept) => &kept.get().stamp,
            KeptItem::Silence(kept) => &kept.value().stamp,
            KeptItem::Alert(kept) => &kept.value().stamp,
            KeptItem::SentEntry(kept) => &kept.value().stamp,
        }
    }

    /// What it is about.
    pub fn part(&self) -> Part<'_>
        ensures { thing_in result ≡ self.now.thing }
    {
        match &self.kept {
            KeptItem::Configuration(kept) => Part::Configuration(&kept.get().value),
            KeptItem::Silence(kept) => Part::Silence(kept.key(), &kept.value().value),
            KeptItem::Alert(kept) => Part::Alert(kept.key(), &kept.value().value),
            KeptItem::SentEntry(kept) => Part::SentEntry(kept.key(), &kept.value().value),
        }
    }

    /// How many bytes spell it in a message. It was counted when the item was made.
    #[tactic(auto, unfolding(crate::specs::Lengths::spelled_length))]
    pub fn spelled_len(&self) -> u64
        ensures { result ≡ capped (spelled_length self.now) }
    {
        match &self.kept {
            KeptItem::Configuration(kept) => kept.spelled_len(),
            KeptItem::Silence(kept) => kept.spelled_len(),
            KeptItem::Alert(kept) => kept.spelled_len(),
            KeptItem::SentEntry(kept) => kept.spelled_len(),
        }
    }

    /// What names it within its tenant.
    pub fn key(&self, alloc: Global) -> Result<ThingKey, AllocError>
        ensures { IfOk result (λ key. key ≡ key_of self.now) }
    {
        match &self.kept {
            KeptItem::Configuration(_) => Ok(ThingKey::Configuration),
            KeptItem::Silence(kept) => Ok(ThingKey::Silence(*kept.key())),
            KeptItem::Alert(kept) => Ok(ThingKey::Alert(kept.key().copy()?)),
            KeptItem::SentEntry(kept) => Ok(ThingKey::SentEntry(kept.key().copy(alloc)?)),
        }
    }

    /// Its stamp, and from when on it is retired.
    #[tactic(auto, unfolding(crate::specs::Retirement::retires_at))]
    pub fn standing(&self) -> Standing
        ensures { result ≡ standing_of self.now }
    {
        match &self.kept {
            KeptItem::Configuration(kept) => Standing {
                stamp: kept.get().stamp,
                retires_at: None,
            },
            KeptItem::Silence(kept) => kept.value().standing(),
            KeptItem::Alert(kept) => kept.value().standing(),
            KeptItem::SentEntry(kept) => kept.value().standing(),
        }
    }
}

/// Items that can be shared from now on.
///
/// An error is out of memory.
pub fn to_shared(alloc: Global, items: Vec<Item>) -> Result<Vec<SharedItem>, AllocError>
    ensures { IfOk result (λ shared. shared.items ≡ items.items) }
{
    let mut shared = Vec::with_capacity(alloc, items.len())?;
    for item in items {
        shared.push(SharedItem::new(alloc, item)?)?;
    }
    Ok(shared)
}

/// The same items once more.
///
/// An error is out of memory.
pub fn share_all(alloc: Global, items: &[SharedItem]) -> Result<Vec<SharedItem>, AllocError>
    ensures { IfOk result (λ shared. shared.items ≡ items.now) }
{
    let mut shared = Vec::with_capacity(alloc, items.len())?;
    for item in items {
        shared.push(item.share()?)?;
    }
    Ok(shared)
}
