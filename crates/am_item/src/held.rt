ghost use Rattle.std.specs.Prelude.{◌≡◌, ◌<◌, ◌≤◌, ◌++◌, ℕ, List, [], None, Some, length, sum_by};
ghost use Rattle.std.specs.Prelude.{HoldsAt, IfOk, OnErr, OnOk};
ghost use Rattle.std.specs.Cmp.Lexicographic.{slice_cmp};
ghost use Rattle.std.specs.Option.{option_copied, option_map};
ghost use Rattle.std.specs.Ordering.{nat_cmp};
ghost use Rattle.am_labels.specs.declared.Label.{Label};
ghost use Rattle.am_labels.specs.Labels.{labels_cmp};
ghost use Rattle.am_length.specs.Capped.{capped};
ghost use Rattle.am_item.specs.Best.{joined};
ghost use Rattle.am_item.specs.EntryKey.{entry_cmp};
ghost use Rattle.am_item.specs.Held.{alert_item, configuration_item, configuration_items, entry_item, items_by};
ghost use Rattle.am_item.specs.Held.{silence_item};
ghost use Rattle.am_item.specs.Lengths.{spelled_length};
ghost use Rattle.am_item.specs.Newest.{newer, newest};
ghost use Rattle.am_item.specs.Retirement.{put_over, standing_of};
ghost use Rattle.am_item.specs.Shared.{held_as};
ghost use Rattle.am_item.specs.Sorted.{IsOrdered, get};

use crate::entry::{EntryDetails, EntryKey};
use crate::held_item::{HeldItem, item_behind};
use crate::item::AlertDetails;
use crate::kept::KeptValue;
use crate::key::ThingKey;
use crate::map::SharedMap;
use crate::shared_item::{KeptItem, SharedItem};
use crate::silence::{SilenceDetails, SilenceId};
use crate::stamp::{Stamp, Stamped};
use am_labels::LabelSet;
use am_length::Spelled;
use am_text::{Moment, Text};
use std::alloc::{AllocError, Global};
use std::marker::Model;

/// The stamp of an item that is held, and from when on the item is retired.
#[derive(Clone, Copy, PartialEq, Eq)]
pub struct Standing {
    /// When and where it was written.
    pub stamp: Stamp,
    /// From when on it is retired; `None` for a configuration, which never is.
    pub retires_at: Option<Moment>,
}

/// What a put did.
#[derive(Clone, Copy)]
pub enum Put {
    /// No item of its key was held: it is held now.
    New,
    /// It took the place of one with a smaller stamp, of which this stood.
    Replaced(Standing),
    /// One whose stamp is no smaller was held, and stays.
    Older,
}

/// What is held of one tenant: of each key the item with the greatest stamp, kind by kind, each kind in the
/// order of its keys.
pub struct Held {
    configuration: Option<KeptValue<Option<Text>>>,
    silences: SharedMap<SilenceId, SilenceDetails>,
    alerts: SharedMap<LabelSet, AlertDetails>,
    sent: SharedMap<EntryKey, EntryDetails>,
}

// Written out, so that a crate which owns one need not prove anew how its parts are dropped.
impl Drop for Held {
    fn drop(self) {
        let Held {
            configuration,
            silences,
            alerts,
            sent,
        } = self;
        drop(configuration);
        drop(silences);
        drop(alerts);
        drop(sent);
    }
}

impl Model for Held {
    ghost use Rattle.std.specs.Prelude.{List};
    ghost use Rattle.am_item.specs.declared.item.Item.{Item};

    ghost Value = { List Item };

    ghost use Rattle.am_item.specs.Held.{AreOrdered, items_in};

    ghost view = { items_in };

    ghost invariant = { AreOrdered };
}

impl Held {
    ghost use Rattle.am_item.specs.Best.{IsRising, best, item_at, joined, merged};
    ghost use Rattle.std.specs.Prelude.{filter, not};
    ghost use Rattle.std.specs.List.{slice_range};
    ghost use Rattle.am_item.specs.declared.entry.EntryKey.{EntryKey};
    ghost use Rattle.am_item.specs.Key.{AlertKey, ConfigurationKey, SentEntryKey, SilenceKey, has_key, key_of};
    ghost use Rattle.am_item.specs.Kinds.{alerts_of, entries_of, silences_of};

    /// Nothing held.
    #[tactic(auto, unfolding(crate::specs::Held::items_in))]
    pub fn new(alloc: Global) -> Result<Held, AllocError>
        ensures { IfOk result (λ held. held ≡ []) }
    {
        Ok(Held {
            configuration: None,
            silences: SharedMap::new(alloc)?,
            alerts: SharedMap::new(alloc)?,
            sent: SharedMap::new(alloc)?,
        })
    }

    /// The best of these items.
    ///
    /// An error is out of memory.
    pub fn best_of(alloc: Global, items: &[SharedItem]) -> Result<Held, AllocError>
        ensures { IfOk result (λ held. held ≡ best items.now) }
    {
        let mut held = Held::new(alloc)?;
        for item in items {
            let item = item.share()?;
            add(&mut held, item)?;
        }
        Ok(held)
    }

    /// The configuration, where one is held: its text, or none where it was deleted. It comes before the silences,
    /// then the alerts, then the sent entries.
    pub fn configuration(&self) -> Option<&Stamped<Option<Text>>>
        ensures whole { self.now ≡ configuration_items (option_copied result) ++ (silences_of self.now ++ (alerts_of self.now ++ entries_of self.now)) }
        ensures at { option_map configuration_item (option_copied result) ≡ item_at ConfigurationKey self.now }
    {
        value_of(&self.configuration)
    }

    /// The silences by their identifiers, in order.
    pub fn silences(&self) -> &SharedMap<SilenceId, SilenceDetails>
        ensures items { items_by silence_item result.now ≡ silences_of self.now }
        ensures at { (id : List ℕ) → option_map (silence_item id) (get (slice_cmp nat_cmp) result.now id) ≡ item_at (SilenceKey id) self.now }
    {
        &self.silences
    }

    /// The alerts by their label sets, in order.
    pub fn alerts(&self) -> &SharedMap<LabelSet, AlertDetails>
        ensures items { items_by alert_item result.now ≡ alerts_of self.now }
        ensures at { (labels : List Label) → option_map (alert_item labels) (get labels_cmp result.now labels) ≡ item_at (AlertKey labels) self.now }
    {
        &self.alerts
    }

    /// The sent entries by receiver, group and webhook, in order.
    pub fn sent_entries(&self) -> &SharedMap<EntryKey, EntryDetails>
        ensures items { items_by entry_item result.now ≡ entries_of self.now }
        ensures at { (key : EntryKey) → option_map (entry_item key) (get entry_cmp result.now key) ≡ item_at (SentEntryKey key) self.now }
    {
        &self.sent
    }

    /// How many bytes spell the items that are held. It takes the same time however many there are.
    pub fn spelled_len(&self) -> u64
        ensures { result ≡ capped (sum_by spelled_length self.now) }
    {
        configuration_len(&self.configuration)
            .saturating_add(self.silences.spelled_len())
            .saturating_add(self.alerts.spelled_len())
            .saturating_add(self.sent.spelled_len())
    }

    /// How many bytes spell the alerts among them. It takes the same time however many there are.
    pub fn alert_bytes(&self) -> u64
        ensures { result ≡ capped (sum_by spelled_length (alerts_of self.now)) }
    {
        self.alerts.spelled_len()
    }

    /// Puts an item: it takes its key's place, unless an item of that key is held whose stamp is no smaller. Answers
    /// which of these it was. An error, which is out of memory, leaves all items as they were.
    pub fn put(&mut self, item: SharedItem) -> Result<Put, AllocError>
        ensures put { IfOk result (λ put. put ≡ put_over (option_map standing_of (item_at (key_of item) self.old)) item.stamp) }
        ensures joined { OnOk result (self.new ≡ joined self.old item) }
        ensures err { OnErr result (self.new ≡ self.old) }
    {
        match item.into_kept() {
            KeptItem::Configuration(kept) => put_configuration(&mut self.configuration, kept),
            KeptItem::Silence(kept) => self.silences.put(kept),
            KeptItem::Alert(kept) => self.alerts.put(kept),
            KeptItem::SentEntry(kept) => self.sent.put(kept),
        }
    }

    /// Removes the item of a key, where one is held. An error, which is out of memory, leaves all items as they were;
    /// it comes only where a snapshot shares the list that the item stands in, which is then copied.
    pub fn remove(&mut self, key: &ThingKey) -> Result<(), AllocError>
        ensures removed { OnOk result (self.new ≡ filter (λ item. not (has_key key.now item)) self.old) }
        ensures err { OnErr result (self.new ≡ self.old) }
    {
        match key {
            ThingKey::Configuration => {
                remove_configuration(&mut self.configuration);
                Ok(())
            }
            ThingKey::Silence(id) => self.silences.remove(id),
            ThingKey::Alert(labels) => self.alerts.remove(labels),
            ThingKey::SentEntry(key) => self.sent.remove(key),
        }
    }

    /// What is held now, whatever comes later. It copies no item and no list, so it takes the same time however much is
    /// held; a put or a remove of either copies the one list that it changes, and no item.
    pub fn snapshot(&self) -> Result<Held, AllocError>
        ensures same { IfOk result (λ held. held ≡ self.now) }
        ensures rising { IsRising self.now }
    {
        let configuration = copy_of(&self.configuration)?;
        let silences = self.silences.snapshot()?;
        let alerts = self.alerts.snapshot()?;
        let sent = self.sent.snapshot()?;
        Ok(Held {
            configuration,
            silences,
            alerts,
            sent,
        })
    }

    /// How many items are held.
    pub fn len(&self) -> usize
        ensures { result ≡ length self.now }
    {
        let configurations = usize::from(self.configuration.is_some());
        let silences = self.silences.entries().len();
        let alerts = self.alerts.entries().len();
        let sent = self.sent.entries().len();
        configurations + silences + alerts + sent
    }

    // The item at a place, from 0 on, in the order of keys.
    fn at(&self, place: usize) -> HeldItem<'_>
        requires { place < length self.now }
        ensures { HoldsAt (λ item. held_as result ≡ item) self.now place }
    {
        let silences = self.silences.entries();
        let alerts = self.alerts.entries();
        let sent = self.sent.entries();
        match &self.configuration {
            None => item_behind(silences, alerts, sent, place),
            Some(kept) => {
                if place == 0 {
                    HeldItem::Configuration(kept)
                } else {
                    item_behind(silences, alerts, sent, place - 1)
                }
            }
        }
    }

    /// How many bytes spell the item at a place, from 0 on, in the order of keys. It reads nothing of the item itself.
    pub fn spelled_at(&self, place: usize) -> u64
        requires { place < length self.now }
        ensures { HoldsAt (λ item. result ≡ capped (spelled_length item)) self.now place }
    {
        self.at(place).spelled_len()
    }

    /// The items from one place up to another, in the order of keys, shared with those who hold them.
    ///
    /// An error is out of memory.
    pub fn part(&self, alloc: Global, from: usize, to: usize) -> Result<Vec<SharedItem>, AllocError>
        requires order { from ≤ to }
        requires within { to ≤ length self.now }
        ensures { IfOk result (λ items. items.items ≡ slice_range self.now from to) }
    {
        let mut items = Vec::with_capacity(alloc, to - from)?;
        for place in from..to {
            items.push(self.at(place).share()?)?;
        }
        Ok(items)
    }

    /// All that is held, in the order of keys, shared with those who hold it.
    ///
    /// An error is out of memory.
    #[tactic(auto, using(crate::proofs::Placed::whole_part))]
    pub fn items(&self, alloc: Global) -> Result<Vec<SharedItem>, AllocError>
        ensures { IfOk result (λ items. items.items ≡ self.now) }
    {
        self.part(alloc, 0, self.len())
    }

    /// The merge of two holdings: of each key the item with the greater stamp, of two with one stamp the own. Its items
    /// are shared with both; it takes one walk over both.
    pub fn merged(&self, alloc: Global, other: &Held) -> Result<Held, AllocError>
        ensures { IfOk result (λ held. held ≡ merged self.now other.now) }
    {
        let configuration = merged_configuration(&self.configuration, &other.configuration)?;
        let silences = self.silences.merged(alloc, &other.silences)?;
        let alerts = self.alerts.merged(alloc, &other.alerts)?;
        let sent = self.sent.merged(alloc, &other.sent)?;
        Ok(Held {
            configuration,
            silences,
            alerts,
            sent,
        })
    }
}

// Puts an item, whatever that does.
fn add(held: &mut Held, item: SharedItem) -> Result<(), AllocError>
    ensures { OnOk result (held.new ≡ joined held.old item) }
{
    match held.put(item) {
        Ok(Put::New) => Ok(()),
        Ok(Put::Replaced(_standing)) => Ok(()),
        Ok(Put::Older) => Ok(()),
        Err(refused) => Err(refused),
    }
}

// Removes a configuration.
fn remove_configuration(held: &mut Option<KeptValue<Option<Text>>>)
    ensures { held.new ≡ None }
{
    *held = None;
}

// How many bytes spell the configuration, where there is one.
#[tactic(auto, unfolding(crate::specs::Lengths::spelled_length))]
fn configuration_len(held: &Option<KeptValue<Option<Text>>>) -> u64
    ensures { result ≡ capped (sum_by spelled_length (configuration_items held.now)) }
{
    match held {
        None => 0,
        Some(kept) => kept.spelled_len(),
    }
}

// The configuration, where there is one.
fn value_of<V: Spelled + Drop>(held: &Option<KeptValue<V>>) -> Option<&Stamped<V>>
    ensures { option_copied result ≡ held.now }
{
    match held {
        None => None,
        Some(kept) => Some(kept.get()),
    }
}

// The same configuration, held once more.
fn copy_of<V: Spelled + Drop>(
    held: &Option<KeptValue<V>>,
) -> Result<Option<KeptValue<V>>, AllocError>
    ensures { IfOk result (λ copy. copy ≡ held.now) }
{
    match held {
        None => Ok(None),
        Some(kept) => {
            let kept = kept.copy()?;
            Ok(Some(kept))
        }
    }
}

// Puts a configuration, unless one is held whose stamp is no smaller.
#[tactic(auto, unfolding(crate::specs::Retirement::retires_at))]
fn put_configuration(
    held: &mut Option<KeptValue<Option<Text>>>,
    kept: KeptValue<Option<Text>>,
) -> Result<Put, AllocError>
    ensures held { OnOk result (held.new ≡ newest held.old kept) }
    ensures put { IfOk result (λ put. put ≡ put_over (option_map (λ stamped. standing_of (configuration_item stamped)) held.old) kept.stamp) }
    ensures err { OnErr result (held.new ≡ held.old) }
{
    match held.as_ref() {
        None => {
            write_configuration(held, kept);
            Ok(Put::New)
        }
        Some(old) => {
            if kept.get().stamp.exceeds(&old.get().stamp) {
                let standing = Standing {
                    stamp: old.get().stamp,
                    retires_at: None,
                };
                write_configuration(held, kept);
                Ok(Put::Replaced(standing))
            } else {
                Ok(Put::Older)
            }
        }
    }
}

// Puts a configuration, whatever is held.
fn write_configuration(held: &mut Option<KeptValue<Option<Text>>>, kept: KeptValue<Option<Text>>)
    ensures { held.new ≡ Some kept }
{
    *held = Some(kept);
}

// The newer of two configurations.
fn merged_configuration<V: Spelled + Drop>(
    own: &Option<KeptValue<V>>,
    other: &Option<KeptValue<V>>,
) -> Result<Option<KeptValue<V>>, AllocError>
    ensures { IfOk result (λ held. held ≡ newer own.now other.now) }
{
    match (own, other) {
        (_, None) => copy_of(own),
        (None, Some(_)) => copy_of(other),
        (Some(held), Some(value)) => {
            if value.get().stamp.exceeds(&held.get().stamp) {
                copy_of(other)
            } else {
                copy_of(own)
            }
        }
    }
}
