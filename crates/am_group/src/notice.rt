//! What the webhooks of a receiver are told of a group.

ghost use Rattle.std.specs.Prelude.{◌≡◌, ◌≤◌, ◌+◌, IfOk, length, map, min};
ghost use Rattle.std.specs.Option.{option_copied, option_map};
ghost use Rattle.am_text.specs.Moment.{greatest_moment};
ghost use Rattle.am_config.specs.Checks.{most_webhooks};
ghost use Rattle.am_alert.specs.Held.{AreRising};
ghost use Rattle.am_alert.specs.HeldAlert.{held_alert};
ghost use Rattle.am_group.specs.Deeds.{AreParted, deed};
ghost use Rattle.am_group.specs.Notices.{deed_for, deeds_from, entry_at, has_news, is_told, notice, sets_of, some_new};

use am_alert::HeldAlert;
use am_config::{Receiver, Webhook};
use am_item::{EntryDetails, EntryKey, LabelSets, SentEntry, SharedMap, Stamped};
use am_labels::LabelSet;
use am_text::{Listed, Moment, Text};
use std::alloc::{AllocError, Global};

/// A notice that goes out.
#[derive(Drop)]
pub struct Notice<'a> {
    /// Which of the receiver's webhooks is told, from 0 on.
    pub webhook: u8,
    /// The alerts that it tells, before `max_alerts` leaves out some, in the order of label sets.
    pub alerts: Listed<HeldAlert<'a>>,
    /// Those of the alerts that fire.
    pub firing: LabelSets,
    /// Those of the alerts that are resolved.
    pub resolved: LabelSets,
}

/// What is done for a webhook at a flush.
#[derive(Drop)]
pub enum Act<'a> {
    /// A notice goes out.
    Notify(Notice<'a>),
    /// There is nothing left to tell this webhook: that no alert fires and none is resolved is recorded at once.
    Keep(u8),
}

// The alerts of a group at a flush: all, those that fire and those that are resolved.
#[derive(Drop)]
struct Parted<'a> {
    all: Vec<HeldAlert<'a>>,
    firing: Vec<HeldAlert<'a>>,
    resolved: Vec<HeldAlert<'a>>,
}

/// What is done for the webhooks of a receiver at a flush of a group, in their order; a webhook that has nothing to be told
/// is left out.
///
/// `alerts` are the members that aren't muted, resolved ones too, `sent` what was told before, `key` the group's key in it.
/// A webhook is told
/// - where it was told nothing before: if an alert fires;
/// - else if an alert fires that it wasn't told of as firing;
/// - else, where none fires: exactly if it was told of one as firing;
/// - else, with `send_resolved`, if an alert is resolved that it wasn't told of as resolved;
/// - else if what it was told is `repeat_interval` milliseconds old at the moment.
///
/// An error is out of memory.
pub fn flush<'a>(
    alloc: Global,
    receiver: &Receiver,
    key: &Text,
    sent: &SharedMap<EntryKey, EntryDetails>,
    alerts: &[HeldAlert<'a>],
    repeat_interval: u64,
    moment: Moment,
) -> Result<Vec<Act<'a>>, AllocError>
    requires rising { AreRising (map held_alert alerts.now) }
    requires few { length receiver.now.webhooks ≤ most_webhooks }
    ensures { IfOk result (λ v. map deed v.items
        ≡ deeds_from 0 receiver.now.name key.now receiver.now.webhooks sent.now (map held_alert alerts.now) repeat_interval moment) }
{
    let parted = part(alloc, alerts, moment)?;
    let mut acts = Vec::new(alloc);
    for (place, webhook) in receiver.webhooks.as_slice().iter().enumerate() {
        let number = place as u8;
        let last = entry_at(alloc, &receiver.name, key, number, sent)?;
        if let Some(act) = act_for(
            alloc,
            number,
            webhook,
            last,
            &parted,
            repeat_interval,
            moment,
        )? {
            acts.push(act)?;
        }
    }
    Ok(acts)
}

/// The entry that records what a webhook was told. It is of use for the span in milliseconds, which is the group interval and
/// the repeat interval of the route together as they were at the flush, from the moment of its stamp on.
pub fn recorded(
    receiver: Text,
    key: Text,
    webhook: u8,
    firing: LabelSets,
    resolved: LabelSets,
    moment: Moment,
    span: u64,
) -> SentEntry
    ensures { result ≡ record { receiver = receiver; group = key; webhook = webhook; ends_at = min (moment + span) greatest_moment; firing = firing; resolved = resolved } }
{
    SentEntry {
        receiver,
        group: key,
        webhook,
        ends_at: moment.plus(span),
        firing,
        resolved,
    }
}

// What the webhook was told last.
fn entry_at<'a>(
    alloc: Global,
    receiver: &Text,
    key: &Text,
    webhook: u8,
    sent: &'a SharedMap<EntryKey, EntryDetails>,
) -> Result<Option<&'a Stamped<EntryDetails>>, AllocError>
    ensures { IfOk result (λ entry. option_copied entry ≡ entry_at receiver.now key.now webhook sent.now) }
{
    let key = EntryKey {
        receiver: receiver.copy(alloc)?,
        group: key.copy(alloc)?,
        webhook,
    };
    Ok(sent.get(&key))
}

// The alerts, those that fire at the moment and those that are resolved.
fn part<'a>(
    alloc: Global,
    alerts: &[HeldAlert<'a>],
    moment: Moment,
) -> Result<Parted<'a>, AllocError>
    ensures { IfOk result (λ parted. AreParted moment (map held_alert alerts.now) parted) }
{
    let mut all = Vec::new(alloc);
    let mut firing = Vec::new(alloc);
    let mut resolved = Vec::new(alloc);
    for alert in alerts {
        all.push(borrowed(alert))?;
        if moment < alert.details.value.ends_at {
            firing.push(borrowed(alert))?;
        } else {
            resolved.push(borrowed(alert))?;
        }
    }
    Ok(Parted {
        all,
        firing,
        resolved,
    })
}

// The same alert, borrowed once more.
fn borrowed<'a>(alert: &HeldAlert<'a>) -> HeldAlert<'a>
    ensures { held_alert result ≡ held_alert alert.now }
{
    HeldAlert {
        labels: alert.labels,
        details: alert.details,
    }
}

// What is done for a webhook.
#[tactic(auto, using(crate::proofs::Telling::lengths), unfolding(crate::specs::Notices::deed_for))]
fn act_for<'a>(
    alloc: Global,
    number: u8,
    webhook: &Webhook,
    last: Option<&Stamped<EntryDetails>>,
    parted: &Parted<'a>,
    repeat_interval: u64,
    moment: Moment,
) -> Result<Option<Act<'a>>, AllocError>
    requires rising { AreRising (map held_alert parted.now.all.items) }
    requires parted { AreParted moment (map held_alert parted.now.all.items) parted.now }
    ensures { IfOk result (λ act. option_map deed act ≡ deed_for number webhook.now (option_copied last.entry) (map held_alert parted.now.all.items) repeat_interval moment) }
{
    let sends_resolved = webhook.send_resolved;
    if parted.all.is_empty() || !has_news(last, parted, sends_resolved, repeat_interval, moment) {
        return Ok(None);
    }
    if parted.firing.is_empty() && !sends_resolved {
        return Ok(Some(Act::Keep(number)));
    }
    let notice = make_notice(alloc, number, parted, sends_resolved)?;
    Ok(Some(Act::Notify(notice)))
}

// Whether there is something to tell.
#[tactic(auto, using(crate::proofs::Telling::lengths), unfolding(crate::specs::Notices::has_news))]
fn has_news(
    last: Option<&Stamped<EntryDetails>>,
    parted: &Parted<'_>,
    sends_resolved: bool,
    repeat_interval: u64,
    moment: Moment,
) -> bool
    ensures { result ≡ has_news (option_copied last.entry) (map held_alert parted.now.firing.items) (map held_alert parted.now.resolved.items) sends_resolved repeat_interval moment }
{
    let Some(entry) = last else {
        return !parted.firing.is_empty();
    };
    let told = &entry.value;
    if some_new(&told.firing, &parted.firing) {
        true
    } else if parted.firing.is_empty() {
        !told.firing.as_slice().is_empty()
    } else if sends_resolved && some_new(&told.resolved, &parted.resolved) {
        true
    } else {
        entry.stamp.moment.plus(repeat_interval) <= moment
    }
}

// Whether one of the alerts wasn't told.
fn some_new(told: &LabelSets, alerts: &[HeldAlert<'_>]) -> bool
    ensures { result ≡ some_new told.now (map held_alert alerts.now) }
{
    alerts.iter().any(|alert| !is_told(told, alert.labels))
}

// Whether the label set was told.
fn is_told(told: &LabelSets, labels: &LabelSet) -> bool
    ensures { result ≡ is_told told.now labels.now }
{
    told.as_slice().binary_search(labels).is_ok()
}

// The notice of a webhook.
fn make_notice<'a>(
    alloc: Global,
    webhook: u8,
    parted: &Parted<'a>,
    sends_resolved: bool,
) -> Result<Notice<'a>, AllocError>
    requires firing { AreRising (map held_alert parted.now.firing.items) }
    requires resolved { AreRising (map held_alert parted.now.resolved.items) }
    ensures { IfOk result (λ made. deed (Act.Notify made) ≡ notice webhook (map held_alert parted.now.all.items) (map held_alert parted.now.firing.items) (map held_alert parted.now.resolved.items) sends_resolved) }
{
    let firing = sets_of(alloc, &parted.firing)?;
    if sends_resolved {
        Ok(Notice {
            webhook,
            alerts: copies(alloc, &parted.all)?,
            firing,
            resolved: sets_of(alloc, &parted.resolved)?,
        })
    } else {
        Ok(Notice {
            webhook,
            alerts: copies(alloc, &parted.firing)?,
            firing,
            resolved: sets_of(alloc, &[])?,
        })
    }
}

// The same alerts, borrowed once more.
fn copies<'a>(alloc: Global, alerts: &[HeldAlert<'a>]) -> Result<Listed<HeldAlert<'a>>, AllocError>
    ensures { IfOk result (λ copies. map held_alert copies ≡ map held_alert alerts.now) }
{
    let mut copies = Vec::new(alloc);
    for alert in alerts {
        copies.push(borrowed(alert))?;
    }
    Ok(Listed::from_vec(copies))
}

// The label sets of alerts.
fn sets_of(alloc: Global, alerts: &[HeldAlert<'_>]) -> Result<LabelSets, AllocError>
    requires { AreRising (map held_alert alerts.now) }
    ensures { IfOk result (λ sets. sets ≡ sets_of (map held_alert alerts.now)) }
{
    let mut sets = Vec::new(alloc);
    for alert in alerts {
        sets.push(alert.labels.copy()?)?;
    }
    match LabelSets::from_rising(sets) {
        Some(sets) => Ok(sets),
        None => unreachable!(),
    }
}
