use crate::parts::{at, hold, hold_posted, label_set, text};
use am_expect::equal;
use am_item::{
    AlertDetails, Held, Kept, LabelSets, Matchers, SentEntry, Silence, SilenceId, Thing,
};
use am_labels::LabelSet;
use std::alloc::Global;
use std::test::Fail;

fn silence(alloc: Global, number: u8) -> Silence {
    Silence {
        id: SilenceId::from_bytes([number; 16]),
        starts_at: at(0),
        ends_at: at(0),
        kept_until: at(0),
        created_by: text(alloc, ""),
        comment: text(alloc, ""),
        matchers: Matchers::from_vec(Vec::new(alloc)),
    }
}

fn no_labels(alloc: Global) -> Result<LabelSets, Fail> {
    Ok(LabelSets::from_rising(Vec::new(alloc)).ok_or("not rising")?)
}

fn sent_entry(alloc: Global) -> Result<SentEntry, Fail> {
    Ok(SentEntry {
        firing: no_labels(alloc)?,
        resolved: no_labels(alloc)?,
        receiver: text(alloc, ""),
        group: text(alloc, ""),
        webhook: 1,
        ends_at: at(0),
    })
}

/// Holds items of each kind: of one alert an older one comes later, of another one a newer.
pub fn hold_all(alloc: Global, held: &mut Held) -> Result<(), Fail> {
    hold_posted(
        alloc,
        held,
        r#"[{"labels":{"a":"2"}},{"labels":{"a":"1"}}]"#,
        5,
    )?;
    hold_posted(alloc, held, r#"[{"labels":{"a":"2"}}]"#, 4)?;
    hold_posted(alloc, held, r#"[{"labels":{"a":"1"}}]"#, 6)?;
    hold(alloc, held, Thing::SentEntry(sent_entry(alloc)?), 5)?;
    hold(alloc, held, Thing::Silence(silence(alloc, 2)), 5)?;
    hold(alloc, held, Thing::Configuration(None), 5)?;
    hold(alloc, held, Thing::Silence(silence(alloc, 1)), 6)?;
    Ok(())
}

// When what is held of an alert was written.
fn written_at(alert: Option<&Kept<LabelSet, AlertDetails>>) -> u64 {
    match alert {
        Some(kept) => kept.value().stamp.moment.milliseconds(),
        None => 0,
    }
}

/// Of two alerts the greater stamps, and how much there is of each kind.
pub fn best_are_held(held: &Held) -> Result<(), Fail> {
    let alerts = held.alerts().entries();
    let found = (
        written_at(alerts.first()),
        written_at(alerts.last()),
        alerts.len(),
        held.sent_entries().len(),
        held.silences().len(),
        held.configuration().is_some(),
    );
    equal(found, (6, 5, 2, 1, 2, true), "what is held")
}

#[test]
fn of_each_key_the_greater_stamp_stays(rt: HostRuntime) -> Result<(), Fail> {
    let mut held = Held::new(rt.alloc())?;
    hold_all(rt.alloc(), &mut held)?;
    best_are_held(&held)
}

#[test]
fn a_snapshot_stays(rt: HostRuntime) -> Result<(), Fail> {
    let alloc = rt.alloc();
    let mut held = Held::new(alloc)?;
    hold_all(alloc, &mut held)?;
    let snapshot = held.snapshot()?;
    hold_posted(alloc, &mut held, r#"[{"labels":{"a":"2"}}]"#, 7)?;
    let put = written_at(held.alerts().entries().last());
    equal(put, 7, "what was put behind the snapshot")?;
    best_are_held(&snapshot)
}

#[test]
fn items_are_held_again(rt: HostRuntime) -> Result<(), Fail> {
    let alloc = rt.alloc();
    let mut held = Held::new(alloc)?;
    hold_all(alloc, &mut held)?;
    let items = held.items(alloc)?;
    equal(items.len(), 6, "all that is held")?;
    let again = Held::best_of(alloc, &items)?;
    best_are_held(&again)
}

// When the first and the last alert were written, and how many alerts and silences there are.
fn summary(held: &Held) -> (u64, u64, usize, usize) {
    let alerts = held.alerts().entries();
    (
        written_at(alerts.first()),
        written_at(alerts.last()),
        alerts.len(),
        held.silences().len(),
    )
}

// Two holdings merge to this, whichever comes first.
fn merge_to(
    alloc: Global,
    own: &Held,
    other: &Held,
    wanted: (u64, u64, usize, usize),
) -> Result<(), Fail> {
    let merged = own.merged(alloc, other)?;
    equal(summary(&merged), wanted, "the own with the other's")?;
    let merged = other.merged(alloc, own)?;
    equal(summary(&merged), wanted, "the other's with the own")
}

#[test]
fn holdings_merge(rt: HostRuntime) -> Result<(), Fail> {
    let alloc = rt.alloc();
    let (mut own, mut other) = (Held::new(alloc)?, Held::new(alloc)?);
    hold_all(alloc, &mut own)?;
    merge_to(alloc, &own, &other, (6, 5, 2, 2))?;
    hold_posted(alloc, &mut other, r#"[{"labels":{"a":"1"}}]"#, 9)?;
    hold_posted(alloc, &mut other, r#"[{"labels":{"a":"3"}}]"#, 4)?;
    merge_to(alloc, &own, &other, (9, 4, 3, 2))
}

// Whether these two are a rising list of label sets.
fn rise(alloc: Global, first: &str, second: &str, wanted: bool) -> Result<(), Fail> {
    let sets = [label_set(alloc, first)?, label_set(alloc, second)?];
    let sets = Vec::from_array(alloc, sets)?;
    equal(LabelSets::from_rising(sets).is_some(), wanted, second)
}

#[test]
fn label_sets_rise(rt: HostRuntime) -> Result<(), Fail> {
    rise(rt.alloc(), "a", "b", true)?;
    rise(rt.alloc(), "a", "a", false)?;
    rise(rt.alloc(), "b", "a", false)
}
