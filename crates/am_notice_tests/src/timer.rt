use am_expect::{equal, holds};
use am_labels::{Label, LabelSet};
use am_ring::Instance;
use am_share::Shared;
use am_tenant::TenantName;
use am_text::{Moment, Text};
use am_timer::{FlushKey, Timer, TimerKey, TimerName, TimerQueue};
use std::alloc::Global;
use std::test::Fail;

// The label `a` with this value.
fn label(alloc: Global, value: &str) -> Result<Label, Fail> {
    Ok(Label {
        name: Text::read(alloc, "a")?,
        value: Text::read(alloc, value)?,
    })
}

fn labels(alloc: Global, value: &str) -> Result<LabelSet, Fail> {
    let labels = Vec::from_array(alloc, [label(alloc, value)?])?;
    Ok(LabelSet::from_pairs(alloc, labels)?)
}

// The group of one label.
fn group(alloc: Global, receiver: &str, value: &str, route: usize) -> Result<TimerKey, Fail> {
    let labels = labels(alloc, value)?;
    let receiver = Text::read(alloc, receiver)?;
    Ok(TimerKey::Group(FlushKey {
        receiver,
        labels,
        route,
    }))
}

// The key of a timer.
#[derive(Clone, Copy)]
enum Key {
    // The receiver, the value of the label, and the route.
    Group(&'static str, &'static str, usize),
    Operation(u64),
    Push(u8),
    Retry(u64),
}

// A tenant, when its timer is due, and the timer's key.
type Row = (&'static str, u64, Key);

fn key_of(alloc: Global, key: Key) -> Result<TimerKey, Fail> {
    match key {
        Key::Group(receiver, value, route) => group(alloc, receiver, value, route),
        Key::Operation(number) => Ok(TimerKey::Operation(number)),
        Key::Push(number) => Ok(TimerKey::Push(Instance::new(number).ok_or("no instance")?)),
        Key::Retry(number) => Ok(TimerKey::Retry(number)),
    }
}

fn timer(alloc: Global, row: &Row) -> Result<Timer, Fail> {
    let (tenant, due, key) = *row;
    let tenant = TenantName::read(tenant.as_bytes())?;
    let key = key_of(alloc, key)?;
    Ok(Timer {
        due: at(due),
        name: TimerName { tenant, key },
    })
}

fn at(milliseconds: u64) -> Moment {
    Moment::from_milliseconds(milliseconds).unwrap_or(Moment::greatest())
}

fn timers(alloc: Global, rows: &[Row]) -> Result<Vec<Timer>, Fail> {
    let mut timers = Vec::new(alloc);
    for row in rows {
        timers.push(timer(alloc, row)?)?;
    }
    Ok(timers)
}

fn set(alloc: Global, queue: &mut TimerQueue, row: &Row) -> Result<(), Fail> {
    Ok(queue.set(alloc, timer(alloc, row)?)?)
}

// Sets the timers, the last one first.
fn set_all(alloc: Global, queue: &mut TimerQueue, rows: &[Row]) -> Result<(), Fail> {
    for row in rows.iter().rev() {
        set(alloc, queue, row)?;
    }
    Ok(())
}

fn cancel_all(alloc: Global, queue: &mut TimerQueue, rows: &[Row]) -> Result<(), Fail> {
    for row in rows {
        queue.cancel(&timer(alloc, row)?.name);
    }
    Ok(())
}

// What is due at so many milliseconds, where so many timers are looked at for it.
fn are_due(
    alloc: Global,
    queue: &mut TimerQueue,
    now: u64,
    wanted: &[Row],
    looked: usize,
) -> Result<(), Fail> {
    let due = queue.due(alloc, at(now))?;
    let wanted = timers(alloc, wanted)?;
    holds(due.as_slice() == wanted.as_slice(), now)?;
    equal(queue.looked(), looked, now)
}

// Timers in the order in which they fall due.
const IN_ORDER: &[Row] = &[
    ("b", 9, Key::Push(1)),
    ("a", 10, Key::Operation(2)),
    ("a", 10, Key::Operation(10)),
    ("a", 10, Key::Group("q", "2", 9)),
    ("a", 10, Key::Group("r", "1", 2)),
    ("a", 10, Key::Group("r", "2", 1)),
    ("a", 10, Key::Group("r", "2", 2)),
    ("a", 10, Key::Retry(1)),
    ("a", 10, Key::Push(1)),
    ("b", 10, Key::Operation(1)),
];

fn in_order(alloc: Global, queue: &mut TimerQueue) -> Result<(), Fail> {
    set_all(alloc, queue, IN_ORDER)?;
    set(alloc, queue, &("a", 11, Key::Retry(7)))?;
    are_due(alloc, queue, 10, IN_ORDER, 11)?;
    cancel_all(alloc, queue, IN_ORDER)?;
    are_due(alloc, queue, 10, &[], 1)
}

#[test]
fn order(rt: HostRuntime) -> Result<(), Fail> {
    in_order(rt.alloc(), &mut TimerQueue::new(rt.alloc()))
}

const LATER: Row = ("a", 5, Key::Retry(1));

// The first one is set in the place of the last.
const RETRIES: &[Row] = &[
    LATER,
    ("b", 1, Key::Retry(1)),
    ("c", 1, Key::Retry(1)),
    ("a", 1, Key::Retry(1)),
];

fn drop_tenant(queue: &mut TimerQueue, tenant: &str) -> Result<(), Fail> {
    let tenant = TenantName::read(tenant.as_bytes())?;
    holds(queue.drop_tenant(&tenant).is_ok(), "dropped")
}

// One of them is cancelled twice.
fn set_then_cancelled(alloc: Global, queue: &mut TimerQueue) -> Result<(), Fail> {
    set_all(alloc, queue, RETRIES)?;
    cancel_all(alloc, queue, &[("b", 0, Key::Retry(1)); 2])?;
    drop_tenant(queue, "c")?;
    are_due(alloc, queue, 5, &[LATER], 1)
}

#[test]
fn set_and_cancel(rt: HostRuntime) -> Result<(), Fail> {
    set_then_cancelled(rt.alloc(), &mut TimerQueue::new(rt.alloc()))
}

fn set_many(alloc: Global, queue: &mut TimerQueue) -> Result<(), Fail> {
    for number in 0..10_000 {
        set(alloc, queue, &("b", 2, Key::Retry(number)))?;
    }
    set(alloc, queue, &("a", 1, Key::Retry(1)))
}

// However many timers others have, no more is looked at than what is due, and one.
#[test]
fn many_later_timers(rt: HostRuntime) -> Result<(), Fail> {
    let mut queue = TimerQueue::new(rt.alloc());
    set_many(rt.alloc(), &mut queue)?;
    are_due(rt.alloc(), &mut queue, 1, &[("a", 1, Key::Retry(1))], 2)
}
