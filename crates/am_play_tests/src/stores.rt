//! Stores of which a call is refused.

use crate::links::Direct;
use crate::playing::{opened, played_over, stores};
use am_expect::{equal, holds};
use am_test_store::TestStore;
use std::alloc::Global;
use std::test::Fail;

// Twelve requests of two tenants. At the second tick the first silence of each is retired, 120 hours after its end.
const STORED: &str = r#"at 1750000000000
tick
call a1 1 a POST /api/v1/alerts "{\"alertmanager_config\":\"{\\\"route\\\":{\\\"receiver\\\":\\\"r\\\"},\\\"receivers\\\":[{\\\"name\\\":\\\"r\\\"}]}\"}"
pump
call b1 1 b POST /api/v1/alerts "{\"alertmanager_config\":\"{\\\"route\\\":{\\\"receiver\\\":\\\"s\\\"},\\\"receivers\\\":[{\\\"name\\\":\\\"s\\\"}]}\"}"
pump
call a2 1 a POST /alertmanager/api/v2/silences "{\"matchers\":[{\"name\":\"a\",\"value\":\"b\",\"isRegex\":false}],\"startsAt\":\"2025-06-15T15:00:00Z\",\"endsAt\":\"2025-06-15T16:00:00Z\",\"createdBy\":\"ada\",\"comment\":\"soon over\"}"
pump
call b2 1 b POST /alertmanager/api/v2/silences "{\"matchers\":[{\"name\":\"a\",\"value\":\"b\",\"isRegex\":false}],\"startsAt\":\"2025-06-15T15:00:00Z\",\"endsAt\":\"2025-06-15T16:00:00Z\",\"createdBy\":\"bob\",\"comment\":\"soon over\"}"
pump
call a3 1 a POST /alertmanager/api/v2/alerts "[{\"labels\":{\"a\":\"b\"},\"endsAt\":\"2025-07-15T16:00:00Z\"}]"
pump
call a4 1 a POST /alertmanager/api/v2/silences "{\"matchers\":[{\"name\":\"a\",\"value\":\"b.*\",\"isRegex\":true}],\"startsAt\":\"2025-06-15T15:00:00Z\",\"endsAt\":\"2025-07-15T16:00:00Z\",\"createdBy\":\"ada\",\"comment\":\"taken back\"}"
pump
call b3 1 b POST /alertmanager/api/v2/silences "{\"matchers\":[{\"name\":\"c\",\"value\":\"d\",\"isRegex\":false}],\"startsAt\":\"2025-06-15T15:00:00Z\",\"endsAt\":\"2025-07-15T16:00:00Z\",\"createdBy\":\"bob\",\"comment\":\"for long\"}"
pump
call a5 1 a DELETE /alertmanager/api/v2/silence/d114fbbf-392c-4662-bc08-f47326b689a4
pump
call b4 1 b DELETE /api/v1/alerts
pump
at 1750440000000
tick
call a6 1 a GET /alertmanager/api/v2/silences
pump
call b5 1 b GET /alertmanager/api/v2/silences
pump
call a7 1 a GET /alertmanager/api/v2/alerts
pump
"#;

// What is read of either tenant.
const READS: &str = r#"at 1750440000000
call ra 1 a GET /api/v1/alerts
pump
call rb 1 b GET /api/v1/alerts
pump
call sa 1 a GET /alertmanager/api/v2/silences
pump
call sb 1 b GET /alertmanager/api/v2/silences
pump
call aa 1 a GET /alertmanager/api/v2/alerts
pump
"#;

// How many calls of the first instance's store come before one that is refused, how many lines of the scenario before
// the one of which it comes, and how many lines leave what is read then. The first three calls open the store and ask
// for its tenants, whose rows are dropped or held; a post of alerts makes none; the tick makes the last. What isn't
// answered is held by the two others and read then, but for the first silences, which they retire; what the first
// instance doesn't retire is read of its store.
const REFUSED: [(u64, usize, usize); 9] = [
    (3, 2, 4),
    (4, 4, 6),
    (5, 6, 6),
    (6, 8, 8),
    (7, 12, 14),
    (8, 14, 16),
    (9, 16, 18),
    (10, 18, 20),
    (11, 21, 21),
];

// How many calls there are.
const CALLS: u64 = 12;

/// Plays a scenario over stores, and gives what it wrote and the stores.
fn played(
    alloc: Global,
    start: u32,
    stores: Vec<TestStore>,
    scenario: &str,
) -> Result<(Vec<u8>, Vec<TestStore>), Fail> {
    played_over(alloc, opened(alloc, start, stores)?, &mut Direct, scenario)
}

/// The first lines of a text.
fn first_lines(alloc: Global, text: &str, count: usize) -> Result<String, Fail> {
    let mut lines = String::new(alloc);
    for line in text.lines().take(count) {
        lines.push_str(line)?;
        lines.push('\n')?;
    }
    Ok(lines)
}

/// How many of the lines behind so many are calls.
fn calls_behind(text: &str, lines: usize) -> usize {
    text.lines()
        .skip(lines)
        .filter(|line| line.starts_with("call"))
        .count()
}

/// What is read of stores in a further incarnation.
fn read(alloc: Global, stores: Vec<TestStore>) -> Result<Vec<u8>, Fail> {
    let (written, _) = played(alloc, 2, stores, READS)?;
    Ok(written)
}

/// The stores of the eight instances, of which the first refuses the call behind so many.
fn refusing(alloc: Global, calls: u64) -> Result<Vec<TestStore>, Fail> {
    let mut stores = stores(alloc)?;
    let first = stores.first_mut().ok_or("no store")?;
    first.fail_behind(calls);
    Ok(stores)
}

/// What is written where the instance stops at the line behind so many: what was written of those before, and then that it
/// isn't up.
fn stopped_behind(alloc: Global, whole: &str, lines: usize) -> Result<String, Fail> {
    let answered = calls_behind(STORED, 0).saturating_sub(calls_behind(STORED, lines));
    let mut written = first_lines(alloc, whole, answered)?;
    for _ in 0..calls_behind(STORED, lines.saturating_add(1)) {
        written.push_str("refused We2\n")?;
    }
    written.push_str("faults 1\n")?;
    Ok(written)
}

/// A call is refused: the instance stops, and what so many lines leave is read then.
fn stops(
    alloc: Global,
    whole: &str,
    (calls, lines, left_by): (u64, usize, usize),
) -> Result<(), Fail> {
    let (written, left) = played(alloc, 1, refusing(alloc, calls)?, STORED)?;
    let wanted = stopped_behind(alloc, whole, lines)?;
    equal(std::str::from_utf8(&written)?, wanted.as_str(), calls)?;
    let part = first_lines(alloc, STORED, left_by)?;
    let (_, kept) = played(alloc, 1, stores(alloc)?, part.as_str())?;
    let rows = read(alloc, left)?;
    let wanted = read(alloc, kept)?;
    equal(rows.as_slice(), wanted.as_slice(), calls)
}

#[test]
fn a_refused_call_stops_the_instance(rt: HostRuntime) -> Result<(), Fail> {
    let alloc = rt.alloc();
    let (whole, _) = played(alloc, 1, refusing(alloc, CALLS)?, STORED)?;
    let whole = std::str::from_utf8(&whole)?;
    holds(whole.ends_with("faults 0\n"), "no call is left")?;
    for refused in REFUSED {
        stops(alloc, whole, refused)?;
    }
    Ok(())
}
