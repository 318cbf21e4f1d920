//! A file stops at its n-th call: each tenant's rows are then as before the call of the store, or as it commits them.

use crate::disk::{Seen, files, see};
use crate::items::ROWS;
use crate::work::{Told, Work};
use am_expect::{equal, holds};
use std::alloc::Global;
use std::ops::Range;
use std::test::Fail;

// The steps, where the log or the database stops at this call.
fn stopped(alloc: Global, is_log: bool, at: u64) -> Seen {
    let (log, db) = if is_log {
        (at, u64::MAX)
    } else {
        (u64::MAX, at)
    };
    see(alloc, files(alloc, log, db), Work::Steps)
}

// Whether the rows are those behind so many calls.
fn are_behind(calls: usize, rows: Told) -> bool {
    match (ROWS.get(calls), rows) {
        (Some(wanted), Ok(found)) => *wanted == found,
        _ => false,
    }
}

// The rows are those behind the calls that were answered, or behind one more.
fn leaves_whole(alloc: Global, is_log: bool, at: u64) -> Result<(), Fail> {
    let seen = stopped(alloc, is_log, at);
    let answered = seen.told.unwrap_or(0) as usize;
    let next = answered.saturating_add(1);
    holds(
        are_behind(answered, seen.rows) || are_behind(next, seen.rows),
        at,
    )
}

// A stop at each of these calls.
fn stops(alloc: Global, is_log: bool, calls: Range<u64>) -> Result<(), Fail> {
    for at in calls {
        leaves_whole(alloc, is_log, at)?;
    }
    Ok(())
}

// This call is behind the last, so that none stops.
fn is_last(alloc: Global, is_log: bool, at: u64) -> Result<(), Fail> {
    let seen = stopped(alloc, is_log, at);
    equal(seen.told, Ok(6), at)?;
    equal(seen.rows, Ok(150), at)
}

#[test]
fn the_log_stops_at_calls_up_to_19(rt: HostRuntime) -> Result<(), Fail> {
    stops(rt.alloc(), true, 0..20)
}

#[test]
fn the_log_stops_at_calls_from_20_to_39(rt: HostRuntime) -> Result<(), Fail> {
    stops(rt.alloc(), true, 20..40)
}

#[test]
fn the_log_stops_at_calls_from_40_to_59(rt: HostRuntime) -> Result<(), Fail> {
    stops(rt.alloc(), true, 40..60)
}

#[test]
fn the_log_stops_at_calls_from_60_to_79(rt: HostRuntime) -> Result<(), Fail> {
    stops(rt.alloc(), true, 60..80)?;
    is_last(rt.alloc(), true, 80)
}

#[test]
fn the_database_stops_at_calls_up_to_19(rt: HostRuntime) -> Result<(), Fail> {
    stops(rt.alloc(), false, 0..20)?;
    is_last(rt.alloc(), false, 20)
}
