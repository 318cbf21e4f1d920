//! A gateway some of whose instances stop.

use crate::playing::{opened, stores};
use am_expect::{equal, holds};
use am_gateway::Gateway;
use am_serve::{Host, Verdict};
use am_server::Service;
use am_test_store::TestStore;
use am_world::{AnyWorld, Event, Refused};
use std::alloc::Global;
use std::test::Fail;

// A request that each of the three replicas commits.
const STORED: &str = "DELETE /api/v1/alerts HTTP/1.1\r\nX-Scope-OrgID: a\r\n\r\n";

// A request of a tenant of whom nothing is held.
const READ: &str = "GET /alertmanager/api/v2/silences HTTP/1.1\r\nX-Scope-OrgID: b\r\n\r\n";

const READY: &str = "GET /ready HTTP/1.1\r\n\r\n";

// How each reply begins.
const HEAD: &str = "HTTP/1.1 200 OK\r\nContent-Type: application/json\r\nContent-Length: ";

const START: u64 = 1_750_000_000_000;

// How many calls an opening makes of a store.
const OPENING: u64 = 3;

/// Stores of which the first two refuse a commit, each behind so many.
fn refusing(alloc: Global, behind: (u64, u64)) -> Result<Vec<TestStore>, Fail> {
    let mut stores = stores(alloc)?;
    let first = stores.first_mut().ok_or("no store")?;
    first.fail_behind(OPENING.saturating_add(behind.0));
    let second = stores.get_mut(1).ok_or("no second store")?;
    second.fail_behind(OPENING.saturating_add(behind.1));
    Ok(stores)
}

/// The reply to a request on a connection of its own; nothing where none comes.
fn asked<H: Host>(
    gateway: &mut H,
    connection: u64,
    request: &str,
) -> Result<Option<Vec<u8>>, Fail> {
    holds(gateway.open(connection), connection)?;
    match gateway.take(connection, request.as_bytes()) {
        Verdict::Reply(bytes) => Ok(Some(bytes)),
        Verdict::Undecided | Verdict::Later | Verdict::Gone => Ok(None),
    }
}

/// Holds the reply to a request on a connection of its own to this body.
fn replies<H: Host>(
    alloc: Global,
    gateway: &mut H,
    connection: u64,
    request: &str,
    body: &str,
) -> Result<(), Fail> {
    let reply = asked(gateway, connection, request)?.ok_or("no reply")?;
    let length = body.len();
    let wanted = format!(in alloc; "{HEAD}{length}\r\nConnection: close\r\n\r\n{body}")?;
    equal(std::str::from_utf8(&reply)?, wanted.as_str(), connection)
}

/// The clock is told a moment, so many seconds after the start.
fn tick<V: Service>(gateway: &mut V, connection: u64, seconds: u64) -> Result<(), Fail> {
    holds(
        asked(gateway, connection, READY)?.is_some(),
        "it isn't ready",
    )?;
    gateway.set_moment(START.saturating_add(seconds.saturating_mul(1000)));
    gateway.tick()?;
    Ok(())
}

// The first instance stops at the first request, which gets no reply, and the second serves on, until the first is
// restarted at the next tick and has what the others hold. Then the second stops at a request, which two others have
// committed, and is restarted too. Now no quorum is settled for a tenant of whom nothing is held: of its requests the
// first gets no reply, and the second does.
#[test]
fn instances_are_restarted(rt: HostRuntime) -> Result<(), Fail> {
    let alloc = rt.alloc();
    let mut world = opened(alloc, 1, refusing(alloc, (0, 2))?)?;
    let mut gateway = Gateway::new(alloc, &mut world)?;
    gateway.set_moment(START);
    holds(
        asked(&mut gateway, 1, STORED)?.is_none(),
        "who stopped replies",
    )?;
    holds(
        gateway.world().cause(1).is_some() && gateway.is_up(),
        "the first",
    )?;
    replies(alloc, &mut gateway, 2, STORED, "")?;
    tick(&mut gateway, 3, 1)?;
    holds(gateway.world().is_up(1), "the first is restarted")?;
    replies(alloc, &mut gateway, 4, STORED, "")?;
    replies(alloc, &mut gateway, 5, STORED, "")?;
    holds(
        gateway.world().cause(2).is_some() && gateway.is_up(),
        "the second",
    )?;
    tick(&mut gateway, 6, 2)?;
    holds(gateway.world().is_up(2), "the second is restarted")?;
    holds(
        asked(&mut gateway, 7, READ)?.is_none(),
        "a quorum is settled",
    )?;
    replies(alloc, &mut gateway, 8, READ, "[]")?;
    replies(alloc, &mut gateway, 9, STORED, "")
}

// Two instances stop at once.
#[test]
fn one_instance_is_too_few(rt: HostRuntime) -> Result<(), Fail> {
    let alloc = rt.alloc();
    let mut world = opened(alloc, 1, refusing(alloc, (0, 0))?)?;
    let mut gateway = Gateway::new(alloc, &mut world)?;
    gateway.set_moment(START);
    holds(asked(&mut gateway, 1, STORED)?.is_none(), "a reply came")?;
    holds(!gateway.is_up(), "two are left")
}

// A fourth instance joins, and the other three learn of it one by one, the lowest first, at the next three ticks. What
// was committed is read all the while, where a quorum goes by one ring, and an event that can't be is refused.
#[test]
fn rings_are_learned(rt: HostRuntime) -> Result<(), Fail> {
    let alloc = rt.alloc();
    let mut world = opened(alloc, 1, stores(alloc)?)?;
    let mut gateway = Gateway::new(alloc, &mut world)?;
    gateway.set_moment(START);
    replies(alloc, &mut gateway, 1, STORED, "")?;
    let join = Event::Join { instance: 4 };
    holds(gateway.operate(&join)?.is_none(), "the fourth joins")?;
    holds(
        gateway.operate(&join)? == Some(Refused::WrongInstance),
        "it joins twice",
    )?;
    for instance in 1..4u8 {
        holds(gateway.world().is_behind(instance), instance)?;
        let moment = u64::from(instance);
        tick(&mut gateway, moment + 1, moment)?;
        holds(!gateway.world().is_behind(instance), instance)?;
    }
    holds(!gateway.world().is_behind(4), "the fourth is behind")?;
    replies(alloc, &mut gateway, 5, STORED, "")?;
    replies(alloc, &mut gateway, 6, READ, "[]")
}
