//! Heads with bytes that are no text, and connections that are closed.

use am_expect::{equal, holds};
use am_http::{ConnectionId, Fed, Front};
use std::alloc::{AllocError, Global};
use std::test::Fail;

// What a connection comes to.
fn name_of(fed: &Fed) -> &'static str {
    match fed {
        Fed::Waits => "waits",
        Fed::Refused(refusal) => refusal.code(),
        Fed::Ready => "ready",
        Fed::Request(_) => "request",
    }
}

// A front, and the one connection that it reads.
fn reading(alloc: Global) -> Result<(Front, ConnectionId), AllocError> {
    let connection = ConnectionId::new(7);
    let mut front = Front::new(alloc)?;
    front.open(alloc, connection)?;
    Ok((front, connection))
}

// What a connection comes to with one more piece, where it has come to this before.
fn fed_on(
    alloc: Global,
    (front, connection): (&mut Front, ConnectionId),
    piece: &[u8],
    said: Fed,
) -> Result<Fed, AllocError> {
    if front.is_reading(connection) {
        front.feed(alloc, connection, piece)
    } else {
        Ok(said)
    }
}

// A head comes at once.
fn comes_to(alloc: Global, head: &[u8], expected: &str) -> Result<(), Fail> {
    let (mut front, connection) = reading(alloc)?;
    let fed = fed_on(alloc, (&mut front, connection), head, Fed::Waits)?;
    equal(name_of(&fed), expected, expected)
}

// A value need not be UTF-8, a target has to be.
const BYTES: &[(&[u8], &str)] = &[
    (
        b"GET /alertmanager/api/v2/alerts HTTP/1.1\r\nX-Scope-OrgID: a\r\nx: \xff\xfe\r\n\r\n",
        "request",
    ),
    (
        b"GET /alertmanager/api/v2/alerts?\xff HTTP/1.1\r\nX-Scope-OrgID: a\r\n\r\n",
        "H1",
    ),
];

#[test]
fn bytes(rt: HostRuntime) -> Result<(), Fail> {
    for (head, expected) in BYTES {
        comes_to(rt.alloc(), head, expected)?;
    }
    Ok(())
}

// A connection that is closed isn't read, and the others are.
#[test]
fn closed(rt: HostRuntime) -> Result<(), Fail> {
    let (mut front, one) = reading(rt.alloc())?;
    let two = ConnectionId::new(2);
    front.open(rt.alloc(), two)?;
    front.close(one);
    holds(!front.is_reading(one) && front.is_reading(two), "one")?;
    front.close_all();
    holds(!front.is_reading(two), "all")
}
