//! Who gives way to others.
ghost use Rattle.std.specs.Prelude.{◌≡◌, ◌+◌, ◌<◌, ◌↔◌, ℕ, None, Some, IfNone, IfSome, IsSomeAnd, IsTrue};
ghost use Rattle.slab.specs.Slab.{get};
ghost use Rattle.am_serve.specs.Clients.{AwaitsOn};
ghost use Rattle.am_serve.specs.Giving.{GivesWay, IsEarlier, LongestBelow, NoneAwaits, NoneGives};

use crate::client::Client;
use crate::socket::Socket;
use slab::Slab;
use std::time::Instant;

/// What is wanted of a client that gives way.
#[derive(Clone, Copy)]
pub enum Wanted {
    // The memory of its reply.
    Reply,
    // Its place, at this moment.
    Place(Instant),
}

// The key of the client that gives way: of those that have what is wanted, the one that is longest without a byte
// moved.
pub fn gives_way<S: Socket>(clients: &Slab<Client<S>>, wanted: Wanted) -> Option<usize>
    ensures some { IfSome result (λ key. GivesWay wanted clients.now key) }
    ensures none { IfNone result (NoneGives wanted clients.now) }
{
    let mut found = None;
    for key in 0..clients.capacity() {
        found = longest(clients, wanted, key, found);
    }
    let (key, _) = found?;
    Some(key)
}

// Of the client found so far and that of the next key, the one that gives way.
fn longest<S: Socket>(
    clients: &Slab<Client<S>>,
    wanted: Wanted,
    key: usize,
    found: Option<(usize, Instant)>,
) -> Option<(usize, Instant)>
    requires { LongestBelow wanted clients.now key found }
    ensures { LongestBelow wanted clients.now (key + 1) result }
{
    let Some(client) = clients.get(key) else {
        return found;
    };
    if client.gives(wanted) && is_earlier(client.moved(), found) {
        Some((key, client.moved()))
    } else {
        found
    }
}

// The key of the client that waits for the reply to a connection.
pub fn awaiting<S: Socket>(clients: &Slab<Client<S>>, connection: u64) -> Option<usize>
    ensures some { IfSome result (λ key. IsSomeAnd (get clients.now key) (AwaitsOn connection)) }
    ensures none { IfNone result (NoneAwaits connection clients.now) }
{
    for key in 0..clients.capacity() {
        if awaits_at(clients, key, connection) {
            return Some(key);
        }
    }
    None
}

// Whether the client of a key waits for the reply to a connection.
fn awaits_at<S: Socket>(clients: &Slab<Client<S>>, key: usize, connection: u64) -> bool
    ensures { IsTrue result ↔ IsSomeAnd (get clients.now key) (AwaitsOn connection) }
{
    match clients.get(key) {
        Some(client) => client.awaits_on(connection),
        None => false,
    }
}

// Whether a moment comes before that of a client that was found, if one was.
fn is_earlier(moved: Instant, found: Option<(usize, Instant)>) -> bool
    ensures { IsTrue result ↔ IsEarlier moved found }
{
    match found {
        Some((_, first)) => !first.saturating_duration_since(moved).is_zero(),
        None => true,
    }
}
