//! Clients and calls over sockets in memory, and the clock.

use am_expect::{equal, holds};
use am_serve::{
    Calls, Clients, ClockNews, Dialed, Host, Moved, Progress, Socket, SteadyClock, Turn, Verdict,
    read_from,
};
use std::alloc::Global;
use std::io;
use std::test::Fail;
use std::time::{Duration, Instant};

const DONE: &[u8] = b"HTTP/1.1 200 OK\r\n\r\n";

const REFUSED: &[u8] = b"HTTP/1.1 413 \r\n\r\n";

const REQUEST: &[u8] = b"POST / HTTP/1.1\r\n\r\n";

// A socket that gives and takes 3 bytes at a time, and blocks at every second write.
#[derive(Drop)]
struct Fake {
    text: &'static [u8],
    // What is to be written. Anything else breaks the socket.
    wanted: &'static [u8],
    writes: u32,
    // The write at which the socket breaks.
    breaks_at: u32,
    // The other side ends once it gave its text.
    ends: bool,
    connected: bool,
    is_reset: bool,
}

impl Socket for Fake {
    fn read(&mut self, buffer: &mut [u8; 4096]) -> Moved {
        let count = self.text.len().min(3);
        if count == 0 && !self.ends {
            return Moved::Blocked;
        }
        let moved = read_from(&mut &self.text[..count], buffer);
        self.text = &self.text[count..];
        moved
    }

    fn write(&mut self, bytes: &[u8]) -> Moved {
        self.writes = self.writes.saturating_add(1);
        let count = bytes.len().min(3);
        if count == 0
            || self.writes == self.breaks_at
            || !self.wanted.starts_with(&bytes[..count])
        {
            return Moved::Broken;
        }
        if self.writes % 2 == 0 {
            return Moved::Blocked;
        }
        self.wanted = &self.wanted[count..];
        Moved::Bytes(count)
    }

    fn stands(&mut self) -> bool {
        !self.is_reset
    }

    fn finish(&mut self) -> io::Result<()> {
        self.ends = true;
        Ok(())
    }
}

impl Dialed for Fake {
    fn is_connected(&mut self) -> io::Result<bool> {
        let was = self.connected;
        self.connected = true;
        Ok(was)
    }
}

fn socket(text: &'static [u8], wanted: &'static [u8], breaks_at: u32, ends: bool) -> Fake {
    Fake {
        text,
        wanted,
        writes: 0,
        breaks_at,
        ends,
        connected: false,
        is_reset: false,
    }
}

// A host to which a request is whole at its point.
#[derive(Drop)]
struct Desk {
    alloc: Global,
    reply: &'static [u8],
    closed: u32,
}

impl Desk {
    fn new(alloc: Global, reply: &'static [u8]) -> Desk {
        Desk {
            alloc,
            reply,
            closed: 0,
        }
    }
}

impl Host for Desk {
    fn open(&mut self, connection: u64) -> bool {
        connection < 2
    }

    fn take(&mut self, _connection: u64, piece: &[u8]) -> Verdict {
        if !piece.contains(&b'.') {
            return Verdict::Undecided;
        }
        match self.reply.to_vec(self.alloc) {
            Ok(reply) => Verdict::Reply(reply),
            Err(_) => Verdict::Gone,
        }
    }

    fn close(&mut self, _connection: u64) {
        self.closed = self.closed.saturating_add(1);
    }
}

// The last turn of a client, if it is let go, as text.
fn last_turn(
    clients: &mut Clients<Fake>,
    key: usize,
    desk: &mut Desk,
    now: Instant,
) -> Option<Turn> {
    let mut buffer = [0; 4096];
    for _ in 0..40 {
        let turn = clients.turn(key, desk, now, &mut buffer)?;
        if turn.lets_go() {
            return Some(turn);
        }
    }
    None
}

type Row = (&'static str, &'static [u8], u32, bool, Turn, u32);

// What a client sends, its reply, the write at which its socket breaks, whether it ends then, its last turn, and how
// many connections are closed in the host by that.
const CLIENTS: &[Row] = &[
    ("ab", DONE, 0, true, Turn::Lost, 1),
    ("abcd.", DONE, 0, false, Turn::Answered, 0),
    ("abcd.", DONE, 3, false, Turn::Lost, 0),
    ("abcd.fgh", REFUSED, 0, false, Turn::Drained, 0),
];

// The key of a client that is added where there is room for one more.
fn add(clients: &mut Clients<Fake>, socket: Fake, desk: &mut Desk, now: Instant) -> Option<usize> {
    if clients.is_full() {
        return None;
    }
    clients.add(socket, desk, now)
}

// The last turn of a client, and how many connections are closed then; first of one, then of another that came with it.
fn ends(
    clients: &mut Clients<Fake>,
    desk: &mut Desk,
    row: &Row,
    now: Instant,
) -> Option<(Turn, u32)> {
    let (text, reply, breaks_at, ends, _, _) = *row;
    let first = add(
        clients,
        socket(text.as_bytes(), reply, breaks_at, ends),
        desk,
        now,
    )?;
    let second = add(clients, socket(b"x.", reply, 0, true), desk, now)?;
    let both = clients.is_full() && clients.opened() == 2;
    let turn = last_turn(clients, first, desk, now)?;
    let closed = desk.closed;
    last_turn(clients, second, desk, now)?;
    if both && clients.is_empty() && desk.closed == closed {
        return Some((turn, closed));
    }
    None
}

fn client_ends(alloc: Global, row: &Row, now: Instant) -> Result<(), Fail> {
    let mut clients = Clients::new(alloc, 2)?;
    let ends = ends(&mut clients, &mut Desk::new(alloc, row.1), row, now);
    holds(ends == Some((row.4, row.5)), row.0)
}

#[test]
fn clients_end(rt: HostRuntime) -> Result<(), Fail> {
    let now = Instant::now(&rt)?;
    for row in CLIENTS {
        client_ends(rt.alloc(), row, now)?;
    }
    Ok(())
}

fn after(start: Instant, seconds: u64) -> Instant {
    start
        .checked_add(Duration::from_secs(seconds))
        .unwrap_or(start)
}

// Whether a client is let go after so many seconds that sent a part of its request a second after it came.
fn goes(
    clients: &mut Clients<Fake>,
    desk: &mut Desk,
    start: Instant,
    seconds: u64,
) -> Option<bool> {
    let next = clients.next_key();
    let key = add(clients, socket(b"ab", DONE, 0, false), desk, start)?;
    let turn = clients.turn(key, desk, after(start, 1), &mut [0; 4096])?;
    if key == next && key < clients.capacity() && turn == Turn::Waits {
        return Some(clients.judge(key, desk, after(start, seconds)));
    }
    None
}

fn silent_client(alloc: Global, start: Instant, seconds: u64, wanted: bool) -> Result<(), Fail> {
    let mut desk = Desk::new(alloc, DONE);
    let mut clients = Clients::new(alloc, 1)?;
    let goes = goes(&mut clients, &mut desk, start, seconds);
    let found = (goes, clients.is_empty(), desk.closed == 1);
    equal(found, (Some(wanted), wanted, wanted), seconds)
}

#[test]
fn silent_clients_are_let_go(rt: HostRuntime) -> Result<(), Fail> {
    let start = Instant::now(&rt)?;
    silent_client(rt.alloc(), start, 5, false)?;
    silent_client(rt.alloc(), start, 6, true)
}

// Whether a client gives its place so many seconds after the start, and how many are left and closed then: the first
// asked at the start and sent a part a second later, the second came at the start and stays silent.
type PlaceRow = (u64, bool, usize, u32);

const PLACES: &[PlaceRow] = &[(0, false, 2, 0), (1, true, 1, 1), (3, true, 1, 1)];

// The first client's next turn after the other gave its place; or the place wasn't given.
fn place(
    clients: &mut Clients<Fake>,
    desk: &mut Desk,
    start: Instant,
    seconds: u64,
) -> Option<bool> {
    let first = add(clients, socket(b"ab", DONE, 0, false), desk, start)?;
    add(clients, socket(b"", DONE, 0, false), desk, start)?;
    clients.turn(first, desk, after(start, 1), &mut [0; 4096])?;
    let gives = clients.make_place(desk, after(start, seconds));
    clients.turn(first, desk, after(start, seconds), &mut [0; 4096])?;
    Some(gives)
}

fn silent_one_gives_place(alloc: Global, row: &PlaceRow, start: Instant) -> Result<(), Fail> {
    let (seconds, gives, left, closed) = *row;
    let mut desk = Desk::new(alloc, DONE);
    let mut clients = Clients::new(alloc, 2)?;
    let given = place(&mut clients, &mut desk, start, seconds);
    equal(
        (given, clients.len(), desk.closed),
        (Some(gives), left, closed),
        seconds,
    )
}

#[test]
fn silent_clients_give_place(rt: HostRuntime) -> Result<(), Fail> {
    let start = Instant::now(&rt)?;
    for row in PLACES {
        silent_one_gives_place(rt.alloc(), row, start)?;
    }
    Ok(())
}

// Whether a client that has sent its whole request is let go before its turn.
fn checked(
    clients: &mut Clients<Fake>,
    desk: &mut Desk,
    is_reset: bool,
    now: Instant,
) -> Option<bool> {
    let mut fake = socket(b"abc.", DONE, 0, false);
    fake.is_reset = is_reset;
    let key = add(clients, fake, desk, now)?;
    Some(clients.check(key, desk))
}

fn check_of(alloc: Global, is_reset: bool, now: Instant) -> Result<(), Fail> {
    let mut desk = Desk::new(alloc, DONE);
    let mut clients = Clients::new(alloc, 1)?;
    let lost = checked(&mut clients, &mut desk, is_reset, now);
    let found = (lost, clients.is_empty(), desk.closed == 1);
    equal(found, (Some(is_reset), is_reset, is_reset), is_reset)
}

#[test]
fn clients_that_were_reset_are_let_go(rt: HostRuntime) -> Result<(), Fail> {
    let now = Instant::now(&rt)?;
    check_of(rt.alloc(), false, now)?;
    check_of(rt.alloc(), true, now)
}

type CallRow = (&'static str, u32, Option<u16>);

// What a call is answered, the write at which its socket breaks, and the status it ends with.
const CALLS: &[CallRow] = &[
    ("HTTP/1.1 200 OK\r\n", 0, Some(200)),
    ("HTTP/1.0 503\r\n\r\n", 0, Some(503)),
    ("HTTP/1.1 200 OK\r\n", 3, None),
    ("HTTP/1.1 20", 0, None),
    ("HTTP/2.0 200 OK\r\n", 0, None),
    ("HTTP/1.1 2000 OK\r\n", 0, None),
    ("HTTP/1.1 099 OK\r\n", 0, None),
];

// The key of a call of the name 7 that is added to no others.
fn call(alloc: Global, calls: &mut Calls<Fake, u8>, socket: Fake, now: Instant) -> Option<usize> {
    let request = REQUEST.to_vec(alloc).ok()?;
    if calls.is_full() {
        return None;
    }
    let key = calls.add(socket, request, 7, now);
    if calls.is_full() { Some(key) } else { None }
}

// The name and the status of a call that ends.
fn ended(calls: &mut Calls<Fake, u8>, key: usize) -> Option<(u8, Option<u16>)> {
    let mut buffer = [0; 4096];
    for _ in 0..40 {
        if let Progress::Ended { name, status } = calls.turn(key, &mut buffer)? {
            return Some((name, status));
        }
    }
    None
}

fn end_of(
    alloc: Global,
    calls: &mut Calls<Fake, u8>,
    row: &CallRow,
    now: Instant,
) -> Option<(u8, Option<u16>)> {
    let socket = socket(row.0.as_bytes(), REQUEST, row.1, true);
    let key = call(alloc, calls, socket, now)?;
    ended(calls, key)
}

fn call_ends(alloc: Global, row: &CallRow, now: Instant) -> Result<(), Fail> {
    let mut calls = Calls::new(alloc, 1)?;
    let end = end_of(alloc, &mut calls, row, now);
    let found = (end, calls.is_empty(), calls.is_full());
    equal(found, (Some((7, row.2)), true, false), row.0)
}

#[test]
fn calls_end(rt: HostRuntime) -> Result<(), Fail> {
    let now = Instant::now(&rt)?;
    for row in CALLS {
        call_ends(rt.alloc(), row, now)?;
    }
    Ok(())
}

// The name of a call that is let go so many seconds after it began.
fn late(alloc: Global, calls: &mut Calls<Fake, u8>, now: Instant, seconds: u64) -> Option<u8> {
    let key = call(alloc, calls, socket(b"", REQUEST, 0, true), now)?;
    calls.judge(key, after(now, seconds))
}

fn late_call(alloc: Global, now: Instant, seconds: u64, wanted: Option<u8>) -> Result<(), Fail> {
    let mut calls = Calls::new(alloc, 1)?;
    equal(late(alloc, &mut calls, now, seconds), wanted, seconds)
}

#[test]
fn late_calls_are_let_go(rt: HostRuntime) -> Result<(), Fail> {
    let now = Instant::now(&rt)?;
    late_call(rt.alloc(), now, 0, None)?;
    late_call(rt.alloc(), now, 5, Some(7))
}

/// What the wall clock and the monotonic clock say, the moment then, and what is told.
type Reading = (u64, u64, u64, Option<ClockNews>);

// A clock that was opened where the wall clock said 1,000,000.
const READINGS: &[Reading] = &[
    (1_000_500, 500, 1_000_500, None),
    // Forty seconds ahead at once, and back.
    (1_041_000, 1_000, 1_041_000, None),
    (1_002_000, 2_000, 1_042_000, Some(ClockNews::Behind(40_000))),
    (1_003_000, 3_000, 1_043_000, None),
    (1_043_500, 3_500, 1_043_500, None),
    // A little behind isn't told.
    (1_043_600, 4_000, 1_044_000, None),
    // Just a minute ahead is believed, a little more only once it stood.
    (1_105_000, 5_000, 1_105_000, None),
    (1_166_001, 6_000, 1_106_000, Some(ClockNews::Ahead(60_001))),
    (1_196_000, 35_999, 1_135_999, None),
    (
        1_196_001,
        36_000,
        1_196_001,
        Some(ClockNews::Believed(60_001)),
    ),
    // One that doesn't stand ahead is doubted anew.
    (
        9_000_000,
        37_000,
        1_197_001,
        Some(ClockNews::Ahead(7_802_999)),
    ),
    (1_198_001, 38_000, 1_198_001, None),
    (
        9_000_000,
        68_000,
        1_228_001,
        Some(ClockNews::Ahead(7_771_999)),
    ),
    (9_000_000, 97_999, 1_258_000, None),
    (
        9_000_000,
        98_000,
        9_000_000,
        Some(ClockNews::Believed(7_741_999)),
    ),
];

#[test]
fn clock_steps(_rt: HostRuntime) -> Result<(), Fail> {
    let mut clock = SteadyClock::new(1_000_000, 0);
    for (wall, now, moment, news) in READINGS {
        let told = clock.read(*wall, *now);
        equal((clock.moment(), told), (*moment, *news), *now)?;
    }
    Ok(())
}
