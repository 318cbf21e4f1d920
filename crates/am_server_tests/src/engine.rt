//! The engine, turn by turn.

use am_expect::equal;
use am_serve::{ClockNews, Host, Verdict};
use am_server::{Notice, Server, Service, listen};
use am_text::{Octets, Text};
use std::alloc::{AllocError, Global};
use std::io;
use std::io::{Read, Write};
use std::net::{Ipv4Addr, Net, SocketAddr, TcpStream};
use std::test::Fail;
use std::time::{Clock, Duration};

// The hands of both clocks, in milliseconds, and the network of the system.
#[derive(Drop)]
struct Hands<'r, R> {
    rt: &'r R,
    wall: u64,
    monotonic: u64,
}

impl<R> Clock for Hands<'_, R> {
    fn monotonic(&self) -> io::Result<Duration> {
        Ok(Duration::from_millis(self.monotonic))
    }

    fn since_1970(&self) -> io::Result<Duration> {
        Ok(Duration::from_millis(self.wall))
    }
}

impl<R: Net> Net for Hands<'_, R> {
    type Stream = R::Stream;

    type Listener = R::Listener;

    fn bind(&self, address: SocketAddr) -> io::Result<R::Listener> {
        self.rt.bind(address)
    }

    fn connect(&self, address: SocketAddr) -> io::Result<R::Stream> {
        self.rt.connect(address)
    }
}

// Who notes what it is told.
#[derive(Drop)]
struct Desk {
    alloc: Global,
    moments: Vec<u64>,
    // How many notices give way, and how many calls ended without an answer.
    heavy: u64,
    failed: u64,
}

impl Desk {
    fn new(alloc: Global, heavy: u64) -> Desk {
        Desk {
            alloc,
            moments: Vec::new(alloc),
            heavy,
            failed: 0,
        }
    }

    fn notice(&self) -> Result<Notice<u64>, AllocError> {
        Ok(Notice {
            name: self.heavy,
            url: Text::read(self.alloc, "http://127.0.0.1:1/")?,
            request: Octets::read(self.alloc, b"")?,
        })
    }
}

impl Host for Desk {
    fn open(&mut self, _connection: u64) -> bool {
        false
    }

    fn take(&mut self, _connection: u64, _piece: &[u8]) -> Verdict {
        Verdict::Gone
    }

    fn close(&mut self, _connection: u64) {}
}

impl Service for Desk {
    type Name = u64;

    fn is_up(&self) -> bool {
        true
    }

    fn set_moment(&mut self, moment: u64) {
        let _ = self.moments.push(moment);
    }

    fn tick(&mut self) -> Result<(), AllocError> {
        Ok(())
    }

    fn next_reply(&mut self) -> Option<(u64, Vec<u8>)> {
        None
    }

    fn next_notice(&mut self, _free: usize) -> Option<Notice<u64>> {
        None
    }

    fn next_given_up(&mut self) -> Option<Notice<u64>> {
        self.heavy = self.heavy.checked_sub(1)?;
        self.notice().ok()
    }

    fn end_call(&mut self, _name: u64, status: Option<u16>) -> Result<(), AllocError> {
        if status.is_none() {
            self.failed = self.failed.saturating_add(1);
        }
        Ok(())
    }
}

/// What the wall clock and the monotonic clock say in a turn, the moment of what happens then, and what is told.
type Turn = (u64, u64, u64, Option<ClockNews>);

const TURNS: &[Turn] = &[
    (1_000_000, 9_000, 1_000_000, None),
    // Forty seconds ahead at once, and back.
    (1_040_500, 9_500, 1_040_500, None),
    (
        1_001_000,
        10_000,
        1_041_000,
        Some(ClockNews::Behind(40_000)),
    ),
    (1_001_500, 10_500, 1_041_500, None),
    // An hour ahead, believed once it stood for half a minute.
    (
        4_641_500,
        11_500,
        1_042_500,
        Some(ClockNews::Ahead(3_599_000)),
    ),
    (4_671_499, 41_499, 1_072_499, None),
    (
        4_671_500,
        41_500,
        4_671_500,
        Some(ClockNews::Believed(3_599_000)),
    ),
];

// Where the engine listens: at a port that is free.
fn any() -> SocketAddr {
    SocketAddr::from((Ipv4Addr::LOCALHOST, 0))
}

// Turns of an engine that is opened as the first turn comes; what it tells of the clock is as the table says.
fn turn_all<R: Net>(rt: &R, desk: &mut Desk) -> Result<(), Fail> {
    let alloc = desk.alloc;
    let opening = Hands {
        rt,
        wall: 1_000_000,
        monotonic: 9_000,
    };
    let mut server = Server::open(&opening, alloc, listen(rt, any())?, desk, None)?;
    for (wall, monotonic, _, news) in TURNS {
        let hands = Hands {
            rt,
            wall: *wall,
            monotonic: *monotonic,
        };
        equal(server.turn(&hands)?, *news, *monotonic)?;
    }
    Ok(())
}

#[test]
fn moments_go_on_where_the_clock_steps(rt: HostRuntime) -> Result<(), Fail> {
    let mut desk = Desk::new(rt.alloc(), 0);
    turn_all(&rt, &mut desk)?;
    equal(desk.moments.len(), TURNS.len(), "turns")?;
    for (row, moment) in TURNS.iter().zip(desk.moments.iter()) {
        equal(*moment, row.2, row.1)?;
    }
    Ok(())
}

// One turn.
fn turn_once<R: Net + Clock>(rt: &R, desk: &mut Desk) -> Result<(), Fail> {
    let alloc = desk.alloc;
    let mut server = Server::open(rt, alloc, listen(rt, any())?, desk, None)?;
    server.turn(rt)?;
    Ok(())
}

#[test]
fn notices_that_give_way_are_tries_without_an_answer(rt: HostRuntime) -> Result<(), Fail> {
    let mut desk = Desk::new(rt.alloc(), 3);
    turn_once(&rt, &mut desk)?;
    equal((desk.heavy, desk.failed), (0, 3), "notices")
}

// Who has the reply to a request later.
#[derive(Drop)]
struct Waiter {
    alloc: Global,
    asked: Option<u64>,
}

impl Host for Waiter {
    fn open(&mut self, _connection: u64) -> bool {
        true
    }

    fn take(&mut self, connection: u64, _piece: &[u8]) -> Verdict {
        self.asked = Some(connection);
        Verdict::Later
    }

    fn close(&mut self, _connection: u64) {}
}

impl Service for Waiter {
    type Name = u64;

    fn is_up(&self) -> bool {
        true
    }

    fn set_moment(&mut self, _moment: u64) {}

    fn tick(&mut self) -> Result<(), AllocError> {
        Ok(())
    }

    fn next_reply(&mut self) -> Option<(u64, Vec<u8>)> {
        let connection = self.asked.take()?;
        let reply = Vec::from_slice(self.alloc, b"HTTP/1.1 200 OK\r\n\r\n").ok()?;
        Some((connection, reply))
    }

    fn next_notice(&mut self, _free: usize) -> Option<Notice<u64>> {
        None
    }

    fn next_given_up(&mut self) -> Option<Notice<u64>> {
        None
    }

    fn end_call(&mut self, _name: u64, _status: Option<u16>) -> Result<(), AllocError> {
        Ok(())
    }
}

#[test]
fn late_replies_reach_their_clients(rt: HostRuntime) -> Result<(), Fail> {
    let mut waiter = Waiter {
        alloc: rt.alloc(),
        asked: None,
    };
    let listener = listen(&rt, any())?;
    let mut client = TcpStream::connect(&rt, listener.local_addr()?)?;
    let mut server = Server::open(&rt, rt.alloc(), listener, &mut waiter, Some(1))?;
    client.write_all(b"GET / HTTP/1.1\r\n\r\n")?;
    for _ in 0..4u8 {
        server.turn(&rt)?;
    }
    let mut start = [0u8; 12];
    client.read_exact(&mut start)?;
    equal(start.as_slice(), b"HTTP/1.1 200", "a late reply")
}
