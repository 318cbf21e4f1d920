//! The server: a listener, its clients and the calls of webhooks, in one poll.

use crate::hall::{Hall, MOST_CALLS};
use crate::service::{Notice, Service};
use crate::stream::Stream;
use am_serve::{ClockNews, SteadyClock};
use am_tally::Load;
use mio::net::{TcpListener, TcpStream};
use mio::{Events, Interest, Poll, Token};
use std::alloc::Global;
use std::io;
use std::net::{Net, SocketAddr};
use std::time::{Clock, Duration, Instant};

/// How many events a turn takes, at most.
const MOST_EVENTS: usize = 1024;

/// How many connections are accepted in one turn, at most.
const MOST_ACCEPTED: usize = 64;

/// How often what is late is looked for, in milliseconds.
const SWEEP: u64 = 250;

/// How often a client that waits for a place is looked after, in milliseconds.
const CROWDED: u64 = 20;

const LISTENER: Token = Token(usize::MAX);

/// A service behind a listener. Connections are served side by side: none waits for another.
pub struct Server<'s, V: Service> {
    poll: Poll,
    events: Events<Global>,
    listener: TcpListener,
    /// A connection that was accepted, and waits for a place.
    waiting: Option<TcpStream>,
    /// Whether another connection may wait to be accepted.
    is_knocked: bool,
    /// Whether the system refused to accept one; it is asked again at the next sweep.
    is_refused: bool,
    /// Whether a notice may wait whose call could begin at once.
    is_behind: bool,
    swept: Instant,
    opened: Instant,
    clock: SteadyClock,
    hall: Hall<'s, V>,
}

// Written out, so that a crate which owns a server has no need to prove anew how each of its parts is dropped.
impl<V: Service> Drop for Server<'_, V> {
    fn drop(self) {
        let Server {
            poll,
            events,
            listener,
            waiting,
            is_knocked: _is_knocked,
            is_refused: _is_refused,
            is_behind: _is_behind,
            swept: _swept,
            opened: _opened,
            clock: _clock,
            hall,
        } = self;
        drop(poll);
        drop(events);
        drop(listener);
        drop(waiting);
        drop(hall);
    }
}

impl<'s, V: Service> Server<'s, V> {
    /// Serves the clients of a listener, until so many of them were answered, where a count is given.
    ///
    /// # Errors
    /// Those of the system's poll and clock; out of memory.
    pub fn open<R: Net + Clock>(
        rt: &R,
        alloc: Global,
        listener: TcpListener,
        service: &'s mut V,
        count: Option<u64>,
    ) -> io::Result<Server<'s, V>> {
        let mut listener = listener;
        let now = Instant::now(rt)?;
        let poll = Poll::new(rt)?;
        poll.registry()
            .register(&mut listener, LISTENER, Interest::READABLE)?;
        Ok(Server {
            poll,
            events: Events::with_capacity(alloc, MOST_EVENTS)?,
            listener,
            waiting: None,
            is_knocked: true,
            is_refused: false,
            is_behind: false,
            swept: now,
            opened: now,
            clock: SteadyClock::new(milliseconds(rt)?, 0),
            hall: Hall::new(alloc, service, count)?,
        })
    }

    /// How many calls of webhooks are under way.
    pub fn calls(&self) -> usize {
        self.hall.calls()
    }

    /// What is open and held, and who was let go since the server was opened.
    pub fn load(&self) -> Load {
        self.hall.load()
    }

    /// Whether as many connections were answered as were asked for.
    pub fn is_done(&self) -> bool {
        self.hall.is_done()
    }

    /// Who is served.
    pub fn service(&self) -> &V {
        self.hall.service()
    }

    /// Who is served, to be told what comes from elsewhere.
    pub fn service_mut(&mut self) -> &mut V {
        self.hall.service_mut()
    }

    /// Whether the service serves on.
    pub fn is_up(&self) -> bool {
        self.service().is_up()
    }

    /// Waits a quarter of a second at most, and then does what can be done without waiting: accepts connections, moves
    /// the bytes of clients and calls that are ready, does what is due, lets go of those that are late, begins the calls
    /// of notices, lets notices give way where too much waits, and hands out the replies that came of all this. Gives
    /// what is to be told of the clock.
    ///
    /// # Errors
    /// Those of the system's poll and clocks; out of memory. One connection's failure is none.
    pub fn turn<R: Net + Clock>(&mut self, rt: &R) -> io::Result<Option<ClockNews>> {
        let patience = self.patience();
        self.poll.poll(&mut self.events, Some(patience))?;
        let now = Instant::now(rt)?;
        let news = self.set_moment(milliseconds(rt)?, now);
        self.hall.resume(now)?;
        for event in &self.events {
            if event.token() == LISTENER {
                self.is_knocked = true;
            } else {
                self.hall.move_on(event.token(), now)?;
            }
        }
        self.accept(now)?;
        self.hall.tick()?;
        self.sweep(now)?;
        self.call(rt, now)?;
        self.hall.relieve()?;
        self.hall.hand_out(now)?;
        Ok(news)
    }

    /// All that comes from here on happens now, by both clocks.
    fn set_moment(&mut self, wall: u64, now: Instant) -> Option<ClockNews> {
        let elapsed = now.saturating_duration_since(self.opened);
        let news = self.clock.read(wall, in_milliseconds(elapsed));
        self.hall.set_moment(self.clock.moment());
        news
    }

    /// How long the next poll may wait.
    fn patience(&self) -> Duration {
        let can_accept = self.is_knocked && !self.is_refused && self.waiting.is_none();
        if can_accept || self.is_behind || self.hall.has_more() {
            Duration::from_millis(0)
        } else if self.waiting.is_some() {
            Duration::from_millis(CROWDED)
        } else {
            Duration::from_millis(SWEEP)
        }
    }

    /// Accepts connections that wait, as long as there is room or somebody gives way.
    fn accept(&mut self, now: Instant) -> io::Result<()> {
        for _ in 0..MOST_ACCEPTED {
            self.accept_one();
            if self.waiting.is_none() || !self.has_place(now) {
                break;
            }
            if let Some(stream) = self.waiting.take() {
                self.admit(stream, now)?;
            }
        }
        Ok(())
    }

    /// Accepts a connection, unless one waits for a place already.
    fn accept_one(&mut self) {
        if self.waiting.is_some() || !self.is_knocked || self.is_refused {
            return;
        }
        match self.listener.accept() {
            Ok((stream, _)) => self.waiting = Some(stream),
            Err(error) => self.note(error.kind()),
        }
    }

    /// Whether there is room for a connection, or somebody gave way to it.
    fn has_place(&mut self, now: Instant) -> bool {
        !self.hall.is_full() || self.hall.make_place(now)
    }

    /// Notes why no connection was accepted.
    fn note(&mut self, kind: io::ErrorKind) {
        match kind {
            io::ErrorKind::WouldBlock => self.is_knocked = false,
            io::ErrorKind::ConnectionAborted | io::ErrorKind::Interrupted => {}
            _ => self.is_refused = true,
        }
    }

    /// Takes a connection in. One that the poll doesn't take is dropped.
    fn admit(&mut self, stream: TcpStream, now: Instant) -> io::Result<()> {
        let mut stream = stream;
        let token = self.hall.next_client();
        let both = Interest::READABLE | Interest::WRITABLE;
        match self.poll.registry().register(&mut stream, token, both) {
            Ok(()) => Ok(self.hall.admit(Stream { inner: stream }, now)?),
            Err(_) => Ok(()),
        }
    }

    /// Begins the calls of notices that wait, as long as there is room; those that can't be begun have no answer.
    fn call<R: Net>(&mut self, rt: &R, now: Instant) -> io::Result<()> {
        self.is_behind = true;
        for _ in 0..MOST_CALLS {
            let Some(notice) = self.hall.next_notice() else {
                self.is_behind = false;
                break;
            };
            match self.dial(rt, &notice) {
                Ok(stream) => self.hall.call(stream, notice, now),
                Err(_) => self.hall.end_call(notice.name, None)?,
            }
        }
        Ok(())
    }

    /// Begins to connect to where a notice goes.
    fn dial<R: Net>(&mut self, rt: &R, notice: &Notice<V::Name>) -> io::Result<Stream> {
        let address = self.hall.address_of(notice)?;
        let mut stream = TcpStream::connect(rt, address)?;
        let both = Interest::READABLE | Interest::WRITABLE;
        let token = self.hall.next_call();
        self.poll.registry().register(&mut stream, token, both)?;
        Ok(Stream { inner: stream })
    }

    /// Lets go of those that are late, four times a second.
    fn sweep(&mut self, now: Instant) -> io::Result<()> {
        if now.duration_since(self.swept) < Duration::from_millis(SWEEP) {
            return Ok(());
        }
        self.swept = now;
        self.is_refused = false;
        Ok(self.hall.sweep(now)?)
    }
}

/// Listens at an address.
///
/// # Errors
/// Those of the system, where the address can't be had.
pub fn listen<R: Net>(rt: &R, address: SocketAddr) -> io::Result<TcpListener> {
    TcpListener::bind(rt, address)
}

/// The wall clock, in milliseconds since 1970.
fn milliseconds<R: Clock>(rt: &R) -> io::Result<u64> {
    Ok(in_milliseconds(rt.since_1970()?))
}

fn in_milliseconds(time: Duration) -> u64 {
    time.as_millis().min(u128::from(u64::MAX)) as u64
}
