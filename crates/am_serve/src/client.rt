//! One client.
ghost use Rattle.std.specs.Prelude.{◌≡◌, ℕ, [], ◌≤◌, ◌+◌, ◌-◌, ◌^◌, ◌<◌, ◌↔◌, IsTrue, false, length, not};
ghost use Rattle.std.specs.Time.{instant_nanos};
ghost use Rattle.am_serve.specs.Acts.{Ask, standing};

use crate::giving::Wanted;
use crate::host::{Host, Verdict};
use crate::outgoing::Outgoing;
use crate::socket::{Moved, PIECE_BYTES, STEPS, Socket};
use std::time::Instant;

/// How many bytes each client may hold undecided, whatever the others hold.
pub const OWN_BYTES: usize = 32_768;

// After how many seconds with no byte moved a client is stale, and after how many in all.
const SILENCE_SECONDS: u64 = 5;

const WHOLE_SECONDS: u64 = 40;

// After how many seconds a client is stale that waits for its reply: the host may take 5, and the time to its next tick.
const REPLY_SECONDS: u64 = 10;

// After how many seconds a client whose request isn't whole gives its place to others.
const SETTLED_SECONDS: u64 = 1;

// Where the first digit of a reply's status stands: after `HTTP/1.1 `.
const STATUS_INDEX: usize = 9;

/// What a client's turn came to.
#[derive(Clone, Copy, PartialEq, Eq)]
pub enum Turn {
    /// The client is kept, and may go on at once: all steps of the turn were made. It is to be given another turn.
    More,
    /// The client is kept. Its socket would have to wait.
    Waits,
    /// The client is kept, and its socket wasn't read: there is no room for another piece. It is to be given a turn
    /// again once another client is let go, and at the latest after a second.
    Crowded,
    /// The last byte of the reply was taken, and the client was let go.
    Answered,
    /// The last byte of the reply was taken. The client is kept until it ends, and what it sends is thrown away: it is
    /// to be given another turn.
    Drains,
    /// A client that was answered before was let go.
    Drained,
    /// The socket failed or ended before the last byte of a reply was taken, and the client was let go.
    Lost,
    /// The host has no such connection any more, and the client was let go.
    Gone,
}

impl Turn {
    ghost use Rattle.am_serve.specs.Clients.{lets_go};

    /// Whether the client was let go.
    pub fn lets_go(self) -> bool
        ensures { result ≡ lets_go self }
    {
        match self {
            Turn::Answered | Turn::Drained | Turn::Lost | Turn::Gone => true,
            Turn::More | Turn::Waits | Turn::Crowded | Turn::Drains => false,
        }
    }
}

/// How far a client is.
#[derive(Drop)]
pub enum Stage {
    // The host has no whole request yet.
    Asking,
    // The host has the whole request, and gives its reply later.
    Awaiting,
    // The host gave its reply.
    Telling(Outgoing),
    // Nothing is left to be said: what comes is thrown away.
    Draining,
}

/// A client under its connection number.
#[derive(Drop)]
pub struct Client<S: Socket> {
    socket: S,
    connection: u64,
    stage: Stage,
    // How many bytes of its request the host holds undecided.
    held: usize,
    // When it came, or its reply did where that came later than the request.
    opened: Instant,
    // When a byte was last read or written, or the client had to wait for room.
    moved: Instant,
}

impl<S: Socket> Client<S> {
    ghost use Rattle.am_serve.specs.Clients.{AwaitsOn, HandsOn, IsAsking, IsAwaiting, IsDraining, IsGiven, IsStale};
    ghost use Rattle.am_serve.specs.Clients.{IsSuccess, IsTelling, IsTold, Turned, Works, excess_of, first_client};
    ghost use Rattle.am_serve.specs.Clients.{whole_reply};
    ghost use Rattle.am_serve.specs.Giving.{Gives, reply_bytes};

    // A client that sent nothing yet.
    pub fn new(socket: S, connection: u64, now: Instant) -> Client<S>
        ensures { result ≡ first_client socket connection now }
    {
        Client {
            socket,
            connection,
            stage: Stage::Asking,
            held: 0,
            opened: now,
            moved: now,
        }
    }

    // How many bytes it holds past its own share.
    pub fn excess(&self) -> usize
        ensures { result ≡ excess_of self.now }
    {
        self.held.saturating_sub(OWN_BYTES)
    }

    // Whether the host has no whole request of it.
    pub fn is_asking(&self) -> bool
        ensures { IsTrue result ↔ IsAsking self.now.stage }
    {
        matches!(self.stage, Stage::Asking)
    }

    pub fn connection(&self) -> u64
        ensures { result ≡ self.now.connection }
    {
        self.connection
    }

    // When a byte was last read or written, or it had to wait for room.
    pub fn moved(&self) -> Instant
        ensures { result ≡ self.now.moved }
    {
        self.moved
    }

    // How many bytes its reply holds: the whole, until the last byte was taken.
    pub fn reply_bytes(&self) -> usize
        ensures { result ≡ reply_bytes self.now.stage }
    {
        match &self.stage {
            Stage::Telling(reply) => reply.undelivered(),
            Stage::Asking | Stage::Awaiting | Stage::Draining => 0,
        }
    }

    // Whether it has what is wanted of a client that gives way.
    pub fn gives(&self, wanted: Wanted) -> bool
        ensures { IsTrue result ↔ Gives wanted self.now }
    {
        match wanted {
            Wanted::Reply => self.reply_bytes() > 0,
            Wanted::Place(now) => {
                self.is_asking()
                    && now.saturating_duration_since(self.opened).as_secs() >= SETTLED_SECONDS
            }
        }
    }

    // Whether its connection failed before the host had its whole request.
    pub fn is_lost(&mut self) -> bool
        ensures asked { IsAsking self.old.stage → S.does self.old.socket (Ask (standing (not result))) self.new.socket }
        ensures rest { self.new ≡ record self.old { socket = self.new.socket } }
        ensures decided { (IsAsking self.old.stage → ⊥) → (result ≡ false) × (self.new ≡ self.old) }
    {
        self.is_asking() && !self.socket.stands()
    }

    // Whether it is silent for too long, or there for too long.
    pub fn is_stale(&self, now: Instant) -> bool
        ensures { IsTrue result ↔ IsStale self.now now }
    {
        let silent = now.saturating_duration_since(self.moved).as_secs();
        let whole = now.saturating_duration_since(self.opened).as_secs();
        match self.stage {
            Stage::Awaiting => silent >= REPLY_SECONDS,
            Stage::Asking | Stage::Telling(_) | Stage::Draining => {
                silent >= SILENCE_SECONDS || whole >= WHOLE_SECONDS
            }
        }
    }

    // Whether it waits for the reply to this connection.
    pub fn awaits_on(&self, connection: u64) -> bool
        ensures { IsTrue result ↔ AwaitsOn connection self.now }
    {
        self.connection == connection && matches!(self.stage, Stage::Awaiting)
    }

    // The reply came that it waited for. Its time begins anew.
    pub fn give(&mut self, reply: Vec<u8>, now: Instant)
        requires { IsAwaiting self.old.stage }
        ensures { IsGiven reply.items now self.old self.new }
    {
        self.stage = Stage::Telling(Outgoing::new(reply));
        self.opened = now;
        self.moved = now;
    }

    // A turn of a client that may hold so many bytes undecided.
    pub fn turn<H: Host>(
        &mut self,
        host: &mut H,
        now: Instant,
        buffer: &mut [u8; 4096],
        most: usize,
    ) -> Turn
        requires { self.old.held ≤ most }
        ensures held { self.new.held ≤ most }
        ensures turned { Turned S.does H.takes 16 most now self.old self.new host.old host.new result }
    {
        for _ in 0..STEPS {
            match self.step(host, now, buffer, most) {
                Turn::More => {}
                turn => return turn,
            }
        }
        Turn::More
    }

    // One read, one write, or the end of a reply that was written whole.
    fn step<H: Host>(
        &mut self,
        host: &mut H,
        now: Instant,
        buffer: &mut [u8; 4096],
        most: usize,
    ) -> Turn
        requires { self.old.held ≤ most }
        ensures held { self.new.held ≤ most }
        ensures turned { Turned S.does H.takes 1 most now self.old self.new host.old host.new result }
    {
        if self.is_told() {
            return self.end(now);
        }
        match self.stage {
            Stage::Asking => self.ask(host, now, buffer, most),
            Stage::Awaiting => Turn::Waits,
            Stage::Telling(_) => self.tell(now),
            Stage::Draining => self.drain(now, buffer),
        }
    }

    // Reads a piece and hands it to the host.
    fn ask<H: Host>(
        &mut self,
        host: &mut H,
        now: Instant,
        buffer: &mut [u8; 4096],
        most: usize,
    ) -> Turn
        requires asking { IsAsking self.old.stage }
        requires held { self.old.held ≤ most }
        ensures held { self.new.held ≤ most }
        ensures turned { Turned S.does H.takes 1 most now self.old self.new host.old host.new result }
    {
        if most - self.held < PIECE_BYTES {
            self.moved = now;
            return Turn::Crowded;
        }
        match self.socket.read(buffer) {
            Moved::Broken => Turn::Lost,
            Moved::Bytes(count) => {
                self.moved = now;
                self.hand_on(host, &buffer[..count])
            }
            Moved::Blocked => Turn::Waits,
            Moved::Interrupted => Turn::More,
        }
    }

    // Hands a piece to the host.
    fn hand_on<H: Host>(&mut self, host: &mut H, piece: &[u8]) -> Turn
        requires asking { IsAsking self.old.stage }
        requires room { self.old.held + length piece.now < 2 ^ 64 }
        ensures held { self.new.held ≤ self.old.held + length piece.now }
        ensures taken { HandsOn H.takes piece.now self.old self.new host.old host.new result }
    {
        match host.take(self.connection, piece) {
            Verdict::Undecided => {
                self.held += piece.len();
                Turn::More
            }
            Verdict::Reply(bytes) => {
                self.held = 0;
                self.stage = Stage::Telling(Outgoing::new(bytes));
                Turn::More
            }
            Verdict::Later => {
                self.held = 0;
                self.stage = Stage::Awaiting;
                Turn::More
            }
            Verdict::Gone => {
                self.held = 0;
                self.stage = Stage::Draining;
                Turn::Gone
            }
        }
    }

    // Whether the whole reply was written.
    fn is_told(&self) -> bool
        ensures { IsTrue result ↔ IsTold self.now.stage }
    {
        match &self.stage {
            Stage::Telling(reply) => reply.is_sent(),
            Stage::Asking | Stage::Awaiting | Stage::Draining => false,
        }
    }

    // Whether the reply's status is 200 to 299.
    fn is_success(&self) -> bool
        ensures { IsTrue result ↔ IsSuccess (whole_reply self.now.stage) }
    {
        match &self.stage {
            Stage::Telling(reply) => reply.byte(STATUS_INDEX) == Some(b'2'),
            Stage::Asking | Stage::Awaiting | Stage::Draining => false,
        }
    }

    // What follows a reply that was written whole. A client that isn't told of success may still be sending, and a
    // socket that is dropped with bytes unread may lose the reply on its way.
    fn end(&mut self, now: Instant) -> Turn
        requires { IsTold self.old.stage }
        ensures held { self.new.held ≡ self.old.held }
        ensures works { (most : ℕ) → Works S.does 1 most now self.old self.new [] result }
    {
        if self.is_success() {
            return Turn::Answered;
        }
        let _ = self.socket.finish();
        self.stage = Stage::Draining;
        Turn::Drains
    }

    // Writes of the reply.
    fn tell(&mut self, now: Instant) -> Turn
        requires telling { IsTelling self.old.stage }
        requires untold { IsTold self.old.stage → ⊥ }
        ensures held { self.new.held ≡ self.old.held }
        ensures works { (most : ℕ) → Works S.does 1 most now self.old self.new [] result }
    {
        let Stage::Telling(reply) = &mut self.stage else {
            unreachable!()
        };
        match reply.write(&mut self.socket) {
            Moved::Broken => Turn::Lost,
            Moved::Bytes(_) => {
                self.moved = now;
                Turn::More
            }
            Moved::Blocked => Turn::Waits,
            Moved::Interrupted => Turn::More,
        }
    }

    // Reads and throws away.
    fn drain(&mut self, now: Instant, buffer: &mut [u8; 4096]) -> Turn
        requires { IsDraining self.old.stage }
        ensures held { self.new.held ≡ self.old.held }
        ensures works { (most : ℕ) → Works S.does 1 most now self.old self.new [] result }
    {
        match self.socket.read(buffer) {
            Moved::Broken => Turn::Drained,
            Moved::Bytes(_) => {
                self.moved = now;
                Turn::More
            }
            Moved::Blocked => Turn::Waits,
            Moved::Interrupted => Turn::More,
        }
    }
}
