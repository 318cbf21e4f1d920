//! One call of a webhook.
ghost use Rattle.std.specs.Prelude.{◌≡◌, ◌≢◌, ◌++◌, ◌↔◌, [], IsTrue, false, true, take};
ghost use Rattle.am_serve.specs.Calls.{Gathered};

use crate::dialed::Dialed;
use crate::outgoing::Outgoing;
use crate::socket::{Moved, STEPS};
use crate::status::{STATUS_BYTES, read_status};
use arrayvec::ArrayVec;
use std::time::Instant;

// After how many seconds a call failed.
const CALL_SECONDS: u64 = 5;

// What a call's turn came to.
#[derive(Clone, Copy, PartialEq, Eq)]
pub enum Step {
    // It may go on at once.
    More,
    // Its socket would have to wait.
    Waits,
    // The response has this status, or the call failed.
    Ended(Option<u16>),
}

/// How far a call is.
#[derive(Drop)]
pub enum CallStage {
    // The request is on its way.
    Asking(Outgoing),
    // The request was sent, and these bytes came back.
    Awaiting(ArrayVec<u8, 13>),
}

/// A call under the caller's name of it.
#[derive(Drop)]
pub struct Call<S: Dialed, N: Drop> {
    socket: S,
    name: N,
    is_connected: bool,
    stage: CallStage,
    begun: Instant,
}

impl<S: Dialed, N: Drop> Call<S, N> {
    ghost use Rattle.am_serve.specs.CallTables.{request_bytes};
    ghost use Rattle.am_serve.specs.Calls.{CallMoves, CallWorks, IsAskingCall, IsAwaitingCall, IsFirstCall, IsOver, unasked};

    // A call that sent nothing yet.
    pub fn new(socket: S, request: Vec<u8>, name: N, now: Instant) -> Call<S, N>
        ensures { IsFirstCall socket request.items name now result }
    {
        Call {
            socket,
            name,
            is_connected: false,
            stage: CallStage::Asking(Outgoing::new(request)),
            begun: now,
        }
    }

    // How many bytes its request holds: the whole, until the last byte was sent.
    pub fn request_bytes(&self) -> usize
        ensures { result ≡ request_bytes self.now.stage }
    {
        match &self.stage {
            CallStage::Asking(request) => request.undelivered(),
            CallStage::Awaiting(_) => 0,
        }
    }

    // The caller's name of it.
    pub fn into_name(self) -> N
        ensures { result ≡ self.name }
    {
        self.name
    }

    // Whether it took too long.
    pub fn is_over(&self, now: Instant) -> bool
        ensures { IsTrue result ↔ IsOver self.now now }
    {
        now.saturating_duration_since(self.begun).as_secs() >= CALL_SECONDS
    }

    // A turn.
    pub fn turn(&mut self, buffer: &mut [u8; 4096]) -> Step
        ensures { CallWorks S.does 16 self.old self.new result }
    {
        for _ in 0..STEPS {
            match self.step(buffer) {
                Step::More => {}
                step => return step,
            }
        }
        Step::More
    }

    // One read or one write, or the question whether the connection stands.
    fn step(&mut self, buffer: &mut [u8; 4096]) -> Step
        ensures { CallWorks S.does 1 self.old self.new result }
    {
        if !self.is_connected {
            return self.connect();
        }
        self.settle();
        match self.stage {
            CallStage::Asking(_) => self.ask(),
            CallStage::Awaiting(_) => self.hear(buffer),
        }
    }

    // Once the request was written whole the response is awaited.
    fn settle(&mut self)
        ensures moves { CallMoves self.old self.new [] }
        ensures socket { self.new.socket ≡ self.old.socket }
        ensures asks { IsAskingCall self.new.stage → unasked self.new.stage ≢ [] }
    {
        if self.is_asked() {
            self.stage = CallStage::Awaiting(ArrayVec::new());
        }
    }

    // Whether the whole request was written, and its response isn't awaited yet.
    fn is_asked(&self) -> bool
        ensures { IsTrue result ↔ (IsAskingCall self.now.stage × (unasked self.now.stage ≡ [])) }
    {
        match &self.stage {
            CallStage::Asking(request) => request.is_sent(),
            CallStage::Awaiting(_) => false,
        }
    }

    // Asks whether the connection stands.
    fn connect(&mut self) -> Step
        requires { self.old.is_connected ≡ false }
        ensures { CallWorks S.does 1 self.old self.new result }
    {
        match self.socket.is_connected() {
            Ok(true) => {
                self.is_connected = true;
                Step::More
            }
            Ok(false) => Step::Waits,
            Err(_) => Step::Ended(None),
        }
    }

    // Writes of the request.
    fn ask(&mut self) -> Step
        requires asking { IsAskingCall self.old.stage }
        requires left { unasked self.old.stage ≢ [] }
        requires connected { self.old.is_connected ≡ true }
        ensures { CallWorks S.does 1 self.old self.new result }
    {
        let CallStage::Asking(request) = &mut self.stage else {
            unreachable!()
        };
        match request.write(&mut self.socket) {
            Moved::Bytes(_) => Step::More,
            Moved::Blocked => Step::Waits,
            Moved::Interrupted => Step::More,
            Moved::Broken => Step::Ended(None),
        }
    }

    // Reads the response until its status is there.
    fn hear(&mut self, buffer: &mut [u8; 4096]) -> Step
        requires awaiting { IsAwaitingCall self.old.stage }
        requires connected { self.old.is_connected ≡ true }
        ensures { CallWorks S.does 1 self.old self.new result }
    {
        let CallStage::Awaiting(line) = &mut self.stage else {
            unreachable!()
        };
        match self.socket.read(buffer) {
            Moved::Bytes(count) => gather(line, &buffer[..count]),
            Moved::Blocked => Step::Waits,
            Moved::Interrupted => Step::More,
            Moved::Broken => Step::Ended(None),
        }
    }
}

// Takes what tells the status of what was read, and the status once it is there.
fn gather(line: &mut ArrayVec<u8, 13>, piece: &[u8]) -> Step
    ensures line { line.new.items ≡ take 13 (line.old.items ++ piece.now) }
    ensures ends { Gathered line.new.items result }
{
    let wanted = line.remaining_capacity().min(piece.len());
    let _ = line.try_extend_from_slice(&piece[..wanted]);
    if line.len() < STATUS_BYTES {
        return Step::More;
    }
    Step::Ended(read_status(line.as_slice()))
}
