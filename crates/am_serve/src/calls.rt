//! The table of calls.
ghost use Rattle.std.specs.Prelude.{◌≡◌, ◌↔◌, ◌^◌, ◌<◌, ◌≤◌, ℕ, [], None, Some};
ghost use Rattle.std.specs.Prelude.{IfNone, IfOk, IfSome, IsSomeAnd, IsTrue};
ghost use Rattle.slab.specs.Slab.{get, slab_len};
ghost use Rattle.am_serve.specs.Calls.{IsOver};
ghost use Rattle.am_serve.specs.CallTables.{AddsCall, CallTurnAt, request_bytes_in};
ghost use Rattle.am_serve.specs.Tables.{Others};

use crate::call::{Call, Step};
use crate::dialed::Dialed;
use slab::Slab;
use std::alloc::{AllocError, Global};
use std::time::Instant;

/// What a call's turn came to.
#[derive(Drop)]
pub enum Progress<N> {
    /// The call is kept, and may go on at once: all steps of the turn were made. It is to be given another turn.
    More,
    /// The call is kept. Its socket would have to wait.
    Waits,
    /// The call of this name ended, and its socket was dropped.
    Ended {
        /// The caller's name of it.
        name: N,
        /// The status of the response, 100 to 999. `None`: the connection failed, or ended before there was a status,
        /// or what came is no status line of HTTP/1.0 or HTTP/1.1.
        status: Option<u16>,
    },
}

/// Past how many bytes the requests that aren't sent whole hold too much.
pub const REQUEST_BYTES: usize = 268_435_456;

/// The calls of webhooks that are under way, at most as many as the limit. Each is known by its key.
///
/// A request is held whole until its last byte was sent.
#[derive(Drop)]
pub struct Calls<S: Dialed, N: Drop> {
    calls: Slab<Call<S, N>>,
    limit: usize,
    // How many bytes the requests hold. No number of lengths comes to more.
    asking: u128,
    ghost few: { limit < 2 ^ 64 },
    ghost requests: { asking ≡ request_bytes_in calls.slots },
    ghost bounded: { slab_len calls ≤ limit },
    ghost room: { limit ≤ calls.capacity },
}

impl<S: Dialed, N: Drop> Calls<S, N> {
    /// No calls, with the memory for as many as the limit: the table takes no more.
    ///
    /// # Errors
    /// Out of memory.
    pub fn new(alloc: Global, limit: usize) -> Result<Calls<S, N>, AllocError>
        ensures empty { IfOk result (λ table. table.calls.slots ≡ []) }
        ensures limit { IfOk result (λ table. table.limit ≡ limit) }
    {
        Ok(Calls {
            calls: Slab::with_capacity(alloc, limit)?,
            limit,
            asking: 0,
        })
    }

    /// How many calls there are.
    pub fn len(&self) -> usize
        ensures { result ≡ slab_len self.now.calls }
    {
        self.calls.len()
    }

    /// Whether there are none.
    pub fn is_empty(&self) -> bool
        ensures { IsTrue result ↔ (slab_len self.now.calls ≡ 0) }
    {
        self.calls.len() == 0
    }

    /// Whether there are as many as the limit.
    pub fn is_full(&self) -> bool
        ensures { IsTrue result ↔ (self.now.limit ≤ slab_len self.now.calls) }
    {
        self.calls.len() >= self.limit
    }

    /// How many bytes the requests hold that aren't sent whole: each the whole, until its last byte was sent.
    pub fn request_bytes(&self) -> u128
        ensures { result ≡ request_bytes_in self.now.calls.slots }
    {
        self.asking
    }

    /// Whether the requests that aren't sent whole hold too much: over 256 MiB.
    pub fn is_laden(&self) -> bool
        ensures { IsTrue result ↔ (268435456 < request_bytes_in self.now.calls.slots) }
    {
        self.asking > REQUEST_BYTES as u128
    }

    /// All keys are below this.
    pub fn capacity(&self) -> usize
        ensures value { result ≡ self.now.calls.capacity }
        ensures keys { (key : ℕ) → result ≤ key → get self.now.calls key ≡ None }
    {
        self.calls.capacity()
    }

    /// The key that the next call gets.
    pub fn next_key(&self) -> usize
        ensures key { result ≡ self.now.calls.vacant_key }
        ensures vacant { get self.now.calls result ≡ None }
    {
        self.calls.vacant_key()
    }

    /// Takes a call whose socket may still be connecting: once it stands, the request is sent. Gives the call's key.
    pub fn add(&mut self, socket: S, request: Vec<u8>, name: N, now: Instant) -> usize
        requires { slab_len self.old.calls < self.old.limit }
        ensures added { AddsCall self.old.calls self.new.calls result socket request.items name now }
        ensures limit { self.new.limit ≡ self.old.limit }
    {
        let call = Call::new(socket, request, name, now);
        self.asking += call.request_bytes() as u128;
        self.calls.insert_reserved(call)
    }

    /// Gives the call of this key its turn: at most 16 reads, writes and questions whether its connection stands. Once it
    /// stands the request is written whole, and then the response is read until its status is there. `None`: there is no
    /// such call.
    pub fn turn(&mut self, key: usize, buffer: &mut [u8; 4096]) -> Option<Progress<N>>
        ensures turned { CallTurnAt S.does self.old.calls self.new.calls key (get self.old.calls key) result }
        ensures others { Others self.old.calls self.new.calls key }
        ensures limit { self.new.limit ≡ self.old.limit }
    {
        let asking = self.asking;
        let call = self.calls.get_mut(key)?;
        let others = asking - call.request_bytes() as u128;
        let step = call.turn(buffer);
        self.asking = others + call.request_bytes() as u128;
        match step {
            Step::More => Some(Progress::More),
            Step::Waits => Some(Progress::Waits),
            Step::Ended(status) => {
                let ended = self.calls.try_remove(key)?;
                self.asking = others;
                let name = ended.into_name();
                Some(Progress::Ended { name, status })
            }
        }
    }

    /// Ends the call of this key where it is there for 5 seconds, and gives its name: it failed.
    pub fn judge(&mut self, key: usize, now: Instant) -> Option<N>
        ensures over { IfSome result (λ name. IsSomeAnd (get self.old.calls key) (λ call. IsOver call now × (name ≡ call.name))) }
        ensures ends { IfSome result (λ name. get self.new.calls key ≡ None) }
        ensures stays { IfNone result ((self.new.calls ≡ self.old.calls) × IfSome (get self.old.calls key) (λ call. IsOver call now → ⊥)) }
        ensures others { Others self.old.calls self.new.calls key }
        ensures limit { self.new.limit ≡ self.old.limit }
    {
        if !self.calls.get(key)?.is_over(now) {
            return None;
        }
        let call = self.calls.try_remove(key)?;
        self.asking -= call.request_bytes() as u128;
        Some(call.into_name())
    }
}
