//! Bytes on their way out.
ghost use Rattle.std.specs.Prelude.{◌≡◌, ◌≢◌, ◌≤◌, ◌<◌, ◌^◌, ◌↔◌, [], IsTrue, drop, take, slice_get, vec_len};
ghost use Rattle.am_serve.specs.Acts.{Write};
ghost use Rattle.am_serve.specs.Sockets.{count_of};

use crate::socket::{Moved, Socket};

/// Bytes of which a first part was sent.
#[derive(Drop)]
pub struct Outgoing {
    bytes: Vec<u8>,
    sent: usize,
    ghost within: { sent ≤ vec_len bytes },
    ghost fits: { vec_len bytes < 2 ^ 64 },
}

impl Outgoing {
    ghost use Rattle.am_serve.specs.Outgoings.{Sends, undelivered, unsent};

    // None of these bytes was sent yet.
    pub fn new(bytes: Vec<u8>) -> Outgoing
        ensures bytes { result.bytes ≡ bytes }
        ensures unsent { unsent result ≡ bytes.items }
    {
        Outgoing { bytes, sent: 0 }
    }

    // Whether all bytes were sent.
    pub fn is_sent(&self) -> bool
        ensures { IsTrue result ↔ (unsent self.now ≡ []) }
    {
        self.rest().is_empty()
    }

    // How many bytes it holds: the whole, until the last byte was sent.
    #[tactic(auto, unfolding(crate::specs::Outgoings::undelivered))]
    pub fn undelivered(&self) -> usize
        ensures { result ≡ undelivered self.now }
    {
        if self.is_sent() { 0 } else { self.bytes.len() }
    }

    // The byte at an index of the whole, if there is one.
    pub fn byte(&self, index: usize) -> Option<u8>
        ensures { result ≡ slice_get self.now.bytes.items index }
    {
        self.bytes.get(index).copied()
    }

    // What wasn't sent yet.
    fn rest(&self) -> &[u8]
        ensures { result.now ≡ unsent self.now }
    {
        &self.bytes[self.sent..]
    }

    // Writes a first part of what wasn't sent yet.
    pub fn write<S: Socket>(&mut self, socket: &mut S) -> Moved
        ensures bytes { self.new.bytes.items ≡ self.old.bytes.items }
        ensures sends { Sends result (unsent self.old) (unsent self.new) }
        ensures writes { S.does socket.old (Write result (take (count_of result) (unsent self.old))) socket.new }
        ensures some { result ≢ Moved.Bytes 0 }
    {
        let moved = socket.write(self.rest());
        if let Moved::Bytes(count) = moved {
            self.sent += count;
        }
        moved
    }
}
