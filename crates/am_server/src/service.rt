//! What a server serves.

use am_serve::{Host, Weighs};
use am_text::{Octets, Text};
use std::alloc::AllocError;

/// A notice whose call wasn't begun yet.
#[derive(Drop)]
pub struct Notice<N: Drop> {
    /// What the service knows the call by.
    pub name: N,
    /// The URL as it is written.
    pub url: Text,
    /// The whole request.
    pub request: Octets,
}

/// It weighs what its request's bytes do.
impl<N: Drop> Weighs for Notice<N> {
    ghost use Rattle.std.specs.Prelude.{length};

    ghost weight = { λ notice. length notice.request };

    fn bytes(&self) -> usize {
        self.request.len()
    }
}

/// Who answers a server's clients, is told the time, and has notices that go out.
pub trait Service: Host {
    /// What the service knows a call by.
    type Name: Drop;

    /// Whether it serves on: no fault stopped it.
    fn is_up(&self) -> bool;

    /// All that comes from here on happens at this moment, in milliseconds since 1970.
    fn set_moment(&mut self, moment: u64);

    /// Does what is due at the moment, where the clock may go on.
    ///
    /// # Errors
    /// Out of memory.
    fn tick(&mut self) -> Result<(), AllocError>;

    /// The next reply that came later than its request, with the connection's number.
    fn next_reply(&mut self) -> Option<(u64, Vec<u8>)>;

    /// The next notice whose call is to begin, where so many calls more may be under way.
    fn next_notice(&mut self, free: usize) -> Option<Notice<Self::Name>>;

    /// A notice whose call isn't to begin, where those that wait hold too much: it is to be ended as a call that had no
    /// answer. `None`: they hold no more than they may.
    fn next_given_up(&mut self) -> Option<Notice<Self::Name>>;

    /// Takes what came of a call: the status of the answer, or `None` where there was none.
    ///
    /// # Errors
    /// Out of memory.
    fn end_call(&mut self, name: Self::Name, status: Option<u16>) -> Result<(), AllocError>;
}
