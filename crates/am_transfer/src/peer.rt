//! Instances in their incarnations.

use am_ring::Instance;

/// An instance in one of its incarnations. What it sent or got in another one isn't meant. Peers are ordered by
/// instance, then incarnation.
#[derive(Clone, Copy, PartialEq, Eq, PartialOrd, Ord)]
pub struct Peer {
    /// The instance.
    pub instance: Instance,
    /// The incarnation.
    pub incarnation: u32,
}
