//! The ring: which instances serve, and which three of them are a tenant's replicas.
//!
//! Instances are numbered 1 to 8, and a ring holds 3 to 8 of them. Each has 16 tokens on the circle of the
//! numbers below 2^32, and a tenant has a place on it, the hash of its name. The three instances whose tokens
//! come first behind the place are the tenant's replicas. Nothing here takes memory.
#![tactic(auto)]

mod distance;
mod instance;
mod nearest;
mod refusal;
mod ring;

pub use instance::Instance;
pub use refusal::RingRefusal;
pub use ring::Ring;
