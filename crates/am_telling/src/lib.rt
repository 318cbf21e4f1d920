//! What the webhooks of a receiver are told at the flush of a group: notices that can go out, with the bytes of their bodies.
#![tactic(auto)]

mod telling;

pub use telling::{Telling, tell, webhook_keys};
