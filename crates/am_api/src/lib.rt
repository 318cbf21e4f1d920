//! The decision on a request: what is stored, and the reply.
#![tactic(auto)]

mod configuration;
mod decision;
pub mod laws;
mod listing;
mod posting;
mod silences;
mod silencing;

pub use decision::{Decided, decide};
