//! `am_asking`: what those who run a service ask for on its admin port: the heads of their requests, and what they say.
#![tactic(auto)]

mod asking;
mod heads;

pub use asking::{Asked, Unasked, read};
pub use heads::Heads;
