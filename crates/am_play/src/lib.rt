//! Plays a scenario against a world, and tells how it ended.
#![tactic(auto)]

mod changing;
mod mailing;
pub mod play;
pub mod stops;
pub mod telling;

pub use am_world::{OpenRefusal, World};
