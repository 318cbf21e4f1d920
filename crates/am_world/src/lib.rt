//! Eight instances, the messages between them, and the theorem: every tenant as if alone.
#![tactic(auto)]

mod any_world;
mod changing;
mod common;
mod handling;
mod instances;
mod opening;
mod posting;
mod ring_calls;
mod ring_turns;
mod standing;
mod state;
pub mod theorem;
mod turning;
pub mod world;

pub use am_event::{AttemptName, Event, LAST_MOMENT, Output, Refused};
pub use am_instance::Standing;
pub use am_item::Fault;
pub use any_world::AnyWorld;
pub use opening::OpenRefusal;
pub use world::World;
