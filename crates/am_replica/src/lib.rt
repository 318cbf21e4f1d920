//! What an instance holds of all tenants, what it counts for them, and what of it goes to its store.
#![tactic(auto)]

mod accepting;
mod recording;
mod replica;
mod retiring;
mod storing;

pub use replica::Replica;
pub use storing::{commit, fault_of};
