//! A store in memory, for tests alone: one of its calls may be made to fail.
#![tactic(auto)]

mod naming;
mod reading;
mod storing;
mod test_store;

pub use test_store::TestStore;
