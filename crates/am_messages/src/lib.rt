//! The messages of all tenants that were sent and aren't lost, by their names.
#![tactic(auto)]

mod messages;
mod name;

pub use messages::{MESSAGE_LIFE, Messages};
pub use name::MessageName;
