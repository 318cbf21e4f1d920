//! What the rooms of an instance are told and tell each other.
#![tactic(auto)]

mod came;
mod context;
mod receipt;
mod start;

pub use came::Came;
pub use context::Context;
pub use receipt::Receipt;
pub use start::Start;
