//! What comes into a cluster, what goes out of it, and why an event is refused.
#![tactic(auto)]

mod event;
mod output;
mod refused;

pub use event::{Event, LAST_MOMENT};
pub use output::{AttemptName, Output};
pub use refused::Refused;
