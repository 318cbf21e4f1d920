//! What a service tells of itself as it runs, line by line.
#![tactic(auto)]

mod entry;
mod form;
mod incidents;
pub mod laws;
mod object;
mod plain;
mod releases;
mod throttle;
mod writing;

pub use entry::{Change, Entry, LetGo, ToldFailure, WebhookFailure};
pub use form::Form;
pub use incidents::Incidents;
pub use releases::Releases;
pub use throttle::Throttle;
pub use writing::Log;
