//! The alerts that a query shows, with their routes, their receivers and what mutes them, and their list as the JSON body of
//! a reply.
#![tactic(auto)]

pub mod laws;
mod listing;
mod muting;
mod receivers;
mod refusal;

pub use listing::{list_alerts, passed_alerts};
pub use muting::MutedAlert;
pub use receivers::{RoutedAlert, is_asked, read_alerts};
pub use refusal::Unanswered;
