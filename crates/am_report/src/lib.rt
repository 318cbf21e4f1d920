//! What a scenario has beside its world: connections by their names, the messages that wait, what a line's words stand
//! for, the lines of what went out, and how it ends.
#![tactic(auto)]

mod connections;
pub mod ending;
mod mail;
mod report;
mod said;

pub use connections::Connections;
pub use mail::{Letter, Mail};
pub use report::{Report, Try, is_answered};
pub use said::{event_of, instance_of, name_said};
