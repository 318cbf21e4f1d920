//! Inhibition: which firing alerts inhibit which alerts.
#![tactic(auto)]

mod classes;
mod different;
mod flags;
mod inhibited;
mod inhibiting;
mod key;
mod links;
mod rules;

pub use inhibited::Inhibited;
pub use inhibiting::{inhibitors, inhibitors_of_each, sets_at};
