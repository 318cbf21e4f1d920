//! What mutes alerts: the active silences that take them, and the firing alerts that inhibit them.
#![tactic(auto)]

mod mutes;
mod muting;

pub use mutes::Mutes;
pub use muting::{label_sets, muted_sets, mutes_of, mutes_of_firing};
