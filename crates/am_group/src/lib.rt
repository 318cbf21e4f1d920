//! The groups of alerts, and what the webhooks of a receiver are told of one.
#![tactic(auto)]

mod grouping;
mod notice;

pub use grouping::{groups_by, groups_of};
pub use notice::{Act, Notice, flush, recorded};
