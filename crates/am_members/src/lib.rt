//! The groups of the alerts of all tenants, kept so that a group's members and its least moment are found at once.
#![tactic(auto)]

mod change;
mod group;
mod groups;
mod index;
mod known;
pub mod laws;
mod members;

pub use group::{Group, copy_groups};
pub use groups::Groups;
pub use known::Known;
pub use members::Members;
