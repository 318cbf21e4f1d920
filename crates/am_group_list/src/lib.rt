//! The alerts that a query shows in their groups, as the JSON body of a reply.
#![tactic(auto)]

mod group;
mod grouping;
mod listing;

pub use listing::list_groups;
