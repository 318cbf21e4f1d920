//! The incarnation that a start may take: one above all that the rows of its stores have.
#![tactic(auto)]

mod incarnations;

pub use incarnations::greatest_incarnation;
