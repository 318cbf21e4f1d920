//! Worked examples of the private cluster: scenarios are played through its definitions, with a small decision in
//! place of the real one.
#![tactic(auto)]

mod rows;
mod stays;

pub use rows::{
    crashes, endings, joins, pieces, refusals, repeats, replicas_of_rings, requests, writes,
};
pub use stays::{crash_in_calm, crash_outside_calm, move_in_calm};
