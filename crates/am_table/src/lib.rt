//! Matchers that are asked of many label sets.
#![tactic(auto)]

mod asking;
mod column;
mod holders;
mod questions;
mod table;

pub use asking::taken_by_all;
pub use table::taken_by_each;
