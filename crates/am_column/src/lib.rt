//! Columns of values: where equal ones stand, and flags at places.
#![tactic(auto)]

mod alike;
mod flags;
mod places;

pub use alike::{alike_by, firsts_of, left_by};
pub use flags::{clear, flags_at, has_set, keep, meet};
pub use places::{Places, found_at, places_by};
