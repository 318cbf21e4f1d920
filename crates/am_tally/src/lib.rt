//! `am_tally`: what a service counts, and how Prometheus reads it: its text format, version 0.0.4.
#![tactic(auto)]

mod load;
mod metric;
mod metrics;
mod notices;
mod parting;
mod refusals;
mod tally;
mod tenants;

pub use load::Load;
pub use metric::{Metric, add, add_each};
pub use metrics::{add_counts, add_load};
pub use parting::{Parting, Partings};
pub use tally::Tally;
