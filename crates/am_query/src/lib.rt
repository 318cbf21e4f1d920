//! What the query of a request asks of the alerts or of the silences.
#![tactic(auto)]

mod query;
mod refusal;

pub use query::{Query, read_filters, read_group_query, read_query};
pub use refusal::QueryRefusal;
