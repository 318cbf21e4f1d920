//! What an instance's store keeps of all tenants: their rows, by which a stopped instance begins again.
#![tactic(auto)]

mod laws;
mod refusal;
mod rows;

pub use laws::rows_follow;
pub use refusal::StoreRefusal;
pub use rows::Rows;
