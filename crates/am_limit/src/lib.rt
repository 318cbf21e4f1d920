//! What a tenant may have: its limits, and how many notices one instance may send it in a minute.
#![tactic(auto)]

mod allowance;
mod allowances;
mod book;
pub mod laws;
mod limits;

pub use allowance::Allowance;
pub use allowances::Allowances;
pub use book::LimitBook;
pub use limits::Limits;
