//! The items of all tenants, with a row for each that retires, in the order of their retirement.
#![tactic(auto)]

mod book;
pub mod laws;
mod row;

pub use book::Book;
