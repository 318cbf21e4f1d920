//! The store of an instance: the configurations and silences of its tenants, kept in a database.
#![tactic(auto)]

mod commit;
mod config;
mod either;
mod fit;
mod laws;
mod made;
mod numbers;
mod opening;
mod query;
mod reading;
mod refusal;
mod rows;
mod schema;
mod shelf;
mod silence;
mod stamps;
mod store;
mod tenants;

pub use either::EitherShelf;
pub use laws::{memory_never_fails, memory_stays_clean, rows_are_the_best};
pub use made::AnyShelf;
pub use shelf::Shelf;
pub use store::Store;
