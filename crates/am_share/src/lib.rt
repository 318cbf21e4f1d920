//! Parts of an instance that hold things of all tenants: a call for one tenant leaves what they hold of the others.
#![tactic(auto)]

mod refusal;
mod shared;

pub use refusal::ShareRefusal;
pub use shared::Shared;
