//! What an instance has of all tenants: what it holds, what it has planned for that, and what it counts.
#![tactic(auto)]

mod accepting;
mod delivery;
mod dispatch;
mod holding;
mod muted;
mod node;
mod parts;
mod report;
mod retiring;
mod ticking;

pub use dispatch::Dispatch;
pub use muted::Muted;
pub use node::Node;
pub use report::Report;
