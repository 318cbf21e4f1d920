//! The timers of all tenants on one instance: one queue, in the order in which a tick handles them.
#![tactic(auto)]

mod key;
pub mod laws;
mod queue;
mod timer;

pub use key::{FlushKey, TimerKey};
pub use queue::TimerQueue;
pub use timer::{Timer, TimerName};
