//! The open operations of all tenants at an instance: each waits for two replicas to answer, and, once it is decided,
//! for two to acknowledge.
#![tactic(auto)]

mod deadline;
mod docket;
pub mod laws;
mod operation;
mod ops;

pub use operation::{Answered, DEADLINE, Decide, Operation, Ready, Stage, Target};
pub use ops::Ops;
