//! Scenarios: what a line asks for, and the numbers that the program's user writes.
#![tactic(auto)]

mod command;
mod line;
mod numbers;

pub use command::{ClusterChange, Command, Request, SaidName, Way};
pub use line::{LineFault, read_command};
pub use numbers::number;
