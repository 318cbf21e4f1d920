//! The program's command line: what its words ask for.
#![tactic(auto)]

mod bad_option;
mod command_line;

pub use command_line::{CommandLine, Running, Serving, options};
