//! Configurations: the text that a tenant posts, judged and read in full.
//!
//! A configuration is refused by the first number of `C1` to `C9` whose check fails over the whole text. What is read
//! holds every default and every inherited value; a route's number is its place in the list of routes.
#![tactic(auto)]

mod checks;
mod completing;
mod config;
mod default;
mod inheriting;
pub mod laws;
mod matching;
mod named;
mod parts;
mod reading;
mod refusal;
mod terms;

pub use config::Config;
pub use parts::{Receiver, Route, Rule, Settings, Webhook};
pub use refusal::ConfigRefusal;
