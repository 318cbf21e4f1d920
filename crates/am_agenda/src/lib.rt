//! What an instance has to do by itself, of all tenants: which groups of alerts it flushes when, and which attempts it
//! tries again when.
#![tactic(auto)]

mod agenda;
mod grouping;
mod naming;
mod paces;
mod refresh;
mod trying;

pub use agenda::Agenda;
