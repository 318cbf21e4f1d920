//! What becomes of a configuration that would be posted: it is accepted, or refused with a code, at a place of it.
//!
//! A place is a path in the configuration's text, as `route.routes[2].matchers[0]`, or in the document around it, as
//! `alertmanager_config`.
#![tactic(auto)]

mod cause;
mod facts;
mod faults;
mod judging;
mod kind;
mod place;
mod reason;
mod remedy;
mod search;

pub use judging::{Refusal, Verdict, judge};
pub use reason::Reason;
