//! A configuration as it is written: its document and its text are read, and nothing that they say is judged yet.
#![tactic(auto)]

mod draft;
mod keys;
pub mod laws;
mod names;
mod receiver;
mod refusal;
mod route;
mod routes;
mod rule;

pub use draft::{Draft, GlobalDraft};
pub use receiver::{ReceiverDraft, WebhookDraft};
pub use refusal::DraftRefusal;
pub use route::{Grouping, Intervals, RouteDraft};
pub use rule::RuleDraft;
