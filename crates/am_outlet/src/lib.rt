//! Delivery of notices to webhooks: the attempts of all tenants on one instance, with their tries, the requests that
//! tell a webhook, and what its answer says.
#![tactic(auto)]

mod attempt;
mod attempts;
mod desk;
mod outcome;
mod request;
mod status;

pub use attempt::{Attempt, Notice, Sending};
pub use attempts::Attempts;
pub use outcome::Outcome;
pub use request::request_bytes;
pub use status::read_status;
