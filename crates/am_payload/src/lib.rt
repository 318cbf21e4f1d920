//! The JSON of replies (RFC 8259): alerts, groups, silences, receivers, configurations; and of the notices to webhooks. Keys
//! stand in order of name, and there are no spaces. A text is written straight into one buffer. Each call fails only where memory runs out.
#![tactic(auto)]

mod alerts;
mod common;
mod configuration;
mod groups;
mod key;
mod members;
mod receivers;
mod silences;
mod webhook;

pub use alerts::{ReadAlert, alerts_json};
pub use configuration::document_json;
pub use groups::{ReadGroup, groups_json};
pub use key::group_key;
pub use receivers::receivers_json;
pub use silences::{posted_json, silence_json, silences_json};
pub use webhook::{ToldAlert, WebhookBody, webhook_json};
