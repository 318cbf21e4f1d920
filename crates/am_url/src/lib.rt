//! URLs of webhooks: `http://`, a host, perhaps a port, and a path.
#![tactic(auto)]

mod authority;
mod url;

pub use url::WebhookUrl;
