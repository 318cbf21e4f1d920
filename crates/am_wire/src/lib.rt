//! The bytes of messages between instances.
#![tactic(auto)]

mod decoding;
mod encoding;
mod held_part;
mod items;
mod kinds;
pub mod laws;
mod lengths;
mod message;
mod read_items;
mod read_labels;
mod reader;
mod refusal;
mod write_fields;
mod write_items;
mod write_labels;

pub use decoding::decode;
pub use encoding::encode;
pub use items::Items;
pub use kinds::body_number;
pub use lengths::spelled_len;
pub use message::{Body, Message};
pub use refusal::{EncodeRefusal, WireRefusal};
