//! The random words of a tenant, and the identifiers that are drawn from them.
//!
//! The words are the key stream of ChaCha20: its key is the SHA-256 of the service key and the tenant's name, its
//! stream number tells the instance and its incarnation. So two tenants, instances or incarnations have words of their
//! own. An identifier has 16 bytes and is written as RFC 9562 says of version 4.
#![tactic(auto)]

mod id;
mod places;
mod refusal;
mod words;

pub use id::{ID_LENGTH, print_id, read_id};
pub use places::{Place, Places};
pub use refusal::WordsRefusal;
pub use words::{MOST_DRAWS, Words};
