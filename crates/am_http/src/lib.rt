//! The front: bytes of connections to verdicts, and replies to bytes.
//!
//! A connection carries one HTTP/1.x request (RFC 9112): a head of at most 16,384 bytes and 64 field lines,
//! and a body of at most 1,048,576 bytes. What [`Front::feed`] answers depends on the bytes of that connection
//! alone, and not on the pieces in which they came.
#![tactic(auto)]

mod connection;
mod fields;
mod front;
mod head;
pub mod laws;
mod paths;
mod refusal;
mod reply;
mod request;
mod scan;

pub use front::Front;
pub use refusal::FrontRefusal;
pub use reply::{ready_reply, refusal_body, reply_bytes};
pub use request::{ConnectionId, Endpoint, Fed, Method, Request};
