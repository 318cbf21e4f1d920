//! Patterns in the syntax of the `regex` crate, asked whether they take a whole text.
//!
//! A pattern `p` takes a text where `^(?:p)$` matches it. Both `p` alone and that form must be read by the grammar, so
//! that a text such as `a)|(b` isn't a pattern, though the anchored form could be read. The anchored form alone is built.
#![tactic(auto)]

mod building;
mod cache;
mod hashing;
mod reading;
mod refusal;

pub use building::MAX_SIZE;
pub use cache::PatternCache;
pub use reading::{MAX_PATTERN, is_shallow_pattern};
pub use refusal::PatternRefusal;
