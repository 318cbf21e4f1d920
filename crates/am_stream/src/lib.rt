//! What a scenario is read from, what it is written to, and what its bytes and notices go over.
#![tactic(auto)]

mod lines;
mod link;
mod loopback;
mod streams;
mod writing;

pub use lines::LineReader;
pub use link::Link;
pub use loopback::Loopback;
pub use streams::{Sink, Source, StreamFailure};
pub use writing::WholeWriter;
