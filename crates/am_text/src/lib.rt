//! Texts, bytes, moments, durations, lists, trees and failures: the values that every other crate speaks of.
#![tactic(auto)]

mod duration;
mod failure;
pub mod laws;
mod listed;
mod moment;
mod octets;
mod printing;
mod reading;
mod refusal;
mod text;
mod tree;

pub use duration::read_duration;
pub use failure::{Failure, map_refusal, refuse_as};
pub use listed::Listed;
pub use moment::Moment;
pub use octets::Octets;
pub use printing::print_moment;
pub use reading::read_moment;
pub use refusal::TextRefusal;
pub use text::Text;
pub use tree::{Node, count_within};
