//! How many bytes spell texts, labels and matchers in a message between instances, told without making them. A number
//! past 64 bits is the greatest one of 64 bits.
#![tactic(auto)]

mod labels;
mod matchers;
mod spelled;

pub use labels::{label_sets_len, labels_len};
pub use matchers::matchers_len;
pub use spelled::{Spelled, text_len};
