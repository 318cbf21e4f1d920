//! Posted alerts: from the body of a post to items, and what is read off the items that are held.
#![tactic(auto)]

mod fields;
mod held;
mod made;
mod maker;
mod posted;
mod refusal;
mod written;

pub use held::{AlertBook, HeldAlert};
pub use made::{items_of_post, stamp_moment};
pub use maker::Maker;
pub use posted::read_posted;
pub use refusal::PostedRefusal;
