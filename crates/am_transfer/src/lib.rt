//! Settling: how an instance comes to hold what a tenant's other replicas hold, for all tenants.
#![tactic(auto)]

mod again;
mod cutting;
mod peer;
mod piece;
mod progress;
mod refresh;
mod sent_list;
mod settling;
mod spans;
mod tenants;

pub use again::Again;
pub use cutting::{MOST_BYTES, MOST_ITEMS};
pub use peer::Peer;
pub use piece::Piece;
pub use progress::{AGAIN_AFTER, Push};
pub use settling::Settling;
pub use spans::{Reach, Span};
