//! What a server has open and holds.

use crate::parting::Partings;

/// What a server has open and holds at a moment, and whom it let go since it started.
#[derive(Clone, Copy)]
pub struct Load {
    /// How many clients' connections are open.
    pub open: usize,
    /// How many clients' connections came, those that the service didn't take too.
    pub came: u64,
    /// How many calls of webhooks are under way.
    pub calls: usize,
    /// How many bytes the replies hold whose last byte wasn't taken.
    pub reply_bytes: u64,
    /// How many bytes the requests of calls hold whose last byte wasn't sent.
    pub call_bytes: u64,
    /// How many connections were let go, by why.
    pub partings: Partings,
}

impl Load {
    /// Nothing is open or held, and nobody was let go.
    pub fn none() -> Load {
        Load {
            open: 0,
            came: 0,
            calls: 0,
            reply_bytes: 0,
            call_bytes: 0,
            partings: Partings::new(),
        }
    }
}
