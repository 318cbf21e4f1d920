//! What is sent again.

use crate::piece::Piece;
use am_text::Listed;

/// What is sent again to an instance, where it is due.
#[derive(Drop)]
pub enum Again {
    /// A State that is pushed to it: these pieces, to this incarnation.
    State(u32, Listed<Piece>),
    /// An Ask.
    Ask,
    /// Nothing: what was due is over.
    Nothing,
}
