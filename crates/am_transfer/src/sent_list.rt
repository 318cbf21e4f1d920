//! Lists that are sent as States.

ghost use Rattle.std.specs.Prelude.{◌≡◌, IfOk};
ghost use Rattle.am_transfer.specs.Pieces.{first_sent, named_at, pieces_from, pieces_to_send};

use crate::cutting::cut;
use crate::piece::Piece;
use am_item::Held;
use std::alloc::{AllocError, Global};
use std::marker::Model;

/// The list of a State, cut once: what was held when it was first sent to an incarnation of its receiver in an epoch;
/// the greatest place of it that a Got named; and whether one named its end.
#[derive(Drop)]
pub struct SentList {
    pieces: Vec<Piece>,
    end: usize,
    reached: usize,
    is_ended: bool,
}

impl Model for SentList {
    ghost use Rattle.std.specs.Prelude.{◌≡◌, length};
    ghost use Rattle.am_transfer.specs.Pieces.{SentList, cut, items_in};

    ghost Value = { SentList };

    ghost view = { λ list. record {
      items = items_in list.pieces.items;
      reached = list.reached;
      is_ended = list.is_ended;
    } };

    ghost invariant = { λ list. (list.pieces.items ≡ cut (items_in list.pieces.items)) × (list.end
        ≡ length (items_in list.pieces.items)) };
}

impl SentList {
    /// The list of what is held, as it is first sent.
    ///
    /// An error is out of memory.
    pub fn new(alloc: Global, held: &Held) -> Result<SentList, AllocError>
        ensures { IfOk result (λ list. list ≡ first_sent held.now) }
    {
        Ok(SentList {
            pieces: cut(alloc, held)?,
            end: held.len(),
            reached: 0,
            is_ended: false,
        })
    }

    /// Whether a Got named its end.
    pub fn is_ended(&self) -> bool
        ensures { result ≡ self.now.is_ended }
    {
        self.is_ended
    }

    /// A Got named a place of it.
    pub fn name(&mut self, place: usize)
        ensures { self.new ≡ named_at place self.old }
    {
        self.reached = self.reached.max(place);
        self.is_ended = self.is_ended || place == self.end;
    }

    /// What goes out: the pieces from the greatest place that a Got named; to one who asks after the end was named,
    /// all.
    ///
    /// An error is out of memory.
    pub fn to_send(&self, alloc: Global, is_asked: bool) -> Result<Vec<Piece>, AllocError>
        ensures { IfOk result (λ pieces. pieces.items ≡ pieces_to_send is_asked self.now) }
    {
        let from = if is_asked && self.is_ended {
            0
        } else {
            self.reached
        };
        pieces_from(alloc, from, &self.pieces)
    }
}

// The pieces from a place on.
fn pieces_from(alloc: Global, place: usize, pieces: &[Piece]) -> Result<Vec<Piece>, AllocError>
    ensures { IfOk result (λ left. left.items ≡ pieces_from place pieces.now) }
{
    let mut left = Vec::new(alloc);
    for piece in pieces {
        if place <= piece.place() {
            left.push(piece.share()?)?;
        }
    }
    Ok(left)
}
