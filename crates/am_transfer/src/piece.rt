//! Pieces of lists.

ghost use Rattle.std.specs.Prelude.{◌≡◌, IfOk};

use am_wire::Items;
use std::alloc::AllocError;
use std::marker::Model;

/// A piece of a list that is sent as a State. Its items are shared by all that hold it.
#[derive(Drop)]
pub struct Piece {
    place: usize,
    is_last: bool,
    items: Items,
}

impl Model for Piece {
    ghost use Rattle.am_transfer.specs.Pieces.{Piece};

    ghost Value = { Piece };

    ghost view = { λ piece. record { place = piece.place; is_last = piece.is_last; items = piece.items } };
}

impl Piece {
    // A piece of these items.
    pub(crate) fn new(place: usize, is_last: bool, items: Items) -> Piece
        ensures { result ≡ record { place = place; is_last = is_last; items = items } }
    {
        Piece {
            place,
            is_last,
            items,
        }
    }

    /// The place in the list at which it begins, from 0 on.
    pub fn place(&self) -> usize
        ensures { result ≡ self.now.place }
    {
        self.place
    }

    /// Whether it is the last of its list.
    pub fn is_last(&self) -> bool
        ensures { result ≡ self.now.is_last }
    {
        self.is_last
    }

    /// Its items.
    pub fn items(&self) -> &Items
        ensures { result.now ≡ self.now.items }
    {
        &self.items
    }

    /// The same piece once more. It takes no memory; an error says that its items are held as often as can be counted.
    pub fn share(&self) -> Result<Piece, AllocError>
        ensures { IfOk result (λ piece. piece ≡ self.now) }
    {
        Ok(Piece {
            place: self.place,
            is_last: self.is_last,
            items: self.items.share()?,
        })
    }
}
