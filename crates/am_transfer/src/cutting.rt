//! How what is held is cut into pieces.

ghost use Rattle.std.specs.Prelude.{◌≡◌, ◌+◌, ◌-◌, ◌^◌, ◌≤◌, ◌==◌, ◌&&◌, ◌||◌, nat_lt, nat_le, min};
ghost use Rattle.std.specs.Prelude.{IfOk, length};
ghost use Rattle.std.specs.List.{slice_range};
ghost use Rattle.am_transfer.specs.Pieces.{cut, most_bytes, most_items};

use crate::piece::Piece;
use am_item::Held;
use am_wire::Items;
use std::alloc::{AllocError, Global};

/// A piece has at most so many items.
pub const MOST_ITEMS: usize = 64;

/// The bytes of the items of a piece come to at most so many; but an item with more bytes is a piece by itself.
pub const MOST_BYTES: u64 = 65_536;

/// Cuts what is held into pieces, from its beginning on; of nothing it is one empty piece. Each piece is a part of what
/// is held now, whatever comes later: no item is copied or shared for it.
///
/// An error is out of memory.
pub fn cut(alloc: Global, held: &Held) -> Result<Vec<Piece>, AllocError>
    ensures { IfOk result (λ pieces. pieces.items ≡ cut held.now) }
{
    let mut pieces = Vec::new(alloc);
    let mut start = 0;
    let mut bytes = 0u64;
    let end = held.len();
    for place in 0..end {
        let size = held.spelled_at(place);
        if has_room(place - start, bytes, size) {
            bytes = bytes.saturating_add(size);
        } else {
            pieces.push(piece_of(held, start, place, false)?)?;
            start = place;
            bytes = size;
        }
    }
    pieces.push(piece_of(held, start, end, true)?)?;
    Ok(pieces)
}

// Whether a piece that holds so many items, which have so many bytes, takes one more of this size. A number of bytes
// that is too great to be counted is far past what a piece may have.
fn has_room(count: usize, bytes: u64, size: u64) -> bool
    ensures { result ≡ (count == 0 || (nat_lt count most_items
        && nat_le (min (bytes + size) (2 ^ 64 - 1)) most_bytes)) }
{
    count == 0 || (count < MOST_ITEMS && bytes.saturating_add(size) <= MOST_BYTES)
}

// A piece of what is held, from one place up to another.
fn piece_of(held: &Held, from: usize, to: usize, is_last: bool) -> Result<Piece, AllocError>
    requires order { from ≤ to }
    requires within { to ≤ length held.now }
    ensures { IfOk result (λ piece. piece
        ≡ record { place = from; is_last = is_last; items = slice_range held.now from to }) }
{
    let items = Items::from_part(held.snapshot()?, from, to);
    Ok(Piece::new(from, is_last, items))
}
