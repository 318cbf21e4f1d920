//! A part of what is held.

ghost use Rattle.std.specs.Prelude.{◌≡◌, ◌≤◌, IfOk, length, sum_by};
ghost use Rattle.std.specs.List.{slice_range};
ghost use Rattle.am_length.specs.Capped.{capped};
ghost use Rattle.am_item.specs.Lengths.{spelled_length};

use am_item::{Held, SharedItem};
use std::alloc::{AllocError, Global};
use std::marker::Model;

/// The items that are held from one place up to another, in the order of keys. They cost nothing each until they are
/// listed.
#[derive(Drop)]
pub(crate) struct HeldPart {
    held: Held,
    from: usize,
    to: usize,
}

impl Model for HeldPart {
    ghost use Rattle.std.specs.Prelude.{List, ◌≤◌, length};
    ghost use Rattle.std.specs.List.{slice_range};
    ghost use Rattle.am_item.specs.declared.item.Item.{Item};

    ghost Value = { List Item };

    ghost view = { λ part. slice_range part.held part.from part.to };

    ghost invariant = { λ part. (part.from ≤ part.to) × (part.to ≤ length part.held) };
}

impl HeldPart {
    /// The items from one place up to another.
    pub(crate) fn new(held: Held, from: usize, to: usize) -> HeldPart
        requires order { from ≤ to }
        requires within { to ≤ length held }
        ensures { result ≡ slice_range held from to }
    {
        HeldPart { held, from, to }
    }

    /// The same items, held once more.
    pub(crate) fn share(&self) -> Result<HeldPart, AllocError>
        ensures { IfOk result (λ part. part ≡ self.now) }
    {
        let held = self.held.snapshot()?;
        let (from, to) = (self.from, self.to);
        Ok(HeldPart { held, from, to })
    }

    /// The items one by one.
    pub(crate) fn list(&self, alloc: Global) -> Result<Vec<SharedItem>, AllocError>
        ensures { IfOk result (λ list. list.items ≡ self.now) }
    {
        self.held.part(alloc, self.from, self.to)
    }

    /// How many bytes spell the items. It reads nothing of the items themselves.
    pub(crate) fn spelled_len(&self) -> u64
        ensures { result ≡ capped (sum_by spelled_length self.now) }
    {
        let mut total = 0u64;
        for place in self.from..self.to {
            total = total.saturating_add(self.held.spelled_at(place));
        }
        total
    }
}
