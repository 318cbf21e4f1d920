//! The pieces of a State that came.

ghost use Rattle.std.specs.Prelude.{◌≡◌, [], OnErr, OnOk};
ghost use Rattle.am_transfer.specs.Peers.{with_number};
ghost use Rattle.am_transfer.specs.Pieces.{begins_behind, reach_of, reach_with};

use std::alloc::{AllocError, Global};
use std::collections::BTreeMap;
use std::marker::Model;

/// Of a piece that came: how many items it held, and whether it was the last of its list.
#[derive(Clone, Copy)]
pub struct Span {
    /// How many items it held.
    pub count: u32,
    /// Whether it was the last.
    pub is_last: bool,
}

/// How far the pieces of a State came without a gap.
#[derive(Clone, Copy)]
pub struct Reach {
    /// The place behind them.
    pub place: u64,
    /// Whether the last piece is among them.
    pub is_complete: bool,
}

/// The pieces that came of one State, by the places at which they begin.
#[derive(Drop)]
pub struct Spans {
    by_place: BTreeMap<u32, Span>,
    reach: Reach,
}

impl Model for Spans {
    ghost use Rattle.std.specs.Prelude.{◌≡◌, ℕ, List};
    ghost use Rattle.am_transfer.specs.declared.spans.Span.{Span};
    ghost use Rattle.am_transfer.specs.Pieces.{begins_behind, reach_of, reach_with};

    ghost Value = { List (ℕ × Span) };

    ghost view = { λ spans. spans.by_place.entries };

    ghost invariant = { λ spans. spans.reach ≡ reach_of spans.by_place.entries };
}

impl Spans {
    /// Nothing came.
    #[tactic(auto, unfolding(crate::specs::Pieces::reach_of))]
    pub fn new(alloc: Global) -> Spans
        ensures { result ≡ [] }
    {
        Spans {
            by_place: BTreeMap::new(alloc),
            reach: Reach {
                place: 0,
                is_complete: false,
            },
        }
    }

    /// How far they came without a gap.
    pub fn reach(&self) -> Reach
        ensures { result ≡ reach_of self.now }
    {
        self.reach
    }

    /// One more came, in the place of any that began there.
    ///
    /// # Errors
    /// Out of memory. Nothing changes.
    pub fn put(&mut self, place: u32, span: Span) -> Result<(), AllocError>
        ensures put { OnOk result (self.new ≡ with_number place span self.old) }
        ensures err { OnErr result (self.new ≡ self.old) }
    {
        if !begins_behind(&self.by_place, place) {
            self.by_place.insert(place, span)?;
            self.reach = reach_of(&self.by_place);
            return Ok(());
        }
        // Pieces mostly come in their order, and then nothing is gone through again.
        self.by_place.insert(place, span)?;
        self.reach = reach_with(self.reach, place, span);
        Ok(())
    }
}

// Whether a piece begins behind all that came.
fn begins_behind(spans: &BTreeMap<u32, Span>, place: u32) -> bool
    ensures { result ≡ begins_behind place spans.now.entries }
{
    match spans.last_key_value() {
        Some((last, _)) => *last < place,
        None => true,
    }
}

// How far pieces came without a gap.
#[tactic(auto, unfolding(crate::specs::Pieces::reach_of))]
fn reach_of(spans: &BTreeMap<u32, Span>) -> Reach
    ensures { result ≡ reach_of spans.now.entries }
{
    let mut reach = Reach {
        place: 0,
        is_complete: false,
    };
    for (place, span) in spans {
        reach = reach_with(reach, *place, *span);
    }
    reach
}

// .. with one more, where it begins just there.
fn reach_with(reach: Reach, place: u32, span: Span) -> Reach
    ensures { result ≡ reach_with reach (place, span) }
{
    if u64::from(place) == reach.place && !reach.is_complete {
        Reach {
            place: u64::from(place) + u64::from(span.count),
            is_complete: span.is_last,
        }
    } else {
        reach
    }
}
