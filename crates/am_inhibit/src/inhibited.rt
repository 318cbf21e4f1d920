//! What inhibits each of many alerts.

ghost use Rattle.std.specs.Prelude.{◌≡◌, ◌==◌, ◌||◌, ℕ, ◌<◌, [], false, All, IfOk, filter, get_or, length, map, not};
ghost use Rattle.std.specs.List.{range_with_len};
ghost use Rattle.std.specs.Rc.{rc_slice_items};
ghost use Rattle.am_inhibit.specs.Inhibits.{inhibitor_places, inhibitors};
ghost use Rattle.am_inhibit.specs.Links.{AreAllPlaces, ArePlaces, has_place, lists_of, places_in};

use std::alloc::{AllocError, Global};
use std::marker::Model;
use std::rc::RcSlice;

/// For each of some alerts, which of the firing ones inhibit it. A clause sees for each the places of those among the
/// firing ones, rising.
///
/// Alerts that the same ones inhibit by a rule share one list of them, so it takes a few bytes for each alert and rule,
/// however many inhibit it.
#[derive(Drop)]
pub struct Inhibited {
    // how many alerts fire
    firing: usize,
    // for each alert, the lists of those that inhibit it by a rule
    links: Vec<Vec<RcSlice<usize>>>,
}

impl Model for Inhibited {
    ghost use Rattle.std.specs.Prelude.{ℕ, List, map};
    ghost use Rattle.am_inhibit.specs.Links.{AreAllPlaces, lists_of, places_in};

    ghost Value = { List (List ℕ) };

    ghost view = { λ inhibited. map (places_in inhibited.firing) (lists_of inhibited.links.items) };

    ghost invariant = { λ inhibited. AreAllPlaces inhibited.firing (lists_of inhibited.links.items) };
}

impl Inhibited {
    /// Of each alert the lists of places that inhibit it, where so many alerts fire.
    pub(crate) fn new(firing: usize, links: Vec<Vec<RcSlice<usize>>>) -> Inhibited
        requires { AreAllPlaces firing (lists_of links.items) }
        ensures { result ≡ map (places_in firing) (lists_of links.items) }
    {
        Inhibited { firing, links }
    }

    /// How many alerts there are.
    pub fn len(&self) -> usize
        ensures { result ≡ length self.now }
    {
        self.links.len()
    }

    /// Whether the alert at this place is inhibited.
    pub fn is_inhibited(&self, place: usize) -> bool
        requires { place < length self.now }
        ensures { result ≡ not (length (get_or self.now place []) == 0) }
    {
        !self.links[place].is_empty()
    }

    /// The places of the firing alerts that inhibit the alert at this place, rising.
    ///
    /// Where more than one rule gives some, their lists are joined.
    pub fn places_of(&self, alloc: Global, place: usize) -> Result<Vec<usize>, AllocError>
        requires { place < length self.now }
        ensures { IfOk result (λ v. v.items ≡ get_or self.now place []) }
    {
        match self.links[place].as_slice() {
            [] => Ok(Vec::new(alloc)),
            [list] => Vec::from_slice(alloc, list.as_slice()),
            lists => joined(alloc, self.firing, lists),
        }
    }
}

// The places below a count that stand in the lists, each once, rising.
fn joined(alloc: Global, count: usize, lists: &[RcSlice<usize>]) -> Result<Vec<usize>, AllocError>
    requires { All (ArePlaces count) (map rc_slice_items lists.now) }
    ensures { IfOk result (λ v. v.items ≡ places_in count (map rc_slice_items lists.now)) }
{
    let mut flags = vec![in alloc; false; count]?;
    for list in lists {
        mark(list.as_slice(), &mut flags);
    }
    set_places(alloc, &flags)
}

// Sets the flags at these places.
fn mark(places: &[usize], flags: &mut Vec<bool>)
    requires { All (λ place. place < length flags.now.items) places.now }
    ensures each { length flags.new.items ≡ length flags.old.items }
    ensures flags { (k : ℕ) → k < length flags.old.items
        → get_or flags.new.items k false ≡ (get_or flags.old.items k false || has_place k places.now) }
{
    for place in places {
        flags[*place] = true;
    }
}

// The places whose flag is set, rising.
fn set_places(alloc: Global, flags: &[bool]) -> Result<Vec<usize>, AllocError>
    ensures { IfOk result (λ v.
        v.items ≡ filter (λ place. get_or flags.now place false) (range_with_len 0 (length flags.now))) }
{
    let mut places = Vec::new(alloc);
    for (place, flag) in flags.iter().enumerate() {
        if *flag {
            places.push(place)?;
        }
    }
    Ok(places)
}
