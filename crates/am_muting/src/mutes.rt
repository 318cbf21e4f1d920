ghost use Rattle.std.specs.Prelude.{◌≡◌, ◌<◌, IfOk, drop, get_or, length, map};
ghost use Rattle.am_muting.specs.Mutes.{AreEach, mutings};
ghost use Rattle.am_muting.specs.Muting.{is_inhibited, is_muted, is_silenced, nothing};

use am_inhibit::{Inhibited, sets_at};
use am_item::SilenceId;
use am_labels::LabelSet;
use am_silence::Silenced;
use std::alloc::{AllocError, Global};
use std::marker::Model;

/// What mutes each of some alerts, by its place among them.
#[derive(Drop)]
pub struct Mutes<'a> {
    // the label sets of the alerts that fire
    firing: Vec<&'a LabelSet>,
    // the silences of each
    silences: Silenced,
    // which of the firing ones inhibit each, behind those of so many others
    inhibited: Inhibited,
    first: usize,
}

impl<'a> Model for Mutes<'a> {
    ghost use Rattle.std.specs.Prelude.{List, drop, length, map};
    ghost use Rattle.am_muting.specs.Mutes.{AreEach, mutings};
    ghost use Rattle.am_muting.specs.Muting.{Muting};

    ghost Value = { List Muting };

    ghost view = { λ m. mutings (map (λ set. set.now) m.firing.items) m.silences (drop m.first m.inhibited) };

    ghost invariant = { λ m. AreEach (length m.firing.items) m.first m.silences m.inhibited };
}

impl<'a> Mutes<'a> {
    // The silences of each, and the places of the firing ones that inhibit each, behind those of so many others.
    pub(crate) fn new(
        firing: Vec<&'a LabelSet>,
        silences: Silenced,
        inhibited: Inhibited,
        first: usize,
    ) -> Mutes<'a>
        requires { AreEach (length firing.items) first silences inhibited }
        ensures { result ≡ mutings (map (λ set. set.now) firing.entry.items) silences (drop first inhibited) }
    {
        Mutes {
            firing,
            silences,
            inhibited,
            first,
        }
    }

    /// Whether a silence silences the alert at this place.
    pub fn is_silenced(&self, place: usize) -> bool
        requires { place < length self.now }
        ensures { result ≡ is_silenced (get_or self.now place nothing) }
    {
        self.silences.is_silenced(place)
    }

    /// Whether an alert inhibits the one at this place.
    pub fn is_inhibited(&self, place: usize) -> bool
        requires { place < length self.now }
        ensures { result ≡ is_inhibited (get_or self.now place nothing) }
    {
        // each place among them is a number, so the sum is one
        let _all = self.inhibited.len();
        self.inhibited.is_inhibited(self.first + place)
    }

    /// Whether anything mutes the alert at this place.
    pub fn is_muted(&self, place: usize) -> bool
        requires { place < length self.now }
        ensures { result ≡ is_muted (get_or self.now place nothing) }
    {
        self.is_silenced(place) || self.is_inhibited(place)
    }

    /// The silences that silence the alert at this place, in the order of identifiers.
    pub fn silenced_by(&self, alloc: Global, place: usize) -> Result<Vec<SilenceId>, AllocError>
        requires { place < length self.now }
        ensures { IfOk result (λ v. v.items ≡ (get_or self.now place nothing).silenced_by) }
    {
        self.silences.ids_of(alloc, place)
    }

    /// The label sets of the alerts that inhibit the one at this place, in their order.
    pub fn inhibited_by(&self, alloc: Global, place: usize) -> Result<Vec<&'a LabelSet>, AllocError>
        requires { place < length self.now }
        ensures { IfOk result (λ v. map (λ set. set.now) v.items ≡ (get_or self.now place nothing).inhibited_by) }
    {
        let _all = self.inhibited.len();
        let places = self.inhibited.places_of(alloc, self.first + place)?;
        sets_at(alloc, &self.firing, &places)
    }
}
