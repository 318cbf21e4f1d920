//! What silences take each of many label sets.

ghost use Rattle.std.specs.Prelude.{◌≡◌, ◌==◌, ◌<◌, ℕ, [], All, IfOk, get_or, length, map, not};
ghost use Rattle.std.specs.List.{range_with_len};
ghost use Rattle.am_silence.specs.Rows.{AreRows, ids_at};

use am_item::SilenceId;
use std::alloc::{AllocError, Global};
use std::marker::Model;

/// For each of some label sets, the silences that take it. A clause sees for each their identifiers, in order.
///
/// It takes a byte for each silence and label set, however many silences take one.
#[derive(Drop)]
pub struct Silenced {
    // how many label sets there are
    count: usize,
    // the silences
    ids: Vec<SilenceId>,
    // of each silence, which of the label sets it takes
    rows: Vec<Vec<bool>>,
}

impl Model for Silenced {
    ghost use Rattle.std.specs.Prelude.{◌≡◌, ℕ, List, length, map};
    ghost use Rattle.std.specs.List.{range_with_len};
    ghost use Rattle.am_silence.specs.Rows.{AreRows, ids_at};

    ghost Value = { List (List (List ℕ)) };

    ghost view = { λ s. map (ids_at s.ids.items (map (λ row. row.items) s.rows.items)) (range_with_len 0 s.count) };

    ghost invariant = { λ s. AreRows s.count s.ids.items (map (λ row. row.items) s.rows.items) };
}

impl Silenced {
    // Of each of the silences the flags of those label sets that it takes.
    pub(crate) fn new(count: usize, ids: Vec<SilenceId>, rows: Vec<Vec<bool>>) -> Silenced
        requires { AreRows count ids.items (map (λ row. row.items) rows.items) }
        ensures { result ≡ map (ids_at ids.items (map (λ row. row.items) rows.items)) (range_with_len 0 count) }
    {
        Silenced { count, ids, rows }
    }

    /// Whether a silence takes the label set at this place.
    pub fn is_silenced(&self, place: usize) -> bool
        requires { place < length self.now }
        ensures { result ≡ not (length (get_or self.now place []) == 0) }
    {
        is_flagged(&self.ids, &self.rows, place)
    }

    /// The silences that take the label set at this place, in order.
    pub fn ids_of(&self, alloc: Global, place: usize) -> Result<Vec<SilenceId>, AllocError>
        requires { place < length self.now }
        ensures { IfOk result (λ v. v.items ≡ get_or self.now place []) }
    {
        flagged(alloc, &self.ids, &self.rows, place)
    }
}

// Whether a row has its flag at this place set.
fn is_flagged(ids: &[SilenceId], rows: &[Vec<bool>], place: usize) -> bool
    requires each { length rows.now ≡ length ids.now }
    requires within { All (λ row. place < length row.items) rows.now }
    ensures { result ≡ not (length (ids_at ids.now (map (λ row. row.items) rows.now) place) == 0) }
{
    for row in rows {
        if row[place] {
            return true;
        }
    }
    false
}

// The identifiers of the rows whose flag at this place is set.
fn flagged(
    alloc: Global,
    ids: &[SilenceId],
    rows: &[Vec<bool>],
    place: usize,
) -> Result<Vec<SilenceId>, AllocError>
    requires each { length rows.now ≡ length ids.now }
    requires within { All (λ row. place < length row.items) rows.now }
    ensures { IfOk result (λ v. v.items ≡ ids_at ids.now (map (λ row. row.items) rows.now) place) }
{
    let mut found = Vec::new(alloc);
    for (number, row) in rows.iter().enumerate() {
        if row[place] {
            found.push(ids[number])?;
        }
    }
    Ok(found)
}
