//! The places of values.

ghost use Rattle.std.specs.Prelude.{◌≡◌, IfOk, OnOk, length, map};
ghost use Rattle.am_column.specs.Places.{AreLists, IsNoted, found_at};

use std::alloc::{AllocError, Global};
use std::collections::BTreeMap;

/// By values, the places at which they stand, in their order.
pub type Places<'a> = BTreeMap<&'a str, Vec<usize>>;

/// The places of each of the values, which stand at these places.
pub fn places_by<'a>(
    alloc: Global,
    places: &[usize],
    values: &[&'a str],
) -> Result<Places<'a>, AllocError>
    requires { length values.now ≡ length places.now }
    ensures { IfOk result (λ p. AreLists places.now (map (λ value. value.now) values.now) p) }
{
    let mut lists = BTreeMap::new(alloc);
    for (number, place) in places.iter().enumerate() {
        note(alloc, *place, values[number], &mut lists)?;
    }
    Ok(lists)
}

// Notes a place of the value.
fn note<'a>(
    alloc: Global,
    place: usize,
    value: &'a str,
    places: &mut Places<'a>,
) -> Result<(), AllocError>
    ensures { OnOk result (IsNoted place value.now places.old places.new) }
{
    if let Some(found) = places.get_mut(value) {
        found.push(place)?;
        return Ok(());
    }
    places.insert(value, vec![in alloc; place; 1]?)?;
    Ok(())
}

/// The places of this value.
pub fn found_at<'p>(places: &'p Places<'_>, value: &str) -> &'p [usize]
    ensures { result.now ≡ found_at places.now value.now }
{
    match places.get(value) {
        Some(found) => found.as_slice(),
        None => &[],
    }
}
