//! Values that are equal, and flags of one that stands for all that are.

ghost use Rattle.std.specs.Prelude.{◌≡◌, ◌<◌, ◌&&◌, ℕ, All, IfOk, get_or, length, map};
ghost use Rattle.std.specs.Prelude.{true, false};
ghost use Rattle.am_column.specs.Alike.{AreAlike};

use std::alloc::{AllocError, Global};
use std::collections::BTreeMap;

/// For each of the values the place of the first that is equal.
pub fn alike_by(alloc: Global, values: &[&str]) -> Result<Vec<usize>, AllocError>
    ensures { IfOk result (λ v. AreAlike (map (λ value. value.now) values.now) v.items) }
{
    let mut firsts = BTreeMap::new(alloc);
    let mut places = Vec::new(alloc);
    for (place, value) in values.iter().enumerate() {
        let value: &str = value;
        let first = firsts.get(value).copied();
        if first.is_none() {
            firsts.insert(value, place)?;
        }
        places.push(first.unwrap_or(place))?;
    }
    Ok(places)
}

/// Flags of the places that stand for one whose flag is set.
pub fn firsts_of(alloc: Global, alike: &[usize], taken: &[bool]) -> Result<Vec<bool>, AllocError>
    requires each { length alike.now ≡ length taken.now }
    requires within { All (λ place. place < length taken.now) alike.now }
    ensures each { IfOk result (λ v. length v.items ≡ length taken.now) }
    ensures firsts { IfOk result (λ v. (k : ℕ) → k < length taken.now → get_or taken.now k false ≡ true
        → get_or v.items (get_or alike.now k 0) false ≡ true) }
{
    let mut firsts = vec![in alloc; false; taken.len()]?;
    for (place, first) in alike.iter().enumerate() {
        if taken[place] {
            firsts[*first] = true;
        }
    }
    Ok(firsts)
}

/// The flags that are set, and are so at the place that stands for theirs.
pub fn left_by(
    alloc: Global,
    alike: &[usize],
    taken: &[bool],
    firsts: &[bool],
) -> Result<Vec<bool>, AllocError>
    requires each { length alike.now ≡ length taken.now }
    requires within { All (λ place. place < length firsts.now) alike.now }
    ensures each { IfOk result (λ v. length v.items ≡ length taken.now) }
    ensures left { IfOk result (λ v. (k : ℕ) → k < length taken.now → get_or v.items k false
        ≡ (get_or taken.now k false && get_or firsts.now (get_or alike.now k 0) false)) }
{
    let mut left = Vec::with_capacity(alloc, taken.len())?;
    for (place, first) in alike.iter().enumerate() {
        left.push(taken[place] && firsts[*first])?;
    }
    Ok(left)
}
