//! Flags at places.

ghost use Rattle.std.specs.Prelude.{◌≡◌, ◌<◌, ◌+◌, ◌∷◌, ◌&&◌, ℕ, All, IfOk, OnOk, true, false, get_or, length, map};
ghost use Rattle.std.specs.Prelude.{replicate};
ghost use Rattle.std.specs.List.{list_any};
ghost use Rattle.am_column.specs.Flags.{cleared, differing, is_met_at, kept};

use std::alloc::{AllocError, Global};

/// Whether a flag is set.
pub fn has_set(flags: &[bool]) -> bool
    ensures { result ≡ list_any (λ flag. flag) flags.now }
{
    flags.iter().any(|flag| *flag)
}

/// Takes away the flags at these places.
pub fn clear(places: &[usize], flags: &mut Vec<bool>)
    requires { All (λ place. place < length flags.now.items) places.now }
    ensures { flags.new.items ≡ cleared places.now flags.old.items }
{
    for place in places {
        flags[*place] = false;
    }
}

/// The flags at these places, and no others.
pub fn keep(alloc: Global, places: &[usize], flags: &[bool]) -> Result<Vec<bool>, AllocError>
    requires { All (λ place. place < length flags.now) places.now }
    ensures { IfOk result (λ v. v.items ≡ kept places.now flags.now (replicate (length flags.now) false)) }
{
    let mut left = vec![in alloc; false; flags.len()]?;
    for place in places {
        left[*place] = flags[*place];
    }
    Ok(left)
}

/// A flag that is set, and behind it those at these places.
pub fn flags_at(alloc: Global, places: &[usize], flags: &[bool]) -> Result<Vec<bool>, AllocError>
    requires { All (λ place. place < length flags.now) places.now }
    ensures { IfOk result (λ v. v.items ≡ true ∷ map (λ place. get_or flags.now place false) places.now) }
{
    let mut found = vec![in alloc; true; 1]?;
    for place in places {
        found.push(flags[*place])?;
    }
    Ok(found)
}

/// Takes away the flags whose answer isn't true. The first answer is that of all places but these, whose own stand
/// behind it. Where it is true, these places alone are gone over.
pub fn meet(
    alloc: Global,
    places: &[usize],
    answers: &[bool],
    flags: &mut Vec<bool>,
) -> Result<(), AllocError>
    requires within { All (λ place. place < length flags.now.items) places.now }
    requires each { length answers.now ≡ length places.now + 1 }
    ensures each { OnOk result (length flags.new.items ≡ length flags.old.items) }
    ensures flags { OnOk result ((k : ℕ) → k < length flags.old.items → get_or flags.new.items k false
        ≡ (get_or flags.old.items k false && is_met_at k places.now answers.now)) }
{
    let others = answers[0];
    let apart = differing(alloc, others, places, &answers[1..])?;
    if others {
        clear(&apart, flags);
    } else {
        let left = keep(alloc, &apart, flags)?;
        *flags = left;
    }
    Ok(())
}

// The places whose answer differs from that of all others.
fn differing(
    alloc: Global,
    others: bool,
    places: &[usize],
    answers: &[bool],
) -> Result<Vec<usize>, AllocError>
    requires { length answers.now ≡ length places.now }
    ensures { IfOk result (λ v. v.items ≡ differing others places.now answers.now) }
{
    let mut found = Vec::new(alloc);
    for (number, place) in places.iter().enumerate() {
        if answers[number] != others {
            found.push(*place)?;
        }
    }
    Ok(found)
}
