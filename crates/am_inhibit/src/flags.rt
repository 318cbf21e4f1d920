//! Flags of label sets, combined.

ghost use Rattle.std.specs.Prelude.{◌≡◌, ◌&&◌, ◌||◌, ◌+◌, ◌++◌, ℕ, ◌<◌, false, true, IfOk, get_or, length, not};
ghost use Rattle.std.specs.Prelude.{replicate};
ghost use Rattle.std.specs.List.{list_any};

use std::alloc::{AllocError, Global};

/// The flags that are set in both.
pub fn both(alloc: Global, one: &[bool], other: &[bool]) -> Result<Vec<bool>, AllocError>
    requires each { length one.now ≡ length other.now }
    ensures each { IfOk result (λ v. length v.items ≡ length one.now) }
    ensures flags { IfOk result (λ v. (k : ℕ) → k < length one.now
        → get_or v.items k false ≡ (get_or one.now k false && get_or other.now k false)) }
{
    let mut flags = Vec::with_capacity(alloc, one.len())?;
    for (place, flag) in one.iter().enumerate() {
        flags.push(*flag && other[place])?;
    }
    Ok(flags)
}

/// The flags that are set in the first alone.
pub fn without(alloc: Global, one: &[bool], other: &[bool]) -> Result<Vec<bool>, AllocError>
    requires each { length one.now ≡ length other.now }
    ensures each { IfOk result (λ v. length v.items ≡ length one.now) }
    ensures flags { IfOk result (λ v. (k : ℕ) → k < length one.now
        → get_or v.items k false ≡ (get_or one.now k false && not (get_or other.now k false))) }
{
    let mut flags = Vec::with_capacity(alloc, one.len())?;
    for (place, flag) in one.iter().enumerate() {
        flags.push(*flag && !other[place])?;
    }
    Ok(flags)
}

/// Sets those flags that are set in the others.
pub fn join(others: &[bool], flags: &mut Vec<bool>)
    requires { length flags.now.items ≡ length others.now }
    ensures each { length flags.new.items ≡ length flags.old.items }
    ensures flags { (k : ℕ) → k < length others.now
        → get_or flags.new.items k false ≡ (get_or flags.old.items k false || get_or others.now k false) }
{
    for (place, other) in others.iter().enumerate() {
        flags[place] = flags[place] || *other;
    }
}

/// Flags of which so many are set, and behind them so many aren't.
pub fn first_set(alloc: Global, set: usize, unset: usize) -> Result<Vec<bool>, AllocError>
    ensures { IfOk result (λ v. v.items ≡ replicate set true ++ replicate unset false) }
{
    let mut flags = vec![in alloc; true; set]?;
    let rest = vec![in alloc; false; unset]?;
    flags.extend_from_slice(&rest)?;
    Ok(flags)
}

/// Whether a flag is set.
pub fn has_set(flags: &[bool]) -> bool
    ensures { result ≡ list_any (λ flag. flag) flags.now }
{
    flags.iter().any(|flag| *flag)
}
