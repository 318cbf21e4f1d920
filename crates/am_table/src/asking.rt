//! Matchers that are asked of many label sets.

ghost use Rattle.std.specs.Prelude.{◌≡◌, ◌+◌, ◌≤◌, ◌∷◌, [], List, All, Bool, IfOk, IfErr, OnErr, OnOk, filter, length, map, zip};
ghost use Rattle.am_labels.specs.Sets.{value_of};
ghost use Rattle.am_pattern.specs.Asking.{Asked};
ghost use Rattle.am_pattern.specs.Taking.{IsPattern};
ghost use Rattle.am_match.specs.Asking.{IsFailureAmong, IsFailureOf};
ghost use Rattle.am_match.specs.Checking.{AreRefusedRightly};
ghost use Rattle.am_match.specs.Matchers.{patterns_of};
ghost use Rattle.am_match.specs.Meaning.{all_take};
ghost use Rattle.am_table.specs.Narrowing.{answered, narrowed_by};

use am_labels::LabelSet;
use am_match::Matcher;
use am_pattern::{PatternCache, PatternRefusal};
use am_text::Failure;
use std::alloc::{AllocError, Global};

/// For each of the label sets, in their order, whether all of the matchers take it.
///
/// One matcher after another is asked, each of all those label sets that the earlier ones take. So its pattern is asked
/// for at most once in the call, and built at most once, however few patterns the cache keeps.
///
/// # Errors
/// Those of [`Matcher::matches`] for the first matcher that gives no answer.
pub fn taken_by_all(
    alloc: Global,
    matchers: &[Matcher],
    sets: &[&LabelSet],
    cache: &mut PatternCache,
) -> Result<Vec<bool>, Failure<PatternRefusal>>
    ensures taken { IfOk result (λ v. v.items ≡ map (λ set. all_take matchers.now set.now) sets.now) }
    ensures asked { Asked result cache.old cache.new }
    ensures misses { cache.new.misses ≤ cache.old.misses + length (patterns_of matchers.now) }
    ensures failure { IfErr result (IsFailureAmong matchers.now cache.old cache.new) }

    // Where these are patterns of which no build was refused, nothing but memory can fail.
    ensures meaning { All IsPattern (patterns_of matchers.now) → AreRefusedRightly cache.new.refused (patterns_of matchers.now)
        → IfErr result (λ failure. failure ≡ Failure.OutOfMemory) }
{
    let mut taken = vec![in alloc; true; sets.len()]?;
    for matcher in matchers {
        let values = values_of(alloc, matcher.name(), sets)?;
        narrow(alloc, matcher, &values, &mut taken, cache)?;
    }
    Ok(taken)
}

// The value of the label of this name in each of the label sets, in their order. A missing one has the empty value.
fn values_of<'a>(
    alloc: Global,
    name: &str,
    sets: &[&'a LabelSet],
) -> Result<Vec<&'a str>, AllocError>
    ensures { IfOk result (λ v. map (λ value. value.now) v.items ≡ map (λ set. value_of name.now set.now) sets.now) }
{
    let mut values = Vec::with_capacity(alloc, sets.len())?;
    for set in sets {
        values.push(set.get(name))?;
    }
    Ok(values)
}

/// Takes away the flags of those values that don't meet the matcher's condition, as values of its label.
///
/// Values whose flag isn't set are not asked. The others are asked together, so that the pattern is asked for at most
/// once, and not at all where there are none.
///
/// # Errors
/// Those of [`Matcher::matches`]. They leave the flags as they were.
pub fn narrow(
    alloc: Global,
    matcher: &Matcher,
    values: &[&str],
    flags: &mut Vec<bool>,
    cache: &mut PatternCache,
) -> Result<(), Failure<PatternRefusal>>
    requires each { length flags.old.items ≡ length values.now }
    ensures flags { OnOk result (flags.new.items ≡ narrowed_by matcher.now (map (λ value. value.now) values.now) flags.old.items) }
    ensures stays { OnErr result (flags.new.items ≡ flags.old.items) }
    ensures asked { Asked result cache.old cache.new }
    ensures misses { cache.new.misses ≤ cache.old.misses + length (patterns_of (matcher.now ∷ [])) }
    ensures failure { IfErr result (IsFailureOf matcher.now cache.old cache.new) }
{
    let left = left_of(alloc, values, flags)?;
    let answers = matcher.passes_each(alloc, &left, cache)?;
    let settled = settled(alloc, flags, &answers)?;
    *flags = settled;
    Ok(())
}

// The values whose flag is set, in their order.
fn left_of<'a>(
    alloc: Global,
    values: &[&'a str],
    flags: &[bool],
) -> Result<Vec<&'a str>, AllocError>
    ensures { IfOk result (λ v. v.items ≡ map (λ pair. pair.0) (filter (λ pair. pair.1) (zip values.now flags.now))) }
{
    values
        .iter()
        .copied()
        .zip(flags.iter().copied())
        .filter(|(_, is_set)| *is_set)
        .map(|(value, _)| value)
        .collect(alloc)
}

// The flags, of which those that are set give way to the answers in their order.
fn settled(alloc: Global, flags: &[bool], answers: &[bool]) -> Result<Vec<bool>, AllocError>
    ensures { IfOk result (λ v. v.items ≡ answered flags.now answers.now) }
{
    let mut settled = Vec::with_capacity(alloc, flags.len())?;
    let mut rest = answers;
    for flag in flags {
        let (answer, behind) = next_answer(*flag, rest);
        settled.push(answer)?;
        rest = behind;
    }
    Ok(settled)
}

// What stands for a flag, and the answers behind it: the first where the flag is set.
fn next_answer(flag: bool, answers: &[bool]) -> (bool, &[bool])
    ensures { (flags : List Bool) → answered (flag ∷ flags) answers.now ≡ result.0 ∷ answered flags result.1.now }
{
    if !flag {
        return (false, answers);
    }
    match answers.split_first() {
        Some((first, behind)) => (*first, behind),
        None => (false, answers),
    }
}
