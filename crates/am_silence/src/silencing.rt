//! Which silences take label sets.

ghost use Rattle.std.specs.Prelude.{◌≡◌, ◌+◌, ◌≤◌, IfErr, IfOk, length, map};
ghost use Rattle.am_pattern.specs.Asking.{Asked};
ghost use Rattle.am_match.specs.Asking.{IsFailureAmong};
ghost use Rattle.am_match.specs.Matchers.{patterns_of};
ghost use Rattle.am_match.specs.Meaning.{all_take};
ghost use Rattle.am_silence.specs.Held.{held_silence, matchers_in, taking};

use crate::held::HeldSilence;
use crate::silenced::Silenced;
use am_item::SilenceId;
use am_labels::LabelSet;
use am_match::Matcher;
use am_pattern::{PatternCache, PatternRefusal};
use am_table::taken_by_each;
use am_text::Failure;
use std::alloc::{AllocError, Global};

/// For each of the label sets the silences that take it.
///
/// # Errors
/// Those of [`Matcher::matches`] for a matcher of the silences.
pub(crate) fn silencing(
    alloc: Global,
    silences: &[HeldSilence<'_>],
    sets: &[&LabelSet],
    cache: &mut PatternCache,
) -> Result<Silenced, Failure<PatternRefusal>>
    ensures taking { IfOk result (λ s. s ≡ map (λ labels. taking (map held_silence silences.now) labels) (map (λ set. set.now) sets.now)) }
    ensures asked { Asked result cache.old cache.new }
    ensures misses { cache.new.misses ≤ cache.old.misses + length (patterns_of (matchers_in (map held_silence silences.now))) }
    ensures failure { IfErr result (IsFailureAmong (matchers_in (map held_silence silences.now)) cache.old cache.new) }
{
    let ids = ids_of(alloc, silences)?;
    let lists = matchers_of(alloc, silences)?;
    let table = taken_by_each(alloc, &lists, sets, cache)?;
    Ok(by_rows(silences, sets, ids, table))
}

// The rows of silences as what silences label sets.
fn by_rows(
    silences: &[HeldSilence<'_>],
    sets: &[&LabelSet],
    ids: Vec<SilenceId>,
    table: Vec<Vec<bool>>,
) -> Silenced
    requires ids { ids.items ≡ map (λ s. s.id.now) silences.now }
    requires rows { map (λ row. row.items) table.items ≡ map (λ s. map (all_take s.held.now.value.matchers) (map (λ set. set.now) sets.now)) silences.now }
    ensures { result ≡ map (λ labels. taking (map held_silence silences.now) labels) (map (λ set. set.now) sets.now) }
{
    let _silences = silences;
    Silenced::new(sets.len(), ids, table)
}

// The identifiers of the silences.
fn ids_of(alloc: Global, silences: &[HeldSilence<'_>]) -> Result<Vec<SilenceId>, AllocError>
    ensures { IfOk result (λ v. v.items ≡ map (λ s. s.id.now) silences.now) }
{
    let mut ids = Vec::with_capacity(alloc, silences.len())?;
    for silence in silences {
        ids.push(*silence.id)?;
    }
    Ok(ids)
}

// The matchers of each of the silences.
fn matchers_of<'a>(
    alloc: Global,
    silences: &'a [HeldSilence<'_>],
) -> Result<Vec<&'a [Matcher]>, AllocError>
    ensures { IfOk result (λ v. map (λ list. list.now) v.items ≡ map (λ s. s.held.now.value.matchers) silences.now) }
{
    let mut lists = Vec::with_capacity(alloc, silences.len())?;
    for silence in silences {
        lists.push(silence.held.value.matchers.as_slice())?;
    }
    Ok(lists)
}
