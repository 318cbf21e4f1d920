//! The silences that are held, borrowed.

ghost use Rattle.std.specs.Prelude.{◌≡◌, ◌+◌, not, IfOk, List, count_by, filter, map};
ghost use Rattle.std.specs.List.{list_any};
ghost use Rattle.am_match.specs.Matchers.{MatcherText};
ghost use Rattle.am_silence.specs.Changing.{same_matcher};
ghost use Rattle.am_silence.specs.Having.{has_borrowed, has_matcher, has_matchers};
ghost use Rattle.am_silence.specs.Held.{all_held, held_silence, held_under};
ghost use Rattle.am_silence.specs.Silences.{details_of, is_active, is_expired, state_of};

use crate::fields::MOST_MATCHERS;
use crate::state::SilenceState;
use am_item::{Kept, SharedMap, SilenceDetails, SilenceId, Stamped};
use am_match::Matcher;
use am_text::Moment;
use std::alloc::{AllocError, Global};

/// A silence that is held, borrowed.
#[derive(Drop)]
pub struct HeldSilence<'a> {
    /// What identifies the silence.
    pub id: &'a SilenceId,
    /// What else the silence is, and its stamp.
    pub held: &'a Stamped<SilenceDetails>,
}

// A silence that is held, borrowed.
fn borrowed(kept: &Kept<SilenceId, SilenceDetails>) -> HeldSilence<'_>
    ensures { held_silence result ≡ held_under kept.now.0 kept.now.1 }
{
    HeldSilence {
        id: kept.key(),
        held: kept.value(),
    }
}

/// The state of a silence at a moment.
pub(crate) fn state_of(silence: &SilenceDetails, moment: Moment) -> SilenceState
    ensures { result ≡ state_of moment (details_of silence.now) }
{
    SilenceState::at(moment, silence.starts_at, silence.ends_at)
}

// Whether a silence is active at the moment.
fn is_active(silence: &SilenceDetails, moment: Moment) -> bool
    ensures { result ≡ is_active moment silence.now.starts_at silence.now.ends_at }
{
    silence.starts_at <= moment && moment < silence.ends_at
}

/// Those that are active at the moment, in their order.
pub(crate) fn active_among<'a>(
    alloc: Global,
    silences: &'a SharedMap<SilenceId, SilenceDetails>,
    moment: Moment,
) -> Result<Vec<HeldSilence<'a>>, AllocError>
    ensures { IfOk result (λ v. map held_silence v.items
        ≡ filter (λ s. is_active moment s.details.starts_at s.details.ends_at) (all_held silences.now)) }
{
    let mut active = Vec::new(alloc);
    for kept in silences.entries() {
        if is_active(&kept.value().value, moment) {
            active.push(borrowed(kept))?;
        }
    }
    Ok(active)
}

/// All of them, in their order.
pub(crate) fn all_of<'a>(
    alloc: Global,
    silences: &'a SharedMap<SilenceId, SilenceDetails>,
) -> Result<Vec<HeldSilence<'a>>, AllocError>
    ensures { IfOk result (λ v. map held_silence v.items ≡ all_held silences.now) }
{
    let mut all = Vec::with_capacity(alloc, silences.len())?;
    for kept in silences.entries() {
        all.push(borrowed(kept))?;
    }
    Ok(all)
}

/// Those that have a matcher equal to each of the wanted ones, in their order.
pub(crate) fn having<'a>(
    alloc: Global,
    silences: &'a SharedMap<SilenceId, SilenceDetails>,
    wanted: &[Matcher],
) -> Result<Vec<HeldSilence<'a>>, AllocError>
    ensures { IfOk result (λ v. map held_silence v.items
        ≡ filter (λ s. has_matchers s.details.matchers wanted.now) (all_held silences.now)) }
{
    let apart = told_apart(alloc, wanted)?;
    having_each(alloc, silences, &apart)
}

fn having_each<'a>(
    alloc: Global,
    silences: &'a SharedMap<SilenceId, SilenceDetails>,
    wanted: &[&Matcher],
) -> Result<Vec<HeldSilence<'a>>, AllocError>
    ensures { IfOk result (λ v. map held_silence v.items
        ≡ filter (λ s. has_borrowed s.details.matchers wanted.now) (all_held silences.now)) }
{
    let mut found = Vec::new(alloc);
    for kept in silences.entries() {
        if has_matchers(kept.value().value.matchers.as_slice(), wanted) {
            found.push(borrowed(kept))?;
        }
    }
    Ok(found)
}

// The wanted matchers without repetitions, since every silence is compared with each of them. More than a silence can have
// are never all found, so none behind those is told apart.
#[tactic(auto, unfolding(crate::specs::Having::has_borrowed))]
fn told_apart<'a>(alloc: Global, wanted: &'a [Matcher]) -> Result<Vec<&'a Matcher>, AllocError>
    ensures { IfOk result (λ v. (matchers : List MatcherText)
        → has_borrowed matchers v.items ≡ has_matchers matchers wanted.now) }
{
    let mut apart = Vec::new(alloc);
    for matcher in wanted {
        if apart.len() > MOST_MATCHERS || !is_among(&apart, matcher) {
            apart.push(matcher)?;
        }
    }
    Ok(apart)
}

// Whether one of these is equal to the matcher.
fn is_among(matchers: &[&Matcher], matcher: &Matcher) -> bool
    ensures { result ≡ list_any (λ m. same_matcher m.now matcher.now) matchers.now }
{
    matchers.iter().any(|one| are_same(one, matcher))
}

fn are_same(one: &Matcher, other: &Matcher) -> bool
    ensures { result ≡ same_matcher one.now other.now }
{
    *one == *other
}

// Whether each of the wanted matchers is equal to one of these.
#[tactic(auto, unfolding(crate::specs::Having::has_borrowed))]
fn has_matchers(matchers: &[Matcher], wanted: &[&Matcher]) -> bool
    ensures { result ≡ has_borrowed matchers.now wanted.now }
{
    wanted.iter().all(|matcher| has_matcher(matchers, matcher))
}

fn has_matcher(matchers: &[Matcher], wanted: &Matcher) -> bool
    ensures { result ≡ has_matcher matchers.now wanted.now }
{
    matchers.contains(wanted)
}

/// How many have not expired at the moment.
pub(crate) fn unexpired_of(silences: &SharedMap<SilenceId, SilenceDetails>, moment: Moment) -> usize
    ensures { result ≡ count_by (λ s. not (is_expired moment s.details)) (all_held silences.now) }
{
    let mut count = 0;
    for kept in silences.entries() {
        if !state_of(&kept.value().value, moment).has_expired() {
            count += 1;
        }
    }
    count
}
