ghost use Rattle.std.specs.Prelude.{◌≡◌, ◌&&◌, ◌++◌, ◌<◌, ◌==◌, [], All, IfErr, IfOk, OnErr, length, map, not};
ghost use Rattle.std.specs.List.Sorted.{IsStrictlySortedBy};
ghost use Rattle.am_labels.specs.Labels.{labels_cmp};
ghost use Rattle.am_text.specs.Outcome.{ForRefused};
ghost use Rattle.am_pattern.specs.Asking.{Asked};
ghost use Rattle.am_alert.specs.declared.held.HeldAlert.{HeldAlert};
ghost use Rattle.am_inhibit.specs.Inhibits.{inhibitor_places};
ghost use Rattle.am_silence.specs.Held.{active_among, silencing};
ghost use Rattle.am_silence.specs.Silences.{is_active};
ghost use Rattle.am_muting.specs.Asked.{active_in, chosen, sources_of};
ghost use Rattle.am_muting.specs.Failing.{AddsAmong, HasUnanswered, patterns_muting};
ghost use Rattle.am_muting.specs.Muting.{alert_sets, firing_sets, is_muted, muted_sets, muting_of};

use crate::mutes::Mutes;
use am_alert::{AlertBook, HeldAlert};
use am_config::Config;
use am_inhibit::{Inhibited, inhibitors_of_each};
use am_item::{Held, LabelSets, SharedMap, SilenceDetails, SilenceId};
use am_labels::LabelSet;
use am_pattern::{PatternCache, PatternRefusal};
use am_silence::{SilenceBook, SilenceState, Silenced};
use am_text::{Failure, Moment};
use std::alloc::{AllocError, Global};

/// What mutes each of the alerts with these label sets at a moment, whether they fire or are resolved: the active silences
/// that take it, and the firing alerts that inhibit it.
///
/// # Errors
/// A pattern of an active silence or of an inhibit rule gave no answer, or out of memory.
pub fn mutes_of<'a>(
    alloc: Global,
    held: &'a Held,
    config: &Config,
    moment: Moment,
    targets: &[&LabelSet],
    cache: &mut PatternCache,
) -> Result<Mutes<'a>, Failure<PatternRefusal>>
    ensures muting { IfOk result (λ m. m ≡ map (λ set. muting_of config.now moment held.now set.now) targets.now) }
    ensures asked { Asked result cache.old cache.new }
    ensures failure { IfErr result (λ failure. ForRefused failure
        (λ refusal. HasUnanswered cache.new.refused (patterns_muting config.now moment held.now))) }
    ensures adds { OnErr result (AddsAmong (patterns_muting config.now moment held.now) cache.old.refused
        cache.new.refused) }
{
    let firing = sources_of(alloc, held, config, moment)?;
    let (silences, inhibited) = ask(
        alloc, held, config, moment, targets, &firing, targets, cache,
    )?;
    let first = firing.len();
    Ok(Mutes::new(firing, silences, inhibited, first))
}

/// The same of all alerts that fire, where these are their label sets: [`mutes_of`] would take twice the time.
///
/// # Errors
/// Those of [`mutes_of`].
pub fn mutes_of_firing<'a>(
    alloc: Global,
    held: &Held,
    config: &Config,
    moment: Moment,
    firing: Vec<&'a LabelSet>,
    cache: &mut PatternCache,
) -> Result<Mutes<'a>, Failure<PatternRefusal>>
    requires { map (λ set. set.now) firing.items ≡ firing_sets moment held.now }
    ensures muting { IfOk result (λ m. m ≡ map
        (λ set. muting_of config.now moment held.now set.now) firing.entry.items) }
    ensures asked { Asked result cache.old cache.new }
    ensures failure { IfErr result (λ failure. ForRefused failure
        (λ refusal. HasUnanswered cache.new.refused (patterns_muting config.now moment held.now))) }
    ensures adds { OnErr result (AddsAmong (patterns_muting config.now moment held.now) cache.old.refused
        cache.new.refused) }
{
    let (silences, inhibited) = ask(alloc, held, config, moment, &firing, &firing, &[], cache)?;
    Ok(Mutes::new(firing, silences, inhibited, 0))
}

// The silences that silence each of the targets, and which firing alerts inhibit each of those and of others.
fn ask<'a>(
    alloc: Global,
    held: &Held,
    config: &Config,
    moment: Moment,
    targets: &[&'a LabelSet],
    firing: &[&'a LabelSet],
    others: &[&'a LabelSet],
    cache: &mut PatternCache,
) -> Result<(Silenced, Inhibited), Failure<PatternRefusal>>
    ensures silencing { IfOk result (λ found. found.0 ≡ map (λ set. silencing moment held.now set.now) targets.now) }
    ensures inhibitors { IfOk result (λ found. found.1
        ≡ map (λ target. inhibitor_places config.now.rules (map (λ set. set.now) firing.now) target.now)
        (firing.now ++ others.now)) }
    ensures places { IfOk result (λ found. All (λ places. All (λ place. place < length firing.now) places) found.1) }
    ensures asked { Asked result cache.old cache.new }
    ensures failure { IfErr result (λ failure. ForRefused failure
        (λ refusal. HasUnanswered cache.new.refused (patterns_muting config.now moment held.now))) }
    ensures adds { OnErr result (AddsAmong (patterns_muting config.now moment held.now) cache.old.refused
        cache.new.refused) }
{
    let silences = SilenceBook::new(held).silencing(alloc, targets, moment, cache)?;
    let inhibited = inhibitors_of_each(alloc, config, firing, others, cache)?;
    Ok((silences, inhibited))
}

/// The label sets of the alerts that are held and that something mutes at a moment, in their order. Where no silence is active
/// and there is no inhibit rule, nothing is asked and no alert is looked at.
///
/// # Errors
/// Those of [`mutes_of`].
pub fn muted_sets(
    alloc: Global,
    held: &Held,
    config: &Config,
    moment: Moment,
    cache: &mut PatternCache,
) -> Result<LabelSets, Failure<PatternRefusal>>
    ensures muted { IfOk result (λ sets. sets ≡ muted_sets config.now moment held.now) }
    ensures quiet { active_among moment held.now ≡ [] → config.now.rules ≡ [] → cache.new ≡ cache.old }
    ensures asked { Asked result cache.old cache.new }
    ensures failure { IfErr result (λ failure. ForRefused failure
        (λ refusal. HasUnanswered cache.new.refused (patterns_muting config.now moment held.now))) }
    ensures adds { OnErr result (AddsAmong (patterns_muting config.now moment held.now) cache.old.refused
        cache.new.refused) }
{
    if is_quiet(held, config, moment) {
        return Ok(as_sets(Vec::new(alloc)));
    }
    let alerts = alert_sets(alloc, held)?;
    let mutes = mutes_of(alloc, held, config, moment, &alerts, cache)?;
    let muted = muted_of(alloc, &mutes, &alerts)?;
    Ok(as_sets(muted))
}

/// The label sets of alerts, in their order.
pub fn label_sets<'a>(
    alloc: Global,
    alerts: &[HeldAlert<'a>],
) -> Result<Vec<&'a LabelSet>, AllocError>
    ensures { IfOk result (λ v. map (λ set. set.now) v.items ≡ map (λ (a : HeldAlert). a.labels.now) alerts.now) }
{
    let mut sets = Vec::with_capacity(alloc, alerts.len())?;
    for alert in alerts {
        sets.push(alert.labels)?;
    }
    Ok(sets)
}

// The label sets of the firing alerts, of none where no rule asks for them.
fn sources_of<'a>(
    alloc: Global,
    held: &'a Held,
    config: &Config,
    moment: Moment,
) -> Result<Vec<&'a LabelSet>, AllocError>
    ensures { IfOk result (λ v. map (λ set. set.now) v.items ≡ sources_of config.now moment held.now) }
{
    if config.rules().is_empty() {
        return Ok(Vec::new(alloc));
    }
    let firing = AlertBook::new(held).firing(alloc, moment)?;
    label_sets(alloc, &firing)
}

// Whether no silence is active and there is no inhibit rule.
fn is_quiet(held: &Held, config: &Config, moment: Moment) -> bool
    ensures { result ≡ (length (active_among moment held.now) == 0 && length config.now.rules == 0) }
{
    config.rules().is_empty() && !has_active(held, moment)
}

// Whether a silence is active.
fn has_active(held: &Held, moment: Moment) -> bool
    ensures { result ≡ not (length (active_among moment held.now) == 0) }
{
    is_active_in(held.silences(), moment)
}

// Whether one of these silences is active.
fn is_active_in(silences: &SharedMap<SilenceId, SilenceDetails>, moment: Moment) -> bool
    ensures { result ≡ not (length (active_in moment silences.now) == 0) }
{
    for kept in silences.entries() {
        if is_active(&kept.value().value, moment) {
            return true;
        }
    }
    false
}

// Whether a silence is active.
fn is_active(silence: &SilenceDetails, moment: Moment) -> bool
    ensures { result ≡ is_active moment silence.now.starts_at silence.now.ends_at }
{
    SilenceState::at(moment, silence.starts_at, silence.ends_at) == SilenceState::Active
}

// The label sets of all alerts that are held, in their order.
fn alert_sets<'a>(alloc: Global, held: &'a Held) -> Result<Vec<&'a LabelSet>, AllocError>
    ensures sets { IfOk result (λ v. map (λ set. set.now) v.items ≡ alert_sets held.now) }
    ensures rising { IfOk result (λ v. IsStrictlySortedBy labels_cmp (map (λ set. set.now) v.items)) }
{
    let alerts = held.alerts().entries();
    let mut sets = Vec::with_capacity(alloc, alerts.len())?;
    for kept in alerts {
        sets.push(kept.key())?;
    }
    Ok(sets)
}

// Those of some alerts' label sets that something mutes, copied.
fn muted_of(
    alloc: Global,
    mutes: &Mutes<'_>,
    alerts: &[&LabelSet],
) -> Result<Vec<LabelSet>, AllocError>
    requires { length mutes.now ≡ length alerts.now }
    ensures { IfOk result (λ v. v.items ≡ chosen (map is_muted mutes.now) (map (λ set. set.now) alerts.now)) }
{
    let mut muted = Vec::new(alloc);
    for (place, labels) in alerts.iter().enumerate() {
        if mutes.is_muted(place) {
            muted.push(labels.copy()?)?;
        }
    }
    Ok(muted)
}

// Label sets that rise, as such.
fn as_sets(sets: Vec<LabelSet>) -> LabelSets
    requires { IsStrictlySortedBy labels_cmp sets.items }
    ensures { result ≡ sets.items }
{
    match LabelSets::from_rising(sets) {
        Some(sets) => sets,
        None => unreachable!(),
    }
}
