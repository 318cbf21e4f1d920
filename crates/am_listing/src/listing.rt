//! The alerts that a query shows.

ghost use Rattle.std.specs.Prelude.{◌≡◌, ◌++◌, ◌<◌, ℕ, List, All, IfErr, IfOk, OnErr, filter, length, map, zip};
ghost use Rattle.std.specs.Option.{ForSome, option_to_list};
ghost use Rattle.am_text.specs.Outcome.{ForRefused};
ghost use Rattle.am_pattern.specs.Asking.{Asked};
ghost use Rattle.am_pattern.specs.Taking.{IsPattern};
ghost use Rattle.am_match.specs.Matchers.{patterns_of};
ghost use Rattle.am_match.specs.Meaning.{all_take};
ghost use Rattle.am_payload.specs.Receivers.{names_at};
ghost use Rattle.am_listing.specs.declared.receivers.RoutedAlert.{RoutedAlert};
ghost use Rattle.am_query.specs.Patterns.{patterns_asked};
ghost use Rattle.am_muting.specs.Failing.{AddsAmong, patterns_muting};
ghost use Rattle.am_listing.specs.Failing.{IsUnanswered, patterns_in_use};
ghost use Rattle.am_listing.specs.Listed.{has_taken, is_taken, muted, routed, with_all, with_muting};
ghost use Rattle.am_listing.specs.Receivers.{is_asked};
ghost use Rattle.am_listing.specs.Shown.{passed, shown};
ghost use Rattle.am_listing.specs.Written.{alerts_text};

use crate::muting::{MutedAlert, chosen_alerts, mutes_of};
use crate::receivers::{RoutedAlert, read_alerts, routed_alerts, taken_receivers};
use crate::refusal::Unanswered;
use am_alert::AlertBook;
use am_config::Config;
use am_item::Held;
use am_labels::LabelSet;
use am_match::Matcher;
use am_muting::label_sets;
use am_pattern::PatternCache;
use am_payload::alerts_json;
use am_query::Query;
use am_table::taken_by_all;
use am_text::{Failure, Listed, Moment, Octets, Text};
use std::alloc::{AllocError, Global};

/// The JSON list of the alerts that fire at a moment and that a query shows, in the order of label sets, each with its
/// receivers and with what mutes it: the silences that are active then, and the firing alerts that inhibit it.
///
/// Shown are those that all matchers of the query take, of which a receiver is asked for, and that it lets through:
/// without `active` none that nothing mutes, without `silenced` none that a silence silences, and without `inhibited`
/// none that an alert inhibits. Of the matchers, the silences, the inhibit rules, the routes and the receivers each
/// pattern is built at most once, however few the cache keeps.
///
/// # Errors
/// Whose pattern gave no answer: `Asked` for one of the query, `Stored` for one of the configuration or of an active
/// silence; or out of memory. Nothing but the cache changes.
pub fn list_alerts(
    alloc: Global,
    query: &Query,
    held: &Held,
    config: &Config,
    moment: Moment,
    cache: &mut PatternCache,
) -> Result<Octets, Failure<Unanswered>>
    requires matchers { All IsPattern (patterns_of query.now.matchers) }
    requires receiver { ForSome query.now.receiver IsPattern }
    ensures text { IfOk result (λ o. o ≡ alerts_text config.now query.now moment held.now) }
    ensures asked { Asked result cache.old cache.new }
    ensures adds { OnErr result (AddsAmong (patterns_asked query.now ++ patterns_in_use config.now moment held.now)
        cache.old.refused cache.new.refused) }
    ensures failure { IfErr result (λ failure. ForRefused failure
        (IsUnanswered cache.new.refused (patterns_asked query.now) (patterns_in_use config.now moment held.now))) }
{
    let shown = shown_alerts(alloc, query, held, config, moment, cache)?;
    let read = read_alerts(alloc, shown)?;
    let body = alerts_json(alloc, config, &read)?;
    Ok(body)
}

// The alerts that the query shows, with their receivers and with what mutes them.
fn shown_alerts<'a>(
    alloc: Global,
    query: &Query,
    held: &'a Held,
    config: &Config,
    moment: Moment,
    cache: &mut PatternCache,
) -> Result<Vec<RoutedAlert<'a>>, Failure<Unanswered>>
    requires matchers { All IsPattern (patterns_of query.now.matchers) }
    requires receiver { ForSome query.now.receiver IsPattern }
    ensures shown { IfOk result (λ v. map routed v.items
        ≡ map (with_all config.now moment held.now) (shown config.now query.now moment held.now)) }
    ensures asked { Asked result cache.old cache.new }
    ensures adds { OnErr result (AddsAmong (patterns_asked query.now ++ patterns_in_use config.now moment held.now)
        cache.old.refused cache.new.refused) }
    ensures failure { IfErr result (λ failure. ForRefused failure
        (IsUnanswered cache.new.refused (patterns_asked query.now) (patterns_in_use config.now moment held.now))) }
{
    let passed = passed_alerts(alloc, query, held, config, moment, cache)?;
    asked_alerts(alloc, &query.receiver, config, passed, cache)
}

/// The alerts that fire at a moment, that the query lets through and that its matchers take, in the order of label sets,
/// each with its routes, its receivers and what mutes it. Whether a receiver is asked for says nothing here.
///
/// # Errors
/// Those of [`list_alerts`].
pub fn passed_alerts<'a>(
    alloc: Global,
    query: &Query,
    held: &'a Held,
    config: &Config,
    moment: Moment,
    cache: &mut PatternCache,
) -> Result<Vec<RoutedAlert<'a>>, Failure<Unanswered>>
    requires matchers { All IsPattern (patterns_of query.now.matchers) }
    ensures passed { IfOk result (λ v. map routed v.items
        ≡ map (with_all config.now moment held.now) (passed config.now query.now moment held.now)) }
    ensures routes { IfOk result (λ v. All (λ (r : RoutedAlert). All (λ id. id < length config.now.routes) r.routes)
        v.items) }
    ensures asked { Asked result cache.old cache.new }
    ensures adds { OnErr result (AddsAmong (patterns_of query.now.matchers
        ++ patterns_in_use config.now moment held.now) cache.old.refused cache.new.refused) }
    ensures failure { IfErr result (λ failure. ForRefused failure
        (IsUnanswered cache.new.refused (patterns_of query.now.matchers) (patterns_in_use config.now moment held.now))) }
{
    let muted = muted_alerts(alloc, query, held, config, moment, cache)?;
    routed_alerts(alloc, config, muted, cache)
}

// The same with what mutes them alone.
fn muted_alerts<'a>(
    alloc: Global,
    query: &Query,
    held: &'a Held,
    config: &Config,
    moment: Moment,
    cache: &mut PatternCache,
) -> Result<Vec<MutedAlert<'a>>, Failure<Unanswered>>
    requires matchers { All IsPattern (patterns_of query.now.matchers) }
    ensures passed { IfOk result (λ v. map muted v.items
        ≡ map (with_muting config.now moment held.now) (passed config.now query.now moment held.now)) }
    ensures asked { Asked result cache.old cache.new }
    ensures adds { OnErr result (AddsAmong (patterns_of query.now.matchers
        ++ patterns_muting config.now moment held.now) cache.old.refused cache.new.refused) }
    ensures failure { IfErr result (λ failure. ForRefused failure
        (IsUnanswered cache.new.refused (patterns_of query.now.matchers) (patterns_muting config.now moment held.now))) }
{
    let firing = AlertBook::new(held).firing(alloc, moment)?;
    let sets = label_sets(alloc, &firing)?;
    let taken = flags_of(alloc, query.matchers.as_slice(), &sets, cache)?;
    let mutes = mutes_of(alloc, held, config, moment, sets, cache)?;
    let chosen = chosen_alerts(alloc, query, &firing, &taken, &mutes)?;
    Ok(chosen)
}

// For each of the label sets whether all of the matchers take it.
fn flags_of(
    alloc: Global,
    matchers: &[Matcher],
    sets: &[&LabelSet],
    cache: &mut PatternCache,
) -> Result<Vec<bool>, Failure<Unanswered>>
    requires patterns { All IsPattern (patterns_of matchers.now) }
    ensures taken { IfOk result (λ v. v.items ≡ map (λ set. all_take matchers.now set.now) sets.now) }
    ensures asked { Asked result cache.old cache.new }
    ensures adds { OnErr result (AddsAmong (patterns_of matchers.now) cache.old.refused cache.new.refused) }
    ensures failure { (stored : List (List ℕ)) → IfErr result (λ failure. ForRefused failure
        (IsUnanswered cache.new.refused (patterns_of matchers.now) stored)) }
{
    match taken_by_all(alloc, matchers, sets, cache) {
        Ok(taken) => Ok(taken),
        Err(Failure::Refused(_)) => Err(Failure::Refused(Unanswered::Asked)),
        Err(Failure::OutOfMemory) => Err(Failure::OutOfMemory),
    }
}

// The things whose flag is set, in their order.
fn chosen<T: Drop>(alloc: Global, things: Vec<T>, choice: Vec<bool>) -> Result<Vec<T>, AllocError>
    ensures { IfOk result (λ v. v.items ≡ map (λ pair. pair.0)
        (filter (λ pair. pair.1) (zip things.items choice.items))) }
{
    things
        .into_iter()
        .zip(choice)
        .filter(|(_, is_chosen)| *is_chosen)
        .map(|(thing, _)| thing)
        .collect(alloc)
}

// Those of which a receiver is asked for.
fn asked_alerts<'a>(
    alloc: Global,
    receiver: &Option<Text>,
    config: &Config,
    alerts: Vec<RoutedAlert<'a>>,
    cache: &mut PatternCache,
) -> Result<Vec<RoutedAlert<'a>>, Failure<Unanswered>>
    requires pattern { ForSome receiver.now IsPattern }
    ensures shown { IfOk result (λ v. v.items
        ≡ filter (λ (r : RoutedAlert). is_asked receiver.now (names_at config.now r.receivers)) alerts.entry.items) }
    ensures asked { Asked result cache.old cache.new }
    ensures adds { OnErr result (AddsAmong (option_to_list receiver.now) cache.old.refused cache.new.refused) }
    ensures failure { (stored : List (List ℕ)) → IfErr result (λ failure. ForRefused failure
        (IsUnanswered cache.new.refused (option_to_list receiver.now) stored)) }
{
    match receiver {
        None => Ok(alerts),
        Some(pattern) => {
            let taken = taken_receivers(alloc, pattern.as_str(), config, cache)?;
            let choice = flags_by(alloc, &alerts, &taken)?;
            let chosen = chosen(alloc, alerts, choice)?;
            Ok(chosen)
        }
    }
}

// For each of the alerts whether one of its receivers is taken.
fn flags_by(
    alloc: Global,
    alerts: &[RoutedAlert<'_>],
    taken: &[bool],
) -> Result<Vec<bool>, AllocError>
    ensures { IfOk result (λ v. v.items ≡ map (λ (r : RoutedAlert). has_taken taken.now r.receivers) alerts.now) }
{
    let mut flags = Vec::with_capacity(alloc, alerts.len())?;
    for alert in alerts {
        flags.push(has_taken(alert.receivers.as_slice(), taken))?;
    }
    Ok(flags)
}

// Whether one of the receivers at these places is taken.
fn has_taken(places: &[usize], taken: &[bool]) -> bool
    ensures { result ≡ has_taken taken.now places.now }
{
    places.iter().any(|place| is_taken(taken, *place))
}

fn is_taken(taken: &[bool], place: usize) -> bool
    ensures { result ≡ is_taken taken.now place }
{
    match taken.get(place) {
        None => false,
        Some(flag) => *flag,
    }
}
