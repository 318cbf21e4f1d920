//! The receivers of alerts.

ghost use Rattle.std.specs.Prelude.{◌≡◌, ◌∷◌, ◌<◌, [], ℕ, List, All, IfErr, IfOk, OnErr, length, map, zip};
ghost use Rattle.std.specs.Option.{ForSome, option_to_list};
ghost use Rattle.am_text.specs.Outcome.{ForRefused};
ghost use Rattle.am_pattern.specs.Asking.{Asked};
ghost use Rattle.am_pattern.specs.Taking.{IsPattern, takes};
ghost use Rattle.am_listing.specs.Failing.{IsUnanswered};
ghost use Rattle.am_match.specs.Matchers.{patterns_of};
ghost use Rattle.am_muting.specs.Failing.{AddsAmong};
ghost use Rattle.am_payload.specs.Receivers.{names_of};
ghost use Rattle.am_route.specs.Asked.{route_matchers};
ghost use Rattle.am_route.specs.Routes.{routes_at};
ghost use Rattle.am_listing.specs.declared.muting.MutedAlert.{MutedAlert};
ghost use Rattle.am_listing.specs.declared.receivers.RoutedAlert.{RoutedAlert};
ghost use Rattle.am_listing.specs.Listed.{made_routed, muted, read_alert, routed, with_places, with_routes};
ghost use Rattle.am_listing.specs.Receivers.{is_asked, receiver_at, receivers_at};

use crate::muting::MutedAlert;
use crate::refusal::Unanswered;
use am_config::Config;
use am_labels::LabelSet;
use am_pattern::PatternCache;
use am_payload::ReadAlert;
use am_route::{RouteId, routes_of_each};
use am_text::{Failure, Listed, Text};
use std::alloc::{AllocError, Global};
use std::collections::BTreeSet;

/// An alert with what mutes it, its routes, and the places of its receivers in the configuration, each once, in the order
/// of its routes.
#[derive(Drop)]
pub struct RoutedAlert<'a> {
    pub alert: MutedAlert<'a>,
    pub routes: Listed<RouteId>,
    pub receivers: Listed<usize>,
}

/// The alerts with their routes and receivers.
pub(crate) fn routed_alerts<'a>(
    alloc: Global,
    config: &Config,
    alerts: Vec<MutedAlert<'a>>,
    cache: &mut PatternCache,
) -> Result<Vec<RoutedAlert<'a>>, Failure<Unanswered>>
    ensures routed { IfOk result (λ v. map routed v.items
        ≡ map (with_routes config.now) (map muted alerts.entry.items)) }
    ensures routes { IfOk result (λ v. All (λ (r : RoutedAlert). All (λ id. id < length config.now.routes) r.routes)
        v.items) }
    ensures asked { Asked result cache.old cache.new }
    ensures adds { OnErr result (AddsAmong (patterns_of (route_matchers config.now.routes)) cache.old.refused
        cache.new.refused) }
    ensures failure { (own : List (List ℕ)) → IfErr result (λ failure. ForRefused failure
        (IsUnanswered cache.new.refused own (patterns_of (route_matchers config.now.routes)))) }
{
    let sets = label_sets(alloc, &alerts)?;
    let routes = routes_of_sets(alloc, config, &sets, cache)?;
    let pairs = with_places(alloc, config, routes)?;
    let routed = with_routes(alloc, alerts, pairs)?;
    Ok(routed)
}

// The label sets of the alerts, in their order.
fn label_sets<'a>(alloc: Global, alerts: &[MutedAlert<'a>]) -> Result<Vec<&'a LabelSet>, AllocError>
    ensures { IfOk result (λ v. map (λ set. set.now) v.items
        ≡ map (λ (m : MutedAlert). m.alert.labels.now) alerts.now) }
{
    let mut sets = Vec::with_capacity(alloc, alerts.len())?;
    for muted in alerts {
        sets.push(muted.alert.labels)?;
    }
    Ok(sets)
}

// The routes of each of the label sets.
fn routes_of_sets(
    alloc: Global,
    config: &Config,
    sets: &[&LabelSet],
    cache: &mut PatternCache,
) -> Result<Vec<Listed<RouteId>>, Failure<Unanswered>>
    ensures routes { IfOk result (λ v. v.items ≡ map (λ set. routes_at set.now config.now.routes) sets.now) }
    ensures places { IfOk result (λ v. All (λ found. All (λ id. id < length config.now.routes) found) v.items) }
    ensures asked { Asked result cache.old cache.new }
    ensures adds { OnErr result (AddsAmong (patterns_of (route_matchers config.now.routes)) cache.old.refused
        cache.new.refused) }
    ensures failure { (own : List (List ℕ)) → IfErr result (λ failure. ForRefused failure
        (IsUnanswered cache.new.refused own (patterns_of (route_matchers config.now.routes)))) }
{
    match routes_of_each(alloc, config, sets, cache) {
        Ok(routes) => Ok(routes),
        Err(Failure::Refused(_)) => Err(Failure::Refused(Unanswered::Stored)),
        Err(Failure::OutOfMemory) => Err(Failure::OutOfMemory),
    }
}

// The alerts, each with the routes and the places at its own place in the list.
fn with_routes<'a>(
    alloc: Global,
    alerts: Vec<MutedAlert<'a>>,
    pairs: Vec<(Listed<RouteId>, Listed<usize>)>,
) -> Result<Vec<RoutedAlert<'a>>, AllocError>
    ensures { IfOk result (λ v. v.items ≡ map made_routed (zip alerts.entry.items pairs.items)) }
{
    let mut routed = Vec::with_capacity(alloc, alerts.len())?;
    for (alert, pair) in zipped(alloc, alerts, pairs)? {
        routed.push(made_routed(alert, pair))?;
    }
    Ok(routed)
}

// An alert with its routes and the places of their receivers.
fn made_routed<'a>(alert: MutedAlert<'a>, pair: (Listed<RouteId>, Listed<usize>)) -> RoutedAlert<'a>
    ensures { result ≡ made_routed (alert.entry, pair) }
{
    let (routes, receivers) = pair;
    RoutedAlert {
        alert,
        routes,
        receivers,
    }
}

// The things of one list, each with that of the other at its place.
fn zipped<T: Drop, U: Drop>(
    alloc: Global,
    one: Vec<T>,
    other: Vec<U>,
) -> Result<Vec<(T, U)>, AllocError>
    ensures { IfOk result (λ v. v.items ≡ zip one.items other.items) }
{
    one.into_iter().zip(other.into_iter()).collect(alloc)
}

/// The alerts as they are written.
pub fn read_alerts<'a>(
    alloc: Global,
    alerts: Vec<RoutedAlert<'a>>,
) -> Result<Vec<ReadAlert<'a>>, AllocError>
    ensures { IfOk result (λ v. v.items ≡ map read_alert alerts.entry.items) }
{
    let mut read = Vec::with_capacity(alloc, alerts.len())?;
    for routed in alerts {
        let RoutedAlert {
            alert,
            receivers,
            ..
        } = routed;
        let MutedAlert {
            alert,
            silenced_by,
            inhibited_by,
        } = alert;
        read.push(ReadAlert {
            alert,
            receivers,
            silenced_by,
            inhibited_by,
        })?;
    }
    Ok(read)
}

// The routes, list by list, with the places of their receivers.
fn with_places(
    alloc: Global,
    config: &Config,
    routes: Vec<Listed<RouteId>>,
) -> Result<Vec<(Listed<RouteId>, Listed<usize>)>, AllocError>
    ensures { IfOk result (λ v. v.items ≡ map (with_places config.now) routes.items) }
{
    let mut pairs = Vec::with_capacity(alloc, routes.len())?;
    for numbers in routes {
        let receivers = receivers_at(alloc, config, numbers.as_slice())?;
        pairs.push((numbers, receivers))?;
    }
    Ok(pairs)
}

// The places of the receivers of routes, each once, in the order of the routes.
fn receivers_at(
    alloc: Global,
    config: &Config,
    routes: &[RouteId],
) -> Result<Listed<usize>, AllocError>
    ensures { IfOk result (λ l. l ≡ receivers_at config.now routes.now) }
{
    let mut seen = BTreeSet::new(alloc);
    let mut places = Vec::new(alloc);
    for route in routes {
        if let Some(place) = receiver_at(config, *route) {
            if seen.insert(place)? {
                places.push(place)?;
            }
        }
    }
    Ok(Listed::from_vec(places))
}

// The place of the receiver of a route.
fn receiver_at(config: &Config, route: RouteId) -> Option<usize>
    ensures { result ≡ receiver_at config.now route }
{
    match config.routes().get(route.number()) {
        None => None,
        Some(node) => Some(node.item.settings.receiver),
    }
}

/// Whether the receiver of this name is asked for: any is, where there is no pattern, else one whose name it takes.
///
/// # Errors
/// `Asked` where the pattern gave no answer, or out of memory.
pub fn is_asked(
    alloc: Global,
    receiver: &Option<Text>,
    name: &Text,
    cache: &mut PatternCache,
) -> Result<bool, Failure<Unanswered>>
    requires pattern { ForSome receiver.now IsPattern }
    ensures asked_for { IfOk result (λ asked. asked ≡ is_asked receiver.now (name.now ∷ [])) }
    ensures asked { Asked result cache.old cache.new }
    ensures adds { OnErr result (AddsAmong (option_to_list receiver.now) cache.old.refused cache.new.refused) }
    ensures failure { (stored : List (List ℕ)) → IfErr result (λ failure. ForRefused failure
        (IsUnanswered cache.new.refused (option_to_list receiver.now) stored)) }
{
    match receiver {
        None => Ok(true),
        Some(pattern) => is_taken(alloc, pattern.as_str(), name, cache),
    }
}

/// Of each receiver, in their order, whether the pattern takes its name.
pub(crate) fn taken_receivers(
    alloc: Global,
    pattern: &str,
    config: &Config,
    cache: &mut PatternCache,
) -> Result<Vec<bool>, Failure<Unanswered>>
    requires pattern { IsPattern pattern.now }
    ensures taken { IfOk result (λ v. v.items ≡ map (λ name. takes pattern.now name) (names_of config.now)) }
    ensures asked { Asked result cache.old cache.new }
    ensures adds { OnErr result (AddsAmong (pattern.now ∷ []) cache.old.refused cache.new.refused) }
    ensures failure { (stored : List (List ℕ)) → IfErr result (λ failure. ForRefused failure
        (IsUnanswered cache.new.refused (pattern.now ∷ []) stored)) }
{
    let receivers = config.receivers();
    let mut taken = Vec::with_capacity(alloc, receivers.len())?;
    for receiver in receivers {
        taken.push(is_taken(alloc, pattern, &receiver.name, cache)?)?;
    }
    Ok(taken)
}

// Whether the pattern takes the name.
fn is_taken(
    alloc: Global,
    pattern: &str,
    name: &Text,
    cache: &mut PatternCache,
) -> Result<bool, Failure<Unanswered>>
    requires pattern { IsPattern pattern.now }
    ensures taken { IfOk result (λ taken. taken ≡ takes pattern.now name.now) }
    ensures asked { Asked result cache.old cache.new }
    ensures adds { OnErr result (AddsAmong (pattern.now ∷ []) cache.old.refused cache.new.refused) }
    ensures failure { (stored : List (List ℕ)) → IfErr result (λ failure. ForRefused failure
        (IsUnanswered cache.new.refused (pattern.now ∷ []) stored)) }
{
    match cache.answer(alloc, pattern, name.as_str()) {
        Ok(taken) => Ok(taken),
        Err(Failure::Refused(_)) => Err(Failure::Refused(Unanswered::Asked)),
        Err(Failure::OutOfMemory) => Err(Failure::OutOfMemory),
    }
}
