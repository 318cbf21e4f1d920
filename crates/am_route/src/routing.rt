ghost use Rattle.std.specs.Prelude.{◌≡◌, ◌+◌, ◌++◌, ◌<◌, ◌≤◌, ◌^◌, All, length, map, IfErr, IfOk, IsSome, OnOk};
ghost use Rattle.std.specs.Option.{ForSome};
ghost use Rattle.am_draft.specs.Forests.{IsForest, forest_of};
ghost use Rattle.am_pattern.specs.Asking.{Asked};
ghost use Rattle.am_match.specs.Asking.{IsFailureAmong};
ghost use Rattle.am_match.specs.Checking.{AreRefusedRightly};
ghost use Rattle.am_match.specs.Matchers.{patterns_of};
ghost use Rattle.am_match.specs.Meaning.{all_take};
ghost use Rattle.am_route.specs.Answers.{AreKnown};
ghost use Rattle.am_route.specs.Asked.{asked_among, asked_at, asked_of, route_matchers};
ghost use Rattle.am_route.specs.Routes.{route_takes, routes_among, routes_at, routes_within};

use crate::answers::{answers_of, known_at};
use crate::id::RouteId;
use am_config::{Config, Route};
use am_labels::LabelSet;
use am_match::Matcher;
use am_pattern::{PatternCache, PatternRefusal};
use am_text::{Failure, Listed, Node};
use std::alloc::Global;

/// The routes of an alert with these labels, in the order of the tree.
///
/// An alert enters at the root. At each route it goes to the first child whose matchers all take its
/// labels, and on to later ones only where that child has `continue`. Where no child takes it, the route
/// itself is one of its routes. So there is at least one, and each is a place in the configuration's routes.
///
/// # Errors
///
/// Those of [`Matcher::matches`] for a matcher that is asked on the way of these labels.
pub fn routes_of(
    alloc: Global,
    config: &Config,
    labels: &LabelSet,
    cache: &mut PatternCache,
) -> Result<Vec<RouteId>, Failure<PatternRefusal>>
    ensures routes { IfOk result (λ found. found.items ≡ routes_at labels.now config.now.routes) }
    ensures places { IfOk result (λ found. All (λ id. id < length config.now.routes) found.items) }
    ensures some { IfOk result (λ found. 0 < length found.items) }
    ensures asked { Asked result cache.old cache.new }
    ensures failure { IfErr result (IsFailureAmong (asked_at labels.now config.now.routes) cache.old cache.new) }

    // Where no build of a pattern that is asked was refused, nothing but memory can fail.
    ensures meaning { AreRefusedRightly cache.new.refused (patterns_of (asked_at labels.now config.now.routes))
        → IfErr result (λ failure. failure ≡ Failure.OutOfMemory) }
{
    let known = vec![in alloc; None; config.routes().len()]?;
    routes_by(alloc, config, &known, labels, cache)
}

/// The routes of each of these label sets, in their order: those that [`routes_of`] gives.
///
/// All matchers of the routes are asked, label by label, each once for all label sets. So no more patterns are built in
/// the call than the routes have, however few the cache keeps; one that several matchers of a label have is built once.
/// The call takes a byte for each route and label set.
///
/// # Errors
///
/// Those of [`Matcher::matches`] for a matcher of the routes.
pub fn routes_of_each(
    alloc: Global,
    config: &Config,
    sets: &[&LabelSet],
    cache: &mut PatternCache,
) -> Result<Vec<Listed<RouteId>>, Failure<PatternRefusal>>
    ensures routes { IfOk result (λ v. v.items ≡ map (λ set. routes_at set.now config.now.routes) sets.now) }
    ensures places { IfOk result (λ v. All (λ found. All (λ id. id < length config.now.routes) found) v.items) }
    ensures some { IfOk result (λ v. All (λ found. 0 < length found) v.items) }
    ensures asked { Asked result cache.old cache.new }
    ensures misses { cache.new.misses ≤ cache.old.misses + length (patterns_of (route_matchers config.now.routes)) }
    ensures failure { IfErr result (IsFailureAmong (route_matchers config.now.routes) cache.old cache.new) }

    // Where no build of a pattern of the routes was refused, nothing but memory can fail.
    ensures meaning { AreRefusedRightly cache.new.refused (patterns_of (route_matchers config.now.routes))
        → IfErr result (λ failure. failure ≡ Failure.OutOfMemory) }
{
    let table = answers_of(alloc, config.routes(), sets, cache)?;
    let mut found = Vec::new(alloc);
    for (place, set) in sets.iter().enumerate() {
        let known = known_at(alloc, &table, place)?;
        let routes = routes_by(alloc, config, &known, set, cache)?;
        found.push(Listed::from_vec(routes))?;
    }
    Ok(found)
}

// The routes of the labels, where it is known of some routes by number whether they take them. Where it is of all, the
// cache isn't asked.
fn routes_by(
    alloc: Global,
    config: &Config,
    known: &[Option<bool>],
    labels: &LabelSet,
    cache: &mut PatternCache,
) -> Result<Vec<RouteId>, Failure<PatternRefusal>>
    requires known { AreKnown labels.now config.now.routes 0 known.now }
    ensures routes { IfOk result (λ found. found.items ≡ routes_at labels.now config.now.routes) }
    ensures places { IfOk result (λ found. All (λ id. id < length config.now.routes) found.items) }
    ensures some { IfOk result (λ found. 0 < length found.items) }
    ensures asked { Asked result cache.old cache.new }
    ensures failure { IfErr result (IsFailureAmong (asked_at labels.now config.now.routes) cache.old cache.new) }
    ensures untouched { All IsSome known.now → cache.new ≡ cache.old }
    ensures meaning { AreRefusedRightly cache.new.refused (patterns_of (asked_at labels.now config.now.routes))
        → IfErr result (λ failure. failure ≡ Failure.OutOfMemory) }
{
    let mut found = Vec::new(alloc);
    if let Some((_root, within)) = config.routes().split_first() {
        enter(alloc, within, known, 0, labels, cache, &mut found)?;
    }
    Ok(found)
}

// Adds the routes of the labels among sibling routes and those within them, where `first` is the number
// of the first of them.
#[cycle(walk)]
fn walk(
    alloc: Global,
    nodes: &[Node<Route>],
    known: &[Option<bool>],
    first: usize,
    labels: &LabelSet,
    cache: &mut PatternCache,
    found: &mut Vec<RouteId>,
) -> Result<(), Failure<PatternRefusal>>
    requires forest { IsForest nodes.now }
    requires known { AreKnown labels.now nodes.now first known.now }
    requires few { first + length nodes.now ≤ 2 ^ 62 }
    ensures routes { OnOk result (found.new.items
        ≡ found.old.items ++ routes_among labels.now first (forest_of nodes.now)) }
    ensures asked { Asked result cache.old cache.new }
    ensures failure { IfErr result (IsFailureAmong (asked_among labels.now (forest_of nodes.now)) cache.old cache.new) }
    ensures untouched { All IsSome known.now → cache.new ≡ cache.old }
{
    let mut rest = nodes;
    let mut number = first;
    'sibling: while let Some((node, behind)) = rest.split_first() {
        let (within, after) = behind.split_at(node.within);
        if takes(alloc, &node.item, known[number], labels, cache)? {
            enter(alloc, within, known, number, labels, cache, found)?;
            if !node.item.goes_on {
                break;
            }
        }
        number += 1 + node.within;
        rest = after;
    }
    Ok(())
}

// Adds the routes of the labels below the route of this number, or that route where there is none.
#[cycle(walk)]
fn enter(
    alloc: Global,
    within: &[Node<Route>],
    known: &[Option<bool>],
    number: usize,
    labels: &LabelSet,
    cache: &mut PatternCache,
    found: &mut Vec<RouteId>,
) -> Result<(), Failure<PatternRefusal>>
    requires forest { IsForest within.now }
    requires known { AreKnown labels.now within.now (number + 1) known.now }
    requires few { number + 1 + length within.now ≤ 2 ^ 62 }
    ensures routes { OnOk result (found.new.items
        ≡ found.old.items ++ routes_within labels.now number (forest_of within.now)) }
    ensures asked { Asked result cache.old cache.new }
    ensures failure { IfErr result (IsFailureAmong (asked_among labels.now (forest_of within.now)) cache.old cache.new) }
    ensures untouched { All IsSome known.now → cache.new ≡ cache.old }
{
    let before = found.len();
    walk(alloc, within, known, number + 1, labels, cache, found)?;
    if found.len() == before {
        found.push(RouteId::new(number))?;
    }
    Ok(())
}

// Whether the route takes the labels: its matchers are asked where that isn't known.
fn takes(
    alloc: Global,
    route: &Route,
    known: Option<bool>,
    labels: &LabelSet,
    cache: &mut PatternCache,
) -> Result<bool, Failure<PatternRefusal>>
    requires known { ForSome known (λ taken. taken ≡ route_takes route.now labels.now) }
    ensures value { IfOk result (λ taken. taken ≡ route_takes route.now labels.now) }
    ensures asked { Asked result cache.old cache.new }
    ensures failure { IfErr result (IsFailureAmong (asked_of labels.now route.now.matchers) cache.old cache.new) }
    ensures untouched { IsSome known → cache.new ≡ cache.old }
{
    match known {
        Some(taken) => Ok(taken),
        None => takes_all(alloc, route.matchers.as_slice(), labels, cache),
    }
}

// Whether each of these matchers takes the labels.
fn takes_all(
    alloc: Global,
    matchers: &[Matcher],
    labels: &LabelSet,
    cache: &mut PatternCache,
) -> Result<bool, Failure<PatternRefusal>>
    ensures value { IfOk result (λ taken. taken ≡ all_take matchers.now labels.now) }
    ensures asked { Asked result cache.old cache.new }
    ensures failure { IfErr result (IsFailureAmong (asked_of labels.now matchers.now) cache.old cache.new) }
{
    for matcher in matchers {
        if !matcher.matches(alloc, labels, cache)? {
            return Ok(false);
        }
    }
    Ok(true)
}
