//! The groups of an alert.

ghost use Rattle.std.specs.Prelude.{◌≡◌, ◌<◌, All, IfErr, IfOk, filter, length, map};
ghost use Rattle.am_labels.specs.Sets.{IsLabelSet};
ghost use Rattle.am_pattern.specs.Asking.{Asked};
ghost use Rattle.am_match.specs.Asking.{IsFailureAmong};
ghost use Rattle.am_match.specs.Checking.{AreRefusedRightly};
ghost use Rattle.am_match.specs.Matchers.{patterns_of};
ghost use Rattle.am_config.specs.Configuration.{grouping_of};
ghost use Rattle.am_route.specs.Asked.{asked_at};
ghost use Rattle.am_group.specs.Grouping.{group_by, groups_of, is_named, labels_by};

use am_config::Config;
use am_draft::Grouping;
use am_labels::{Label, LabelSet};
use am_members::Group;
use am_pattern::{PatternCache, PatternRefusal};
use am_route::{RouteId, routes_of};
use am_text::{Failure, Text};
use std::alloc::{AllocError, Global};

/// The groups of an alert with these labels, one for each of its routes, in their order.
///
/// A route groups by the alert's labels that its `group_by` names, by all for `...`, by none without one. A label that it
/// names and the alert lacks is left out.
///
/// # Errors
///
/// Those of [`routes_of`].
#[tactic(auto, unfolding(crate::specs::Grouping::groups_of))]
pub fn groups_of(
    alloc: Global,
    config: &Config,
    labels: &LabelSet,
    cache: &mut PatternCache,
) -> Result<Vec<Group>, Failure<PatternRefusal>>
    ensures groups { IfOk result (λ v. v.items ≡ groups_of config.now labels.now) }
    ensures asked { Asked result cache.old cache.new }
    ensures failure { IfErr result (IsFailureAmong (asked_at labels.now config.now.routes) cache.old cache.new) }

    // Where no build of a pattern that is asked was refused, nothing but memory can fail.
    ensures meaning { AreRefusedRightly cache.new.refused (patterns_of (asked_at labels.now config.now.routes))
        → IfErr result (λ failure. failure ≡ Failure.OutOfMemory) }
{
    let routes = routes_of(alloc, config, labels, cache)?;
    let groups = groups_by(alloc, config, labels, &routes)?;
    Ok(groups)
}

/// The groups of an alert with these labels by these routes, which are its own.
pub fn groups_by(
    alloc: Global,
    config: &Config,
    labels: &LabelSet,
    routes: &[RouteId],
) -> Result<Vec<Group>, AllocError>
    requires { All (λ id. id < length config.now.routes) routes.now }
    ensures { IfOk result (λ v. v.items ≡ map (group_by config.now labels.now) routes.now) }
{
    let mut groups = Vec::new(alloc);
    for id in routes {
        groups.push(group_by(alloc, config, labels, id.number())?)?;
    }
    Ok(groups)
}

// The group by one route.
fn group_by(
    alloc: Global,
    config: &Config,
    labels: &LabelSet,
    route: usize,
) -> Result<Group, AllocError>
    requires { route < length config.now.routes }
    ensures { IfOk result (λ group. group ≡ group_by config.now labels.now route) }
{
    let labels = match config.grouping_of(route) {
        None => set_of(alloc, Vec::new(alloc))?,
        Some(Grouping::All) => labels.copy()?,
        Some(Grouping::Names(names)) => named(alloc, labels, names.as_slice())?,
    };
    Ok(Group { route, labels })
}

// Those of the labels that have one of the names.
fn named(alloc: Global, labels: &LabelSet, names: &[Text]) -> Result<LabelSet, AllocError>
    ensures { IfOk result (λ set. set ≡ filter (is_named names.now) labels.now) }
{
    let mut kept = Vec::new(alloc);
    for label in labels.labels() {
        if is_named(names, label) {
            kept.push(label.copy(alloc)?)?;
        }
    }
    set_of(alloc, kept)
}

// Whether the label has one of the names.
fn is_named(names: &[Text], label: &Label) -> bool
    ensures { result ≡ is_named names.now label.now }
{
    names.iter().any(|name| *name == label.name)
}

// Labels that are a set, as one.
fn set_of(alloc: Global, labels: Vec<Label>) -> Result<LabelSet, AllocError>
    requires { IsLabelSet labels.items }
    ensures { IfOk result (λ set. set ≡ labels.items) }
{
    match LabelSet::from_pairs(alloc, labels) {
        Ok(set) => Ok(set),
        Err(Failure::OutOfMemory) => Err(AllocError),
        Err(Failure::Refused(_)) => unreachable!(),
    }
}
