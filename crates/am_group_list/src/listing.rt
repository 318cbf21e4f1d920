//! The list of groups.

ghost use Rattle.std.specs.Prelude.{◌≡◌, ◌∷◌, ◌++◌, ℕ, [], List, All, IfErr, IfOk, OnErr, OnOk, length, map};
ghost use Rattle.std.specs.BTreeMap.{IsOrdered};
ghost use Rattle.std.specs.List.{range_with_len};
ghost use Rattle.std.specs.Option.{ForSome, option_to_list};
ghost use Rattle.am_text.specs.Outcome.{ForRefused};
ghost use Rattle.am_pattern.specs.Asking.{Asked};
ghost use Rattle.am_pattern.specs.Taking.{IsPattern};
ghost use Rattle.am_match.specs.Matchers.{patterns_of};
ghost use Rattle.am_query.specs.Patterns.{patterns_asked};
ghost use Rattle.am_muting.specs.Failing.{AddsAmong};
ghost use Rattle.am_listing.specs.Failing.{IsUnanswered, patterns_in_use};
ghost use Rattle.am_listing.specs.Receivers.{is_asked};
ghost use Rattle.am_payload.specs.declared.groups.ReadGroup.{ReadGroup};
ghost use Rattle.am_group_list.specs.Groups.{listed_cmp, receiver_name};
ghost use Rattle.am_group_list.specs.Places.{places_by, read_of, written_by};
ghost use Rattle.am_group_list.specs.Written.{groups_text};

use crate::group::ListedGroup;
use crate::grouping::grouped;
use am_config::Config;
use am_item::Held;
use am_listing::{RoutedAlert, Unanswered, is_asked, passed_alerts, read_alerts};
use am_pattern::PatternCache;
use am_payload::{ReadGroup, groups_json};
use am_query::Query;
use am_text::{Failure, Listed, Moment, Octets, Text};
use std::alloc::{AllocError, Global};
use std::collections::BTreeMap;

/// The JSON list of the groups of the alerts that fire at a moment and that a query lets through and takes, in the order of
/// their receivers' names, then of their labels, then of their routes. A group has those of the alerts that have its route
/// and its labels, as the list of alerts writes them and in their order; one without any isn't listed. Where the query asks
/// for a receiver, it has to take the group's.
///
/// Of the matchers, the silences, the inhibit rules, the routes and the receivers each pattern is built at most once,
/// however few the cache keeps. The groups are found by an ordered map of them.
///
/// # Errors
/// Whose pattern gave no answer: `Asked` for one of the query, `Stored` for one of the configuration or of an active
/// silence; or out of memory. Nothing but the cache changes.
pub fn list_groups(
    alloc: Global,
    query: &Query,
    held: &Held,
    config: &Config,
    moment: Moment,
    cache: &mut PatternCache,
) -> Result<Octets, Failure<Unanswered>>
    requires matchers { All IsPattern (patterns_of query.now.matchers) }
    requires receiver { ForSome query.now.receiver IsPattern }
    ensures text { IfOk result (λ o. o ≡ groups_text config.now query.now moment held.now) }
    ensures asked { Asked result cache.old cache.new }
    ensures adds { OnErr result (AddsAmong (patterns_asked query.now ++ patterns_in_use config.now moment held.now)
        cache.old.refused cache.new.refused) }
    ensures failure { IfErr result (λ failure. ForRefused failure
        (IsUnanswered cache.new.refused (patterns_asked query.now) (patterns_in_use config.now moment held.now))) }
{
    let alerts = passed_alerts(alloc, query, held, config, moment, cache)?;
    let asked = asked_routes(alloc, &query.receiver, config, cache)?;
    let groups = grouped(alloc, config, &asked, &alerts)?;
    let body = written(alloc, config, alerts, &groups)?;
    Ok(body)
}

// Of each route, by its number, whether its receiver is asked for.
fn asked_routes(
    alloc: Global,
    receiver: &Option<Text>,
    config: &Config,
    cache: &mut PatternCache,
) -> Result<Vec<bool>, Failure<Unanswered>>
    requires pattern { ForSome receiver.now IsPattern }
    ensures flags { IfOk result (λ v. v.items
        ≡ map (λ number. is_asked receiver.now (receiver_name config.now number ∷ []))
        (range_with_len 0 (length config.now.routes))) }
    ensures asked { Asked result cache.old cache.new }
    ensures adds { OnErr result (AddsAmong (option_to_list receiver.now) cache.old.refused cache.new.refused) }
    ensures failure { (stored : List (List ℕ)) → IfErr result (λ failure. ForRefused failure
        (IsUnanswered cache.new.refused (option_to_list receiver.now) stored)) }
{
    let count = config.routes().len();
    let mut asked = Vec::with_capacity(alloc, count)?;
    for number in 0..count {
        let name = &config.receiver_of(number).name;
        asked.push(is_asked(alloc, receiver, name, cache)?)?;
    }
    Ok(asked)
}

// The groups with these alerts at their places.
fn written(
    alloc: Global,
    config: &Config,
    alerts: Vec<RoutedAlert<'_>>,
    groups: &BTreeMap<ListedGroup, Vec<usize>>,
) -> Result<Octets, AllocError>
    ensures text { IfOk result (λ o. o ≡ written_by config.now alerts.entry.items (places_by groups.now.entries)) }
    ensures ordered { OnOk result (IsOrdered listed_cmp groups.now) }
{
    let read = read_alerts(alloc, alerts)?;
    let groups = read_groups(alloc, groups)?;
    groups_json(alloc, config, &read, &groups)
}

// The groups as they are written.
fn read_groups<'a>(
    alloc: Global,
    groups: &'a BTreeMap<ListedGroup, Vec<usize>>,
) -> Result<Vec<ReadGroup<'a>>, AllocError>
    ensures read { IfOk result (λ v. map (λ (g : ReadGroup). (g.receiver.now, (g.labels.now, g.alerts))) v.items
        ≡ map read_of (places_by groups.now.entries)) }
    ensures ordered { OnOk result (IsOrdered listed_cmp groups.now) }
{
    let mut read = Vec::with_capacity(alloc, groups.len())?;
    for (group, places) in groups {
        read.push(ReadGroup {
            receiver: &group.receiver,
            labels: &group.labels,
            alerts: Listed::from_vec(Vec::from_slice(alloc, places.as_slice())?),
        })?;
    }
    Ok(read)
}
