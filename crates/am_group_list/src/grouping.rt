//! Which alerts are in which groups.

ghost use Rattle.std.specs.Prelude.{◌≡◌, ◌∷◌, ◌++◌, ◌<◌, ℕ, [], false, List, All, IfOk, OnOk, filter, get_or, length};
ghost use Rattle.std.specs.Prelude.{map};
ghost use Rattle.am_listing.specs.declared.receivers.RoutedAlert.{RoutedAlert};
ghost use Rattle.am_members.specs.declared.group.Group.{Group};
ghost use Rattle.am_group_list.specs.Groups.{listed_group};
ghost use Rattle.am_group_list.specs.Places.{AreGrouped, groups_flagged, places_by, places_from};
ghost use Rattle.am_group_list.specs.declared.group.ListedGroup.{ListedGroup};

use crate::group::ListedGroup;
use am_config::Config;
use am_group::groups_by;
use am_listing::RoutedAlert;
use am_members::Group;
use am_route::RouteId;
use std::alloc::{AllocError, Global};
use std::collections::BTreeMap;

/// The groups of these alerts by those of their routes whose flag is set, by number, each with the places of its alerts
/// among these.
pub(crate) fn grouped(
    alloc: Global,
    config: &Config,
    asked: &[bool],
    alerts: &[RoutedAlert<'_>],
) -> Result<BTreeMap<ListedGroup, Vec<usize>>, AllocError>
    requires flags { length asked.now ≡ length config.now.routes }
    requires routes { All (λ (r : RoutedAlert). All (λ id. id < length config.now.routes) r.routes) alerts.now }
    ensures { IfOk result (λ m. AreGrouped (places_by m.entries)
        (places_from 0 (map (groups_flagged config.now asked.now) alerts.now))) }
{
    let mut grouped = BTreeMap::new(alloc);
    for (place, alert) in alerts.iter().enumerate() {
        let groups = groups_of(alloc, config, asked, alert)?;
        put_all(alloc, &mut grouped, groups, place)?;
    }
    Ok(grouped)
}

// The groups of an alert, in the order of its routes.
fn groups_of(
    alloc: Global,
    config: &Config,
    asked: &[bool],
    alert: &RoutedAlert<'_>,
) -> Result<Vec<ListedGroup>, AllocError>
    requires flags { length asked.now ≡ length config.now.routes }
    requires routes { All (λ id. id < length config.now.routes) alert.now.routes }
    ensures { IfOk result (λ v. v.items ≡ groups_flagged config.now asked.now alert.now) }
{
    let routes = flagged(alloc, asked, alert.routes.as_slice())?;
    let groups = groups_by(alloc, config, alert.alert.alert.labels, &routes)?;
    listed(alloc, config, groups)
}

// Those of the routes whose flag is set.
fn flagged(alloc: Global, asked: &[bool], routes: &[RouteId]) -> Result<Vec<RouteId>, AllocError>
    requires { All (λ id. id < length asked.now) routes.now }
    ensures { IfOk result (λ v. v.items ≡ filter (λ route. get_or asked.now route false) routes.now) }
{
    let mut kept = Vec::new(alloc);
    for route in routes {
        if asked[route.number()] {
            kept.push(*route)?;
        }
    }
    Ok(kept)
}

// The groups as they are listed.
fn listed(
    alloc: Global,
    config: &Config,
    groups: Vec<Group>,
) -> Result<Vec<ListedGroup>, AllocError>
    requires { All (λ (g : Group). g.route < length config.now.routes) groups.items }
    ensures { IfOk result (λ v. v.items ≡ map (listed_group config.now) groups.items) }
{
    let mut listed = Vec::with_capacity(alloc, groups.len())?;
    for group in groups {
        listed.push(listed_group(alloc, config, group)?)?;
    }
    Ok(listed)
}

fn listed_group(alloc: Global, config: &Config, group: Group) -> Result<ListedGroup, AllocError>
    requires { group.route < length config.now.routes }
    ensures { IfOk result (λ g. g ≡ listed_group config.now group) }
{
    let Group { route, labels } = group;
    Ok(ListedGroup {
        receiver: config.receiver_of(route).name.copy(alloc)?,
        labels,
        route,
    })
}

// The alert at this place comes to these groups.
fn put_all(
    alloc: Global,
    grouped: &mut BTreeMap<ListedGroup, Vec<usize>>,
    groups: Vec<ListedGroup>,
    place: usize,
) -> Result<(), AllocError>
    ensures { (pairs : List (ListedGroup × ℕ)) → AreGrouped (places_by grouped.old.entries) pairs →
        OnOk result (AreGrouped (places_by grouped.new.entries) (pairs ++ map (λ g. (g, place)) groups.items)) }
{
    for group in groups {
        put(alloc, grouped, group, place)?;
    }
    Ok(())
}

// It comes to one group, behind the others.
fn put(
    alloc: Global,
    grouped: &mut BTreeMap<ListedGroup, Vec<usize>>,
    group: ListedGroup,
    place: usize,
) -> Result<(), AllocError>
    ensures { (pairs : List (ListedGroup × ℕ)) → AreGrouped (places_by grouped.old.entries) pairs →
        OnOk result (AreGrouped (places_by grouped.new.entries) (pairs ++ (group, place) ∷ [])) }
{
    let places = grouped.entry(group)?.or_insert(Vec::new(alloc));
    places.push(place)?;
    Ok(())
}
