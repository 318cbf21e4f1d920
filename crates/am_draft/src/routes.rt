//! The tree of routes, read into one flat list.

ghost use Rattle.std.specs.Prelude.{◌≡◌};
ghost use Rattle.serde_json.specs.View.{view, items_view, members_view};
ghost use Rattle.am_text.specs.Outcome.{Gives};
ghost use Rattle.am_draft.specs.Routes.{deeper, grown, grown_by_tree, routes_below, routes_in, routes_of, tree_in};

use crate::route::{RouteDraft, route_of};
use am_json::JsonRefusal;
use am_text::{Failure, Node, count_within};
use serde_json::{Map, Value};
use std::alloc::Global;

/// Adds a route and those within it to the list.
#[cycle(routes)]
pub(crate) fn push_tree(
    alloc: Global,
    value: &Value,
    depth: usize,
    routes: &mut Vec<Node<RouteDraft>>,
) -> Result<(), Failure<JsonRefusal>>
    ensures { Gives (λ _. routes.new.items) result (grown_by_tree routes.old.items (tree_in depth (view value.now))) }
{
    match value {
        Value::Object(members) => {
            let item = route_of(alloc, value, depth)?;
            let number = routes.len();
            routes.push(Node { item, within: 0 })?;
            push_below(alloc, members, deeper(depth), routes)?;
            count_within(routes, number);
            Ok(())
        }
        Value::Null => Err(Failure::Refused(JsonRefusal::BadForm)),
        Value::Bool(_) => Err(Failure::Refused(JsonRefusal::BadForm)),
        Value::Number(_) => Err(Failure::Refused(JsonRefusal::BadForm)),
        Value::String(_) => Err(Failure::Refused(JsonRefusal::BadForm)),
        Value::Array(_) => Err(Failure::Refused(JsonRefusal::BadForm)),
    }
}

// Adds the routes that stand within an object of these members.
#[cycle(routes)]
fn push_below(
    alloc: Global,
    members: &Map<String, Value>,
    depth: usize,
    routes: &mut Vec<Node<RouteDraft>>,
) -> Result<(), Failure<JsonRefusal>>
    ensures { Gives (λ _. routes.new.items) result
        (grown routes.old.items (routes_below depth (members_view members.now.entries))) }
{
    for (key, value) in members.iter() {
        if key.as_str() == "routes" {
            return push_listed(alloc, value, depth, routes);
        }
    }
    Ok(())
}

// Adds the routes of a list.
#[cycle(routes)]
fn push_listed(
    alloc: Global,
    value: &Value,
    depth: usize,
    routes: &mut Vec<Node<RouteDraft>>,
) -> Result<(), Failure<JsonRefusal>>
    ensures { Gives (λ _. routes.new.items) result (grown routes.old.items (routes_in depth (view value.now))) }
{
    match value {
        Value::Array(items) => push_each(alloc, items, depth, routes),
        Value::Null => Err(Failure::Refused(JsonRefusal::BadForm)),
        Value::Bool(_) => Err(Failure::Refused(JsonRefusal::BadForm)),
        Value::Number(_) => Err(Failure::Refused(JsonRefusal::BadForm)),
        Value::String(_) => Err(Failure::Refused(JsonRefusal::BadForm)),
        Value::Object(_) => Err(Failure::Refused(JsonRefusal::BadForm)),
    }
}

#[cycle(routes)]
fn push_each(
    alloc: Global,
    items: &Vec<Value>,
    depth: usize,
    routes: &mut Vec<Node<RouteDraft>>,
) -> Result<(), Failure<JsonRefusal>>
    ensures { Gives (λ _. routes.new.items) result
        (grown routes.old.items (routes_of depth (items_view items.now.items))) }
{
    for item in items {
        push_tree(alloc, item, depth, routes)?;
    }
    Ok(())
}

// The depth within a route of this depth. JSON nests at most 127 deep, so it never saturates.
fn deeper(depth: usize) -> usize
    ensures { result ≡ deeper depth }
{
    depth.saturating_add(1)
}
