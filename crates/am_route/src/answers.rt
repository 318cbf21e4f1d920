//! The answers of routes to many label sets.

ghost use Rattle.std.specs.Prelude.{◌≡◌, ◌+◌, ◌<◌, ◌≤◌, All, Some, IfErr, IfOk, false, get_or, length, map};
ghost use Rattle.am_text.specs.declared.tree.Node.{Node};
ghost use Rattle.am_pattern.specs.Asking.{Asked};
ghost use Rattle.am_match.specs.Asking.{IsFailureAmong};
ghost use Rattle.am_match.specs.Matchers.{patterns_of};
ghost use Rattle.am_config.specs.declared.parts.Route.{Route};
ghost use Rattle.am_route.specs.Asked.{route_matchers};
ghost use Rattle.am_route.specs.Routes.{route_takes};

use am_config::Route;
use am_labels::LabelSet;
use am_match::Matcher;
use am_pattern::{PatternCache, PatternRefusal};
use am_table::taken_by_each;
use am_text::{Failure, Node};
use std::alloc::{AllocError, Global};

/// For each of the routes, which of the label sets it takes.
///
/// # Errors
///
/// Those of [`Matcher::matches`] for a matcher of the routes.
pub fn answers_of(
    alloc: Global,
    routes: &[Node<Route>],
    sets: &[&LabelSet],
    cache: &mut PatternCache,
) -> Result<Vec<Vec<bool>>, Failure<PatternRefusal>>
    ensures table { IfOk result (λ v. map (λ row. row.items) v.items
        ≡ map (λ (node : Node Route). map (λ set. route_takes node.item set.now) sets.now) routes.now) }
    ensures asked { Asked result cache.old cache.new }
    ensures misses { cache.new.misses ≤ cache.old.misses + length (patterns_of (route_matchers routes.now)) }
    ensures failure { IfErr result (IsFailureAmong (route_matchers routes.now) cache.old cache.new) }
{
    let lists = matchers_of(alloc, routes)?;
    let table = taken_by_each(alloc, &lists, sets, cache)?;
    Ok(table)
}

// The matchers of each of the routes.
fn matchers_of<'a>(
    alloc: Global,
    routes: &'a [Node<Route>],
) -> Result<Vec<&'a [Matcher]>, AllocError>
    ensures { IfOk result (λ v. map (λ list. list.now) v.items ≡ map (λ (node : Node Route). node.item.matchers) routes.now) }
{
    let mut lists = Vec::with_capacity(alloc, routes.len())?;
    for node in routes {
        lists.push(node.item.matchers.as_slice())?;
    }
    Ok(lists)
}

/// What each row of a table has at this place.
pub fn known_at(
    alloc: Global,
    table: &[Vec<bool>],
    place: usize,
) -> Result<Vec<Option<bool>>, AllocError>
    requires { All (λ row. place < length row.items) table.now }
    ensures { IfOk result (λ v. v.items ≡ map (λ row. Some (get_or row.items place false)) table.now) }
{
    let mut known = Vec::new(alloc);
    for row in table {
        known.push(Some(row[place]))?;
    }
    Ok(known)
}
