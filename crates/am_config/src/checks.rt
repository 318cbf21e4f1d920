//! The checks that a draft passes or fails.

ghost use Rattle.std.specs.Prelude.{◌≡◌, ◌==◌, length};
ghost use Rattle.std.specs.List.{list_all};
ghost use Rattle.am_config.specs.Checks.{are_receivers_few, are_routes_few, counts_fit, has_few_webhooks, has_listed, have_listed, is_in_depth, is_root_bare};

use crate::named::NamedReceivers;
use am_draft::{Draft, ReceiverDraft, RouteDraft};
use am_text::{Node, Text};

/// The most routes of a configuration, with the root.
const MOST_ROUTES: usize = 1000;
/// The depth of the deepest route, where the root's is 1.
const DEEPEST: usize = 16;
/// The most receivers of a configuration.
const MOST_RECEIVERS: usize = 1000;
/// The most webhooks of a receiver.
const MOST_WEBHOOKS: usize = 16;

/// Whether each receiver that a route names is listed.
pub(crate) fn are_listed(receivers: &NamedReceivers, routes: &[Node<RouteDraft>]) -> bool
    ensures { result ≡ have_listed receivers.now routes.now }
{
    routes
        .iter()
        .all(|node| has_listed(receivers, &node.item.receiver))
}

// Whether the receiver is listed; without one the route has that of the route around it.
#[tactic(auto, using(crate::proofs::Placed::listed))]
fn has_listed(receivers: &NamedReceivers, name: &Option<Text>) -> bool
    ensures { result ≡ has_listed receivers.now name.now }
{
    match name {
        None => true,
        Some(name) => receivers.place(name.as_str()).is_some(),
    }
}

/// Whether the root has no matchers.
#[tactic(auto, unfolding(crate::specs::Checks::is_root_bare))]
pub(crate) fn is_root_bare(routes: &[Node<RouteDraft>]) -> bool
    ensures { result ≡ is_root_bare routes.now }
{
    match routes.first() {
        None => true,
        Some(root) => root.item.matchers.as_slice().is_empty(),
    }
}

/// Whether no count is past its limit.
#[tactic(auto, unfolding(crate::specs::Checks::counts_fit))]
pub(crate) fn counts_fit(draft: &Draft) -> bool
    ensures { result ≡ counts_fit draft.now }
{
    are_routes_few(draft.routes.as_slice()) && are_receivers_few(draft.receivers.as_slice())
}

fn are_routes_few(routes: &[Node<RouteDraft>]) -> bool
    ensures { result ≡ are_routes_few routes.now }
{
    routes.len() <= MOST_ROUTES && are_in_depth(routes)
}

fn are_in_depth(routes: &[Node<RouteDraft>]) -> bool
    ensures { result ≡ list_all is_in_depth routes.now }
{
    routes.iter().all(|node| node.item.depth <= DEEPEST)
}

fn are_receivers_few(receivers: &[ReceiverDraft]) -> bool
    ensures { result ≡ are_receivers_few receivers.now }
{
    receivers.len() <= MOST_RECEIVERS && have_few_webhooks(receivers)
}

fn have_few_webhooks(receivers: &[ReceiverDraft]) -> bool
    ensures { result ≡ list_all has_few_webhooks receivers.now }
{
    receivers.iter().all(|receiver| has_few_webhooks(receiver))
}

fn has_few_webhooks(receiver: &ReceiverDraft) -> bool
    ensures { result ≡ has_few_webhooks receiver.now }
{
    receiver.webhooks.as_slice().len() <= MOST_WEBHOOKS
}
