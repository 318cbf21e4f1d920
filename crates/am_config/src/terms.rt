//! What a draft's routes say themselves, with names and durations read.

ghost use Rattle.std.specs.Prelude.{◌≡◌};
ghost use Rattle.am_text.specs.Outcome.{Gives};
ghost use Rattle.am_config.specs.Terms.{duration_in, own_in, owns_in, place_of, span_in, terms_in};

use crate::named::NamedReceivers;
use am_draft::{Draft, RouteDraft};
use am_text::{Failure, Listed, Node, Text, TextRefusal, read_duration};
use std::alloc::Global;

/// The shortest `group_interval` and `repeat_interval`, in milliseconds.
const SHORTEST_INTERVAL: u64 = 1000;
/// How long an alert without an end fires where nothing is written, in milliseconds: 5 minutes.
pub(crate) const DEFAULT_RESOLVE_TIMEOUT: u64 = 300_000;

/// What a route says itself; `None` where it says nothing.
#[derive(Clone, Copy)]
pub(crate) struct Own {
    /// The place of its receiver in the draft's list.
    pub receiver: Option<usize>,
    /// Whether it has a `group_by`.
    pub is_grouped: bool,
    /// Its durations in milliseconds.
    pub group_wait: Option<u64>,
    pub group_interval: Option<u64>,
    pub repeat_interval: Option<u64>,
}

/// What is read of a draft before its matchers. Each duration is read once, here.
#[derive(Drop)]
pub(crate) struct Terms {
    /// How long an alert without an end fires, in milliseconds.
    pub resolve_timeout: u64,
    /// What each route says itself.
    pub owns: Listed<Node<Own>>,
}

/// The terms of a draft, where these are its receivers.
///
/// # Errors
/// The refusal of the first duration that isn't read; `OutOfRange` for an interval that is too short too.
#[tactic(auto, unfolding(crate::specs::Terms::terms_in))]
pub(crate) fn terms_in(
    alloc: Global,
    draft: &Draft,
    receivers: &NamedReceivers,
) -> Result<Terms, Failure<TextRefusal>>
    requires { receivers.now ≡ draft.now.receivers }
    ensures { Gives (λ terms. terms) result (terms_in draft.now) }
{
    let written = span_in(&draft.global.resolve_timeout, 0)?;
    let owns = owns_in(alloc, receivers, draft.routes.as_slice())?;
    Ok(Terms {
        resolve_timeout: written.unwrap_or(DEFAULT_RESOLVE_TIMEOUT),
        owns: Listed::from_vec(owns),
    })
}

#[tactic(auto, unfolding(crate::specs::Terms::owns_in))]
fn owns_in(
    alloc: Global,
    receivers: &NamedReceivers,
    routes: &[Node<RouteDraft>],
) -> Result<Vec<Node<Own>>, Failure<TextRefusal>>
    ensures { Gives (λ owns. owns.items) result (owns_in receivers.now routes.now) }
{
    let mut owns = Vec::with_capacity(alloc, routes.len())?;
    for node in routes {
        let item = own_in(receivers, &node.item)?;
        owns.push(Node {
            item,
            within: node.within,
        })?;
    }
    Ok(owns)
}

#[tactic(auto, unfolding(crate::specs::Terms::own_in))]
fn own_in(receivers: &NamedReceivers, route: &RouteDraft) -> Result<Own, Failure<TextRefusal>>
    ensures { Gives (λ own. own) result (own_in receivers.now route.now) }
{
    let group_wait = span_in(&route.intervals.group_wait, 0)?;
    let group_interval = span_in(&route.intervals.group_interval, SHORTEST_INTERVAL)?;
    let repeat_interval = span_in(&route.intervals.repeat_interval, SHORTEST_INTERVAL)?;
    Ok(Own {
        receiver: place_of(receivers, &route.receiver),
        is_grouped: route.grouping.is_some(),
        group_wait,
        group_interval,
        repeat_interval,
    })
}

// The milliseconds of a duration, at least so many, where one is written.
fn span_in(text: &Option<Text>, least: u64) -> Result<Option<u64>, Failure<TextRefusal>>
    ensures { Gives (λ span. span) result (span_in least text.now) }
{
    match text {
        None => Ok(None),
        Some(text) => Ok(Some(duration_in(text.as_str(), least)?)),
    }
}

// The milliseconds of a duration, at least so many.
fn duration_in(text: &str, least: u64) -> Result<u64, Failure<TextRefusal>>
    ensures { Gives (λ span. span) result (duration_in least text.now) }
{
    match read_duration(text) {
        Err(refusal) => Err(Failure::Refused(refusal)),
        Ok(milliseconds) if least <= milliseconds => Ok(milliseconds),
        Ok(_) => Err(Failure::Refused(TextRefusal::OutOfRange)),
    }
}

// The place of the receiver that is named.
fn place_of(receivers: &NamedReceivers, name: &Option<Text>) -> Option<usize>
    ensures { result ≡ place_of receivers.now name.now }
{
    match name {
        None => None,
        Some(name) => receivers.place(name.as_str()),
    }
}
