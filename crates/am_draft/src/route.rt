//! What one route says.

ghost use Rattle.std.specs.Prelude.{◌≡◌, None, codes};
ghost use Rattle.serde_json.specs.Find.{get};
ghost use Rattle.serde_json.specs.View.{view};
ghost use Rattle.am_text.specs.Outcome.{Gives};
ghost use Rattle.am_json.specs.Reading.{optional};
ghost use Rattle.am_draft.specs.Routes.{is_all, grouped, grouping_in, intervals_of, route_of};

use crate::keys::{Place, leaves_out};
use crate::names::named;
use am_json::{JsonRefusal, flag_at, optional_text_at, texts_at, texts_in};
use am_text::{Failure, Listed, Text};
use serde_json::Value;
use std::alloc::Global;

/// The labels by which a route groups alerts.
#[derive(Drop)]
pub enum Grouping {
    /// All labels: `["..."]`.
    All,
    /// The labels of these names, each a label name, in the order in which they are written.
    Names(Listed<Text>),
}

/// The durations of a route as they are written, `None` where they aren't.
#[derive(Drop)]
pub struct Intervals {
    /// How long a new group waits for its first notice.
    pub group_wait: Option<Text>,
    /// How long a group waits between two notices.
    pub group_interval: Option<Text>,
    /// How long it is until a notice that says nothing new.
    pub repeat_interval: Option<Text>,
}

/// A route as it is written, apart from the routes within it.
#[derive(Drop)]
pub struct RouteDraft {
    /// How deep it stands: 1 for the root, and one more within each route.
    pub depth: usize,
    /// The name of its receiver.
    pub receiver: Option<Text>,
    /// `group_by`.
    pub grouping: Option<Grouping>,
    /// Its durations.
    pub intervals: Intervals,
    /// The texts of its matchers; none where the key is absent.
    pub matchers: Listed<Text>,
    /// `continue`, which is `false` where it is absent.
    pub goes_on: bool,
    /// Whether one of its keys is left out.
    pub left_out: bool,
}

/// What a route says, apart from the routes within it.
#[tactic(auto, unfolding(crate::specs::Routes::route_of))]
pub(crate) fn route_of(
    alloc: Global,
    value: &Value,
    depth: usize,
) -> Result<RouteDraft, Failure<JsonRefusal>>
    ensures { Gives (λ r. r) result (route_of depth (view value.now)) }
{
    let left_out = leaves_out(value, Place::Route)?;
    let receiver = optional_text_at(alloc, value, "receiver")?;
    let grouping = grouping_at(alloc, value)?;
    let intervals = intervals_of(alloc, value)?;
    let matchers = texts_at(alloc, value, "matchers")?;
    let goes_on = flag_at(value, "continue", false)?;
    Ok(RouteDraft {
        depth,
        receiver,
        grouping,
        intervals,
        matchers,
        goes_on,
        left_out,
    })
}

#[tactic(auto, unfolding(crate::specs::Routes::intervals_of))]
fn intervals_of(alloc: Global, value: &Value) -> Result<Intervals, Failure<JsonRefusal>>
    ensures { Gives (λ i. i) result (intervals_of (view value.now)) }
{
    let group_wait = optional_text_at(alloc, value, "group_wait")?;
    let group_interval = optional_text_at(alloc, value, "group_interval")?;
    let repeat_interval = optional_text_at(alloc, value, "repeat_interval")?;
    Ok(Intervals {
        group_wait,
        group_interval,
        repeat_interval,
    })
}

fn grouping_at(alloc: Global, value: &Value) -> Result<Option<Grouping>, Failure<JsonRefusal>>
    ensures { Gives (λ g. g) result (optional None grouping_in (get (codes "group_by") (view value.now))) }
{
    match value.get("group_by") {
        None => Ok(None),
        Some(found) => Ok(Some(grouped(texts_in(alloc, found)?)?)),
    }
}

fn grouped(texts: Vec<Text>) -> Result<Grouping, Failure<JsonRefusal>>
    ensures { Gives (λ g. g) result (grouped texts.items) }
{
    if is_all(&texts) {
        return Ok(Grouping::All);
    }
    Ok(Grouping::Names(named(texts)?))
}

fn is_all(texts: &[Text]) -> bool
    ensures { result ≡ is_all texts.now }
{
    match texts {
        [text] => text.as_str() == "...",
        _ => false,
    }
}
