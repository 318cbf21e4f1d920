//! The list of a posted body.

ghost use Rattle.std.specs.Prelude.{◌≡◌};
ghost use Rattle.serde_json.specs.View.{view, items_view};
ghost use Rattle.am_text.specs.Outcome.{Gives};
ghost use Rattle.am_alert.specs.Posted.{completed, judged, alert_of, alerts_of, posted};

use crate::fields::written_of;
use crate::refusal::PostedRefusal;
use crate::written::Written;
use am_item::Alert;
use am_json::{read_json, take_list};
use am_text::{Failure, Moment, refuse_as};
use serde_json::Value;
use std::alloc::Global;

/// The alerts of a posted body, in its order, at a moment. An alert without an end ends `resolve_timeout`
/// milliseconds after the moment. The first alert that is refused refuses all of the list.
#[tactic(auto, unfolding(crate::specs::Posted::posted))]
pub fn read_posted(
    alloc: Global,
    body: &[u8],
    moment: Moment,
    resolve_timeout: u64,
) -> Result<Vec<Alert>, Failure<PostedRefusal>>
    ensures { Gives (λ v. v.items) result (posted moment resolve_timeout body.now) }
{
    let value = refuse_as(read_json(alloc, body), PostedRefusal::BadForm)?;
    let values = refuse_as(take_list(value), PostedRefusal::BadForm)?;
    alerts_of(alloc, values, moment, resolve_timeout)
}

#[tactic(auto, unfolding(crate::specs::Posted::alerts_of))]
fn alerts_of(
    alloc: Global,
    values: Vec<Value>,
    moment: Moment,
    resolve_timeout: u64,
) -> Result<Vec<Alert>, Failure<PostedRefusal>>
    ensures { Gives (λ v. v.items) result (alerts_of moment resolve_timeout (items_view values.items)) }
{
    let mut alerts = Vec::with_capacity(alloc, values.len())?;
    for value in values {
        alerts.push(alert_of(alloc, value, moment, resolve_timeout)?)?;
    }
    Ok(alerts)
}

#[tactic(auto, unfolding(crate::specs::Posted::alert_of))]
fn alert_of(
    alloc: Global,
    value: Value,
    moment: Moment,
    resolve_timeout: u64,
) -> Result<Alert, Failure<PostedRefusal>>
    ensures { Gives (λ a. a) result (alert_of moment resolve_timeout (view value)) }
{
    let written = refuse_as(written_of(alloc, value), PostedRefusal::BadForm)?;
    judged(completed(written, moment, resolve_timeout))
}

fn completed(written: Written, moment: Moment, resolve_timeout: u64) -> Alert
    ensures { result ≡ completed moment resolve_timeout written }
{
    let starts_at = written
        .starts_at
        .unwrap_or(written.ends_at.unwrap_or(moment));
    let ends_at = written.ends_at.unwrap_or(moment.plus(resolve_timeout));
    Alert {
        labels: written.labels,
        annotations: written.annotations,
        starts_at,
        ends_at,
        generator_url: written.generator_url,
    }
}

fn judged(alert: Alert) -> Result<Alert, Failure<PostedRefusal>>
    ensures { Gives (λ a. a) result (judged alert) }
{
    if alert.labels.is_empty() {
        return Err(Failure::Refused(PostedRefusal::NoLabels));
    }
    if alert.ends_at < alert.starts_at {
        return Err(Failure::Refused(PostedRefusal::EndsBeforeStart));
    }
    Ok(alert)
}
