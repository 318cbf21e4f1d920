//! What receivers and their webhooks say.

ghost use Rattle.std.specs.Prelude.{[], codes};
ghost use Rattle.serde_json.specs.Find.{get};
ghost use Rattle.serde_json.specs.View.{view, items_view};
ghost use Rattle.am_text.specs.Outcome.{Gives};
ghost use Rattle.am_json.specs.Reading.{optional, required};
ghost use Rattle.am_draft.specs.Receivers.{webhook_of, webhooks_of, webhooks_in, receiver_of, receivers_of, receivers_in};

use crate::keys::{Place, leaves_out};
use am_json::{JsonRefusal, count_at, flag_at, list_in, text_at};
use am_text::{Failure, Listed, Text};
use serde_json::Value;
use std::alloc::Global;

/// A webhook as it is written.
#[derive(Drop)]
pub struct WebhookDraft {
    /// Where notices are sent to.
    pub url: Text,
    /// Whether resolved alerts are told too, which is `true` where the key is absent.
    pub send_resolved: bool,
    /// The most alerts of a notice, 0 for any number, which holds where the key is absent.
    pub max_alerts: u64,
    /// Whether one of its keys is left out.
    pub left_out: bool,
}

/// A receiver as it is written.
#[derive(Drop)]
pub struct ReceiverDraft {
    /// Its name, which may be empty.
    pub name: Text,
    /// Its webhooks in the order in which they are written; none where the key is absent.
    pub webhooks: Listed<WebhookDraft>,
    /// Whether one of its keys is left out.
    pub left_out: bool,
}

/// The receivers at a key that must be there.
pub(crate) fn receivers_at(
    alloc: Global,
    value: &Value,
    key: &str,
) -> Result<Listed<ReceiverDraft>, Failure<JsonRefusal>>
    ensures { Gives (λ l. l) result (required receivers_in (get key.now (view value.now))) }
{
    match value.get(key) {
        None => Err(Failure::Refused(JsonRefusal::BadForm)),
        Some(found) => receivers_in(alloc, found),
    }
}

fn receivers_in(alloc: Global, value: &Value) -> Result<Listed<ReceiverDraft>, Failure<JsonRefusal>>
    ensures { Gives (λ l. l) result (receivers_in (view value.now)) }
{
    let values = list_in(value)?;
    Ok(Listed::from_vec(receivers_of(alloc, values)?))
}

#[tactic(auto, unfolding(crate::specs::Receivers::receivers_of))]
fn receivers_of(alloc: Global, values: &[Value]) -> Result<Vec<ReceiverDraft>, Failure<JsonRefusal>>
    ensures { Gives (λ v. v.items) result (receivers_of (items_view values.now)) }
{
    let mut receivers = Vec::with_capacity(alloc, values.len())?;
    for value in values {
        receivers.push(receiver_of(alloc, value)?)?;
    }
    Ok(receivers)
}

#[tactic(auto, unfolding(crate::specs::Receivers::receiver_of))]
fn receiver_of(alloc: Global, value: &Value) -> Result<ReceiverDraft, Failure<JsonRefusal>>
    ensures { Gives (λ r. r) result (receiver_of (view value.now)) }
{
    let left_out = leaves_out(value, Place::Receiver)?;
    let name = text_at(alloc, value, "name")?;
    let webhooks = webhooks_at(alloc, value)?;
    Ok(ReceiverDraft {
        name,
        webhooks,
        left_out,
    })
}

fn webhooks_at(alloc: Global, value: &Value) -> Result<Listed<WebhookDraft>, Failure<JsonRefusal>>
    ensures { Gives (λ l. l) result (optional [] webhooks_in (get (codes "webhook_configs") (view value.now))) }
{
    match value.get("webhook_configs") {
        None => Ok(Listed::from_vec(Vec::new(alloc))),
        Some(found) => webhooks_in(alloc, found),
    }
}

fn webhooks_in(alloc: Global, value: &Value) -> Result<Listed<WebhookDraft>, Failure<JsonRefusal>>
    ensures { Gives (λ l. l) result (webhooks_in (view value.now)) }
{
    let values = list_in(value)?;
    Ok(Listed::from_vec(webhooks_of(alloc, values)?))
}

#[tactic(auto, unfolding(crate::specs::Receivers::webhooks_of))]
fn webhooks_of(alloc: Global, values: &[Value]) -> Result<Vec<WebhookDraft>, Failure<JsonRefusal>>
    ensures { Gives (λ v. v.items) result (webhooks_of (items_view values.now)) }
{
    let mut webhooks = Vec::with_capacity(alloc, values.len())?;
    for value in values {
        webhooks.push(webhook_of(alloc, value)?)?;
    }
    Ok(webhooks)
}

#[tactic(auto, unfolding(crate::specs::Receivers::webhook_of))]
fn webhook_of(alloc: Global, value: &Value) -> Result<WebhookDraft, Failure<JsonRefusal>>
    ensures { Gives (λ w. w) result (webhook_of (view value.now)) }
{
    let left_out = leaves_out(value, Place::Webhook)?;
    let url = text_at(alloc, value, "url")?;
    let send_resolved = flag_at(value, "send_resolved", true)?;
    let max_alerts = count_at(value, "max_alerts")?;
    Ok(WebhookDraft {
        url,
        send_resolved,
        max_alerts,
        left_out,
    })
}
