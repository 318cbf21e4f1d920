//! The bodies of notices to webhooks.

ghost use Rattle.std.specs.Prelude.{◌≡◌, ◌++◌, IfOk, OnOk, codes, map};
ghost use Rattle.serde_json.specs.Data.{string};
ghost use Rattle.am_json.specs.Written.{data_tokens, member_tokens};
ghost use Rattle.am_alert.specs.HeldAlert.{held_alert};
ghost use Rattle.am_payload.specs.Told.{body_data, body_text, told_alerts};
ghost use Rattle.am_payload.specs.Webhook.{all_told_data, end_text, some_fires, status_name, told_data};

use crate::common::common_of;
use crate::key::group_key;
use crate::members::{pairs_member, string_member};
use am_alert::HeldAlert;
use am_json::JsonWriter;
use am_labels::LabelSet;
use am_text::{Listed, Octets, Text};
use std::alloc::{AllocError, Global};

const EXTERNAL_URL: &str = "http://localhost/alertmanager";

/// What stands for the end of an alert that fires.
const ABSENT_INSTANT: &str = "0001-01-01T00:00:00Z";

/// An alert that a webhook is told of.
#[derive(Drop)]
pub struct ToldAlert<'a> {
    /// The alert.
    pub alert: HeldAlert<'a>,
    /// Whether it fires at the flush; else it is resolved.
    pub fires: bool,
}

/// What a webhook is told of a group.
#[derive(Drop)]
pub struct WebhookBody<'a> {
    /// The name of the receiver.
    pub receiver: &'a Text,
    /// The number of the group's route.
    pub route: usize,
    /// The labels by which the group is named.
    pub labels: &'a LabelSet,
    /// The alerts that the webhook is told of, in the order of label sets.
    pub alerts: Listed<ToldAlert<'a>>,
    /// How many more alerts there are, which were left out.
    pub truncated: u64,
}

/// The JSON body of a notice. It is `firing` where one of its alerts fires, and the labels and annotations that all of its
/// alerts have stand once more as common ones.
pub fn webhook_json(alloc: Global, body: &WebhookBody<'_>) -> Result<Octets, AllocError>
    ensures { IfOk result (λ o. o ≡ body_text body.now) }
{
    let mut text = JsonWriter::new(alloc);
    put_body(alloc, &mut text, body)?;
    Ok(text.finish())
}

fn put_body(alloc: Global, text: &mut JsonWriter, body: &WebhookBody<'_>) -> Result<(), AllocError>
    ensures { OnOk result (text.new ≡ text.old ++ data_tokens (body_data body.now)) }
{
    let alerts = body.alerts.as_slice();
    let common = common_of(alloc, alerts)?;
    let key = group_key(alloc, body.route, body.labels)?;
    text.begin_object()?;
    text.key("alerts")?;
    put_all_told(text, alerts)?;
    pairs_member(text, "commonAnnotations", &common.annotations)?;
    pairs_member(text, "commonLabels", &common.labels)?;
    string_member(text, "externalURL", EXTERNAL_URL)?;
    text.text_member("groupKey", &key)?;
    text.labels_member("groupLabels", body.labels)?;
    text.text_member("receiver", body.receiver)?;
    string_member(text, "status", status_name(some_fires(alerts)))?;
    text.key("truncatedAlerts")?;
    text.number(body.truncated)?;
    string_member(text, "version", "4")?;
    text.end_object()
}

fn put_all_told(text: &mut JsonWriter, alerts: &[ToldAlert<'_>]) -> Result<(), AllocError>
    ensures { OnOk result (text.new ≡ text.old ++ data_tokens (all_told_data (told_alerts alerts.now))) }
{
    text.begin_array()?;
    for told in alerts {
        put_told(text, told)?;
    }
    text.end_array()
}

fn put_told(text: &mut JsonWriter, told: &ToldAlert<'_>) -> Result<(), AllocError>
    ensures { OnOk result (text.new ≡ text.old ++ data_tokens (told_data (held_alert told.now.alert) told.now.fires)) }
{
    let alert = &told.alert;
    let details = &alert.details.value;
    text.begin_object()?;
    text.annotations_member("annotations", &details.annotations)?;
    end_member(text, told)?;
    text.fingerprint_member("fingerprint", alert.labels)?;
    text.text_member("generatorURL", &details.generator_url)?;
    text.labels_member("labels", alert.labels)?;
    text.moment_member("startsAt", details.starts_at)?;
    string_member(text, "status", status_name(told.fires))?;
    text.end_object()
}

// When the alert ended, where it did.
fn end_member(text: &mut JsonWriter, told: &ToldAlert<'_>) -> Result<(), AllocError>
    ensures { OnOk result (text.new ≡ text.old ++ member_tokens (codes "endsAt") (string (end_text told.now.fires (held_alert told.now.alert).value.ends_at))) }
{
    if told.fires {
        string_member(text, "endsAt", ABSENT_INSTANT)
    } else {
        text.moment_member("endsAt", told.alert.details.value.ends_at)
    }
}

// Whether one of the alerts fires.
fn some_fires(alerts: &[ToldAlert<'_>]) -> bool
    ensures { result ≡ some_fires (told_alerts alerts.now) }
{
    alerts.iter().any(|told| told.fires)
}

fn status_name(fires: bool) -> &'static str
    ensures { result.now ≡ status_name fires }
{
    if fires { "firing" } else { "resolved" }
}
