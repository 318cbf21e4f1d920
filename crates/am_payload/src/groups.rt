//! Lists of groups of alerts.

ghost use Rattle.std.specs.Prelude.{◌≡◌, ◌++◌, IfOk, OnOk, slice_get};
ghost use Rattle.std.specs.Option.{option_copied};
ghost use Rattle.am_json.specs.Written.{data_tokens};
ghost use Rattle.am_payload.specs.Listed.{groups_data, groups_text, read_group_data, reads_at, reads_data};

use crate::alerts::{ReadAlert, put_alert};
use crate::receivers::put_receiver;
use am_config::Config;
use am_json::JsonWriter;
use am_labels::LabelSet;
use am_text::{Listed, Octets, Text};
use std::alloc::{AllocError, Global};

/// A group of alerts.
#[derive(Drop)]
pub struct ReadGroup<'a> {
    /// The name of its receiver.
    pub receiver: &'a Text,
    /// The labels by which it is named.
    pub labels: &'a LabelSet,
    /// The places of its alerts in a list of alerts.
    pub alerts: Listed<usize>,
}

/// The JSON list of groups of these alerts, in their order, each with its own alerts as [`crate::alerts_json`] writes them. An
/// alert may be in several groups.
pub fn groups_json(
    alloc: Global,
    config: &Config,
    alerts: &[ReadAlert<'_>],
    groups: &[ReadGroup<'_>],
) -> Result<Octets, AllocError>
    ensures { IfOk result (λ o. o ≡ groups_text config.now alerts.now groups.now) }
{
    let mut text = JsonWriter::new(alloc);
    put_groups(alloc, &mut text, config, alerts, groups)?;
    Ok(text.finish())
}

fn put_groups(
    alloc: Global,
    text: &mut JsonWriter,
    config: &Config,
    alerts: &[ReadAlert<'_>],
    groups: &[ReadGroup<'_>],
) -> Result<(), AllocError>
    ensures { OnOk result (text.new ≡ text.old ++ data_tokens (groups_data config.now alerts.now groups.now)) }
{
    text.begin_array()?;
    for group in groups {
        put_group(alloc, text, config, alerts, group)?;
    }
    text.end_array()
}

fn put_group(
    alloc: Global,
    text: &mut JsonWriter,
    config: &Config,
    alerts: &[ReadAlert<'_>],
    group: &ReadGroup<'_>,
) -> Result<(), AllocError>
    ensures { OnOk result (text.new ≡ text.old ++ data_tokens (read_group_data config.now alerts.now group.now)) }
{
    text.begin_object()?;
    text.key("alerts")?;
    put_members(alloc, text, config, alerts, &group.alerts)?;
    text.labels_member("labels", group.labels)?;
    text.key("receiver")?;
    put_receiver(text, group.receiver)?;
    text.end_object()
}

// The alerts at these places.
fn put_members(
    alloc: Global,
    text: &mut JsonWriter,
    config: &Config,
    alerts: &[ReadAlert<'_>],
    places: &Listed<usize>,
) -> Result<(), AllocError>
    ensures { OnOk result (text.new ≡ text.old ++ data_tokens (reads_data config.now (reads_at alerts.now places.now))) }
{
    let places = places.as_slice();
    text.begin_array()?;
    for place in places {
        if let Some(alert) = alert_at(alerts, *place) {
            put_alert(alloc, text, config, alert)?;
        }
    }
    text.end_array()
}

// The alert at a place.
fn alert_at<'a, 'b>(alerts: &'a [ReadAlert<'b>], place: usize) -> Option<&'a ReadAlert<'b>>
    ensures { option_copied result ≡ slice_get alerts.now place }
{
    alerts.get(place)
}
