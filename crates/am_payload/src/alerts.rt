//! Lists of alerts.

ghost use Rattle.std.specs.Prelude.{◌≡◌, ◌++◌, ℕ, List, codes, map, IfOk, OnOk};
ghost use Rattle.am_json.specs.Written.{data_tokens, member_tokens, texts_data};
ghost use Rattle.am_words.specs.Ids.{id_text};
ghost use Rattle.am_payload.specs.Listed.{inhibiting_of, read_data, reads_data, reads_text};
ghost use Rattle.am_payload.specs.Written.{print_of, alert_state, status_data};

use crate::receivers::put_places;
use am_alert::HeldAlert;
use am_config::Config;
use am_item::SilenceId;
use am_json::JsonWriter;
use am_labels::{LabelSet, print_fingerprint};
use am_text::{Listed, Octets};
use am_words::{ID_LENGTH, print_id};
use std::alloc::{AllocError, Global};

/// An alert, and what is said of it beside.
#[derive(Drop)]
pub struct ReadAlert<'a> {
    /// The alert.
    pub alert: HeldAlert<'a>,
    /// The places of its receivers in the configuration, each once, in the order of its routes.
    pub receivers: Listed<usize>,
    /// The silences that silence it, in the order of identifiers.
    pub silenced_by: Listed<SilenceId>,
    /// The label sets of the alerts that inhibit it, in their order.
    pub inhibited_by: Listed<&'a LabelSet>,
}

/// The JSON list of alerts, in their order, with the names of their receivers. One that is silenced or inhibited is
/// `suppressed`, another `active`.
pub fn alerts_json(
    alloc: Global,
    config: &Config,
    alerts: &[ReadAlert<'_>],
) -> Result<Octets, AllocError>
    ensures { IfOk result (λ o. o ≡ reads_text config.now alerts.now) }
{
    let mut text = JsonWriter::new(alloc);
    put_alerts(alloc, &mut text, config, alerts)?;
    Ok(text.finish())
}

fn put_alerts(
    alloc: Global,
    text: &mut JsonWriter,
    config: &Config,
    alerts: &[ReadAlert<'_>],
) -> Result<(), AllocError>
    ensures { OnOk result (text.new ≡ text.old ++ data_tokens (reads_data config.now alerts.now)) }
{
    text.begin_array()?;
    for alert in alerts {
        put_alert(alloc, text, config, alert)?;
    }
    text.end_array()
}

/// Writes one of them.
pub(crate) fn put_alert(
    alloc: Global,
    text: &mut JsonWriter,
    config: &Config,
    read: &ReadAlert<'_>,
) -> Result<(), AllocError>
    ensures { OnOk result (text.new ≡ text.old ++ data_tokens (read_data config.now read.now)) }
{
    let alert = &read.alert;
    let details = &alert.details.value;
    text.begin_object()?;
    text.annotations_member("annotations", &details.annotations)?;
    text.moment_member("endsAt", details.ends_at)?;
    text.fingerprint_member("fingerprint", alert.labels)?;
    text.text_member("generatorURL", &details.generator_url)?;
    text.labels_member("labels", alert.labels)?;
    text.key("receivers")?;
    put_places(text, config, &read.receivers)?;
    text.moment_member("startsAt", details.starts_at)?;
    put_status(alloc, text, read)?;
    text.moment_member("updatedAt", alert.details.stamp.moment)?;
    text.end_object()
}

// Which silences and alerts mute it.
fn put_status(alloc: Global, text: &mut JsonWriter, read: &ReadAlert<'_>) -> Result<(), AllocError>
    ensures { OnOk result (text.new ≡ text.old ++ member_tokens (codes "status") (status_data read.now.silenced_by (inhibiting_of read.now))) }
{
    text.key("status")?;
    text.begin_object()?;
    prints_member(alloc, text, "inhibitedBy", &read.inhibited_by)?;
    ids_member(text, "silencedBy", &read.silenced_by)?;
    text.key("state")?;
    text.string(alert_state(&read.silenced_by, &read.inhibited_by))?;
    text.end_object()
}

// A member whose value is the list of the fingerprints of label sets.
fn prints_member(
    alloc: Global,
    text: &mut JsonWriter,
    name: &str,
    sets: &Listed<&LabelSet>,
) -> Result<(), AllocError>
    ensures { OnOk result (text.new ≡ text.old ++ member_tokens name.now (texts_data (map print_of (map (λ set. set.now) sets.now)))) }
{
    let sets = sets.as_slice();
    text.key(name)?;
    text.begin_array()?;
    for labels in sets {
        let print = print_fingerprint(alloc, labels.fingerprint())?;
        text.string(print.as_str())?;
    }
    text.end_array()
}

// A member whose value is the list of the texts of identifiers.
fn ids_member(text: &mut JsonWriter, name: &str, ids: &Listed<SilenceId>) -> Result<(), AllocError>
    ensures { OnOk result (text.new ≡ text.old ++ member_tokens name.now (texts_data (map id_text ids.now))) }
{
    let ids = ids.as_slice();
    text.key(name)?;
    text.begin_array()?;
    for id in ids {
        let mut buffer = [0; ID_LENGTH];
        text.string(print_id(id, &mut buffer))?;
    }
    text.end_array()
}

// The state of an alert that these silences and alerts mute.
fn alert_state(silencing: &Listed<SilenceId>, inhibiting: &Listed<&LabelSet>) -> &'static str
    ensures { result.now ≡ alert_state silencing.now (map (λ set. set.now) inhibiting.now) }
{
    if silencing.as_slice().is_empty() && inhibiting.as_slice().is_empty() {
        "active"
    } else {
        "suppressed"
    }
}
