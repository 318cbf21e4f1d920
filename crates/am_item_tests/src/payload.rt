//! Texts of what is read and told, written apart from this program.

use crate::parts::{POSTED_AT, at, hold_posted, label_set, text};
use am_alert::HeldAlert;
use am_config::Config;
use am_expect::equal;
use am_item::{AlertDetails, Held, Kept, SilenceId};
use am_labels::LabelSet;
use am_payload::{
    ReadAlert, ReadGroup, ToldAlert, WebhookBody, alerts_json, groups_json, webhook_json,
};
use am_text::{Listed, Octets, Text};
use std::alloc::{AllocError, Global};
use std::test::Fail;

const ALERTS: &str =
    r#"[{"annotations":{},"endsAt":"2025-06-15T15:11:40.000Z","fingerprint":"d2b371819297f98a","generatorURL":"http://p","labels":{"a":"b"},"receivers":[{"name":"default"}],"startsAt":"2025-06-15T15:06:40.000Z","status":{"inhibitedBy":["d2b371819297f98a"],"silencedBy":["00010203-0405-4607-8809-0a0b0c0d0e0f"],"state":"suppressed"},"updatedAt":"2025-06-15T15:06:40.001Z"},{"annotations":{},"endsAt":"2025-06-15T15:11:40.000Z","fingerprint":"725f725716f98d94","generatorURL":"http://p","labels":{"x":"y"},"receivers":[{"name":"default"}],"startsAt":"2025-06-15T15:06:40.000Z","status":{"inhibitedBy":[],"silencedBy":[],"state":"active"},"updatedAt":"2025-06-15T15:06:40.001Z"}]"#;

const GROUPS: &str =
    r#"[{"alerts":[{"annotations":{},"endsAt":"2025-06-15T15:11:40.000Z","fingerprint":"725f725716f98d94","generatorURL":"http://p","labels":{"x":"y"},"receivers":[{"name":"default"}],"startsAt":"2025-06-15T15:06:40.000Z","status":{"inhibitedBy":[],"silencedBy":[],"state":"active"},"updatedAt":"2025-06-15T15:06:40.001Z"}],"labels":{},"receiver":{"name":"r0"}},{"alerts":[{"annotations":{},"endsAt":"2025-06-15T15:11:40.000Z","fingerprint":"d2b371819297f98a","generatorURL":"http://p","labels":{"a":"b"},"receivers":[{"name":"default"}],"startsAt":"2025-06-15T15:06:40.000Z","status":{"inhibitedBy":["d2b371819297f98a"],"silencedBy":["00010203-0405-4607-8809-0a0b0c0d0e0f"],"state":"suppressed"},"updatedAt":"2025-06-15T15:06:40.001Z"}],"labels":{"a":"b"},"receiver":{"name":"r0"}}]"#;

const FIRING: &str =
    r#"{"alerts":[{"annotations":{},"endsAt":"0001-01-01T00:00:00Z","fingerprint":"d2b371819297f98a","generatorURL":"","labels":{"a":"b"},"startsAt":"2025-06-15T15:06:40.000Z","status":"firing"}],"commonAnnotations":{},"commonLabels":{"a":"b"},"externalURL":"http://localhost/alertmanager","groupKey":"0{}","groupLabels":{},"receiver":"w","status":"firing","truncatedAlerts":0,"version":"4"}"#;

const RESOLVED: &str =
    r#"{"alerts":[{"annotations":{},"endsAt":"2025-06-15T15:06:40.000Z","fingerprint":"d2b371819297f98a","generatorURL":"","labels":{"a":"b"},"startsAt":"2025-06-15T15:06:40.000Z","status":"resolved"}],"commonAnnotations":{},"commonLabels":{"a":"b"},"externalURL":"http://localhost/alertmanager","groupKey":"0{}","groupLabels":{},"receiver":"w","status":"resolved","truncatedAlerts":0,"version":"4"}"#;

const TWO: &str =
    r#"{"alerts":[{"annotations":{"s":"x","t":""},"endsAt":"2025-06-15T15:06:40.000Z","fingerprint":"a034b6d7b7e6136d","generatorURL":"","labels":{"a":"b","c":"1","d":"1"},"startsAt":"2025-06-15T15:06:40.000Z","status":"resolved"},{"annotations":{"t":""},"endsAt":"0001-01-01T00:00:00Z","fingerprint":"f9e35071e87719ba","generatorURL":"","labels":{"a":"b","c":"2","d":"1"},"startsAt":"2025-06-15T15:06:40.000Z","status":"firing"}],"commonAnnotations":{"t":""},"commonLabels":{"a":"b","d":"1"},"externalURL":"http://localhost/alertmanager","groupKey":"12{\"a\":\"b\"}","groupLabels":{"a":"b"},"receiver":"w","status":"firing","truncatedAlerts":3,"version":"4"}"#;

const ID: [u8; 16] = [0, 1, 2, 3, 4, 5, 0x46, 7, 0x88, 9, 10, 11, 12, 13, 14, 15];

// What is held of alerts that were posted a millisecond before.
fn held(alloc: Global, body: &str) -> Result<Held, Fail> {
    let mut held = Held::new(alloc)?;
    hold_posted(alloc, &mut held, body, POSTED_AT + 1)?;
    Ok(held)
}

fn places(alloc: Global, place: usize) -> Listed<usize> {
    match Vec::from_array(alloc, [place]) {
        Ok(places) => Listed::from_vec(places),
        Err(_) => Listed::from_vec(Vec::new(alloc)),
    }
}

// An alert of the first receiver, with what silences and inhibits it.
fn read_alert<'a>(
    alloc: Global,
    alert: HeldAlert<'a>,
    silences: Vec<SilenceId>,
    inhibiting: Vec<&'a LabelSet>,
) -> ReadAlert<'a> {
    ReadAlert {
        alert,
        receivers: places(alloc, 0),
        silenced_by: Listed::from_vec(silences),
        inhibited_by: Listed::from_vec(inhibiting),
    }
}

// The texts of alerts, and of groups of them.
fn are_read(alloc: Global, alerts: &[ReadAlert<'_>], groups: &[ReadGroup<'_>]) -> Result<(), Fail> {
    let config = Config::default_config(alloc)?;
    let list = alerts_json(alloc, &config, alerts)?;
    let grouped = groups_json(alloc, &config, alerts, groups)?;
    let found = (list.as_slice(), grouped.as_slice());
    equal(
        found,
        (ALERTS.as_bytes(), GROUPS.as_bytes()),
        "alerts and groups",
    )
}

// A group of the alert at this place.
fn group<'a>(
    alloc: Global,
    receiver: &'a Text,
    labels: &'a LabelSet,
    place: usize,
) -> ReadGroup<'a> {
    ReadGroup {
        receiver,
        labels,
        alerts: places(alloc, place),
    }
}

// Two alerts are read, and in groups that stand the other way round.
fn both_are_read(alloc: Global, alerts: &[ReadAlert<'_>], labels: &LabelSet) -> Result<(), Fail> {
    let none = label_set(alloc, "")?;
    let receiver = text(alloc, "r0");
    let groups = [
        group(alloc, &receiver, &none, 1),
        group(alloc, &receiver, labels, 0),
    ];
    are_read(alloc, alerts, &groups)
}

// The first one is muted, by a silence and by itself.
fn muted_is_read<'a>(
    alloc: Global,
    muted: HeldAlert<'a>,
    active: HeldAlert<'a>,
) -> Result<(), Fail> {
    let labels = muted.labels;
    let silences = Vec::from_array(alloc, [SilenceId::from_bytes(ID)])?;
    let inhibiting = Vec::from_array(alloc, [labels])?;
    let alerts = [
        read_alert(alloc, muted, silences, inhibiting),
        read_alert(alloc, active, Vec::new(alloc), Vec::new(alloc)),
    ];
    both_are_read(alloc, &alerts, labels)
}

const READ: &str =
    r#"[{"labels":{"a":"b"},"generatorURL":"http://p"},{"labels":{"x":"y"},"generatorURL":"http://p"}]"#;

fn borrowed(kept: &Kept<LabelSet, AlertDetails>) -> HeldAlert<'_> {
    HeldAlert {
        labels: kept.key(),
        details: kept.value(),
    }
}

#[test]
fn alerts_are_read(rt: HostRuntime) -> Result<(), Fail> {
    let held = held(rt.alloc(), READ)?;
    let alerts = held.alerts().entries();
    match (alerts.first(), alerts.last()) {
        (Some(muted), Some(active)) => {
            muted_is_read(rt.alloc(), borrowed(muted), borrowed(active))
        }
        _ => Err(Fail::new("no alerts")),
    }
}

// Those fire that end later.
fn told_alerts(alloc: Global, held: &Held) -> Result<Vec<ToldAlert<'_>>, AllocError> {
    let mut alerts = Vec::new(alloc);
    for kept in held.alerts().entries() {
        alerts.push(ToldAlert {
            alert: borrowed(kept),
            fires: kept.value().value.ends_at > at(POSTED_AT),
        })?;
    }
    Ok(alerts)
}

// The route, the value of the group's label, the alerts, how many more there are, and what a webhook is told.
type Row = (usize, &'static str, &'static str, u64, &'static str);

const TOLD: &[Row] = &[
    (0, "", r#"[{"labels":{"a":"b"}}]"#, 0, FIRING),
    (
        0,
        "",
        r#"[{"labels":{"a":"b"},"endsAt":"2025-06-15T15:06:40Z"}]"#,
        0,
        RESOLVED,
    ),
    (
        12,
        "b",
        r#"[{"labels":{"a":"b","c":"1","d":"1"},"annotations":{"s":"x","t":""},"endsAt":"2025-06-15T15:06:40Z"},{"labels":{"a":"b","c":"2","d":"1"},"annotations":{"t":""}}]"#,
        3,
        TWO,
    ),
];

fn told_json(
    alloc: Global,
    row: &Row,
    labels: &LabelSet,
    held: &Held,
) -> Result<Octets, AllocError> {
    let (route, _, _, truncated, _) = *row;
    let alerts = told_alerts(alloc, held)?;
    let receiver = text(alloc, "w");
    let body = WebhookBody {
        receiver: &receiver,
        route,
        labels,
        alerts: Listed::from_vec(alerts),
        truncated,
    };
    webhook_json(alloc, &body)
}

fn is_told(alloc: Global, row: &Row) -> Result<(), Fail> {
    let labels = label_set(alloc, row.1)?;
    let held = held(alloc, row.2)?;
    let told = told_json(alloc, row, &labels, &held)?;
    equal(told.as_slice(), row.4.as_bytes(), row.0)
}

#[test]
fn a_webhook_is_told(rt: HostRuntime) -> Result<(), Fail> {
    for row in TOLD {
        is_told(rt.alloc(), row)?;
    }
    Ok(())
}
