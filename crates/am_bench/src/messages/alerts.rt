//! Alerts, and what is held of them.

use crate::messages::exchange::moment;
use am_item::{Alert, Held, Item, SharedItem, Stamp, Thing};
use am_labels::{Annotations, Label, LabelSet};
use am_text::{Moment, Text};
use anyhow::{Context, Result};
use std::alloc::{AllocError, Global};

fn label(alloc: Global, name: &str, value: String) -> Result<Label> {
    let name = Text::read(alloc, name)?;
    let value = Text::from_string(value);
    Ok(Label { name, value })
}

/// Five labels, as `bench/run` posts them. Those of rising numbers stand anywhere among each other in the order of
/// label sets.
fn labels(alloc: Global, number: u32) -> Result<LabelSet> {
    let host = u64::from(number) * 7919 % 99_991;
    let job = number % 100;
    let mut labels = Vec::new(alloc);
    labels.push(label(alloc, "alertname", format!(in alloc; "InstanceDown")?)?)?;
    labels.push(label(alloc, "cluster", format!(in alloc; "eu-west-1")?)?)?;
    labels.push(label(alloc, "instance", format!(in alloc; "node-{host}:9100")?)?)?;
    labels.push(label(alloc, "job", format!(in alloc; "prod-{job}")?)?)?;
    labels.push(label(alloc, "severity", format!(in alloc; "critical")?)?)?;
    LabelSet::from_pairs(alloc, labels)
        .ok()
        .context("no label set")
}

fn annotations(alloc: Global) -> Result<Annotations> {
    let mut labels = Vec::new(alloc);
    labels.push(label(
        alloc,
        "summary",
        format!(in alloc; "The instance is down.")?,
    )?)?;
    Annotations::from_pairs(alloc, labels)
        .ok()
        .context("no annotations")
}

/// The alert of a number, as it was written so many milliseconds after the first moment.
fn item(alloc: Global, number: u32, written: u64) -> Result<SharedItem> {
    let stamp = Stamp {
        moment: moment(written)?,
        instance: 1,
        incarnation: 1,
        count: u64::from(number) + 1,
    };
    let alert = Alert {
        labels: labels(alloc, number)?,
        annotations: annotations(alloc)?,
        starts_at: moment(0)?,
        ends_at: Moment::greatest(),
        generator_url: Text::from_string(String::new(alloc)),
    };
    let thing = Thing::Alert(alert);
    Ok(SharedItem::new(alloc, Item { stamp, thing })?)
}

// Puts an item, whatever that does.
fn put(held: &mut Held, item: SharedItem) -> Result<(), AllocError> {
    match held.put(item) {
        Ok(_) => Ok(()),
        Err(refused) => Err(refused),
    }
}

/// So many alerts are held.
pub fn holding(alloc: Global, count: u32) -> Result<Held> {
    let mut held = Held::new(alloc)?;
    for number in 0..count {
        put(&mut held, item(alloc, number, 0)?)?;
    }
    Ok(held)
}

/// What is held once the alert of a number was written anew; the rest is shared.
pub fn renewed(alloc: Global, held: &Held, number: u32, written: u64) -> Result<Held> {
    let mut renewed = held.snapshot()?;
    put(&mut renewed, item(alloc, number, written)?)?;
    Ok(renewed)
}
