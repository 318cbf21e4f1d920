//! What was counted, what is held, whether limits are refused, and how the ring stands, as Prometheus reads it: its
//! text format, version 0.0.4.

use crate::counted::Counted;
use am_tally::{Metric, add, add_counts, add_each, add_load};
use am_text::Octets;
use am_world::AnyWorld;
use std::alloc::{AllocError, Global};

/// How the reply begins.
const START: &str =
    "HTTP/1.1 200 OK\r\nContent-Type: text/plain; version=0.0.4\r\nConnection: close\r\n";

/// The numbers of all instances.
const NUMBERS: [u8; 8] = [1, 2, 3, 4, 5, 6, 7, 8];

const ALERTS: Metric = Metric {
    name: "alertmanager_alerts",
    kind: "gauge",
    help: "Alerts that are held.",
};

const HELD_BACK: Metric = Metric {
    name: "amring_notifications_held_back_total",
    kind: "counter",
    help: "How often an allowance held a notice back.",
};

const LIMITS_REFUSED: Metric = Metric {
    name: "amring_limits_refused",
    kind: "gauge",
    help: "Whether the file of limits was refused when it was last read.",
};

const EPOCH: Metric = Metric {
    name: "amring_ring_epoch",
    kind: "gauge",
    help: "How often the ring changed.",
};

const MEMBER: Metric = Metric {
    name: "amring_instance_in_ring",
    kind: "gauge",
    help: "Whether an instance is in the ring.",
};

const UP: Metric = Metric {
    name: "amring_instance_up",
    kind: "gauge",
    help: "Whether an instance is up.",
};

const BEHIND: Metric = Metric {
    name: "amring_instance_behind",
    kind: "gauge",
    help: "Whether an instance has yet to learn the newest ring.",
};

/// A reply with all that was counted, what is open and held, whether limits are refused, and how the ring stands. It
/// looks at each tenant.
///
/// # Errors
/// Out of memory.
pub fn reply<W: AnyWorld>(alloc: Global, counted: &Counted<'_, W>) -> Result<Octets, AllocError> {
    let mut text = String::new(alloc);
    let world = counted.gateway().world();
    add_counts(alloc, &mut text, counted.tally(), world.faults())?;
    let waiting = counted.gateway().waiting_bytes() as u64;
    add_load(alloc, &mut text, counted.load(), waiting)?;
    add_held(alloc, &mut text, world)?;
    let are_refused = counted.are_limits_refused();
    add(alloc, &mut text, LIMITS_REFUSED, "", u64::from(are_refused))?;
    add_ring(alloc, &mut text, world)?;
    let length = text.len();
    let mut head = format!(in alloc; "{START}Content-Length: {length}\r\n\r\n")?.into_bytes();
    head.extend_from_slice(text.as_bytes())?;
    Ok(Octets::from_vec(head))
}

// How many alerts are held, each counted at the first of its tenant's replicas, and how often notices were held back.
fn add_held<W: AnyWorld>(alloc: Global, text: &mut String, world: &W) -> Result<(), AllocError> {
    let mut alerts = 0u64;
    let mut held_back = 0u64;
    for number in NUMBERS {
        let standing = world.standing(alloc, number)?;
        alerts = alerts.saturating_add(standing.alerts);
        held_back = held_back.saturating_add(standing.held_back);
    }
    add(alloc, text, ALERTS, "", alerts)?;
    add(alloc, text, HELD_BACK, "", held_back)
}

// How the ring and its instances stand.
fn add_ring<W: AnyWorld>(alloc: Global, text: &mut String, world: &W) -> Result<(), AllocError> {
    add(alloc, text, EPOCH, "", world.epoch())?;
    let ring = world.ring();
    add_each(
        alloc,
        text,
        MEMBER,
        NUMBERS.map(|number| ring.contains(number)),
    )?;
    add_each(alloc, text, UP, NUMBERS.map(|number| world.is_up(number)))?;
    add_each(
        alloc,
        text,
        BEHIND,
        NUMBERS.map(|number| world.is_behind(number)),
    )
}
