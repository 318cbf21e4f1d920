//! When a ring may change without anything getting lost, and an instance be restarted.

use am_world::{AnyWorld, Event};
use std::alloc::{AllocError, Global};
use std::fmt;

/// The numbers of all instances.
const NUMBERS: [u8; 8] = [1, 2, 3, 4, 5, 6, 7, 8];

/// What is in the way of a change. While an instance isn't ready, another one of a tenant's three replicas must stay.
#[derive(Clone, Copy)]
pub enum Obstacle {
    /// An instance is down, and so hands nothing over.
    Down(u8),
    /// An instance hasn't learned the newest ring.
    Behind(u8),
    /// An instance lacks what others hold of some tenants.
    Unsettled(u8),
    /// The instance that is to be restarted is up.
    Up(u8),
    /// The instance that is to be restarted isn't in the ring.
    Outside(u8),
}

impl fmt::Display for Obstacle {
    fn fmt<W: fmt::Write>(&self, f: &mut fmt::Formatter<W>) -> fmt::Result {
        match self {
            Obstacle::Down(number) => write!(f, "instance {number} is down"),
            Obstacle::Behind(number) => {
                write!(f, "instance {number} hasn't learned the newest ring yet")
            }
            Obstacle::Unsettled(number) => {
                write!(
                    f,
                    "instance {number} isn't settled for all of its tenants yet"
                )
            }
            Obstacle::Up(number) => write!(f, "instance {number} is up"),
            Obstacle::Outside(number) => write!(f, "instance {number} isn't in the ring"),
        }
    }
}

/// Why a change of the ring would have to wait, so that each acknowledged write stays with a quorum: an instance of the
/// ring, other than the one that leaves or goes down, isn't ready for it. Or why there is nothing to restart. What
/// brings an instance back never waits, nor does force.
///
/// # Errors
/// Out of memory.
pub fn obstacle_to<W: AnyWorld>(
    alloc: Global,
    world: &W,
    event: &Event,
) -> Result<Option<Obstacle>, AllocError> {
    match event {
        Event::Join { .. } => first_unready(alloc, world, None),
        Event::Leave { instance } | Event::Crash { instance } => {
            first_unready(alloc, world, Some(*instance))
        }
        Event::Restart { instance } => Ok(not_down(world, *instance)),
        _ => Ok(None),
    }
}

// Why an instance isn't one of the ring that is down.
fn not_down<W: AnyWorld>(world: &W, number: u8) -> Option<Obstacle> {
    if !world.ring().contains(number) {
        Some(Obstacle::Outside(number))
    } else if world.is_up(number) {
        Some(Obstacle::Up(number))
    } else {
        None
    }
}

// The first instance of the ring, but for one, that isn't ready for a change.
fn first_unready<W: AnyWorld>(
    alloc: Global,
    world: &W,
    but: Option<u8>,
) -> Result<Option<Obstacle>, AllocError> {
    let ring = world.ring();
    for number in NUMBERS {
        if ring.contains(number) && but != Some(number) {
            let unready = in_way(alloc, world, number)?;
            if unready.is_some() {
                return Ok(unready);
            }
        }
    }
    Ok(None)
}

// What is under way at an instance of the ring.
fn in_way<W: AnyWorld>(
    alloc: Global,
    world: &W,
    number: u8,
) -> Result<Option<Obstacle>, AllocError> {
    if !world.is_up(number) {
        return Ok(Some(Obstacle::Down(number)));
    }
    if world.is_behind(number) {
        return Ok(Some(Obstacle::Behind(number)));
    }
    if world.standing(alloc, number)?.unsettled.is_empty() {
        return Ok(None);
    }
    Ok(Some(Obstacle::Unsettled(number)))
}
