//! How a ring and its instances stand, as JSON (RFC 8259).

use am_tenant::TenantName;
use am_text::Octets;
use am_world::{AnyWorld, Standing};
use serde_json::{Value, json};
use std::alloc::{AllocError, Global};

/// The numbers of all instances.
const NUMBERS: [u8; 8] = [1, 2, 3, 4, 5, 6, 7, 8];

/// How many of the tenants for whom an instance isn't settled are named.
const MOST_NAMED: usize = 10;

/// The newest ring with its epoch, and of each instance whether it is up, for which fault it is down, in which
/// incarnation it is, which epoch's ring it knows, of how many tenants it may have something as one of their replicas,
/// for how many of these it is settled, and the names of the first ten for whom it isn't.
///
/// # Errors
/// Out of memory.
pub fn standing<W: AnyWorld>(alloc: Global, world: &W) -> Result<Octets, AllocError> {
    let ring = members(alloc, world)?;
    let instances = instances(alloc, world)?;
    let epoch = world.epoch();
    let text = json!(in alloc; {"ring": ring, "epoch": epoch, "instances": instances})?;
    Ok(Octets::from_vec(text.to_vec(alloc)?))
}

// The numbers of the ring's instances.
fn members<W: AnyWorld>(alloc: Global, world: &W) -> Result<Vec<Value>, AllocError> {
    let ring = world.ring();
    let mut members = Vec::new(alloc);
    for number in NUMBERS {
        if ring.contains(number) {
            members.push(Value::from(number))?;
        }
    }
    Ok(members)
}

// How each instance stands.
fn instances<W: AnyWorld>(alloc: Global, world: &W) -> Result<Vec<Value>, AllocError> {
    let mut instances = Vec::new(alloc);
    for number in NUMBERS {
        instances.push(instance(alloc, world, number)?)?;
    }
    Ok(instances)
}

// How one stands.
fn instance<W: AnyWorld>(alloc: Global, world: &W, number: u8) -> Result<Value, AllocError> {
    let Standing {
        tenants,
        unsettled,
        ..
    } = world.standing(alloc, number)?;
    let settled = tenants.saturating_sub(unsettled.len());
    let unsettled = names(alloc, &unsettled)?;
    let cause = match world.cause(number) {
        Some(fault) => Some(format!(in alloc; "{fault}")?),
        None => None,
    };
    let is_up = world.is_up(number);
    let incarnation = world.incarnation(number);
    let epoch = world.known(number);
    json!(in alloc; {
        "instance": number,
        "up": is_up,
        "cause": cause,
        "incarnation": incarnation,
        "epoch": epoch,
        "tenants": tenants,
        "settled": settled,
        "unsettled": unsettled,
    })
}

// The first ten of these tenants' names.
fn names(alloc: Global, tenants: &[TenantName]) -> Result<Vec<Value>, AllocError> {
    let mut names = Vec::new(alloc);
    for tenant in tenants.iter().take(MOST_NAMED) {
        names.push(Value::from(String::from_str(alloc, tenant.as_str())?))?;
    }
    Ok(names)
}
