//! Which instance is restarted.
ghost use Rattle.std.specs.Prelude.{◌≡◌, ◌==◌, OnErr, OnOk, count_by, filter, find, not};
ghost use Rattle.am_gateway.specs.Restarting.{counted, fallen, is_fallen, vain_since};

use crate::serving::NUMBERS;
use am_world::AnyWorld;
use std::alloc::AllocError;

/// How many restarts of an instance may be in vain, one after the other.
const MOST_VAIN: usize = 3;

/// The lowest instance that a fault stopped, but for those of which three restarts were in vain since they were last
/// up: for each such restart the instance's number stands in the list.
#[tactic(auto, unfolding(crate::specs::Restarting::fallen))]
pub fn fallen<W: AnyWorld>(world: &W, vain: &[u8]) -> Option<u8>
    ensures { result ≡ fallen vain.now (W.contents world.now).state }
{
    first_fallen(world, vain, &NUMBERS)
}

// The first of these instances that is to be restarted.
fn first_fallen<W: AnyWorld>(world: &W, vain: &[u8], numbers: &[u8]) -> Option<u8>
    ensures { result ≡ find (is_fallen vain.now (W.contents world.now).state) numbers.now }
{
    numbers
        .iter()
        .copied()
        .find(|number| is_fallen(world, vain, *number))
}

// Whether an instance is to be restarted.
#[tactic(auto, unfolding(crate::specs::Restarting::is_fallen))]
fn is_fallen<W: AnyWorld>(world: &W, vain: &[u8], number: u8) -> bool
    ensures { result ≡ is_fallen vain.now (W.contents world.now).state number }
{
    world.cause(number).is_some() && count(vain, number) < MOST_VAIN
}

// How many restarts of an instance were in vain.
fn count(vain: &[u8], number: u8) -> usize
    ensures { result ≡ count_by (λ j. j == number) vain.now }
{
    vain.iter().filter(|other| **other == number).count()
}

/// Counts a restart of an instance.
#[tactic(auto, unfolding(crate::specs::Restarting::counted))]
pub fn note(vain: &mut Vec<u8>, number: u8, is_vain: bool) -> Result<(), AllocError>
    ensures counted { OnOk result (vain.new.items ≡ counted vain.old.items is_vain number) }
    ensures err { OnErr result (vain.new.items ≡ vain.old.items) }
{
    if is_vain {
        vain.push(number)?;
    } else {
        forget(vain, number);
    }
    Ok(())
}

// Forgets the restarts of an instance that were in vain.
fn forget(vain: &mut Vec<u8>, number: u8)
    ensures { vain.new.items ≡ filter (λ j. not (j == number)) vain.old.items }
{
    vain.retain(|other| *other != number);
}

/// Forgets the restarts that were in vain of instances that are up.
#[tactic(auto, unfolding(crate::specs::Restarting::vain_since))]
pub fn forget_up<W: AnyWorld>(vain: &mut Vec<u8>, world: &W)
    ensures { vain.new.items ≡ vain_since vain.old.items (W.contents world.now).state }
{
    vain.retain(|number| !world.is_up(*number));
}
