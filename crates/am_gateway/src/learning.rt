//! Which instance goes on to the next ring.
ghost use Rattle.std.specs.Prelude.{◌≡◌, find};
ghost use Rattle.am_gateway.specs.Learning.{behind, is_behind};

use crate::serving::NUMBERS;
use am_world::AnyWorld;

/// The lowest instance that is up and knows a ring that isn't the newest.
#[tactic(auto, unfolding(crate::specs::Learning::behind))]
pub fn behind<W: AnyWorld>(world: &W) -> Option<u8>
    ensures { result ≡ behind (W.contents world.now).state }
{
    first_behind(world, &NUMBERS)
}

// The first of these instances that is.
fn first_behind<W: AnyWorld>(world: &W, numbers: &[u8]) -> Option<u8>
    ensures { result ≡ find (is_behind (W.contents world.now).state) numbers.now }
{
    numbers
        .iter()
        .copied()
        .find(|number| is_behind(world, *number))
}

// Whether an instance is.
#[tactic(auto, unfolding(crate::specs::Learning::is_behind))]
fn is_behind<W: AnyWorld>(world: &W, number: u8) -> bool
    ensures { result ≡ is_behind (W.contents world.now).state number }
{
    world.is_behind(number)
}
