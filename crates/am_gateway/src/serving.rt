//! Which instances of a world serve.
ghost use Rattle.std.specs.Prelude.{◌≡◌, count_by, find};
ghost use Rattle.am_gateway.specs.Serving.{has_quorum, serving_in};
ghost use Rattle.am_world.specs.Places.{up_at};

use am_world::AnyWorld;

/// How many replicas answer for a tenant.
const QUORUM: usize = 2;

/// All instances, in order of number.
pub const NUMBERS: [u8; 8] = [1, 2, 3, 4, 5, 6, 7, 8];

/// The instance that connections are opened to: the lowest that is up.
pub fn serving<W: AnyWorld>(world: &W) -> Option<u8>
    ensures { result ≡ serving_in (W.contents world.now).state }
{
    first_up(world, &NUMBERS)
}

// The first of these instances that is up.
fn first_up<W: AnyWorld>(world: &W, numbers: &[u8]) -> Option<u8>
    ensures { result ≡ find (λ i. up_at i (W.contents world.now).state.instances) numbers.now }
{
    numbers.iter().copied().find(|number| world.is_up(*number))
}

/// Whether as many instances are up as answer for a tenant.
pub fn has_quorum<W: AnyWorld>(world: &W) -> bool
    ensures { result ≡ has_quorum (W.contents world.now).state }
{
    count_up(world, &NUMBERS) >= QUORUM
}

// How many of these instances are up.
fn count_up<W: AnyWorld>(world: &W, numbers: &[u8]) -> usize
    ensures { result ≡ count_by (λ i. up_at i (W.contents world.now).state.instances) numbers.now }
{
    numbers
        .iter()
        .filter(|number| world.is_up(**number))
        .count()
}
