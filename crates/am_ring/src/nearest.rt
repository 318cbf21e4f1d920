ghost use Rattle.std.specs.Prelude.{◌≡◌, ◌<◌, MatchOption, length, if◌then◌else◌};
ghost use Rattle.am_ring.specs.Instances.{flagged};
ghost use Rattle.am_ring.specs.Changes.{without};
ghost use Rattle.am_ring.specs.Replicas.{IsFirst, stands_before};

use crate::distance::distance;
use crate::instance::Instance;

// Takes the instance that is nearest to the place out of those that are left.
pub fn take_nearest(left: &mut [bool; 8], place: u32) -> Instance
    requires { 0 < length (flagged left.old) }
    ensures first { IsFirst (stands_before place) (flagged left.old) result }
    ensures left { flagged left.new ≡ without result (flagged left.old) }
{
    let instance = nearest(left, place);
    left[instance.index()] = false;
    instance
}

// The instance that is nearest to the place, of equal ones that with the lowest number.
fn nearest(left: &[bool; 8], place: u32) -> Instance
    requires { 0 < length (flagged left.now) }
    ensures { IsFirst (stands_before place) (flagged left.now) result }
{
    let mut found = None;
    for (index, is_left) in left.iter().enumerate() {
        if *is_left {
            found = Some(nearer(found, Instance::at(index), place));
        }
    }
    match found {
        Some(instance) => instance,
        None => unreachable!(),
    }
}

// The nearer one of an instance that was found, where one was, and another.
fn nearer(found: Option<Instance>, other: Instance, place: u32) -> Instance
    ensures { MatchOption found (result ≡ other) (λ instance. result ≡ (if stands_before place other instance then other else instance)) }
{
    match found {
        Some(instance) if !stands_before(place, other, instance) => instance,
        _ => other,
    }
}

// Whether the first instance is nearer to the place, or as near with the lower number.
#[tactic(auto, unfolding(crate::specs::Replicas::stands_before))]
fn stands_before(place: u32, first: Instance, second: Instance) -> bool
    ensures { result ≡ stands_before place first second }
{
    let near = distance(first, place);
    let far = distance(second, place);
    near < far || (near == far && first < second)
}
