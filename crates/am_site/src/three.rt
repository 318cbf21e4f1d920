//! The three replicas of a tenant, by one ring and by another.

ghost use Rattle.std.specs.Prelude.{◌≡◌};
ghost use Rattle.std.specs.List.{list_all};
ghost use Rattle.am_cluster.specs.RingChanges.{are_same};
ghost use Rattle.am_ring.specs.Instances.{is_among};

use am_ring::Instance;

/// Whether an instance is one of these.
pub fn is_among(instance: Instance, others: &[Instance]) -> bool
    ensures { result ≡ is_among instance others.now }
{
    others.iter().any(|other| instance == *other)
}

// Whether both lists name the same instances.
pub(crate) fn are_same(one: &[Instance], other: &[Instance]) -> bool
    ensures { result ≡ are_same one.now other.now }
{
    are_among(one, other) && are_among(other, one)
}

// Whether all of these are among the others.
fn are_among(some: &[Instance], others: &[Instance]) -> bool
    ensures { result ≡ list_all (λ i. is_among i others.now) some.now }
{
    some.iter().all(|instance| is_among(*instance, others))
}
