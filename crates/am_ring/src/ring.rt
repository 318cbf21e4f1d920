ghost use Rattle.std.specs.Prelude.{◌≡◌, ℕ, List, MatchResult, OnErr, OnOk, None, Some, count_by, length, position, ◌==◌, if◌then◌else◌};
ghost use Rattle.std.specs.List.{list_all};
ghost use Rattle.am_ring.specs.Instances.{all_differ, flags_of, in_order, is_among, is_instance, may_be_ring};
ghost use Rattle.am_ring.specs.Changes.{join_refusal, leave_refusal, with_instance, without};
ghost use Rattle.am_ring.specs.Replicas.{ReplacesOne, position_of, replicas};

use crate::instance::Instance;
use crate::nearest::take_nearest;
use crate::refusal::RingRefusal;
use am_labels::place;
use am_tenant::TenantName;
use std::marker::Model;

/// The instances that serve: 3 to 8 of them.
#[derive(Clone, Copy, PartialEq, Eq)]
pub struct Ring {
    // whether instance 1, 2, .. is in the ring
    members: [bool; 8],
}

impl Model for Ring {
    ghost use Rattle.am_ring.specs.Instances.{Members, IsRing, flagged, flags_of};

    ghost Value = { Members };

    ghost view = { λ ring. record { instances = flagged ring.members } };

    ghost invariant = { λ ring. IsRing ring.members };

    ghost inverse = { λ ring. record { members = flags_of ring.instances } };
}

impl Ring {
    /// The ring of these instances, which may stand in any order. None where they aren't 3 to 8 different numbers of 1
    /// to 8.
    pub fn new(numbers: &[u8]) -> Option<Ring>
        ensures { result ≡ (if may_be_ring numbers.now
            then Some (record { instances = in_order numbers.now }) else None) }
    {
        if !may_be_ring(numbers) {
            return None;
        }
        Some(Ring {
            members: flags_of(numbers),
        })
    }

    /// Whether the instance of this number is in the ring.
    pub fn contains(&self, number: u8) -> bool
        ensures { result ≡ is_among number self.now.instances }
    {
        self.member(number).is_some()
    }

    /// How many instances are in the ring, 3 to 8.
    pub fn len(&self) -> usize
        ensures { result ≡ length self.now.instances }
    {
        count(&self.members)
    }

    /// Puts an instance into the ring.
    ///
    /// # Errors
    /// [`RingRefusal::Full`] where all eight are in it, else [`RingRefusal::WrongInstance`] where the number isn't one
    /// of 1 to 8 or the instance is in it. The ring stays as it was.
    pub fn join(&mut self, number: u8) -> Result<(), RingRefusal>
        ensures ok { OnOk result (self.new ≡ record { instances = with_instance number self.old.instances }) }
        ensures err { OnErr result (self.new ≡ self.old) }
        ensures refusal { MatchResult result (λ _. join_refusal number self.old.instances ≡ None) (λ refusal. join_refusal number self.old.instances ≡ Some refusal) }
        ensures one { (tenant : List ℕ) → ReplacesOne tenant self.old.instances self.new.instances }
    {
        let instance = self.joining(number)?;
        self.members[instance.index()] = true;
        Ok(())
    }

    /// Takes an instance out of the ring.
    ///
    /// # Errors
    /// [`RingRefusal::Small`] where only three are in it, else [`RingRefusal::WrongInstance`] where this one isn't in
    /// it. The ring stays as it was.
    pub fn leave(&mut self, number: u8) -> Result<(), RingRefusal>
        ensures ok { OnOk result (self.new ≡ record { instances = without number self.old.instances }) }
        ensures err { OnErr result (self.new ≡ self.old) }
        ensures refusal { MatchResult result (λ _. leave_refusal number self.old.instances ≡ None) (λ refusal. leave_refusal number self.old.instances ≡ Some refusal) }
        ensures one { (tenant : List ℕ) → ReplacesOne tenant self.old.instances self.new.instances }
    {
        let instance = self.leaving(number)?;
        self.members[instance.index()] = false;
        Ok(())
    }

    /// The tenant's replicas, at positions 0, 1 and 2: the three instances of the ring that are nearest to its place.
    pub fn replicas(&self, tenant: &TenantName) -> [Instance; 3]
        ensures { result ≡ replicas tenant.now self.now.instances }
    {
        let place = place(tenant);
        let mut left = self.members;
        let first = take_nearest(&mut left, place);
        let second = take_nearest(&mut left, place);
        let third = take_nearest(&mut left, place);
        [first, second, third]
    }

    /// The position of an instance among the tenant's replicas, 0 to 2. None where it is no replica.
    pub fn position(&self, tenant: &TenantName, instance: Instance) -> Option<usize>
        ensures { result ≡ position_of tenant.now self.now.instances instance }
    {
        // From here on it is known what holds of each ring.
        let _ = &self.members;
        position_in(&self.replicas(tenant), instance)
    }

    // The instance of this number, where it is in the ring.
    fn member(&self, number: u8) -> Option<Instance>
        ensures { result ≡ (if is_among number self.now.instances then Some number else None) }
    {
        let members = &self.members;
        match Instance::new(number) {
            Some(instance) => members[instance.index()].then_some(instance),
            None => None,
        }
    }

    // The instance that may join.
    #[tactic(auto, unfolding(crate::specs::Changes::join_refusal))]
    fn joining(&self, number: u8) -> Result<Instance, RingRefusal>
        ensures instance { MatchResult result (λ instance. instance ≡ number) (λ refusal. join_refusal number self.now.instances ≡ Some refusal) }
        ensures none { OnOk result (join_refusal number self.now.instances ≡ None) }
    {
        if self.len() >= 8 {
            return Err(RingRefusal::Full);
        }
        match Instance::new(number) {
            Some(instance) if !self.contains(number) => Ok(instance),
            _ => Err(RingRefusal::WrongInstance),
        }
    }

    // The instance that may leave.
    #[tactic(auto, unfolding(crate::specs::Changes::leave_refusal))]
    fn leaving(&self, number: u8) -> Result<Instance, RingRefusal>
        ensures instance { MatchResult result (λ instance. instance ≡ number) (λ refusal. leave_refusal number self.now.instances ≡ Some refusal) }
        ensures none { OnOk result (leave_refusal number self.now.instances ≡ None) }
    {
        if self.len() <= 3 {
            return Err(RingRefusal::Small);
        }
        match self.member(number) {
            Some(instance) => Ok(instance),
            None => Err(RingRefusal::WrongInstance),
        }
    }
}

// Whether the numbers are those of a ring.
fn may_be_ring(numbers: &[u8]) -> bool
    ensures { result ≡ may_be_ring numbers.now }
{
    3 <= numbers.len() && numbers.len() <= 8 && are_instances(numbers) && differ(numbers)
}

// Whether each is the number of an instance.
fn are_instances(numbers: &[u8]) -> bool
    ensures { result ≡ list_all is_instance numbers.now }
{
    numbers.iter().all(|number| 1 <= *number && *number <= 8)
}

// Whether no number stands in the list twice.
fn differ(numbers: &[u8]) -> bool
    ensures { result ≡ all_differ numbers.now }
{
    for (i, number) in numbers.iter().enumerate() {
        if is_among(*number, &numbers[i + 1..]) {
            return false;
        }
    }
    true
}

// Whether the number is one of the others.
fn is_among(number: u8, others: &[u8]) -> bool
    ensures { result ≡ is_among number others.now }
{
    others.iter().any(|other| number == *other)
}

// Where the first of these is the instance.
fn position_in(instances: &[Instance], instance: Instance) -> Option<usize>
    ensures { result ≡ position (λ other. other == instance) instances.now }
{
    instances.iter().position(|other| *other == instance)
}

// For each instance whether its number is one of these.
fn flags_of(numbers: &[u8]) -> [bool; 8]
    ensures { result ≡ flags_of numbers.now }
{
    let mut flags = [false; 8];
    for index in 0..8 {
        flags[index] = is_among(index as u8 + 1, numbers);
    }
    flags
}

// How many flags stand.
fn count(flags: &[bool]) -> usize
    ensures { result ≡ count_by (λ stands. stands) flags.now }
{
    flags.iter().filter(|stands| **stands).count()
}
