//! What each event does by which the ring or one of the instances changes, or a tenant's replicas are settled by force.

ghost use Rattle.std.specs.Prelude.{◌≡◌, ◌==◌, ℕ, List, false, Err, IsOk, IsSome, MatchOption, OnErr, is_none};
ghost use Rattle.am_cluster.specs.Roster.{refused_by_ring};
ghost use Rattle.am_event.specs.declared.event.Event.{Event};
ghost use Rattle.am_ring.specs.Instances.{all_instances};

use crate::instances::{NUMBERS, place};
use crate::state::State;
use am_event::Refused;
use am_ring::{Instance as Number, RingRefusal};
use am_rows::Rows;
use am_tenant::TenantName;
use std::alloc::Global;

impl State {
    ghost use Rattle.am_instance.specs.Leaving.{LeavesOwn};
    ghost use Rattle.am_instance.specs.Shelves.{Shelf};
    ghost use Rattle.am_world.specs.Changing.{ForcesAt, InTurn, MayComeUp, Restarting, around_opening, may_restart};
    ghost use Rattle.am_world.specs.Consistent.{IsConsistent, around_at, newest_in, over};
    ghost use Rattle.am_world.specs.Leaving.{LeavesShelves, stop_at};
    ghost use Rattle.am_world.specs.Places.{At, instance_at};
    ghost use Rattle.am_world.specs.Refusal.{refusal};
    ghost use Rattle.am_world.specs.Shelves.{AreBacked, NeverCleaner, shelf_at, shelves_of};
    ghost use Rattle.am_world.specs.Stopping.{Step};

    // Where no memory is found for the ring, nothing has changed, and a fault is counted.
    pub(crate) fn on_join<R: Rows>(
        &mut self,
        alloc: Global,
        instance: u8,
        stores: &mut [R],
    ) -> Result<(), Refused>
        requires consistent { IsConsistent self.old }
        requires backed { AreBacked self.old.instances (shelves_of R.Rows stores.old) }
        ensures step { Step (over self.old (shelves_of R.Rows stores.old)) (Event.Join instance)
            (over self.new (shelves_of R.Rows stores.new)) }
        ensures refused { MatchOption (refusal self.old (Event.Join instance)) (IsOk result) (λ r. result ≡ Err r) }
        ensures err { OnErr result ((self.new ≡ self.old) × (stores.new ≡ stores.old)) }
        ensures consistent { IsConsistent self.new }
        ensures backed { AreBacked self.new.instances (shelves_of R.Rows stores.new) }
        ensures left { LeavesShelves R.rejects self.old (Event.Join instance) self.new
            (shelves_of R.Rows stores.old) (shelves_of R.Rows stores.new) }
    {
        let mut ring = *self.common.newest();
        if let Err(refusal) = ring.join(instance) {
            return Err(by_ring(refusal));
        }
        let number = Number::new(instance).unwrap();
        if self.instances.incarnation(instance) == u32::MAX {
            return Err(Refused::NoIncarnation);
        }
        if self.common.rings.push(ring).is_err() {
            self.count_fault();
            return Ok(());
        }
        let incarnations = self.instances.next_incarnations(number);
        self.come_up(alloc, number, &incarnations, &mut stores[place(number)]);
        Ok(())
    }

    // Where no memory is found for the ring, nothing has changed, and a fault is counted. Where a store refuses to drop
    // rows, the instance is out of the ring all the same.
    pub(crate) fn on_leave<R: Rows>(
        &mut self,
        alloc: Global,
        instance: u8,
        stores: &mut [R],
    ) -> Result<(), Refused>
        requires consistent { IsConsistent self.old }
        requires backed { AreBacked self.old.instances (shelves_of R.Rows stores.old) }
        ensures step { Step (over self.old (shelves_of R.Rows stores.old)) (Event.Leave instance)
            (over self.new (shelves_of R.Rows stores.new)) }
        ensures refused { MatchOption (refusal self.old (Event.Leave instance)) (IsOk result) (λ r. result ≡ Err r) }
        ensures err { OnErr result ((self.new ≡ self.old) × (stores.new ≡ stores.old)) }
        ensures consistent { IsConsistent self.new }
        ensures backed { AreBacked self.new.instances (shelves_of R.Rows stores.new) }
        ensures left { LeavesShelves R.rejects self.old (Event.Leave instance) self.new
            (shelves_of R.Rows stores.old) (shelves_of R.Rows stores.new) }
    {
        let mut ring = *self.common.newest();
        if let Err(refusal) = ring.leave(instance) {
            return Err(by_ring(refusal));
        }
        let number = Number::new(instance).unwrap();
        if self.common.rings.push(ring).is_err() {
            self.count_fault();
            return Ok(());
        }
        let store = &mut stores[place(number)];
        if let Err(fault) = self.instances.leave(alloc, number, store) {
            self.stop(alloc, number, fault);
        }
        Ok(())
    }

    pub(crate) fn on_crash(&mut self, alloc: Global, instance: u8) -> Result<(), Refused>
        requires { IsConsistent self.old }
        ensures step { (shelves : List Shelf) → AreBacked self.old.instances shelves →
            Step (over self.old shelves) (Event.Crash instance) (over self.new shelves) }
        ensures refused { MatchOption (refusal self.old (Event.Crash instance)) (IsOk result) (λ r. result ≡ Err r) }
        ensures err { OnErr result (self.new ≡ self.old) }
        ensures consistent { IsConsistent self.new }
        ensures backed { (shelves : List Shelf) →
            AreBacked self.old.instances shelves → AreBacked self.new.instances shelves }
    {
        let Some(number) = self.instances.up(instance) else {
            return Err(Refused::InstanceNotUp);
        };
        self.instances.shut(alloc, number);
        Ok(())
    }

    pub(crate) fn on_restart<R: Rows>(
        &mut self,
        alloc: Global,
        instance: u8,
        stores: &mut [R],
    ) -> Result<(), Refused>
        requires consistent { IsConsistent self.old }
        requires backed { AreBacked self.old.instances (shelves_of R.Rows stores.old) }
        ensures step { Step (over self.old (shelves_of R.Rows stores.old)) (Event.Restart instance)
            (over self.new (shelves_of R.Rows stores.new)) }
        ensures refused { MatchOption (refusal self.old (Event.Restart instance)) (IsOk result)
            (λ r. result ≡ Err r) }
        ensures err { OnErr result ((self.new ≡ self.old) × (stores.new ≡ stores.old)) }
        ensures consistent { IsConsistent self.new }
        ensures backed { AreBacked self.new.instances (shelves_of R.Rows stores.new) }
        ensures left { LeavesShelves R.rejects self.old (Event.Restart instance) self.new
            (shelves_of R.Rows stores.old) (shelves_of R.Rows stores.new) }
    {
        if !self.may_restart(instance) {
            return Err(Refused::InstanceNotUp);
        }
        if self.instances.incarnation(instance) == u32::MAX {
            return Err(Refused::NoIncarnation);
        }
        let number = Number::new(instance).unwrap();
        self.restart(alloc, number, stores);
        Ok(())
    }

    // Whether an instance is in the newest ring, and not up.
    fn may_restart(&self, instance: u8) -> bool
        requires { IsConsistent self.now }
        ensures { result ≡ may_restart self.now instance }
    {
        self.common.newest().contains(instance) && self.instances.up(instance).is_none()
    }

    // Starts an instance in its next incarnation, and lets all others follow that, in order of number.
    fn restart<R: Rows>(&mut self, alloc: Global, number: Number, stores: &mut [R])
        requires consistent { IsConsistent self.old }
        requires exists { IsSome (instance_at number self.old.instances) }
        requires may { At number (MayComeUp (newest_in self.old.common)) self.old.instances }
        requires backed { AreBacked self.old.instances (shelves_of R.Rows stores.old) }
        ensures turns { Restarting (around_opening number self.old) number
            (shelf_at number (shelves_of R.Rows stores.old)) (shelf_at number (shelves_of R.Rows stores.new))
            self.old self.new }
        ensures consistent { IsConsistent self.new }
        ensures clean { NeverCleaner (shelves_of R.Rows stores.old) (shelves_of R.Rows stores.new) }
        ensures backed { AreBacked self.new.instances (shelves_of R.Rows stores.new) }
        ensures others { (i : ℕ) → (i == number) ≡ false →
            shelf_at i (shelves_of R.Rows stores.new) ≡ shelf_at i (shelves_of R.Rows stores.old) }
        ensures left { LeavesOwn (newest_in self.old.common) number (stop_at number self.new.instances)
            (shelf_at number (shelves_of R.Rows stores.old)) (shelf_at number (shelves_of R.Rows stores.new)) }
    {
        let incarnations = self.instances.next_incarnations(number);
        let at = place(number);
        self.follow_restart_all(alloc, &NUMBERS[..at], number, &incarnations);
        self.come_up(alloc, number, &incarnations, &mut stores[at]);
        self.follow_restart_all(alloc, &NUMBERS[at + 1..], number, &incarnations);
    }

    pub(crate) fn on_learn<R: Rows>(
        &mut self,
        alloc: Global,
        instance: u8,
        stores: &mut [R],
    ) -> Result<(), Refused>
        requires consistent { IsConsistent self.old }
        requires backed { AreBacked self.old.instances (shelves_of R.Rows stores.old) }
        ensures step { Step (over self.old (shelves_of R.Rows stores.old)) (Event.Learn instance)
            (over self.new (shelves_of R.Rows stores.new)) }
        ensures refused { MatchOption (refusal self.old (Event.Learn instance)) (IsOk result) (λ r. result ≡ Err r) }
        ensures err { OnErr result ((self.new ≡ self.old) × (stores.new ≡ stores.old)) }
        ensures consistent { IsConsistent self.new }
        ensures backed { AreBacked self.new.instances (shelves_of R.Rows stores.new) }
        ensures left { LeavesShelves R.rejects self.old (Event.Learn instance) self.new
            (shelves_of R.Rows stores.old) (shelves_of R.Rows stores.new) }
    {
        if !self.is_behind(instance) {
            return Err(Refused::NothingToLearn);
        }
        let number = Number::new(instance).unwrap();
        self.learn(alloc, number, &mut stores[place(number)]);
        Ok(())
    }

    /// Whether an instance is up, and knows a ring that isn't the newest.
    pub fn is_behind(&self, instance: u8) -> bool
        requires { IsConsistent self.now }
        ensures { result ≡ is_none (refusal self.now (Event.Learn instance)) }
    {
        self.instances.up(instance).is_some()
            && self.instances.known(instance) < self.common.newest_epoch()
    }

    // Settles all instances that are up, in order of number.
    pub(crate) fn on_force(&mut self, alloc: Global, tenant: &TenantName)
        requires { IsConsistent self.old }
        ensures step { (shelves : List Shelf) →
            Step (over self.old shelves) (Event.Force tenant.now) (over self.new shelves) }
        ensures consistent { IsConsistent self.new }
        ensures backed { (shelves : List Shelf) →
            AreBacked self.old.instances shelves → AreBacked self.new.instances shelves }
    {
        self.force_all(alloc, tenant);
    }

    fn force_all(&mut self, alloc: Global, tenant: &TenantName)
        requires { IsConsistent self.old }
        ensures turns { InTurn (ForcesAt (around_at self.old.clock self.old) tenant.now) all_instances
            self.old self.new }
        ensures consistent { IsConsistent self.new }
        ensures backed { (shelves : List Shelf) →
            AreBacked self.old.instances shelves → AreBacked self.new.instances shelves }
    {
        for number in NUMBERS {
            self.force(alloc, number, tenant);
        }
    }
}

// Why an event is refused that the ring refuses.
fn by_ring(refusal: RingRefusal) -> Refused
    ensures { result ≡ refused_by_ring refusal }
{
    match refusal {
        RingRefusal::Full => Refused::RingFull,
        RingRefusal::Small => Refused::RingSmall,
        RingRefusal::WrongInstance => Refused::WrongInstance,
    }
}
