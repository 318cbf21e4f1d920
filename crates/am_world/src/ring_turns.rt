//! One instance does what is to be done where the ring or one of them changes, at the moment of the clock, and what it
//! tells is posted and put out.

ghost use Rattle.std.specs.Prelude.{◌≡◌, ℕ, List, IsSome, true};

use crate::posting::send_out;
use crate::state::State;
use am_item::Fault;
use am_ring::Instance as Number;
use am_rows::Rows;
use am_tenant::TenantName;
use std::alloc::Global;

impl State {
    ghost use Rattle.am_instance.specs.Changing.{rows_held, rows_learned};
    ghost use Rattle.am_instance.specs.Leaving.{LeavesEachShelf, LeavesOwn};
    ghost use Rattle.am_instance.specs.Shelves.{IsBacked, Shelf, shelf_of};
    ghost use Rattle.am_world.specs.Changing.{ComesUpAt, FollowsRestartAt, ForcesAt, InTurn, IsBehind, LearnsRingAt};
    ghost use Rattle.am_world.specs.Changing.{MayComeUp};
    ghost use Rattle.am_world.specs.Consistent.{IsConsistent, around, around_at, newest_in};
    ghost use Rattle.am_world.specs.Leaving.{stop_at};
    ghost use Rattle.am_world.specs.Places.{At, instance_at};
    ghost use Rattle.am_world.specs.Shelves.{AreBacked};

    /// Starts an instance that is down in the newest ring in its next incarnation, where these are the incarnations
    /// from then on. A fault stops it, and it has put nothing out then.
    pub(crate) fn come_up<R: Rows>(
        &mut self,
        alloc: Global,
        number: Number,
        incarnations: &[u32],
        store: &mut R,
    )
        requires consistent { IsConsistent self.old }
        requires exists { IsSome (instance_at number self.old.instances) }
        requires may { At number (MayComeUp (newest_in self.old.common)) self.old.instances }
        ensures turn { ComesUpAt (around self.old.clock self.old.common incarnations.now) number
            (shelf_of R.Rows store.old) (shelf_of R.Rows store.new) self.old self.new }
        ensures consistent { IsConsistent self.new }
        ensures clean { R.is_clean store.new ≡ true → R.is_clean store.old ≡ true }
        ensures backed { At number (λ x. IsBacked x (shelf_of R.Rows store.new)) self.new.instances }
        ensures left { LeavesOwn (newest_in self.old.common) number (stop_at number self.new.instances)
            (shelf_of R.Rows store.old) (shelf_of R.Rows store.new) }
    {
        let occasion = self.common.occasion(self.clock, incarnations);
        let mut told = Vec::new(alloc);
        if let Err(fault) = self
            .instances
            .restart(alloc, number, &occasion, &mut told, store)
        {
            self.stop(alloc, number, fault);
            return;
        }
        if send_out(&mut self.messages, &mut self.outputs, told, self.clock).is_err() {
            self.stop(alloc, number, Fault::OutOfMemory);
        }
    }

    /// Lets the instance of a number follow the restart of another one, where it is up, and these are the incarnations
    /// from then on. A fault stops it, and it has put nothing out then.
    pub(crate) fn follow_restart(
        &mut self,
        alloc: Global,
        number: u8,
        restarted: Number,
        incarnations: &[u32],
    )
        requires { IsConsistent self.old }
        ensures turn { FollowsRestartAt (around self.old.clock self.old.common incarnations.now) restarted number
            self.old self.new }
        ensures consistent { IsConsistent self.new }
        ensures backed { (shelves : List Shelf) →
            AreBacked self.old.instances shelves → AreBacked self.new.instances shelves }
    {
        let Some(number) = self.instances.up(number) else {
            return;
        };
        let occasion = self.common.occasion(self.clock, incarnations);
        let mut told = Vec::new(alloc);
        if let Err(fault) = self
            .instances
            .follow_restart(alloc, number, &occasion, restarted, &mut told)
        {
            self.stop(alloc, number, fault);
            return;
        }
        if send_out(&mut self.messages, &mut self.outputs, told, self.clock).is_err() {
            self.stop(alloc, number, Fault::OutOfMemory);
        }
    }

    /// .. those of these numbers, one after the other.
    pub(crate) fn follow_restart_all(
        &mut self,
        alloc: Global,
        numbers: &[u8],
        restarted: Number,
        incarnations: &[u32],
    )
        requires { IsConsistent self.old }
        ensures turns { InTurn
            (FollowsRestartAt (around self.old.clock self.old.common incarnations.now) restarted) numbers.now
            self.old self.new }
        ensures consistent { IsConsistent self.new }
        ensures backed { (shelves : List Shelf) →
            AreBacked self.old.instances shelves → AreBacked self.new.instances shelves }
    {
        for number in numbers {
            self.follow_restart(alloc, *number, restarted, incarnations);
        }
    }

    /// Lets an instance that is behind go on to the next ring. A fault stops it, and it has put nothing out then.
    pub(crate) fn learn<R: Rows>(&mut self, alloc: Global, number: Number, store: &mut R)
        requires consistent { IsConsistent self.old }
        requires exists { IsSome (instance_at number self.old.instances) }
        requires may { At number (IsBehind self.old.common.rings.items) self.old.instances }
        requires backed { At number (λ x. IsBacked x (shelf_of R.Rows store.old)) self.old.instances }
        ensures turn { LearnsRingAt number self.old self.new }
        ensures consistent { IsConsistent self.new }
        ensures clean { R.is_clean store.new ≡ true → R.is_clean store.old ≡ true }
        ensures backed { At number (λ x. IsBacked x (shelf_of R.Rows store.new)) self.new.instances }
        ensures left { At number (λ x. LeavesEachShelf (rows_held x)
            (rows_learned (around_at self.old.clock self.old) x) (stop_at number self.new.instances)
            (shelf_of R.Rows store.old) (shelf_of R.Rows store.new)) self.old.instances }
    {
        let incarnations = self.instances.incarnations();
        let occasion = self.common.occasion(self.clock, &incarnations);
        let mut told = Vec::new(alloc);
        if let Err(fault) = self
            .instances
            .learn(alloc, number, &occasion, &mut told, store)
        {
            self.stop(alloc, number, fault);
            return;
        }
        if send_out(&mut self.messages, &mut self.outputs, told, self.clock).is_err() {
            self.stop(alloc, number, Fault::OutOfMemory);
        }
    }

    /// Settles the instance of a number for a tenant by force, where it is up. A fault stops it.
    pub(crate) fn force(&mut self, alloc: Global, number: u8, tenant: &TenantName)
        requires { IsConsistent self.old }
        ensures turn { ForcesAt (around_at self.old.clock self.old) tenant.now number self.old self.new }
        ensures consistent { IsConsistent self.new }
        ensures backed { (shelves : List Shelf) →
            AreBacked self.old.instances shelves → AreBacked self.new.instances shelves }
    {
        let Some(number) = self.instances.up(number) else {
            return;
        };
        let incarnations = self.instances.incarnations();
        let occasion = self.common.occasion(self.clock, &incarnations);
        if let Err(fault) = self.instances.force(alloc, number, &occasion, tenant) {
            self.stop(alloc, number, fault);
        }
    }
}
