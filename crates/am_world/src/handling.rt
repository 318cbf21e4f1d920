//! What each event does.

ghost use Rattle.std.specs.Prelude.{◌≡◌, ◌≤◌, List, Err, IsOk, MatchOption, OnErr};
ghost use Rattle.am_cluster.specs.Moments.{effective, last_moment};
ghost use Rattle.am_event.specs.declared.event.Event.{Event};
ghost use Rattle.am_ring.specs.Instances.{all_instances};

use crate::instances::{NUMBERS, place};
use crate::state::State;
use am_event::{AttemptName, LAST_MOMENT, Refused};
use am_http::ConnectionId;
use am_instance::{Ended, Piece};
use am_item::Fault;
use am_limit::Limits;
use am_messages::MessageName;
use am_ring::Instance as Number;
use am_rows::Rows;
use am_tenant::TenantName;
use am_text::{Moment, Octets};
use std::alloc::Global;

impl State {
    ghost use Rattle.am_instance.specs.Shelves.{Shelf};
    ghost use Rattle.am_world.specs.Consistent.{IsConsistent, over};
    ghost use Rattle.am_world.specs.Leaving.{LeavesShelves};
    ghost use Rattle.am_world.specs.Refusal.{refusal};
    ghost use Rattle.am_world.specs.Shelves.{AreBacked, NeverCleaner, shelves_of};
    ghost use Rattle.am_world.specs.Stopping.{Step};
    ghost use Rattle.am_world.specs.Ticks.{TakeTurns};

    pub(crate) fn on_open(
        &mut self,
        alloc: Global,
        connection: ConnectionId,
        instance: u8,
    ) -> Result<(), Refused>
        requires { IsConsistent self.old }
        ensures step { (shelves : List Shelf) →
            Step (over self.old shelves) (Event.Open connection instance) (over self.new shelves) }
        ensures refused { MatchOption (refusal self.old (Event.Open connection instance))
            (IsOk result) (λ r. result ≡ Err r) }
        ensures err { OnErr result (self.new ≡ self.old) }
        ensures consistent { IsConsistent self.new }
        ensures backed { (shelves : List Shelf) →
            AreBacked self.old.instances shelves → AreBacked self.new.instances shelves }
    {
        let Some(number) = self.instances.up(instance) else {
            return Err(Refused::InstanceNotUp);
        };
        match self.instances.begin(alloc, number, connection) {
            Ok(()) => Ok(()),
            Err(_) => {
                self.stop(alloc, number, Fault::OutOfMemory);
                Ok(())
            }
        }
    }

    pub(crate) fn on_bytes(
        &mut self,
        alloc: Global,
        connection: ConnectionId,
        moment: u64,
        piece: &Octets,
    ) -> Result<(), Refused>
        requires { IsConsistent self.old }
        ensures step { (shelves : List Shelf) →
            Step (over self.old shelves) (Event.Bytes connection moment piece.now) (over self.new shelves) }
        ensures refused { MatchOption (refusal self.old (Event.Bytes connection moment piece.now))
            (IsOk result) (λ r. result ≡ Err r) }
        ensures err { OnErr result (self.new ≡ self.old) }
        ensures consistent { IsConsistent self.new }
        ensures backed { (shelves : List Shelf) →
            AreBacked self.old.instances shelves → AreBacked self.new.instances shelves }
    {
        if moment > LAST_MOMENT {
            return Err(Refused::MomentRefused);
        }
        let Some(reader) = self.instances.reader_of(connection) else {
            return Err(Refused::NotReading);
        };
        let at = self.effective(moment);
        let bytes = piece.as_slice();
        let piece = Piece { connection, bytes };
        match self.feed(alloc, reader, &piece, at) {
            Ok(()) => Ok(()),
            Err(fault) => {
                self.stop(alloc, reader, fault);
                Ok(())
            }
        }
    }

    pub(crate) fn on_close(&mut self, connection: ConnectionId) -> Result<(), Refused>
        requires { IsConsistent self.old }
        ensures step { (shelves : List Shelf) →
            Step (over self.old shelves) (Event.Close connection) (over self.new shelves) }
        ensures refused { MatchOption (refusal self.old (Event.Close connection)) (IsOk result) (λ r. result ≡ Err r) }
        ensures err { OnErr result (self.new ≡ self.old) }
        ensures consistent { IsConsistent self.new }
        ensures backed { (shelves : List Shelf) →
            AreBacked self.old.instances shelves → AreBacked self.new.instances shelves }
    {
        let Some(reader) = self.instances.reader_of(connection) else {
            return Err(Refused::NotReading);
        };
        self.instances.close(reader, connection);
        Ok(())
    }

    // No instance has work of it: where memory is refused, nothing has changed, and a fault is counted.
    pub(crate) fn on_limits(&mut self, alloc: Global, tenant: &TenantName, limits: Limits)
        requires { IsConsistent self.old }
        ensures step { (shelves : List Shelf) →
            Step (over self.old shelves) (Event.Limits tenant.now limits) (over self.new shelves) }
        ensures consistent { IsConsistent self.new }
        ensures backed { self.new.instances ≡ self.old.instances }
    {
        match self.common.limits.set(alloc, tenant, limits) {
            Ok(()) => {}
            Err(_) => self.count_fault(),
        }
    }

    pub(crate) fn on_tick<R: Rows>(
        &mut self,
        alloc: Global,
        moment: u64,
        stores: &mut [R],
    ) -> Result<(), Refused>
        requires consistent { IsConsistent self.old }
        requires backed { AreBacked self.old.instances (shelves_of R.Rows stores.old) }
        ensures step { Step (over self.old (shelves_of R.Rows stores.old)) (Event.Tick moment)
            (over self.new (shelves_of R.Rows stores.new)) }
        ensures refused { MatchOption (refusal self.old (Event.Tick moment)) (IsOk result) (λ r. result ≡ Err r) }
        ensures err { OnErr result ((self.new ≡ self.old) × (stores.new ≡ stores.old)) }
        ensures consistent { IsConsistent self.new }
        ensures backed { AreBacked self.new.instances (shelves_of R.Rows stores.new) }
        ensures left { LeavesShelves R.rejects self.old (Event.Tick moment) self.new
            (shelves_of R.Rows stores.old) (shelves_of R.Rows stores.new) }
    {
        if moment > LAST_MOMENT || moment < self.clock.milliseconds() {
            return Err(Refused::MomentRefused);
        }
        self.clock = self.effective(moment);
        self.messages.lose_before(self.clock);
        self.tick_all(alloc, stores);
        Ok(())
    }

    pub(crate) fn on_outcome(
        &mut self,
        alloc: Global,
        attempt: &AttemptName,
        ended: Ended,
        moment: u64,
    ) -> Result<(), Refused>
        requires { IsConsistent self.old }
        ensures step { (shelves : List Shelf) → Step (over self.old shelves)
            (Event.Outcome attempt.now ended.tries moment ended.status) (over self.new shelves) }
        ensures refused { MatchOption (refusal self.old (Event.Outcome attempt.now ended.tries moment ended.status))
            (IsOk result) (λ r. result ≡ Err r) }
        ensures err { OnErr result (self.new ≡ self.old) }
        ensures consistent { IsConsistent self.new }
        ensures backed { (shelves : List Shelf) →
            AreBacked self.old.instances shelves → AreBacked self.new.instances shelves }
    {
        if moment > LAST_MOMENT {
            return Err(Refused::MomentRefused);
        }
        let Some(instance) = self.instances.awaiting(attempt, ended.tries) else {
            return Err(Refused::NotAwaited);
        };
        let at = self.effective(moment);
        match self.take_outcome(alloc, instance, attempt, ended, at) {
            Ok(()) => Ok(()),
            Err(fault) => {
                self.stop(alloc, instance, fault);
                Ok(())
            }
        }
    }

    pub(crate) fn on_deliver<R: Rows>(
        &mut self,
        alloc: Global,
        name: &MessageName,
        moment: u64,
        stores: &mut [R],
    ) -> Result<(), Refused>
        requires consistent { IsConsistent self.old }
        requires backed { AreBacked self.old.instances (shelves_of R.Rows stores.old) }
        ensures step { Step (over self.old (shelves_of R.Rows stores.old)) (Event.Deliver name.now moment)
            (over self.new (shelves_of R.Rows stores.new)) }
        ensures refused { MatchOption (refusal self.old (Event.Deliver name.now moment))
            (IsOk result) (λ r. result ≡ Err r) }
        ensures err { OnErr result ((self.new ≡ self.old) × (stores.new ≡ stores.old)) }
        ensures consistent { IsConsistent self.new }
        ensures backed { AreBacked self.new.instances (shelves_of R.Rows stores.new) }
        ensures left { LeavesShelves R.rejects self.old (Event.Deliver name.now moment) self.new
            (shelves_of R.Rows stores.old) (shelves_of R.Rows stores.new) }
    {
        if moment > LAST_MOMENT {
            return Err(Refused::MomentRefused);
        }
        let Some(message) = self.messages.find(name) else {
            return Err(Refused::NotSent);
        };
        let Some(receiver) = self.instances.up(message.to.number()) else {
            return Ok(());
        };
        let Ok(message) = message.share() else {
            self.stop(alloc, receiver, Fault::OutOfMemory);
            return Ok(());
        };
        let at = self.effective(moment);
        let store = &mut stores[place(receiver)];
        match self.receive(alloc, receiver, message, at, store) {
            Ok(()) => Ok(()),
            Err(fault) => {
                self.stop(alloc, receiver, fault);
                Ok(())
            }
        }
    }

    pub(crate) fn on_lose(&mut self, name: &MessageName) -> Result<(), Refused>
        requires { IsConsistent self.old }
        ensures step { (shelves : List Shelf) →
            Step (over self.old shelves) (Event.Lose name.now) (over self.new shelves) }
        ensures refused { MatchOption (refusal self.old (Event.Lose name.now)) (IsOk result) (λ r. result ≡ Err r) }
        ensures err { OnErr result (self.new ≡ self.old) }
        ensures consistent { IsConsistent self.new }
        ensures backed { self.new.instances ≡ self.old.instances }
    {
        if self.messages.find(name).is_none() {
            return Err(Refused::NotSent);
        }
        self.messages.lose(name);
        Ok(())
    }

    // Lets all instances tick at the moment of the clock, in order of number.
    fn tick_all<R: Rows>(&mut self, alloc: Global, stores: &mut [R])
        requires consistent { IsConsistent self.old }
        requires backed { AreBacked self.old.instances (shelves_of R.Rows stores.old) }
        ensures turns { TakeTurns all_instances self.old self.new }
        ensures consistent { IsConsistent self.new }
        ensures clean { NeverCleaner (shelves_of R.Rows stores.old) (shelves_of R.Rows stores.new) }
        ensures backed { AreBacked self.new.instances (shelves_of R.Rows stores.new) }
        ensures left { LeavesShelves R.rejects self.old (Event.Tick self.old.clock) self.new
            (shelves_of R.Rows stores.old) (shelves_of R.Rows stores.new) }
    {
        for number in NUMBERS {
            let number = Number::new(number).unwrap();
            self.tick_at(alloc, number, &mut stores[place(number)]);
        }
    }

    // The moment at which an event happens: its own, but never before the last tick.
    fn effective(&self, moment: u64) -> Moment
        requires { moment ≤ last_moment }
        ensures { result ≡ effective moment self.now.clock }
    {
        match Moment::from_milliseconds(moment) {
            Some(own) if moment > self.clock.milliseconds() => own,
            _ => self.clock,
        }
    }
}
