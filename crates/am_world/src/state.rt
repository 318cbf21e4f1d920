//! What a world is beside its stores.

ghost use Rattle.std.specs.Prelude.{◌≡◌, ◌<◌, true, length, IfErr, IfOk, IsOk, MatchOption, OnErr, OnOk, Err};
ghost use Rattle.std.specs.Option.{option_copied};

use crate::common::Common;
use crate::instances::{Beginning, Instances, NUMBERS, place};
use crate::opening::OpenRefusal;
use am_event::{Event, Output, Refused};
use am_instance::Ended;
use am_item::Fault;
use am_limit::LimitBook;
use am_messages::{MessageName, Messages};
use am_ring::Instance as Number;
use am_rows::Rows;
use am_setup::Setup;
use am_text::Moment;
use am_wire::Message;
use std::alloc::{AllocError, Global};
use std::mem;

/// All instances, what is the same for them, the messages between them, the clock, and what was put out so far. Its
/// calls borrow the stores of the instances, in order of number.
pub struct State {
    pub(crate) clock: Moment,
    pub(crate) common: Common,
    pub(crate) instances: Instances,
    pub(crate) messages: Messages,
    pub(crate) outputs: Vec<Output>,
    pub(crate) faults: u64,
}

// Written out, so that a crate which owns one has no need to prove anew how each of its parts is dropped.
impl Drop for State {
    fn drop(self) {
        let State {
            clock: _clock,
            common,
            instances,
            messages,
            outputs,
            faults: _faults,
        } = self;
        drop(common);
        drop(instances);
        drop(messages);
        drop(outputs);
    }
}

impl State {
    ghost use Rattle.am_world.specs.Consistent.{IsConsistent, around_at, over};
    ghost use Rattle.am_world.specs.Leaving.{LeavesShelves};
    ghost use Rattle.am_world.specs.Opening.{FailsToOpen, FailsWith, IsSameBesideInstances, IsUnopened, Opens};
    ghost use Rattle.am_world.specs.Opening.{OpensAt, StayOutside, first_ring};
    ghost use Rattle.am_world.specs.Places.{AreNumbered, At, cause_at, up_at};
    ghost use Rattle.am_world.specs.Refusal.{refusal};
    ghost use Rattle.am_world.specs.Runs.{Forgets, Headline, Prefixes, Run};
    ghost use Rattle.am_world.specs.Shelves.{AreBacked, AreClean, NeverCleaner, rows_in, shelf_at, shelves_of};
    ghost use Rattle.am_world.specs.Simulation.{fault_count, message_named, put_out};
    ghost use Rattle.am_world.specs.Stopping.{Step};
    ghost use Rattle.am_instance.specs.Instance.{IsDown};
    ghost use Rattle.am_instance.specs.Shelves.{shelf_of};
    ghost use Rattle.am_instance.specs.Whole.{IsWhole};

    /// At moment 0, where no connection is open and no message was sent: the instances of the ring open their stores,
    /// and each holds what its store has of the tenants of which it is a replica. The other stores stay as they were.
    ///
    /// # Errors
    /// The store of an instance was refused with `F2` or `F3`; or out of memory.
    pub fn open<R: Rows>(
        alloc: Global,
        setup: Setup,
        stores: &mut [R],
    ) -> Result<State, OpenRefusal>
        requires { length stores.old ≡ 8 }
        ensures opens { AreClean (shelves_of R.Rows stores.new) → IfOk result
            (λ state. Opens setup.origin (rows_in (shelves_of R.Rows stores.old))
            (over state (shelves_of R.Rows stores.new))) }
        ensures clean { NeverCleaner (shelves_of R.Rows stores.old) (shelves_of R.Rows stores.new) }
        ensures consistent { IfOk result IsConsistent }
        ensures backed { IfOk result (λ state. AreBacked state.instances (shelves_of R.Rows stores.new)) }
        ensures left { StayOutside setup.origin.ring (shelves_of R.Rows stores.old) (shelves_of R.Rows stores.new) }
        ensures refused { IfErr result (FailsToOpen R.Rows setup.origin.ring stores.old) }
    {
        let mut state = State::unopened(alloc, setup)?;
        for number in NUMBERS {
            let number = Number::new(number).unwrap();
            state.open_at(alloc, number, &mut stores[place(number)])?;
        }
        Ok(state)
    }

    /// What was put out so far, in order.
    pub fn outputs(&self) -> &[Output]
        ensures { result.now ≡ put_out self.now }
    {
        self.outputs.as_slice()
    }

    /// Forgets what was put out so far.
    pub fn clear_outputs(&mut self)
        ensures { Forgets self.old self.new }
    {
        self.outputs.clear();
    }

    /// Hands over what was put out so far, in order, and forgets it.
    pub fn take_outputs(&mut self, alloc: Global) -> Vec<Output>
        ensures taken { result.items ≡ put_out self.old }
        ensures forgets { Forgets self.old self.new }
    {
        mem::replace(&mut self.outputs, Vec::new(alloc))
    }

    /// How many faults came so far, at most 2^64 - 1.
    pub fn faults(&self) -> u64
        ensures { result ≡ fault_count self.now }
    {
        self.faults
    }

    /// Whether an instance is up.
    pub fn is_up(&self, instance: u8) -> bool
        ensures { result ≡ up_at instance self.now.instances }
    {
        self.instances.is_up(instance)
    }

    /// The fault that stopped an instance, where one did.
    pub fn cause(&self, instance: u8) -> Option<Fault>
        ensures { result ≡ cause_at instance self.now.instances }
    {
        self.instances.cause(instance)
    }

    /// The message of a name, where it was sent and isn't lost.
    pub fn message(&self, name: &MessageName) -> Option<&Message>
        ensures { option_copied result ≡ message_named name.now self.now }
    {
        self.messages.find(name)
    }

    /// Handles one event. A refused one changes nothing. Where the system refuses memory, a store refuses a call, a
    /// count passes its greatest number, a message its greatest length, or a pattern that is in use gives no answer,
    /// each instance that met this stops, puts nothing out, and is counted as a fault, while the others that handle the
    /// event go on. Where there is no memory for a tenant's limits or for a ring, nothing changes but the count.
    pub fn step<R: Rows>(
        &mut self,
        alloc: Global,
        event: &Event,
        stores: &mut [R],
    ) -> Result<(), Refused>
        requires consistent { IsConsistent self.old }
        requires backed { AreBacked self.old.instances (shelves_of R.Rows stores.old) }
        ensures step { Step (over self.old (shelves_of R.Rows stores.old)) event.now
            (over self.new (shelves_of R.Rows stores.new)) }
        ensures refused { MatchOption (refusal self.old event.now) (IsOk result) (λ r. result ≡ Err r) }
        ensures err { OnErr result ((self.new ≡ self.old) × (stores.new ≡ stores.old)) }
        ensures consistent { IsConsistent self.new }
        ensures backed { AreBacked self.new.instances (shelves_of R.Rows stores.new) }
        ensures left { LeavesShelves R.rejects self.old event.now self.new
            (shelves_of R.Rows stores.old) (shelves_of R.Rows stores.new) }
    {
        match event {
            Event::Open {
                connection,
                instance,
            } => self.on_open(alloc, *connection, *instance),
            Event::Bytes {
                connection,
                moment,
                piece,
            } => self.on_bytes(alloc, *connection, *moment, piece),
            Event::Close { connection } => self.on_close(*connection),
            Event::Limits { tenant, limits } => {
                self.on_limits(alloc, tenant, *limits);
                Ok(())
            }
            Event::Tick { moment } => self.on_tick(alloc, *moment, stores),
            Event::Outcome {
                attempt,
                tries,
                moment,
                status,
            } => {
                let ended = Ended {
                    tries: *tries,
                    status: *status,
                };
                self.on_outcome(alloc, attempt, ended, *moment)
            }
            Event::Deliver { message, moment } => self.on_deliver(alloc, message, *moment, stores),
            Event::Lose { message } => self.on_lose(message),
            Event::Join { instance } => self.on_join(alloc, *instance, stores),
            Event::Leave { instance } => self.on_leave(alloc, *instance, stores),
            Event::Crash { instance } => self.on_crash(alloc, *instance),
            Event::Restart { instance } => self.on_restart(alloc, *instance, stores),
            Event::Learn { instance } => self.on_learn(alloc, *instance, stores),
            Event::Force { tenant } => {
                self.on_force(alloc, tenant);
                Ok(())
            }
        }
    }

    /// Handles events one after the other, and goes on after a refused one. Each tenant's outputs are those of its
    /// private cluster, also on a further run, and what was put out before a first fault is so too.
    pub fn run<R: Rows>(&mut self, alloc: Global, events: &[Event], stores: &mut [R])
        requires consistent { IsConsistent self.old }
        requires backed { AreBacked self.old.instances (shelves_of R.Rows stores.old) }
        ensures steps { Run (over self.old (shelves_of R.Rows stores.old)) events.now
            (over self.new (shelves_of R.Rows stores.new)) }
        ensures headline { Headline (over self.old (shelves_of R.Rows stores.old)) events.now
            (over self.new (shelves_of R.Rows stores.new)) }
        ensures prefixes { Prefixes (over self.old (shelves_of R.Rows stores.old)) events.now
            (over self.new (shelves_of R.Rows stores.new)) }
        ensures consistent { IsConsistent self.new }
        ensures clean { NeverCleaner (shelves_of R.Rows stores.old) (shelves_of R.Rows stores.new) }
        ensures backed { AreBacked self.new.instances (shelves_of R.Rows stores.new) }
    {
        for event in events {
            let _ = self.step(alloc, event, stores);
        }
    }

    // At moment 0, where no instance is up.
    fn unopened(alloc: Global, setup: Setup) -> Result<State, AllocError>
        ensures { IfOk result (IsUnopened setup.origin) }
    {
        let beginning = Beginning {
            first: setup.start(),
            capacity: setup.capacity(),
            hash_key: setup.hash_key(),
        };
        let mut rings = Vec::new(alloc);
        rings.push(setup.ring())?;
        Ok(State {
            clock: Moment::from_milliseconds(0).unwrap(),
            common: Common {
                service_key: setup.service_key(),
                limits: LimitBook::new(alloc, setup.limits()),
                rings,
                first: setup.start(),
            },
            instances: Instances::new(alloc, beginning)?,
            messages: Messages::new(alloc),
            outputs: Vec::new(alloc),
            faults: 0,
        })
    }

    // Lets the instance of a number open its store, where it is in the ring.
    fn open_at<R: Rows>(
        &mut self,
        alloc: Global,
        number: Number,
        store: &mut R,
    ) -> Result<(), OpenRefusal>
        requires ring { 0 < length self.old.common.rings.items }
        requires numbered { AreNumbered self.old.instances }
        requires down { At number IsDown self.old.instances }
        requires whole { At number (IsWhole (around_at self.old.clock self.old)) self.old.instances }
        ensures beside { IsSameBesideInstances self.old self.new }
        ensures opens { OnOk result
            (OpensAt number (shelf_of R.Rows store.old) (shelf_of R.Rows store.new) self.old self.new) }
        ensures clean { R.is_clean store.new ≡ true → R.is_clean store.old ≡ true }
        ensures fails { IfErr result
            (FailsWith R.Rows (first_ring self.old.common.rings.items) number store.old store.new) }
    {
        if !self.common.rings[0].contains(number.number()) {
            return Ok(());
        }
        let incarnations = self.instances.incarnations();
        let occasion = self.common.occasion(self.clock, &incarnations);
        match self.instances.start(alloc, number, &occasion, store) {
            Ok(()) => Ok(()),
            Err(failure) => Err(OpenRefusal::of_store(number, failure)),
        }
    }
}
