//! One instance does something, at a moment, and what it tells is posted and put out.

ghost use Rattle.std.specs.Prelude.{◌≡◌, ◌+◌, ◌-◌, ◌^◌, ◌++◌, ℕ, List, [], true, false, Some, min};
ghost use Rattle.std.specs.Prelude.{IfErr, IsSome, OnErr, OnOk};
ghost use Rattle.am_cluster.specs.Delivery.{outcome};
ghost use Rattle.am_http.specs.Verdict.{verdict};
ghost use Rattle.am_instance.specs.Site.{IsRejected, StopsReacting, with_brought};

use crate::posting::send_out;
use crate::state::State;
use am_event::AttemptName;
use am_instance::{Ended, Piece};
use am_item::Fault;
use am_ring::Instance as Number;
use am_rows::Rows;
use am_text::Moment;
use am_wire::Message;
use std::alloc::Global;

impl State {
    ghost use Rattle.am_instance.specs.Node.{fault_in, retired as retired_in_node};
    ghost use Rattle.am_instance.specs.Bringing.{Brings, IsCause};
    ghost use Rattle.am_instance.specs.Here.{here_on};
    ghost use Rattle.am_instance.specs.Instance.{GoesOn, IsDown, IsSameNode, ReadsOn, bytes_in, refused_in};
    ghost use Rattle.am_instance.specs.Leaving.{LeavesShelf};
    ghost use Rattle.am_instance.specs.Reacting.{Reacts};
    ghost use Rattle.am_instance.specs.Receiving.{Receives, StopsReceiving, brought_on};
    ghost use Rattle.am_instance.specs.Shelves.{IsBacked, Shelf, shelf_of};
    ghost use Rattle.am_world.specs.Consistent.{IsConsistent, IsConsistentBut, around_at};
    ghost use Rattle.am_world.specs.Leaving.{stop_at, stored_of};
    ghost use Rattle.am_world.specs.Places.{At, ChangesAt, Turns, instance_at, up_at};
    ghost use Rattle.am_world.specs.Shelves.{AreBacked, AreBackedBut, StaysBacked};
    ghost use Rattle.am_world.specs.Simulation.{IsSameBeside, fault_count, put_out};
    ghost use Rattle.am_world.specs.Ticks.{TakesTurn};
    ghost use Rattle.am_world.specs.Turning.{Does, Fails, Feeds, IsStopped};

    /// Gives a piece to the instance that reads its connection. An error puts nothing out, and leaves the instance to
    /// be stopped.
    pub(crate) fn feed(
        &mut self,
        alloc: Global,
        reader: Number,
        piece: &Piece<'_>,
        moment: Moment,
    ) -> Result<(), Fault>
        requires consistent { IsConsistent self.old }
        requires exists { IsSome (instance_at reader self.old.instances) }
        requires reads { At reader (λ x. IsSome (bytes_in piece.now.connection x)) self.old.instances }
        ensures does { OnOk result (Does reader moment
            (Feeds (around_at moment self.old) piece.now.connection piece.now.bytes.now) self.old self.new) }
        ensures fails { OnErr result (Fails reader self.old self.new) }
        ensures cause { IfErr result (λ fault. At reader (λ x. (before : List ℕ) →
            bytes_in piece.now.connection x ≡ Some before → IsCause fault (verdict (before ++ piece.now.bytes.now))
            piece.now.connection (around_at moment self.old) x) self.old.instances) }
        ensures consistent { OnOk result (IsConsistent self.new) }
        ensures but { IsConsistentBut reader self.new }
        ensures stays { Turns reader (λ x x'. GoesOn x x' × (refused_in x' ≡ refused_in x))
            self.old.instances self.new.instances }
        ensures backed { OnOk result (Turns reader StaysBacked self.old.instances self.new.instances) }
    {
        let incarnations = self.instances.incarnations();
        let occasion = self.common.occasion(moment, &incarnations);
        let mut told = Vec::new(alloc);
        self.instances
            .feed(alloc, reader, piece, &occasion, &mut told)?;
        send_out(&mut self.messages, &mut self.outputs, told, moment)?;
        Ok(())
    }

    /// Gives a message to its receiver, which is up. An error puts nothing out, and leaves the instance to be stopped.
    pub(crate) fn receive<R: Rows>(
        &mut self,
        alloc: Global,
        receiver: Number,
        message: Message,
        moment: Moment,
        store: &mut R,
    ) -> Result<(), Fault>
        requires consistent { IsConsistent self.old }
        requires exists { IsSome (instance_at receiver self.old.instances) }
        requires up { At receiver (λ x. x.up ≡ true) self.old.instances }
        requires backed { At receiver (λ x. IsBacked x (shelf_of R.Rows store.old)) self.old.instances }
        ensures does { OnOk result (Does receiver moment
            (λ told x x'. Receives (around_at moment self.old) message x x' [] told) self.old self.new) }
        ensures fails { OnErr result (Fails receiver self.old self.new) }
        ensures cause { IfErr result (λ fault. Turns receiver (λ x x'. StopsReceiving (refused_in x) (refused_in x')
            (around_at moment self.old) message x fault) self.old.instances self.new.instances) }
        ensures consistent { OnOk result (IsConsistent self.new) × IsConsistentBut receiver self.new }
        ensures stays { Turns receiver ReadsOn self.old.instances self.new.instances }
        ensures clean { R.is_clean store.new ≡ true → R.is_clean store.old ≡ true }
        ensures backed { OnOk result (At receiver (λ x. IsBacked x (shelf_of R.Rows store.new)) self.new.instances) }
        ensures left { At receiver (λ x. LeavesShelf (stored_of self.old receiver)
            (with_brought (brought_on (around_at moment self.old) x message)
            message.tenant moment (stored_of self.old receiver))
            (IsRejected R.rejects message.tenant (brought_on (around_at moment self.old) x message))
            (fault_in result) (shelf_of R.Rows store.old) (shelf_of R.Rows store.new)) self.old.instances }
    {
        let incarnations = self.instances.incarnations();
        let occasion = self.common.occasion(moment, &incarnations);
        let mut told = Vec::new(alloc);
        self.instances
            .receive(alloc, receiver, message, &occasion, &mut told, store)?;
        send_out(&mut self.messages, &mut self.outputs, told, moment)?;
        Ok(())
    }

    /// Gives the instance of an attempt, which is up, the end of one of its tries. An error puts nothing out, and
    /// leaves the instance to be stopped.
    pub(crate) fn take_outcome(
        &mut self,
        alloc: Global,
        instance: Number,
        attempt: &AttemptName,
        ended: Ended,
        moment: Moment,
    ) -> Result<(), Fault>
        requires consistent { IsConsistent self.old }
        requires exists { IsSome (instance_at instance self.old.instances) }
        requires up { At instance (λ x. x.up ≡ true) self.old.instances }
        ensures does { OnOk result (Does instance moment
            (λ told x x'. Reacts (around_at moment self.old) attempt.now.tenant
            (λ here. outcome here attempt.now.number ended.tries ended.status) x x' [] told) self.old self.new) }
        ensures fails { OnErr result (Fails instance self.old self.new) }
        ensures cause { IfErr result (λ fault. At instance (λ x. StopsReacting attempt.now.tenant
            (outcome (here_on (around_at moment self.old) x attempt.now.tenant)
            attempt.now.number ended.tries ended.status) x.site fault) self.old.instances) }
        ensures consistent { OnOk result (IsConsistent self.new) }
        ensures but { IsConsistentBut instance self.new }
        ensures stays { Turns instance (λ x x'. ReadsOn x x' × (refused_in x' ≡ refused_in x))
            self.old.instances self.new.instances }
        ensures backed { OnOk result (Turns instance StaysBacked self.old.instances self.new.instances) }
    {
        let incarnations = self.instances.incarnations();
        let occasion = self.common.occasion(moment, &incarnations);
        let mut told = Vec::new(alloc);
        self.instances
            .take_outcome(alloc, instance, attempt, ended, &occasion, &mut told)?;
        send_out(&mut self.messages, &mut self.outputs, told, moment)?;
        Ok(())
    }

    /// Lets the instance of a number tick at the moment of the clock, where it is up. A fault stops it, and it has put
    /// nothing out then.
    pub(crate) fn tick_at<R: Rows>(&mut self, alloc: Global, number: Number, store: &mut R)
        requires consistent { IsConsistent self.old }
        requires exists { IsSome (instance_at number self.old.instances) }
        requires backed { At number (λ x. IsBacked x (shelf_of R.Rows store.old)) self.old.instances }
        ensures turn { TakesTurn number self.old self.new }
        ensures consistent { IsConsistent self.new }
        ensures clean { R.is_clean store.new ≡ true → R.is_clean store.old ≡ true }
        ensures backed { At number (λ x. IsBacked x (shelf_of R.Rows store.new)) self.new.instances }
        ensures left { up_at number self.old.instances ≡ true → LeavesShelf (stored_of self.old number)
            (λ t. retired_in_node self.old.clock (stored_of self.old number t)) ⊥
            (stop_at number self.new.instances) (shelf_of R.Rows store.old) (shelf_of R.Rows store.new) }
        ensures idle { up_at number self.old.instances ≡ false → store.new ≡ store.old }
    {
        let incarnations = self.instances.incarnations();
        let occasion = self.common.occasion(self.clock, &incarnations);
        let mut told = Vec::new(alloc);
        if !self
            .instances
            .tick(alloc, number, &occasion, &mut told, store)
        {
            self.count_fault();
            return;
        }
        // Where nothing was told, as by one that is down, no memory is needed.
        if told.is_empty() {
            return;
        }
        if send_out(&mut self.messages, &mut self.outputs, told, self.clock).is_err() {
            self.stop(alloc, number, Fault::OutOfMemory);
        }
    }

    /// Stops an instance as a crash does, and counts a fault.
    pub(crate) fn stop(&mut self, alloc: Global, number: Number, fault: Fault)
        requires { IsConsistentBut number self.old }
        ensures stopped { IsStopped number fault self.old self.new }
        ensures consistent { IsConsistent self.new }
        ensures backed { (shelves : List Shelf) →
            AreBackedBut number self.old.instances shelves → AreBacked self.new.instances shelves }
    {
        let _number = number.number();
        self.instances.stop(alloc, number, fault);
        self.count_fault();
    }

    /// Counts a fault, up to 2^64 - 1.
    pub(crate) fn count_fault(&mut self)
        ensures { self.new ≡ record self.old { faults = min (self.old.faults + 1) (2 ^ 64 - 1) } }
    {
        self.faults = self.faults.saturating_add(1);
    }
}
