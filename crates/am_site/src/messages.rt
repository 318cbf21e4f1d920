//! Messages that come.

ghost use Rattle.std.specs.Prelude.{◌≡◌, ◌≤◌, ℕ, List, None, IfErr, OnOk, length, true};
ghost use Rattle.am_cluster.specs.Arriving.{is_meant};
ghost use Rattle.am_cluster.specs.Messages.{is_answer};
ghost use Rattle.am_node.specs.Held.{local_of as local_in_node};
ghost use Rattle.am_node.specs.Storing.{AreStored};
ghost use Rattle.am_replica.specs.Storing.{fault_in};
ghost use Rattle.am_site.specs.Arriving.{Arrives, AsksAt, AsksFor, LeavesBrought, StopsArriving, StopsAt, Takes};
ghost use Rattle.am_site.specs.Arriving.{brought_at, brought_in, is_plain};
ghost use Rattle.am_site.specs.Here.{here_of};
ghost use Rattle.am_site.specs.InOrder.{IsInOrder};
ghost use Rattle.am_site.specs.Locals.{local_of};

use crate::accepting::PutItems;
use crate::here::Here;
use crate::said::Said;
use crate::site::Site;
use crate::taking::StatePiece;
use am_item::Fault;
use am_pattern::PatternCache;
use am_quorum::{Answered, Target};
use am_rows::Rows;
use am_transfer::Peer;
use am_wire::{Body, Message};
use std::alloc::Global;

impl Site {
    /// Takes a message about the tenant that comes. Where the instance isn't meant, nothing is done; of another epoch
    /// than the one that is known an Answer or an Ack counts for its operation, and nothing else does anything. What
    /// the message is for is done; then a replica that isn't settled asks the others, where it is to.
    ///
    /// # Errors
    /// None where nothing is done. Those of what the message is for; and `CountsExhausted` where it is of the epoch
    /// that is known, and the Asks would pass a count. The rows are as before; or as committed, of a Put or a State
    /// that is meant and of the epoch that is known. At every other message the store isn't called.
    pub fn arrive<R: Rows>(
        &mut self,
        alloc: Global,
        here: &Here,
        message: Message,
        cache: &mut PatternCache,
        store: &mut R,
        outbox: &mut Vec<Said>,
    ) -> Result<(), Fault>
        requires open { R.is_open store.old ≡ true }
        requires three { length here.now.three.now ≤ 3 }
        requires order { IsInOrder (here_of here.now) self.old }
        requires incarnation { self.old.operations.incarnation ≡ here.now.incarnation }
        ensures arrives { OnOk result (Arrives here.now cache.old.refused cache.new.refused message
            self.old self.new outbox.old.items outbox.new.items) }
        ensures order { OnOk result (IsInOrder (here_of here.now) self.new) }
        ensures asks { AsksAt here.now message (local_of here.now.tenant.now self.old) result cache.old cache.new }
        ensures fault { IfErr result (StopsArriving cache.old.refused cache.new.refused here.now message self.old) }
        ensures clean { R.is_clean store.new ≡ true → R.is_clean store.old ≡ true }
        ensures open { OnOk result (R.is_open store.new ≡ true) }
        ensures stores { R.is_clean store.new ≡ true → AreStored self.old.node (R.pairs store.old)
            → OnOk result (AreStored self.new.node (R.pairs store.new)) }
        ensures left { R.is_clean store.new ≡ true → AreStored self.old.node (R.pairs store.old) → LeavesBrought
            R.rejects (brought_at (here_of here.now) message (local_of here.now.tenant.now self.old))
            here.now.tenant.now here.now.moment (λ t. local_in_node t self.old.node)
            (fault_in result) (R.medium store.old) (R.medium store.new) (R.pairs store.new) }
        ensures untouched { brought_at (here_of here.now) message (local_of here.now.tenant.now self.old) ≡ None
            → store.new ≡ store.old }
    {
        if !self.is_meant(here, &message) {
            return Ok(());
        }
        let is_current = message.epoch == here.epoch;
        if !is_current {
            if is_answer(&message.body) {
                self.take(alloc, here, message, cache, store, outbox)?;
            }
            return Ok(());
        }
        self.take(alloc, here, message, cache, store, outbox)?;
        self.ask_first(alloc, here, outbox)?;
        Ok(())
    }

    // Does what a message is for that is meant for the instance.
    fn take<R: Rows>(
        &mut self,
        alloc: Global,
        here: &Here,
        message: Message,
        cache: &mut PatternCache,
        store: &mut R,
        outbox: &mut Vec<Said>,
    ) -> Result<(), Fault>
        requires open { R.is_open store.old ≡ true }
        requires three { length here.now.three.now ≤ 3 }
        requires order { IsInOrder (here_of here.now) self.old }
        requires incarnation { self.old.operations.incarnation ≡ here.now.incarnation }
        requires meant { is_meant (here_of here.now) message message.body
            (local_of here.now.tenant.now self.old) ≡ true }
        ensures takes { OnOk result (Takes here.now cache.old.refused cache.new.refused message message.body
            self.old self.new outbox.old.items outbox.new.items) }
        ensures order { OnOk result (IsInOrder (here_of here.now) self.new) }
        ensures asks { AsksFor here.now message message.body (local_of here.now.tenant.now self.old)
            result cache.old cache.new }
        ensures fault { IfErr result (StopsAt cache.new.refused here.now message message.body self.old) }
        ensures clean { R.is_clean store.new ≡ true → R.is_clean store.old ≡ true }
        ensures open { OnOk result (R.is_open store.new ≡ true) }
        ensures stores { R.is_clean store.new ≡ true → AreStored self.old.node (R.pairs store.old)
            → OnOk result (AreStored self.new.node (R.pairs store.new)) }
        ensures left { R.is_clean store.new ≡ true → AreStored self.old.node (R.pairs store.old) → LeavesBrought
            R.rejects (brought_in message.body)
            here.now.tenant.now here.now.moment (λ t. local_in_node t self.old.node)
            (fault_in result) (R.medium store.old) (R.medium store.new) (R.pairs store.new) }
        ensures untouched { brought_in message.body ≡ None → store.new ≡ store.old }
    {
        let from = Peer {
            instance: message.from,
            incarnation: message.incarnation,
        };
        match &message.body {
            Body::Put { operation, items } => {
                let put = PutItems {
                    from,
                    operation: *operation,
                    items,
                };
                self.arrive_put(alloc, here, &put, cache, store, outbox)
            }
            Body::State {
                place,
                is_last,
                items,
                ..
            } => {
                let piece = StatePiece {
                    from,
                    place: *place,
                    is_last: *is_last,
                    items,
                };
                self.arrive_state(alloc, here, &piece, cache, store, outbox)
            }
            _ => self.take_plain(alloc, here, message, cache, outbox),
        }
    }

    // Does what a message is for that is meant for the instance and brings no items to hold.
    fn take_plain(
        &mut self,
        alloc: Global,
        here: &Here,
        message: Message,
        cache: &mut PatternCache,
        outbox: &mut Vec<Said>,
    ) -> Result<(), Fault>
        requires order { IsInOrder (here_of here.now) self.old }
        requires incarnation { self.old.operations.incarnation ≡ here.now.incarnation }
        requires meant { is_meant (here_of here.now) message message.body
            (local_of here.now.tenant.now self.old) ≡ true }
        requires plain { is_plain message.body ≡ true }
        ensures takes { OnOk result (Takes here.now cache.old.refused cache.new.refused message message.body
            self.old self.new outbox.old.items outbox.new.items) }
        ensures order { OnOk result (IsInOrder (here_of here.now) self.new) }
        ensures asks { AsksFor here.now message message.body (local_of here.now.tenant.now self.old)
            result cache.old cache.new }
        ensures fault { IfErr result (StopsAt cache.new.refused here.now message message.body self.old) }
        ensures held { OnOk result ((t : List ℕ) →
            (local_in_node t self.new.node).held ≡ (local_in_node t self.old.node).held) }
    {
        let (from, epoch) = (message.from, message.epoch);
        let sender = Peer {
            instance: from,
            incarnation: message.incarnation,
        };
        match message.body {
            Body::Get { operation } => self.answer_get(alloc, here, &sender, operation, outbox),
            Body::Answer {
                operation,
                incarnation,
                items,
            } => {
                let target = target(operation, incarnation, epoch);
                let answered = Answered { from, items };
                self.take_answer(alloc, here, target, answered, cache, outbox)
            }
            Body::Ack {
                operation,
                incarnation,
            } => {
                let target = target(operation, incarnation, epoch);
                self.acknowledge(here, target, from, outbox)?;
                Ok(())
            }
            Body::Ask { incarnation } => {
                let asker = Peer {
                    instance: from,
                    incarnation,
                };
                self.answer_ask(alloc, here, &asker, outbox)
            }
            Body::Got { place, .. } => {
                self.take_got(alloc, here, sender, place)?;
                Ok(())
            }
            Body::Put { .. } | Body::State { .. } => Ok(()),
        }
    }
}

// Which operation an answer is for.
fn target(number: u64, incarnation: u32, epoch: u64) -> Target
    ensures { result ≡ record { number = number; incarnation = incarnation; epoch = epoch } }
{
    Target {
        number,
        incarnation,
        epoch,
    }
}

// Whether a message answers an operation.
fn is_answer(body: &Body) -> bool
    ensures { result ≡ is_answer body.now }
{
    match body {
        Body::Answer { .. } | Body::Ack { .. } => true,
        Body::Get { .. }
        | Body::Put { .. }
        | Body::Ask { .. }
        | Body::State { .. }
        | Body::Got { .. } => false,
    }
}
