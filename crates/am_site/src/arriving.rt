//! What comes to an instance, with what it does so that all is in order after that.

ghost use Rattle.std.specs.Prelude.{◌≡◌, ◌≤◌, ℕ, List, IfErr, OnOk, length, true};
ghost use Rattle.am_cluster.specs.Arriving.{is_meant, take_put};
ghost use Rattle.am_cluster.specs.Transfers.{take_state};
ghost use Rattle.am_node.specs.Accepting.{accepted_for};
ghost use Rattle.am_node.specs.Held.{local_of as local_in_node};
ghost use Rattle.am_node.specs.Storing.{AreStored, LeavesStore};
ghost use Rattle.am_pattern.specs.Asking.{Asked};
ghost use Rattle.am_replica.specs.Storing.{fault_in};
ghost use Rattle.am_site.specs.Here.{here_of};
ghost use Rattle.am_site.specs.InOrder.{IsInOrder};
ghost use Rattle.am_site.specs.Locals.{local_of};
ghost use Rattle.am_site.specs.Putting.{StopsPutting, StopsSettling};
ghost use Rattle.am_site.specs.Reacting.{Moves};

use crate::accepting::PutItems;
use crate::here::Here;
use crate::said::Said;
use crate::site::Site;
use crate::taking::StatePiece;
use am_item::Fault;
use am_pattern::PatternCache;
use am_rows::Rows;
use am_wire::{Body, Message};
use std::alloc::Global;

impl Site {
    /// Whether the instance is meant by a message about the tenant: by an answer that names its incarnation; and where
    /// it is a replica by every other message, but for a State that names another incarnation of it, and a Got that
    /// names another one, or comes from another incarnation than that to which the State now goes.
    pub fn is_meant(&self, here: &Here, message: &Message) -> bool
        ensures { result ≡ is_meant (here_of here.now) message.now message.now.body
            (local_of here.now.tenant.now self.now) }
    {
        match message.body {
            Body::Answer { incarnation, .. } | Body::Ack { incarnation, .. } => {
                incarnation == here.incarnation
            }
            Body::Get { .. } | Body::Put { .. } | Body::Ask { .. } => here.is_replica(),
            Body::State { incarnation, .. } => {
                here.is_replica() && incarnation == here.incarnation
            }
            Body::Got { incarnation, .. } => {
                here.is_replica()
                    && incarnation == here.incarnation
                    && message.incarnation == self.goes_to(here, message.from)
            }
        }
    }

    /// Takes items that an instance puts, as [`Site::take_put`] does; the tenant's groups then wait by the position of
    /// this instance.
    ///
    /// # Errors
    /// Those of [`Site::take_put`].
    pub fn arrive_put<R: Rows>(
        &mut self,
        alloc: Global,
        here: &Here,
        put: &PutItems,
        cache: &mut PatternCache,
        store: &mut R,
        outbox: &mut Vec<Said>,
    ) -> Result<(), Fault>
        requires open { R.is_open store.old ≡ true }
        requires three { length here.now.three.now ≤ 3 }
        requires order { IsInOrder (here_of here.now) self.old }
        ensures moves { OnOk result (Moves here.now.tenant.now
            (take_put (here_of here.now) put.now.from put.now.operation put.now.items.now)
            self.old self.new outbox.old.items outbox.new.items) }
        ensures order { OnOk result (IsInOrder (here_of here.now) self.new) }
        ensures asked { Asked result cache.old cache.new }
        ensures fault { IfErr result (StopsPutting cache.new.refused here.now
            put.now.from put.now.operation put.now.items.now self.old) }
        ensures clean { R.is_clean store.new ≡ true → R.is_clean store.old ≡ true }
        ensures open { OnOk result (R.is_open store.new ≡ true) }
        ensures stores { R.is_clean store.new ≡ true → AreStored self.old.node (R.pairs store.old)
            → OnOk result (AreStored self.new.node (R.pairs store.new)) }
        ensures left { R.is_clean store.new ≡ true → AreStored self.old.node (R.pairs store.old) → LeavesStore
            (λ t. local_in_node t self.old.node) (λ t. accepted_for here.now.tenant.now here.now.moment
            put.now.items.now t (local_in_node t self.old.node)) (R.rejects here.now.tenant.now put.now.items.now)
            (fault_in result) (R.medium store.old) (R.medium store.new) (R.pairs store.new) }
    {
        self.take_put(alloc, here, put, cache, store, outbox)?;
        self.take_position(alloc, here, cache)?;
        Ok(())
    }

    /// Takes a piece of a State, as [`Site::take_state`] does; the tenant's groups then wait by the position of the
    /// instance, which has one where the piece settles it.
    ///
    /// # Errors
    /// Those of [`Site::take_state`]; and `PatternNotBuilt` where the piece settles the instance, alerts are held, and
    /// a pattern of the routes that are in use gave no answer.
    pub fn arrive_state<R: Rows>(
        &mut self,
        alloc: Global,
        here: &Here,
        piece: &StatePiece,
        cache: &mut PatternCache,
        store: &mut R,
        outbox: &mut Vec<Said>,
    ) -> Result<(), Fault>
        requires open { R.is_open store.old ≡ true }
        requires three { length here.now.three.now ≤ 3 }
        requires order { IsInOrder (here_of here.now) self.old }
        ensures moves { OnOk result (Moves here.now.tenant.now (take_state (here_of here.now)
            piece.now.from piece.now.place piece.now.is_last piece.now.items.now)
            self.old self.new outbox.old.items outbox.new.items) }
        ensures order { OnOk result (IsInOrder (here_of here.now) self.new) }
        ensures asked { Asked result cache.old cache.new }
        ensures fault { IfErr result (StopsSettling cache.new.refused here.now
            piece.now.from piece.now.place piece.now.is_last piece.now.items.now self.old) }
        ensures clean { R.is_clean store.new ≡ true → R.is_clean store.old ≡ true }
        ensures open { OnOk result (R.is_open store.new ≡ true) }
        ensures stores { R.is_clean store.new ≡ true → AreStored self.old.node (R.pairs store.old)
            → OnOk result (AreStored self.new.node (R.pairs store.new)) }
        ensures left { R.is_clean store.new ≡ true → AreStored self.old.node (R.pairs store.old) → LeavesStore
            (λ t. local_in_node t self.old.node) (λ t. accepted_for here.now.tenant.now here.now.moment
            piece.now.items.now t (local_in_node t self.old.node)) (R.rejects here.now.tenant.now piece.now.items.now)
            (fault_in result) (R.medium store.old) (R.medium store.new) (R.pairs store.new) }
    {
        self.take_state(alloc, here, piece, cache, store, outbox)?;
        self.take_position(alloc, here, cache)?;
        Ok(())
    }
}
