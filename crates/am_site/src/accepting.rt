//! Items that an instance puts to a replica.

ghost use Rattle.std.specs.Prelude.{◌≡◌, ℕ, List, IfErr, OnOk, true};
ghost use Rattle.am_cluster.specs.Accepting.{accepted};
ghost use Rattle.am_cluster.specs.Arriving.{take_put};
ghost use Rattle.am_node.specs.Accepting.{StopsCommitting, accepted_for};
ghost use Rattle.am_node.specs.Held.{local_of as local_in_node};
ghost use Rattle.am_node.specs.Storing.{AreStored, LeavesStore};
ghost use Rattle.am_pattern.specs.Asking.{Asked};
ghost use Rattle.am_replica.specs.Storing.{fault_in};
ghost use Rattle.am_site.specs.Here.{here_of};
ghost use Rattle.am_site.specs.Putting.{StopsPutting};
ghost use Rattle.am_site.specs.Reacting.{Keeps, Makes, Reacts};

use crate::here::Here;
use crate::said::Said;
use crate::site::Site;
use am_item::{Fault, SharedItem};
use am_pattern::PatternCache;
use am_rows::Rows;
use am_transfer::Peer;
use am_wire::{Body, Items};
use std::alloc::Global;

/// Items that an instance puts to a replica.
#[derive(Drop)]
pub struct PutItems<'a> {
    /// The instance, in its incarnation.
    pub from: Peer,
    /// The operation for which it does; 0 wants no Ack.
    pub operation: u64,
    /// The items.
    pub items: &'a Items,
}

impl Site {
    /// Commits the items that an instance puts to the store, and accepts them. Then an Ack goes to that instance, where
    /// it wants one.
    ///
    /// # Errors
    /// `CountsExhausted` where the tenant's messages here would pass 2^62, `PatternNotBuilt` where there are alerts to
    /// plan, and a pattern of the routes that are in use then gave no answer, `StoreRefused` where one of the items is
    /// stored, or out of memory. The rows are as before, or as committed.
    pub fn take_put<R: Rows>(
        &mut self,
        alloc: Global,
        here: &Here,
        put: &PutItems,
        cache: &mut PatternCache,
        store: &mut R,
        outbox: &mut Vec<Said>,
    ) -> Result<(), Fault>
        requires { R.is_open store.old ≡ true }
        ensures reacts { OnOk result (Reacts here.now.tenant.now
            (take_put (here_of here.now) put.now.from put.now.operation put.now.items.now)
            self.old self.new outbox.old.items outbox.new.items) }
        ensures asked { Asked result cache.old cache.new }
        ensures fault { IfErr result (StopsPutting cache.new.refused here.now
            put.now.from put.now.operation put.now.items.now self.old) }
        ensures clean { R.is_clean store.new ≡ true → R.is_clean store.old ≡ true }
        ensures open { OnOk result (R.is_open store.new ≡ true) }
        ensures stores { R.is_clean store.new ≡ true → AreStored self.old.node (R.pairs store.old)
            → OnOk result (AreStored self.new.node (R.pairs store.new)) }
        ensures left { R.is_clean store.new ≡ true → AreStored self.old.node (R.pairs store.old) → LeavesStore
            (λ t. local_in_node t self.old.node) (λ t. accepted_for here.now.tenant.now here.now.moment
            put.now.items.now t (local_in_node t self.old.node)) (R.rejects here.now.tenant.now put.now.items.now)
            (fault_in result) (R.medium store.old) (R.medium store.new) (R.pairs store.new) }
    {
        let items = put.items.list(alloc)?;
        self.accept(alloc, here, items, cache, store)?;
        if put.operation == 0 {
            return Ok(());
        }
        let to = put.from.instance;
        let body = Body::Ack {
            operation: put.operation,
            incarnation: put.from.incarnation,
        };
        self.send_in(alloc, here, here.epoch, to, body, outbox)
    }

    // Commits items to the store, and accepts them.
    pub(crate) fn accept<R: Rows>(
        &mut self,
        alloc: Global,
        here: &Here,
        items: Vec<SharedItem>,
        cache: &mut PatternCache,
        store: &mut R,
    ) -> Result<(), Fault>
        requires { R.is_open store.old ≡ true }
        ensures makes { OnOk result
            (Makes here.now.tenant.now (accepted here.now.moment items.items) self.old self.new) }
        ensures kept { OnOk result (Keeps self.old self.new) }
        ensures asked { Asked result cache.old cache.new }
        ensures fault { IfErr result
            (StopsCommitting cache.new.refused items.items (local_in_node here.now.tenant.now self.old.node)) }
        ensures clean { R.is_clean store.new ≡ true → R.is_clean store.old ≡ true }
        ensures open { OnOk result (R.is_open store.new ≡ true) }
        ensures stores { R.is_clean store.new ≡ true → AreStored self.old.node (R.pairs store.old)
            → OnOk result (AreStored self.new.node (R.pairs store.new)) }
        ensures left { R.is_clean store.new ≡ true → AreStored self.old.node (R.pairs store.old) → LeavesStore
            (λ t. local_in_node t self.old.node) (λ t. accepted_for here.now.tenant.now here.now.moment
            items.items t (local_in_node t self.old.node)) (R.rejects here.now.tenant.now items.items)
            (fault_in result) (R.medium store.old) (R.medium store.new) (R.pairs store.new) }
    {
        self.node
            .accept(alloc, here.tenant, here.moment, items, cache, store)
    }
}
