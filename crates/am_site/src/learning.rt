//! Another ring: an instance goes by it from then on.

ghost use Rattle.std.specs.Prelude.{◌≡◌, ◌≤◌, ℕ, List, [], IfErr, OnOk, length, not, true};
ghost use Rattle.am_cluster.specs.Here.{Here as ClusterHere};
ghost use Rattle.am_cluster.specs.Operating.{replicas_changed};
ghost use Rattle.am_cluster.specs.Reactions.{each, only_if, stays};
ghost use Rattle.am_cluster.specs.RingChanges.{are_same, dropped, go_on, push_or_ask, ring_learned};
ghost use Rattle.am_cluster.specs.Transfers.{begin_push};
ghost use Rattle.am_node.specs.Held.{Makes as NodeMakes, local_of as local_in_node};
ghost use Rattle.am_node.specs.Local.{dropped as dropped_in_node};
ghost use Rattle.am_node.specs.Storing.{AreStored, LeavesStore};
ghost use Rattle.am_pattern.specs.Asking.{Asked};
ghost use Rattle.am_replica.specs.Storing.{fault_in};
ghost use Rattle.am_rows.specs.Refusing.{Wears};
ghost use Rattle.am_site.specs.Here.{here_of};
ghost use Rattle.am_site.specs.InOrder.{IsInOrder, IsSound};
ghost use Rattle.am_site.specs.Learning.{MayLearn, StopsGoingOn, StopsLearning, left_of};
ghost use Rattle.am_site.specs.Locals.{local_of};
ghost use Rattle.am_site.specs.Reacting.{Moves, MovesInSilence, Reacts, StopsReacting};

use crate::dropping::drop_rows_of;
use crate::here::Here;
use crate::said::Said;
use crate::site::Site;
use crate::three::{are_same, is_among};
use am_item::Fault;
use am_pattern::PatternCache;
use am_ring::Instance;
use am_rows::Rows;
use std::alloc::{AllocError, Global};

impl Site {
    /// The instance goes by another ring from now on, by which the tenant's three replicas are those of `here`, while
    /// they were the others before. Where these aren't the same, open operations are answered that the replicas
    /// changed. A replica goes on in the new epoch: the groups wait by its position among the three; and where it holds
    /// an item, it begins to push its State to those that need it, or asks for what it lacks. Where the instance stops
    /// being a replica, all that it has of the tenant goes, and its rows with that; its counts and the place in the
    /// words stay.
    ///
    /// # Errors
    /// `CountsExhausted` where the tenant's messages here would pass 2^62, or a piece begins behind 2^32 items or is
    /// too long; `PatternNotBuilt` where the position is another one, there are alerts, and a pattern of the routes
    /// that are in use gives no answer; `StoreRefused` where it stops being a replica; or out of memory. The rows are
    /// as before, or without the tenant's.
    pub fn learn<R: Rows>(
        &mut self,
        alloc: Global,
        here: &Here,
        before: &[Instance],
        cache: &mut PatternCache,
        store: &mut R,
        outbox: &mut Vec<Said>,
    ) -> Result<(), Fault>
        requires open { R.is_open store.old ≡ true }
        requires three { length here.now.three.now ≤ 3 }
        ensures moves { OnOk result (Moves here.now.tenant.now (ring_learned (here_of here.now) before.now)
            self.old self.new outbox.old.items outbox.new.items) }
        ensures order { (was : ClusterHere) → MayLearn was (here_of here.now) before.now self.old
            → OnOk result (IsInOrder (here_of here.now) self.new) }
        ensures asked { Asked result cache.old cache.new }
        ensures fault { IfErr result (StopsLearning cache.new.refused here.now before.now self.old) }
        ensures clean { R.is_clean store.new ≡ true → R.is_clean store.old ≡ true }
        ensures open { OnOk result (R.is_open store.new ≡ true) }
        ensures stores { R.is_clean store.new ≡ true → AreStored self.old.node (R.pairs store.old)
            → OnOk result (AreStored self.new.node (R.pairs store.new)) }
        ensures left { R.is_clean store.new ≡ true → AreStored self.old.node (R.pairs store.old) → LeavesStore
            (λ t. local_in_node t self.old.node) (λ t. left_of here.now before.now t (local_in_node t self.old.node))
            ⊥ (fault_in result) (R.medium store.old) (R.medium store.new) (R.pairs store.new) }
        ensures wears { R.is_clean store.new ≡ true → Wears (R.medium store.old) (R.medium store.new) }
    {
        self.answer_if_changed(alloc, here, before, outbox)?;
        if here.is_replica() {
            return self.go_on(alloc, here, before, cache, outbox);
        }
        if !is_among(here.instance, before) {
            return Ok(());
        }
        drop_rows_of(here.tenant, store)?;
        self.drop_tenant(here);
        Ok(())
    }

    // Where the three are others than before, open operations are answered that the replicas changed.
    fn answer_if_changed(
        &mut self,
        alloc: Global,
        here: &Here,
        before: &[Instance],
        outbox: &mut Vec<Said>,
    ) -> Result<(), AllocError>
        ensures reacts { OnOk result (Reacts here.now.tenant.now
            (only_if (not (are_same before.now (here_of here.now).three)) replicas_changed)
            self.old self.new outbox.old.items outbox.new.items) }
        ensures node { self.new.node ≡ self.old.node }
        ensures settling { self.new.settling ≡ self.old.settling }
    {
        if are_same(before, here.three) {
            return Ok(());
        }
        self.replicas_changed(alloc, here, outbox)
    }

    // A replica goes on in the new epoch, and its groups wait by its position among the three.
    fn go_on(
        &mut self,
        alloc: Global,
        here: &Here,
        before: &[Instance],
        cache: &mut PatternCache,
        outbox: &mut Vec<Said>,
    ) -> Result<(), Fault>
        requires { length here.now.three.now ≤ 3 }
        ensures moves { OnOk result (Moves here.now.tenant.now (go_on (here_of here.now) before.now)
            self.old self.new outbox.old.items outbox.new.items) }
        ensures order { (was : ClusterHere) → IsSound was (local_of here.now.tenant.now self.old)
            → OnOk result (IsInOrder (here_of here.now) self.new) }
        ensures asked { Asked result cache.old cache.new }
        ensures fault { IfErr result (StopsGoingOn cache.new.refused here.now before.now self.old) }
        ensures held { OnOk result ((t : List ℕ) →
            (local_in_node t self.new.node).held ≡ (local_in_node t self.old.node).held) }
    {
        let others = here.others(alloc)?;
        let tenant = here.tenant;
        let receivers = self
            .settling
            .changed(alloc, tenant, others.as_slice(), before)?;
        self.take_position(alloc, here, cache)?;
        self.push_or_ask(alloc, here, receivers.as_slice(), outbox)
    }

    // Where an item is held, a settled instance begins to push its State to these, and another replica asks.
    fn push_or_ask(
        &mut self,
        alloc: Global,
        here: &Here,
        receivers: &[Instance],
        outbox: &mut Vec<Said>,
    ) -> Result<(), Fault>
        ensures reacts { OnOk result (Moves here.now.tenant.now (push_or_ask (here_of here.now) receivers.now)
            self.old self.new outbox.old.items outbox.new.items) }
        ensures fault { IfErr result
            (StopsReacting here.now.tenant.now (push_or_ask (here_of here.now) receivers.now) self.old) }
        ensures order { IsInOrder (here_of here.now) self.old → OnOk result (IsInOrder (here_of here.now) self.new) }
        ensures node { self.new.node ≡ self.old.node }
    {
        if !self.holds_any(here) {
            return Ok(());
        }
        if !self.is_settled(here) {
            return self.ask_first(alloc, here, outbox);
        }
        self.push_all(alloc, here, receivers, outbox)
    }

    // Begins a push to each of several instances, in their order.
    fn push_all(
        &mut self,
        alloc: Global,
        here: &Here,
        receivers: &[Instance],
        outbox: &mut Vec<Said>,
    ) -> Result<(), Fault>
        ensures reacts { OnOk result (Reacts here.now.tenant.now (each (begin_push (here_of here.now)) receivers.now)
            self.old self.new outbox.old.items outbox.new.items) }
        ensures fault { IfErr result
            (StopsReacting here.now.tenant.now (each (begin_push (here_of here.now)) receivers.now) self.old) }
        ensures node { self.new.node ≡ self.old.node }
    {
        for to in receivers {
            self.begin_push(alloc, here, *to, outbox)?;
        }
        Ok(())
    }

    // Drops all that it has of the tenant but its counts, where no operation is open. It says nothing.
    fn drop_tenant(&mut self, here: &Here)
        ensures moves { (local_of here.now.tenant.now self.old).operations ≡ []
            → MovesInSilence here.now.tenant.now (λ local. stays (dropped local)) self.old self.new }
        ensures node { NodeMakes here.now.tenant.now dropped_in_node self.old.node self.new.node }
    {
        self.node.drop_tenant(here.tenant);
        self.settling.drop_all_of(here.tenant);
    }
}
