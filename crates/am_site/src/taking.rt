//! What comes of settling: pieces of States, and Gots.

ghost use Rattle.std.specs.Prelude.{◌≡◌, ℕ, List, IfErr, IfOk, OnOk, false, length, nat_le, true};
ghost use Rattle.am_cluster.specs.Sending.{greatest_place};
ghost use Rattle.am_cluster.specs.Transfers.{send_got, take_got, take_state};
ghost use Rattle.am_item.specs.declared.fault.Fault.TheVariants.{CountsExhausted};
ghost use Rattle.am_node.specs.Accepting.{accepted_for};
ghost use Rattle.am_node.specs.Held.{local_of as local_in_node};
ghost use Rattle.am_node.specs.Storing.{AreStored, LeavesStore};
ghost use Rattle.am_pattern.specs.Asking.{Asked};
ghost use Rattle.am_replica.specs.Storing.{fault_in};
ghost use Rattle.am_transfer.specs.Progress.{is_got};
ghost use Rattle.am_transfer.specs.Settling.{goes_to};
ghost use Rattle.am_cluster.specs.Here.{present_at};
ghost use Rattle.am_site.specs.Here.{here_of};
ghost use Rattle.am_site.specs.InOrder.{IsInOrder};
ghost use Rattle.am_site.specs.Locals.{local_of};
ghost use Rattle.am_site.specs.Putting.{StopsTaking};
ghost use Rattle.am_site.specs.Reacting.{Does, Reacts, StopsReacting};

use crate::here::Here;
use crate::said::Said;
use crate::site::Site;
use am_item::{Fault, SharedItem};
use am_pattern::PatternCache;
use am_ring::Instance;
use am_rows::Rows;
use am_transfer::{Peer, Span};
use am_wire::{Body, Items};
use std::alloc::{AllocError, Global};

/// A piece of a State that a replica sent.
#[derive(Drop)]
pub struct StatePiece<'a> {
    /// The replica.
    pub from: Peer,
    /// The place in its list at which the piece begins.
    pub place: u32,
    /// Whether the list ends with it.
    pub is_last: bool,
    /// Its items.
    pub items: &'a Items,
}

impl Site {
    /// Commits the items of a piece of a State to the store, and accepts them. Where the complete States of both others
    /// came, the instance is settled. A Got tells the sender how far all came.
    ///
    /// # Errors
    /// `CountsExhausted` where the tenant's messages here would pass 2^62, or there are 2^32 items; `PatternNotBuilt`
    /// where there are alerts to plan, and a pattern of the routes that are in use then gave no answer; `StoreRefused`
    /// where one of the items is stored; or out of memory. The rows are as before, or as committed.
    pub fn take_state<R: Rows>(
        &mut self,
        alloc: Global,
        here: &Here,
        piece: &StatePiece,
        cache: &mut PatternCache,
        store: &mut R,
        outbox: &mut Vec<Said>,
    ) -> Result<(), Fault>
        requires { R.is_open store.old ≡ true }
        ensures reacts { OnOk result (Reacts here.now.tenant.now (take_state (here_of here.now)
            piece.now.from piece.now.place piece.now.is_last piece.now.items.now)
            self.old self.new outbox.old.items outbox.new.items) }
        ensures asked { Asked result cache.old cache.new }
        ensures fault { IfErr result (StopsTaking cache.new.refused here.now
            piece.now.from piece.now.place piece.now.is_last piece.now.items.now self.old) }
        ensures clean { R.is_clean store.new ≡ true → R.is_clean store.old ≡ true }
        ensures open { OnOk result (R.is_open store.new ≡ true) }
        ensures stores { R.is_clean store.new ≡ true → AreStored self.old.node (R.pairs store.old)
            → OnOk result (AreStored self.new.node (R.pairs store.new)) }
        ensures left { R.is_clean store.new ≡ true → AreStored self.old.node (R.pairs store.old) → LeavesStore
            (λ t. local_in_node t self.old.node) (λ t. accepted_for here.now.tenant.now here.now.moment
            piece.now.items.now t (local_in_node t self.old.node)) (R.rejects here.now.tenant.now piece.now.items.now)
            (fault_in result) (R.medium store.old) (R.medium store.new) (R.pairs store.new) }
    {
        let items = piece.items.list(alloc)?;
        let count = count_of(items.as_slice())?;
        self.accept(alloc, here, items, cache, store)?;
        let others = here.others(alloc)?;
        let span = Span {
            count,
            is_last: piece.is_last,
        };
        let (from, place) = (piece.from, piece.place);
        let others = others.as_slice();
        let behind = self
            .settling
            .state(alloc, here.tenant, from, place, span, others)?;
        self.send_got(alloc, here, &piece.from, behind, outbox)
    }

    // Tells the sender of a State up to which place all of it came.
    fn send_got(
        &mut self,
        alloc: Global,
        here: &Here,
        sender: &Peer,
        behind: u64,
        outbox: &mut Vec<Said>,
    ) -> Result<(), Fault>
        ensures reacts { OnOk result (Reacts here.now.tenant.now (send_got (here_of here.now) sender.now behind)
            self.old self.new outbox.old.items outbox.new.items) }
        ensures fault { IfErr result
            (StopsReacting here.now.tenant.now (send_got (here_of here.now) sender.now behind) self.old) }
        ensures node { self.new.node ≡ self.old.node }
    {
        let Ok(place) = u32::try_from(behind) else {
            return Err(Fault::CountsExhausted);
        };
        let to = sender.instance;
        let body = Body::Got {
            incarnation: sender.incarnation,
            place,
        };
        self.send_in(alloc, here, here.epoch, to, body, outbox)
    }

    /// Takes a Got of a replica, in this incarnation of it, to which the State now goes: it names a place of that.
    ///
    /// An error is out of memory.
    pub fn take_got(
        &mut self,
        alloc: Global,
        here: &Here,
        from: Peer,
        place: u32,
    ) -> Result<(), AllocError>
        requires { is_got from (present_at (here_of here.now) from.instance)
            (local_of here.now.tenant.now self.old).settling ≡ true }
        ensures does { OnOk result (Does here.now.tenant.now (take_got (here_of here.now) from place)
            self.old self.new) }
        ensures order { IsInOrder (here_of here.now) self.old → OnOk result (IsInOrder (here_of here.now) self.new) }
        ensures node { self.new.node ≡ self.old.node }
    {
        let present = here.present(from.instance);
        self.settling
            .got(alloc, here.tenant, from, present, place as usize)?;
        Ok(())
    }

    // To which incarnation of a replica the State now goes.
    #[tactic(auto, unfolding(crate::specs::Locals::local_of))]
    pub(crate) fn goes_to(&self, here: &Here, to: Instance) -> u32
        ensures { result ≡ goes_to to (present_at (here_of here.now) to)
            (local_of here.now.tenant.now self.now).settling }
    {
        let present = here.present(to);
        self.settling.goes_to(here.tenant, to, present)
    }
}

// How many items a piece has, where four bytes tell that.
fn count_of(items: &[SharedItem]) -> Result<u32, Fault>
    ensures count { IfOk result (λ count. count ≡ length items.now) }
    ensures fits { OnOk result (nat_le (length items.now) greatest_place ≡ true) }
    ensures past { IfErr result (λ fault. (fault ≡ CountsExhausted)
        × (nat_le (length items.now) greatest_place ≡ false)) }
{
    match u32::try_from(items.len()) {
        Ok(count) => Ok(count),
        Err(_) => Err(Fault::CountsExhausted),
    }
}
