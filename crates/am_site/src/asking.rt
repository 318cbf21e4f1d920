//! Asks: a replica that isn't settled wants what the others hold.

ghost use Rattle.std.specs.Prelude.{◌≡◌, IfErr, OnOk};
ghost use Rattle.am_cluster.specs.Local.{is_settled};
ghost use Rattle.am_cluster.specs.Transfers.{answer_ask, asks_first};
ghost use Rattle.am_site.specs.Here.{here_of};
ghost use Rattle.am_site.specs.InOrder.{IsInOrder};
ghost use Rattle.am_site.specs.Locals.{local_of};
ghost use Rattle.am_site.specs.Reacting.{Moves, Reacts, StopsReacting};

use crate::here::Here;
use crate::said::Said;
use crate::site::Site;
use am_item::Fault;
use am_transfer::Peer;
use am_wire::Body;
use std::alloc::Global;

impl Site {
    /// Whether the instance is settled for the tenant.
    #[tactic(auto, unfolding(crate::specs::Locals::local_of))]
    pub fn is_settled(&self, here: &Here) -> bool
        ensures { result ≡ is_settled (here_of here.now) (local_of here.now.tenant.now self.now) }
    {
        self.settling.is_settled(here.tenant, here.has_stayed)
    }

    /// A replica of the tenant that isn't settled asks those of the others whose State is lacking, once in an epoch and
    /// incarnation.
    ///
    /// # Errors
    /// `CountsExhausted` where the tenant's messages here would pass 2^62, or out of memory.
    pub fn ask_first(
        &mut self,
        alloc: Global,
        here: &Here,
        outbox: &mut Vec<Said>,
    ) -> Result<(), Fault>
        ensures reacts { OnOk result (Moves here.now.tenant.now (asks_first (here_of here.now))
            self.old self.new outbox.old.items outbox.new.items) }
        ensures fault { IfErr result
            (StopsReacting here.now.tenant.now (asks_first (here_of here.now)) self.old) }
        ensures order { IsInOrder (here_of here.now) self.old → OnOk result (IsInOrder (here_of here.now) self.new) }
        ensures node { self.new.node ≡ self.old.node }
    {
        if !here.is_replica() {
            return Ok(());
        }
        if self.is_settled(here) {
            return Ok(());
        }
        let others = here.others(alloc)?;
        let receivers = self
            .settling
            .ask(alloc, here.tenant, here.moment, others.as_slice())?;
        let body = Body::Ask {
            incarnation: here.incarnation,
        };
        self.send_all(alloc, here, here.epoch, receivers.as_slice(), &body, outbox)
    }

    /// Answers a replica of the tenant, in this incarnation of it, that asks for the State: a settled instance sends
    /// what is left of it.
    ///
    /// # Errors
    /// `CountsExhausted` where the tenant's messages here would pass 2^62, or a piece begins behind 2^32 items or is
    /// too long; or out of memory.
    pub fn answer_ask(
        &mut self,
        alloc: Global,
        here: &Here,
        asker: &Peer,
        outbox: &mut Vec<Said>,
    ) -> Result<(), Fault>
        ensures reacts { OnOk result (Reacts here.now.tenant.now (answer_ask (here_of here.now) asker.now)
            self.old self.new outbox.old.items outbox.new.items) }
        ensures fault { IfErr result
            (StopsReacting here.now.tenant.now (answer_ask (here_of here.now) asker.now) self.old) }
        ensures order { IsInOrder (here_of here.now) self.old → OnOk result (IsInOrder (here_of here.now) self.new) }
        ensures node { self.new.node ≡ self.old.node }
    {
        if !self.is_settled(here) {
            return Ok(());
        }
        let held = self.node.held(here.tenant);
        let pieces = self.settling.asked(alloc, here.tenant, *asker, held)?;
        self.send_pieces(alloc, here, asker, pieces.as_slice(), outbox)
    }
}
