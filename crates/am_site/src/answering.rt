//! What an instance answers as a replica.

ghost use Rattle.std.specs.Prelude.{◌≡◌, ℕ, List, IfErr, IfOk, OnOk};
ghost use Rattle.am_cluster.specs.Arriving.{answer_get};
ghost use Rattle.am_site.specs.Here.{here_of};
ghost use Rattle.am_site.specs.InOrder.{IsInOrder};
ghost use Rattle.am_site.specs.Locals.{local_of};
ghost use Rattle.am_site.specs.Reacting.{Reacts, StopsReacting};

use crate::here::Here;
use crate::said::Said;
use crate::site::Site;
use am_item::Fault;
use am_tenant::TenantName;
use am_transfer::Peer;
use am_wire::{Body, Items};
use std::alloc::{AllocError, Global};

impl Site {
    /// Answers an instance, in this incarnation of it, that asks for the best items of a tenant for an operation: a
    /// settled replica sends all that it holds.
    ///
    /// # Errors
    /// `CountsExhausted` where the tenant's messages here would pass 2^62 or the answer is too long, or out of memory.
    pub fn answer_get(
        &mut self,
        alloc: Global,
        here: &Here,
        asker: &Peer,
        operation: u64,
        outbox: &mut Vec<Said>,
    ) -> Result<(), Fault>
        ensures reacts { OnOk result (Reacts here.now.tenant.now
            (answer_get (here_of here.now) asker.now operation)
            self.old self.new outbox.old.items outbox.new.items) }
        ensures fault { IfErr result (StopsReacting here.now.tenant.now
            (answer_get (here_of here.now) asker.now operation) self.old) }
        ensures order { IsInOrder (here_of here.now) self.old → OnOk result (IsInOrder (here_of here.now) self.new) }
        ensures node { self.new.node ≡ self.old.node }
    {
        if !self.is_settled(here) {
            return Ok(());
        }
        let to = asker.instance;
        let items = self.snapshot(here.tenant)?;
        let body = Body::Answer {
            operation,
            incarnation: asker.incarnation,
            items,
        };
        self.send_in(alloc, here, here.epoch, to, body, outbox)
    }

    // All that is held of a tenant, as the items of a message.
    #[tactic(auto, unfolding(crate::specs::Locals::local_of))]
    fn snapshot(&self, tenant: &TenantName) -> Result<Items, AllocError>
        ensures { IfOk result (λ items. items ≡ (local_of tenant.now self.now).held) }
    {
        let held = self.node.held(tenant).snapshot()?;
        Ok(Items::from_held(held))
    }
}
