//! Notices on their way.

ghost use Rattle.std.specs.Prelude.{◌≡◌, ℕ, List, IfErr, OnOk};
ghost use Rattle.am_cluster.specs.Delivery.{is_awaited, outcome};
ghost use Rattle.am_node.specs.Held.{local_of as local_in_node};
ghost use Rattle.am_rows.specs.Rows.{stored_in};
ghost use Rattle.am_site.specs.Here.{here_of};
ghost use Rattle.am_site.specs.InOrder.{IsInOrder};
ghost use Rattle.am_site.specs.Locals.{local_of};
ghost use Rattle.am_site.specs.Notices.{put_to_others};
ghost use Rattle.am_site.specs.Reacting.{Reacts, StopsReacting};

use crate::here::Here;
use crate::said::Said;
use crate::site::Site;
use am_item::{Fault, SharedItem};
use am_tenant::TenantName;
use am_wire::{Body, Items};
use std::alloc::Global;

impl Site {
    /// Whether the outcome of this try of a tenant's attempt is awaited.
    pub fn is_awaited(&self, tenant: &TenantName, number: u64, tries: u8) -> bool
        ensures { result ≡ is_awaited number tries (local_of tenant.now self.now) }
    {
        self.node.is_awaited(tenant, number, tries)
    }

    /// Takes the outcome of a try of a tenant's attempt at a notice: the status of the webhook's answer, or `None`
    /// where there was none. A notice that was delivered is recorded, and the record is put to the other two replicas.
    /// Nothing changes where no outcome of that try is awaited.
    ///
    /// # Errors
    /// `CountsExhausted` where a count of the tenant here would pass 2^62 or a message is too long, or out of memory.
    pub fn outcome(
        &mut self,
        alloc: Global,
        here: &Here,
        number: u64,
        tries: u8,
        status: Option<u16>,
        outbox: &mut Vec<Said>,
    ) -> Result<(), Fault>
        ensures reacts { OnOk result (Reacts here.now.tenant.now (outcome (here_of here.now) number tries status)
            self.old self.new outbox.old.items outbox.new.items) }
        ensures fault { IfErr result
            (StopsReacting here.now.tenant.now (outcome (here_of here.now) number tries status) self.old) }
        ensures order { IsInOrder (here_of here.now) self.old → OnOk result (IsInOrder (here_of here.now) self.new) }
        ensures stored { OnOk result ((t : List ℕ) → stored_in (local_in_node t self.new.node).held
            ≡ stored_in (local_in_node t self.old.node).held) }
    {
        let context = here.context();
        let recorded = self
            .node
            .outcome(alloc, here.tenant, &context, number, tries, status)?;
        match recorded {
            Some(entry) => self.put_to_others(alloc, here, entry, outbox),
            None => Ok(()),
        }
    }

    /// Puts an item to the other two replicas, which send no Ack.
    pub(crate) fn put_to_others(
        &mut self,
        alloc: Global,
        here: &Here,
        item: SharedItem,
        outbox: &mut Vec<Said>,
    ) -> Result<(), Fault>
        ensures reacts { OnOk result (Reacts here.now.tenant.now (put_to_others (here_of here.now) item)
            self.old self.new outbox.old.items outbox.new.items) }
        ensures fault { IfErr result
            (StopsReacting here.now.tenant.now (put_to_others (here_of here.now) item) self.old) }
        ensures node { self.new.node ≡ self.old.node }
    {
        let mut items = Vec::new(alloc);
        items.push(item)?;
        let body = Body::Put {
            operation: 0,
            items: Items::from_vec(alloc, items)?,
        };
        let others = here.others(alloc)?;
        self.send_all(alloc, here, here.epoch, others.as_slice(), &body, outbox)
    }
}
