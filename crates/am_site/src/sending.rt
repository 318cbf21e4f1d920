//! Messages that an instance sends.

ghost use Rattle.std.specs.Prelude.{◌≡◌, IfErr, OnOk};
ghost use Rattle.am_cluster.specs.Sending.{send_all, send_in};
ghost use Rattle.am_site.specs.Here.{here_of};
ghost use Rattle.am_site.specs.Reacting.{Reacts, StopsReacting};

use crate::here::Here;
use crate::said::Said;
use crate::site::Site;
use am_item::{Fault, GREATEST_COUNT};
use am_ring::Instance;
use am_wire::{Body, Message, spelled_len};
use std::alloc::Global;

impl Site {
    /// Sends a message of this epoch about a tenant: it has the tenant's next count.
    ///
    /// # Errors
    /// `CountsExhausted` where the count would pass 2^62 or the message has 2^32 bytes or more, or out of memory.
    pub(crate) fn send_in(
        &mut self,
        alloc: Global,
        here: &Here,
        epoch: u64,
        to: Instance,
        body: Body,
        outbox: &mut Vec<Said>,
    ) -> Result<(), Fault>
        ensures reacts { OnOk result (Reacts here.now.tenant.now (send_in epoch (here_of here.now) to body)
            self.old self.new outbox.old.items outbox.new.items) }
        ensures fault { IfErr result
            (StopsReacting here.now.tenant.now (send_in epoch (here_of here.now) to body) self.old) }
        ensures node { self.new.node ≡ self.old.node }
        ensures settling { self.new.settling ≡ self.old.settling }
    {
        let used = self.sent.used(here.tenant);
        if used >= GREATEST_COUNT {
            return Err(Fault::CountsExhausted);
        }
        let message = Message {
            from: here.instance,
            incarnation: here.incarnation,
            to,
            count: used + 1,
            epoch,
            tenant: *here.tenant,
            body,
        };
        if spelled_len(&message).is_none() {
            return Err(Fault::CountsExhausted);
        }
        self.sent.set(alloc, here.tenant, used + 1)?;
        outbox.push(Said::Message(message))?;
        Ok(())
    }

    /// Sends the same to several instances, in their order.
    ///
    /// # Errors
    /// Those of [`Site::send_in`].
    pub(crate) fn send_all(
        &mut self,
        alloc: Global,
        here: &Here,
        epoch: u64,
        to: &[Instance],
        body: &Body,
        outbox: &mut Vec<Said>,
    ) -> Result<(), Fault>
        ensures reacts { OnOk result (Reacts here.now.tenant.now (send_all epoch (here_of here.now) to.now body.now)
            self.old self.new outbox.old.items outbox.new.items) }
        ensures fault { IfErr result
            (StopsReacting here.now.tenant.now (send_all epoch (here_of here.now) to.now body.now) self.old) }
        ensures node { self.new.node ≡ self.old.node }
        ensures settling { self.new.settling ≡ self.old.settling }
    {
        for instance in to {
            let body = body.share()?;
            self.send_in(alloc, here, epoch, *instance, body, outbox)?;
        }
        Ok(())
    }
}
