//! Operations: a request goes to the three replicas of its tenant.

ghost use Rattle.std.specs.Prelude.{◌≡◌, ◌+◌, ◌++◌, IfErr, IfOk, OnOk, map};
ghost use Rattle.am_cluster.specs.Operating.{acked, begin, operation_for, start};
ghost use Rattle.am_site.specs.Here.{here_of};
ghost use Rattle.am_site.specs.InOrder.{IsInOrder};
ghost use Rattle.am_site.specs.Locals.{local_of};
ghost use Rattle.am_site.specs.Reacting.{Does, Reacts, StopsReacting, replied, said_in};

use crate::here::Here;
use crate::said::Said;
use crate::site::Site;
use am_http::{ConnectionId, Request};
use am_item::Fault;
use am_quorum::{Ready, Target};
use am_ring::Instance;
use am_wire::Body;
use std::alloc::{AllocError, Global};

impl Site {
    /// Starts the operation of a whole request of a tenant, and asks the three replicas for what they hold, in order of
    /// position.
    ///
    /// # Errors
    /// `CountsExhausted` where the tenant's operations or messages here would pass 2^62, or out of memory.
    pub fn start(
        &mut self,
        alloc: Global,
        here: &Here,
        connection: ConnectionId,
        request: Request,
        outbox: &mut Vec<Said>,
    ) -> Result<(), Fault>
        requires { request.tenant ≡ here.now.tenant.now }
        ensures reacts { OnOk result (Reacts here.now.tenant.now (start (here_of here.now) connection request)
            self.old self.new outbox.old.items outbox.new.items) }
        ensures fault { IfErr result
            (StopsReacting here.now.tenant.now (start (here_of here.now) connection request) self.old) }
        ensures order { IsInOrder (here_of here.now) self.old → OnOk result (IsInOrder (here_of here.now) self.new) }
        ensures node { self.new.node ≡ self.old.node }
    {
        let operation = self.begin(alloc, here, connection, request)?;
        let body = Body::Get { operation };
        self.send_all(alloc, here, here.epoch, here.three, &body, outbox)
    }

    /// Takes the Ack of a replica for an operation of a tenant: at the second one its reply goes out.
    ///
    /// An error is out of memory.
    pub fn acknowledge(
        &mut self,
        here: &Here,
        target: Target,
        from: Instance,
        outbox: &mut Vec<Said>,
    ) -> Result<(), AllocError>
        requires { self.old.operations.incarnation ≡ target.incarnation }
        ensures reacts { OnOk result (Reacts here.now.tenant.now (acked target.number target.epoch from)
            self.old self.new outbox.old.items outbox.new.items) }
        ensures order { IsInOrder (here_of here.now) self.old → OnOk result (IsInOrder (here_of here.now) self.new) }
        ensures node { self.new.node ≡ self.old.node }
    {
        let ready = self.operations.ack(here.tenant, target, from);
        push_reply(outbox, ready)
    }

    // Opens the operation of a request, and gives its number.
    fn begin(
        &mut self,
        alloc: Global,
        here: &Here,
        connection: ConnectionId,
        request: Request,
    ) -> Result<u64, Fault>
        requires { request.tenant ≡ here.now.tenant.now }
        ensures number { IfOk result (λ number.
            number ≡ (local_of here.now.tenant.now self.old).ledger.operations + 1) }
        ensures does { IfOk result (λ number. Does here.now.tenant.now
            (begin (operation_for (here_of here.now) connection request number)) self.old self.new) }
        ensures fault { IfErr result (λ fault. StopsReacting here.now.tenant.now (begin
            (operation_for (here_of here.now) connection request
            ((local_of here.now.tenant.now self.old).ledger.operations + 1))) self.old fault) }
        ensures node { self.new.node ≡ self.old.node }
    {
        let (moment, epoch) = (here.moment, here.epoch);
        self.operations
            .start(alloc, connection, request, moment, epoch)
    }
}

// Puts out the reply of an operation that is over, where one is.
fn push_reply(outbox: &mut Vec<Said>, ready: Option<Ready>) -> Result<(), AllocError>
    ensures { OnOk result (map said_in outbox.new.items ≡ map said_in outbox.old.items ++ replied ready) }
{
    if let Some(ready) = ready {
        outbox.push(Said::Reply {
            connection: ready.connection,
            bytes: ready.reply,
        })?;
    }
    Ok(())
}
