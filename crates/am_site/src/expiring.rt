//! Operations that are given up: those that are open too long, and those whose tenant's replicas changed.

ghost use Rattle.std.specs.Prelude.{◌≡◌, ◌++◌, OnOk, map};
ghost use Rattle.am_cluster.specs.Operating.{replicas_changed, timed_out};
ghost use Rattle.am_cluster.specs.Reactions.{Replies, where_some};
ghost use Rattle.am_quorum.specs.Operations.{operation_at};
ghost use Rattle.am_site.specs.Here.{here_of};
ghost use Rattle.am_site.specs.InOrder.{IsInOrder};
ghost use Rattle.am_site.specs.Reacting.{Reacts, said_in};

use crate::here::Here;
use crate::said::Said;
use crate::site::Site;
use am_http::{ConnectionId, refusal_body, reply_bytes};
use am_text::Octets;
use std::alloc::{AllocError, Global};

// The codes that tell why.
const TIMED_OUT: &str = "Q1";

const REPLICAS_CHANGED: &str = "Q2";
// The status of a reply to a request that can't be carried out now (RFC 9110, section 15.6.4).
const UNAVAILABLE: u16 = 503;

impl Site {
    /// Gives up an operation of a tenant, where it is open: its reply says so.
    ///
    /// An error is out of memory.
    pub fn give_up(
        &mut self,
        alloc: Global,
        here: &Here,
        number: u64,
        outbox: &mut Vec<Said>,
    ) -> Result<(), AllocError>
        ensures reacts { OnOk result (Reacts here.now.tenant.now
            (λ l. where_some timed_out (operation_at number l.operations) l)
            self.old self.new outbox.old.items outbox.new.items) }
        ensures order { IsInOrder (here_of here.now) self.old → OnOk result (IsInOrder (here_of here.now) self.new) }
    {
        let body = refusal_body(alloc, TIMED_OUT)?;
        let reply = reply_bytes(alloc, UNAVAILABLE, body.as_slice())?;
        self.finish(here, number, reply, outbox)
    }

    // The replicas of the tenant changed: all open operations are over, and their replies say so, in order of number.
    pub(crate) fn replicas_changed(
        &mut self,
        alloc: Global,
        here: &Here,
        outbox: &mut Vec<Said>,
    ) -> Result<(), AllocError>
        ensures reacts { OnOk result (Reacts here.now.tenant.now replicas_changed
            self.old self.new outbox.old.items outbox.new.items) }
        ensures node { self.new.node ≡ self.old.node }
        ensures settling { self.new.settling ≡ self.old.settling }
    {
        let connections = self.operations.changed(alloc, here.tenant)?;
        let body = refusal_body(alloc, REPLICAS_CHANGED)?;
        let reply = reply_bytes(alloc, UNAVAILABLE, body.as_slice())?;
        push_replies(alloc, outbox, connections.as_slice(), &reply)
    }
}

// Puts out the same reply on several connections, in their order.
fn push_replies(
    alloc: Global,
    outbox: &mut Vec<Said>,
    connections: &[ConnectionId],
    reply: &Octets,
) -> Result<(), AllocError>
    ensures { OnOk result (map said_in outbox.new.items
        ≡ map said_in outbox.old.items ++ map (λ connection. Replies connection reply.now) connections.now) }
{
    for connection in connections {
        let bytes = reply.copy(alloc)?;
        outbox.push(Said::Reply {
            connection: *connection,
            bytes,
        })?;
    }
    Ok(())
}
