//! Bytes of connections.

ghost use Rattle.std.specs.Prelude.{◌≡◌, ◌==◌, ◌++◌, ℕ, List, Some, true, IfErr, IfOk, IsSome, OnErr, OnOk};
ghost use Rattle.std.specs.Prelude.{if◌then◌else◌};
ghost use Rattle.am_cluster.specs.Operating.{start};
ghost use Rattle.am_cluster.specs.Outputs.{refusal_reply};
ghost use Rattle.am_http.specs.Connections.{left_open};
ghost use Rattle.am_http.specs.Verdict.{verdict};
ghost use Rattle.am_site.specs.Reacting.{StopsReacting};
ghost use Rattle.am_instance.specs.Bringing.{Brings, IsCause};
ghost use Rattle.am_instance.specs.Here.{circumstances, here_on};
ghost use Rattle.am_instance.specs.Instance.{GoesOn, ReadsOn, bytes_in, refused_in};
ghost use Rattle.am_instance.specs.Reacting.{Reacts};
ghost use Rattle.am_instance.specs.Whole.{IsWhole};

use crate::given::{Occasion, Piece};
use crate::instance::Instance;
use crate::outputs::{Speaker, put_out};
use am_event::Output;
use am_http::{ConnectionId, Fed, FrontRefusal, Request, ready_reply, refusal_body, reply_bytes};
use am_item::Fault;
use am_tenant::TenantName;
use am_text::Octets;
use std::alloc::{AllocError, Global};

impl Instance {
    /// Takes a piece of a connection that the instance reads on an occasion, and puts out what it brings: nothing, the
    /// front's answer, or what is asked of the three replicas for a whole request. An error puts nothing out.
    ///
    /// # Errors
    /// `CountsExhausted` where the tenant's operations or messages here would pass 2^62, or out of memory.
    pub fn feed(
        &mut self,
        alloc: Global,
        piece: &Piece<'_>,
        occasion: &Occasion<'_>,
        outputs: &mut Vec<Output>,
    ) -> Result<(), Fault>
        requires whole { IsWhole (circumstances occasion.now) self.old }
        requires reads { IsSome (bytes_in piece.now.connection self.old) }
        ensures brings { OnOk result ((before : List ℕ) → bytes_in piece.now.connection self.old ≡ Some before →
            Brings (verdict (before ++ piece.now.bytes.now)) piece.now.connection (circumstances occasion.now)
            self.old self.new outputs.old.items outputs.new.items) }
        ensures silent { OnErr result (outputs.new.items ≡ outputs.old.items) }
        ensures cause { IfErr result (λ fault. (before : List ℕ) →
            bytes_in piece.now.connection self.old ≡ Some before →
            IsCause fault (verdict (before ++ piece.now.bytes.now)) piece.now.connection
            (circumstances occasion.now) self.old) }
        ensures front { OnOk result ((before : List ℕ) → bytes_in piece.now.connection self.old ≡ Some before →
            (c : ℕ) → bytes_in c self.new ≡ (if c == piece.now.connection
            then left_open (verdict (before ++ piece.now.bytes.now)) (before ++ piece.now.bytes.now)
            else bytes_in c self.old)) }
        ensures stays { GoesOn self.old self.new }
        ensures refused { refused_in self.new ≡ refused_in self.old }
        ensures whole { OnOk result (IsWhole (circumstances occasion.now) self.new) }
        ensures node { self.new.site.node ≡ self.old.site.node }
    {
        let connection = piece.connection;
        match self.front.feed(alloc, connection, piece.bytes)? {
            Fed::Waits => Ok(()),
            Fed::Refused(reason) => {
                let bytes = refuse(alloc, reason)?;
                outputs.push(Output::Reply { connection, bytes })?;
                Ok(())
            }
            Fed::Ready => {
                let bytes = ready_reply(alloc)?;
                outputs.push(Output::Reply { connection, bytes })?;
                Ok(())
            }
            Fed::Request(request) => self.ask(alloc, connection, request, occasion, outputs),
        }
    }

    // Starts the operation of a whole request, and asks the three replicas.
    fn ask(
        &mut self,
        alloc: Global,
        connection: ConnectionId,
        request: Request,
        occasion: &Occasion<'_>,
        outputs: &mut Vec<Output>,
    ) -> Result<(), Fault>
        requires whole { IsWhole (circumstances occasion.now) self.old }
        ensures reacts { OnOk result (Reacts (circumstances occasion.now) request.tenant
            (λ here. start here connection request) self.old self.new outputs.old.items outputs.new.items) }
        ensures silent { OnErr result (outputs.new.items ≡ outputs.old.items) }
        ensures cause { IfErr result (StopsReacting request.tenant
            (start (here_on (circumstances occasion.now) self.old request.tenant) connection request) self.old.site) }
        ensures stays { ReadsOn self.old self.new }
        ensures refused { refused_in self.new ≡ refused_in self.old }
        ensures whole { OnOk result (IsWhole (circumstances occasion.now) self.new) }
        ensures node { self.new.site.node ≡ self.old.site.node }
    {
        let tenant = request.tenant;
        let three = self.three(occasion, &tenant);
        let here = self.here(occasion, &tenant, &three);
        self.tenants.note(tenant)?;
        let mut said = Vec::new(alloc);
        self.site
            .start(alloc, &here, connection, request, &mut said)?;
        put_out(alloc, self.speaker(tenant), said, outputs)?;
        Ok(())
    }

    // Who says something of a tenant.
    pub(crate) fn speaker(&self, tenant: TenantName) -> Speaker
        ensures { result ≡ record { tenant = tenant; instance = self.now.number; incarnation = self.now.incarnation } }
    {
        Speaker {
            tenant,
            instance: self.number.number(),
            incarnation: self.incarnation,
        }
    }
}

/// The reply to bytes that the front refuses.
#[tactic(auto, unfolding(am_cluster::specs::Outputs::refusal_reply))]
fn refuse(alloc: Global, reason: FrontRefusal) -> Result<Octets, AllocError>
    ensures { IfOk result (λ bytes. bytes ≡ refusal_reply reason) }
{
    let body = refusal_body(alloc, reason.code())?;
    reply_bytes(alloc, reason.status(), body.as_slice())
}
