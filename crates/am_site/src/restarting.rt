//! What an instance does where it was joined or restarted, and where another one was.

ghost use Rattle.std.specs.Prelude.{◌≡◌, ◌==◌, IfErr, OnOk, length, not};
ghost use Rattle.am_cluster.specs.Local.{holds_any};
ghost use Rattle.am_cluster.specs.RingChanges.{just_opened, other_restarted, push_if_settled};
ghost use Rattle.am_cluster.specs.Transfers.{begin_push};
ghost use Rattle.am_site.specs.Here.{here_of};
ghost use Rattle.am_site.specs.InOrder.{IsInOrder};
ghost use Rattle.am_site.specs.Locals.{local_of};
ghost use Rattle.am_site.specs.Reacting.{Moves, Reacts, StopsReacting};

use crate::here::Here;
use crate::said::Said;
use crate::site::Site;
use crate::three::is_among;
use am_item::{Fault, Held};
use am_ring::Instance;
use am_transfer::Peer;
use std::alloc::Global;

impl Site {
    /// A replica of the tenant that was joined or restarted asks the others, as [`Site::ask_first`] does, where it
    /// holds an item.
    ///
    /// # Errors
    /// Those of [`Site::ask_first`].
    pub fn ask_if_holding(
        &mut self,
        alloc: Global,
        here: &Here,
        outbox: &mut Vec<Said>,
    ) -> Result<(), Fault>
        ensures reacts { OnOk result (Moves here.now.tenant.now (just_opened (here_of here.now))
            self.old self.new outbox.old.items outbox.new.items) }
        ensures fault { IfErr result
            (StopsReacting here.now.tenant.now (just_opened (here_of here.now)) self.old) }
        ensures order { IsInOrder (here_of here.now) self.old → OnOk result (IsInOrder (here_of here.now) self.new) }
        ensures node { self.new.node ≡ self.old.node }
    {
        if !self.holds_any(here) {
            return Ok(());
        }
        self.ask_first(alloc, here, outbox)
    }

    /// Another instance was restarted. Where it is one of the tenant's three, open operations are answered that the
    /// replicas changed, what was pushed to its earlier incarnation is over, and a settled replica that holds an item
    /// begins to push the State to the present one.
    ///
    /// # Errors
    /// `CountsExhausted` where the tenant's messages here would pass 2^62, or a piece begins behind 2^32 items or is
    /// too long; or out of memory.
    pub fn other_restarted(
        &mut self,
        alloc: Global,
        here: &Here,
        restarted: Instance,
        outbox: &mut Vec<Said>,
    ) -> Result<(), Fault>
        ensures reacts { OnOk result (Reacts here.now.tenant.now (other_restarted (here_of here.now) restarted)
            self.old self.new outbox.old.items outbox.new.items) }
        ensures fault { IfErr result
            (StopsReacting here.now.tenant.now (other_restarted (here_of here.now) restarted) self.old) }
        ensures order { IsInOrder (here_of here.now) self.old → OnOk result (IsInOrder (here_of here.now) self.new) }
        ensures node { self.new.node ≡ self.old.node }
    {
        if !is_among(restarted, here.three) {
            return Ok(());
        }
        self.replicas_changed(alloc, here, outbox)?;
        self.settling.end_push(alloc, here.tenant, restarted)?;
        self.push_if_settled(alloc, here, restarted, outbox)
    }

    // A settled replica of the tenant that holds an item begins a push to another instance.
    fn push_if_settled(
        &mut self,
        alloc: Global,
        here: &Here,
        to: Instance,
        outbox: &mut Vec<Said>,
    ) -> Result<(), Fault>
        ensures reacts { OnOk result (Reacts here.now.tenant.now (push_if_settled (here_of here.now) to)
            self.old self.new outbox.old.items outbox.new.items) }
        ensures fault { IfErr result
            (StopsReacting here.now.tenant.now (push_if_settled (here_of here.now) to) self.old) }
        ensures node { self.new.node ≡ self.old.node }
    {
        if !here.is_replica() {
            return Ok(());
        }
        if !self.is_settled(here) {
            return Ok(());
        }
        if !self.holds_any(here) {
            return Ok(());
        }
        self.begin_push(alloc, here, to, outbox)
    }

    // A push begins, to the present incarnation of an instance.
    pub(crate) fn begin_push(
        &mut self,
        alloc: Global,
        here: &Here,
        to: Instance,
        outbox: &mut Vec<Said>,
    ) -> Result<(), Fault>
        ensures reacts { OnOk result (Reacts here.now.tenant.now (begin_push (here_of here.now) to)
            self.old self.new outbox.old.items outbox.new.items) }
        ensures fault { IfErr result
            (StopsReacting here.now.tenant.now (begin_push (here_of here.now) to) self.old) }
        ensures node { self.new.node ≡ self.old.node }
    {
        let receiver = Peer {
            instance: to,
            incarnation: here.present(to),
        };
        self.push(alloc, here, &receiver, outbox)
    }

    // Whether an item of the tenant is held.
    #[tactic(auto, unfolding(crate::specs::Locals::local_of))]
    pub(crate) fn holds_any(&self, here: &Here) -> bool
        ensures { result ≡ holds_any (local_of here.now.tenant.now self.now) }
    {
        is_any_held(self.node.held(here.tenant))
    }
}

// Whether an item is held.
fn is_any_held(held: &Held) -> bool
    ensures { result ≡ not (length held.now == 0) }
{
    if held.configuration().is_some() {
        return true;
    }
    if held.silences().len() > 0 {
        return true;
    }
    if held.alerts().len() > 0 {
        return true;
    }
    held.sent_entries().len() > 0
}
