//! What is sent again: a State that is pushed, or else an Ask.

ghost use Rattle.std.specs.Prelude.{◌≡◌, IfErr, OnOk};
ghost use Rattle.am_cluster.specs.Ticking.{send_again};
ghost use Rattle.am_transfer.specs.Peers.{at_number};
ghost use Rattle.am_site.specs.Here.{here_of};
ghost use Rattle.am_site.specs.InOrder.{IsInOrder};
ghost use Rattle.am_site.specs.Reacting.{Reacts, StopsReacting};

use crate::here::Here;
use crate::said::Said;
use crate::site::Site;
use am_item::Fault;
use am_ring::Instance;
use am_transfer::{Again, Peer};
use am_wire::Body;
use std::alloc::Global;

impl Site {
    /// Sends an instance again what it is sent until it answers: what is left of a State that is pushed to it, or else
    /// an Ask, where one was sent to it and its State is lacking.
    ///
    /// # Errors
    /// `CountsExhausted` where the tenant's messages here would pass 2^62, or a piece begins behind 2^32 items or is
    /// too long; or out of memory.
    pub(crate) fn send_again(
        &mut self,
        alloc: Global,
        here: &Here,
        to: Instance,
        outbox: &mut Vec<Said>,
    ) -> Result<(), Fault>
        requires { IsInOrder (here_of here.now) self.old }
        ensures reacts { OnOk result (Reacts here.now.tenant.now
            (λ l. send_again (here_of here.now) to (at_number to l.settling.pushes) l)
            self.old self.new outbox.old.items outbox.new.items) }
        ensures fault { IfErr result (StopsReacting here.now.tenant.now
            (λ l. send_again (here_of here.now) to (at_number to l.settling.pushes) l) self.old) }
        ensures order { OnOk result (IsInOrder (here_of here.now) self.new) }
        ensures node { self.new.node ≡ self.old.node }
    {
        let held = self.node.held(here.tenant);
        let (tenant, moment) = (here.tenant, here.moment);
        let again = self.settling.tick(alloc, tenant, to, moment, held)?;
        match again {
            Again::State(incarnation, pieces) => {
                let receiver = Peer {
                    instance: to,
                    incarnation,
                };
                self.send_pieces(alloc, here, &receiver, pieces.as_slice(), outbox)
            }
            Again::Ask => {
                let body = Body::Ask {
                    incarnation: here.incarnation,
                };
                self.send_in(alloc, here, here.epoch, to, body, outbox)
            }
            Again::Nothing => Ok(()),
        }
    }
}
