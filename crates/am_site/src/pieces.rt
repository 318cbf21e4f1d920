//! States: what a settled replica holds goes out in pieces.

ghost use Rattle.std.specs.Prelude.{◌≡◌, IfErr, OnOk, true};
ghost use Rattle.am_cluster.specs.Local.{is_settled};
ghost use Rattle.am_cluster.specs.Reactions.{each};
ghost use Rattle.am_cluster.specs.Transfers.{push, send_piece};
ghost use Rattle.am_site.specs.Here.{here_of};
ghost use Rattle.am_site.specs.InOrder.{IsInOrder};
ghost use Rattle.am_site.specs.Locals.{local_of};
ghost use Rattle.am_site.specs.Reacting.{Reacts, StopsReacting};

use crate::here::Here;
use crate::said::Said;
use crate::site::Site;
use am_item::Fault;
use am_transfer::{Peer, Piece};
use am_wire::Body;
use std::alloc::Global;

impl Site {
    /// Pushes the State to a replica of the tenant, now and again 10 seconds later, until a Got ends that: what is left
    /// of it goes out.
    ///
    /// # Errors
    /// `CountsExhausted` where the tenant's messages here would pass 2^62, or a piece begins behind 2^32 items or is
    /// too long; or out of memory.
    pub fn push(
        &mut self,
        alloc: Global,
        here: &Here,
        receiver: &Peer,
        outbox: &mut Vec<Said>,
    ) -> Result<(), Fault>
        ensures reacts { OnOk result (Reacts here.now.tenant.now (push (here_of here.now) receiver.now)
            self.old self.new outbox.old.items outbox.new.items) }
        ensures fault { IfErr result
            (StopsReacting here.now.tenant.now (push (here_of here.now) receiver.now) self.old) }
        ensures order { is_settled (here_of here.now) (local_of here.now.tenant.now self.old) ≡ true
            → IsInOrder (here_of here.now) self.old → OnOk result (IsInOrder (here_of here.now) self.new) }
        ensures node { self.new.node ≡ self.old.node }
    {
        let held = self.node.held(here.tenant);
        let (tenant, moment) = (here.tenant, here.moment);
        let pieces = self.settling.push(alloc, tenant, *receiver, moment, held)?;
        self.send_pieces(alloc, here, receiver, pieces.as_slice(), outbox)
    }

    // Sends pieces of a State, in order.
    pub(crate) fn send_pieces(
        &mut self,
        alloc: Global,
        here: &Here,
        receiver: &Peer,
        pieces: &[Piece],
        outbox: &mut Vec<Said>,
    ) -> Result<(), Fault>
        ensures reacts { OnOk result (Reacts here.now.tenant.now
            (each (send_piece (here_of here.now) receiver.now) pieces.now)
            self.old self.new outbox.old.items outbox.new.items) }
        ensures fault { IfErr result (StopsReacting here.now.tenant.now
            (each (send_piece (here_of here.now) receiver.now) pieces.now) self.old) }
        ensures node { self.new.node ≡ self.old.node }
        ensures settling { self.new.settling ≡ self.old.settling }
    {
        for piece in pieces {
            self.send_piece(alloc, here, receiver, piece, outbox)?;
        }
        Ok(())
    }

    // Sends a piece of a State.
    fn send_piece(
        &mut self,
        alloc: Global,
        here: &Here,
        receiver: &Peer,
        piece: &Piece,
        outbox: &mut Vec<Said>,
    ) -> Result<(), Fault>
        ensures reacts { OnOk result (Reacts here.now.tenant.now (send_piece (here_of here.now) receiver.now piece.now)
            self.old self.new outbox.old.items outbox.new.items) }
        ensures fault { IfErr result
            (StopsReacting here.now.tenant.now (send_piece (here_of here.now) receiver.now piece.now) self.old) }
        ensures node { self.new.node ≡ self.old.node }
        ensures settling { self.new.settling ≡ self.old.settling }
    {
        let Ok(place) = u32::try_from(piece.place()) else {
            return Err(Fault::CountsExhausted);
        };
        let to = receiver.instance;
        let body = Body::State {
            incarnation: receiver.incarnation,
            place,
            is_last: piece.is_last(),
            items: piece.items().share()?,
        };
        self.send_in(alloc, here, here.epoch, to, body, outbox)
    }
}
