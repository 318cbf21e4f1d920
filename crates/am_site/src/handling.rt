//! What is done for the timers of a tick.

ghost use Rattle.std.specs.Prelude.{◌≡◌, ℕ, List, IfErr, OnOk};
ghost use Rattle.am_cluster.specs.Ticking.{handled};
ghost use Rattle.am_node.specs.Held.{local_of as local_in_node};
ghost use Rattle.am_node.specs.Ticks.{muted_for};
ghost use Rattle.am_rows.specs.Rows.{stored_in};
ghost use Rattle.am_site.specs.Here.{here_of};
ghost use Rattle.am_site.specs.InOrder.{IsInOrder};
ghost use Rattle.am_site.specs.Reacting.{Reacts, StopsReacting};

use crate::here::Here;
use crate::said::Said;
use crate::site::Site;
use am_item::Fault;
use am_node::Muted;
use am_timer::TimerKey;
use std::alloc::Global;

impl Site {
    /// Does what a timer of a tenant is for, where it is still due: an operation is given up, a group is flushed, an
    /// attempt is tried again, or what an instance is sent until it answers is sent again.
    ///
    /// # Errors
    /// `CountsExhausted` where a count of the tenant here would pass 2^62, or a message is too long or tells of a place
    /// behind 2^32 items; or out of memory.
    pub fn handle(
        &mut self,
        alloc: Global,
        here: &Here,
        key: &TimerKey,
        muted: &Muted,
        outbox: &mut Vec<Said>,
    ) -> Result<(), Fault>
        requires { IsInOrder (here_of here.now) self.old }
        ensures reacts { OnOk result (Reacts here.now.tenant.now
            (handled (here_of here.now) (muted_for here.now.tenant.now muted.now) key.now)
            self.old self.new outbox.old.items outbox.new.items) }
        ensures fault { IfErr result (StopsReacting here.now.tenant.now
            (handled (here_of here.now) (muted_for here.now.tenant.now muted.now) key.now) self.old) }
        ensures order { OnOk result (IsInOrder (here_of here.now) self.new) }
        ensures stored { OnOk result ((t : List ℕ) → stored_in (local_in_node t self.new.node).held
            ≡ stored_in (local_in_node t self.old.node).held) }
    {
        match key {
            TimerKey::Operation(number) => {
                self.give_up(alloc, here, *number, outbox)?;
                Ok(())
            }
            TimerKey::Group(_) | TimerKey::Retry(_) => {
                self.notify(alloc, here, key, muted, outbox)
            }
            TimerKey::Push(to) => self.send_again(alloc, here, *to, outbox),
        }
    }
}
