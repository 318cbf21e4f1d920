//! Ticks, in steps: what is retired goes, and then a group is flushed or an attempt tried again for a timer of notices.

ghost use Rattle.std.specs.Prelude.{◌≡◌, ℕ, List, IfErr, OnOk, true};
ghost use Rattle.am_cluster.specs.Here.{Here as ClusterHere};
ghost use Rattle.am_cluster.specs.Reactions.{each};
ghost use Rattle.am_node.specs.Held.{local_of as local_in_node};
ghost use Rattle.am_node.specs.Plans.{IsPlanned};
ghost use Rattle.am_node.specs.Retiring.{retired as retired_in_node};
ghost use Rattle.am_node.specs.Storing.{AreStored, LeavesStore};
ghost use Rattle.am_node.specs.Ticks.{muted_for};
ghost use Rattle.am_replica.specs.Retiring.{StopsRetiring};
ghost use Rattle.am_replica.specs.Storing.{fault_in};
ghost use Rattle.am_rows.specs.Rows.{stored_in};
ghost use Rattle.am_site.specs.Here.{here_of};
ghost use Rattle.am_site.specs.InOrder.{IsInOrder};
ghost use Rattle.am_site.specs.Locals.{local_of};
ghost use Rattle.am_site.specs.Notices.{notified_for, reported};
ghost use Rattle.am_site.specs.Reacting.{Reacts, Retires, StopsReacting};

use crate::here::Here;
use crate::said::Said;
use crate::site::Site;
use am_item::Fault;
use am_node::{Muted, Report};
use am_rows::Rows;
use am_text::Moment;
use am_timer::TimerKey;
use std::alloc::Global;

impl Site {
    /// Drops what is retired at a moment, of all tenants: items, and the last flushes of groups that then have no
    /// members. It costs what goes.
    ///
    /// # Errors
    /// `StoreRefused` where silences retire, or out of memory. The rows are as before, or without the silences that
    /// retire.
    pub fn retire<R: Rows>(
        &mut self,
        alloc: Global,
        moment: Moment,
        store: &mut R,
    ) -> Result<(), Fault>
        requires { R.is_open store.old ≡ true }
        ensures retires { OnOk result (Retires moment self.old self.new) }
        ensures order { (here : ClusterHere) → IsInOrder here self.old → OnOk result (IsInOrder here self.new) }
        ensures planned { OnOk result ((t : List ℕ) → IsPlanned (local_in_node t self.new.node)) }
        ensures fault { IfErr result (StopsRetiring moment (λ t. (local_of t self.old).held)) }
        ensures clean { R.is_clean store.new ≡ true → R.is_clean store.old ≡ true }
        ensures open { OnOk result (R.is_open store.new ≡ true) }
        ensures stores { R.is_clean store.new ≡ true → AreStored self.old.node (R.pairs store.old)
            → OnOk result (AreStored self.new.node (R.pairs store.new)) }
        ensures left { R.is_clean store.new ≡ true → AreStored self.old.node (R.pairs store.old) → LeavesStore
            (λ t. local_in_node t self.old.node) (λ t. retired_in_node moment (local_in_node t self.old.node))
            ⊥ (fault_in result) (R.medium store.old) (R.medium store.new) (R.pairs store.new) }
    {
        self.node.retire(alloc, moment, store)
    }

    /// Does what a timer of a tenant's notices is for, where it is still due: a group is flushed, or an attempt tried
    /// again. What is recorded is put to the other two replicas.
    ///
    /// # Errors
    /// `CountsExhausted` where a count of the tenant here would pass 2^62 or a message is too long, or out of memory.
    pub fn notify(
        &mut self,
        alloc: Global,
        here: &Here,
        key: &TimerKey,
        muted: &Muted,
        outbox: &mut Vec<Said>,
    ) -> Result<(), Fault>
        requires { IsInOrder (here_of here.now) self.old }
        ensures reacts { OnOk result (Reacts here.now.tenant.now
            (notified_for (here_of here.now) (muted_for here.now.tenant.now muted.now) key.now)
            self.old self.new outbox.old.items outbox.new.items) }
        ensures fault { IfErr result (StopsReacting here.now.tenant.now
            (notified_for (here_of here.now) (muted_for here.now.tenant.now muted.now) key.now) self.old) }
        ensures stored { OnOk result ((t : List ℕ) → stored_in (local_in_node t self.new.node).held
            ≡ stored_in (local_in_node t self.old.node).held) }
    {
        let context = here.context();
        let reports = self.node.handle(alloc, here.tenant, &context, key, muted)?;
        self.report_all(alloc, here, reports, outbox)
    }

    // Says what a node has to say, in order.
    fn report_all(
        &mut self,
        alloc: Global,
        here: &Here,
        reports: Vec<Report>,
        outbox: &mut Vec<Said>,
    ) -> Result<(), Fault>
        ensures reacts { OnOk result (Reacts here.now.tenant.now (each (reported (here_of here.now)) reports.items)
            self.old self.new outbox.old.items outbox.new.items) }
        ensures fault { IfErr result
            (StopsReacting here.now.tenant.now (each (reported (here_of here.now)) reports.items) self.old) }
        ensures node { self.new.node ≡ self.old.node }
    {
        for report in reports {
            self.report(alloc, here, report, outbox)?;
        }
        Ok(())
    }

    // Says one thing: a try goes out, and a record is put to the others.
    fn report(
        &mut self,
        alloc: Global,
        here: &Here,
        report: Report,
        outbox: &mut Vec<Said>,
    ) -> Result<(), Fault>
        ensures reacts { OnOk result (Reacts here.now.tenant.now (reported (here_of here.now) report)
            self.old self.new outbox.old.items outbox.new.items) }
        ensures fault { IfErr result
            (StopsReacting here.now.tenant.now (reported (here_of here.now) report) self.old) }
        ensures node { self.new.node ≡ self.old.node }
    {
        match report {
            Report::Try(sending) => {
                outbox.push(Said::Try(sending))?;
                Ok(())
            }
            Report::Record(entry) => self.put_to_others(alloc, here, entry, outbox),
        }
    }
}
