//! Ticks.

ghost use Rattle.std.specs.Prelude.{◌≡◌, ℕ, List, true, false, IfErr, IfOk, OnErr, OnOk};
ghost use Rattle.am_cluster.specs.Ticking.{handled};
ghost use Rattle.am_node.specs.Retiring.{retired as retired_in_node};
ghost use Rattle.am_node.specs.Ticks.{muted_for};
ghost use Rattle.am_replica.specs.Storing.{fault_in};
ghost use Rattle.am_rows.specs.Rows.{stored_in};
ghost use Rattle.am_site.specs.Reacting.{StopsReacting};
ghost use Rattle.am_instance.specs.Here.{circumstances, here_on};
ghost use Rattle.am_instance.specs.Instance.{IsSameNode, ReadsOn, local_in, node_local_in, refused_in};
ghost use Rattle.am_instance.specs.Leaving.{LeavesShelf, stop_for};
ghost use Rattle.am_instance.specs.Reacting.{Reacts};
ghost use Rattle.am_instance.specs.Shelves.{IsBacked, shelf_of};
ghost use Rattle.am_instance.specs.Ticks.{Either, HandlesAll, Stops, StopsHandling, StopsTicking, Ticks, TicksAll};
ghost use Rattle.am_instance.specs.Whole.{IsWhole};

use crate::given::Occasion;
use crate::instance::Instance;
use crate::outputs::put_out;
use am_event::Output;
use am_item::Fault;
use am_node::Muted;
use am_rows::Rows;
use am_timer::Timer;
use std::alloc::Global;

impl Instance {
    /// Ticks on an occasion, where it is up: what is retired goes, what is due is done once, in order, and what is said
    /// of that is put out. `false` where a fault stopped it; it has put nothing out then. A tick costs what is due and
    /// what goes.
    pub fn tick<R: Rows>(
        &mut self,
        alloc: Global,
        occasion: &Occasion<'_>,
        outputs: &mut Vec<Output>,
        store: &mut R,
    ) -> bool
        requires whole { IsWhole (circumstances occasion.now) self.old }
        requires backed { IsBacked self.old (shelf_of R.Rows store.old) }
        ensures ends { Either result
            (Ticks (circumstances occasion.now) self.old self.new outputs.old.items outputs.new.items)
            (Stops (circumstances occasion.now) self.old self.new outputs.old.items outputs.new.items) }
        ensures stays { IsSameNode self.old self.new }
        ensures whole { IsWhole (circumstances occasion.now) self.new }
        ensures clean { R.is_clean store.new ≡ true → R.is_clean store.old ≡ true }
        ensures backed { IsBacked self.new (shelf_of R.Rows store.new) }
        ensures left { self.old.up ≡ true → LeavesShelf (λ t. node_local_in t self.old)
            (λ t. retired_in_node occasion.now.moment (node_local_in t self.old)) ⊥
            (stop_for self.new.up self.new.cause)
            (shelf_of R.Rows store.old) (shelf_of R.Rows store.new) }
        ensures idle { self.old.up ≡ false → store.new ≡ store.old }
    {
        if !self.up {
            return true;
        }
        match self.tell(alloc, occasion, outputs, store) {
            Ok(()) => true,
            Err(fault) => {
                self.stop(alloc, fault);
                false
            }
        }
    }

    // Does what is due, and puts out what is said. An error puts nothing out.
    fn tell<R: Rows>(
        &mut self,
        alloc: Global,
        occasion: &Occasion<'_>,
        outputs: &mut Vec<Output>,
        store: &mut R,
    ) -> Result<(), Fault>
        requires up { self.old.up ≡ true }
        requires whole { IsWhole (circumstances occasion.now) self.old }
        requires backed { IsBacked self.old (shelf_of R.Rows store.old) }
        ensures told { OnOk result
            (TicksAll (circumstances occasion.now) self.old self.new outputs.old.items outputs.new.items) }
        ensures silent { OnErr result (outputs.new.items ≡ outputs.old.items) }
        ensures cause { IfErr result (StopsTicking (circumstances occasion.now) self.old (refused_in self.new)) }
        ensures stays { ReadsOn self.old self.new }
        ensures whole { OnOk result (IsWhole (circumstances occasion.now) self.new) }
        ensures clean { R.is_clean store.new ≡ true → R.is_clean store.old ≡ true }
        ensures backed { OnOk result (IsBacked self.new (shelf_of R.Rows store.new)) }
        ensures left { LeavesShelf (λ t. node_local_in t self.old)
            (λ t. retired_in_node occasion.now.moment (node_local_in t self.old)) ⊥ (fault_in result)
            (shelf_of R.Rows store.old) (shelf_of R.Rows store.new) }
    {
        self.site.retire(alloc, occasion.moment, store)?;
        let (due, muted) = self.site.due(alloc, occasion.moment, &mut self.cache)?;
        let mut told = self.handle_all(alloc, occasion, &due, &muted)?;
        outputs.append(&mut told)?;
        Ok(())
    }

    // Does what these timers are for, in their order, and gives what is put out.
    fn handle_all(
        &mut self,
        alloc: Global,
        occasion: &Occasion<'_>,
        due: &[Timer],
        muted: &Muted,
    ) -> Result<Vec<Output>, Fault>
        requires { IsWhole (circumstances occasion.now) self.old }
        ensures handles { IfOk result (λ told.
            HandlesAll (circumstances occasion.now) muted.now due.now self.old self.new told.items) }
        ensures fault { IfErr result (StopsHandling (circumstances occasion.now) muted.now due.now self.old) }
        ensures stays { ReadsOn self.old self.new }
        ensures refused { refused_in self.new ≡ refused_in self.old }
        ensures whole { OnOk result (IsWhole (circumstances occasion.now) self.new) }
        ensures stored { OnOk result ((t : List ℕ) →
            stored_in (local_in t self.new).held ≡ stored_in (local_in t self.old).held) }
    {
        let mut told = Vec::new(alloc);
        for timer in due {
            self.handle(alloc, occasion, timer, muted, &mut told)?;
        }
        Ok(told)
    }

    // Does what a timer of a tenant is for, and puts out what is said.
    fn handle(
        &mut self,
        alloc: Global,
        occasion: &Occasion<'_>,
        timer: &Timer,
        muted: &Muted,
        outputs: &mut Vec<Output>,
    ) -> Result<(), Fault>
        requires { IsWhole (circumstances occasion.now) self.old }
        ensures reacts { OnOk result (Reacts (circumstances occasion.now) timer.now.name.tenant
            (λ here. handled here (muted_for timer.now.name.tenant muted.now) timer.now.name.key)
            self.old self.new outputs.old.items outputs.new.items) }
        ensures fault { IfErr result (StopsReacting timer.now.name.tenant
            (handled (here_on (circumstances occasion.now) self.old timer.now.name.tenant)
            (muted_for timer.now.name.tenant muted.now) timer.now.name.key) self.old.site) }
        ensures stays { ReadsOn self.old self.new }
        ensures refused { refused_in self.new ≡ refused_in self.old }
        ensures whole { OnOk result (IsWhole (circumstances occasion.now) self.new) }
        ensures stored { OnOk result ((t : List ℕ) →
            stored_in (local_in t self.new).held ≡ stored_in (local_in t self.old).held) }
    {
        let tenant = timer.name.tenant;
        let three = self.three(occasion, &tenant);
        let here = self.here(occasion, &tenant, &three);
        let mut said = Vec::new(alloc);
        self.site
            .handle(alloc, &here, &timer.name.key, muted, &mut said)?;
        put_out(alloc, self.speaker(tenant), said, outputs)?;
        Ok(())
    }
}
