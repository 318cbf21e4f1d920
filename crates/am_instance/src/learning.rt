//! Another ring: an instance goes on to it.

ghost use Rattle.std.specs.Prelude.{◌≡◌, ◌+◌, ◌<◌, ℕ, List, [], true, IfErr, IfOk, OnErr, OnOk, length};
ghost use Rattle.am_replica.specs.Storing.{fault_in};
ghost use Rattle.am_ring.specs.Replicas.{replicas};
ghost use Rattle.am_rows.specs.Refusing.{Wears};
ghost use Rattle.am_instance.specs.Changing.{MayTurn, ReactsAll, StopsLearning, StopsTurning, StopsTurningAll, Turns};
ghost use Rattle.am_instance.specs.Changing.{learned, learning, rows_held, rows_learned, rows_turned, turning};
ghost use Rattle.am_instance.specs.Here.{circumstances};
ghost use Rattle.am_instance.specs.Instance.{ReadsOn, refused_in};
ghost use Rattle.am_instance.specs.Leaving.{LeavesEachShelf, only_for};
ghost use Rattle.am_instance.specs.Shelves.{IsBacked, shelf_of};
ghost use Rattle.am_instance.specs.Tenants.{AreAllNoted};
ghost use Rattle.am_instance.specs.Whole.{IsWhole};

use crate::given::Occasion;
use crate::instance::Instance;
use crate::outputs::put_out;
use am_event::Output;
use am_item::Fault;
use am_ring::Ring;
use am_rows::Rows;
use am_tenant::TenantName;
use std::alloc::Global;

impl Instance {
    /// Goes on to the next ring on an occasion: from then on it goes by that for all tenants, and puts out what it says
    /// of them for that, one tenant after the other. Where it stops being a replica of one, all that it has of that
    /// tenant goes, and the rows with that; its counts and the place in the words stay. An error puts nothing out.
    ///
    /// # Errors
    /// `CountsExhausted` where a count of a tenant here would pass 2^62 or a message is too long; `PatternNotBuilt`
    /// where groups are to wait by another position, and a pattern of the routes that are in use gave no answer;
    /// `StoreRefused` where it stops being a replica of a tenant; or out of memory. The rows of each tenant are as
    /// before, or gone where it stops being a replica of that.
    pub fn learn<R: Rows>(
        &mut self,
        alloc: Global,
        occasion: &Occasion<'_>,
        outputs: &mut Vec<Output>,
        store: &mut R,
    ) -> Result<(), Fault>
        requires up { self.old.up ≡ true }
        requires next { self.old.known + 1 < length occasion.now.rings.now }
        requires whole { IsWhole (circumstances occasion.now) self.old }
        requires backed { IsBacked self.old (shelf_of R.Rows store.old) }
        ensures reacts { OnOk result (ReactsAll (circumstances occasion.now)
            (learning (circumstances occasion.now) self.old) (learned self.old) self.new
            outputs.old.items outputs.new.items) }
        ensures silent { OnErr result (outputs.new.items ≡ outputs.old.items) }
        ensures cause { IfErr result (StopsLearning (circumstances occasion.now) self.old (refused_in self.new)) }
        ensures stays { ReadsOn (learned self.old) self.new }
        ensures whole { OnOk result (IsWhole (circumstances occasion.now) self.new) }
        ensures clean { R.is_clean store.new ≡ true → R.is_clean store.old ≡ true }
        ensures backed { OnOk result (IsBacked self.new (shelf_of R.Rows store.new)) }
        ensures left { LeavesEachShelf (rows_held self.old) (rows_learned (circumstances occasion.now) self.old)
            (fault_in result) (shelf_of R.Rows store.old) (shelf_of R.Rows store.new) }
    {
        let before = &occasion.rings[self.known as usize];
        self.known += 1;
        self.turn_all(alloc, occasion, before, outputs, store)
    }

    // Goes by the ring that it knows for all tenants, where it went by another one before, and puts out what it says.
    fn turn_all<R: Rows>(
        &mut self,
        alloc: Global,
        occasion: &Occasion<'_>,
        before: &Ring,
        outputs: &mut Vec<Output>,
        store: &mut R,
    ) -> Result<(), Fault>
        requires up { self.old.up ≡ true }
        requires may { MayTurn (circumstances occasion.now) before.now.instances self.old }
        requires backed { IsBacked self.old (shelf_of R.Rows store.old) }
        ensures reacts { OnOk result (ReactsAll (circumstances occasion.now) (turning before.now.instances)
            self.old self.new outputs.old.items outputs.new.items) }
        ensures silent { OnErr result (outputs.new.items ≡ outputs.old.items) }
        ensures cause { IfErr result
            (StopsTurningAll (circumstances occasion.now) self.old before.now.instances (refused_in self.new)) }
        ensures stays { ReadsOn self.old self.new }
        ensures whole { OnOk result (IsWhole (circumstances occasion.now) self.new) }
        ensures clean { R.is_clean store.new ≡ true → R.is_clean store.old ≡ true }
        ensures backed { OnOk result (IsBacked self.new (shelf_of R.Rows store.new)) }
        ensures left { LeavesEachShelf (rows_held self.old)
            (rows_turned (circumstances occasion.now) before.now.instances self.old)
            (fault_in result) (shelf_of R.Rows store.old) (shelf_of R.Rows store.new) }
    {
        let names = self.tenants.list(alloc)?;
        let mut told = self.turn_each(alloc, occasion, before, &names, store)?;
        outputs.append(&mut told)?;
        Ok(())
    }

    // .. for each of these, who are all that are noted, and gives what is put out.
    fn turn_each<R: Rows>(
        &mut self,
        alloc: Global,
        occasion: &Occasion<'_>,
        before: &Ring,
        names: &[TenantName],
        store: &mut R,
    ) -> Result<Vec<Output>, Fault>
        requires up { self.old.up ≡ true }
        requires may { MayTurn (circumstances occasion.now) before.now.instances self.old }
        requires names { AreAllNoted names.now self.old }
        requires backed { IsBacked self.old (shelf_of R.Rows store.old) }
        ensures reacts { IfOk result (λ told. ReactsAll (circumstances occasion.now) (turning before.now.instances)
            self.old self.new [] told.items) }
        ensures cause { IfErr result
            (StopsTurningAll (circumstances occasion.now) self.old before.now.instances (refused_in self.new)) }
        ensures stays { ReadsOn self.old self.new }
        ensures whole { OnOk result (IsWhole (circumstances occasion.now) self.new) }
        ensures clean { R.is_clean store.new ≡ true → R.is_clean store.old ≡ true }
        ensures backed { OnOk result (IsBacked self.new (shelf_of R.Rows store.new)) }
        ensures left { LeavesEachShelf (rows_held self.old)
            (rows_turned (circumstances occasion.now) before.now.instances self.old)
            (fault_in result) (shelf_of R.Rows store.old) (shelf_of R.Rows store.new) }
    {
        let mut told = Vec::new(alloc);
        for tenant in names {
            self.turn(alloc, occasion, before, tenant, &mut told, store)?;
        }
        Ok(told)
    }

    // .. for one tenant.
    fn turn<R: Rows>(
        &mut self,
        alloc: Global,
        occasion: &Occasion<'_>,
        before: &Ring,
        tenant: &TenantName,
        outputs: &mut Vec<Output>,
        store: &mut R,
    ) -> Result<(), Fault>
        requires up { self.old.up ≡ true }
        requires known { self.old.known < length occasion.now.rings.now }
        requires backed { IsBacked self.old (shelf_of R.Rows store.old) }
        ensures turns { OnOk result (Turns (circumstances occasion.now) before.now.instances tenant.now
            self.old self.new outputs.old.items outputs.new.items) }
        ensures cause { IfErr result (StopsTurning (circumstances occasion.now) self.old
            (replicas tenant.now before.now.instances) tenant.now (refused_in self.new)) }
        ensures stays { ReadsOn self.old self.new }
        ensures clean { R.is_clean store.new ≡ true → R.is_clean store.old ≡ true }
        ensures backed { OnOk result (IsBacked self.new (shelf_of R.Rows store.new)) }
        ensures left { LeavesEachShelf (rows_held self.old)
            (only_for tenant.now (rows_turned (circumstances occasion.now) before.now.instances self.old)
            (rows_held self.old)) (fault_in result) (shelf_of R.Rows store.old) (shelf_of R.Rows store.new) }
        ensures wears { R.is_clean store.new ≡ true → Wears (R.medium store.old) (R.medium store.new) }
    {
        let three = self.three(occasion, tenant);
        let here = self.here(occasion, tenant, &three);
        let earlier = before.replicas(tenant);
        let mut said = Vec::new(alloc);
        let cache = &mut self.cache;
        self.site
            .learn(alloc, &here, &earlier, cache, store, &mut said)?;
        put_out(alloc, self.speaker(*tenant), said, outputs)?;
        Ok(())
    }
}
