//! What an instance begins with: the rows that its store kept.

ghost use Rattle.std.specs.Prelude.{◌≡◌, ℕ, List, IfErr, IfOk, OnOk, false, true, if◌then◌else◌};
ghost use Rattle.std.specs.Cmp.Lexicographic.{slice_cmp};
ghost use Rattle.std.specs.List.{list_any};
ghost use Rattle.std.specs.List.Sorted.{IsStrictlySortedBy};
ghost use Rattle.std.specs.Ordering.{nat_cmp};
ghost use Rattle.am_pattern.specs.Asking.{Asked};
ghost use Rattle.am_rows.specs.Refusing.{IsCaused, MayRefuse, Wears};
ghost use Rattle.am_rows.specs.Rows.{Keeps, rows_of, stored_in};
ghost use Rattle.am_tenant.specs.Names.{same};
ghost use Rattle.am_node.specs.Accepting.{accepted};
ghost use Rattle.am_node.specs.Held.{Makes, local_of};
ghost use Rattle.am_node.specs.Holding.{BeginsWith};
ghost use Rattle.am_node.specs.Local.{blank};

use crate::parts::Parts;
use am_item::{Fault, SharedItem};
use am_pattern::PatternCache;
use am_rows::{Rows, StoreRefusal};
use am_tenant::TenantName;
use am_text::{Failure, Moment};
use std::alloc::Global;

impl Parts {
    /// Accepts at a moment what a store that is open has of all tenants, where nothing is had of any. Gives the tenants
    /// of whom it has something then.
    ///
    /// # Errors
    /// `F2` of the store, or out of memory.
    pub(crate) fn hold_open<R: Rows>(
        &mut self,
        alloc: Global,
        moment: Moment,
        cache: &mut PatternCache,
        store: &mut R,
    ) -> Result<Vec<TenantName>, Failure<StoreRefusal>>
        requires blank { (t : List ℕ) → local_of t self.old ≡ blank }
        requires open { R.is_open store.old ≡ true }
        ensures clean { R.is_clean store.new ≡ true → R.is_clean store.old ≡ true }
        ensures open { OnOk result (R.is_open store.new ≡ true) }
        ensures planned { IfOk result (λ names. BeginsWith names.items self.new) }
        ensures asked { Asked result cache.old cache.new }
        ensures keeps { R.is_clean store.new ≡ true → OnOk result (Keeps (R.pairs store.old) (R.pairs store.new)) }
        ensures left { R.is_clean store.new ≡ true → (R.medium store.new).is_shut ≡ false
            → Keeps (R.pairs store.old) (R.pairs store.new) }
        ensures held { R.is_clean store.new ≡ true → OnOk result ((t : List ℕ) →
            local_of t self.new ≡ accepted moment (rows_of t (R.pairs store.old)) blank) }
        ensures fails { R.is_clean store.new ≡ true
            → IfErr result (IsCaused (MayRefuse (R.medium store.old) (R.medium store.new))) }
        ensures wears { R.is_clean store.new ≡ true → Wears (R.medium store.old) (R.medium store.new) }
    {
        let names = store.tenants(alloc)?;
        self.hold_each(alloc, &names, moment, cache, store)?;
        Ok(names)
    }

    // Accepts what a store has of these tenants.
    fn hold_each<R: Rows>(
        &mut self,
        alloc: Global,
        names: &[TenantName],
        moment: Moment,
        cache: &mut PatternCache,
        store: &mut R,
    ) -> Result<(), Failure<StoreRefusal>>
        requires blank { (t : List ℕ) → local_of t self.old ≡ blank }
        requires open { R.is_open store.old ≡ true }
        requires order { IsStrictlySortedBy (slice_cmp nat_cmp) names.now }
        ensures clean { R.is_clean store.new ≡ true → R.is_clean store.old ≡ true }
        ensures open { OnOk result (R.is_open store.new ≡ true) }
        ensures planned { OnOk result (BeginsWith names.now self.new) }
        ensures asked { Asked result cache.old cache.new }
        ensures keeps { R.is_clean store.new ≡ true → OnOk result (Keeps (R.pairs store.old) (R.pairs store.new)) }
        ensures left { R.is_clean store.new ≡ true → (R.medium store.new).is_shut ≡ false
            → Keeps (R.pairs store.old) (R.pairs store.new) }
        ensures held { R.is_clean store.new ≡ true → OnOk result ((t : List ℕ) → local_of t self.new ≡
            (if list_any (same t) names.now then accepted moment (rows_of t (R.pairs store.old)) blank else blank)) }
        ensures fails { R.is_clean store.new ≡ true
            → IfErr result (IsCaused (MayRefuse (R.medium store.old) (R.medium store.new))) }
        ensures wears { R.is_clean store.new ≡ true → Wears (R.medium store.old) (R.medium store.new) }
    {
        for tenant in names {
            let rows = store.rows_of(alloc, tenant)?;
            self.hold_rows(alloc, tenant, moment, rows, cache)?;
        }
        Ok(())
    }

    // Accepts the rows of a tenant of which nothing is had: without alerts there is nothing to plan, and no pattern is
    // asked.
    fn hold_rows(
        &mut self,
        alloc: Global,
        tenant: &TenantName,
        moment: Moment,
        rows: Vec<SharedItem>,
        cache: &mut PatternCache,
    ) -> Result<(), Failure<StoreRefusal>>
        requires blank { local_of tenant.now self.old ≡ blank }
        requires stored { stored_in rows.items ≡ rows.items }
        ensures does { OnOk result (Makes tenant.now (accepted moment rows.items) self.old self.new) }
        ensures asked { Asked result cache.old cache.new }
        ensures memory { IfErr result (λ failure. failure ≡ Failure.OutOfMemory) }
    {
        match self.accept(alloc, tenant, moment, rows, cache) {
            Ok(()) => Ok(()),
            Err(fault) => Err(of_memory(fault)),
        }
    }
}

// A fault that is out of memory.
fn of_memory(fault: Fault) -> Failure<StoreRefusal>
    requires { fault ≡ Fault.OutOfMemory }
    ensures { result ≡ Failure.OutOfMemory }
{
    match fault {
        Fault::OutOfMemory => Failure::OutOfMemory,
        Fault::CountsExhausted | Fault::PatternNotBuilt | Fault::StoreRefused => unreachable!(),
    }
}
