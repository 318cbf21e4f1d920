//! What an instance begins with: the rows that its store kept of the tenants of which it is a replica.

ghost use Rattle.std.specs.Prelude.{◌≡◌, ℕ, List, IfErr, IfOk, OnErr, OnOk, false, true};
ghost use Rattle.am_cluster.specs.Local.{blank};
ghost use Rattle.am_node.specs.Storing.{AreStored};
ghost use Rattle.am_pattern.specs.Asking.{Asked};
ghost use Rattle.am_rows.specs.Refusing.{IsCaused, IsJudged, MayRefuse, Wears};
ghost use Rattle.am_rows.specs.Rows.{Keeps as KeepsRows, Makes as MakesRows};
ghost use Rattle.am_site.specs.Locals.{local_of};
ghost use Rattle.am_site.specs.Opening.{AreOpened, BeginsWith, KeepsOwn, KeepsOwnAmong, KeepsRest, MayKeepOwn};
ghost use Rattle.am_site.specs.Opening.{own_rows};

use crate::site::Site;
use am_pattern::PatternCache;
use am_ring::{Instance, Ring};
use am_rows::{Rows, StoreRefusal};
use am_tenant::TenantName;
use am_text::{Failure, Moment};
use std::alloc::Global;

impl Site {
    /// Opens a store, and accepts at a moment what it has of the tenants of which the instance is a replica in a ring,
    /// where nothing is had of any. What it has of other tenants is dropped from it. No alert is held then, whatever
    /// the disk returned. Gives the tenants of whom it has something then.
    ///
    /// # Errors
    /// `F2` where a call of the database was refused, `F3` where it is no store, or out of memory. What it has of other
    /// tenants may be dropped then, and all else stays, unless a failure shut the store.
    pub fn open<R: Rows>(
        &mut self,
        alloc: Global,
        ring: &Ring,
        instance: Instance,
        moment: Moment,
        cache: &mut PatternCache,
        store: &mut R,
    ) -> Result<Vec<TenantName>, Failure<StoreRefusal>>
        requires { (t : List ℕ) → local_of t self.old ≡ blank }
        ensures opened { R.is_clean store.new ≡ true → OnOk result
            (AreOpened ring.now.instances instance moment (R.pairs store.old) self.new) }
        ensures begins { IfOk result (λ names. BeginsWith names.items self.new) }
        ensures rest { KeepsRest self.old self.new }
        ensures asked { Asked result cache.old cache.new }
        ensures clean { R.is_clean store.new ≡ true → R.is_clean store.old ≡ true }
        ensures open { OnOk result (R.is_open store.new ≡ true) }
        ensures stores { R.is_clean store.new ≡ true → OnOk result (AreStored self.new.node (R.pairs store.new)) }
        ensures kept { R.is_clean store.new ≡ true → OnOk result
            (KeepsOwn ring.now.instances instance (R.pairs store.old) (R.pairs store.new)) }
        ensures left { R.is_clean store.new ≡ true → (R.medium store.new).is_shut ≡ false
            → MayKeepOwn ring.now.instances instance (R.pairs store.old) (R.pairs store.new) }
        ensures fails { R.is_clean store.new ≡ true
            → IfErr result (IsJudged (R.is_foreign store.old) (MayRefuse (R.medium store.old) (R.medium store.new))) }
    {
        store.open(alloc)?;
        keep_own(alloc, ring, instance, store)?;
        // A node without anything of any tenant may still have its groups wait by another position.
        self.node.clear(alloc);
        self.node.hold_open(alloc, moment, cache, store)
    }
}

// Drops from a store what it has of tenants of which the instance is no replica.
fn keep_own<R: Rows>(
    alloc: Global,
    ring: &Ring,
    instance: Instance,
    store: &mut R,
) -> Result<(), Failure<StoreRefusal>>
    requires { R.is_open store.old ≡ true }
    ensures clean { R.is_clean store.new ≡ true → R.is_clean store.old ≡ true }
    ensures open { OnOk result (R.is_open store.new ≡ true) }
    ensures kept { R.is_clean store.new ≡ true → OnOk result
        (KeepsOwn ring.now.instances instance (R.pairs store.old) (R.pairs store.new)) }
    ensures left { R.is_clean store.new ≡ true → (R.medium store.new).is_shut ≡ false
        → MayKeepOwn ring.now.instances instance (R.pairs store.old) (R.pairs store.new) }
    ensures fails { R.is_clean store.new ≡ true
        → IfErr result (IsCaused (MayRefuse (R.medium store.old) (R.medium store.new))) }
    ensures wears { R.is_clean store.new ≡ true → Wears (R.medium store.old) (R.medium store.new) }
{
    let names = store.tenants(alloc)?;
    keep_own_among(&names, ring, instance, store)
}

// .. as far as these tenants go.
fn keep_own_among<R: Rows>(
    names: &[TenantName],
    ring: &Ring,
    instance: Instance,
    store: &mut R,
) -> Result<(), Failure<StoreRefusal>>
    requires { R.is_open store.old ≡ true }
    ensures clean { R.is_clean store.new ≡ true → R.is_clean store.old ≡ true }
    ensures open { OnOk result (R.is_open store.new ≡ true) }
    ensures kept { R.is_clean store.new ≡ true → OnOk result
        (KeepsOwnAmong names.now ring.now.instances instance (R.pairs store.old) (R.pairs store.new)) }
    ensures left { R.is_clean store.new ≡ true → (R.medium store.new).is_shut ≡ false
        → MayKeepOwn ring.now.instances instance (R.pairs store.old) (R.pairs store.new) }
    ensures fails { R.is_clean store.new ≡ true
        → IfErr result (IsCaused (MayRefuse (R.medium store.old) (R.medium store.new))) }
    ensures wears { R.is_clean store.new ≡ true → Wears (R.medium store.old) (R.medium store.new) }
{
    for tenant in names {
        keep_if_own(tenant, ring, instance, store)?;
    }
    Ok(())
}

// .. of one tenant.
fn keep_if_own<R: Rows>(
    tenant: &TenantName,
    ring: &Ring,
    instance: Instance,
    store: &mut R,
) -> Result<(), Failure<StoreRefusal>>
    requires { R.is_open store.old ≡ true }
    ensures clean { R.is_clean store.new ≡ true → R.is_clean store.old ≡ true }
    ensures open { OnOk result (R.is_open store.new ≡ true) }
    ensures kept { R.is_clean store.new ≡ true → OnOk result (MakesRows tenant.now
        (own_rows ring.now.instances instance tenant.now) (R.pairs store.old) (R.pairs store.new)) }
    ensures err { R.is_clean store.new ≡ true → (R.medium store.new).is_shut ≡ false
        → OnErr result (KeepsRows (R.pairs store.old) (R.pairs store.new)) }
    ensures fails { R.is_clean store.new ≡ true
        → IfErr result (IsCaused (MayRefuse (R.medium store.old) (R.medium store.new))) }
    ensures wears { R.is_clean store.new ≡ true → Wears (R.medium store.old) (R.medium store.new) }
{
    if ring.position(tenant, instance).is_some() {
        return Ok(());
    }
    store.drop_tenant(tenant)
}
