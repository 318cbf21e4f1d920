//! Items that are accepted.

ghost use Rattle.std.specs.Prelude.{◌≡◌, ◌+◌, ◌<◌, ◌≤◌, ℕ, List, true, false, IfErr, OnOk, if◌then◌else◌};
ghost use Rattle.std.specs.Prelude.{option_map, unwrap_or};
ghost use Rattle.am_item.specs.Counts.{greatest_count};
ghost use Rattle.am_notifier.specs.Positions.{number_of};
ghost use Rattle.am_pattern.specs.Asking.{Asked};
ghost use Rattle.am_replica.specs.Storing.{fault_in};
ghost use Rattle.am_rows.specs.Rows.{has_stored};
ghost use Rattle.am_tenant.specs.Names.{same};
ghost use Rattle.am_words.specs.Places.{place_of};
ghost use Rattle.am_node.specs.Accepting.{StopsAccepting, StopsCommitting, StopsPositioning, accepted, accepted_for};
ghost use Rattle.am_node.specs.Accepting.{counted, positioned};
ghost use Rattle.am_node.specs.Held.{Makes, local_of};
ghost use Rattle.am_node.specs.Plans.{IsPlanned};
ghost use Rattle.am_node.specs.Storing.{AreStored, LeavesStore};

use crate::parts::Parts;
use am_item::{Fault, SharedItem};
use am_notifier::Position;
use am_pattern::PatternCache;
use am_replica::commit;
use am_rows::Rows;
use am_tenant::TenantName;
use am_text::{Failure, Moment};
use am_words::{Place, Places};
use std::alloc::{AllocError, Global};

impl Parts {
    /// Accepts items of a tenant at a moment: the best of each key are held, and what is planned goes by these. An
    /// alert whose label set is known keeps its groups, and the least moment at which it came; only where a newer
    /// configuration is among the items, all that is planned is planned anew.
    ///
    /// # Errors
    /// `PatternNotBuilt` where there are alerts to plan, and a pattern of the routes of the configuration that is in
    /// use then gives no answer; or out of memory.
    pub(crate) fn accept(
        &mut self,
        alloc: Global,
        tenant: &TenantName,
        moment: Moment,
        items: Vec<SharedItem>,
        cache: &mut PatternCache,
    ) -> Result<(), Fault>
        requires planned { IsPlanned (local_of tenant.now self.old) }
        ensures does { OnOk result (Makes tenant.now (accepted moment items.items) self.old self.new) }
        ensures asked { Asked result cache.old cache.new }
        ensures fault { IfErr result (StopsAccepting cache.new.refused items.items (local_of tenant.now self.old)) }
    {
        let came = self.replica.accept(alloc, tenant, items)?;
        let (_, config) = self.replica.in_use(alloc, tenant)?;
        let notifier = &mut self.notifier;
        match notifier.follow(alloc, tenant, moment, came, config, cache) {
            Ok(()) => Ok(()),
            Err(Failure::Refused(_)) => Err(Fault::PatternNotBuilt),
            Err(Failure::OutOfMemory) => Err(Fault::OutOfMemory),
        }
    }

    /// Commits items of a tenant to the store, and accepts them.
    ///
    /// # Errors
    /// Those of [`Parts::accept`]; `StoreRefused`, where one of them is stored. What was committed stays.
    pub(crate) fn commit<R: Rows>(
        &mut self,
        alloc: Global,
        tenant: &TenantName,
        moment: Moment,
        items: Vec<SharedItem>,
        cache: &mut PatternCache,
        store: &mut R,
    ) -> Result<(), Fault>
        requires planned { (t : List ℕ) → IsPlanned (local_of t self.old) }
        requires open { R.is_open store.old ≡ true }
        ensures does { OnOk result (Makes tenant.now (accepted moment items.items) self.old self.new) }
        ensures asked { Asked result cache.old cache.new }
        ensures fault { IfErr result (StopsCommitting cache.new.refused items.items (local_of tenant.now self.old)) }
        ensures clean { R.is_clean store.new ≡ true → R.is_clean store.old ≡ true }
        ensures open { OnOk result (R.is_open store.new ≡ true) }
        ensures stores { R.is_clean store.new ≡ true → AreStored self.old (R.pairs store.old)
            → OnOk result (AreStored self.new (R.pairs store.new)) }
        ensures left { R.is_clean store.new ≡ true → AreStored self.old (R.pairs store.old) → LeavesStore
            (λ t. local_of t self.old) (λ t. accepted_for tenant.now moment items.items t (local_of t self.old))
            (R.rejects tenant.now items.items) (fault_in result)
            (R.medium store.old) (R.medium store.new) (R.pairs store.new) }
        ensures untouched { has_stored items.items ≡ false → store.new ≡ store.old }
    {
        commit(alloc, store, tenant, &items)?;
        self.accept(alloc, tenant, moment, items, cache)
    }

    /// Has the groups of a tenant wait by a position from now on.
    ///
    /// # Errors
    /// `PatternNotBuilt` where there are alerts, and a pattern of the routes that are in use gives no answer; or out of
    /// memory.
    pub(crate) fn set_position(
        &mut self,
        alloc: Global,
        tenant: &TenantName,
        position: Option<Position>,
        cache: &mut PatternCache,
    ) -> Result<(), Fault>
        ensures does { OnOk result (Makes tenant.now (positioned (option_map number_of position)) self.old self.new) }
        ensures asked { Asked result cache.old cache.new }
        ensures fault { IfErr result (StopsPositioning cache.new.refused (local_of tenant.now self.old)) }
    {
        let (_, config) = self.replica.in_use(alloc, tenant)?;
        let notifier = &mut self.notifier;
        match notifier.set_position(alloc, tenant, position, config, cache) {
            Ok(()) => Ok(()),
            Err(Failure::Refused(_)) => Err(Fault::PatternNotBuilt),
            Err(Failure::OutOfMemory) => Err(Fault::OutOfMemory),
        }
    }

    /// Counts the stamps of so many more items of a tenant that the instance made; where words were drawn for them, the
    /// place of the next one is kept. The count may not pass 2^62.
    pub(crate) fn count(
        &mut self,
        alloc: Global,
        tenant: &TenantName,
        more: u64,
        drawn: Option<Place>,
    ) -> Result<(), AllocError>
        requires { 0 < more → (local_of tenant.now self.old).ledger.stamps + more ≤ greatest_count }
        ensures { OnOk result (Makes tenant.now (counted more drawn) self.old self.new) }
    {
        self.replica.count(alloc, tenant, more)?;
        keep_place(alloc, &mut self.places, tenant, drawn)
    }
}

// Keeps the place of a tenant's next word, where words were drawn.
fn keep_place(
    alloc: Global,
    places: &mut Places,
    tenant: &TenantName,
    drawn: Option<Place>,
) -> Result<(), AllocError>
    ensures { OnOk result ((t : List ℕ) → place_of t places.new ≡
        (if same t tenant.now then unwrap_or drawn (place_of t places.old) else place_of t places.old)) }
{
    match drawn {
        Some(place) => places.set(alloc, tenant, place),
        None => Ok(()),
    }
}
