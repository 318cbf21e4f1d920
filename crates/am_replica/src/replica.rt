//! What an instance holds of all tenants.

ghost use Rattle.std.specs.Prelude.{◌≡◌, ℕ, List, IfOk};
ghost use Rattle.std.specs.Borrow.{sem};
ghost use Rattle.std.specs.Io.BufRead.{Rests};
ghost use Rattle.am_current.specs.Current.{configuration_in};
ghost use Rattle.am_item.specs.Best.{IsRising};
ghost use Rattle.am_replica.specs.Holds.{Makes, dropped, holds_of, nothing};

use am_config::Config;
use am_current::Holdings;
use am_item::{Counts, Held};
use am_tenant::TenantName;
use std::alloc::{AllocError, Global};

/// The items that are held of all tenants, the configurations in use, and how many stamps were counted. A call for one
/// tenant leaves what is held of the others as it was; after an error it is of use only to be cleared.
pub struct Replica {
    pub(crate) holdings: Holdings,
    pub(crate) counts: Counts,
}

// Written out, so that a crate which owns a replica has no need to prove anew how each of its parts is dropped.
impl Drop for Replica {
    fn drop(self) {
        let Replica { holdings, counts } = self;
        drop(holdings);
        drop(counts);
    }
}

impl Replica {
    ghost use Rattle.am_replica.specs.contracts.replica.Replica.{the_row};

    /// Nothing held of any tenant.
    ///
    /// An error is out of memory.
    #[tactic(auto, unfolding(crate::specs::Holds::holds_of, am_book::specs::Book::items_of, am_item::specs::Counts::count_of))]
    pub fn new(alloc: Global) -> Result<Replica, AllocError>
        ensures { IfOk result (λ replica. (t : List ℕ) → holds_of t replica ≡ nothing) }
    {
        Ok(Replica {
            holdings: Holdings::new(alloc)?,
            counts: Counts::new(alloc),
        })
    }

    /// Forgets all that is held of all tenants, as a crash does. It takes no memory.
    #[tactic(auto, unfolding(crate::specs::Holds::holds_of, am_book::specs::Book::items_of, am_item::specs::Counts::count_of))]
    pub fn clear(&mut self, alloc: Global)
        ensures { (t : List ℕ) → holds_of t self.new ≡ nothing }
    {
        self.holdings.clear();
        self.counts = Counts::new(alloc);
    }

    /// Forgets all that is held of a tenant, but how many of its stamps were counted, so that no stamp is given twice.
    /// What is held of other tenants stays. It takes no memory.
    #[tactic(auto, unfolding(crate::specs::Holds::holds_of))]
    pub fn drop_tenant(&mut self, tenant: &TenantName)
        ensures { Makes tenant.now dropped self.old self.new }
    {
        self.holdings.drop_tenant(tenant);
    }

    /// How many stamps of a tenant were counted.
    #[tactic(auto, unfolding(crate::specs::Holds::holds_of))]
    pub fn stamps(&self, tenant: &TenantName) -> u64
        ensures { result ≡ (holds_of tenant.now self.now).stamps }
    {
        self.counts.used(tenant)
    }

    /// What is held of a tenant, in the order of keys.
    #[tactic(auto, unfolding(crate::specs::Holds::holds_of))]
    pub fn held(&self, tenant: &TenantName) -> &Held
        ensures held { result.now ≡ (holds_of tenant.now self.now).held }
        ensures rising { IsRising result.now }
    {
        self.holdings.held(tenant)
    }

    /// What is held of a tenant, and the configuration in use for it.
    ///
    /// An error is out of memory; nothing changes then.
    #[tactic(auto, unfolding(crate::specs::Holds::holds_of))]
    pub fn in_use(
        &mut self,
        alloc: Global,
        tenant: &TenantName,
    ) -> Result<(&Held, &Config), AllocError>
        ensures* stays { sem 𝓛 (Rests the_row self.entry (λ new. new ≡ self.old)) }
        ensures held { IfOk result (λ used. used.0.now ≡ (holds_of tenant.now self.old).held) }
        ensures rising { IfOk result (λ used. IsRising used.0.now) }
        ensures configuration { IfOk result (λ used. used.1.now
            ≡ configuration_in (holds_of tenant.now self.old).held) }
    {
        self.holdings.in_use(alloc, tenant)
    }
}
