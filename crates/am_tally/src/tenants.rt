//! What became of each tenant's notices.
ghost use Rattle.std.specs.Prelude.{◌≡◌};

use crate::notices::{Fate, Notices};
use am_tenant::TenantName;
use std::alloc::{AllocError, Global};
use std::collections::BTreeMap;

/// What became of each tenant's notices. A tenant of whom none was seen takes no memory.
#[derive(Drop)]
pub struct Tenants {
    seen: BTreeMap<TenantName, Notices>,
}

impl Tenants {
    /// None was seen.
    pub fn new(alloc: Global) -> Tenants {
        Tenants {
            seen: BTreeMap::new(alloc),
        }
    }

    /// One more try of a tenant's notice came to this.
    ///
    /// # Errors
    /// Out of memory: it isn't counted.
    pub fn count(&mut self, tenant: &TenantName, fate: Fate) -> Result<(), AllocError> {
        let mut notices = self.of(tenant);
        notices.count(fate);
        self.seen.insert(*tenant, notices)?;
        Ok(())
    }

    // What became of a tenant's notices.
    fn of(&self, tenant: &TenantName) -> Notices {
        match self.seen.get(tenant) {
            Some(notices) => *notices,
            None => Notices::new(),
        }
    }

    /// The tenants of whom notices were seen, in order of their names, and what became of these.
    pub fn seen(&self) -> &BTreeMap<TenantName, Notices>
        ensures { result.now ≡ self.now.seen }
    {
        &self.seen
    }
}
