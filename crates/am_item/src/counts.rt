ghost use Rattle.std.specs.Prelude.{◌≡◌, ℕ, List, [], OnErr, OnOk, if◌then◌else◌};
ghost use Rattle.am_tenant.specs.Names.{same};
ghost use Rattle.am_item.specs.Counts.{count_of};

use am_tenant::TenantName;
use std::alloc::{AllocError, Global};
use std::collections::BTreeMap;
use std::marker::Model;

/// The greatest count that a stamp may have.
pub const GREATEST_COUNT: u64 = 1 << 62;

/// How many stamp counts each tenant has used.
#[derive(Drop)]
pub struct Counts {
    used: BTreeMap<TenantName, u64>,
}

impl Model for Counts {
    ghost use Rattle.std.specs.Prelude.{ℕ, List};

    ghost Value = { List (List ℕ × ℕ) };

    ghost view = { λ counts. counts.used.entries };
}

impl Counts {
    /// No count used by any tenant.
    pub fn new(alloc: Global) -> Counts
        ensures { result ≡ [] }
    {
        Counts {
            used: BTreeMap::new(alloc),
        }
    }

    /// How many counts a tenant has used: 0 before the first.
    pub fn used(&self, tenant: &TenantName) -> u64
        ensures { result ≡ count_of tenant.now self.now }
    {
        self.used.get(tenant).copied().unwrap_or(0)
    }

    /// Sets how many counts a tenant has used. Other tenants' counts stay. An error, which is out of
    /// memory, leaves all counts as they were.
    pub fn set(&mut self, _alloc: Global, tenant: &TenantName, count: u64) -> Result<(), AllocError>
        ensures counted { OnOk result ((t : List ℕ) → count_of t self.new ≡ (if same t tenant.now then count else count_of t self.old)) }
        ensures err { OnErr result ((t : List ℕ) → count_of t self.new ≡ count_of t self.old) }
    {
        self.used.insert(*tenant, count)?;
        Ok(())
    }
}
