ghost use Rattle.std.specs.Prelude.{◌≡◌, ℕ, List, IfOk, OnErr, OnOk, if◌then◌else◌};
ghost use Rattle.am_tenant.specs.Names.{same};
ghost use Rattle.am_limit.specs.Allowances.{allowance_of, asked};
ghost use Rattle.am_limit.specs.Limits.{fresh, has_room, with_limit};

use crate::allowance::Allowance;
use am_tenant::TenantName;
use am_text::Moment;
use std::alloc::{AllocError, Global};
use std::collections::BTreeMap;
use std::marker::Model;

/// How many notices one instance may still send to each tenant in a minute of the clock. What one tenant uses is nothing to
/// the others.
pub struct Allowances {
    own: BTreeMap<TenantName, Allowance>,
}

// Written out, so that a crate which owns one need not prove anew how its parts are dropped.
impl Drop for Allowances {
    fn drop(self) {
        let Allowances { own } = self;
        drop(own);
    }
}

impl Model for Allowances {
    ghost use Rattle.std.specs.Prelude.{ℕ, List};
    ghost use Rattle.am_limit.specs.Limits.{Count};

    ghost Value = { List (List ℕ × Count) };

    ghost view = { λ allowances. allowances.own.entries };
}

impl Allowances {
    /// None was used by any tenant.
    pub fn new(alloc: Global) -> Allowances
        ensures { (t : List ℕ) → allowance_of t result ≡ fresh 0 }
    {
        Allowances {
            own: BTreeMap::new(alloc),
        }
    }

    /// Uses one notice of a tenant whose limit is so many a minute. `false`, and nothing is used, where the minute in which
    /// the moment lies has none left. An error, which is out of memory, uses nothing.
    pub fn take(
        &mut self,
        _alloc: Global,
        tenant: &TenantName,
        limit: u64,
        moment: Moment,
    ) -> Result<bool, AllocError>
        ensures answer { IfOk result (λ given. given ≡ has_room (with_limit (allowance_of tenant.now self.old) limit) moment) }
        ensures each { OnOk result ((t : List ℕ) → allowance_of t self.new
            ≡ (if same t tenant.now then asked limit moment (allowance_of t self.old) else allowance_of t self.old)) }
        ensures err { OnErr result ((t : List ℕ) → allowance_of t self.new ≡ allowance_of t self.old) }
    {
        let mut allowance = self.of(tenant);
        allowance.set_limit(limit);
        let is_given = allowance.take(moment);
        self.own.insert(*tenant, allowance)?;
        Ok(is_given)
    }

    /// Forgets what a tenant used: it is again as one that used nothing. What other tenants used stays. It takes no
    /// memory.
    pub fn drop_tenant(&mut self, tenant: &TenantName)
        ensures { (t : List ℕ) → allowance_of t self.new
            ≡ (if same t tenant.now then fresh 0 else allowance_of t self.old) }
    {
        self.own.remove(tenant);
    }

    /// Forgets what every tenant used. It takes no memory.
    pub fn clear(&mut self)
        ensures { (t : List ℕ) → allowance_of t self.new ≡ fresh 0 }
    {
        self.own.clear();
    }

    // What a tenant has used.
    fn of(&self, tenant: &TenantName) -> Allowance
        ensures { result ≡ allowance_of tenant.now self.now }
    {
        match self.own.get(tenant) {
            Some(allowance) => *allowance,
            None => Allowance::new(0),
        }
    }
}
