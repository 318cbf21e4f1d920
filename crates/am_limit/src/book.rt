ghost use Rattle.std.specs.Prelude.{◌≡◌, ℕ, List, OnErr, OnOk, if◌then◌else◌};
ghost use Rattle.am_tenant.specs.Names.{same};
ghost use Rattle.am_limit.specs.Books.{limits_of, unset_book};

use crate::limits::Limits;
use am_tenant::TenantName;
use std::alloc::{AllocError, Global};
use std::collections::BTreeMap;
use std::marker::Model;

/// The limits of all tenants: those that were set last, and the usual ones of a tenant for which none were.
pub struct LimitBook {
    usual: Limits,
    own: BTreeMap<TenantName, Limits>,
}

// Written out, so that a crate which owns one need not prove anew how its parts are dropped.
impl Drop for LimitBook {
    fn drop(self) {
        let LimitBook { usual: _usual, own } = self;
        drop(own);
    }
}

impl Model for LimitBook {
    ghost use Rattle.am_limit.specs.Books.{Book};

    ghost Value = { Book };

    ghost view = { λ book. record { usual = book.usual; own = book.own.entries } };
}

impl LimitBook {
    /// No limits set: each tenant has the usual ones.
    pub fn new(alloc: Global, usual: Limits) -> LimitBook
        ensures { result ≡ unset_book usual }
    {
        LimitBook {
            usual,
            own: BTreeMap::new(alloc),
        }
    }

    /// The limits of a tenant. No memory is taken.
    pub fn of(&self, tenant: &TenantName) -> Limits
        ensures { result ≡ limits_of tenant.now self.now }
    {
        self.own.get(tenant).copied().unwrap_or(self.usual)
    }

    /// Sets the limits of a tenant. Other tenants' limits stay. An error, which is out of memory, leaves all limits as
    /// they were.
    pub fn set(
        &mut self,
        _alloc: Global,
        tenant: &TenantName,
        limits: Limits,
    ) -> Result<(), AllocError>
        ensures set { OnOk result ((t : List ℕ) → limits_of t self.new ≡ (if same t tenant.now then limits else limits_of t self.old)) }
        ensures err { OnErr result ((t : List ℕ) → limits_of t self.new ≡ limits_of t self.old) }
    {
        self.own.insert(*tenant, limits)?;
        Ok(())
    }
}
