//! The paces of all tenants' routes.

ghost use Rattle.std.specs.Prelude.{◌≡◌, ℕ, List, IfOk, OnErr, OnOk, if◌then◌else◌};
ghost use Rattle.am_tenant.specs.Names.{same};
ghost use Rattle.am_planning.specs.Planning.{default_paces};
ghost use Rattle.am_agenda.specs.Paces.{paces_of};

use am_planning::{Pace, default_paces};
use am_tenant::TenantName;
use am_text::Listed;
use std::alloc::{AllocError, Global};
use std::collections::BTreeMap;
use std::marker::Model;

/// The paces of each tenant's routes, by the number of the route.
#[derive(Drop)]
pub struct Paces {
    own: BTreeMap<TenantName, Listed<Pace>>,
    // those of a tenant for whom none were set
    otherwise: Listed<Pace>,
}

impl Model for Paces {
    ghost use Rattle.std.specs.Prelude.{◌≡◌, ℕ, List};
    ghost use Rattle.am_planning.specs.declared.pace.Pace.{Pace};
    ghost use Rattle.am_planning.specs.Planning.{default_paces};

    ghost Value = { List (List ℕ × List Pace) };

    ghost view = { λ paces. paces.own.entries };

    ghost invariant = { λ paces. paces.otherwise ≡ default_paces };
}

impl Paces {
    /// For every tenant the paces that hold without a configuration.
    ///
    /// An error is out of memory.
    pub fn new(alloc: Global) -> Result<Paces, AllocError>
        ensures { IfOk result (λ paces. (t : List ℕ) → paces_of t paces ≡ default_paces) }
    {
        Ok(Paces {
            own: BTreeMap::new(alloc),
            otherwise: default_paces(alloc)?,
        })
    }

    /// The paces of a tenant's routes.
    pub fn of(&self, tenant: &TenantName) -> &[Pace]
        ensures { result.now ≡ paces_of tenant.now self.now }
    {
        match self.own.get(tenant) {
            Some(paces) => paces.as_slice(),
            None => self.otherwise.as_slice(),
        }
    }

    /// Sets the paces of a tenant's routes. An error, which is out of memory, changes nothing.
    pub fn set(&mut self, tenant: &TenantName, paces: Listed<Pace>) -> Result<(), AllocError>
        ensures set { OnOk result ((t : List ℕ) → paces_of t self.new
            ≡ (if same t tenant.now then paces else paces_of t self.old)) }
        ensures err { OnErr result ((t : List ℕ) → paces_of t self.new ≡ paces_of t self.old) }
    {
        self.own.insert(*tenant, paces)?;
        Ok(())
    }

    /// Forgets the paces that were set of a tenant's routes. It takes no memory.
    pub fn drop_tenant(&mut self, tenant: &TenantName)
        ensures { (t : List ℕ)
            → paces_of t self.new ≡ (if same t tenant.now then default_paces else paces_of t self.old) }
    {
        self.own.remove(tenant);
    }

    /// Forgets what was set. It takes no memory.
    pub fn clear(&mut self)
        ensures { (t : List ℕ) → paces_of t self.new ≡ default_paces }
    {
        self.own.clear();
    }
}
