//! The tenants of whom an instance may have something.

ghost use Rattle.std.specs.Prelude.{◌≡◌, ℕ, List, [], false, IfOk, OnOk};
ghost use Rattle.std.specs.Cmp.Lexicographic.{slice_cmp};
ghost use Rattle.std.specs.List.Sorted.{IsStrictlySortedBy};
ghost use Rattle.std.specs.Ordering.{nat_cmp};
ghost use Rattle.am_instance.specs.Tenants.{Notes, NotesAll};

use am_tenant::TenantName;
use std::alloc::{AllocError, Global};
use std::collections::BTreeSet;
use std::marker::Model;

/// The tenants of whom an instance may have something.
pub(crate) struct Tenants {
    names: BTreeSet<TenantName>,
}

// Written out, so that a crate which owns one need not prove anew how its parts are dropped.
impl Drop for Tenants {
    fn drop(self) {
        let Tenants { names } = self;
        drop(names);
    }
}

impl Model for Tenants {
    ghost use Rattle.std.specs.Prelude.{ℕ, List};
    ghost use Rattle.std.specs.Cmp.Lexicographic.{slice_cmp};
    ghost use Rattle.std.specs.List.Sorted.{IsStrictlySortedBy};
    ghost use Rattle.std.specs.Ordering.{nat_cmp};

    ghost Value = { List (List ℕ) };

    ghost view = { λ tenants. tenants.names.keys };

    ghost invariant = { λ tenants. IsStrictlySortedBy (slice_cmp nat_cmp) tenants.names.keys };
}

impl Tenants {
    /// No tenant.
    pub(crate) fn new(alloc: Global) -> Tenants
        ensures { result ≡ [] }
    {
        Tenants {
            names: BTreeSet::new(alloc),
        }
    }

    /// Notes one more.
    ///
    /// An error is out of memory.
    pub(crate) fn note(&mut self, tenant: TenantName) -> Result<(), AllocError>
        ensures { OnOk result (Notes tenant self.old self.new) }
    {
        self.names.insert(tenant)?;
        Ok(())
    }

    /// Notes all of these.
    ///
    /// An error is out of memory.
    pub(crate) fn note_all(&mut self, tenants: &[TenantName]) -> Result<(), AllocError>
        ensures { OnOk result (NotesAll tenants.now self.old self.new) }
    {
        for tenant in tenants {
            self.note(*tenant)?;
        }
        Ok(())
    }

    /// The names, in order.
    ///
    /// An error is out of memory.
    pub(crate) fn list(&self, alloc: Global) -> Result<Vec<TenantName>, AllocError>
        ensures names { IfOk result (λ names. names.items ≡ self.now) }
        ensures order { IsStrictlySortedBy (slice_cmp nat_cmp) self.now }
    {
        let mut names = Vec::with_capacity(alloc, self.names.len())?;
        for tenant in &self.names {
            names.push(*tenant)?;
        }
        Ok(names)
    }

    /// Forgets all. It takes no memory.
    pub(crate) fn clear(&mut self)
        ensures { self.new ≡ [] }
    {
        self.names.clear();
    }
}
