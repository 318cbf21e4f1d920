//! The positions of an instance among the replicas of all tenants.

ghost use Rattle.std.specs.Prelude.{◌≡◌, ℕ, List, OnOk, Some, if◌then◌else◌};
ghost use Rattle.am_notifier.specs.Positions.{position_of};
ghost use Rattle.am_notifier.specs.declared.position.Position.TheVariants.{First};
ghost use Rattle.am_tenant.specs.Names.{same};

use crate::position::Position;
use am_tenant::TenantName;
use std::alloc::{AllocError, Global};
use std::collections::BTreeMap;
use std::marker::Model;

/// The position of an instance among the replicas of each tenant: the first, where nothing was set.
#[derive(Drop)]
pub struct Positions {
    own: BTreeMap<TenantName, Option<Position>>,
}

impl Model for Positions {
    ghost use Rattle.std.specs.Prelude.{ℕ, List, Option};
    ghost use Rattle.am_notifier.specs.declared.position.Position.{Position};

    ghost Value = { List (List ℕ × Option Position) };

    ghost view = { λ positions. positions.own.entries };
}

impl Positions {
    /// The first, for every tenant.
    pub fn new(alloc: Global) -> Positions
        ensures { (t : List ℕ) → position_of t result ≡ Some First }
    {
        Positions {
            own: BTreeMap::new(alloc),
        }
    }

    /// The position for a tenant; none where the instance is no replica that flushes groups.
    pub fn of(&self, tenant: &TenantName) -> Option<Position>
        ensures { result ≡ position_of tenant.now self.now }
    {
        match self.own.get(tenant) {
            Some(position) => *position,
            None => Some(Position::First),
        }
    }

    /// Sets the position for a tenant.
    pub fn set(&mut self, tenant: &TenantName, position: Option<Position>) -> Result<(), AllocError>
        ensures { OnOk result ((t : List ℕ) → position_of t self.new
            ≡ (if same t tenant.now then position else position_of t self.old)) }
    {
        self.own.insert(*tenant, position)?;
        Ok(())
    }

    /// Forgets what was set for a tenant: the position is the first again. It takes no memory.
    pub fn drop_tenant(&mut self, tenant: &TenantName)
        ensures { (t : List ℕ)
            → position_of t self.new ≡ (if same t tenant.now then Some First else position_of t self.old) }
    {
        self.own.remove(tenant);
    }

    /// Forgets what was set. It takes no memory.
    pub fn clear(&mut self)
        ensures { (t : List ℕ) → position_of t self.new ≡ Some First }
    {
        self.own.clear();
    }
}
