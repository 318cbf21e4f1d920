//! Of each tenant something is told at most once a second.

ghost use Rattle.std.specs.Prelude.{◌≡◌, ℕ, List, None, OnErr, OnOk, IfOk, Some, if◌then◌else◌};
ghost use Rattle.am_tenant.specs.Names.{same};
ghost use Rattle.am_log.specs.Throttling.{after_one, is_over, is_past, once_forgotten, recent_of, told_at};

use am_tenant::TenantName;
use std::alloc::{AllocError, Global};
use std::collections::BTreeMap;
use std::marker::Model;

/// How long nothing more is told of what was told, in milliseconds.
pub(crate) const PAUSE: u64 = 1_000;

/// When something was last told of a tenant, and how much was left out since.
#[derive(Clone, Copy)]
pub struct Recent {
    // In milliseconds since 1970.
    told: u64,
    left_out: u64,
}

/// Of whom something was told lately. Of each tenant something is told at most once a second; what comes meanwhile is
/// counted ([`laws`](crate::laws)). What comes of one tenant is nothing to the others.
#[derive(Drop)]
pub struct Throttle {
    recent: BTreeMap<TenantName, Recent>,
}

impl Model for Throttle {
    ghost use Rattle.std.specs.Prelude.{ℕ, List};
    ghost use Rattle.am_log.specs.declared.throttle.Recent.{Recent};

    ghost Value = { List (List ℕ × Recent) };

    ghost view = { λ throttle. throttle.recent.entries };
}

impl Throttle {
    /// Nothing was told of anybody.
    pub fn new(alloc: Global) -> Throttle
        ensures { (t : List ℕ) → recent_of t result ≡ None }
    {
        Throttle {
            recent: BTreeMap::new(alloc),
        }
    }

    /// Something came of a tenant at a moment, in milliseconds since 1970. It is to be told where nothing was told of
    /// the tenant within the second before, and else left out. Where it is to be told: how many were left out since
    /// something last was.
    ///
    /// # Errors
    /// Out of memory: all stays as it was.
    pub fn note(&mut self, tenant: &TenantName, moment: u64) -> Result<Option<u64>, AllocError>
        ensures told { IfOk result (λ told. told ≡ told_at moment (recent_of tenant.now self.old)) }
        ensures each { OnOk result ((t : List ℕ) → recent_of t self.new
            ≡ (if same t tenant.now then Some (after_one moment (recent_of t self.old)) else recent_of t self.old)) }
        ensures err { OnErr result ((t : List ℕ) → recent_of t self.new ≡ recent_of t self.old) }
    {
        let recent = self.of(tenant);
        self.recent.insert(*tenant, after_one(recent, moment))?;
        Ok(told_at(recent, moment))
    }

    /// Forgets those of whom nothing was told within the second before a moment, in milliseconds since 1970, and
    /// nothing left out since: they are then as those of whom nothing was ever told. It takes no memory.
    pub fn forget(&mut self, moment: u64)
        ensures { (t : List ℕ) → recent_of t self.new
            ≡ once_forgotten moment (recent_of t self.old) }
    {
        self.recent.retain(|_, recent| !is_over(*recent, moment));
    }

    // What is kept of a tenant.
    fn of(&self, tenant: &TenantName) -> Option<Recent>
        ensures { result ≡ recent_of tenant.now self.now }
    {
        self.recent.get(tenant).copied()
    }
}

// How many were left out, where one more is to be told.
fn told_at(recent: Option<Recent>, moment: u64) -> Option<u64>
    ensures { result ≡ told_at moment recent }
{
    match recent {
        None => Some(0),
        Some(recent) if is_past(recent, moment) => Some(recent.left_out),
        Some(_) => None,
    }
}

// What is kept once one more came.
fn after_one(recent: Option<Recent>, moment: u64) -> Recent
    ensures { result ≡ after_one moment recent }
{
    match recent {
        Some(recent) if !is_past(recent, moment) => Recent {
            told: recent.told,
            left_out: recent.left_out.saturating_add(1),
        },
        _ => Recent {
            told: moment,
            left_out: 0,
        },
    }
}

// Whether a second has passed since something was last told.
fn is_past(recent: Recent, moment: u64) -> bool
    ensures { result ≡ is_past moment recent }
{
    moment.saturating_sub(recent.told) >= PAUSE
}

// Whether it makes no difference that something was told.
fn is_over(recent: Recent, moment: u64) -> bool
    ensures { result ≡ is_over moment recent }
{
    is_past(recent, moment) && recent.left_out == 0
}
