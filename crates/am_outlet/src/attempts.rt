//! The attempts of all tenants.
ghost use Rattle.std.specs.Prelude.{◌≡◌, ◌⊎◌, ◌+◌, ◌^◌, ◌≤◌, ◌↔◌, ℕ, List, [], true, false, IfNone, IfOk, IfSome, IsErrOf, OnErr, OnOk, if◌then◌else◌, ⊤};
ghost use Rattle.std.specs.BTreeMap.{IsOrdered};
ghost use Rattle.std.specs.Cmp.Lexicographic.{slice_cmp};
ghost use Rattle.std.specs.Ordering.{nat_cmp};
ghost use Rattle.am_tenant.specs.Names.{same};
ghost use Rattle.am_share.specs.Pairs.{Drops, LeavesOthers};
ghost use Rattle.am_outlet.specs.Attempts.{after_outcome, after_tick, attempt_at, awaits_outcome, cleared, next_of, no_attempts, number_with, outcome_of, sending_of, started, without, without_key, without_number};
ghost use Rattle.am_outlet.specs.Desks.{IsSameOrWithout, desk_of, desks_in};

use crate::attempt::{Notice, Sending};
use crate::desk::Desk;
use crate::outcome::Outcome;
use am_item::{EntryKey, Fault};
use am_share::{ShareRefusal, Shared};
use am_tenant::TenantName;
use am_text::{Failure, Moment};
use std::alloc::{AllocError, Global};
use std::collections::BTreeMap;
use std::marker::Model;

/// The open attempts of all tenants on one instance. Each tenant's attempts are numbered from 1 on, whatever the other
/// tenants' are, and no number is used again.
pub struct Attempts {
    desks: BTreeMap<TenantName, Desk>,
}

// Written out, so that a crate which owns one need not prove anew how its parts are dropped.
impl Drop for Attempts {
    fn drop(self) {
        let Attempts { desks } = self;
        drop(desks);
    }
}

impl Model for Attempts {
    ghost use Rattle.std.specs.BTreeMap.{IsOrdered};
    ghost use Rattle.std.specs.Cmp.Lexicographic.{slice_cmp};
    ghost use Rattle.std.specs.Ordering.{nat_cmp};
    ghost use Rattle.am_outlet.specs.Desks.{Desks, desks_in};

    ghost Value = { Desks };

    ghost view = { λ a. desks_in a.desks };

    ghost invariant = { λ a. IsOrdered (slice_cmp nat_cmp) a.desks };
}

impl Attempts {
    /// No attempts: no tenant has had one.
    #[tactic(auto, unfolding(crate::specs::Desks::desks_in, crate::specs::Desks::desk_of, am_share::specs::Pairs::things_of))]
    pub fn new(alloc: Global) -> Attempts
        ensures { (t : List ℕ) → desk_of t result ≡ no_attempts }
    {
        Attempts {
            desks: BTreeMap::new(alloc),
        }
    }

    /// Opens an attempt for a notice, with the tenant's next number, and gives its first try. The attempt of the same
    /// key that is still open is closed.
    ///
    /// # Errors
    /// `CountsExhausted` where the tenant has used 2^62 numbers: nothing changes. Out of memory: the attempt of the same
    /// key may be closed, and nothing else changes.
    pub fn start(
        &mut self,
        alloc: Global,
        tenant: &TenantName,
        notice: Notice,
    ) -> Result<Sending, Fault>
        ensures sending { IfOk result (λ sending. sending ≡ sending_of ((desk_of tenant.now self.old).used + 1) 1 notice) }
        ensures each { OnOk result ((t : List ℕ) → desk_of t self.new ≡ (if same t tenant.now then started notice (desk_of t self.old) else desk_of t self.old)) }
        ensures fault { IsErrOf result Fault.CountsExhausted ↔ (2 ^ 62 ≤ (desk_of tenant.now self.old).used) }
        ensures no_pattern { IsErrOf result Fault.PatternNotBuilt → ⊥ }
        ensures no_store { IsErrOf result Fault.StoreRefused → ⊥ }
        ensures err { OnErr result (IsSameOrWithout notice.key tenant.now self.old self.new) }
        ensures others { LeavesOthers tenant.now self.old.attempts self.new.attempts }
    {
        let desk = self.desks.entry(*tenant)?.or_insert(Desk::new(alloc));
        desk.start(alloc, notice)
    }

    /// Closes the attempt of this key, if the tenant has one open, and gives its number. It takes no memory.
    pub fn drop_key(&mut self, tenant: &TenantName, key: &EntryKey) -> Option<u64>
        ensures number { result ≡ number_with key.now (desk_of tenant.now self.old).open_ones }
        // No other attempt has the key.
        ensures one { IfSome result (λ number. without_key key.now (desk_of tenant.now self.old).open_ones ≡ without_number number (desk_of tenant.now self.old).open_ones) }
        ensures none { IfNone result (without_key key.now (desk_of tenant.now self.old).open_ones ≡ (desk_of tenant.now self.old).open_ones) }
        ensures each { (t : List ℕ) → desk_of t self.new ≡ (if same t tenant.now then without key.now (desk_of t self.old) else desk_of t self.old) }
        ensures others { LeavesOthers tenant.now self.old.attempts self.new.attempts }
    {
        let Some(desk) = self.desks.get_mut(tenant) else {
            return None;
        };
        desk.drop_key(key)
    }

    /// Whether the outcome of this try of a tenant's attempt is awaited.
    pub fn is_awaited(&self, tenant: &TenantName, number: u64, tries: u8) -> bool
        ensures { result ≡ awaits_outcome tries (attempt_at number (desk_of tenant.now self.now).open_ones) }
    {
        match self.desks.get(tenant) {
            Some(desk) => desk.is_awaited(number, tries),
            None => false,
        }
    }

    /// Takes the outcome of a try: the status of the webhook's answer, or `None` where there was no answer. It counts
    /// once, for the try that went out last. A status from 200 to 299 closes the attempt and gives the notice back. With one
    /// from 500 to 599 or none the next try is due 10, 20, 40 and 80 seconds after the outcome of the first four
    /// tries, and after the fifth the attempt is closed. Any other closes it. It takes no memory.
    pub fn outcome(
        &mut self,
        tenant: &TenantName,
        number: u64,
        tries: u8,
        moment: Moment,
        status: Option<u16>,
    ) -> Outcome
        ensures outcome { result ≡ outcome_of number tries moment status (desk_of tenant.now self.old).open_ones }
        ensures each { (t : List ℕ) → desk_of t self.new ≡ (if same t tenant.now then after_outcome number tries moment status (desk_of t self.old) else desk_of t self.old) }
        ensures others { LeavesOthers tenant.now self.old.attempts self.new.attempts }
    {
        let Some(desk) = self.desks.get_mut(tenant) else {
            return Outcome::NotOpen;
        };
        desk.outcome(number, tries, moment, status)
    }

    /// The next try of an attempt, where it is due at the moment or before it: then it goes out, with the same
    /// bytes, and its outcome is awaited. `None` where no try of that attempt is due, and nothing changes.
    ///
    /// # Errors
    /// Out of memory. Nothing changes.
    pub fn tick(
        &mut self,
        alloc: Global,
        tenant: &TenantName,
        number: u64,
        now: Moment,
    ) -> Result<Option<Sending>, AllocError>
        ensures sending { IfOk result (λ sending. sending ≡ next_of number now (desk_of tenant.now self.old)) }
        ensures each { OnOk result ((t : List ℕ) → desk_of t self.new ≡ (if same t tenant.now then after_tick number now (desk_of t self.old) else desk_of t self.old)) }
        ensures others { LeavesOthers tenant.now self.old.attempts self.new.attempts }
        ensures err { OnErr result ((t : List ℕ) → desk_of t self.new ≡ desk_of t self.old) }
    {
        let Some(desk) = self.desks.get_mut(tenant) else {
            return Ok(None);
        };
        let sending = desk.tick(alloc, number, now)?;
        Ok(sending)
    }

    /// Closes all attempts of a tenant. The numbers that they have used stay used. It takes no memory.
    pub fn clear(&mut self, tenant: &TenantName)
        ensures each { (t : List ℕ) → desk_of t self.new ≡ (if same t tenant.now then cleared (desk_of t self.old) else desk_of t self.old) }
        ensures dropped { Drops tenant.now self.old.attempts self.new.attempts }
    {
        clear_desk(&mut self.desks, tenant);
    }
}

impl Shared for Attempts {
    ghost use Rattle.am_outlet.specs.declared.attempt.Attempt.{Attempt};

    ghost Thing = { ℕ × Attempt };

    ghost pairs = { λ a. a.attempts };

    ghost stands = { λ _. ⊤ };

    ghost refuses = { ⊥ };

    fn drop_tenant(&mut self, tenant: &TenantName) -> Result<(), Failure<ShareRefusal>> {
        self.clear(tenant);
        Ok(())
    }
}

// Clears a tenant's desk, if it has one.
fn clear_desk(desks: &mut BTreeMap<TenantName, Desk>, tenant: &TenantName)
    ensures each { (t : List ℕ) → desk_of t (desks_in desks.new) ≡ (if same t tenant.now then cleared (desk_of t (desks_in desks.old)) else desk_of t (desks_in desks.old)) }
    ensures ordered { IsOrdered (slice_cmp nat_cmp) desks.new }
{
    if let Some(desk) = desks.get_mut(tenant) {
        desk.clear();
    }
}
