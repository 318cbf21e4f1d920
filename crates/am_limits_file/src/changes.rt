//! What is to be set where a file of limits replaces another.

ghost use Rattle.std.specs.Prelude.{◌≡◌, [], List, IfOk, OnOk, ℕ};
ghost use Rattle.am_limit.specs.Books.{limits_of};
ghost use Rattle.am_tenant.specs.Names.{same};
ghost use Rattle.am_text.specs.Outcome.{Gives};
ghost use Rattle.am_limits_file.specs.Changes.{AreChanges, change_for, limits_by, names, noted, set_of};
ghost use Rattle.am_limits_file.specs.Changes.{with_same_default};

use crate::reading::{LimitsFile, TenantLimits};
use crate::refusal::{LimitsFault, LimitsRefusal};
use am_limit::{LimitBook, Limits};
use am_tenant::TenantName;
use am_text::{Failure, Listed, Text};
use std::alloc::{AllocError, Global};
use std::collections::BTreeMap;

impl LimitsFile {
    /// A file that names no tenant.
    pub fn unset(alloc: Global, default: Limits) -> LimitsFile
        ensures { result ≡ record { default = default; tenants = [] } }
    {
        LimitsFile {
            default,
            tenants: Listed::from_vec(Vec::new(alloc)),
        }
    }

    /// What is to be set where another file replaces this one: of each tenant whose limits aren't the same by both, its
    /// limits by the other, which are the other's default where the tenant is no longer named.
    ///
    /// # Errors
    /// `Fixed` at `default` where the default isn't the same in both, since tenants that neither file names have it; or
    /// out of memory.
    pub fn changes(
        &self,
        alloc: Global,
        next: &LimitsFile,
    ) -> Result<BTreeMap<TenantName, Limits>, Failure<LimitsRefusal>>
        ensures changes { IfOk result (λ changes. AreChanges self.now next.now changes.entries) }
        ensures gives { Gives (λ changes. next.now) result (with_same_default self.now next.now) }
    {
        if self.default != next.default {
            let place = Text::read(alloc, "default")?;
            let fault = LimitsFault::Fixed;
            return Err(Failure::Refused(LimitsRefusal { place, fault }));
        }
        let before = self.book(alloc)?;
        let after = next.book(alloc)?;
        let mut changes = BTreeMap::new(alloc);
        note_all(self.tenants.as_slice(), &before, &after, &mut changes)?;
        note_all(next.tenants.as_slice(), &before, &after, &mut changes)?;
        Ok(changes)
    }

    // The limits of all tenants by the file.
    fn book(&self, alloc: Global) -> Result<LimitBook, AllocError>
        ensures { IfOk result (λ book. (t : List ℕ) → limits_of t book ≡ limits_by t self.now) }
    {
        let mut book = LimitBook::new(alloc, self.default);
        for named in self.tenants.as_slice() {
            book.set(alloc, &named.tenant, named.limits)?;
        }
        Ok(book)
    }
}

// Notes what is to be set of these tenants.
#[tactic(auto, using(crate::proofs::ChangesLemmas::noted_in_turn))]
fn note_all(
    tenants: &[TenantLimits],
    before: &LimitBook,
    after: &LimitBook,
    changes: &mut BTreeMap<TenantName, Limits>,
) -> Result<(), AllocError>
    ensures { OnOk result ((t : List ℕ) → set_of t changes.new.entries
        ≡ noted (names t tenants.now) (change_for t before.now after.now) (set_of t changes.old.entries)) }
{
    for named in tenants {
        note(&named.tenant, before, after, changes)?;
    }
    Ok(())
}

// Notes what is to be set of a tenant.
fn note(
    tenant: &TenantName,
    before: &LimitBook,
    after: &LimitBook,
    changes: &mut BTreeMap<TenantName, Limits>,
) -> Result<(), AllocError>
    ensures { OnOk result ((t : List ℕ) → set_of t changes.new.entries
        ≡ noted (same t tenant.now) (change_for t before.now after.now) (set_of t changes.old.entries)) }
{
    let limits = after.of(tenant);
    if before.of(tenant) != limits {
        changes.insert(*tenant, limits)?;
    }
    Ok(())
}
