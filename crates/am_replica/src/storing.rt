//! What goes to the store.

ghost use Rattle.std.specs.Prelude.{◌≡◌, ◌⊎◌, ◌<◌, ◌++◌, ℕ, List, Some, IfErr, OnErr, OnOk, false, length, nat_lt};
ghost use Rattle.std.specs.Prelude.{true};
ghost use Rattle.am_rows.specs.Refusing.{MayRefuse};
ghost use Rattle.am_rows.specs.Rows.{Keeps, Makes as MakesRows, has_stored, is_stored, put_rows, rows_of};
ghost use Rattle.am_rows.specs.Rows.{without_silences};
ghost use Rattle.am_replica.specs.Storing.{StopsStoring, fault_for, fault_in, silence_named};

use am_item::{Fault, Part, SharedItem, SilenceId, ThingKey};
use am_rows::{Rows, StoreRefusal};
use am_tenant::TenantName;
use am_text::Failure;
use std::alloc::{AllocError, Global};

/// Commits items of a tenant. Where none of them is stored the store isn't called.
pub fn commit<R: Rows>(
    alloc: Global,
    store: &mut R,
    tenant: &TenantName,
    items: &[SharedItem],
) -> Result<(), Fault>
    requires open { R.is_open store.old ≡ true }
    ensures clean { R.is_clean store.new ≡ true → R.is_clean store.old ≡ true }
    ensures open { OnOk result (R.is_open store.new ≡ true) }
    ensures put { R.is_clean store.new ≡ true → OnOk result
        (MakesRows tenant.now (put_rows items.now) (R.pairs store.old) (R.pairs store.new)) }
    ensures err { R.is_clean store.new ≡ true → (R.medium store.new).is_shut ≡ false
        → OnErr result (Keeps (R.pairs store.old) (R.pairs store.new)) }
    ensures fault { IfErr result (StopsStoring (has_stored items.now)) }
    ensures cause { R.is_clean store.new ≡ true → fault_in result ≡ Some Fault.StoreRefused
        → MayRefuse (R.medium store.old) (R.medium store.new) ⊎ R.rejects tenant.now items.now }
    ensures untouched { has_stored items.now ≡ false → store.new ≡ store.old }
{
    if !has_stored(items) {
        return Ok(());
    }
    match store.put(alloc, tenant, items) {
        Ok(()) => Ok(()),
        Err(failure) => Err(fault_of(failure)),
    }
}

// Whether one of the items is stored.
fn has_stored(items: &[SharedItem]) -> bool
    ensures { result ≡ has_stored items.now }
{
    items.iter().any(is_stored)
}

fn is_stored(item: &SharedItem) -> bool
    ensures { result ≡ is_stored item.now }
{
    match item.part() {
        Part::Configuration(_) | Part::Silence(..) => true,
        Part::Alert(..) | Part::SentEntry(..) => false,
    }
}

/// Notes a silence among those whose rows go, where the key is one's.
pub(crate) fn note_silence(
    silences: &mut Vec<(TenantName, SilenceId)>,
    tenant: &TenantName,
    key: &ThingKey,
) -> Result<(), AllocError>
    ensures { OnOk result (silences.new.items ≡ silences.old.items ++ silence_named tenant.now key.now) }
{
    match key {
        ThingKey::Silence(id) => silences.push((*tenant, *id))?,
        ThingKey::Configuration | ThingKey::Alert(_) | ThingKey::SentEntry(_) => {}
    }
    Ok(())
}

/// Commits that silences are gone, all at once. Where there are none the store isn't called.
pub(crate) fn drop_rows<R: Rows>(
    store: &mut R,
    silences: &[(TenantName, SilenceId)],
) -> Result<(), Fault>
    requires open { R.is_open store.old ≡ true }
    ensures clean { R.is_clean store.new ≡ true → R.is_clean store.old ≡ true }
    ensures open { OnOk result (R.is_open store.new ≡ true) }
    ensures dropped { R.is_clean store.new ≡ true → OnOk result ((t : List ℕ) →
        rows_of t (R.pairs store.new) ≡ without_silences silences.now t (rows_of t (R.pairs store.old))) }
    ensures err { R.is_clean store.new ≡ true → (R.medium store.new).is_shut ≡ false
        → OnErr result (Keeps (R.pairs store.old) (R.pairs store.new)) }
    ensures fault { IfErr result (StopsStoring (nat_lt 0 (length silences.now))) }
    ensures cause { R.is_clean store.new ≡ true → fault_in result ≡ Some Fault.StoreRefused
        → MayRefuse (R.medium store.old) (R.medium store.new) }
    ensures untouched { length silences.now ≡ 0 → store.new ≡ store.old }
{
    if silences.is_empty() {
        return Ok(());
    }
    match store.drop_silences(silences) {
        Ok(()) => Ok(()),
        Err(failure) => Err(fault_of(failure)),
    }
}

/// What a failed call of the store stops the instance for.
pub fn fault_of(failure: Failure<StoreRefusal>) -> Fault
    ensures { result ≡ fault_for failure }
{
    match failure {
        Failure::OutOfMemory => Fault::OutOfMemory,
        Failure::Refused(_) => Fault::StoreRefused,
    }
}
