//! The rows of a tenant go.

ghost use Rattle.std.specs.Prelude.{◌≡◌, IfErr, OnErr, OnOk, Some, false, true};
ghost use Rattle.am_replica.specs.Storing.{StopsStoring, fault_in};
ghost use Rattle.am_rows.specs.Refusing.{MayRefuse, Wears};
ghost use Rattle.am_rows.specs.Rows.{Keeps as KeepsRows, Makes as MakesRows, no_rows};

use am_item::Fault;
use am_replica::fault_of;
use am_rows::Rows;
use am_tenant::TenantName;

/// Drops the rows of a tenant from a store that is open.
///
/// # Errors
/// `StoreRefused`, or out of memory. The rows are as before then, unless a failure shut the store.
pub fn drop_rows_of<R: Rows>(tenant: &TenantName, store: &mut R) -> Result<(), Fault>
    requires { R.is_open store.old ≡ true }
    ensures clean { R.is_clean store.new ≡ true → R.is_clean store.old ≡ true }
    ensures open { OnOk result (R.is_open store.new ≡ true) }
    ensures dropped { R.is_clean store.new ≡ true
        → OnOk result (MakesRows tenant.now no_rows (R.pairs store.old) (R.pairs store.new)) }
    ensures err { R.is_clean store.new ≡ true → (R.medium store.new).is_shut ≡ false
        → OnErr result (KeepsRows (R.pairs store.old) (R.pairs store.new)) }
    ensures fault { IfErr result (StopsStoring true) }
    ensures cause { R.is_clean store.new ≡ true → fault_in result ≡ Some Fault.StoreRefused
        → MayRefuse (R.medium store.old) (R.medium store.new) }
    ensures wears { R.is_clean store.new ≡ true → Wears (R.medium store.old) (R.medium store.new) }
{
    match store.drop_tenant(tenant) {
        Ok(()) => Ok(()),
        Err(failure) => Err(fault_of(failure)),
    }
}
