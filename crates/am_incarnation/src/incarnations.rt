//! The greatest incarnation that the rows of a store have.

ghost use Rattle.std.specs.Prelude.{◌≡◌, IfErr, IfOk, OnOk, true};
ghost use Rattle.std.specs.List.{list_all};
ghost use Rattle.am_incarnation.specs.Incarnations.{IsGreatestFrom, IsGreatestIncarnation, IsReached, bounds};
ghost use Rattle.am_rows.specs.Refusing.{IsCaused, IsJudged, MayRefuse, Wears};
ghost use Rattle.am_rows.specs.Rows.{Keeps, rows_of};

use am_item::SharedItem;
use am_rows::{Rows, StoreRefusal};
use am_tenant::TenantName;
use am_text::Failure;
use std::alloc::Global;

/// The greatest incarnation of a row in a store, which is opened for that; 0 where it has no row. All rows stay.
///
/// # Errors
/// `F3` where it is no store; `F2` where a call of the database was refused; or out of memory.
pub fn greatest_incarnation<R: Rows>(
    alloc: Global,
    store: &mut R,
) -> Result<u32, Failure<StoreRefusal>>
    ensures clean { R.is_clean store.new ≡ true → R.is_clean store.old ≡ true }
    ensures greatest { R.is_clean store.new ≡ true → IfOk result (λ n. IsGreatestIncarnation n (R.pairs store.old)) }
    ensures stays { R.is_clean store.new ≡ true → OnOk result (Keeps (R.pairs store.old) (R.pairs store.new)) }
    ensures fails { R.is_clean store.new ≡ true
        → IfErr result (IsJudged (R.is_foreign store.old) (MayRefuse (R.medium store.old) (R.medium store.new))) }
{
    store.open(alloc)?;
    let tenants = store.tenants(alloc)?;
    greatest_of(alloc, store, &tenants)
}

// That of the rows of these tenants.
fn greatest_of<R: Rows>(
    alloc: Global,
    store: &mut R,
    tenants: &[TenantName],
) -> Result<u32, Failure<StoreRefusal>>
    requires { R.is_open store.old ≡ true }
    ensures clean { R.is_clean store.new ≡ true → R.is_clean store.old ≡ true }
    ensures greatest { R.is_clean store.new ≡ true → IfOk result (λ n.
        (list_all (λ t. bounds n (rows_of t (R.pairs store.old))) tenants.now ≡ true)
        × IsReached n (R.pairs store.old)) }
    ensures stays { R.is_clean store.new ≡ true → OnOk result (Keeps (R.pairs store.old) (R.pairs store.new)) }
    ensures fails { R.is_clean store.new ≡ true
        → IfErr result (IsCaused (MayRefuse (R.medium store.old) (R.medium store.new))) }
    ensures wears { R.is_clean store.new ≡ true → Wears (R.medium store.old) (R.medium store.new) }
{
    let mut greatest = 0;
    for tenant in tenants {
        let rows = store.rows_of(alloc, tenant)?;
        greatest = greatest_from(greatest, &rows);
    }
    Ok(greatest)
}

// The greatest of this incarnation and those of the rows.
fn greatest_from(least: u32, rows: &[SharedItem]) -> u32
    ensures { IsGreatestFrom least result rows.now }
{
    let mut greatest = least;
    for row in rows {
        greatest = greatest.max(row.stamp().incarnation);
    }
    greatest
}
