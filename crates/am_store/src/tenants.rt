//! The tenants of a store.

ghost use Rattle.std.specs.Prelude.{◌≡◌, ◌++◌, ℕ, List, false, map, All, IfOk, OnOk};
ghost use Rattle.std.specs.Cmp.Lexicographic.{slice_cmp};
ghost use Rattle.std.specs.List.{list_any};
ghost use Rattle.std.specs.Ordering.{nat_cmp};
ghost use Rattle.std.specs.List.Sorted.{IsStrictlySortedBy};
ghost use Rattle.sqlite.specs.Held.{state};
ghost use Rattle.sqlite.specs.Order.{bytes, column};
ghost use Rattle.sqlite.specs.State.{HasCleanDisk};
ghost use Rattle.am_tenant.specs.Names.{same};
ghost use Rattle.am_store.specs.Failing.{FailsForCause};
ghost use Rattle.am_store.specs.Opening.{Rests};
ghost use Rattle.am_store.specs.Reading.{GivesValue, IsNamed, NameTenants};
ghost use Rattle.am_store.specs.Rows.{IsStore, pairs_in};

use crate::query;
use crate::reading::tenant_in;
use am_rows::StoreRefusal;
use am_tenant::TenantName;
use am_text::Failure;
use sqlite::{Alter, Connection, Row};
use std::alloc::{AllocError, Global};

// Reads names behind those that are there.
fn push_names(names: &mut Vec<TenantName>, rows: &[Row]) -> Result<(), Failure<StoreRefusal>>
    ensures names { OnOk result (names.new.items ≡ names.old.items ++ map (λ row. bytes (column row 0)) rows.now) }
    ensures given { All IsNamed rows.now → GivesValue result }
{
    for row in rows {
        let name = tenant_in(row, 0)?;
        names.push(name)?;
    }
    Ok(())
}

// Puts names in order, each once.
fn sort(names: &mut Vec<TenantName>) -> Result<(), AllocError>
    ensures order { OnOk result (IsStrictlySortedBy (slice_cmp nat_cmp) names.new.items) }
    ensures same { OnOk result ((t : List ℕ) → list_any (same t) names.new.items ≡ list_any (same t) names.old.items) }
{
    names.sort()?;
    names.dedup();
    Ok(())
}

// The rows that name the tenants of either table.
fn named<S: Alter>(conn: &mut Connection<S>) -> Result<(Vec<Row>, Vec<Row>), Failure<StoreRefusal>>
    ensures names { HasCleanDisk (state S.Store conn.new) → IsStore (state S.Store conn.old).now
        → IfOk result (λ rows. NameTenants rows.0.items rows.1.items (state S.Store conn.old).now.trees) }
    ensures named { HasCleanDisk (state S.Store conn.new) → IsStore (state S.Store conn.old).now
        → IfOk result (λ rows. All IsNamed rows.0.items × All IsNamed rows.1.items) }
    ensures fails { HasCleanDisk (state S.Store conn.new) → IsStore (state S.Store conn.old).now
        → FailsForCause (state S.Store conn.old) (state S.Store conn.new) result }
    ensures rests { (HasCleanDisk (state S.Store conn.old) → IsStore (state S.Store conn.old).now)
        → Rests (state S.Store conn.old) (state S.Store conn.new) }
    ensures same { HasCleanDisk (state S.Store conn.new) → IsStore (state S.Store conn.old).now
        → OnOk result ((state S.Store conn.new).now ≡ (state S.Store conn.old).now) }
    ensures idle { conn.old.in_transaction ≡ false → conn.new.in_transaction ≡ false }
{
    let configs = query::rows(conn, "SELECT tenant FROM config", &[])?;
    let silences = query::rows(conn, "SELECT DISTINCT tenant FROM silence", &[])?;
    Ok((configs, silences))
}

// The tenants that have rows, in order of name.
pub(crate) fn tenants<S: Alter>(
    alloc: Global,
    conn: &mut Connection<S>,
) -> Result<Vec<TenantName>, Failure<StoreRefusal>>
    ensures order { IfOk result (λ names. IsStrictlySortedBy (slice_cmp nat_cmp) names.items) }
    ensures names { HasCleanDisk (state S.Store conn.new) → IsStore (state S.Store conn.old).now
        → IfOk result (λ names. (t : List ℕ)
        → list_any (same t) names.items
        ≡ list_any (λ pair. same t pair.0) (pairs_in (state S.Store conn.old).now.trees)) }
    ensures fails { HasCleanDisk (state S.Store conn.new) → IsStore (state S.Store conn.old).now
        → FailsForCause (state S.Store conn.old) (state S.Store conn.new) result }
    ensures rests { (HasCleanDisk (state S.Store conn.old) → IsStore (state S.Store conn.old).now)
        → Rests (state S.Store conn.old) (state S.Store conn.new) }
    ensures same { HasCleanDisk (state S.Store conn.new) → IsStore (state S.Store conn.old).now
        → OnOk result ((state S.Store conn.new).now ≡ (state S.Store conn.old).now) }
    ensures idle { conn.old.in_transaction ≡ false → conn.new.in_transaction ≡ false }
{
    let (configs, silences) = named(conn)?;
    let mut names = Vec::new(alloc);
    push_names(&mut names, &configs)?;
    push_names(&mut names, &silences)?;
    sort(&mut names)?;
    Ok(names)
}
