//! The rows of a tenant, read as items.

ghost use Rattle.std.specs.Prelude.{◌≡◌, ◌↔◌, ◌++◌, [], ◌∷◌, false, All, IfOk, IsTrue, OnOk, map};
ghost use Rattle.std.specs.declared.cmp.Ordering.TheVariants.{Less};
ghost use Rattle.std.specs.List.Sorted.{IsPermutation};
ghost use Rattle.sqlite.specs.Held.{state};
ghost use Rattle.sqlite.specs.State.{HasCleanDisk};
ghost use Rattle.am_item.specs.Best.{IsRising};
ghost use Rattle.am_item.specs.Key.{key_cmp, key_of};
ghost use Rattle.am_share.specs.Pairs.{things_of};
ghost use Rattle.am_store.specs.Failing.{FailsForCause};
ghost use Rattle.am_store.specs.Opening.{Rests};
ghost use Rattle.am_store.specs.Reading.{AreInOrder, GivesValue, KeysRise, config_key, silence_key};
ghost use Rattle.am_store.specs.Rows.{IsConfig, IsSilenceRow, IsStore, config_in, pairs_in, silence_in};
ghost use Rattle.am_store.specs.Stored.{stored_items};
ghost use Rattle.am_rows.specs.Rows.{stored_in};

use crate::config::named;
use crate::query;
use crate::reading::{read_config, read_silence};
use am_item::{Item, SharedItem};
use am_rows::StoreRefusal;
use am_tenant::TenantName;
use am_text::Failure;
use sqlite::{Alter, Connection, Row};
use std::alloc::{AllocError, Global};

// The rows of a tenant in either table.
fn found<S: Alter>(
    conn: &mut Connection<S>,
    tenant: &TenantName,
) -> Result<(Vec<Row>, Vec<Row>), Failure<StoreRefusal>>
    ensures rows { HasCleanDisk (state S.Store conn.new) → IsStore (state S.Store conn.old).now
        → IfOk result (λ rows. IsPermutation (things_of tenant.now (pairs_in (state S.Store conn.old).now.trees))
        (map (λ row. (config_in row).1) rows.0.items ++ map (λ row. (silence_in row).1) rows.1.items)) }
    ensures order { HasCleanDisk (state S.Store conn.new) → IsStore (state S.Store conn.old).now
        → IfOk result (λ rows. AreInOrder rows.0.items rows.1.items) }
    ensures fails { HasCleanDisk (state S.Store conn.new) → IsStore (state S.Store conn.old).now
        → FailsForCause (state S.Store conn.old) (state S.Store conn.new) result }
    ensures rests { (HasCleanDisk (state S.Store conn.old) → IsStore (state S.Store conn.old).now)
        → Rests (state S.Store conn.old) (state S.Store conn.new) }
    ensures same { HasCleanDisk (state S.Store conn.new) → IsStore (state S.Store conn.old).now
        → OnOk result ((state S.Store conn.new).now ≡ (state S.Store conn.old).now) }
    ensures idle { conn.old.in_transaction ≡ false → conn.new.in_transaction ≡ false }
{
    let _live = conn.schema();
    let configs = query::rows(
        conn,
        "SELECT rowid, tenant, body, moment, instance, incarnation, count FROM config WHERE tenant = ?1",
        &named(tenant),
    )?;
    let silences = query::rows(
        conn,
        "SELECT rowid, tenant, id, starts, ends, kept, author, comment, matchers, \
         moment, instance, incarnation, count FROM silence WHERE tenant = ?1 ORDER BY id",
        &named(tenant),
    )?;
    Ok((configs, silences))
}

// Whether the key of a row is greater than that of the row before it.
fn is_above(alloc: Global, item: &SharedItem, last: &SharedItem) -> Result<bool, AllocError>
    ensures { IfOk result (λ is_above. IsTrue is_above ↔ (key_cmp (key_of last.now) (key_of item.now) ≡ Less)) }
{
    let last = last.key(alloc)?;
    let next = item.key(alloc)?;
    Ok(last < next)
}

// Puts an item behind those of lesser keys.
fn push(alloc: Global, items: &mut Vec<SharedItem>, item: Item) -> Result<(), Failure<StoreRefusal>>
    ensures items { OnOk result (items.new.items ≡ items.old.items ++ item ∷ []) }
    ensures rising { IsRising items.old.items → OnOk result (IsRising items.new.items) }
    ensures given { KeysRise (map key_of items.old.items ++ key_of item ∷ []) → GivesValue result }
{
    let item = SharedItem::new(alloc, item)?;
    let len = items.len();
    if len > 0 {
        let rises = is_above(alloc, &item, &items[len - 1])?;
        if !rises {
            return Err(Failure::Refused(StoreRefusal::Foreign));
        }
    }
    items.push(item)?;
    Ok(())
}

// Reads configurations behind the items that are there.
fn push_configs(
    alloc: Global,
    items: &mut Vec<SharedItem>,
    rows: &[Row],
) -> Result<(), Failure<StoreRefusal>>
    ensures items { OnOk result (stored_items items.new.items
        ≡ stored_items items.old.items ++ map (λ row. (config_in row).1) rows.now) }
    ensures rising { IsRising items.old.items → OnOk result (IsRising items.new.items) }
    ensures keys { OnOk result (map key_of items.new.items ≡ map key_of items.old.items ++ map config_key rows.now) }
    ensures given { All IsConfig rows.now → KeysRise (map key_of items.old.items ++ map config_key rows.now)
        → GivesValue result }
{
    for row in rows {
        let (_, item) = read_config(alloc, row)?;
        push(alloc, items, item)?;
    }
    Ok(())
}

// Reads silences behind the items that are there.
fn push_silences(
    alloc: Global,
    items: &mut Vec<SharedItem>,
    rows: &[Row],
) -> Result<(), Failure<StoreRefusal>>
    ensures items { OnOk result (stored_items items.new.items
        ≡ stored_items items.old.items ++ map (λ row. (silence_in row).1) rows.now) }
    ensures rising { IsRising items.old.items → OnOk result (IsRising items.new.items) }
    ensures keys { OnOk result (map key_of items.new.items ≡ map key_of items.old.items ++ map silence_key rows.now) }
    ensures given { All IsSilenceRow rows.now → KeysRise (map key_of items.old.items ++ map silence_key rows.now)
        → GivesValue result }
{
    for row in rows {
        let (_, item) = read_silence(alloc, row)?;
        push(alloc, items, item)?;
    }
    Ok(())
}

// All that is stored of a tenant.
pub(crate) fn rows_of<S: Alter>(
    alloc: Global,
    conn: &mut Connection<S>,
    tenant: &TenantName,
) -> Result<Vec<SharedItem>, Failure<StoreRefusal>>
    ensures rows { HasCleanDisk (state S.Store conn.new) → IsStore (state S.Store conn.old).now
        → IfOk result (λ items. IsPermutation (things_of tenant.now (pairs_in (state S.Store conn.old).now.trees))
        (stored_items items.items)) }
    ensures order { IfOk result (λ items. IsRising items.items) }
    ensures stored { IfOk result (λ items. stored_in items.items ≡ items.items) }
    ensures fails { HasCleanDisk (state S.Store conn.new) → IsStore (state S.Store conn.old).now
        → FailsForCause (state S.Store conn.old) (state S.Store conn.new) result }
    ensures rests { (HasCleanDisk (state S.Store conn.old) → IsStore (state S.Store conn.old).now)
        → Rests (state S.Store conn.old) (state S.Store conn.new) }
    ensures same { HasCleanDisk (state S.Store conn.new) → IsStore (state S.Store conn.old).now
        → OnOk result ((state S.Store conn.new).now ≡ (state S.Store conn.old).now) }
    ensures idle { conn.old.in_transaction ≡ false → conn.new.in_transaction ≡ false }
{
    let (configs, silences) = found(conn, tenant)?;
    let mut items = Vec::new(alloc);
    push_configs(alloc, &mut items, &configs)?;
    push_silences(alloc, &mut items, &silences)?;
    Ok(items)
}
