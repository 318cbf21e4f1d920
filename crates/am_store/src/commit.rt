//! What is put and dropped in one transaction.

ghost use Rattle.std.specs.Prelude.{◌≡◌, All, IfErr, IsTrue, OnErr, OnOk, false};
ghost use Rattle.std.specs.Option.{option_to_list};
ghost use Rattle.sqlite.specs.Effect.{IsDatabase};
ghost use Rattle.sqlite.specs.Held.{state};
ghost use Rattle.sqlite.specs.State.{HasCleanDisk, KeepsCommit, Survives};
ghost use Rattle.am_item.specs.Key.{SilenceKey};
ghost use Rattle.am_store.specs.Failing.{IsExcused, IsPutExcused, IsReady, PutsEach};
ghost use Rattle.am_rows.specs.Fit.{IsFit};
ghost use Rattle.am_store.specs.Rows.{IsStore};
ghost use Rattle.am_store.specs.Steps.{Commits, Empties, IsSame, Leaves, Removes, RemovesEach, Stores};
ghost use Rattle.am_store.specs.Stored.{stored_item, stored_items};

use crate::{config, silence};
use am_item::{Part, SharedItem, SilenceId};
use am_tenant::TenantName;
use sqlite::{Alter, Connection, Error, Transaction};
use std::alloc::Global;
use uuid::Uuid;

// Puts one item, where it is a configuration or a silence.
fn put_one<S: Alter>(
    alloc: Global,
    tx: &mut Transaction<'_, S>,
    tenant: &TenantName,
    item: &SharedItem,
) -> Result<(), Error>
    requires { IsFit item.now }
    ensures same_reference { tx.new.conn.ghost_name ≡ tx.old.conn.ghost_name }
    ensures ok { HasCleanDisk (state S.Store tx.new.conn.now) → IsStore (state S.Store tx.old.conn.now).now
        → OnOk result (Stores tenant.now (option_to_list (stored_item item.now)) (state S.Store tx.old.conn.now).now
        (state S.Store tx.new.conn.now).now) }
    ensures fails { HasCleanDisk (state S.Store tx.new.conn.now) → IsReady (state S.Store tx.old.conn.now)
        → IfErr result (IsPutExcused tenant.now (option_to_list (stored_item item.now))
        (state S.Store tx.old.conn.now) (state S.Store tx.new.conn.now)) }
    ensures sound { HasCleanDisk (state S.Store tx.new.conn.now) → IsReady (state S.Store tx.old.conn.now)
        → OnOk result (IsDatabase (state S.Store tx.new.conn.now).now) }
    ensures puts { HasCleanDisk (state S.Store tx.new.conn.now) → IsStore (state S.Store tx.old.conn.now).now
        → OnOk result (PutsEach tenant.now (option_to_list (stored_item item.now))
        (state S.Store tx.old.conn.now).now (state S.Store tx.new.conn.now).now) }
    ensures kept { HasCleanDisk (state S.Store tx.new.conn.now) → IsStore (state S.Store tx.old.conn.now).now
        → KeepsCommit (state S.Store tx.old.conn.now) (state S.Store tx.new.conn.now) }
    ensures inside { HasCleanDisk (state S.Store tx.new.conn.now) → IsStore (state S.Store tx.old.conn.now).now
        → OnOk result (IsTrue (state S.Store tx.old.conn.now).in_transaction
        → IsTrue (state S.Store tx.new.conn.now).in_transaction) }
    ensures survives { Survives (state S.Store tx.old.conn.now) (state S.Store tx.new.conn.now) (λ _. ⊥) }
{
    match item.part() {
        Part::Configuration(body) => config::put(tx, tenant, item.stamp(), body),
        Part::Silence(id, silence) => silence::put(alloc, tx, tenant, item.stamp(), id, silence),
        Part::Alert(_, _) | Part::SentEntry(_, _) => Ok(()),
    }
}

// Puts items one after the other.
fn put_each<S: Alter>(
    alloc: Global,
    tx: &mut Transaction<'_, S>,
    tenant: &TenantName,
    items: &[SharedItem],
) -> Result<(), Error>
    requires { All IsFit items.now }
    ensures same_reference { tx.new.conn.ghost_name ≡ tx.old.conn.ghost_name }
    ensures ok { HasCleanDisk (state S.Store tx.new.conn.now) → IsStore (state S.Store tx.old.conn.now).now
        → OnOk result (Stores tenant.now (stored_items items.now) (state S.Store tx.old.conn.now).now
        (state S.Store tx.new.conn.now).now) }
    ensures fails { HasCleanDisk (state S.Store tx.new.conn.now) → IsReady (state S.Store tx.old.conn.now)
        → IfErr result (IsPutExcused tenant.now (stored_items items.now)
        (state S.Store tx.old.conn.now) (state S.Store tx.new.conn.now)) }
    ensures sound { HasCleanDisk (state S.Store tx.new.conn.now) → IsReady (state S.Store tx.old.conn.now)
        → OnOk result (IsDatabase (state S.Store tx.new.conn.now).now) }
    ensures puts { HasCleanDisk (state S.Store tx.new.conn.now) → IsStore (state S.Store tx.old.conn.now).now
        → OnOk result (PutsEach tenant.now (stored_items items.now)
        (state S.Store tx.old.conn.now).now (state S.Store tx.new.conn.now).now) }
    ensures kept { HasCleanDisk (state S.Store tx.new.conn.now) → IsStore (state S.Store tx.old.conn.now).now
        → KeepsCommit (state S.Store tx.old.conn.now) (state S.Store tx.new.conn.now) }
    ensures inside { HasCleanDisk (state S.Store tx.new.conn.now) → IsStore (state S.Store tx.old.conn.now).now
        → OnOk result (IsTrue (state S.Store tx.old.conn.now).in_transaction
        → IsTrue (state S.Store tx.new.conn.now).in_transaction) }
    ensures survives { Survives (state S.Store tx.old.conn.now) (state S.Store tx.new.conn.now) (λ _. ⊥) }
{
    for item in items {
        put_one(alloc, tx, tenant, item)?;
    }
    Ok(())
}

// Puts items of a tenant, all or none.
pub(crate) fn put<S: Alter>(
    alloc: Global,
    conn: &mut Connection<S>,
    tenant: &TenantName,
    items: &[SharedItem],
) -> Result<(), Error>
    requires fits { All IsFit items.now }
    requires idle { conn.old.in_transaction ≡ false }
    ensures ok { HasCleanDisk (state S.Store conn.new) → IsStore (state S.Store conn.old).now
        → OnOk result (Commits (Stores tenant.now (stored_items items.now)) (state S.Store conn.old)
        (state S.Store conn.new)) }
    ensures err { HasCleanDisk (state S.Store conn.new) → IsTrue (state S.Store conn.new).is_open
        → IsStore (state S.Store conn.old).now
        → OnErr result (IsSame (state S.Store conn.old) (state S.Store conn.new)) }
    ensures fails { HasCleanDisk (state S.Store conn.new) → IsStore (state S.Store conn.old).now
        → IfErr result (IsPutExcused tenant.now (stored_items items.now) (state S.Store conn.old)
        (state S.Store conn.new)) }
    ensures idle { conn.new.in_transaction ≡ false }
    ensures crash { Survives (state S.Store conn.old) (state S.Store conn.new)
        (Leaves (Stores tenant.now (stored_items items.now)) (state S.Store conn.old)) }
{
    let _live = conn.schema();
    let _settled = conn.is_autocommit();
    let mut tx = conn.transaction();
    put_each(alloc, &mut tx, tenant, items)?;
    tx.commit()
}

// Takes a silence of a tenant out.
fn take_silence<S: Alter>(
    tx: &mut Transaction<'_, S>,
    tenant: &TenantName,
    id: &SilenceId,
) -> Result<(), Error>
    ensures same_reference { tx.new.conn.ghost_name ≡ tx.old.conn.ghost_name }
    ensures ok { HasCleanDisk (state S.Store tx.new.conn.now) → IsStore (state S.Store tx.old.conn.now).now
        → OnOk result (Removes tenant.now (SilenceKey id.now) (state S.Store tx.old.conn.now).now
        (state S.Store tx.new.conn.now).now) }
    ensures fails { HasCleanDisk (state S.Store tx.new.conn.now) → IsReady (state S.Store tx.old.conn.now)
        → IfErr result (IsExcused (state S.Store tx.old.conn.now) (state S.Store tx.new.conn.now)) }
    ensures sound { HasCleanDisk (state S.Store tx.new.conn.now) → IsReady (state S.Store tx.old.conn.now)
        → OnOk result (IsDatabase (state S.Store tx.new.conn.now).now) }
    ensures kept { HasCleanDisk (state S.Store tx.new.conn.now)
        → KeepsCommit (state S.Store tx.old.conn.now) (state S.Store tx.new.conn.now) }
    ensures inside { HasCleanDisk (state S.Store tx.new.conn.now)
        → OnOk result (IsTrue (state S.Store tx.old.conn.now).in_transaction
        → IsTrue (state S.Store tx.new.conn.now).in_transaction) }
    ensures survives { Survives (state S.Store tx.old.conn.now) (state S.Store tx.new.conn.now) (λ _. ⊥) }
{
    let mut buffer = Uuid::encode_buffer();
    let id = silence::text_of(id, &mut buffer);
    silence::take_out(tx, tenant, id)
}

// Drops a silence of a tenant.
pub(crate) fn drop_silence<S: Alter>(
    conn: &mut Connection<S>,
    tenant: &TenantName,
    id: &SilenceId,
) -> Result<(), Error>
    requires { conn.old.in_transaction ≡ false }
    ensures ok { HasCleanDisk (state S.Store conn.new) → IsStore (state S.Store conn.old).now
        → OnOk result (Commits (Removes tenant.now (SilenceKey id.now)) (state S.Store conn.old)
        (state S.Store conn.new)) }
    ensures err { HasCleanDisk (state S.Store conn.new) → IsTrue (state S.Store conn.new).is_open
        → IsStore (state S.Store conn.old).now
        → OnErr result (IsSame (state S.Store conn.old) (state S.Store conn.new)) }
    ensures fails { HasCleanDisk (state S.Store conn.new) → IsStore (state S.Store conn.old).now
        → IfErr result (IsExcused (state S.Store conn.old) (state S.Store conn.new)) }
    ensures idle { conn.new.in_transaction ≡ false }
    ensures crash { Survives (state S.Store conn.old) (state S.Store conn.new)
        (Leaves (Removes tenant.now (SilenceKey id.now)) (state S.Store conn.old)) }
{
    let _live = conn.schema();
    let _settled = conn.is_autocommit();
    let mut tx = conn.transaction();
    take_silence(&mut tx, tenant, id)?;
    tx.commit()
}

// Takes silences out one after the other.
fn take_silences<S: Alter>(
    tx: &mut Transaction<'_, S>,
    silences: &[(TenantName, SilenceId)],
) -> Result<(), Error>
    ensures same_reference { tx.new.conn.ghost_name ≡ tx.old.conn.ghost_name }
    ensures ok { HasCleanDisk (state S.Store tx.new.conn.now) → IsStore (state S.Store tx.old.conn.now).now
        → OnOk result (RemovesEach silences.now (state S.Store tx.old.conn.now).now
        (state S.Store tx.new.conn.now).now) }
    ensures fails { HasCleanDisk (state S.Store tx.new.conn.now) → IsReady (state S.Store tx.old.conn.now)
        → IfErr result (IsExcused (state S.Store tx.old.conn.now) (state S.Store tx.new.conn.now)) }
    ensures kept { HasCleanDisk (state S.Store tx.new.conn.now)
        → KeepsCommit (state S.Store tx.old.conn.now) (state S.Store tx.new.conn.now) }
    ensures inside { HasCleanDisk (state S.Store tx.new.conn.now)
        → OnOk result (IsTrue (state S.Store tx.old.conn.now).in_transaction
        → IsTrue (state S.Store tx.new.conn.now).in_transaction) }
    ensures survives { Survives (state S.Store tx.old.conn.now) (state S.Store tx.new.conn.now) (λ _. ⊥) }
{
    for (tenant, id) in silences {
        take_silence(tx, tenant, id)?;
    }
    Ok(())
}

// Drops silences, each named with its tenant, all or none.
pub(crate) fn drop_silences<S: Alter>(
    conn: &mut Connection<S>,
    silences: &[(TenantName, SilenceId)],
) -> Result<(), Error>
    requires { conn.old.in_transaction ≡ false }
    ensures ok { HasCleanDisk (state S.Store conn.new) → IsStore (state S.Store conn.old).now
        → OnOk result (Commits (RemovesEach silences.now) (state S.Store conn.old) (state S.Store conn.new)) }
    ensures err { HasCleanDisk (state S.Store conn.new) → IsTrue (state S.Store conn.new).is_open
        → IsStore (state S.Store conn.old).now
        → OnErr result (IsSame (state S.Store conn.old) (state S.Store conn.new)) }
    ensures fails { HasCleanDisk (state S.Store conn.new) → IsStore (state S.Store conn.old).now
        → IfErr result (IsExcused (state S.Store conn.old) (state S.Store conn.new)) }
    ensures idle { conn.new.in_transaction ≡ false }
    ensures crash { Survives (state S.Store conn.old) (state S.Store conn.new)
        (Leaves (RemovesEach silences.now) (state S.Store conn.old)) }
{
    let _live = conn.schema();
    let _settled = conn.is_autocommit();
    let mut tx = conn.transaction();
    take_silences(&mut tx, silences)?;
    tx.commit()
}

// Takes all of a tenant out.
fn take_all<S: Alter>(tx: &mut Transaction<'_, S>, tenant: &TenantName) -> Result<(), Error>
    ensures same_reference { tx.new.conn.ghost_name ≡ tx.old.conn.ghost_name }
    ensures ok { HasCleanDisk (state S.Store tx.new.conn.now) → IsStore (state S.Store tx.old.conn.now).now
        → OnOk result (Empties tenant.now (state S.Store tx.old.conn.now).now (state S.Store tx.new.conn.now).now) }
    ensures fails { HasCleanDisk (state S.Store tx.new.conn.now) → IsReady (state S.Store tx.old.conn.now)
        → IfErr result (IsExcused (state S.Store tx.old.conn.now) (state S.Store tx.new.conn.now)) }
    ensures kept { HasCleanDisk (state S.Store tx.new.conn.now)
        → KeepsCommit (state S.Store tx.old.conn.now) (state S.Store tx.new.conn.now) }
    ensures inside { HasCleanDisk (state S.Store tx.new.conn.now)
        → OnOk result (IsTrue (state S.Store tx.old.conn.now).in_transaction
        → IsTrue (state S.Store tx.new.conn.now).in_transaction) }
    ensures survives { Survives (state S.Store tx.old.conn.now) (state S.Store tx.new.conn.now) (λ _. ⊥) }
{
    config::take_out(tx, tenant)?;
    silence::take_out_all(tx, tenant)
}

// Drops all of a tenant.
pub(crate) fn drop_tenant<S: Alter>(
    conn: &mut Connection<S>,
    tenant: &TenantName,
) -> Result<(), Error>
    requires { conn.old.in_transaction ≡ false }
    ensures ok { HasCleanDisk (state S.Store conn.new) → IsStore (state S.Store conn.old).now
        → OnOk result (Commits (Empties tenant.now) (state S.Store conn.old) (state S.Store conn.new)) }
    ensures err { HasCleanDisk (state S.Store conn.new) → IsTrue (state S.Store conn.new).is_open
        → IsStore (state S.Store conn.old).now
        → OnErr result (IsSame (state S.Store conn.old) (state S.Store conn.new)) }
    ensures fails { HasCleanDisk (state S.Store conn.new) → IsStore (state S.Store conn.old).now
        → IfErr result (IsExcused (state S.Store conn.old) (state S.Store conn.new)) }
    ensures idle { conn.new.in_transaction ≡ false }
    ensures crash { Survives (state S.Store conn.old) (state S.Store conn.new)
        (Leaves (Empties tenant.now) (state S.Store conn.old)) }
{
    let _live = conn.schema();
    let _settled = conn.is_autocommit();
    let mut tx = conn.transaction();
    take_all(&mut tx, tenant)?;
    tx.commit()
}
