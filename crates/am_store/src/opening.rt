//! Opening: a blank database gets its tables, and the rows of one that has them are tested.

ghost use Rattle.std.specs.Prelude.{◌≡◌, [], ◌∷◌, false, pos, All, IfErr, IsTrue, OnErr, OnOk};
ghost use Rattle.sqlite.specs.declared.types.Value.TheVariants.{Int};
ghost use Rattle.sqlite.specs.Effect.{IsDatabase};
ghost use Rattle.sqlite.specs.Held.{state};
ghost use Rattle.sqlite.specs.State.{HasCleanDisk, IsUnchanged, KeepsCommit, Survives};
ghost use Rattle.am_store.specs.Apart.{HasId};
ghost use Rattle.am_store.specs.Failing.{FailsToOpen, IsExcused};
ghost use Rattle.am_store.specs.Opening.{AreRising, AreRowsOf, Founds, HasNoRows, HasVersion, IsVersionRow, LeavesNew};
ghost use Rattle.am_store.specs.Opening.{MakesTable, Opens, Rests};
ghost use Rattle.am_store.specs.Reading.{GivesValue, RefusesForeign};
ghost use Rattle.am_store.specs.Rows.{IsConfig, IsSilenceRow, IsStore};
ghost use Rattle.am_store.specs.Steps.{Commits, IsSame, Leaves, PutsRow};
ghost use Rattle.am_store.specs.Tables.{config, no_schema, one_table, silence, store_schema, two_tables, version};

use crate::query;
use crate::reading::{or_foreign, read_config, read_silence};
use crate::refusal::failure_of;
use crate::schema::{is_blank, is_store};
use am_rows::StoreRefusal;
use am_text::Failure;
use sqlite::{Alter, Connection, Error, Row, Transaction};
use sqlite_value::value::ValueRef;
use std::alloc::Global;

// Makes the table of the version.
fn make_version<S: Alter>(tx: &mut Transaction<'_, S>) -> Result<(), Error>
    ensures same_reference { tx.new.conn.ghost_name ≡ tx.old.conn.ghost_name }
    ensures ok { HasCleanDisk (state S.Store tx.new.conn.now)
        → (state S.Store tx.old.conn.now).now.schema ≡ no_schema
        → OnOk result (MakesTable no_schema (version 0) (state S.Store tx.old.conn.now).now
        (state S.Store tx.new.conn.now).now) }
    ensures fails { HasCleanDisk (state S.Store tx.new.conn.now)
        → IsTrue (state S.Store tx.old.conn.now).in_transaction
        → (state S.Store tx.old.conn.now).now.schema ≡ no_schema
        → IfErr result (IsExcused (state S.Store tx.old.conn.now) (state S.Store tx.new.conn.now)) }
    ensures kept { HasCleanDisk (state S.Store tx.new.conn.now)
        → KeepsCommit (state S.Store tx.old.conn.now) (state S.Store tx.new.conn.now) }
    ensures inside { HasCleanDisk (state S.Store tx.new.conn.now)
        → OnOk result (IsTrue (state S.Store tx.old.conn.now).in_transaction
        → IsTrue (state S.Store tx.new.conn.now).in_transaction) }
    ensures survives { Survives (state S.Store tx.old.conn.now) (state S.Store tx.new.conn.now) (λ _. ⊥) }
{
    tx.execute("CREATE TABLE version (n INTEGER NOT NULL)", &[])?;
    Ok(())
}

// Makes the table of the configurations.
fn make_config<S: Alter>(tx: &mut Transaction<'_, S>) -> Result<(), Error>
    ensures same_reference { tx.new.conn.ghost_name ≡ tx.old.conn.ghost_name }
    ensures ok { HasCleanDisk (state S.Store tx.new.conn.now)
        → (state S.Store tx.old.conn.now).now.schema ≡ one_table
        → OnOk result (MakesTable one_table (config 0) (state S.Store tx.old.conn.now).now
        (state S.Store tx.new.conn.now).now) }
    ensures fails { HasCleanDisk (state S.Store tx.new.conn.now)
        → IsTrue (state S.Store tx.old.conn.now).in_transaction
        → (state S.Store tx.old.conn.now).now.schema ≡ one_table
        → IfErr result (IsExcused (state S.Store tx.old.conn.now) (state S.Store tx.new.conn.now)) }
    ensures kept { HasCleanDisk (state S.Store tx.new.conn.now)
        → KeepsCommit (state S.Store tx.old.conn.now) (state S.Store tx.new.conn.now) }
    ensures inside { HasCleanDisk (state S.Store tx.new.conn.now)
        → OnOk result (IsTrue (state S.Store tx.old.conn.now).in_transaction
        → IsTrue (state S.Store tx.new.conn.now).in_transaction) }
    ensures survives { Survives (state S.Store tx.old.conn.now) (state S.Store tx.new.conn.now) (λ _. ⊥) }
{
    tx.execute(
        "CREATE TABLE config (tenant TEXT NOT NULL PRIMARY KEY, body BLOB, moment INTEGER NOT NULL, \
         instance INTEGER NOT NULL, incarnation INTEGER NOT NULL, count INTEGER NOT NULL)",
        &[],
    )?;
    Ok(())
}

// Makes the table of the silences.
fn make_silence<S: Alter>(tx: &mut Transaction<'_, S>) -> Result<(), Error>
    ensures same_reference { tx.new.conn.ghost_name ≡ tx.old.conn.ghost_name }
    ensures ok { HasCleanDisk (state S.Store tx.new.conn.now)
        → (state S.Store tx.old.conn.now).now.schema ≡ two_tables
        → OnOk result (MakesTable two_tables (silence 0) (state S.Store tx.old.conn.now).now
        (state S.Store tx.new.conn.now).now) }
    ensures fails { HasCleanDisk (state S.Store tx.new.conn.now)
        → IsTrue (state S.Store tx.old.conn.now).in_transaction
        → (state S.Store tx.old.conn.now).now.schema ≡ two_tables
        → IfErr result (IsExcused (state S.Store tx.old.conn.now) (state S.Store tx.new.conn.now)) }
    ensures kept { HasCleanDisk (state S.Store tx.new.conn.now)
        → KeepsCommit (state S.Store tx.old.conn.now) (state S.Store tx.new.conn.now) }
    ensures inside { HasCleanDisk (state S.Store tx.new.conn.now)
        → OnOk result (IsTrue (state S.Store tx.old.conn.now).in_transaction
        → IsTrue (state S.Store tx.new.conn.now).in_transaction) }
    ensures survives { Survives (state S.Store tx.old.conn.now) (state S.Store tx.new.conn.now) (λ _. ⊥) }
{
    tx.execute(
        "CREATE TABLE silence (tenant TEXT NOT NULL, id TEXT NOT NULL, starts INTEGER NOT NULL, \
         ends INTEGER NOT NULL, kept INTEGER NOT NULL, author BLOB NOT NULL, comment BLOB NOT NULL, \
         matchers BLOB NOT NULL, moment INTEGER NOT NULL, instance INTEGER NOT NULL, \
         incarnation INTEGER NOT NULL, count INTEGER NOT NULL, PRIMARY KEY (tenant, id))",
        &[],
    )?;
    Ok(())
}

// Puts the version in.
fn put_version<S: Alter>(tx: &mut Transaction<'_, S>) -> Result<(), Error>
    ensures same_reference { tx.new.conn.ghost_name ≡ tx.old.conn.ghost_name }
    ensures ok { HasCleanDisk (state S.Store tx.new.conn.now)
        → (state S.Store tx.old.conn.now).now.schema ≡ store_schema
        → OnOk result (PutsRow 0 (Int (pos 1) ∷ []) (state S.Store tx.old.conn.now).now
        (state S.Store tx.new.conn.now).now) }
    ensures fails { HasCleanDisk (state S.Store tx.new.conn.now)
        → IsTrue (state S.Store tx.old.conn.now).in_transaction
        → HasNoRows (state S.Store tx.old.conn.now).now
        → IfErr result (IsExcused (state S.Store tx.old.conn.now) (state S.Store tx.new.conn.now)) }
    ensures kept { HasCleanDisk (state S.Store tx.new.conn.now)
        → KeepsCommit (state S.Store tx.old.conn.now) (state S.Store tx.new.conn.now) }
    ensures inside { HasCleanDisk (state S.Store tx.new.conn.now)
        → OnOk result (IsTrue (state S.Store tx.old.conn.now).in_transaction
        → IsTrue (state S.Store tx.new.conn.now).in_transaction) }
    ensures survives { Survives (state S.Store tx.old.conn.now) (state S.Store tx.new.conn.now) (λ _. ⊥) }
{
    tx.execute("INSERT INTO version VALUES (?1)", &[ValueRef::Int(1)])?;
    Ok(())
}

// Makes the tables of a store, and puts its version in.
fn make_tables<S: Alter>(tx: &mut Transaction<'_, S>) -> Result<(), Error>
    ensures same_reference { tx.new.conn.ghost_name ≡ tx.old.conn.ghost_name }
    ensures ok { HasCleanDisk (state S.Store tx.new.conn.now)
        → (state S.Store tx.old.conn.now).now.schema ≡ no_schema
        → OnOk result (Founds (state S.Store tx.old.conn.now).now (state S.Store tx.new.conn.now).now) }
    ensures fails { HasCleanDisk (state S.Store tx.new.conn.now)
        → IsTrue (state S.Store tx.old.conn.now).in_transaction
        → (state S.Store tx.old.conn.now).now.schema ≡ no_schema
        → IfErr result (IsExcused (state S.Store tx.old.conn.now) (state S.Store tx.new.conn.now)) }
    ensures kept { HasCleanDisk (state S.Store tx.new.conn.now)
        → KeepsCommit (state S.Store tx.old.conn.now) (state S.Store tx.new.conn.now) }
    ensures inside { HasCleanDisk (state S.Store tx.new.conn.now)
        → OnOk result (IsTrue (state S.Store tx.old.conn.now).in_transaction
        → IsTrue (state S.Store tx.new.conn.now).in_transaction) }
    ensures survives { Survives (state S.Store tx.old.conn.now) (state S.Store tx.new.conn.now) (λ _. ⊥) }
{
    make_version(tx)?;
    make_config(tx)?;
    make_silence(tx)?;
    put_version(tx)
}

// Makes a store of a blank database, and commits it.
fn found<S: Alter>(conn: &mut Connection<S>) -> Result<(), Error>
    requires idle { conn.old.in_transaction ≡ false }
    requires blank { (state S.Store conn.old).now.schema ≡ no_schema }
    ensures ok { HasCleanDisk (state S.Store conn.new)
        → OnOk result (Commits Founds (state S.Store conn.old) (state S.Store conn.new)) }
    ensures err { HasCleanDisk (state S.Store conn.new) → IsTrue (state S.Store conn.new).is_open
        → OnErr result (IsSame (state S.Store conn.old) (state S.Store conn.new)) }
    ensures fails { HasCleanDisk (state S.Store conn.new)
        → IfErr result (IsExcused (state S.Store conn.old) (state S.Store conn.new)) }
    ensures idle { conn.new.in_transaction ≡ false }
    ensures crash { Survives (state S.Store conn.old) (state S.Store conn.new) (LeavesNew (state S.Store conn.old)) }
{
    let _settled = conn.is_autocommit();
    let mut tx = conn.transaction();
    make_tables(&mut tx)?;
    tx.commit()
}

// Tests that a row is that of the version 1.
fn test_version(row: &Row) -> Result<(), Failure<StoreRefusal>>
    ensures ok { OnOk result (IsVersionRow row.now) }
    ensures given { IsVersionRow row.now → GivesValue result }
    ensures foreign { RefusesForeign result }
{
    let _rowid: i64 = or_foreign(row.get(0))?;
    let number: u64 = or_foreign(row.get(1))?;
    if number == 1 {
        Ok(())
    } else {
        Err(Failure::Refused(StoreRefusal::Foreign))
    }
}

// Tests that each row is that of a configuration.
fn test_configs(alloc: Global, rows: &[Row]) -> Result<(), Failure<StoreRefusal>>
    ensures ok { OnOk result (All IsConfig rows.now) }
    ensures given { All IsConfig rows.now → GivesValue result }
    ensures foreign { RefusesForeign result }
{
    for row in rows {
        read_config(alloc, row)?;
    }
    Ok(())
}

// Tests that each row is that of a silence.
fn test_silences(alloc: Global, rows: &[Row]) -> Result<(), Failure<StoreRefusal>>
    ensures ok { OnOk result (All IsSilenceRow rows.now) }
    ensures given { All IsSilenceRow rows.now → GivesValue result }
    ensures foreign { RefusesForeign result }
{
    for row in rows {
        read_silence(alloc, row)?;
    }
    Ok(())
}

// Tests that the rowids rise.
fn test_rowids(rows: &[Row]) -> Result<(), Failure<StoreRefusal>>
    ensures ok { OnOk result (AreRising rows.now) }
    ensures given { All HasId rows.now → AreRising rows.now → GivesValue result }
    ensures foreign { RefusesForeign result }
{
    for at in 1..rows.len() {
        let last: i64 = or_foreign(rows[at - 1].get(0))?;
        let next: i64 = or_foreign(rows[at].get(0))?;
        if next <= last {
            return Err(Failure::Refused(StoreRefusal::Foreign));
        }
    }
    Ok(())
}

// Tests the version.
fn check_version<S: Alter>(conn: &mut Connection<S>) -> Result<(), Failure<StoreRefusal>>
    ensures rests { (HasCleanDisk (state S.Store conn.new) → (state S.Store conn.old).now.schema ≡ store_schema)
        → Rests (state S.Store conn.old) (state S.Store conn.new) }
    ensures clean { HasCleanDisk (state S.Store conn.new) → HasCleanDisk (state S.Store conn.old) }
    ensures ok { HasCleanDisk (state S.Store conn.new) → (state S.Store conn.old).now.schema ≡ store_schema
        → OnOk result (IsUnchanged (state S.Store conn.old) (state S.Store conn.new)
        × (IsDatabase (state S.Store conn.old).now → HasVersion (state S.Store conn.old).now.trees)) }
    ensures fails { HasCleanDisk (state S.Store conn.new) → (state S.Store conn.old).now.schema ≡ store_schema
        → FailsToOpen (state S.Store conn.old) (state S.Store conn.new) result }
    ensures idle { conn.old.in_transaction ≡ false → conn.new.in_transaction ≡ false }
{
    let rows = query::rows(conn, "SELECT rowid, n FROM version", &[])?;
    if rows.len() != 1 {
        return Err(Failure::Refused(StoreRefusal::Foreign));
    }
    test_version(&rows[0])
}

// Tests the configurations.
fn check_configs<S: Alter>(
    alloc: Global,
    conn: &mut Connection<S>,
) -> Result<(), Failure<StoreRefusal>>
    ensures rests { (HasCleanDisk (state S.Store conn.new) → (state S.Store conn.old).now.schema ≡ store_schema)
        → Rests (state S.Store conn.old) (state S.Store conn.new) }
    ensures clean { HasCleanDisk (state S.Store conn.new) → HasCleanDisk (state S.Store conn.old) }
    ensures ok { HasCleanDisk (state S.Store conn.new) → (state S.Store conn.old).now.schema ≡ store_schema
        → OnOk result (IsUnchanged (state S.Store conn.old) (state S.Store conn.new)
        × (IsDatabase (state S.Store conn.old).now → AreRowsOf IsConfig ((state S.Store conn.old).now.trees 1))) }
    ensures fails { HasCleanDisk (state S.Store conn.new) → (state S.Store conn.old).now.schema ≡ store_schema
        → FailsToOpen (state S.Store conn.old) (state S.Store conn.new) result }
    ensures idle { conn.old.in_transaction ≡ false → conn.new.in_transaction ≡ false }
{
    let rows = query::rows(
        conn,
        "SELECT rowid, tenant, body, moment, instance, incarnation, count FROM config ORDER BY rowid",
        &[],
    )?;
    test_configs(alloc, &rows)?;
    test_rowids(&rows)
}

// Tests the silences.
fn check_silences<S: Alter>(
    alloc: Global,
    conn: &mut Connection<S>,
) -> Result<(), Failure<StoreRefusal>>
    ensures rests { (HasCleanDisk (state S.Store conn.new) → (state S.Store conn.old).now.schema ≡ store_schema)
        → Rests (state S.Store conn.old) (state S.Store conn.new) }
    ensures clean { HasCleanDisk (state S.Store conn.new) → HasCleanDisk (state S.Store conn.old) }
    ensures ok { HasCleanDisk (state S.Store conn.new) → (state S.Store conn.old).now.schema ≡ store_schema
        → OnOk result (IsUnchanged (state S.Store conn.old) (state S.Store conn.new)
        × (IsDatabase (state S.Store conn.old).now → AreRowsOf IsSilenceRow ((state S.Store conn.old).now.trees 3))) }
    ensures fails { HasCleanDisk (state S.Store conn.new) → (state S.Store conn.old).now.schema ≡ store_schema
        → FailsToOpen (state S.Store conn.old) (state S.Store conn.new) result }
    ensures idle { conn.old.in_transaction ≡ false → conn.new.in_transaction ≡ false }
{
    let rows = query::rows(
        conn,
        "SELECT rowid, tenant, id, starts, ends, kept, author, comment, matchers, \
         moment, instance, incarnation, count FROM silence ORDER BY rowid",
        &[],
    )?;
    test_silences(alloc, &rows)?;
    test_rowids(&rows)
}

// Tests that a database with tables is a store.
fn check<S: Alter>(alloc: Global, conn: &mut Connection<S>) -> Result<(), Failure<StoreRefusal>>
    ensures rests { Rests (state S.Store conn.old) (state S.Store conn.new) }
    ensures ok { HasCleanDisk (state S.Store conn.new)
        → OnOk result (IsStore (state S.Store conn.old).now
        × IsUnchanged (state S.Store conn.old) (state S.Store conn.new)) }
    ensures fails { HasCleanDisk (state S.Store conn.new)
        → FailsToOpen (state S.Store conn.old) (state S.Store conn.new) result }
    ensures idle { conn.old.in_transaction ≡ false → conn.new.in_transaction ≡ false }
{
    if !is_store(alloc, conn.schema())? {
        return Err(Failure::Refused(StoreRefusal::Foreign));
    }
    check_version(conn)?;
    check_configs(alloc, conn)?;
    check_silences(alloc, conn)
}

// Opens a store.
pub(crate) fn open<S: Alter>(
    alloc: Global,
    conn: &mut Connection<S>,
) -> Result<(), Failure<StoreRefusal>>
    requires { conn.old.in_transaction ≡ false }
    ensures ok { HasCleanDisk (state S.Store conn.new)
        → OnOk result (Opens (state S.Store conn.old) (state S.Store conn.new)) }
    ensures err { HasCleanDisk (state S.Store conn.new) → IsTrue (state S.Store conn.new).is_open
        → OnErr result (IsSame (state S.Store conn.old) (state S.Store conn.new)) }
    ensures used { IfErr result (λ failure. failure ≡ Failure.Refused StoreRefusal.Foreign
        → (state S.Store conn.old).now.schema ≡ no_schema → ⊥) }
    ensures fails { HasCleanDisk (state S.Store conn.new)
        → FailsToOpen (state S.Store conn.old) (state S.Store conn.new) result }
    ensures idle { conn.new.in_transaction ≡ false }
    ensures crash { Survives (state S.Store conn.old) (state S.Store conn.new) (LeavesNew (state S.Store conn.old)) }
{
    let _settled = conn.is_autocommit();
    if !is_blank(conn.schema()) {
        return check(alloc, conn);
    }
    match found(conn) {
        Ok(()) => Ok(()),
        Err(error) => Err(failure_of(error)),
    }
}
