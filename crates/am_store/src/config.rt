//! Configurations: their rows are read, taken out and put in.

ghost use Rattle.std.specs.Prelude.{◌≡◌, ◌⊎◌, [], ◌∷◌, filter, map, IfErr, IfOk, IfSome, IsTrue, IsUtf8, OnOk};
ghost use Rattle.std.specs.List.Sorted.{IsPermutation};
ghost use Rattle.sqlite.specs.declared.types.Value.TheVariants.{Text as Words};
ghost use Rattle.sqlite.specs.Effect.{IsDatabase};
ghost use Rattle.sqlite.specs.Held.{state};
ghost use Rattle.sqlite.specs.State.{HasCleanDisk, IsUnchanged, KeepsCommit, Survives};
ghost use Rattle.sqlite.specs.Term.{eval_all};
ghost use Rattle.sqlite.specs.Values.{bound};
ghost use Rattle.am_tenant.specs.Names.{is_tenant_name};
ghost use Rattle.am_store.specs.Failing.{IsExcused, IsPutExcused, IsReady, PutsEach, RefusesRow};
ghost use Rattle.am_rows.specs.Fit.{IsNumbered};
ghost use Rattle.am_store.specs.Rows.{IsStamp, IsStore, config_fields};
ghost use Rattle.am_store.specs.Steps.{PutsRow, Stores, TakesOut};
ghost use Rattle.am_store.specs.Stored.{ConfigurationText, stamped};
ghost use Rattle.am_store.specs.Tables.{config, store_schema};
ghost use Rattle.am_store.specs.Where.{config_stamp, hit, of_tenant};

use crate::numbers::signed;
use crate::stamps::is_reached;
use am_item::Stamp;
use am_tenant::TenantName;
use am_text::Text;
use sqlite::{Alter, Error, Row, Transaction};
use sqlite_value::value::ValueRef;

// The tenant as the one parameter.
pub(crate) fn named(tenant: &TenantName) -> [ValueRef<'_>; 1]
    ensures bound { bound result ≡ Words tenant.now ∷ [] }
    ensures name { IsTrue (is_tenant_name tenant.now) }
{
    [ValueRef::Text(tenant.as_bytes())]
}

// The columns of a configuration.
fn columns<'a>(tenant: &'a TenantName, stamp: &Stamp, body: &'a Option<Text>) -> [ValueRef<'a>; 6]
    requires { IsNumbered stamp.now }
    ensures bound { bound result ≡ config_fields tenant.now stamp.now body.now }
    ensures stamp { IsStamp stamp.now }
    ensures text { IfSome body.now IsUtf8 }
    ensures name { IsTrue (is_tenant_name tenant.now) }
{
    let body = match body {
        Some(text) => ValueRef::Blob(text.as_str().as_bytes()),
        None => ValueRef::Null,
    };
    [
        ValueRef::Text(tenant.as_bytes()),
        body,
        ValueRef::Int(signed(stamp.moment.milliseconds())),
        ValueRef::Int(i64::from(stamp.instance)),
        ValueRef::Int(i64::from(stamp.incarnation)),
        ValueRef::Int(signed(stamp.count)),
    ]
}

// The stamp of a tenant's configuration, where there is one, as rows of four columns.
fn stamps<S: Alter>(tx: &mut Transaction<'_, S>, tenant: &TenantName) -> Result<Vec<Row>, Error>
    ensures same_reference { tx.new.conn.ghost_name ≡ tx.old.conn.ghost_name }
    ensures ok { HasCleanDisk (state S.Store tx.new.conn.now) → IsStore (state S.Store tx.old.conn.now).now
        → IfOk result (λ rows. IsUnchanged (state S.Store tx.old.conn.now) (state S.Store tx.new.conn.now)
        × IsPermutation (map (λ r. eval_all config_stamp ((Words tenant.now ∷ []) ∷ r ∷ []))
        (filter (hit of_tenant (Words tenant.now ∷ [])) ((state S.Store tx.old.conn.now).now.trees 1)))
        rows.items) }
    ensures fails { HasCleanDisk (state S.Store tx.new.conn.now) → IsStore (state S.Store tx.old.conn.now).now
        → IfErr result (IsExcused (state S.Store tx.old.conn.now) (state S.Store tx.new.conn.now)) }
    ensures kept { HasCleanDisk (state S.Store tx.new.conn.now) → IsStore (state S.Store tx.old.conn.now).now
        → KeepsCommit (state S.Store tx.old.conn.now) (state S.Store tx.new.conn.now) }
    ensures inside { HasCleanDisk (state S.Store tx.new.conn.now) → IsStore (state S.Store tx.old.conn.now).now
        → OnOk result (IsTrue (state S.Store tx.old.conn.now).in_transaction
        → IsTrue (state S.Store tx.new.conn.now).in_transaction) }
    ensures survives { Survives (state S.Store tx.old.conn.now) (state S.Store tx.new.conn.now) (λ _. ⊥) }
{
    tx.query_all(
        "SELECT moment, instance, incarnation, count FROM config WHERE tenant = ?1",
        &named(tenant),
    )
}

// Takes a tenant's configuration out.
pub(crate) fn take_out<S: Alter>(
    tx: &mut Transaction<'_, S>,
    tenant: &TenantName,
) -> Result<(), Error>
    ensures same_reference { tx.new.conn.ghost_name ≡ tx.old.conn.ghost_name }
    ensures ok { HasCleanDisk (state S.Store tx.new.conn.now) → IsStore (state S.Store tx.old.conn.now).now
        → OnOk result (TakesOut 1 (hit of_tenant (Words tenant.now ∷ [])) (state S.Store tx.old.conn.now).now
        (state S.Store tx.new.conn.now).now) }
    ensures fails { HasCleanDisk (state S.Store tx.new.conn.now) → IsReady (state S.Store tx.old.conn.now)
        → IfErr result (IsExcused (state S.Store tx.old.conn.now) (state S.Store tx.new.conn.now)) }
    ensures sound { HasCleanDisk (state S.Store tx.new.conn.now) → IsReady (state S.Store tx.old.conn.now)
        → OnOk result (IsDatabase (state S.Store tx.new.conn.now).now) }
    ensures kept { HasCleanDisk (state S.Store tx.new.conn.now)
        → KeepsCommit (state S.Store tx.old.conn.now) (state S.Store tx.new.conn.now) }
    ensures inside { HasCleanDisk (state S.Store tx.new.conn.now)
        → OnOk result (IsTrue (state S.Store tx.old.conn.now).in_transaction
        → IsTrue (state S.Store tx.new.conn.now).in_transaction) }
    ensures survives { Survives (state S.Store tx.old.conn.now) (state S.Store tx.new.conn.now) (λ _. ⊥) }
{
    tx.execute("DELETE FROM config WHERE tenant = ?1", &named(tenant))?;
    Ok(())
}

// Puts a configuration in.
fn put_in<S: Alter>(
    tx: &mut Transaction<'_, S>,
    tenant: &TenantName,
    stamp: &Stamp,
    body: &Option<Text>,
) -> Result<(), Error>
    requires { IsNumbered stamp.now }
    ensures stamp { IsStamp stamp.now }
    ensures text { IfSome body.now IsUtf8 }
    ensures name { IsTrue (is_tenant_name tenant.now) }
    ensures same_reference { tx.new.conn.ghost_name ≡ tx.old.conn.ghost_name }
    ensures ok { HasCleanDisk (state S.Store tx.new.conn.now)
        → (state S.Store tx.old.conn.now).now.schema ≡ store_schema
        → OnOk result (PutsRow 1 (config_fields tenant.now stamp.now body.now) (state S.Store tx.old.conn.now).now
        (state S.Store tx.new.conn.now).now) }
    ensures fails { HasCleanDisk (state S.Store tx.new.conn.now) → IsReady (state S.Store tx.old.conn.now)
        → IfErr result (λ e. IsExcused (state S.Store tx.old.conn.now) (state S.Store tx.new.conn.now) e
        ⊎ RefusesRow (config 1) (config_fields tenant.now stamp.now body.now)
        (state S.Store tx.old.conn.now).now.trees) }
    ensures sound { HasCleanDisk (state S.Store tx.new.conn.now) → IsReady (state S.Store tx.old.conn.now)
        → OnOk result (IsDatabase (state S.Store tx.new.conn.now).now) }
    ensures kept { HasCleanDisk (state S.Store tx.new.conn.now)
        → KeepsCommit (state S.Store tx.old.conn.now) (state S.Store tx.new.conn.now) }
    ensures inside { HasCleanDisk (state S.Store tx.new.conn.now)
        → OnOk result (IsTrue (state S.Store tx.old.conn.now).in_transaction
        → IsTrue (state S.Store tx.new.conn.now).in_transaction) }
    ensures survives { Survives (state S.Store tx.old.conn.now) (state S.Store tx.new.conn.now) (λ _. ⊥) }
{
    tx.execute(
        "INSERT INTO config VALUES (?1, ?2, ?3, ?4, ?5, ?6)",
        &columns(tenant, stamp, body),
    )?;
    Ok(())
}

// Puts a tenant's configuration in place of the one that is there, unless that one's stamp reaches its own.
pub(crate) fn put<S: Alter>(
    tx: &mut Transaction<'_, S>,
    tenant: &TenantName,
    stamp: &Stamp,
    body: &Option<Text>,
) -> Result<(), Error>
    requires { IsNumbered stamp.now }
    ensures same_reference { tx.new.conn.ghost_name ≡ tx.old.conn.ghost_name }
    ensures ok { HasCleanDisk (state S.Store tx.new.conn.now) → IsStore (state S.Store tx.old.conn.now).now
        → OnOk result (Stores tenant.now (stamped stamp.now (ConfigurationText body.now) ∷ [])
        (state S.Store tx.old.conn.now).now (state S.Store tx.new.conn.now).now) }
    ensures fails { HasCleanDisk (state S.Store tx.new.conn.now) → IsReady (state S.Store tx.old.conn.now)
        → IfErr result (IsPutExcused tenant.now (stamped stamp.now (ConfigurationText body.now) ∷ [])
        (state S.Store tx.old.conn.now) (state S.Store tx.new.conn.now)) }
    ensures sound { HasCleanDisk (state S.Store tx.new.conn.now) → IsReady (state S.Store tx.old.conn.now)
        → OnOk result (IsDatabase (state S.Store tx.new.conn.now).now) }
    ensures puts { HasCleanDisk (state S.Store tx.new.conn.now) → IsStore (state S.Store tx.old.conn.now).now
        → OnOk result (PutsEach tenant.now (stamped stamp.now (ConfigurationText body.now) ∷ [])
        (state S.Store tx.old.conn.now).now (state S.Store tx.new.conn.now).now) }
    ensures kept { HasCleanDisk (state S.Store tx.new.conn.now) → IsStore (state S.Store tx.old.conn.now).now
        → KeepsCommit (state S.Store tx.old.conn.now) (state S.Store tx.new.conn.now) }
    ensures inside { HasCleanDisk (state S.Store tx.new.conn.now) → IsStore (state S.Store tx.old.conn.now).now
        → OnOk result (IsTrue (state S.Store tx.old.conn.now).in_transaction
        → IsTrue (state S.Store tx.new.conn.now).in_transaction) }
    ensures survives { Survives (state S.Store tx.old.conn.now) (state S.Store tx.new.conn.now) (λ _. ⊥) }
{
    let rows = stamps(tx, tenant)?;
    if is_reached(&rows, stamp)? {
        return Ok(());
    }
    take_out(tx, tenant)?;
    put_in(tx, tenant, stamp, body)
}
