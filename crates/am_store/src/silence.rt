//! Silences: their rows are read, taken out and put in.

ghost use Rattle.std.specs.Prelude.{◌≡◌, ◌⊎◌, ◌≤◌, [], ◌∷◌, filter, length, map, IfErr, IfOk, IsTrue, OnOk, Some};
ghost use Rattle.std.specs.List.Sorted.{IsPermutation};
ghost use Rattle.sqlite.specs.declared.types.Value.TheVariants.{Text as Words};
ghost use Rattle.sqlite.specs.Effect.{IsDatabase};
ghost use Rattle.sqlite.specs.Held.{state};
ghost use Rattle.sqlite.specs.State.{HasCleanDisk, IsUnchanged, KeepsCommit, Survives};
ghost use Rattle.sqlite.specs.Term.{eval_all};
ghost use Rattle.sqlite.specs.Values.{bound};
ghost use Rattle.uuid.specs.Text.{parsed};
ghost use Rattle.am_match.specs.Spelling.{IsSpellable, Spells};
ghost use Rattle.am_tenant.specs.Names.{is_tenant_name};
ghost use Rattle.am_store.specs.Failing.{IsExcused, IsPutExcused, IsReady, PutsEach, RefusesRow};
ghost use Rattle.am_store.specs.Reading.{GivesColumn};
ghost use Rattle.am_rows.specs.Fit.{IsNumbered};
ghost use Rattle.am_store.specs.Rows.{IsSilence, IsStamp, IsStore, id_text, silence_fields};
ghost use Rattle.am_store.specs.Steps.{PutsRow, Stores, TakesOut};
ghost use Rattle.am_store.specs.Stored.{SilenceWords, stamped, words_of};
ghost use Rattle.am_store.specs.Tables.{silence as silence_table, store_schema};
ghost use Rattle.am_store.specs.Where.{hit, of_silence, of_tenant, silence_stamp};

use crate::config::named;
use crate::numbers::signed;
use crate::stamps::is_reached;
use am_item::{SilenceDetails, SilenceId, Stamp};
use am_match::{Matcher, SpellRefusal, spell_matchers};
use am_tenant::TenantName;
use am_text::{Failure, Octets};
use sqlite::{Alter, Error, ErrorCode, Row, Transaction};
use sqlite_value::value::ValueRef;
use std::alloc::Global;
use uuid::Uuid;

// The tenant and the identifier as the two parameters.
fn keyed<'a>(tenant: &'a TenantName, id: &'a str) -> [ValueRef<'a>; 2]
    ensures { bound result ≡ Words tenant.now ∷ Words id.now ∷ [] }
{
    [
        ValueRef::Text(tenant.as_bytes()),
        ValueRef::Text(id.as_bytes()),
    ]
}

// The text of an identifier, in the buffer.
pub(crate) fn text_of<'b>(id: &SilenceId, buffer: &'b mut [u8]) -> &'b str
    requires { 36 ≤ length buffer.old }
    ensures text { result.now ≡ id_text id.now }
    ensures back { parsed (id_text id.now) ≡ Some id.now }
{
    Uuid::from_bytes(*id.as_bytes())
        .hyphenated()
        .encode_lower(buffer)
}

// The bytes that spell the matchers.
fn spelled(alloc: Global, matchers: &[Matcher]) -> Result<Octets, Error>
    requires { IsSpellable matchers.now }
    ensures given { GivesColumn result }
    ensures spelled { IfOk result (λ bytes. Spells bytes matchers.now) }
{
    match spell_matchers(alloc, matchers) {
        Ok(bytes) => Ok(bytes),
        Err(Failure::OutOfMemory) => Err(Error::SqliteFailure(ErrorCode::OutOfMemory)),
        Err(Failure::Refused(SpellRefusal::TooLong)) => unreachable!(),
    }
}

// The columns of a silence.
fn columns<'a>(
    tenant: &'a TenantName,
    stamp: &Stamp,
    id: &SilenceId,
    silence: &'a SilenceDetails,
    text: &'a str,
    matchers: &'a Octets,
) -> [ValueRef<'a>; 12]
    requires stamp { IsNumbered stamp.now }
    requires text { text.now ≡ id_text id.now }
    requires back { parsed (id_text id.now) ≡ Some id.now }
    requires matchers { Spells matchers.now silence.now.matchers }
    ensures stamp { IsStamp stamp.now }
    ensures valid { IsSilence (words_of id.now silence.now) }
    ensures bound { bound result ≡ silence_fields tenant.now stamp.now (words_of id.now silence.now) }
    ensures name { IsTrue (is_tenant_name tenant.now) }
{
    [
        ValueRef::Text(tenant.as_bytes()),
        ValueRef::Text(text.as_bytes()),
        ValueRef::Int(signed(silence.starts_at.milliseconds())),
        ValueRef::Int(signed(silence.ends_at.milliseconds())),
        ValueRef::Int(signed(silence.kept_until.milliseconds())),
        ValueRef::Blob(silence.created_by.as_str().as_bytes()),
        ValueRef::Blob(silence.comment.as_str().as_bytes()),
        ValueRef::Blob(matchers.as_slice()),
        ValueRef::Int(signed(stamp.moment.milliseconds())),
        ValueRef::Int(i64::from(stamp.instance)),
        ValueRef::Int(i64::from(stamp.incarnation)),
        ValueRef::Int(signed(stamp.count)),
    ]
}

// The stamp of a tenant's silence, where there is one, as rows of four columns.
fn stamps<S: Alter>(
    tx: &mut Transaction<'_, S>,
    tenant: &TenantName,
    id: &str,
) -> Result<Vec<Row>, Error>
    ensures same_reference { tx.new.conn.ghost_name ≡ tx.old.conn.ghost_name }
    ensures ok { HasCleanDisk (state S.Store tx.new.conn.now) → IsStore (state S.Store tx.old.conn.now).now
        → IfOk result (λ rows. IsUnchanged (state S.Store tx.old.conn.now) (state S.Store tx.new.conn.now)
        × IsPermutation (map (λ r. eval_all silence_stamp ((Words tenant.now ∷ Words id.now ∷ []) ∷ r ∷ []))
        (filter (hit of_silence (Words tenant.now ∷ Words id.now ∷ []))
        ((state S.Store tx.old.conn.now).now.trees 3)))
        rows.items) }
    ensures fails { HasCleanDisk (state S.Store tx.new.conn.now) → IsStore (state S.Store tx.old.conn.now).now
        → IfErr result (IsExcused (state S.Store tx.old.conn.now) (state S.Store tx.new.conn.now)) }
    ensures kept { HasCleanDisk (state S.Store tx.new.conn.now) → IsStore (state S.Store tx.old.conn.now).now
        → KeepsCommit (state S.Store tx.old.conn.now) (state S.Store tx.new.conn.now) }
    ensures inside { HasCleanDisk (state S.Store tx.new.conn.now) → IsStore (state S.Store tx.old.conn.now).now
        → OnOk result (IsTrue (state S.Store tx.old.conn.now).in_transaction
        → IsTrue (state S.Store tx.new.conn.now).in_transaction) }
    ensures survives { Survives (state S.Store tx.old.conn.now) (state S.Store tx.new.conn.now) (λ _. ⊥) }
{
    tx.query_all(
        "SELECT moment, instance, incarnation, count FROM silence WHERE tenant = ?1 AND id = ?2",
        &keyed(tenant, id),
    )
}

// Takes a tenant's silence out.
pub(crate) fn take_out<S: Alter>(
    tx: &mut Transaction<'_, S>,
    tenant: &TenantName,
    id: &str,
) -> Result<(), Error>
    ensures same_reference { tx.new.conn.ghost_name ≡ tx.old.conn.ghost_name }
    ensures ok { HasCleanDisk (state S.Store tx.new.conn.now) → IsStore (state S.Store tx.old.conn.now).now
        → OnOk result (TakesOut 3 (hit of_silence (Words tenant.now ∷ Words id.now ∷ []))
        (state S.Store tx.old.conn.now).now (state S.Store tx.new.conn.now).now) }
    ensures fails { HasCleanDisk (state S.Store tx.new.conn.now) → IsReady (state S.Store tx.old.conn.now)
        → IfErr result (IsExcused (state S.Store tx.old.conn.now) (state S.Store tx.new.conn.now)) }
    ensures sound { HasCleanDisk (state S.Store tx.new.conn.now) → IsReady (state S.Store tx.old.conn.now)
        → OnOk result (IsDatabase (state S.Store tx.new.conn.now).now) }
    ensures kept { HasCleanDisk (state S.Store tx.new.conn.now)
        → KeepsCommit (state S.Store tx.old.conn.now) (state S.Store tx.new.conn.now) }
    ensures inside { HasCleanDisk (state S.Store tx.new.conn.now)
        → OnOk result (IsTrue (state S.Store tx.old.conn.now).in_transaction
        → IsTrue (state S.Store tx.new.conn.now).in_transaction) }
    ensures survives { Survives (state S.Store tx.old.conn.now) (state S.Store tx.new.conn.now) (λ _. ⊥) }
{
    tx.execute(
        "DELETE FROM silence WHERE tenant = ?1 AND id = ?2",
        &keyed(tenant, id),
    )?;
    Ok(())
}

// Takes all silences of a tenant out.
pub(crate) fn take_out_all<S: Alter>(
    tx: &mut Transaction<'_, S>,
    tenant: &TenantName,
) -> Result<(), Error>
    ensures same_reference { tx.new.conn.ghost_name ≡ tx.old.conn.ghost_name }
    ensures ok { HasCleanDisk (state S.Store tx.new.conn.now) → IsStore (state S.Store tx.old.conn.now).now
        → OnOk result (TakesOut 3 (hit of_tenant (Words tenant.now ∷ [])) (state S.Store tx.old.conn.now).now
        (state S.Store tx.new.conn.now).now) }
    ensures fails { HasCleanDisk (state S.Store tx.new.conn.now) → IsReady (state S.Store tx.old.conn.now)
        → IfErr result (IsExcused (state S.Store tx.old.conn.now) (state S.Store tx.new.conn.now)) }
    ensures kept { HasCleanDisk (state S.Store tx.new.conn.now)
        → KeepsCommit (state S.Store tx.old.conn.now) (state S.Store tx.new.conn.now) }
    ensures inside { HasCleanDisk (state S.Store tx.new.conn.now)
        → OnOk result (IsTrue (state S.Store tx.old.conn.now).in_transaction
        → IsTrue (state S.Store tx.new.conn.now).in_transaction) }
    ensures survives { Survives (state S.Store tx.old.conn.now) (state S.Store tx.new.conn.now) (λ _. ⊥) }
{
    tx.execute("DELETE FROM silence WHERE tenant = ?1", &named(tenant))?;
    Ok(())
}

// Puts a silence in.
fn put_in<S: Alter>(
    tx: &mut Transaction<'_, S>,
    tenant: &TenantName,
    stamp: &Stamp,
    id: &SilenceId,
    silence: &SilenceDetails,
    text: &str,
    matchers: &Octets,
) -> Result<(), Error>
    requires stamp { IsNumbered stamp.now }
    requires text { text.now ≡ id_text id.now }
    requires back { parsed (id_text id.now) ≡ Some id.now }
    requires matchers { Spells matchers.now silence.now.matchers }
    ensures stamp { IsStamp stamp.now }
    ensures valid { IsSilence (words_of id.now silence.now) }
    ensures name { IsTrue (is_tenant_name tenant.now) }
    ensures same_reference { tx.new.conn.ghost_name ≡ tx.old.conn.ghost_name }
    ensures ok { HasCleanDisk (state S.Store tx.new.conn.now)
        → (state S.Store tx.old.conn.now).now.schema ≡ store_schema
        → OnOk result (PutsRow 3 (silence_fields tenant.now stamp.now (words_of id.now silence.now))
        (state S.Store tx.old.conn.now).now (state S.Store tx.new.conn.now).now) }
    ensures fails { HasCleanDisk (state S.Store tx.new.conn.now) → IsReady (state S.Store tx.old.conn.now)
        → IfErr result (λ e. IsExcused (state S.Store tx.old.conn.now) (state S.Store tx.new.conn.now) e
        ⊎ RefusesRow (silence_table 3) (silence_fields tenant.now stamp.now (words_of id.now silence.now))
        (state S.Store tx.old.conn.now).now.trees) }
    ensures sound { HasCleanDisk (state S.Store tx.new.conn.now) → IsReady (state S.Store tx.old.conn.now)
        → OnOk result (IsDatabase (state S.Store tx.new.conn.now).now) }
    ensures kept { HasCleanDisk (state S.Store tx.new.conn.now)
        → KeepsCommit (state S.Store tx.old.conn.now) (state S.Store tx.new.conn.now) }
    ensures inside { HasCleanDisk (state S.Store tx.new.conn.now)
        → OnOk result (IsTrue (state S.Store tx.old.conn.now).in_transaction
        → IsTrue (state S.Store tx.new.conn.now).in_transaction) }
    ensures survives { Survives (state S.Store tx.old.conn.now) (state S.Store tx.new.conn.now) (λ _. ⊥) }
{
    tx.execute(
        "INSERT INTO silence VALUES (?1, ?2, ?3, ?4, ?5, ?6, ?7, ?8, ?9, ?10, ?11, ?12)",
        &columns(tenant, stamp, id, silence, text, matchers),
    )?;
    Ok(())
}

// Puts a tenant's silence in place of the one of its identifier, unless that one's stamp reaches its own.
pub(crate) fn put<S: Alter>(
    alloc: Global,
    tx: &mut Transaction<'_, S>,
    tenant: &TenantName,
    stamp: &Stamp,
    id: &SilenceId,
    silence: &SilenceDetails,
) -> Result<(), Error>
    requires stamp { IsNumbered stamp.now }
    requires matchers { IsSpellable silence.now.matchers }
    ensures same_reference { tx.new.conn.ghost_name ≡ tx.old.conn.ghost_name }
    ensures ok { HasCleanDisk (state S.Store tx.new.conn.now) → IsStore (state S.Store tx.old.conn.now).now
        → OnOk result (Stores tenant.now (stamped stamp.now (SilenceWords (words_of id.now silence.now)) ∷ [])
        (state S.Store tx.old.conn.now).now (state S.Store tx.new.conn.now).now) }
    ensures fails { HasCleanDisk (state S.Store tx.new.conn.now) → IsReady (state S.Store tx.old.conn.now)
        → IfErr result (IsPutExcused tenant.now (stamped stamp.now (SilenceWords (words_of id.now silence.now)) ∷ [])
        (state S.Store tx.old.conn.now) (state S.Store tx.new.conn.now)) }
    ensures sound { HasCleanDisk (state S.Store tx.new.conn.now) → IsReady (state S.Store tx.old.conn.now)
        → OnOk result (IsDatabase (state S.Store tx.new.conn.now).now) }
    ensures puts { HasCleanDisk (state S.Store tx.new.conn.now) → IsStore (state S.Store tx.old.conn.now).now
        → OnOk result (PutsEach tenant.now (stamped stamp.now (SilenceWords (words_of id.now silence.now)) ∷ [])
        (state S.Store tx.old.conn.now).now (state S.Store tx.new.conn.now).now) }
    ensures kept { HasCleanDisk (state S.Store tx.new.conn.now) → IsStore (state S.Store tx.old.conn.now).now
        → KeepsCommit (state S.Store tx.old.conn.now) (state S.Store tx.new.conn.now) }
    ensures inside { HasCleanDisk (state S.Store tx.new.conn.now) → IsStore (state S.Store tx.old.conn.now).now
        → OnOk result (IsTrue (state S.Store tx.old.conn.now).in_transaction
        → IsTrue (state S.Store tx.new.conn.now).in_transaction) }
    ensures survives { Survives (state S.Store tx.old.conn.now) (state S.Store tx.new.conn.now) (λ _. ⊥) }
{
    let matchers = spelled(alloc, silence.matchers.as_slice())?;
    let mut buffer = Uuid::encode_buffer();
    let text = text_of(id, &mut buffer);
    let rows = stamps(tx, tenant, text)?;
    if is_reached(&rows, stamp)? {
        return Ok(());
    }
    take_out(tx, tenant, text)?;
    put_in(tx, tenant, stamp, id, silence, text, &matchers)
}
