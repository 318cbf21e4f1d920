//! Rows as items of a tenant.

ghost use Rattle.std.specs.Prelude.{◌≡◌, ◌↔◌, ◌<◌, ℕ, List, Option, All, IfOk, IfSome, IsErr, IsTrue, IsUtf8};
ghost use Rattle.std.specs.Prelude.{MatchResult, Ok, Some, length};
ghost use Rattle.sqlite.specs.Order.{column};
ghost use Rattle.sqlite.specs.declared.types.Value.TheVariants.{Blob, Text as Words};
ghost use Rattle.uuid.specs.Text.{parsed};
ghost use Rattle.am_match.specs.Matchers.{IsMatcher, MatcherText};
ghost use Rattle.am_match.specs.Spelling.{IsSpellable, Spells, spelling};
ghost use Rattle.am_tenant.specs.Names.{is_tenant_name};
ghost use Rattle.am_store.specs.Reading.{GivesColumn, GivesValue, ReadsConfig, ReadsSilence, RefusesForeign};
ghost use Rattle.am_store.specs.Rows.{IsConfig, IsSilenceRow, body_value, id_text};

use crate::silence::text_of;
use crate::stamps::{moment_of, stamp_of};
use am_item::{Item, Matchers, Silence, SilenceId, Thing};
use am_match::{Matcher, take_matchers};
use am_rows::StoreRefusal;
use am_tenant::TenantName;
use am_text::{Failure, Text};
use sqlite::{Error, ErrorCode, Row};
use sqlite_value::value::ValueRef;
use std::alloc::Global;
use std::str;
use uuid::Uuid;

// A column that isn't read is that of a row that is no item, unless memory ran out.
pub(crate) fn or_foreign<T>(read: Result<T, Error>) -> Result<T, Failure<StoreRefusal>>
    ensures value { MatchResult read (λ value. result ≡ Ok value) (λ _. IsErr result) }
    ensures given { GivesColumn read → GivesValue result }
    ensures foreign { RefusesForeign result }
{
    match read {
        Ok(value) => Ok(value),
        Err(Error::SqliteFailure(ErrorCode::OutOfMemory)) => Err(Failure::OutOfMemory),
        Err(_) => Err(Failure::Refused(StoreRefusal::Foreign)),
    }
}

// The tenant in a column.
pub(crate) fn tenant_in(row: &Row, at: usize) -> Result<TenantName, Failure<StoreRefusal>>
    ensures text { IfOk result (λ tenant. column row.now at ≡ Words tenant) }
    ensures name { IfOk result (λ tenant. IsTrue (is_tenant_name tenant)) }
    ensures given { (t : List ℕ) → column row.now at ≡ Words t → IsTrue (is_tenant_name t) → GivesValue result }
    ensures foreign { RefusesForeign result }
{
    let ValueRef::Text(bytes) = or_foreign(row.get_ref(at))? else {
        return Err(Failure::Refused(StoreRefusal::Foreign));
    };
    match TenantName::read(bytes) {
        Ok(tenant) => Ok(tenant),
        Err(_) => Err(Failure::Refused(StoreRefusal::Foreign)),
    }
}

// The text whose UTF-8 a column holds.
fn text_in(alloc: Global, row: &Row, at: usize) -> Result<Text, Failure<StoreRefusal>>
    ensures text { IfOk result (λ text. column row.now at ≡ Blob text) }
    ensures utf8 { IfOk result (λ text. IsUtf8 text) }
    ensures given { (t : List ℕ) → column row.now at ≡ Blob t → IsUtf8 t → GivesValue result }
    ensures foreign { RefusesForeign result }
{
    let ValueRef::Blob(bytes) = or_foreign(row.get_ref(at))? else {
        return Err(Failure::Refused(StoreRefusal::Foreign));
    };
    match str::from_utf8(bytes) {
        Ok(text) => Ok(Text::read(alloc, text)?),
        Err(_) => Err(Failure::Refused(StoreRefusal::Foreign)),
    }
}

// The text of a configuration; `None` where it was deleted.
fn body_in(alloc: Global, row: &Row) -> Result<Option<Text>, Failure<StoreRefusal>>
    ensures body { IfOk result (λ body. column row.now 2 ≡ body_value body) }
    ensures utf8 { IfOk result (λ body. IfSome body IsUtf8) }
    ensures given { 2 < length row.now → (body : Option (List ℕ)) → column row.now 2 ≡ body_value body
        → IfSome body IsUtf8 → GivesValue result }
    ensures foreign { RefusesForeign result }
{
    if let ValueRef::Null = or_foreign(row.get_ref(2))? {
        return Ok(None);
    }
    Ok(Some(text_in(alloc, row, 2)?))
}

// The configuration that a row holds, and whose it is.
pub(crate) fn read_config(
    alloc: Global,
    row: &Row,
) -> Result<(TenantName, Item), Failure<StoreRefusal>>
    ensures reads { IfOk result (λ p. ReadsConfig row.now p.0 p.1) }
    ensures given { IsConfig row.now → GivesValue result }
    ensures foreign { RefusesForeign result }
{
    if row.column_count() != 7 {
        return Err(Failure::Refused(StoreRefusal::Foreign));
    }
    let _rowid: i64 = or_foreign(row.get(0))?;
    let tenant = tenant_in(row, 1)?;
    let body = body_in(alloc, row)?;
    let stamp = or_foreign(stamp_of(row, 3))?;
    Ok((
        tenant,
        Item {
            stamp,
            thing: Thing::Configuration(body),
        },
    ))
}

// Whether the bytes are the text of the identifier.
fn is_text_of(id: &SilenceId, bytes: &[u8]) -> bool
    ensures text { IsTrue result ↔ (bytes.now ≡ id_text id.now) }
    ensures back { parsed (id_text id.now) ≡ Some id.now }
{
    let mut buffer = Uuid::encode_buffer();
    text_of(id, &mut buffer).as_bytes() == bytes
}

// The identifier that a column holds as text.
fn id_in(row: &Row) -> Result<SilenceId, Failure<StoreRefusal>>
    ensures text { IfOk result (λ id. column row.now 2 ≡ Words (id_text id)) }
    ensures back { IfOk result (λ id. parsed (id_text id) ≡ Some id) }
    ensures given { (id : List ℕ) → column row.now 2 ≡ Words (id_text id) → parsed (id_text id) ≡ Some id
        → GivesValue result }
    ensures foreign { RefusesForeign result }
{
    let ValueRef::Text(bytes) = or_foreign(row.get_ref(2))? else {
        return Err(Failure::Refused(StoreRefusal::Foreign));
    };
    let Ok(uuid) = Uuid::try_parse_ascii(bytes) else {
        return Err(Failure::Refused(StoreRefusal::Foreign));
    };
    let id = SilenceId::from_bytes(uuid.into_bytes());
    if is_text_of(&id, bytes) {
        Ok(id)
    } else {
        Err(Failure::Refused(StoreRefusal::Foreign))
    }
}

// The matchers that a column spells.
fn matchers_in(alloc: Global, row: &Row) -> Result<Vec<Matcher>, Failure<StoreRefusal>>
    ensures spelled { IfOk result (λ matchers. (bytes : _) × (column row.now 8 ≡ Blob bytes)
        × Spells bytes matchers.items) }
    ensures given { (ms : List MatcherText) → column row.now 8 ≡ Blob (spelling ms) → IsSpellable ms → All IsMatcher ms
        → GivesValue result }
    ensures foreign { RefusesForeign result }
{
    let ValueRef::Blob(bytes) = or_foreign(row.get_ref(8))? else {
        return Err(Failure::Refused(StoreRefusal::Foreign));
    };
    match take_matchers(alloc, bytes) {
        Ok((matchers, taken)) => {
            if taken == bytes.len() {
                Ok(matchers)
            } else {
                Err(Failure::Refused(StoreRefusal::Foreign))
            }
        }
        Err(Failure::OutOfMemory) => Err(Failure::OutOfMemory),
        Err(Failure::Refused(_)) => Err(Failure::Refused(StoreRefusal::Foreign)),
    }
}

// The silence that a row holds, and whose it is.
pub(crate) fn read_silence(
    alloc: Global,
    row: &Row,
) -> Result<(TenantName, Item), Failure<StoreRefusal>>
    ensures reads { IfOk result (λ p. ReadsSilence row.now p.0 p.1) }
    ensures given { IsSilenceRow row.now → GivesValue result }
    ensures foreign { RefusesForeign result }
{
    if row.column_count() != 13 {
        return Err(Failure::Refused(StoreRefusal::Foreign));
    }
    let _rowid: i64 = or_foreign(row.get(0))?;
    let tenant = tenant_in(row, 1)?;
    let stamp = or_foreign(stamp_of(row, 9))?;
    let silence = Silence {
        id: id_in(row)?,
        starts_at: or_foreign(moment_of(row, 3))?,
        ends_at: or_foreign(moment_of(row, 4))?,
        kept_until: or_foreign(moment_of(row, 5))?,
        created_by: text_in(alloc, row, 6)?,
        comment: text_in(alloc, row, 7)?,
        matchers: Matchers::from_vec(matchers_in(alloc, row)?),
    };
    Ok((
        tenant,
        Item {
            stamp,
            thing: Thing::Silence(silence),
        },
    ))
}
