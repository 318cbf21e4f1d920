//! The limits that a text gives.

ghost use Rattle.std.specs.Prelude.{◌≡◌, [], codes};
ghost use Rattle.serde_json.specs.Find.{get};
ghost use Rattle.serde_json.specs.View.{members_view, view};
ghost use Rattle.am_text.specs.Outcome.{Gives};
ghost use Rattle.am_limits_file.specs.LimitsFiles.{default_from, default_in, file_in, file_of, has_text, keys_of};
ghost use Rattle.am_limits_file.specs.LimitsFiles.{known_among, known_in, limits_in, number_at, number_if_at};
ghost use Rattle.am_limits_file.specs.LimitsFiles.{number_in, tenant_in, tenant_named};
ghost use Rattle.am_limits_file.specs.LimitsFiles.{tenants_from, tenants_in, tenants_of};
ghost use Rattle.std.specs.List.{list_any};
ghost use Rattle.std.specs.Str.{bytes_eq};

use crate::refusal::{LimitsFault, LimitsRefusal};
use am_json::read_json;
use am_limit::Limits;
use am_place::at_key;
use am_tenant::TenantName;
use am_text::{Failure, Listed, Text};
use serde_json::{Map, Value};
use std::alloc::Global;

const FILE_KEYS: [&str; 2] = ["default", "tenants"];

const LIMITS_KEYS: [&str; 6] = [
    "alerts",
    "silences",
    "configuration",
    "silence",
    "notices",
    "alert_bytes",
];

// A kind of object of a file.
#[derive(Clone, Copy)]
pub(crate) enum Level {
    File,
    Limits,
}

/// A tenant with its limits.
#[derive(Drop)]
pub struct TenantLimits {
    pub tenant: TenantName,
    pub limits: Limits,
}

/// What a text says of limits.
#[derive(Drop)]
pub struct LimitsFile {
    /// What holds for a tenant that says nothing.
    pub default: Limits,
    /// The tenants that are named, each once, in order of name.
    pub tenants: Listed<TenantLimits>,
}

/// What a text says of limits: a JSON object that may have `default` and `tenants`. A number that `default` doesn't
/// say is that of `usual`; one that a tenant doesn't say is the default's.
///
/// # Errors
/// The first place at which the text isn't of its form: an object's keys come before what they hold, `default` before
/// `tenants`, tenants in order of name. Out of memory says nothing of the text.
pub fn read_limits(
    alloc: Global,
    text: &[u8],
    usual: Limits,
) -> Result<LimitsFile, Failure<LimitsRefusal>>
    ensures { Gives (λ file. file) result (file_in usual text.now) }
{
    match read_json(alloc, text) {
        Ok(value) => file_of(alloc, usual, &value),
        Err(Failure::OutOfMemory) => Err(Failure::OutOfMemory),
        Err(Failure::Refused(_)) => {
            let place = Text::read(alloc, "")?;
            Err(Failure::Refused(LimitsRefusal {
                place,
                fault: LimitsFault::NotJson,
            }))
        }
    }
}

#[tactic(auto, unfolding(crate::specs::LimitsFiles::file_of))]
fn file_of(
    alloc: Global,
    usual: Limits,
    value: &Value,
) -> Result<LimitsFile, Failure<LimitsRefusal>>
    ensures { Gives (λ file. file) result (file_of usual (view value.now)) }
{
    let top = Text::read(alloc, "")?;
    known_in(alloc, &top, Level::File, value)?;
    let default = default_in(alloc, usual, value)?;
    let tenants = tenants_in(alloc, default, value)?;
    Ok(LimitsFile {
        default,
        tenants: Listed::from_vec(tenants),
    })
}

// What holds for a tenant that says nothing.
fn default_in(alloc: Global, usual: Limits, value: &Value) -> Result<Limits, Failure<LimitsRefusal>>
    ensures { Gives (λ limits. limits) result (default_in usual (view value.now)) }
{
    match value.get("default") {
        None => Ok(usual),
        Some(found) => {
            let place = Text::read(alloc, "default")?;
            limits_in(alloc, &place, usual, found)
        }
    }
}

fn tenants_in(
    alloc: Global,
    default: Limits,
    value: &Value,
) -> Result<Vec<TenantLimits>, Failure<LimitsRefusal>>
    ensures { Gives (λ tenants. tenants.items) result (tenants_in default (view value.now)) }
{
    match value.get("tenants") {
        None => Ok(Vec::new(alloc)),
        Some(found) => tenants_from(alloc, default, found),
    }
}

fn tenants_from(
    alloc: Global,
    default: Limits,
    value: &Value,
) -> Result<Vec<TenantLimits>, Failure<LimitsRefusal>>
    ensures { Gives (λ tenants. tenants.items) result (tenants_from default (view value.now)) }
{
    let place = Text::read(alloc, "tenants")?;
    match value.as_object() {
        None => Err(Failure::Refused(LimitsRefusal::at(alloc, &place, LimitsFault::NotObject)?)),
        Some(members) => tenants_of(alloc, &place, default, members),
    }
}

#[tactic(auto, unfolding(crate::specs::LimitsFiles::tenants_of))]
fn tenants_of(
    alloc: Global,
    place: &Text,
    default: Limits,
    members: &Map<String, Value>,
) -> Result<Vec<TenantLimits>, Failure<LimitsRefusal>>
    ensures { Gives (λ tenants. tenants.items) result
        (tenants_of place.now default (members_view members.now.entries)) }
{
    let mut tenants = Vec::with_capacity(alloc, members.len())?;
    for (name, value) in members.iter() {
        let tenant = tenant_in(alloc, place, default, name.as_str(), value)?;
        tenants.push(tenant)?;
    }
    Ok(tenants)
}

// A tenant with its limits, by its name and what stands at it.
#[tactic(auto, unfolding(crate::specs::LimitsFiles::tenant_in))]
fn tenant_in(
    alloc: Global,
    place: &Text,
    default: Limits,
    name: &str,
    value: &Value,
) -> Result<TenantLimits, Failure<LimitsRefusal>>
    ensures { Gives (λ tenant. tenant) result (tenant_in place.now default name.now (view value.now)) }
{
    let place = at_key(alloc, place, name)?;
    let tenant = tenant_named(alloc, &place, name)?;
    let limits = limits_in(alloc, &place, default, value)?;
    Ok(TenantLimits { tenant, limits })
}

// The tenant of this name.
fn tenant_named(
    alloc: Global,
    place: &Text,
    name: &str,
) -> Result<TenantName, Failure<LimitsRefusal>>
    ensures { Gives (λ tenant. tenant) result (tenant_named place.now name.now) }
{
    match TenantName::read(name.as_bytes()) {
        Ok(tenant) => Ok(tenant),
        Err(_) => Err(Failure::Refused(LimitsRefusal::at(alloc, place, LimitsFault::NotTenant)?)),
    }
}

// The limits that an object says, and for the rest these.
#[tactic(auto, unfolding(crate::specs::LimitsFiles::limits_in))]
fn limits_in(
    alloc: Global,
    place: &Text,
    default: Limits,
    value: &Value,
) -> Result<Limits, Failure<LimitsRefusal>>
    ensures { Gives (λ limits. limits) result (limits_in place.now default (view value.now)) }
{
    known_in(alloc, place, Level::Limits, value)?;
    let alerts = number_at(alloc, place, "alerts", default.alerts, value)?;
    let silences = number_at(alloc, place, "silences", default.silences, value)?;
    let configuration = number_at(alloc, place, "configuration", default.configuration, value)?;
    let silence = number_at(alloc, place, "silence", default.silence, value)?;
    let notices = number_at(alloc, place, "notices", default.notices, value)?;
    let alert_bytes = number_if_at(alloc, place, "alert_bytes", default.alert_bytes, value)?;
    Ok(Limits {
        alerts,
        silences,
        configuration,
        silence,
        notices,
        alert_bytes,
    })
}

// The number at a key, and this one where there is none.
fn number_at(
    alloc: Global,
    place: &Text,
    key: &str,
    default: u64,
    value: &Value,
) -> Result<u64, Failure<LimitsRefusal>>
    ensures { Gives (λ number. number) result (number_at place.now key.now default (view value.now)) }
{
    match value.get(key) {
        None => Ok(default),
        Some(found) => {
            let place = at_key(alloc, place, key)?;
            number_in(alloc, &place, found)
        }
    }
}

// The same where there may be no such limit either.
fn number_if_at(
    alloc: Global,
    place: &Text,
    key: &str,
    default: Option<u64>,
    value: &Value,
) -> Result<Option<u64>, Failure<LimitsRefusal>>
    ensures { Gives (λ number. number) result (number_if_at place.now key.now default (view value.now)) }
{
    match value.get(key) {
        None => Ok(default),
        Some(found) => {
            let place = at_key(alloc, place, key)?;
            let number = number_in(alloc, &place, found)?;
            Ok(Some(number))
        }
    }
}

fn number_in(alloc: Global, place: &Text, value: &Value) -> Result<u64, Failure<LimitsRefusal>>
    ensures { Gives (λ number. number) result (number_in place.now (view value.now)) }
{
    match value.as_u64() {
        Some(number) => Ok(number),
        None => Err(Failure::Refused(LimitsRefusal::at(alloc, place, LimitsFault::NotNumber)?)),
    }
}

// Refused where the value is no object, or has a key that isn't known.
fn known_in(
    alloc: Global,
    place: &Text,
    level: Level,
    value: &Value,
) -> Result<(), Failure<LimitsRefusal>>
    ensures { Gives (λ _. tt) result (known_in place.now level (view value.now)) }
{
    match value.as_object() {
        None => Err(Failure::Refused(LimitsRefusal::at(alloc, place, LimitsFault::NotObject)?)),
        Some(members) => known_among(alloc, place, level, members),
    }
}

fn known_among(
    alloc: Global,
    place: &Text,
    level: Level,
    members: &Map<String, Value>,
) -> Result<(), Failure<LimitsRefusal>>
    ensures { Gives (λ _. tt) result (known_among place.now level (members_view members.now.entries)) }
{
    for (key, _value) in members.iter() {
        if !is_known(level, key.as_str()) {
            let place = at_key(alloc, place, key.as_str())?;
            let fault = LimitsFault::UnknownKey;
            return Err(Failure::Refused(LimitsRefusal { place, fault }));
        }
    }
    Ok(())
}

fn is_known(level: Level, key: &str) -> bool
    ensures { result ≡ has_text (keys_of level) key.now }
{
    match level {
        Level::File => is_one_of(&FILE_KEYS, key),
        Level::Limits => is_one_of(&LIMITS_KEYS, key),
    }
}

fn is_one_of(texts: &[&str], text: &str) -> bool
    ensures { result ≡ list_any (λ known. bytes_eq text.now known.now) texts.now }
{
    texts.iter().any(|known| text == *known)
}
