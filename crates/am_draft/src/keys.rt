//! The keys of each kind of object, and those that are left out.

ghost use Rattle.std.specs.Prelude.{◌≡◌, false};
ghost use Rattle.std.specs.List.{list_any};
ghost use Rattle.std.specs.Str.{bytes_eq};
ghost use Rattle.serde_json.specs.View.{view, members_view};
ghost use Rattle.am_draft.specs.Keys.{has_text, keys_of, is_left_out, templates_in, template_files_in, key_leaves_out, leaves_out_after, leaves_out};
ghost use Rattle.am_text.specs.Outcome.{Gives};

use am_json::{JsonRefusal, list_in, object_in};
use am_text::Failure;
use serde_json::{Map, Value};

/// A kind of object of a configuration.
#[derive(Clone, Copy, PartialEq, Eq)]
pub(crate) enum Place {
    Document,
    Top,
    Global,
    Route,
    Receiver,
    Webhook,
    Rule,
}

const DOCUMENT_KEYS: [&str; 1] = ["alertmanager_config"];

const TOP_KEYS: [&str; 4] = ["global", "route", "receivers", "inhibit_rules"];

const GLOBAL_KEYS: [&str; 1] = ["resolve_timeout"];

const ROUTE_KEYS: [&str; 8] = [
    "receiver",
    "group_by",
    "group_wait",
    "group_interval",
    "repeat_interval",
    "matchers",
    "continue",
    "routes",
];

const RECEIVER_KEYS: [&str; 2] = ["name", "webhook_configs"];

const WEBHOOK_KEYS: [&str; 3] = ["url", "send_resolved", "max_alerts"];

const RULE_KEYS: [&str; 3] = ["source_matchers", "target_matchers", "equal"];

// What Alertmanager knows and amring leaves out, in any object.
const LEFT_OUT_KEYS: [&str; 8] = [
    "match",
    "match_re",
    "mute_time_intervals",
    "active_time_intervals",
    "time_intervals",
    "http_config",
    "url_file",
    "timeout",
];

/// Whether one of the object's keys is left out. Refused where one is unknown, or where this is no object.
pub(crate) fn leaves_out(value: &Value, place: Place) -> Result<bool, Failure<JsonRefusal>>
    ensures { Gives (λ out. out) result (leaves_out place (view value.now)) }
{
    let members = object_in(value)?;
    leaves_out_among(members, place)
}

fn leaves_out_among(
    members: &Map<String, Value>,
    place: Place,
) -> Result<bool, Failure<JsonRefusal>>
    ensures { Gives (λ out. out) result (leaves_out_after place false (members_view members.now.entries)) }
{
    let mut seen = false;
    for (key, value) in members.iter() {
        let left_out = key_leaves_out(place, key.as_str(), value)?;
        seen = seen || left_out;
    }
    Ok(seen)
}

#[tactic(auto, unfolding(crate::specs::Keys::key_leaves_out))]
fn key_leaves_out(place: Place, key: &str, value: &Value) -> Result<bool, Failure<JsonRefusal>>
    ensures { Gives (λ out. out) result (key_leaves_out place key.now (view value.now)) }
{
    if key == "templates" {
        return templates_in(value);
    }
    if key == "template_files" {
        return template_files_in(value);
    }
    if is_known(place, key) {
        return Ok(false);
    }
    if is_left_out(place, key) {
        return Ok(true);
    }
    Err(Failure::Refused(JsonRefusal::BadForm))
}

// Whether the list of templates holds one.
#[tactic(auto, using(crate::proofs::Held::has_items_held))]
fn templates_in(value: &Value) -> Result<bool, Failure<JsonRefusal>>
    ensures { Gives (λ out. out) result (templates_in (view value.now)) }
{
    let items = list_in(value)?;
    Ok(!items.is_empty())
}

// Whether the object of templates' files holds one.
fn template_files_in(value: &Value) -> Result<bool, Failure<JsonRefusal>>
    ensures { Gives (λ out. out) result (template_files_in (view value.now)) }
{
    let members = object_in(value)?;
    Ok(!members.is_empty())
}

fn is_known(place: Place, key: &str) -> bool
    ensures { result ≡ has_text (keys_of place) key.now }
{
    match place {
        Place::Document => is_one_of(&DOCUMENT_KEYS, key),
        Place::Top => is_one_of(&TOP_KEYS, key),
        Place::Global => is_one_of(&GLOBAL_KEYS, key),
        Place::Route => is_one_of(&ROUTE_KEYS, key),
        Place::Receiver => is_one_of(&RECEIVER_KEYS, key),
        Place::Webhook => is_one_of(&WEBHOOK_KEYS, key),
        Place::Rule => is_one_of(&RULE_KEYS, key),
    }
}

fn is_left_out(place: Place, key: &str) -> bool
    ensures { result ≡ is_left_out place key.now }
{
    is_one_of(&LEFT_OUT_KEYS, key)
        || (place == Place::Receiver && key.as_bytes().ends_with(b"_configs"))
}

fn is_one_of(texts: &[&str], text: &str) -> bool
    ensures { result ≡ list_any (λ known. bytes_eq text.now known.now) texts.now }
{
    texts.iter().any(|known| text == *known)
}
