//! What a value by itself is refused for.

ghost use Rattle.std.specs.Prelude.{◌≡◌, IfOk, take};
ghost use Rattle.serde_json.specs.View.{members_view, view};
ghost use Rattle.am_draft.specs.Keys.{has_members};
ghost use Rattle.am_config.specs.Checks.{is_listed};
ghost use Rattle.am_config.specs.Matching.{reads_matchers};
ghost use Rattle.am_judge.specs.Faults.{are_bad_files, has_fault, is_bad_duration, is_bad_form, is_bad_list};
ghost use Rattle.am_judge.specs.Faults.{is_bad_matcher, is_bad_name, is_bad_object, is_bad_receiver, is_bad_text};
ghost use Rattle.am_judge.specs.Faults.{is_bad_url, is_for_form, is_for_left_out, is_span, is_unbuilt};

use crate::facts::Facts;
use crate::kind::{Kind, ListKind, ObjectKind, TextKind};
use am_config::ConfigRefusal;
use am_draft::ReceiverDraft;
use am_labels::is_label_name;
use am_match::reread_matchers;
use am_text::{Failure, Text, read_duration};
use am_url::WebhookUrl;
use serde_json::{Map, Value};
use std::alloc::{AllocError, Global};

/// The most routes of a configuration, with the root.
const MOST_ROUTES: usize = 1000;
/// The depth of the deepest route, where the root's is 1.
const DEEPEST: usize = 16;
/// The most receivers of a configuration.
const MOST_RECEIVERS: usize = 1000;
/// The most webhooks of a receiver.
const MOST_WEBHOOKS: usize = 16;
/// The shortest `group_interval` and `repeat_interval`, in milliseconds.
const SHORTEST_INTERVAL: u64 = 1000;

/// Whether a value of this kind by itself has the refusal that is looked for.
#[tactic(auto, using(crate::proofs::Counted::counted))]
pub(crate) fn has_fault(
    alloc: Global,
    facts: &Facts,
    kind: Kind,
    value: &Value,
) -> Result<bool, AllocError>
    ensures { IfOk result (λ found. found ≡ has_fault facts.now kind (view value.now)) }
{
    match kind {
        Kind::Text(role) => match value.as_str() {
            None => Ok(is_for_form(facts.reason)),
            Some(text) => is_bad_text(alloc, facts, role, text),
        },
        Kind::List(list) => match value.as_array() {
            None => Ok(is_for_form(facts.reason)),
            Some(items) => Ok(is_bad_list(facts.reason, list, items.len())),
        },
        Kind::Object(object) => match value.as_object() {
            None => Ok(is_for_form(facts.reason)),
            Some(_) => Ok(is_bad_object(facts, object)),
        },
        _ => Ok(is_bad_form(facts.reason, kind, value)),
    }
}

/// Whether it is a value of the wrong form, or a key that isn't known, that is looked for.
pub(crate) fn is_for_form(reason: ConfigRefusal) -> bool
    ensures { result ≡ is_for_form reason }
{
    matches!(reason, ConfigRefusal::BadForm)
}

// Whether it is a key that is left out.
fn is_for_left_out(reason: ConfigRefusal) -> bool
    ensures { result ≡ is_for_left_out reason }
{
    matches!(reason, ConfigRefusal::LeftOut)
}

// Whether a value that is no text, list or object of its own has the refusal.
fn is_bad_form(reason: ConfigRefusal, kind: Kind, value: &Value) -> bool
    ensures { result ≡ is_bad_form reason kind (view value.now) }
{
    match kind {
        Kind::Files => are_bad_files(reason, value),
        Kind::Flag => is_for_form(reason) && value.as_bool().is_none(),
        Kind::Count => is_for_form(reason) && value.as_u64().is_none(),
        Kind::LeftOut(_) => is_for_left_out(reason),
        Kind::Unknown(_) => is_for_form(reason),
        _ => false,
    }
}

// Whether an object of templates' files has the refusal.
fn are_bad_files(reason: ConfigRefusal, value: &Value) -> bool
    ensures { result ≡ are_bad_files reason (view value.now) }
{
    match value.as_object() {
        None => is_for_form(reason),
        Some(members) => is_for_left_out(reason) && has_members(members),
    }
}

fn has_members(members: &Map<String, Value>) -> bool
    ensures { result ≡ has_members (members_view members.now.entries) }
{
    !members.is_empty()
}

// Whether a list of so many items has the refusal.
fn is_bad_list(reason: ConfigRefusal, list: ListKind, count: usize) -> bool
    ensures { result ≡ is_bad_list reason list count }
{
    match reason {
        ConfigRefusal::RootMatchers => matches!(list, ListKind::RootMatchers) && count != 0,
        ConfigRefusal::LeftOut => matches!(list, ListKind::Templates) && count != 0,
        ConfigRefusal::TooMany => match list {
            ListKind::Receivers => MOST_RECEIVERS < count,
            ListKind::Webhooks => MOST_WEBHOOKS < count,
            _ => false,
        },
        _ => false,
    }
}

// Whether an object has the refusal.
fn is_bad_object(facts: &Facts, object: ObjectKind) -> bool
    ensures { result ≡ is_bad_object facts.now object }
{
    match facts.reason {
        ConfigRefusal::TooMany => match object {
            ObjectKind::Route(depth) => {
                DEEPEST < depth || (depth == 1 && MOST_ROUTES < facts.routes.as_slice().len())
            }
            _ => false,
        },
        _ => false,
    }
}

// Whether a text has the refusal.
fn is_bad_text(alloc: Global, facts: &Facts, role: TextKind, text: &str) -> Result<bool, AllocError>
    ensures { IfOk result (λ found. found ≡ is_bad_text facts.now role text.now) }
{
    match facts.reason {
        ConfigRefusal::BadForm => Ok(is_bad_name(role, text)),
        ConfigRefusal::BadReceiver => {
            Ok(is_bad_receiver(facts.receivers.as_slice(), role, text))
        }
        ConfigRefusal::BadDuration => Ok(is_bad_duration(role, text)),
        ConfigRefusal::BadMatcher => is_bad_matcher(alloc, role, text),
        ConfigRefusal::BuildRefused => Ok(is_unbuilt(&facts.unbuilt, role, text)),
        ConfigRefusal::BadUrl => is_bad_url(alloc, role, text),
        _ => Ok(false),
    }
}

fn is_bad_name(role: TextKind, text: &str) -> bool
    ensures { result ≡ is_bad_name role text.now }
{
    match role {
        TextKind::LabelName => !is_label_name(text),
        TextKind::LoneName => text != "..." && !is_label_name(text),
        _ => false,
    }
}

fn is_bad_receiver(receivers: &[ReceiverDraft], role: TextKind, text: &str) -> bool
    ensures { result ≡ is_bad_receiver receivers.now role text.now }
{
    match role {
        TextKind::Named => !is_listed(receivers, text),
        TextKind::Name(before) => is_listed_before(receivers, before, text),
        _ => false,
    }
}

fn is_listed(receivers: &[ReceiverDraft], name: &str) -> bool
    ensures { result ≡ is_listed receivers.now name.now }
{
    receivers
        .iter()
        .any(|receiver| receiver.name.as_str() == name)
}

// Whether one of the first so many receivers has this name.
fn is_listed_before(receivers: &[ReceiverDraft], before: usize, name: &str) -> bool
    ensures { result ≡ is_listed (take before receivers.now) name.now }
{
    receivers
        .iter()
        .take(before)
        .any(|receiver| receiver.name.as_str() == name)
}

fn is_bad_duration(role: TextKind, text: &str) -> bool
    ensures { result ≡ is_bad_duration role text.now }
{
    match role {
        TextKind::Wait => !is_span(text, 0),
        TextKind::Interval => !is_span(text, SHORTEST_INTERVAL),
        _ => false,
    }
}

// Whether the text is a duration of at least so many milliseconds.
fn is_span(text: &str, least: u64) -> bool
    ensures { result ≡ is_span least text.now }
{
    match read_duration(text) {
        Ok(milliseconds) => least <= milliseconds,
        Err(_) => false,
    }
}

fn is_bad_matcher(alloc: Global, role: TextKind, text: &str) -> Result<bool, AllocError>
    ensures { IfOk result (λ found. found ≡ is_bad_matcher role text.now) }
{
    match role {
        TextKind::Matcher => Ok(!reads_matchers(alloc, text)?),
        _ => Ok(false),
    }
}

// Whether a text is read as matchers.
#[tactic(auto, unfolding(am_config::specs::Matching::reads_matchers))]
fn reads_matchers(alloc: Global, text: &str) -> Result<bool, AllocError>
    ensures { IfOk result (λ read. read ≡ reads_matchers text.now) }
{
    match reread_matchers(alloc, text) {
        Ok(_) => Ok(true),
        Err(Failure::Refused(_)) => Ok(false),
        Err(Failure::OutOfMemory) => Err(AllocError),
    }
}

// Whether it is the text of matchers of which a pattern isn't built.
fn is_unbuilt(unbuilt: &Option<Text>, role: TextKind, text: &str) -> bool
    ensures { result ≡ is_unbuilt unbuilt.now role text.now }
{
    match role {
        TextKind::Matcher => match unbuilt {
            None => false,
            Some(unbuilt) => unbuilt.as_str() == text,
        },
        _ => false,
    }
}

fn is_bad_url(alloc: Global, role: TextKind, text: &str) -> Result<bool, AllocError>
    ensures { IfOk result (λ found. found ≡ is_bad_url role text.now) }
{
    match role {
        TextKind::Url => Ok(WebhookUrl::read(alloc, text)?.is_none()),
        _ => Ok(false),
    }
}
