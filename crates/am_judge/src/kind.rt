//! What stands at each key and in each list of a configuration.

ghost use Rattle.std.specs.Prelude.{◌≡◌, option_map};
ghost use Rattle.std.specs.List.{list_any};
ghost use Rattle.std.specs.Str.{bytes_eq};
ghost use Rattle.serde_json.specs.View.{view};
ghost use Rattle.am_draft.specs.Keys.{has_text, left_out_keys};
ghost use Rattle.am_judge.specs.Kinds.{absent_key, absent_of, at_document, at_global, at_object, at_receiver};
ghost use Rattle.am_judge.specs.Kinds.{at_route, at_route_text, at_rule, at_top, at_webhook, item_of, lacks};
ghost use Rattle.am_judge.specs.Kinds.{left_out_kind, member_of, numbered, other};

use serde_json::Value;

/// A kind of object.
#[derive(Clone, Copy, PartialEq, Eq)]
pub(crate) enum ObjectKind {
    Document,
    Top,
    Global,
    /// A route of this depth, where the root's is 1.
    Route(usize),
    /// A receiver before which so many stand in the list.
    Receiver(usize),
    Webhook,
    Rule,
}

/// A kind of list.
#[derive(Clone, Copy, PartialEq, Eq)]
pub(crate) enum ListKind {
    /// Routes of this depth.
    Routes(usize),
    Receivers,
    Webhooks,
    Rules,
    /// `group_by`.
    Grouping,
    /// `equal`.
    Names,
    Matchers,
    /// The root's matchers.
    RootMatchers,
    Templates,
}

/// A kind of text.
#[derive(Clone, Copy, PartialEq, Eq)]
pub(crate) enum TextKind {
    /// Any text.
    Plain,
    LabelName,
    /// The one entry of a `group_by`, which may stand for all labels.
    LoneName,
    Matcher,
    /// The receiver that a route names.
    Named,
    /// The name of a receiver before which so many stand in the list.
    Name(usize),
    Url,
    /// A duration.
    Wait,
    /// A duration of at least a second.
    Interval,
}

/// A kind of key that amring leaves out.
#[derive(Clone, Copy, PartialEq, Eq)]
pub(crate) enum LeftOutKind {
    /// `match` and `match_re`, older forms of `matchers`.
    Matching,
    /// Those of time intervals.
    Intervals,
    /// How notices are sent, beyond a URL.
    Sending,
    /// Receivers of another kind than webhooks.
    Receivers,
}

/// A kind of value of a configuration.
#[derive(Clone, Copy, PartialEq, Eq)]
pub(crate) enum Kind {
    Object(ObjectKind),
    List(ListKind),
    Text(TextKind),
    /// `template_files`.
    Files,
    Flag,
    Count,
    /// What stands at a key that amring leaves out.
    LeftOut(LeftOutKind),
    /// What stands at a key that isn't known in an object of this kind.
    Unknown(ObjectKind),
    /// A value of which nothing is asked.
    Any,
}

// What Alertmanager knows and amring leaves out, in any object.
const LEFT_OUT_KEYS: [&str; 8] = [
    "match",
    "match_re",
    "mute_time_intervals",
    "active_time_intervals",
    "time_intervals",
    "http_config",
    "url_file",
    "timeout",
];

/// What stands at a key of a value of this kind.
pub(crate) fn member_of(kind: Kind, key: &str) -> Kind
    ensures { result ≡ member_of kind key.now }
{
    match kind {
        Kind::Object(object) => at_object(object, key),
        _ => Kind::Any,
    }
}

fn at_object(object: ObjectKind, key: &str) -> Kind
    ensures { result ≡ at_object object key.now }
{
    match object {
        ObjectKind::Document => at_document(key),
        ObjectKind::Top => at_top(key),
        ObjectKind::Global => at_global(key),
        ObjectKind::Route(depth) => at_route(depth, key),
        ObjectKind::Receiver(before) => at_receiver(before, key),
        ObjectKind::Webhook => at_webhook(key),
        ObjectKind::Rule => at_rule(key),
    }
}

fn at_document(key: &str) -> Kind
    ensures { result ≡ at_document key.now }
{
    if key == "alertmanager_config" {
        return Kind::Text(TextKind::Plain);
    }
    other(ObjectKind::Document, key)
}

fn at_global(key: &str) -> Kind
    ensures { result ≡ at_global key.now }
{
    if key == "resolve_timeout" {
        return Kind::Text(TextKind::Wait);
    }
    other(ObjectKind::Global, key)
}

fn at_top(key: &str) -> Kind
    ensures { result ≡ at_top key.now }
{
    if key == "global" {
        return Kind::Object(ObjectKind::Global);
    }
    if key == "route" {
        return Kind::Object(ObjectKind::Route(1));
    }
    if key == "receivers" {
        return Kind::List(ListKind::Receivers);
    }
    if key == "inhibit_rules" {
        return Kind::List(ListKind::Rules);
    }
    other(ObjectKind::Top, key)
}

fn at_route(depth: usize, key: &str) -> Kind
    ensures { result ≡ at_route depth key.now }
{
    if key == "group_by" {
        return Kind::List(ListKind::Grouping);
    }
    if key == "matchers" {
        return Kind::List(if depth == 1 {
            ListKind::RootMatchers
        } else {
            ListKind::Matchers
        });
    }
    if key == "continue" {
        return Kind::Flag;
    }
    if key == "routes" {
        return Kind::List(ListKind::Routes(depth.saturating_add(1)));
    }
    at_route_text(depth, key)
}

fn at_route_text(depth: usize, key: &str) -> Kind
    ensures { result ≡ at_route_text depth key.now }
{
    if key == "receiver" {
        return Kind::Text(TextKind::Named);
    }
    if key == "group_wait" {
        return Kind::Text(TextKind::Wait);
    }
    if key == "group_interval" {
        return Kind::Text(TextKind::Interval);
    }
    if key == "repeat_interval" {
        return Kind::Text(TextKind::Interval);
    }
    other(ObjectKind::Route(depth), key)
}

fn at_receiver(before: usize, key: &str) -> Kind
    ensures { result ≡ at_receiver before key.now }
{
    if key == "name" {
        return Kind::Text(TextKind::Name(before));
    }
    if key == "webhook_configs" {
        return Kind::List(ListKind::Webhooks);
    }
    if key.as_bytes().ends_with(b"_configs") {
        return Kind::LeftOut(LeftOutKind::Receivers);
    }
    other(ObjectKind::Receiver(before), key)
}

fn at_webhook(key: &str) -> Kind
    ensures { result ≡ at_webhook key.now }
{
    if key == "url" {
        return Kind::Text(TextKind::Url);
    }
    if key == "send_resolved" {
        return Kind::Flag;
    }
    if key == "max_alerts" {
        return Kind::Count;
    }
    other(ObjectKind::Webhook, key)
}

fn at_rule(key: &str) -> Kind
    ensures { result ≡ at_rule key.now }
{
    if key == "source_matchers" {
        return Kind::List(ListKind::Matchers);
    }
    if key == "target_matchers" {
        return Kind::List(ListKind::Matchers);
    }
    if key == "equal" {
        return Kind::List(ListKind::Names);
    }
    other(ObjectKind::Rule, key)
}

// What stands at a key of an object that has no such key of its own.
fn other(object: ObjectKind, key: &str) -> Kind
    ensures { result ≡ other object key.now }
{
    if key == "templates" {
        return Kind::List(ListKind::Templates);
    }
    if key == "template_files" {
        return Kind::Files;
    }
    if is_left_out(key) {
        return Kind::LeftOut(left_out_kind(key));
    }
    Kind::Unknown(object)
}

fn is_left_out(key: &str) -> bool
    ensures { result ≡ has_text left_out_keys key.now }
{
    is_one_of(&LEFT_OUT_KEYS, key)
}

// The kind of a key that is left out in any object.
fn left_out_kind(key: &str) -> LeftOutKind
    ensures { result ≡ left_out_kind key.now }
{
    if key == "match" || key == "match_re" {
        return LeftOutKind::Matching;
    }
    if key.as_bytes().ends_with(b"time_intervals") {
        return LeftOutKind::Intervals;
    }
    LeftOutKind::Sending
}

fn is_one_of(texts: &[&str], text: &str) -> bool
    ensures { result ≡ list_any (λ known. bytes_eq text.now known.now) texts.now }
{
    texts.iter().any(|known| text == *known)
}

/// What stands in a list of this kind that has so many items.
pub(crate) fn item_of(kind: Kind, count: usize) -> Kind
    ensures { result ≡ item_of kind count }
{
    match kind {
        Kind::List(list) => match list {
            ListKind::Routes(depth) => Kind::Object(ObjectKind::Route(depth)),
            ListKind::Receivers => Kind::Object(ObjectKind::Receiver(0)),
            ListKind::Webhooks => Kind::Object(ObjectKind::Webhook),
            ListKind::Rules => Kind::Object(ObjectKind::Rule),
            ListKind::Grouping => Kind::Text(if count == 1 {
                TextKind::LoneName
            } else {
                TextKind::LabelName
            }),
            ListKind::Names => Kind::Text(TextKind::LabelName),
            ListKind::Matchers => Kind::Text(TextKind::Matcher),
            ListKind::RootMatchers => Kind::Text(TextKind::Matcher),
            ListKind::Templates => Kind::Any,
        },
        _ => Kind::Any,
    }
}

/// The kind of the item of this number, from 0 on, in a list of which the first is of this kind: a receiver's says how
/// many stand before it.
pub(crate) fn numbered(kind: Kind, number: usize) -> Kind
    ensures { result ≡ numbered kind number }
{
    match kind {
        Kind::Object(object) => match object {
            ObjectKind::Receiver(_) => Kind::Object(ObjectKind::Receiver(number)),
            _ => kind,
        },
        _ => kind,
    }
}

/// The first key that an object of this kind must have and hasn't.
pub(crate) fn absent_key(kind: Kind, value: &Value) -> Option<&'static str>
    ensures { option_map (λ key. key.now) result ≡ absent_key kind (view value.now) }
{
    match kind {
        Kind::Object(object) => absent_of(object, value),
        _ => None,
    }
}

fn absent_of(object: ObjectKind, value: &Value) -> Option<&'static str>
    ensures { option_map (λ key. key.now) result ≡ absent_of object (view value.now) }
{
    match object {
        ObjectKind::Document => lacks(value, "alertmanager_config"),
        ObjectKind::Top => match lacks(value, "route") {
            None => lacks(value, "receivers"),
            Some(key) => Some(key),
        },
        ObjectKind::Global => None,
        ObjectKind::Route(depth) => {
            if depth == 1 {
                lacks(value, "receiver")
            } else {
                None
            }
        }
        ObjectKind::Receiver(_) => lacks(value, "name"),
        ObjectKind::Webhook => lacks(value, "url"),
        ObjectKind::Rule => None,
    }
}

// The key, where the object has nothing at it.
fn lacks(value: &Value, key: &'static str) -> Option<&'static str>
    ensures { option_map (λ key. key.now) result ≡ lacks (view value.now) key.now }
{
    match value.get(key) {
        None => Some(key),
        Some(_) => None,
    }
}
