//! What to do about a refusal. Keys and numbers are those of docs/API.md, to which `.ci/advice` holds them.

use crate::cause::Cause;
use crate::kind::{Kind, LeftOutKind, ListKind, ObjectKind, TextKind};
use crate::reason::Reason;
use am_config::ConfigRefusal;
use am_match::MatcherRefusal;

/// What to do about a refusal, by what stands at its place.
pub(crate) fn remedy_of(reason: Reason, cause: Cause) -> &'static str {
    match reason {
        Reason::TooLong(_) => "Shorten it.",
        Reason::Config(refusal) => match cause {
            Cause::Whole => of_whole(refusal),
            Cause::Absent => "Add this key: it is required.",
            Cause::Value(kind) => of_value(refusal, kind),
            Cause::Matchers(refusal) => of_matchers(refusal),
            Cause::OtherScheme => {
                "Begin it with `http://`: amring speaks no TLS; for `https://` name a proxy beside it."
            }
        },
    }
}

// What docs/API.md says of a code, whatever it stands for.
fn of_any(refusal: ConfigRefusal) -> &'static str {
    match refusal {
        ConfigRefusal::NotJson => {
            "Send JSON in both, the text quoted; `yq -o=json .` (Debian's: `yq .`) makes it of YAML."
        }
        ConfigRefusal::BadForm => "docs/API.md lists what may stand there.",
        ConfigRefusal::BadReceiver => "List each receiver that a route names, once.",
        ConfigRefusal::RootMatchers => "Put them into an inner route.",
        ConfigRefusal::BadDuration => "Write it as `1h30m`.",
        ConfigRefusal::LeftOut => {
            "Take it out; write `matchers` for `match` and `match_re`, `webhook_configs` for other receivers."
        }
        ConfigRefusal::BadMatcher => {
            "Quote values that hold `,`, `\"`, `{` or `}`; mend or shorten patterns."
        }
        ConfigRefusal::TooMany => "Give part of it to another tenant.",
        ConfigRefusal::BadUrl => {
            "Write `http://` and the host's address; a proxy beside amring can speak TLS."
        }
        ConfigRefusal::BuildRefused => "Take a smaller pattern.",
    }
}

fn of_whole(refusal: ConfigRefusal) -> &'static str {
    match refusal {
        ConfigRefusal::NotJson => {
            "Write JSON (docs/API.md), the posted document or its text alone; \
             `yq -o=json .` (Debian's: `yq .`) makes it of YAML."
        }
        _ => of_any(refusal),
    }
}

fn of_value(refusal: ConfigRefusal, kind: Kind) -> &'static str {
    match refusal {
        ConfigRefusal::NotJson => {
            "The text has to be JSON itself; `yq -o=json .` (Debian's: `yq .`) makes it of YAML."
        }
        ConfigRefusal::BadForm => of_form(kind),
        ConfigRefusal::LeftOut => of_left_out(kind),
        ConfigRefusal::TooMany => of_count(kind),
        _ => match kind {
            Kind::Text(role) => of_text(refusal, role),
            _ => of_any(refusal),
        },
    }
}

// Of a value of the wrong form, and of a key that isn't known.
fn of_form(kind: Kind) -> &'static str {
    match kind {
        Kind::Object(_) => "Write an object, within `{` and `}`.",
        Kind::List(ListKind::Templates) => "Write an empty list, `[]`.",
        Kind::List(_) => "Write a list, within `[` and `]`.",
        Kind::Text(role) => of_text_form(role),
        Kind::Files => "Write an empty object, `{}`.",
        Kind::Flag => "Write `true` or `false`, without quotation marks.",
        Kind::Count => {
            "Write a whole number from 0 to 18446744073709551615, without quotation marks."
        }
        Kind::Unknown(object) => of_unknown(object),
        Kind::LeftOut(_) | Kind::Any => of_any(ConfigRefusal::BadForm),
    }
}

fn of_text_form(role: TextKind) -> &'static str {
    match role {
        TextKind::Plain => "Write the configuration's JSON as a text, in quotation marks.",
        TextKind::LabelName => {
            "Write a label's name: letters, digits and `_`, no digit first; `...` stands alone in `group_by`."
        }
        TextKind::LoneName => {
            "Write a label's name: letters, digits and `_`, no digit first; or `...` for all labels."
        }
        TextKind::Matcher => "Write a text of matchers, as `\"severity=page\"`.",
        TextKind::Named | TextKind::Name(_) => "Write a receiver's name, in quotation marks.",
        TextKind::Url => "Write a text, as `\"http://127.0.0.1:9/hook\"`.",
        TextKind::Wait | TextKind::Interval => "Write a duration as a text, as `\"1h30m\"`.",
    }
}

fn of_unknown(object: ObjectKind) -> &'static str {
    match object {
        ObjectKind::Document => {
            "Take it out: here may stand `alertmanager_config` and, empty, `template_files`."
        }
        ObjectKind::Top => {
            "Take it out: here may stand `global`, `route`, `receivers` and `inhibit_rules`."
        }
        ObjectKind::Global => "Take it out: here may stand `resolve_timeout`.",
        ObjectKind::Route(_) => {
            "Take it out: here may stand `receiver`, `group_by`, `group_wait`, `group_interval`, \
             `repeat_interval`, `matchers`, `continue` and `routes`."
        }
        ObjectKind::Receiver(_) => "Take it out: here may stand `name` and `webhook_configs`.",
        ObjectKind::Webhook => {
            "Take it out: here may stand `url`, `send_resolved` and `max_alerts`."
        }
        ObjectKind::Rule => {
            "Take it out: here may stand `source_matchers`, `target_matchers` and `equal`."
        }
    }
}

fn of_left_out(kind: Kind) -> &'static str {
    match kind {
        Kind::LeftOut(LeftOutKind::Matching) => {
            "Write `matchers`, a list of texts: `name=\"value\"`, or `name=~\"pattern\"`."
        }
        Kind::LeftOut(LeftOutKind::Intervals) => {
            "Take it out: amring knows no times of day; a silence mutes for a while."
        }
        Kind::LeftOut(LeftOutKind::Sending) => {
            "Take it out: notices are posted to `url` as it stands; a proxy there can do the rest."
        }
        Kind::LeftOut(LeftOutKind::Receivers) => {
            "Take it out: amring tells `webhook_configs` alone; a webhook can pass notices on."
        }
        Kind::List(_) | Kind::Files => "Leave it empty: notices have one form, without templates.",
        _ => of_any(ConfigRefusal::LeftOut),
    }
}

fn of_count(kind: Kind) -> &'static str {
    match kind {
        Kind::Object(ObjectKind::Route(1)) => {
            "At most 1,000 routes, with the root: join some, or give part to another tenant."
        }
        Kind::Object(_) => "Move it out: a route may be 16 deep, where the root's depth is 1.",
        Kind::List(ListKind::Receivers) => {
            "At most 1,000 receivers: give part of them to another tenant."
        }
        Kind::List(_) => {
            "At most 16 webhooks of a receiver: spread them over routes with `continue`."
        }
        _ => of_any(ConfigRefusal::TooMany),
    }
}

// Of a text that is one, but says what it must not.
fn of_text(refusal: ConfigRefusal, role: TextKind) -> &'static str {
    match role {
        TextKind::Named => "Add a receiver of this name to `receivers`, or name one that is there.",
        TextKind::Name(_) => "Name it otherwise: a receiver before it has this name.",
        TextKind::Wait => {
            "Write it as `1h30m`, or `0`: whole numbers of `y`, `w`, `d`, `h`, `m`, `s`, `ms` in this order, \
             `100y` at most."
        }
        TextKind::Interval => {
            "Write it as `1h30m`, `1s` or more: whole numbers of `y`, `w`, `d`, `h`, `m`, `s`, `ms` in this order, \
             `100y` at most."
        }
        TextKind::Url => {
            "Name the host by its IPv4 address or as `localhost`; a port is 1 to 65535, a path ASCII without `#`."
        }
        _ => of_any(refusal),
    }
}

fn of_matchers(refusal: MatcherRefusal) -> &'static str {
    match refusal {
        MatcherRefusal::NoMatchers => {
            "Write `name=\"value\"`, the name of letters, digits and `_`; quote values with `,`, `\"`, `{` or `}`, \
             and write `\\\\` for `\\` in quotes."
        }
        MatcherRefusal::BadPattern => {
            "Mend its pattern: close brackets, nest them less, put `\\` before a sign that stands for itself."
        }
        MatcherRefusal::LongPattern => {
            "Shorten its pattern to 256 bytes, or split it among routes or rules."
        }
        MatcherRefusal::BuildRefused => of_any(ConfigRefusal::BuildRefused),
    }
}
