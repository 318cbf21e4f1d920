//! Files of configurations, with the codes and the places of their refusals.

use am_expect::equal;
use am_judge::{Refusal, Verdict, judge};
use am_limit::Limits;
use am_pattern::PatternCache;
use std::alloc::Global;
use std::test::Fail;

// Files, and what is told of each: the code and the place.
const FILES: [(&str, &str, &str); 28] = [
    (
        r#"{"route":{"receiver":"a"},"receivers":[{"name":"a"}]}"#,
        "ok",
        "",
    ),
    (
        r#"{"alertmanager_config":"{\"route\":{\"receiver\":\"a\"},\"receivers\":[{\"name\":\"a\"}]}"}"#,
        "ok",
        "",
    ),
    ("route:\n  receiver: a\n", "C1", ""),
    (
        r#"{"alertmanager_config":"route:"}"#,
        "C1",
        "alertmanager_config",
    ),
    (
        r#"{"alertmanager_config":null}"#,
        "C2",
        "alertmanager_config",
    ),
    (
        r#"{"alertmanager_config":"{\"route\":{\"receiver\":\"a\"},\"receivers\":[{\"name\":\"a\"}]}","x":1}"#,
        "C2",
        "x",
    ),
    (
        r#"{"alertmanager_config":"{\"route\":{\"receiver\":\"a\"},\"receivers\":[{\"name\":\"a\"}]}",
"template_files":{"a":""}}"#,
        "C6",
        "template_files",
    ),
    ("[]", "C2", ""),
    ("{}", "C2", "route"),
    (r#"{"route":{"receiver":"a"}}"#, "C2", "receivers"),
    (
        r#"{"route":{},"receivers":[{"name":"a"}]}"#,
        "C2",
        "route.receiver",
    ),
    (
        r#"{"route":{"receiver":"a","group_by":["x","..."]},"receivers":[{"name":"a"}]}"#,
        "C2",
        "route.group_by[1]",
    ),
    (
        r#"{"route":{"receiver":"a","routes":[{},{"group_wait":5}]},"receivers":[{"name":"a"}]}"#,
        "C2",
        "route.routes[1].group_wait",
    ),
    (
        r#"{"route":{"receiver":"a"},
"receivers":[{"name":"a","webhook_configs":[{"url":"http://localhost/","max_alerts":-1}]}]}"#,
        "C2",
        "receivers[0].webhook_configs[0].max_alerts",
    ),
    (
        r#"{"route":{"receiver":"a","routes":[{"receiver":"b"}]},"receivers":[{"name":"a"}]}"#,
        "C3",
        "route.routes[0].receiver",
    ),
    (
        r#"{"route":{"receiver":"a"},"receivers":[{"name":"b"},{"name":"a"},{"name":"a"}]}"#,
        "C3",
        "receivers[2].name",
    ),
    (
        r#"{"route":{"receiver":"a","matchers":["x=1"]},"receivers":[{"name":"a"}]}"#,
        "C4",
        "route.matchers",
    ),
    (
        r#"{"global":{"resolve_timeout":"5"},"route":{"receiver":"a"},"receivers":[{"name":"a"}]}"#,
        "C5",
        "global.resolve_timeout",
    ),
    (
        r#"{"route":{"receiver":"a","group_wait":"0s","repeat_interval":"0s"},"receivers":[{"name":"a"}]}"#,
        "C5",
        "route.repeat_interval",
    ),
    (
        r#"{"route":{"receiver":"a","routes":[{"match":{}}]},"receivers":[{"name":"a"}]}"#,
        "C6",
        "route.routes[0].match",
    ),
    (
        r#"{"route":{"receiver":"a"},"receivers":[{"name":"a","email_configs":[]}]}"#,
        "C6",
        "receivers[0].email_configs",
    ),
    (
        r#"{"templates":["a"],"route":{"receiver":"a"},"receivers":[{"name":"a"}]}"#,
        "C6",
        "templates",
    ),
    (
        r#"{"route":{"receiver":"a","routes":[{},{},{"matchers":["x=~\"(\""]}]},"receivers":[{"name":"a"}]}"#,
        "C7",
        "route.routes[2].matchers[0]",
    ),
    (
        r#"{"route":{"receiver":"a"},"receivers":[{"name":"a"}],"inhibit_rules":[{"target_matchers":["a=b","a"]}]}"#,
        "C7",
        "inhibit_rules[0].target_matchers[1]",
    ),
    (
        r#"{"route":{"receiver":"a","routes":[{"matchers":["a=b","x=~\"(a{1000}){1000}\""]}]},
"receivers":[{"name":"a"}]}"#,
        "B2",
        "route.routes[0].matchers[1]",
    ),
    (
        r#"{"route":{"receiver":"a"},"receivers":[{"name":"a","webhook_configs":[{"url":"https://localhost/"}]}]}"#,
        "C9",
        "receivers[0].webhook_configs[0].url",
    ),
    (
        r#"{"route":{"receiver":"a"},"receivers":[{"name":"a","webhook_configs":[{"url":"http://a/"}]}]}"#,
        "C9",
        "receivers[0].webhook_configs[0].url",
    ),
    (r#""route""#, "C2", ""),
];

// Files that are refused, and what is to be done.
const REMEDIES: [(&str, &str); 14] = [
    (
        "route:\n  receiver: a\n",
        "Write JSON (docs/API.md), the posted document or its text alone; \
         `yq -o=json .` (Debian's: `yq .`) makes it of YAML.",
    ),
    (
        r#"{"alertmanager_config":"route:"}"#,
        "The text has to be JSON itself; `yq -o=json .` (Debian's: `yq .`) makes it of YAML.",
    ),
    (r#"{"receivers":[]}"#, "Add this key: it is required."),
    (
        r#"{"route":{"receiver":"a","group_wait":5},"receivers":[{"name":"a"}]}"#,
        r#"Write a duration as a text, as `"1h30m"`."#,
    ),
    (
        r#"{"route":{"receiver":"a"},"receivers":[{"name":"a","title":"b"}]}"#,
        "Take it out: here may stand `name` and `webhook_configs`.",
    ),
    (
        r#"{"route":{"receiver":"a","routes":[{"receiver":"b"}]},"receivers":[{"name":"a"}]}"#,
        "Add a receiver of this name to `receivers`, or name one that is there.",
    ),
    (
        r#"{"route":{"receiver":"a"},"receivers":[{"name":"a"},{"name":"a"}]}"#,
        "Name it otherwise: a receiver before it has this name.",
    ),
    (
        r#"{"route":{"receiver":"a","routes":[{"match":{}}]},"receivers":[{"name":"a"}]}"#,
        r#"Write `matchers`, a list of texts: `name="value"`, or `name=~"pattern"`."#,
    ),
    (
        r#"{"route":{"receiver":"a","active_time_intervals":[]},"receivers":[{"name":"a"}]}"#,
        "Take it out: amring knows no times of day; a silence mutes for a while.",
    ),
    (
        r#"{"route":{"receiver":"a"},"receivers":[{"name":"a","slack_configs":[]}]}"#,
        "Take it out: amring tells `webhook_configs` alone; a webhook can pass notices on.",
    ),
    (
        r#"{"route":{"receiver":"a"},"receivers":[{"name":"a"}],"inhibit_rules":[{"source_matchers":["a"]}]}"#,
        "Write `name=\"value\"`, the name of letters, digits and `_`; quote values with `,`, `\"`, `{` or `}`, \
         and write `\\\\` for `\\` in quotes.",
    ),
    (
        r#"{"route":{"receiver":"a","routes":[{"matchers":["x=~\"(\""]}]},"receivers":[{"name":"a"}]}"#,
        r"Mend its pattern: close brackets, nest them less, put `\` before a sign that stands for itself.",
    ),
    (
        r#"{"route":{"receiver":"a"},"receivers":[{"name":"a","webhook_configs":[{"url":"https://127.0.0.1/"}]}]}"#,
        "Begin it with `http://`: amring speaks no TLS; for `https://` name a proxy beside it.",
    ),
    (
        r#"{"route":{"receiver":"a"},"receivers":[{"name":"a","webhook_configs":[{"url":"http://a/"}]}]}"#,
        "Name the host by its IPv4 address or as `localhost`; a port is 1 to 65535, a path ASCII without `#`.",
    ),
];

// Why a file is refused by these limits; none where it is accepted.
fn refusal_of(alloc: Global, file: &str, limits: Limits) -> Result<Option<Refusal>, Fail> {
    let mut cache = PatternCache::new(alloc, 16, [7; 16])?;
    match judge(alloc, file.as_bytes(), limits, &mut cache)? {
        Verdict::Accepted => Ok(None),
        Verdict::Refused(refusal) => Ok(Some(refusal)),
    }
}

// A file is refused by this code at this place, or accepted where the code is `ok`.
fn is_judged(alloc: Global, file: &str, code: &str, place: &str) -> Result<(), Fail> {
    match refusal_of(alloc, file, Limits::default())? {
        None => equal("ok", code, file),
        Some(refusal) => {
            equal(refusal.reason.code(), code, file)?;
            equal(refusal.place.as_str(), place, file)
        }
    }
}

#[test]
fn files(rt: HostRuntime) -> Result<(), Fail> {
    for (file, code, place) in FILES {
        is_judged(rt.alloc(), file, code, place)?;
    }
    Ok(())
}

// A file is refused, and this is told to be done.
fn is_remedied(alloc: Global, file: &str, remedy: &str) -> Result<(), Fail> {
    match refusal_of(alloc, file, Limits::default())? {
        None => equal("accepted", remedy, file),
        Some(refusal) => equal(refusal.remedy(), remedy, file),
    }
}

#[test]
fn remedies(rt: HostRuntime) -> Result<(), Fail> {
    for (file, remedy) in REMEDIES {
        is_remedied(rt.alloc(), file, remedy)?;
    }
    Ok(())
}

// This line is printed of a file that is refused by these limits.
fn is_printed(alloc: Global, file: &str, limits: Limits, line: &str) -> Result<(), Fail> {
    match refusal_of(alloc, file, limits)? {
        None => equal("accepted", line, file),
        Some(refusal) => {
            let printed = format!(in alloc; "{refusal}")?;
            equal(printed.as_str(), line, file)
        }
    }
}

#[test]
fn lines(rt: HostRuntime) -> Result<(), Fail> {
    let alloc = rt.alloc();
    let mut limits = Limits::default();
    let whole = "C2: Write an object, within `{` and `}`.";
    is_printed(alloc, "[]", limits, whole)?;
    let place = "C2 route: Add this key: it is required.";
    is_printed(alloc, "{}", limits, place)?;
    limits.configuration = 20;
    let too_long =
        "Li3: Shorten it. It may have 20 bytes as posted; `--limits`, unread here, may set others.";
    is_printed(alloc, "{}", limits, too_long)
}
