//! Posted bodies, and what the rules say of each.

use crate::parts::{POSTED_AT, at};
use am_alert::read_posted;
use am_expect::equal;
use am_item::Alert;
use am_labels::Label;
use am_text::{Failure, Moment};
use std::alloc::{AllocError, Global};
use std::test::Fail;

// Each line has a body, and behind `→` the code of its refusal; or what each alert that is taken says: names and values,
// then starts and ends in milliseconds after 15:00 of that day.
const TABLE: &str = r##"# No JSON, or no list of objects.
→A3
[→A3
[] []→A3
{}→A3
null→A3
[1]→A3
[null]→A3
[[]]→A3
[{"labels":{"a":"\ud800"}}]→A3
[{"labels":{"a":"b"},"x":1e999}]→A3
[{"labels":{"a":"\x"}}]→A3
[{"labels":{"a":"b"}},]→A3
# A field in a wrong form.
[{"labels":null}]→A3
[{"labels":[]}]→A3
[{"labels":{"a":1}}]→A3
[{"labels":{"a":null}}]→A3
[{"labels":{"":"b"}}]→A3
[{"labels":{"1a":"b"}}]→A3
[{"labels":{"a":"b","c-d":""}}]→A3
[{"labels":{"a":"b"},"annotations":null}]→A3
[{"labels":{"a":"b"},"annotations":{"c":true}}]→A3
[{"labels":{"a":"b"},"annotations":{"c d":"e"}}]→A3
[{"labels":{"a":"b"},"startsAt":null}]→A3
[{"labels":{"a":"b"},"startsAt":1}]→A3
[{"labels":{"a":"b"},"startsAt":""}]→A3
[{"labels":{"a":"b"},"startsAt":"2025-06-15"}]→A3
[{"labels":{"a":"b"},"startsAt":"1969-12-31T23:59:59Z"}]→A3
[{"labels":{"a":"b"},"endsAt":null}]→A3
[{"labels":{"a":"b"},"endsAt":["2025-06-15T15:06:40Z"]}]→A3
[{"labels":{"a":"b"},"endsAt":"2025-06-15T15:06:60Z"}]→A3
[{"labels":{"a":"b"},"generatorURL":null}]→A3
[{"labels":{"a":"b"},"generatorURL":{}}]→A3
# Of repeated keys the last counts.
[{"labels":{"a":"b"},"startsAt":"2025-06-15T15:06:40Z","startsAt":1}]→A3
[{"labels":{"a":"b","a":""}}]→A1
# No labels.
[{}]→A1
[{"labels":{}}]→A1
[{"labels":{"a":"","b":""}}]→A1
# An end before the start, also where the one or the other isn't given.
[{"labels":{"a":"b"},"startsAt":"2025-06-15T15:06:40Z","endsAt":"2025-06-15T15:06:39.999Z"}]→A2
[{"labels":{"a":"b"},"startsAt":"2025-06-15T15:11:40.001Z"}]→A2
# The first fault of the list, and of an alert its form before its labels before its end.
[{"labels":{},"endsAt":1}]→A3
[{"startsAt":"2025-06-15T15:06:41Z","endsAt":"2025-06-15T15:06:40Z"}]→A1
[{"labels":{"a":"b"}},{"labels":{}},{"labels":1}]→A1
[{"labels":1},{"labels":{}}]→A3
[{"labels":{"a":"b"},"startsAt":"2026-01-01T00:00:00Z"},{"labels":{}}]→A2
# Taken.
[]→
 [ ] →
# What is absent: the start is the end that is given, else the moment; the end is five minutes after the moment.
[{"labels":{"a":"b"}}]→a=b,;;400000;700000;¶
[{"labels":{"a":"b"},"endsAt":"2025-06-15T15:06:39Z"}]→a=b,;;399000;399000;¶
[{"labels":{"a":"b"},"startsAt":"2025-06-15T15:06:39Z"}]→a=b,;;399000;700000;¶
[{"labels":{"a":"b"},"startsAt":"0001-01-01T00:00:00Z","endsAt":"0001-01-01T00:00:00Z"}]→a=b,;;400000;700000;¶
# All is given; the end may be the start, and digits finer than milliseconds are cut off.
[{"labels":{"a":"b"},"annotations":{"d":"e","c":""},"startsAt":"2025-06-15T17:06:40.0019+02:00","endsAt":"2025-06-15T15:06:40.001Z","generatorURL":"http://h/?q=1"}]→a=b,;c=,d=e,;400001;400001;http://h/?q=1¶
[{"labels":{"a":"b"},"startsAt":"2025-06-15T15:11:40Z"}]→a=b,;;700000;700000;¶
# Labels in order of name, those with an empty value dropped.
[{"labels":{"b":"1","c":"","a":"2","_0":"3","B":"4"}}]→B=4,_0=3,a=2,b=1,;;400000;700000;¶
# Of repeated keys the last counts.
[{"labels":{"a":"","a":"b"}}]→a=b,;;400000;700000;¶
[{"labels":1,"labels":{"a":"b"}}]→a=b,;;400000;700000;¶
[{"labels":{"a":"b"},"annotations":{"c":"d"},"annotations":{}}]→a=b,;;400000;700000;¶
[{"labels":{"a":"b"},"startsAt":1,"startsAt":"2025-06-15T15:06:40Z"}]→a=b,;;400000;700000;¶
[{"labels":{"a":"b"},"endsAt":"2025-06-15T15:06:40Z","endsAt":"2025-06-15T15:06:41Z"}]→a=b,;;401000;401000;¶
# Keys of other names, in whatever form.
[{"labels":{"a":"b"},"status":null,"receivers":[1e308],"starts_at":1,"STARTSAT":true,"":{}}]→a=b,;;400000;700000;¶
# A list in its order, alerts of equal labels too.
[{"labels":{"a":"b"}},{"labels":{"a":"a"}}]→a=b,;;400000;700000;¶a=a,;;400000;700000;¶
[{"labels":{"a":"b"}},{"labels":{"a":"b"},"generatorURL":"x"}]→a=b,;;400000;700000;¶a=b,;;400000;700000;x¶
# 64 labels, an empty one aside, and 65.
[{"labels":{"l00":"v","l01":"v","l02":"v","l03":"v","l04":"v","l05":"v","l06":"v","l07":"v","l08":"v","l09":"v","l10":"v","l11":"v","l12":"v","l13":"v","l14":"v","l15":"v","l16":"v","l17":"v","l18":"v","l19":"v","l20":"v","l21":"v","l22":"v","l23":"v","l24":"v","l25":"v","l26":"v","l27":"v","l28":"v","l29":"v","l30":"v","l31":"v","l32":"v","l33":"v","l34":"v","l35":"v","l36":"v","l37":"v","l38":"v","l39":"v","l40":"v","l41":"v","l42":"v","l43":"v","l44":"v","l45":"v","l46":"v","l47":"v","l48":"v","l49":"v","l50":"v","l51":"v","l52":"v","l53":"v","l54":"v","l55":"v","l56":"v","l57":"v","l58":"v","l59":"v","l60":"v","l61":"v","l62":"v","l63":"v","e":""}}]→l00=v,l01=v,l02=v,l03=v,l04=v,l05=v,l06=v,l07=v,l08=v,l09=v,l10=v,l11=v,l12=v,l13=v,l14=v,l15=v,l16=v,l17=v,l18=v,l19=v,l20=v,l21=v,l22=v,l23=v,l24=v,l25=v,l26=v,l27=v,l28=v,l29=v,l30=v,l31=v,l32=v,l33=v,l34=v,l35=v,l36=v,l37=v,l38=v,l39=v,l40=v,l41=v,l42=v,l43=v,l44=v,l45=v,l46=v,l47=v,l48=v,l49=v,l50=v,l51=v,l52=v,l53=v,l54=v,l55=v,l56=v,l57=v,l58=v,l59=v,l60=v,l61=v,l62=v,l63=v,;;400000;700000;¶
[{"labels":{"l00":"v","l01":"v","l02":"v","l03":"v","l04":"v","l05":"v","l06":"v","l07":"v","l08":"v","l09":"v","l10":"v","l11":"v","l12":"v","l13":"v","l14":"v","l15":"v","l16":"v","l17":"v","l18":"v","l19":"v","l20":"v","l21":"v","l22":"v","l23":"v","l24":"v","l25":"v","l26":"v","l27":"v","l28":"v","l29":"v","l30":"v","l31":"v","l32":"v","l33":"v","l34":"v","l35":"v","l36":"v","l37":"v","l38":"v","l39":"v","l40":"v","l41":"v","l42":"v","l43":"v","l44":"v","l45":"v","l46":"v","l47":"v","l48":"v","l49":"v","l50":"v","l51":"v","l52":"v","l53":"v","l54":"v","l55":"v","l56":"v","l57":"v","l58":"v","l59":"v","l60":"v","l61":"v","l62":"v","l63":"v","l64":"v"}}]→A3
# 64 annotations, an empty one among them, and 65.
[{"labels":{"a":"b"},"annotations":{"l00":"v","l01":"v","l02":"v","l03":"v","l04":"v","l05":"v","l06":"v","l07":"v","l08":"v","l09":"v","l10":"v","l11":"v","l12":"v","l13":"v","l14":"v","l15":"v","l16":"v","l17":"v","l18":"v","l19":"v","l20":"v","l21":"v","l22":"v","l23":"v","l24":"v","l25":"v","l26":"v","l27":"v","l28":"v","l29":"v","l30":"v","l31":"v","l32":"v","l33":"v","l34":"v","l35":"v","l36":"v","l37":"v","l38":"v","l39":"v","l40":"v","l41":"v","l42":"v","l43":"v","l44":"v","l45":"v","l46":"v","l47":"v","l48":"v","l49":"v","l50":"v","l51":"v","l52":"v","l53":"v","l54":"v","l55":"v","l56":"v","l57":"v","l58":"v","l59":"v","l60":"v","l61":"v","l62":"v","e":""}}]→a=b,;e=,l00=v,l01=v,l02=v,l03=v,l04=v,l05=v,l06=v,l07=v,l08=v,l09=v,l10=v,l11=v,l12=v,l13=v,l14=v,l15=v,l16=v,l17=v,l18=v,l19=v,l20=v,l21=v,l22=v,l23=v,l24=v,l25=v,l26=v,l27=v,l28=v,l29=v,l30=v,l31=v,l32=v,l33=v,l34=v,l35=v,l36=v,l37=v,l38=v,l39=v,l40=v,l41=v,l42=v,l43=v,l44=v,l45=v,l46=v,l47=v,l48=v,l49=v,l50=v,l51=v,l52=v,l53=v,l54=v,l55=v,l56=v,l57=v,l58=v,l59=v,l60=v,l61=v,l62=v,;400000;700000;¶
[{"labels":{"a":"b"},"annotations":{"l00":"v","l01":"v","l02":"v","l03":"v","l04":"v","l05":"v","l06":"v","l07":"v","l08":"v","l09":"v","l10":"v","l11":"v","l12":"v","l13":"v","l14":"v","l15":"v","l16":"v","l17":"v","l18":"v","l19":"v","l20":"v","l21":"v","l22":"v","l23":"v","l24":"v","l25":"v","l26":"v","l27":"v","l28":"v","l29":"v","l30":"v","l31":"v","l32":"v","l33":"v","l34":"v","l35":"v","l36":"v","l37":"v","l38":"v","l39":"v","l40":"v","l41":"v","l42":"v","l43":"v","l44":"v","l45":"v","l46":"v","l47":"v","l48":"v","l49":"v","l50":"v","l51":"v","l52":"v","l53":"v","l54":"v","l55":"v","l56":"v","l57":"v","l58":"v","l59":"v","l60":"v","l61":"v","l62":"v","l63":"v","e":""}}]→A3
# Lists in lists: a depth of 127, and of 128.
[{"labels":{"a":"b"},"x":[[[[[[[[[[[[[[[[[[[[[[[[[[[[[[[[[[[[[[[[[[[[[[[[[[[[[[[[[[[[[[[[[[[[[[[[[[[[[[[[[[[[[[[[[[[[[[[[[[[[[[[[[[[[[[[[[[[[[[[[[[[[[]]]]]]]]]]]]]]]]]]]]]]]]]]]]]]]]]]]]]]]]]]]]]]]]]]]]]]]]]]]]]]]]]]]]]]]]]]]]]]]]]]]]]]]]]]]]]]]]]]]]]]]]]]]]]]]]]]]]]]]]]]]]]}]→a=b,;;400000;700000;¶
[{"labels":{"a":"b"},"x":[[[[[[[[[[[[[[[[[[[[[[[[[[[[[[[[[[[[[[[[[[[[[[[[[[[[[[[[[[[[[[[[[[[[[[[[[[[[[[[[[[[[[[[[[[[[[[[[[[[[[[[[[[[[[[[[[[[[[[[[[[[[[[]]]]]]]]]]]]]]]]]]]]]]]]]]]]]]]]]]]]]]]]]]]]]]]]]]]]]]]]]]]]]]]]]]]]]]]]]]]]]]]]]]]]]]]]]]]]]]]]]]]]]]]]]]]]]]]]]]]]]]]]]]]]]]}]→A3"##;

fn push_pairs(told: &mut String, pairs: &[Label]) -> Result<(), AllocError> {
    for pair in pairs {
        write!(told, "{}={},", pair.name.as_str(), pair.value.as_str())?;
    }
    Ok(())
}

// Milliseconds after 15:00.
fn since(moment: Moment) -> u64 {
    moment.milliseconds().saturating_sub(1_749_999_600_000)
}

fn push_alert(told: &mut String, alert: &Alert) -> Result<(), AllocError> {
    push_pairs(told, alert.labels.labels())?;
    told.push(';')?;
    push_pairs(told, alert.annotations.labels())?;
    let (start, end) = (since(alert.starts_at), since(alert.ends_at));
    write!(told, ";{start};{end};{}¶", alert.generator_url.as_str())
}

// What alerts say, one behind the other.
fn told(alloc: Global, alerts: &[Alert]) -> Result<String, AllocError> {
    let mut told = String::new(alloc);
    for alert in alerts {
        push_alert(&mut told, alert)?;
    }
    Ok(told)
}

// What the alerts say of a body that is posted at 15:06:40, or the code of its refusal.
fn said(alloc: Global, body: &[u8]) -> Result<String, AllocError> {
    match read_posted(alloc, body, at(POSTED_AT), 300_000) {
        Ok(alerts) => told(alloc, &alerts),
        Err(Failure::Refused(refusal)) => String::from_str(alloc, refusal.code()),
        Err(Failure::OutOfMemory) => Err(AllocError),
    }
}

// What is tried, its bytes, and what is said of them.
type Row<'a> = (&'a str, &'a [u8], &'a str);

fn row_is(alloc: Global, row: &Row<'_>) -> Result<(), Fail> {
    let said = said(alloc, row.1)?;
    equal(said.as_str(), row.2, row.0)
}

fn line_is(alloc: Global, line: &str) -> Result<(), Fail> {
    match line.split_once('→') {
        Some((body, wanted)) => row_is(alloc, &(body, body.as_bytes(), wanted)),
        None => Ok(()),
    }
}

#[test]
fn posted_bodies(rt: HostRuntime) -> Result<(), Fail> {
    for line in TABLE.lines() {
        line_is(rt.alloc(), line)?;
    }
    Ok(())
}

// Bodies that a line has no place for.
const OTHER_BODIES: &[Row<'static>] = &[
    ("no text", b"[{\"labels\":{\"a\":\"\xff\"}}]", "A3"),
    (
        "a control character",
        b"[{\"labels\":{\"a\":\"\x01\"}}]",
        "A3",
    ),
    ("a byte order mark", b"\xef\xbb\xbf[]", "A3"),
    (
        "escapes",
        br#"[{"labels":{"a":"\"\\\/\u0000\u001f\n\u00e9\ud83d\ude00"}}]"#,
        "a=\"\\/\u{0}\u{1f}\né😀,;;400000;700000;¶",
    ),
    (
        "other characters",
        b"[{\"labels\":{\"a\":\"\x7f\xc3\xa9\"}}]",
        "a=\u{7f}é,;;400000;700000;¶",
    ),
];

#[test]
fn other_bodies(rt: HostRuntime) -> Result<(), Fail> {
    for row in OTHER_BODIES {
        row_is(rt.alloc(), row)?;
    }
    Ok(())
}
