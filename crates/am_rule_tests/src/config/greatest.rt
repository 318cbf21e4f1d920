//! The greatest texts.

use super::*;
use am_expect::{equal, holds};
use std::alloc::AllocError;
use std::test::Fail;

// The greatest text that is read, in bytes.
const GREATEST: usize = 131_072;

// A code, and what stands before, in and after a part that is repeated as often as a text can hold it.
type Row = (&'static str, &'static str, &'static str, &'static str);

const ROWS: &[Row] = &[
    (
        "ok",
        r#"{"receivers":[{"name":"a"}],"route":{"receiver":"a","group_by":["a""#,
        r#","a""#,
        "]}}",
    ),
    (
        "ok",
        r#"{"receivers":[{"name":"a"}],"route":{"receiver":"a","routes":[{"matchers":["a=b""#,
        r#","a=b""#,
        "]}]}}",
    ),
    (
        "ok",
        r#"{"receivers":[{"name":"a"}],"route":{"receiver":"a"},"inhibit_rules":[{}"#,
        ",{}",
        "]}",
    ),
    (
        "ok",
        r#"{"route":{"receiver":"a"},"receivers":[{"name":"a","webhook_configs":[{"url":"http://localhost/"#,
        "a",
        r#""}]}]}"#,
    ),
    (
        "ok",
        r#"{"receivers":[{"name":"a"},{"name":""#,
        "b",
        r#""}],"route":{"receiver":"a"}}"#,
    ),
    (
        "C8",
        r#"{"receivers":[{"name":"a"}],"route":{"receiver":"a","routes":[{}"#,
        ",{}",
        "]}}",
    ),
    (
        "C8",
        r#"{"receivers":[{"name":"a"}],"route":{"receiver":"a","routes":[{}"#,
        r#",{"receiver":"a"}"#,
        "]}}",
    ),
    (
        "C9",
        r#"{"route":{"receiver":"a"},"receivers":[{"name":"a","webhook_configs":[{"url":""#,
        "0",
        r#""}]}]}"#,
    ),
];

// A text with so many of a part within it.
fn repeated(
    alloc: Global,
    before: &str,
    part: &str,
    count: usize,
    after: &str,
) -> Result<String, AllocError> {
    let mut text = String::from_str(alloc, before)?;
    for _ in 0..count {
        text.push_str(part)?;
    }
    text.push_str(after)?;
    Ok(text)
}

fn greatest(alloc: Global, before: &str, part: &str, after: &str) -> Result<String, AllocError> {
    let ends = before.len().saturating_add(after.len());
    let room = GREATEST.saturating_sub(ends);
    let count = room.checked_div(part.len()).unwrap_or(0);
    repeated(alloc, before, part, count, after)
}

fn greatest_has_code(alloc: Global, row: &Row) -> Result<(), Fail> {
    let (code, before, part, after) = row;
    let text = greatest(alloc, before, part, after)?;
    holds(text.len() > 131_000, *before)?;
    equal(code_of_text(alloc, text.as_str()), *code, *before)
}

#[test]
fn the_greatest_texts_are_read(rt: HostRuntime) -> Result<(), Fail> {
    for row in ROWS {
        greatest_has_code(rt.alloc(), row)?;
    }
    Ok(())
}

// What the last route waits of a text that is read.
fn last_wait(read: Read) -> Option<u64> {
    let config = read.ok()?;
    let node = config.routes().last()?;
    Some(node.item.settings.group_wait)
}

// The last of many routes waits what the root says in the longest of durations.
#[test]
fn the_longest_wait_is_read(rt: HostRuntime) -> Result<(), Fail> {
    let start = r#"{"receivers":[{"name":"a"}],"route":{"receiver":"a","routes":[{}"#;
    let before = repeated(rt.alloc(), start, ",{}", 998, r#"],"group_wait":""#)?;
    let text = greatest(rt.alloc(), before.as_str(), "0", r#"1s"}}"#)?;
    equal(
        last_wait(read_text(rt.alloc(), text.as_str())),
        Some(1000),
        "the last route",
    )
}

// So many receivers, each with its number as name, and one more.
fn numbered(alloc: Global, count: usize) -> Result<String, AllocError> {
    let mut text = String::from_str(alloc, r#"]},"receivers":["#)?;
    for number in 0..count {
        write!(text, "{{\"name\":\"{number}\"}},")?;
    }
    text.push_str(r#"{"name":"last"}]}"#)?;
    Ok(text)
}

// The code of a text with so many receivers before the last, and so many routes that go to the last.
fn code_of_many(
    alloc: Global,
    receivers: usize,
    routes: usize,
) -> Result<&'static str, AllocError> {
    let before = r#"{"route":{"receiver":"0","routes":[{}"#;
    let route = r#",{"receiver":"last"}"#;
    let after = numbered(alloc, receivers)?;
    let text = repeated(alloc, before, route, routes, after.as_str())?;
    Ok(code_of_text(alloc, text.as_str()))
}

// So many receivers and routes, and the code of a text with these.
const COUNTS: &[(usize, usize, &str)] = &[(8_000, 0, "C8"), (3_500, 3_500, "C8"), (999, 998, "ok")];

#[test]
fn many_parts_are_read(rt: HostRuntime) -> Result<(), Fail> {
    for (receivers, routes, wanted) in COUNTS {
        let code = code_of_many(rt.alloc(), *receivers, *routes)?;
        equal(code, *wanted, *receivers)?;
    }
    Ok(())
}
