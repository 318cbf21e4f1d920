use super::minute;
use am_expect::equal;
use am_pattern::PatternCache;
use am_silence::read_silence;
use am_text::Failure;
use std::alloc::{AllocError, Global};
use std::test::Fail;

// Each line has a body that is posted at minute 5, and behind `→` the code of its refusal. The long patterns have 257
// bytes.
const TABLE: &str = r#"# The form.
{"matchers":[],"createdBy":"me","comment":"why","startsAt":"","endsAt":"2025-06-15T15:06:40Z"}→S6
# The matchers.
{"matchers":[],"createdBy":"me","comment":"why","startsAt":"2025-06-15T15:07:40Z","endsAt":"2025-06-15T15:06:40Z"}→S1
{"matchers":[{"name":"1","value":"(","isRegex":true}],"createdBy":"me","comment":"why","startsAt":"2025-06-15T15:07:40Z","endsAt":"2025-06-15T15:06:40Z"}→M1
{"matchers":[{"name":"a","value":"aaaaaaaaaaaaaaaaaaaaaaaaaaaaaaaaaaaaaaaaaaaaaaaaaaaaaaaaaaaaaaaaaaaaaaaaaaaaaaaaaaaaaaaaaaaaaaaaaaaaaaaaaaaaaaaaaaaaaaaaaaaaaaaaaaaaaaaaaaaaaaaaaaaaaaaaaaaaaaaaaaaaaaaaaaaaaaaaaaaaaaaaaaaaaaaaaaaaaaaaaaaaaaaaaaaaaaaaaaaaaaaaaaaaaaaaaaaaaaaaaaaaaaaaaaaaaaaaa","isRegex":true},{"name":"a","value":"(","isRegex":true}],"createdBy":"me","comment":"why","startsAt":"2025-06-15T15:07:40Z","endsAt":"2025-06-15T15:06:40Z"}→M2
{"matchers":[{"name":"a","value":"aaaaaaaaaaaaaaaaaaaaaaaaaaaaaaaaaaaaaaaaaaaaaaaaaaaaaaaaaaaaaaaaaaaaaaaaaaaaaaaaaaaaaaaaaaaaaaaaaaaaaaaaaaaaaaaaaaaaaaaaaaaaaaaaaaaaaaaaaaaaaaaaaaaaaaaaaaaaaaaaaaaaaaaaaaaaaaaaaaaaaaaaaaaaaaaaaaaaaaaaaaaaaaaaaaaaaaaaaaaaaaaaaaaaaaaaaaaaaaaaaaaaaaaaaaaaaaaaa","isRegex":true}],"createdBy":"me","comment":"why","startsAt":"2025-06-15T15:07:40Z","endsAt":"2025-06-15T15:06:40Z"}→M3
{"matchers":[{"name":"a","value":"","isRegex":false}],"createdBy":"me","comment":"why","startsAt":"2025-06-15T15:07:40Z","endsAt":"2025-06-15T15:06:40Z"}→S2
# The times.
{"matchers":[{"name":"a","value":"b","isRegex":false}],"createdBy":"me","comment":"why","startsAt":"2025-06-15T15:07:40Z","endsAt":"2025-06-15T15:06:40Z"}→S3
# The moment.
{"matchers":[{"name":"a","value":"b","isRegex":false}],"createdBy":"me","comment":"why","startsAt":"2025-06-15T15:06:40Z","endsAt":"2025-06-15T15:11:40Z"}→S5
{"matchers":[{"name":"a","value":"b","isRegex":false}],"createdBy":"me","comment":"why","startsAt":"2025-06-15T15:06:40Z","endsAt":"2025-06-15T15:11:40.001Z"}→none"#;

// The code of what refuses a body.
fn code(alloc: Global, body: &str) -> Result<&'static str, AllocError> {
    let mut cache = PatternCache::new(alloc, 1, [7; 16])?;
    match read_silence(alloc, body.as_bytes(), minute(5), &mut cache) {
        Ok(_) => Ok("none"),
        Err(Failure::Refused(refusal)) => Ok(refusal.code()),
        Err(Failure::OutOfMemory) => Err(AllocError),
    }
}

fn line_is(alloc: Global, line: &str) -> Result<(), Fail> {
    match line.split_once('→') {
        Some((body, wanted)) => equal(code(alloc, body)?, wanted, body),
        None => Ok(()),
    }
}

#[test]
fn the_first_fault_decides(rt: HostRuntime) -> Result<(), Fail> {
    for line in TABLE.lines() {
        line_is(rt.alloc(), line)?;
    }
    Ok(())
}
