//! The labels that matchers take, however many patterns were refused, and codes that no reply has.

use crate::labels::label_set;
use am_expect::{equal, holds};
use am_labels::LabelSet;
use am_match::{SpellRefusal, TakeRefusal, read_matchers};
use am_pattern::{PatternCache, PatternRefusal};
use am_text::Failure;
use std::alloc::{AllocError, Global};
use std::test::Fail;

#[test]
fn refusals_have_codes() -> Result<(), Fail> {
    equal(SpellRefusal::TooLong.code(), "Mb1", "too long")?;
    equal(TakeRefusal::Short.code(), "Mb2", "short")?;
    equal(TakeRefusal::Bad.code(), "Mb3", "bad")
}

// Matchers, and whether each takes the label `a="ab"`.
const ASKED: &[(&str, bool)] = &[
    ("a=~\"a|b\"", false),
    ("a=~\"(a.)?\"", true),
    ("c=~\"(a.)?\"", true),
    ("c!~\"a|b\"", true),
    ("c=\"\"", true),
    ("c!=\"\"", false),
    ("a!~\"(a.)?\"", false),
];

fn takes(
    alloc: Global,
    text: &str,
    labels: &LabelSet,
    cache: &mut PatternCache,
) -> Result<bool, Fail> {
    let matchers = read_matchers(alloc, text, cache)?;
    match matchers.as_slice() {
        [matcher] => Ok(matcher.matches(alloc, labels, cache)?),
        _ => Err(Fail::new(text)),
    }
}

// Whether many patterns are refused, each for its depth.
fn are_refused(alloc: Global, cache: &mut PatternCache) -> Result<bool, AllocError> {
    for number in 0..1000 {
        if !is_refused(alloc, number, cache)? {
            return Ok(false);
        }
    }
    Ok(true)
}

// The pattern is the number and many plus signs, of which each nests a level deeper.
fn is_refused(alloc: Global, number: usize, cache: &mut PatternCache) -> Result<bool, AllocError> {
    let pattern = format!(in alloc; "{number:+<253}")?;
    let refused = Some(Failure::Refused(PatternRefusal::BadPattern));
    Ok(cache.answer(alloc, pattern.as_str(), "").err() == refused)
}

fn each_is_matched(alloc: Global, labels: &LabelSet, cache: &mut PatternCache) -> Result<(), Fail> {
    for (text, wanted) in ASKED {
        equal(takes(alloc, text, labels, cache)?, *wanted, *text)?;
    }
    Ok(())
}

#[test]
fn labels_are_matched_after_many_refusals(rt: HostRuntime) -> Result<(), Fail> {
    let mut cache = PatternCache::new(rt.alloc(), 2, [7; 16])?;
    holds(are_refused(rt.alloc(), &mut cache)?, "many patterns")?;
    each_is_matched(rt.alloc(), &label_set(rt.alloc(), "a", "ab")?, &mut cache)
}
