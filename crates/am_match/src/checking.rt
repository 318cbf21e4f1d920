//! Patterns that are checked, and texts of matchers that are read with their patterns.

ghost use Rattle.std.specs.Prelude.{◌≡◌, ◌∷◌, [], ◌&&◌, true, false, not, All, IfOk, IfErr, OnOk, MatchOption, Some, chars};
ghost use Rattle.std.specs.List.{list_any};
ghost use Rattle.am_text.specs.Outcome.{Gives};
ghost use Rattle.am_pattern.specs.Asking.{Asked};
ghost use Rattle.am_pattern.specs.Kept.{HasRegex};
ghost use Rattle.am_pattern.specs.Taking.{IsPattern, is_pattern, is_shallow};
ghost use Rattle.am_match.specs.Checking.{AreRefusedRightly, GivesUnlessBuild, IsFine, IsPatternFailure, IsTextFailure, is_short, meaning_of, pattern_refusal, patterns_in, reading_of, unless_refused, WhereShort};
ghost use Rattle.am_match.specs.Matchers.{is_on_pattern, patterns_of};
ghost use Rattle.am_match.specs.Reading.{matchers_of};
ghost use Rattle.am_match.specs.Refusals.{refusal_of};

use crate::matcher::Matcher;
use crate::reading::parse;
use crate::refusal::MatcherRefusal;
use am_pattern::{MAX_PATTERN, PatternCache, PatternRefusal, is_shallow_pattern};
use am_text::Failure;
use std::alloc::Global;

fn refusal_from(refusal: PatternRefusal) -> MatcherRefusal
    ensures { result ≡ refusal_of refusal }
{
    match refusal {
        PatternRefusal::BadPattern => MatcherRefusal::BadPattern,
        PatternRefusal::BuildRefused => MatcherRefusal::BuildRefused,
    }
}

/// Checks that a text that stands alone is a pattern and is built.
///
/// # Errors
/// `LongPattern` where it has more than 256 bytes; such a text is never built. Else `BadPattern` where it is no pattern
/// or nests too deep, and `BuildRefused` where its build is refused.
pub fn check_pattern(
    alloc: Global,
    pattern: &str,
    cache: &mut PatternCache,
) -> Result<(), Failure<MatcherRefusal>>
    ensures pattern { OnOk result (IsPattern pattern.now) }
    ensures shallow { OnOk result (is_shallow pattern.now ≡ true) }
    ensures built { OnOk result (HasRegex pattern.now) }
    ensures read { GivesUnlessBuild (λ done. done) result (unless_refused (pattern_refusal is_shallow (pattern.now ∷ [])) tt) }
    ensures asked { Asked result cache.old cache.new }
    ensures failure { IfErr result (IsPatternFailure (pattern.now ∷ []) cache.old cache.new) }

    // Where no build of this pattern was refused, the answer is the meaning.
    ensures meaning { AreRefusedRightly cache.new.refused (pattern.now ∷ [])
        → Gives (λ done. done) result (unless_refused (pattern_refusal is_pattern (pattern.now ∷ [])) tt) }
{
    if pattern.len() > MAX_PATTERN {
        return Err(Failure::Refused(MatcherRefusal::LongPattern));
    }
    match cache.answer(alloc, pattern, "") {
        Ok(_) => Ok(()),
        Err(Failure::Refused(refusal)) => Err(Failure::Refused(refusal_from(refusal))),
        Err(Failure::OutOfMemory) => Err(Failure::OutOfMemory),
    }
}

// The pattern of a matcher, where it has one that isn't too long to be built.
fn short_pattern(matcher: &Matcher) -> Option<&str>
    ensures { MatchOption result (list_any is_short (patterns_of (matcher.now ∷ [])) ≡ false)
        (λ p. (patterns_of (matcher.now ∷ []) ≡ p.now ∷ []) × (is_short p.now ≡ true)) }
{
    let pattern = matcher.value();
    if matcher.operator().is_on_pattern() && pattern.len() <= MAX_PATTERN {
        Some(pattern)
    } else {
        None
    }
}

// Whether a pattern of the matchers is too long to be built.
fn has_long_pattern(matchers: &[Matcher]) -> bool
    ensures { result ≡ list_any (λ m. is_on_pattern m.operator && not (is_short m.value)) matchers.now }
{
    matchers.iter().any(|matcher| matcher.operator().is_on_pattern()
        && matcher.value().len() > MAX_PATTERN)
}

// Checks the patterns of the matchers in their order, but not those that are too long.
fn check_short_patterns(
    alloc: Global,
    matchers: &[Matcher],
    cache: &mut PatternCache,
) -> Result<(), Failure<MatcherRefusal>>
    ensures fine { OnOk result (All IsFine (patterns_of matchers.now)) }
    ensures built { OnOk result (All (WhereShort HasRegex) (patterns_of matchers.now)) }
    ensures asked { Asked result cache.old cache.new }
    ensures failure { IfErr result (IsPatternFailure (patterns_of matchers.now) cache.old cache.new) }
{
    for matcher in matchers {
        if let Some(pattern) = short_pattern(matcher) {
            check_pattern(alloc, pattern, cache)?;
        }
    }
    Ok(())
}

/// Checks that the patterns of the matchers are patterns and are built.
///
/// # Errors
/// The first pattern of at most 256 bytes that is refused decides, by `BadPattern` or `BuildRefused`. Where there is
/// none, a longer pattern is `LongPattern`.
pub fn check_patterns(
    alloc: Global,
    matchers: &[Matcher],
    cache: &mut PatternCache,
) -> Result<(), Failure<MatcherRefusal>>
    ensures patterns { OnOk result (All IsPattern (patterns_of matchers.now)) }
    ensures built { OnOk result (All HasRegex (patterns_of matchers.now)) }
    ensures read { GivesUnlessBuild (λ done. done) result
        (unless_refused (pattern_refusal is_shallow (patterns_of matchers.now)) tt) }
    ensures asked { Asked result cache.old cache.new }
    ensures failure { IfErr result (IsPatternFailure (patterns_of matchers.now) cache.old cache.new) }

    // Where no build of these patterns was refused, the answer is the meaning; so where they are patterns, nothing but
    // memory can fail.
    ensures meaning { AreRefusedRightly cache.new.refused (patterns_of matchers.now)
        → Gives (λ done. done) result (unless_refused (pattern_refusal is_pattern (patterns_of matchers.now)) tt) }
{
    check_short_patterns(alloc, matchers, cache)?;
    if has_long_pattern(matchers) {
        return Err(Failure::Refused(MatcherRefusal::LongPattern));
    }
    Ok(())
}

/// The matchers that a text gives: one or more with commas between, perhaps within braces, their patterns built.
///
/// # Errors
/// `NoMatchers` where the text doesn't spell such a list, else as [`check_patterns`].
pub fn read_matchers(
    alloc: Global,
    text: &str,
    cache: &mut PatternCache,
) -> Result<Vec<Matcher>, Failure<MatcherRefusal>>
    ensures matchers { IfOk result (λ v. matchers_of (chars text.now) ≡ Some v.items) }
    ensures patterns { IfOk result (λ v. All IsPattern (patterns_of v.items)) }
    ensures built { IfOk result (λ v. All HasRegex (patterns_of v.items)) }
    ensures read { GivesUnlessBuild (λ v. v.items) result (reading_of (matchers_of (chars text.now))) }
    ensures asked { Asked result cache.old cache.new }
    ensures failure { IfErr result (IsTextFailure (matchers_of (chars text.now)) cache.old cache.new) }

    // Where no build of these patterns was refused, the answer is the meaning of the text.
    ensures meaning { AreRefusedRightly cache.new.refused (patterns_in (matchers_of (chars text.now)))
        → Gives (λ v. v.items) result (meaning_of (matchers_of (chars text.now))) }
{
    let Some(matchers) = parse(alloc, text)? else {
        return Err(Failure::Refused(MatcherRefusal::NoMatchers));
    };
    check_patterns(alloc, &matchers, cache)?;
    Ok(matchers)
}

// Checks the patterns of the matchers by the grammar alone.
fn check_grammar(alloc: Global, matchers: &[Matcher]) -> Result<(), Failure<MatcherRefusal>>
    ensures { Gives (λ done. done) result (unless_refused (pattern_refusal is_shallow (patterns_of matchers.now)) tt) }
{
    for matcher in matchers {
        if let Some(pattern) = short_pattern(matcher) {
            if !is_shallow_pattern(alloc, pattern)? {
                return Err(Failure::Refused(MatcherRefusal::BadPattern));
            }
        }
    }
    if has_long_pattern(matchers) {
        return Err(Failure::Refused(MatcherRefusal::LongPattern));
    }
    Ok(())
}

/// The matchers that a text gives, by the grammars of matchers and of patterns alone: no pattern is built. So a text that
/// [`read_matchers`] has read gives the same matchers again, whatever a cache holds; their patterns are built when they
/// are asked.
///
/// # Errors
/// Those of [`read_matchers`], but for `BuildRefused`.
pub fn reread_matchers(alloc: Global, text: &str) -> Result<Vec<Matcher>, Failure<MatcherRefusal>>
    ensures { Gives (λ v. v.items) result (reading_of (matchers_of (chars text.now))) }
{
    let Some(matchers) = parse(alloc, text)? else {
        return Err(Failure::Refused(MatcherRefusal::NoMatchers));
    };
    check_grammar(alloc, &matchers)?;
    Ok(matchers)
}
