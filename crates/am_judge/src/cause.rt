//! What stands at the place of a refusal, by which the remedy is chosen.

ghost use Rattle.std.specs.Prelude.{◌≡◌, IfOk, chars};
ghost use Rattle.serde_json.specs.View.{view};
ghost use Rattle.am_match.specs.Checking.{reading_of};
ghost use Rattle.am_match.specs.Reading.{matchers_of};
ghost use Rattle.am_judge.specs.Causes.{by_matchers, by_url, cause_of};

use crate::kind::Kind;
use am_config::ConfigRefusal;
use am_match::{MatcherRefusal, reread_matchers};
use am_text::{Failure, Text};
use serde_json::Value;
use std::alloc::{AllocError, Global};

/// What stands at the place of a refusal.
#[derive(Clone, Copy, PartialEq, Eq)]
pub(crate) enum Cause {
    /// The whole, or a place that wasn't found.
    Whole,
    /// Nothing, where a key has to be.
    Absent,
    /// A value of this kind.
    Value(Kind),
    /// A text of matchers that is refused for this.
    Matchers(MatcherRefusal),
    /// A URL that doesn't begin with `http://`.
    OtherScheme,
}

/// A place of a configuration, and what stands there.
#[derive(Drop)]
pub(crate) struct Finding {
    pub place: Text,
    pub cause: Cause,
}

/// What a value of this kind is that by itself has a refusal.
///
/// # Errors
/// Out of memory alone.
pub(crate) fn cause_of(
    alloc: Global,
    reason: ConfigRefusal,
    kind: Kind,
    value: &Value,
) -> Result<Cause, AllocError>
    ensures { IfOk result (λ cause. cause ≡ cause_of reason kind (view value.now)) }
{
    let Some(text) = value.as_str() else {
        return Ok(Cause::Value(kind));
    };
    match reason {
        ConfigRefusal::BadMatcher => by_matchers(alloc, kind, text),
        ConfigRefusal::BadUrl => Ok(by_url(kind, text)),
        _ => Ok(Cause::Value(kind)),
    }
}

fn by_matchers(alloc: Global, kind: Kind, text: &str) -> Result<Cause, AllocError>
    ensures { IfOk result (λ cause. cause ≡ by_matchers kind (reading_of (matchers_of (chars text.now)))) }
{
    match reread_matchers(alloc, text) {
        Ok(_) => Ok(Cause::Value(kind)),
        Err(Failure::Refused(refusal)) => Ok(Cause::Matchers(refusal)),
        Err(Failure::OutOfMemory) => Err(AllocError),
    }
}

fn by_url(kind: Kind, text: &str) -> Cause
    ensures { result ≡ by_url kind text.now }
{
    if text.as_bytes().starts_with(b"http://") {
        return Cause::Value(kind);
    }
    Cause::OtherScheme
}
