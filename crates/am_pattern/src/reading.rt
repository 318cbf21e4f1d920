//! What the grammar reads.

ghost use Rattle.std.specs.Prelude.{◌≡◌, true, IfOk, IfErr, OnOk};
ghost use Rattle.am_text.specs.Outcome.{ForRefused};
ghost use Rattle.am_pattern.specs.Taking.{IsPattern, is_parsed as is_parsed_text, is_shallow};
ghost use Rattle.am_pattern.specs.Refused.{IsReadingCause};

use am_text::Failure;
use regex_syntax::{Config, ErrorKind};
use std::alloc::{AllocError, Global};

/// The most bytes that a pattern may have.
pub const MAX_PATTERN: usize = 256;

/// Why a text gives no regex.
#[derive(Clone, Copy, PartialEq, Eq)]
pub(crate) enum Cause {
    NotRead,
    // It may be no pattern for another reason too.
    TooDeep,
    TooBig,
}

/// Whether the text is a pattern of at most 256 bytes that nests no deeper than is built. Nothing is built: the
/// grammar alone decides. Each text that a [`PatternCache`](crate::PatternCache) ever answered for is one.
pub fn is_shallow_pattern(alloc: Global, text: &str) -> Result<bool, AllocError>
    ensures shallow { IfOk result (λ shallow. shallow ≡ is_shallow text.now) }
    ensures pattern { IfOk result (λ shallow. shallow ≡ true → IsPattern text.now) }
{
    if text.len() > MAX_PATTERN {
        return Ok(false);
    }
    if !is_parsed(alloc, text)? {
        return Ok(false);
    }
    let anchored = format!(in alloc; "^(?:{text})$")?;
    is_parsed(alloc, anchored.as_str())
}

// Whether the grammar reads the text, within the limit on nesting.
fn is_parsed(alloc: Global, text: &str) -> Result<bool, AllocError>
    ensures { IfOk result (λ parsed. parsed ≡ is_parsed_text text.now) }
{
    match parse_text(alloc, text) {
        Ok(()) => Ok(true),
        Err(Failure::Refused(_)) => Ok(false),
        Err(Failure::OutOfMemory) => Err(AllocError),
    }
}

/// Reads the text by the grammar, within the limit on nesting.
pub(crate) fn parse_text(alloc: Global, text: &str) -> Result<(), Failure<Cause>>
    ensures parsed { OnOk result (is_parsed_text text.now ≡ true) }
    ensures cause { IfErr result (λ failure. ForRefused failure (IsReadingCause text.now)) }
{
    match regex_syntax::parse(alloc, text, &Config::default()) {
        Ok(_) => Ok(()),
        Err(error) => {
            if error.kind == ErrorKind::OutOfMemory {
                return Err(Failure::OutOfMemory);
            }
            if error.kind == ErrorKind::NestLimitExceeded {
                return Err(Failure::Refused(Cause::TooDeep));
            }
            Err(Failure::Refused(Cause::NotRead))
        }
    }
}
