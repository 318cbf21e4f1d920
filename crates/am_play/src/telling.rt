//! Tells entries of a log.
ghost use Rattle.std.specs.Prelude.{IfErr};
ghost use Rattle.am_stream.specs.Streams.{IsFailureOf};

use am_log::{Entry, Log};
use am_stream::{Sink, StreamFailure};
use std::alloc::Global;

/// Tells an entry: its line, in the log's form.
///
/// # Errors
/// Out of memory, or one of the sink's: a first part of the line was told.
pub fn tell<E: Sink>(
    alloc: Global,
    log: Log,
    entry: &Entry,
    errors: &mut E,
) -> Result<(), StreamFailure>
    ensures causes { IfErr result (IsFailureOf E.fails_with) }
{
    let line = log.line(alloc, entry)?;
    errors.write_whole(line.as_slice())?;
    Ok(())
}
