//! What a scenario is read from, and what it is written to. Each stream says by a law with which errors it fails.
ghost use Rattle.std.specs.Prelude.{◌≡◌, ◌<◌, ℕ, List, Option, None, ⊤, IfErr, IfOk, IfSome, OnErr, OnOk, option_map};
ghost use Rattle.std.specs.Prelude.{vec_items};
ghost use Rattle.std.specs.Io.Iter.{u64_saturate};
ghost use Rattle.std.specs.Io.KnownBytes.{Appends, Keeps};
ghost use Rattle.am_stream.specs.Streams.{ErrorLaw, GivesLine, IsFailureOf, KnownLines};
ghost use Rattle.am_stream.specs.Writing.{AppendsPart};

use std::alloc::AllocError;
use std::io;
use std::io::ErrorKind;

/// Why a scenario, or a call of one of its streams, ended early.
#[derive(Drop)]
pub enum StreamFailure {
    /// Memory ran out.
    OutOfMemory,
    /// A stream gave this error.
    Stream(io::Error),
}

impl From<AllocError> for StreamFailure {
    ghost use Rattle.am_stream.specs.declared.streams.StreamFailure.TheVariants.{OutOfMemory};

    ghost from_gives = { λ _ failure. failure ≡ OutOfMemory };

    fn from(_error: AllocError) -> StreamFailure {
        StreamFailure::OutOfMemory
    }
}

impl From<io::Error> for StreamFailure {
    ghost use Rattle.am_stream.specs.declared.streams.StreamFailure.TheVariants.{Stream};

    ghost from_gives = { λ error failure. failure ≡ Stream error };

    fn from(error: io::Error) -> StreamFailure {
        StreamFailure::Stream(error)
    }
}

impl From<StreamFailure> for io::Error {
    ghost use Rattle.am_stream.specs.Streams.{Becomes};

    ghost from_gives = { Becomes };

    fn from(failure: StreamFailure) -> io::Error {
        match failure {
            StreamFailure::OutOfMemory => ErrorKind::OutOfMemory.into(),
            StreamFailure::Stream(error) => error,
        }
    }
}

/// Gives the lines of a scenario.
pub trait Source: Drop {
    // Which errors are its own.
    ghost fails_with: { ErrorLaw } = { λ error. ⊤ };

    // The lines that are left, where they are known.
    ghost lines: { Self → KnownLines } = { λ source. None };

    // The most lines that may still come, of which 2^64 - 1 count.
    ghost to_come: { Self → ℕ };

    /// The next line, without its end; `None` where none is left.
    ///
    /// # Errors
    /// Out of memory, or one of the source's own: a line may be lost, and nothing is known of what is left.
    fn next_line(&mut self) -> Result<Option<Vec<u8>>, StreamFailure>
        ensures line { IfOk result (λ line. GivesLine (lines self.old) (option_map vec_items line) (lines self.new)) }
        ensures fewer { IfOk result (λ line. IfSome line
            (λ line. u64_saturate (to_come self.new) < u64_saturate (to_come self.old))) }
        ensures cause { IfErr result (IsFailureOf fails_with) };
}

/// Takes what is written.
pub trait Sink {
    // Which errors are its own.
    ghost fails_with: { ErrorLaw } = { λ error. ⊤ };

    // The bytes that it holds, where they are known.
    ghost contents: { Self → Option (List ℕ) } = { λ sink. None };

    /// Writes all bytes.
    ///
    /// # Errors
    /// One of the sink's own: a first part of the bytes was written.
    fn write_whole(&mut self, bytes: &[u8]) -> io::Result<()>
        ensures ok { OnOk result (Appends (contents self.old) (contents self.new) bytes.now) }
        ensures err { OnErr result (AppendsPart (contents self.old) (contents self.new) bytes.now) }
        ensures cause { IfErr result fails_with };

    /// Hands on what was written and is still held back.
    ///
    /// # Errors
    /// One of the sink's own: what was written counts as written, and may not have been handed on.
    fn flush(&mut self) -> io::Result<()>
        ensures bytes { Keeps (contents self.old) (contents self.new) }
        ensures cause { IfErr result fails_with };
}
