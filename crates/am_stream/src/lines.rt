//! The lines of a reader, as a source.
ghost use Rattle.std.specs.Prelude.{◌≡◌, option_map};
ghost use Rattle.std.specs.Io.Iter.{pieces_left_to_read};
ghost use Rattle.am_stream.specs.Lines.{known_lines, lines_of};

use crate::streams::{Source, StreamFailure};
use std::alloc::Global;
use std::io::{BufRead, Split};

/// Reads lines, which end at LF; what follows the last LF is a line too, where anything does. Its errors are the reader's,
/// of which nothing is known.
#[derive(Drop)]
pub struct LineReader<R> {
    pieces: Split<R>,
}

impl<R: BufRead> LineReader<R> {
    /// The lines that a reader has left.
    pub fn new(alloc: Global, reader: R) -> LineReader<R>
        ensures { known_lines R.remaining result ≡ option_map lines_of (R.remaining reader) }
    {
        LineReader {
            pieces: reader.split(alloc, b'\n'),
        }
    }
}

impl<R: BufRead + Drop> Source for LineReader<R> {
    ghost lines = { known_lines R.remaining };

    ghost to_come = { λ reader. pieces_left_to_read reader.pieces };

    fn next_line(&mut self) -> Result<Option<Vec<u8>>, StreamFailure> {
        match self.pieces.next() {
            None => Ok(None),
            Some(Ok(line)) => Ok(Some(line)),
            Some(Err(error)) => Err(StreamFailure::Stream(error)),
        }
    }
}
