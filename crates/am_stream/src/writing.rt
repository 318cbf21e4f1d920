//! A writer, as a sink of which it is known how far it came where the writer failed.
ghost use Rattle.std.specs.Prelude.{◌≡◌, ◌≢◌, ◌≤◌, [], length, take, IfOk, OnErr, OnOk};
ghost use Rattle.std.specs.Io.KnownBytes.{Appends, Keeps};
ghost use Rattle.am_stream.specs.Writing.{AppendsPart};

use crate::streams::Sink;
use std::io;
use std::io::{ErrorKind, Write};

/// Writes to a writer. Its errors are the writer's, of which nothing is known, or have the kind `WriteZero` where that takes
/// no byte.
#[derive(Drop)]
pub struct WholeWriter<W>(pub W);

impl<W: Write> Sink for WholeWriter<W> {
    ghost contents = { λ sink. W.contents sink.0 };

    fn write_whole(&mut self, bytes: &[u8]) -> io::Result<()> {
        write_whole(&mut self.0, bytes)
    }

    fn flush(&mut self) -> io::Result<()> {
        self.0.flush()
    }
}

// Writes all bytes; at an error a first part of them.
fn write_whole<W: Write>(writer: &mut W, bytes: &[u8]) -> io::Result<()>
    ensures ok { OnOk result (Appends (W.contents writer.old) (W.contents writer.new) bytes.now) }
    ensures err { OnErr result (AppendsPart (W.contents writer.old) (W.contents writer.new) bytes.now) }
{
    let mut rest = bytes;
    for _ in 0..u64::MAX {
        if rest.is_empty() {
            return Ok(());
        }
        let count = write_some(writer, rest)?;
        rest = &rest[count..];
    }
    Err(ErrorKind::Interrupted.into())
}

// Writes a first part of the bytes; none where a signal came first.
fn write_some<W: Write>(writer: &mut W, bytes: &[u8]) -> io::Result<usize>
    ensures count { IfOk result (λ count. count ≤ length bytes.now) }
    ensures ok { IfOk result (λ count. Appends (W.contents writer.old) (W.contents writer.new) (take count bytes.now)) }
    ensures err { OnErr result (Keeps (W.contents writer.old) (W.contents writer.new)) }
{
    match writer.write(bytes) {
        Ok(0) => Err(ErrorKind::WriteZero.into()),
        Ok(count) => Ok(count),
        Err(error) if error.kind() == ErrorKind::Interrupted => Ok(0),
        Err(error) => Err(error),
    }
}
