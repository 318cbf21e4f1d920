//! What is asked of a socket.
ghost use Rattle.std.specs.Prelude.{◌≡◌, ◌≢◌, ◌≤◌, length, take, ⊤};
ghost use Rattle.am_serve.specs.Acts.{Act, Ask, Finish, Read, Write, standing};
ghost use Rattle.am_serve.specs.Sockets.{ComesTo, Misses, Reads, Writes, count_of};

use std::io::{self, ErrorKind, Read, Write};

/// How many bytes are read at once, at most.
pub const PIECE_BYTES: usize = 4_096;

/// How many steps a turn has at most: reads, writes, and questions whether a connection stands.
pub const STEPS: u32 = 16;

/// What came of a read or a write that never waits.
#[derive(Clone, Copy, PartialEq, Eq)]
pub enum Moved {
    /// So many bytes were moved, at least one.
    Bytes(usize),
    /// None is moved until the socket is ready again.
    Blocked,
    /// A signal came first, and the call may be made again.
    Interrupted,
    /// The connection is of no more use: it failed, or a read met its end.
    Broken,
}

/// Reads into the front of the buffer. It is for a reader that answers `WouldBlock` where it would have to wait.
pub fn read_from<R: Read>(reader: &mut R, buffer: &mut [u8; 4096]) -> Moved
    ensures bytes { Reads (R.remaining reader.old) (R.remaining reader.new) result buffer.new }
    ensures some { result ≢ Moved.Bytes 0 }
{
    came_of(reader.read(buffer))
}

/// Writes a first part of the bytes. It is for a writer that answers `WouldBlock` where it would have to wait.
pub fn write_to<W: Write>(writer: &mut W, bytes: &[u8]) -> Moved
    ensures bytes { Writes (W.contents writer.old) (W.contents writer.new) result bytes.now }
    ensures some { result ≢ Moved.Bytes 0 }
{
    came_of(writer.write(bytes))
}

// What came of a read or a write, by its answer.
fn came_of(answer: io::Result<usize>) -> Moved
    ensures { ComesTo answer result }
{
    match answer {
        Ok(0) => Moved::Broken,
        Ok(count) => Moved::Bytes(count),
        Err(error) => missed(&error),
    }
}

// What an error says of a call that moved nothing.
fn missed(error: &io::Error) -> Moved
    ensures { Misses error.now result }
{
    match error.kind() {
        ErrorKind::WouldBlock => Moved::Blocked,
        ErrorKind::Interrupted => Moved::Interrupted,
        _ => Moved::Broken,
    }
}

/// A connection that never waits.
pub trait Socket: Drop {
    // The socket was this, this was asked of it and came to this, and it is that.
    ghost does: { Self → Act → Self → Type 0 } = { λ _ _ _. ⊤ };

    /// Reads into the front of the buffer.
    fn read(&mut self, buffer: &mut [u8; 4096]) -> Moved
        ensures reads { does self.old (Read result (take (count_of result) buffer.new)) self.new }
        ensures fits { count_of result ≤ length buffer.new }
        ensures some { result ≢ Moved.Bytes 0 };

    /// Writes a first part of the bytes.
    fn write(&mut self, bytes: &[u8]) -> Moved
        ensures writes { does self.old (Write result (take (count_of result) bytes.now)) self.new }
        ensures fits { count_of result ≤ length bytes.now }
        ensures some { result ≢ Moved.Bytes 0 };

    /// Whether the connection stands, as far as is known: it hasn't failed, and wasn't reset. The other side may have
    /// ended.
    fn stands(&mut self) -> bool
        ensures asks { does self.old (Ask (standing result)) self.new };

    /// Says that nothing more is written.
    fn finish(&mut self) -> io::Result<()>
        ensures finishes { does self.old Finish self.new };
}
