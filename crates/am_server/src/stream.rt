//! A TCP connection whose calls never wait.

use am_serve::{Dialed, Moved, Socket, read_from, write_to};
use mio::net::TcpStream;
use std::io;
use std::net::Shutdown;

/// A connection that came in, or goes out.
#[derive(Drop)]
pub struct Stream {
    pub inner: TcpStream,
}

impl Socket for Stream {
    fn read(&mut self, buffer: &mut [u8; 4096]) -> Moved {
        read_from(&mut self.inner, buffer)
    }

    fn write(&mut self, bytes: &[u8]) -> Moved {
        write_to(&mut self.inner, bytes)
    }

    fn stands(&mut self) -> bool {
        matches!(self.inner.take_error(), Ok(None))
    }

    fn finish(&mut self) -> io::Result<()> {
        self.inner.shutdown(Shutdown::Write)
    }
}

impl Dialed for Stream {
    fn is_connected(&mut self) -> io::Result<bool> {
        if let Some(error) = self.inner.take_error()? {
            return Err(error);
        }
        match self.inner.peer_addr() {
            Ok(_) => Ok(true),
            Err(error) if error.kind() == io::ErrorKind::NotConnected => Ok(false),
            Err(error) => Err(error),
        }
    }
}
