//! The link over sockets on 127.0.0.1.
ghost use Rattle.std.specs.Prelude.{◌≤◌, length, IfOk};

use crate::link::Link;
use am_outlet::read_status;
use std::io;
use std::io::{Read, Write};
use std::net::{
    IpAddr, Ipv4Addr, Net, OpenListener, OpenStream, SocketAddr, TcpListener, TcpStream,
};
use std::time::Duration;

/// The most bytes that are on their way at once. The kernel holds them, so a write needs no reader.
const PIECE: usize = 4096;

/// The most bytes of an answer that are read, more than the receiver writes.
const ANSWER: usize = 64;

/// How many connections of others are passed over at once, more than the system keeps waiting.
const STRANGERS: usize = 1024;

/// How long a connection, a read or a write may wait, in seconds.
const PATIENCE: u64 = 5;

/// Connections on 127.0.0.1 whose two ends are the program's own.
#[derive(Drop)]
pub struct Loopback<'a, R: Net> {
    rt: &'a R,
    listener: R::Listener,
    address: SocketAddr,
    /// What pieces go over; none before the first one, and after one that was lost.
    pair: Option<Pair<R::Stream>>,
}

impl<'a, R: Net> Loopback<'a, R> {
    /// A link that listens on a port which the system picks.
    pub fn open(rt: &'a R) -> io::Result<Loopback<'a, R>> {
        let any = SocketAddr::new(IpAddr::V4(Ipv4Addr::LOCALHOST), 0);
        let listener = TcpListener::bind(rt, any)?;
        let address = listener.local_addr()?;
        Ok(Loopback {
            rt,
            listener,
            address,
            pair: None,
        })
    }

    /// A new connection.
    fn connect(&self) -> io::Result<Pair<R::Stream>> {
        let patience = Duration::from_secs(PATIENCE);
        let near = TcpStream::connect_timeout(self.rt, &self.address, patience)?;
        let far = self.accept(near.local_addr()?)?;
        set_up(&near, patience)?;
        set_up(&far, patience)?;
        Ok(Pair { near, far })
    }

    /// The connection that came from this address. Those of others that came before it are closed.
    fn accept(&self, from: SocketAddr) -> io::Result<R::Stream> {
        for _ in 0..STRANGERS {
            let (stream, address) = self.listener.accept()?;
            if address == from {
                return Ok(stream);
            }
        }
        Err(io::ErrorKind::NotConnected.into())
    }

    /// Sends bytes and reads them at the other end. Whether just these came.
    fn send(&mut self, bytes: &[u8]) -> io::Result<bool> {
        let mut pair = match self.pair.take() {
            Some(pair) => pair,
            None => self.connect()?,
        };
        let came = pair.send(bytes)?;
        if came {
            self.pair = Some(pair);
        }
        Ok(came)
    }

    /// Sends a request to the receiver on a connection of its own, and reads the status of its answer.
    fn ask(&self, request: &[u8], status: Option<u16>) -> io::Result<Option<u16>> {
        let mut pair = self.connect()?;
        if !pair.send(request)? {
            return Ok(None);
        }
        pair.answer(status)
    }
}

impl<'a, R: Net> Link for Loopback<'a, R> {
    fn carry(&mut self, piece: &[u8]) -> bool {
        self.send(piece).unwrap_or(false)
    }

    fn tell(&mut self, request: &[u8], status: Option<u16>) -> Option<u16> {
        self.ask(request, status).unwrap_or(None)
    }
}

/// The two ends of a connection.
#[derive(Drop)]
struct Pair<S: Read + Write + Drop> {
    near: S,
    far: S,
}

impl<S: Read + Write + Drop> Pair<S> {
    /// Sends bytes from the near end, and reads each piece at the far one before the next is sent. Whether just these
    /// bytes came.
    fn send(&mut self, bytes: &[u8]) -> io::Result<bool> {
        let mut buffer = [0; PIECE];
        for piece in bytes.chunks(PIECE) {
            let came = &mut buffer[..piece.len()];
            self.near.write_all(piece)?;
            self.far.read_exact(came)?;
            if &*came != piece {
                return Ok(false);
            }
        }
        Ok(true)
    }

    /// Answers this status from the far end, or nothing, closes that, and reads the status of what came.
    fn answer(self, status: Option<u16>) -> io::Result<Option<u16>> {
        let Pair { mut near, mut far } = self;
        if let Some(status) = status {
            write!(far, "HTTP/1.1 {status} \r\nConnection: close\r\n\r\n")?;
        }
        drop(far);
        let mut answer = [0; ANSWER];
        let count = read_all(&mut near, &mut answer)?;
        Ok(read_status(&answer[..count]))
    }
}

/// Reads until the end, or until the buffer is full, and gives how many bytes came.
fn read_all<S: Read>(from: &mut S, buffer: &mut [u8]) -> io::Result<usize>
    ensures { IfOk result (λ count. count ≤ length buffer.new) }
{
    let mut count = 0;
    while count < buffer.len() {
        match from.read(&mut buffer[count..])? {
            0 => break,
            more => count += more,
        }
    }
    Ok(count)
}

/// Bounds how long a read or a write waits, and has small writes go at once.
fn set_up<S: OpenStream>(stream: &S, patience: Duration) -> io::Result<()> {
    stream.set_read_timeout(Some(patience))?;
    stream.set_write_timeout(Some(patience))?;
    stream.set_nodelay(true)
}
