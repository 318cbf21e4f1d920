//! A port beside that of the service.

use crate::stream::Stream;
use am_serve::{Clients, Host, PIECE_BYTES};
use mio::net::TcpListener;
use std::alloc::{AllocError, Global};
use std::time::{Duration, Instant};

/// How many clients it has at once, at most.
const MOST_CLIENTS: usize = 16;

/// How often it is looked after, in milliseconds.
const LOOK: u64 = 20;

/// A port for few clients, whom a host of their own answers. It has no poll: whoever turns it has each of them asked.
pub struct SidePort {
    listener: TcpListener,
    clients: Clients<Stream>,
    looked: Instant,
    buffer: [u8; PIECE_BYTES],
}

// Written out, so that a crate which owns a port has no need to prove anew how each of its parts is dropped.
impl Drop for SidePort {
    fn drop(self) {
        let SidePort {
            listener,
            clients,
            looked: _looked,
            buffer: _buffer,
        } = self;
        drop(listener);
        drop(clients);
    }
}

impl SidePort {
    /// A port at a listener.
    ///
    /// # Errors
    /// Out of memory.
    pub fn new(alloc: Global, listener: TcpListener, now: Instant) -> Result<SidePort, AllocError> {
        Ok(SidePort {
            listener,
            clients: Clients::new(alloc, MOST_CLIENTS)?,
            looked: now,
            buffer: [0; PIECE_BYTES],
        })
    }

    /// Fifty times a second at most: takes in the connections that wait, as long as there is room, gives each client a
    /// turn, and lets go of those that are late. It never waits.
    pub fn turn<H: Host>(&mut self, host: &mut H, now: Instant) {
        if now.saturating_duration_since(self.looked) < Duration::from_millis(LOOK) {
            return;
        }
        self.looked = now;
        self.accept(host, now);
        for key in 0..self.clients.capacity() {
            self.serve(key, host, now);
        }
    }

    /// Takes in the connections that wait, as long as there is room.
    fn accept<H: Host>(&mut self, host: &mut H, now: Instant) {
        for _ in 0..MOST_CLIENTS {
            if self.clients.is_full() {
                break;
            }
            let Ok((stream, _)) = self.listener.accept() else {
                break;
            };
            self.clients.add(Stream { inner: stream }, host, now);
        }
    }

    /// Gives a client its turn, unless it is late or gone.
    fn serve<H: Host>(&mut self, key: usize, host: &mut H, now: Instant) {
        if self.clients.judge(key, host, now) || self.clients.check(key, host) {
            return;
        }
        self.clients.turn(key, host, now, &mut self.buffer);
    }
}
