//! The port itself.

use crate::counted::Counted;
use crate::desk::Desk;
use am_asking::Heads;
use am_server::SidePort;
use am_world::AnyWorld;
use mio::net::TcpListener;
use std::alloc::Global;
use std::io;
use std::time::{Clock, Instant};

/// The port of those who run a service.
pub struct AdminPort {
    port: SidePort,
    heads: Heads,
}

// Written out, so that a crate which owns a port has no need to prove anew how each of its parts is dropped.
impl Drop for AdminPort {
    fn drop(self) {
        let AdminPort { port, heads } = self;
        drop(port);
        drop(heads);
    }
}

impl AdminPort {
    /// A port at a listener.
    ///
    /// # Errors
    /// That of the clock; out of memory.
    pub fn new<R: Clock>(rt: &R, alloc: Global, listener: TcpListener) -> io::Result<AdminPort> {
        let now = Instant::now(rt)?;
        Ok(AdminPort {
            port: SidePort::new(alloc, listener, now)?,
            heads: Heads::new(alloc),
        })
    }

    /// Answers those who ask, without waiting for any, and has happen in the gateway's world what they ask for.
    ///
    /// # Errors
    /// That of the clock; out of memory as the ring changed.
    pub fn turn<R: Clock, W: AnyWorld>(
        &mut self,
        rt: &R,
        alloc: Global,
        counted: &mut Counted<'_, W>,
    ) -> io::Result<()> {
        let now = Instant::now(rt)?;
        let mut desk = Desk::new(alloc, &mut self.heads, counted);
        self.port.turn(&mut desk, now);
        Ok(desk.close()?)
    }
}
