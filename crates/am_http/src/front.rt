//! All connections that are being read.
ghost use Rattle.std.specs.Prelude.{◌≡◌, ℕ, List, [], ◌++◌, None, Some, OnOk, IfOk, IsSome, is_some, if◌then◌else◌, ◌==◌};
ghost use Rattle.am_http.specs.Connections.{bytes_of, left_open};
ghost use Rattle.am_http.specs.Verdict.{verdict};

use crate::connection::Connection;
use crate::paths::Paths;
use crate::request::{ConnectionId, Fed};
use std::alloc::{AllocError, Global};
use std::collections::BTreeMap;
use std::marker::Model;

/// The connections that are being read, each with its bytes. A contract sees them as a list of the
/// connections' numbers with the bytes that came.
pub struct Front {
    paths: Paths,
    connections: BTreeMap<ConnectionId, Connection>,
}

// Written out, so that a crate which owns one need not prove anew how its parts are dropped.
impl Drop for Front {
    fn drop(self) {
        let Front { paths, connections } = self;
        drop(paths);
        drop(connections);
    }
}

impl Model for Front {
    ghost use Rattle.std.specs.Prelude.{ℕ, List};

    ghost Value = { List (ℕ × List ℕ) };

    ghost view = { λ f. f.connections.entries };
}

impl Front {
    /// A front without connections. Fails only where memory is refused, for the table of paths.
    #[tactic(auto, unfolding(crate::specs::Connections::bytes_of))]
    pub fn new(alloc: Global) -> Result<Front, AllocError>
        ensures none { IfOk result (λ front. front ≡ []) }
        ensures unread { IfOk result (λ front. (c : ℕ) → bytes_of c front ≡ None) }
    {
        let paths = Paths::new(alloc)?;
        Ok(Front {
            paths,
            connections: BTreeMap::new(alloc),
        })
    }

    /// Begins a connection, or begins one anew; no bytes of it have come. Fails only where memory is
    /// refused, and what the front then holds isn't stated.
    pub fn open(&mut self, alloc: Global, connection: ConnectionId) -> Result<(), AllocError>
        ensures { OnOk result ((c : ℕ) →
            bytes_of c self.new ≡ (if c == connection then Some [] else bytes_of c self.old)) }
    {
        self.connections.insert(connection, Connection::new(alloc))?;
        Ok(())
    }

    /// Closes a connection whose client left: its bytes are dropped. It may be one that isn't read.
    pub fn close(&mut self, connection: ConnectionId)
        ensures { (c : ℕ) → bytes_of c self.new ≡ (if c == connection then None else bytes_of c self.old) }
    {
        self.connections.remove(&connection);
    }

    /// Closes all connections, and takes no memory.
    #[tactic(auto, unfolding(crate::specs::Connections::bytes_of))]
    pub fn close_all(&mut self)
        ensures none { self.new ≡ [] }
        ensures unread { (c : ℕ) → bytes_of c self.new ≡ None }
    {
        self.connections.clear();
    }

    /// Whether a connection is being read: it was begun, and its bytes aren't decided.
    pub fn is_reading(&self, connection: ConnectionId) -> bool
        ensures { result ≡ is_some (bytes_of connection self.now) }
    {
        self.connections.contains_key(&connection)
    }

    /// Takes in the next bytes of a connection, and says what all its bytes come to. A connection that
    /// is decided is no longer read. Fails only where memory is refused, and what the front then holds
    /// isn't stated.
    pub fn feed(
        &mut self,
        alloc: Global,
        connection: ConnectionId,
        piece: &[u8],
    ) -> Result<Fed, AllocError>
        requires reading { IsSome (bytes_of connection self.old) }
        ensures verdict { IfOk result (λ fed. (before : List ℕ) → bytes_of connection self.old ≡ Some before →
            fed ≡ verdict (before ++ piece.now)) }
        ensures table { IfOk result (λ fed. (before : List ℕ) → bytes_of connection self.old ≡ Some before → (c : ℕ) →
            bytes_of c self.new ≡
            (if c == connection then left_open fed (before ++ piece.now) else bytes_of c self.old)) }
    {
        let Some(reading) = self.connections.get_mut(&connection) else {
            unreachable!()
        };
        match reading.feed(alloc, &self.paths, piece)? {
            Fed::Waits => Ok(Fed::Waits),
            decided => {
                self.close(connection);
                Ok(decided)
            }
        }
    }
}
