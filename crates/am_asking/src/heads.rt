//! The heads that came in part.

use std::alloc::{AllocError, Global};
use std::collections::BTreeMap;

/// Of each connection whose request isn't whole yet, the bytes that came.
#[derive(Drop)]
pub struct Heads {
    parts: BTreeMap<u64, Vec<u8>>,
}

impl Heads {
    /// None so far.
    pub fn new(alloc: Global) -> Heads {
        Heads {
            parts: BTreeMap::new(alloc),
        }
    }

    /// What came of a connection's head, with this piece. Nothing is kept of it until [`keep`](Heads::keep).
    ///
    /// # Errors
    /// Out of memory.
    pub fn take(
        &mut self,
        alloc: Global,
        connection: u64,
        piece: &[u8],
    ) -> Result<Vec<u8>, AllocError> {
        let mut head = self
            .parts
            .remove(&connection)
            .unwrap_or_else(|| Vec::new(alloc));
        head.extend_from_slice(piece)?;
        Ok(head)
    }

    /// Keeps what came of a head that isn't whole.
    ///
    /// # Errors
    /// Out of memory.
    pub fn keep(&mut self, connection: u64, head: Vec<u8>) -> Result<(), AllocError> {
        self.parts.insert(connection, head)?;
        Ok(())
    }

    /// Forgets what came of a connection.
    pub fn forget(&mut self, connection: u64) {
        self.parts.remove(&connection);
    }
}
