//! The connections that an instance reads.

ghost use Rattle.std.specs.Prelude.{◌≡◌, ◌==◌, ℕ, [], List, None, Some, OnOk, is_some, if◌then◌else◌};
ghost use Rattle.am_instance.specs.Instance.{GoesOn, bytes_in, refused_in};

use crate::instance::Instance;
use am_http::ConnectionId;
use std::alloc::{AllocError, Global};

impl Instance {
    /// Whether the instance reads a connection.
    pub fn is_reading(&self, connection: ConnectionId) -> bool
        ensures { result ≡ is_some (bytes_in connection self.now) }
    {
        self.front.is_reading(connection)
    }

    /// Reads a connection no more.
    pub fn close(&mut self, connection: ConnectionId)
        ensures front { (c : ℕ) →
            bytes_in c self.new ≡ (if c == connection then None else bytes_in c self.old) }
        ensures site { self.new.site ≡ self.old.site }
        ensures tenants { self.new.tenants ≡ self.old.tenants }
        ensures stays { GoesOn self.old self.new }
        ensures refused { refused_in self.new ≡ refused_in self.old }
    {
        self.front.close(connection);
    }

    /// Begins a connection, or begins one anew.
    ///
    /// An error is out of memory.
    pub fn open(&mut self, alloc: Global, connection: ConnectionId) -> Result<(), AllocError>
        ensures front { OnOk result ((c : ℕ) →
            bytes_in c self.new ≡ (if c == connection then Some [] else bytes_in c self.old)) }
        ensures site { self.new.site ≡ self.old.site }
        ensures tenants { self.new.tenants ≡ self.old.tenants }
        ensures stays { GoesOn self.old self.new }
        ensures refused { refused_in self.new ≡ refused_in self.old }
    {
        self.front.open(alloc, connection)?;
        Ok(())
    }
}
