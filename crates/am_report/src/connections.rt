//! The connections of a scenario, by their names.
ghost use Rattle.std.specs.Prelude.{◌≡◌, [], Some, IfOk, OnOk, OnErr, option_map, slice_get};
ghost use Rattle.am_report.specs.Names.{place_of, with_name};

use am_http::ConnectionId;
use indexmap::IndexSet;
use std::alloc::{AllocError, Global};
use std::marker::Model;

/// The connections of a scenario. Each name that a line gave stands for one connection, whose number is
/// the name's place among them.
#[derive(Drop)]
pub struct Connections {
    names: IndexSet<String>,
}

impl Model for Connections {
    ghost use Rattle.std.specs.Prelude.{ℕ, List, map, string_bytes};

    ghost Value = { List (List ℕ) };

    ghost view = { λ c. map string_bytes c.names.keys };
}

impl Connections {
    /// No connections, which takes no memory.
    pub fn new(alloc: Global) -> Connections
        ensures { result ≡ [] }
    {
        Connections {
            names: IndexSet::new(alloc),
        }
    }

    /// The connection of a name, which is added where it is new. An error leaves the names as they were.
    pub fn id(&mut self, alloc: Global, name: &str) -> Result<ConnectionId, AllocError>
        ensures place { IfOk result (λ c. place_of name.now self.new ≡ Some c) }
        ensures added { OnOk result (self.new ≡ with_name name.now self.old) }
        ensures err { OnErr result (self.new ≡ self.old) }
    {
        if let Some(index) = self.names.get_index_of(name) {
            return Ok(ConnectionId::new(index as u64));
        }
        let name = String::from_str(alloc, name)?;
        let (index, _) = self.names.insert_full(name)?;
        Ok(ConnectionId::new(index as u64))
    }

    /// The name of a connection; `None` where no line named it.
    pub fn name(&self, connection: ConnectionId) -> Option<&str>
        ensures { option_map (λ name. name.now) result ≡ slice_get self.now connection }
    {
        let name = self.names.get_index(connection.number() as usize)?;
        Some(name.as_str())
    }
}
