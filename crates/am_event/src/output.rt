use am_http::ConnectionId;
use am_tenant::TenantName;
use am_text::{Octets, Text};
use am_wire::Message;

/// An attempt to deliver a notice, by name.
#[derive(Drop)]
pub struct AttemptName {
    /// Whose notice it is.
    pub tenant: TenantName,
    /// The instance that makes the attempt, 1 to 8.
    pub instance: u8,
    /// Which start of the instance made it, from 1 on.
    pub incarnation: u32,
    /// Its number among the tenant's attempts there, from 1 on.
    pub number: u64,
}

/// One thing that goes out.
#[derive(Drop)]
pub enum Output {
    /// The whole reply of a connection.
    Reply {
        connection: ConnectionId,
        bytes: Octets,
    },
    /// A try of an attempt at a notice, which goes out to a URL.
    Notice {
        attempt: AttemptName,
        /// Which try of the attempt it is, 1 to 5.
        tries: u8,
        /// The URL as it is written.
        url: Text,
        /// The bytes of the request: the same at each try.
        bytes: Octets,
    },
    /// A message to an instance, as the bytes that spell it.
    Send(Message),
}
