use am_http::ConnectionId;
use am_outlet::Sending;
use am_text::Octets;
use am_wire::Message;

/// One thing that an instance says about a tenant.
#[derive(Drop)]
pub enum Said {
    /// The reply of a connection.
    Reply {
        connection: ConnectionId,
        bytes: Octets,
    },
    /// A message to another instance, or to itself.
    Message(Message),
    /// A try of an attempt at a notice.
    Try(Sending),
}
