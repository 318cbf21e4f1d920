//! What names a message.

ghost use Rattle.std.specs.Prelude.{◌≡◌};
ghost use Rattle.am_messages.specs.Names.{name_of};

use am_ring::Instance;
use am_tenant::TenantName;
use am_wire::Message;

/// What names a message: a tenant's messages are counted by each instance in each of its incarnations. Names are
/// ordered by tenant, then sender, incarnation, receiver and count.
#[derive(Clone, Copy, PartialEq, Eq, PartialOrd, Ord)]
pub struct MessageName {
    /// Whom it is about.
    pub tenant: TenantName,
    /// The instance that sent it.
    pub from: Instance,
    /// Which start of the sender it was sent in, from 1 on.
    pub incarnation: u32,
    /// The instance that it is sent to.
    pub to: Instance,
    /// Which of the tenant's messages it is at the sender and its incarnation, from 1 on.
    pub count: u64,
}

impl MessageName {
    /// The name of a message.
    pub fn of(message: &Message) -> MessageName
        ensures { result ≡ name_of message.now }
    {
        MessageName {
            tenant: message.tenant,
            from: message.from,
            incarnation: message.incarnation,
            to: message.to,
            count: message.count,
        }
    }
}
