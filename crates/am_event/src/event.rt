use crate::output::AttemptName;
use am_http::ConnectionId;
use am_limit::Limits;
use am_messages::MessageName;
use am_tenant::TenantName;
use am_text::Octets;

/// The greatest moment that an event may tell, in milliseconds since 1970.
pub const LAST_MOMENT: u64 = 250_000_000_000_000;

/// One thing that happens. Events are handled one after the other, each wholly before the next.
#[derive(Drop)]
pub enum Event {
    /// A connection is opened to an instance. A known name starts anew, with no bytes.
    Open {
        connection: ConnectionId,
        instance: u8,
    },
    /// Bytes of a connection came, at a moment in milliseconds since 1970.
    Bytes {
        connection: ConnectionId,
        moment: u64,
        piece: Octets,
    },
    /// The client of a connection left: what came of it is dropped, and no reply is owed. Its name stays used.
    Close {
        connection: ConnectionId,
    },
    /// A tenant has these limits from now on.
    Limits {
        tenant: TenantName,
        limits: Limits,
    },
    /// The clock is at this moment, in milliseconds since 1970.
    Tick {
        moment: u64,
    },
    /// A try of an attempt came to an end, at a moment in milliseconds since 1970: with the status of the webhook's
    /// answer, or without an answer.
    Outcome {
        attempt: AttemptName,
        tries: u8,
        moment: u64,
        status: Option<u16>,
    },
    /// A message reaches its receiver, at a moment in milliseconds since 1970; it may again.
    Deliver {
        message: MessageName,
        moment: u64,
    },
    /// The transport gave a message up, or delivers it no more.
    Lose {
        message: MessageName,
    },
    /// An instance comes into the ring in its next incarnation, opens its store, and knows the new ring at once.
    /// Refused, in this order: [`RingFull`](crate::Refused::RingFull) where eight are in it,
    /// [`WrongInstance`](crate::Refused::WrongInstance) where it isn't numbered 1 to 8 or is in it, and
    /// [`NoIncarnation`](crate::Refused::NoIncarnation) where it had its last one.
    Join {
        instance: u8,
    },
    /// An instance is out of the ring at once, and of what it had nothing is left but the rows of one that was down.
    /// Refused, in this order: [`RingSmall`](crate::Refused::RingSmall) where only three are in the ring, and
    /// [`WrongInstance`](crate::Refused::WrongInstance) where it isn't in it.
    Leave {
        instance: u8,
    },
    /// An instance goes down: only its rows are left, and it stays in the ring. Refused:
    /// [`InstanceNotUp`](crate::Refused::InstanceNotUp).
    Crash {
        instance: u8,
    },
    /// An instance comes up in its next incarnation, opens its store, and knows the newest ring at once. Refused, in
    /// this order: [`InstanceNotUp`](crate::Refused::InstanceNotUp) where it isn't down in the ring, and
    /// [`NoIncarnation`](crate::Refused::NoIncarnation) where it had its last one.
    Restart {
        instance: u8,
    },
    /// An instance goes on to the ring that followed the one it knows. Refused:
    /// [`NothingToLearn`](crate::Refused::NothingToLearn).
    Learn {
        instance: u8,
    },
    /// A tenant's up replicas are settled from now on. It is never refused.
    Force {
        tenant: TenantName,
    },
}
