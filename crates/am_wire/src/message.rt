//! Messages between instances.

ghost use Rattle.std.specs.Prelude.{◌≡◌, IfOk};

use crate::items::Items;
use am_ring::Instance;
use am_tenant::TenantName;
use std::alloc::AllocError;

/// A message about one tenant. Tenant, sender, incarnation, receiver and count are its name.
#[derive(Drop)]
pub struct Message {
    /// The instance that sent it.
    pub from: Instance,
    /// Which start of the sender it was sent in, from 1 on.
    pub incarnation: u32,
    /// The instance that it is sent to, which may be the sender.
    pub to: Instance,
    /// Which of the tenant's messages it is at that instance and incarnation, from 1 on.
    pub count: u64,
    /// Of a `Get`, an `Answer`, an `Ack`, and a `Put` that an operation sends, the epoch in which that started; of
    /// any other, the epoch of the ring that the sender knew.
    pub epoch: u64,
    /// Whom it is about.
    pub tenant: TenantName,
    /// What it says.
    pub body: Body,
}

/// What a message says. An operation is a number of the one who asks, a place one in the list of a `State`.
#[derive(Drop)]
pub enum Body {
    /// The best items are asked for.
    Get {
        /// The sender's operation that asks.
        operation: u64,
    },
    /// The best items.
    Answer {
        /// The operation that asked.
        operation: u64,
        /// The incarnation of the `Get` that this answers.
        incarnation: u32,
        /// The items, ordered by key.
        items: Items,
    },
    /// Items to accept.
    Put {
        /// The sender's operation that has them accepted; 0 wants no `Ack`.
        operation: u64,
        /// The items as they were decided.
        items: Items,
    },
    /// Items were accepted.
    Ack {
        /// The operation that had them accepted.
        operation: u64,
        /// The incarnation of the `Put` that this answers.
        incarnation: u32,
    },
    /// A replica that isn't settled wants the receiver's items.
    Ask {
        /// The sender's incarnation.
        incarnation: u32,
    },
    /// A piece of the list of items that a settled replica holds.
    State {
        /// The receiver's incarnation.
        incarnation: u32,
        /// The place of the first item in the whole list, from 0 on.
        place: u32,
        /// Whether the list ends with this piece.
        is_last: bool,
        /// The items, ordered by key.
        items: Items,
    },
    /// Pieces have come.
    Got {
        /// The incarnation of the sender of the `State`.
        incarnation: u32,
        /// The place after the last item of all that came without a gap.
        place: u32,
    },
}

impl Message {
    /// The same message, with the same items. It takes no memory; an error says that they are held as often as can be
    /// counted.
    pub fn share(&self) -> Result<Message, AllocError>
        ensures { IfOk result (λ shared. shared ≡ self.now) }
    {
        let body = self.body.share()?;
        Ok(Message {
            from: self.from,
            incarnation: self.incarnation,
            to: self.to,
            count: self.count,
            epoch: self.epoch,
            tenant: self.tenant,
            body,
        })
    }
}

impl Body {
    /// The same, with the same items. It takes no memory; an error says that they are held as often as can be counted.
    pub fn share(&self) -> Result<Body, AllocError>
        ensures { IfOk result (λ shared. shared ≡ self.now) }
    {
        match *self {
            Body::Get { operation } => Ok(Body::Get { operation }),
            Body::Answer {
                operation,
                incarnation,
                ref items,
            } => Ok(Body::Answer {
                operation,
                incarnation,
                items: items.share()?,
            }),
            Body::Put {
                operation,
                ref items,
            } => Ok(Body::Put {
                operation,
                items: items.share()?,
            }),
            Body::Ack {
                operation,
                incarnation,
            } => Ok(Body::Ack {
                operation,
                incarnation,
            }),
            Body::Ask { incarnation } => Ok(Body::Ask { incarnation }),
            Body::State {
                incarnation,
                place,
                is_last,
                ref items,
            } => Ok(Body::State {
                incarnation,
                place,
                is_last,
                items: items.share()?,
            }),
            Body::Got { incarnation, place } => Ok(Body::Got { incarnation, place }),
        }
    }
}
