//! What an instance does so that an operation is decided.

use am_http::{ConnectionId, Endpoint, Method, Request};
use am_item::Held;
use am_messages::{MessageName, Messages};
use am_quorum::{Answered, Decide, Ops, Target};
use am_ring::Instance;
use am_tenant::TenantName;
use am_text::{Moment, Octets, Text};
use am_wire::{Body, Items, Message};
use anyhow::{Context, Result, bail};
use std::alloc::Global;

/// The incarnation of all instances.
const INCARNATION: u32 = 1;

/// The epoch of all messages.
const EPOCH: u64 = 0;

/// The messages that were sent, and the open operations of an instance.
#[derive(Drop)]
pub struct Office {
    tenant: TenantName,
    messages: Messages,
    ops: Ops,
}

pub fn moment(milliseconds: u64) -> Result<Moment> {
    Moment::from_milliseconds(milliseconds).context("no moment")
}

/// The Answer of a replica to the operation of a number, of what it holds.
pub fn answer(tenant: TenantName, from: u8, operation: u64, held: &Held) -> Result<Message> {
    let items = Items::from_held(held.snapshot()?);
    Ok(Message {
        from: Instance::new(from).context("no instance")?,
        incarnation: INCARNATION,
        to: Instance::new(3).context("no instance")?,
        count: operation,
        epoch: EPOCH,
        tenant,
        body: Body::Answer {
            operation,
            incarnation: INCARNATION,
            items,
        },
    })
}

impl Office {
    /// Nothing was sent, and no operation is open.
    pub fn new(alloc: Global, tenant: TenantName) -> Office {
        Office {
            tenant,
            messages: Messages::new(alloc),
            ops: Ops::new(alloc, INCARNATION),
        }
    }

    // An operation starts, which lists all alerts.
    fn start(&mut self, alloc: Global) -> Result<u64> {
        let request = Request {
            tenant: self.tenant,
            method: Method::Get,
            endpoint: Endpoint::Alerts,
            query: Text::from_string(String::new(alloc)),
            body: Octets::from_vec(Vec::new(alloc)),
        };
        let connection = ConnectionId::new(1);
        let number = self
            .ops
            .start(alloc, connection, request, moment(0)?, EPOCH)?;
        Ok(number)
    }

    // An Answer is made, sent, found and taken; then it is lost.
    fn exchange(&mut self, from: u8, operation: u64, held: &Held) -> Result<Option<Decide>> {
        let message = answer(self.tenant, from, operation, held)?;
        let name = MessageName::of(&message);
        self.messages.send(message, moment(0)?)?;
        let Some(found) = self.messages.find(&name) else {
            bail!("no message");
        };
        let (target, answered) = taken(found)?;
        let decide = self.ops.answer(&self.tenant, target, answered)?;
        self.messages.lose(&name);
        Ok(decide)
    }

    /// An operation is decided on the Answers of two replicas. Gives how many alerts the merged list has.
    pub fn decide(&mut self, alloc: Global, first: &Held, second: &Held) -> Result<usize> {
        let number = self.start(alloc)?;
        if self.exchange(1, number, first)?.is_some() {
            bail!("decided too early");
        }
        let decide = self.exchange(2, number, second)?;
        self.ops.close(&self.tenant, number);
        let Some(Decide { first, second }) = decide else {
            bail!("not decided");
        };
        let own = first.held(alloc)?;
        let other = second.held(alloc)?;
        let merged = own.merged(alloc, &other)?;
        Ok(merged.alerts().len())
    }
}

// What an Answer is for, and what it brings.
fn taken(message: &Message) -> Result<(Target, Answered)> {
    let Body::Answer {
        operation,
        incarnation,
        items,
    } = &message.body
    else {
        bail!("no Answer");
    };
    let target = Target {
        number: *operation,
        incarnation: *incarnation,
        epoch: message.epoch,
    };
    let answered = Answered {
        from: message.from,
        items: items.share()?,
    };
    Ok((target, answered))
}
