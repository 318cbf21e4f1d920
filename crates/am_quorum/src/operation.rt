//! Operations, and what they wait for.

ghost use Rattle.std.specs.Prelude.{◌≡◌, Some, IfOk, is_some, nat_le};
ghost use Rattle.am_quorum.specs.Operations.{acknowledged, due_of, lists_for, ready_with, reply_for, reply_in};
ghost use Rattle.am_quorum.specs.declared.operation.Stage.TheVariants.{Undecided};

use am_http::{ConnectionId, Request};
use am_ring::Instance;
use am_text::{Moment, Octets};
use am_wire::Items;
use std::alloc::AllocError;

/// Which operation an `Answer` or an `Ack` is for.
#[derive(Clone, Copy)]
pub struct Target {
    /// Its number.
    pub number: u64,
    /// The incarnation that the message names.
    pub incarnation: u32,
    /// The epoch of the message.
    pub epoch: u64,
}

/// The best items of a replica, as its `Answer` gave them.
#[derive(Drop)]
pub struct Answered {
    /// The replica.
    pub from: Instance,
    /// The items.
    pub items: Items,
}

/// How far an operation came.
#[derive(Drop)]
pub enum Stage {
    /// It is decided when two replicas have answered: this is the first answer, where one came.
    Undecided(Option<Answered>),
    /// It is decided, and its items went to the three.
    Decided {
        /// What goes out when two replicas have acknowledged.
        reply: Octets,
        /// The first one that has, if one has.
        first: Option<Instance>,
    },
}

/// An open operation.
#[derive(Drop)]
pub struct Operation {
    /// Which of the tenant's operations it is at the instance and its incarnation, from 1 on.
    pub number: u64,
    /// The connection whose request it serves.
    pub connection: ConnectionId,
    /// What is asked.
    pub request: Request,
    /// When it started.
    pub started_at: Moment,
    /// The epoch of the ring that the instance went by.
    pub epoch: u64,
    /// How far it came.
    pub stage: Stage,
}

/// The lists of two replicas, on which an operation is decided.
#[derive(Drop)]
pub struct Decide {
    /// Those of the one that answered first.
    pub first: Items,
    /// Those of the other one.
    pub second: Items,
}

/// A reply that goes out.
#[derive(Drop)]
pub struct Ready {
    /// The connection that it goes to.
    pub connection: ConnectionId,
    /// The reply.
    pub reply: Octets,
}

impl Answered {
    // Both lists, where another replica's answer comes behind this one.
    pub(crate) fn with(&self, other: Answered) -> Result<Option<Decide>, AllocError>
        ensures { IfOk result (λ decide. decide ≡ lists_for (Undecided (Some self.now)) other) }
    {
        if self.from == other.from {
            return Ok(None);
        }
        let first = self.items.share()?;
        Ok(Some(Decide {
            first,
            second: other.items,
        }))
    }
}

/// How long an operation may be open, in milliseconds.
pub const DEADLINE: u64 = 5000;

impl Operation {
    // Its deadline.
    pub(crate) fn deadline(&self) -> Moment
        ensures { result ≡ due_of self.now }
    {
        self.started_at.plus(DEADLINE)
    }

    // Whether its deadline has come.
    pub(crate) fn is_late(&self, now: Moment) -> bool
        ensures { result ≡ nat_le (due_of self.now) now }
    {
        self.deadline() <= now
    }

    // Whether the reply goes out with an Ack of this replica: another one has acknowledged.
    pub(crate) fn is_ready_by(&self, from: Instance) -> bool
        ensures { result ≡ is_some (reply_for self.now.stage from) }
    {
        match &self.stage {
            Stage::Decided {
                first: Some(first),
                ..
            } => *first != from,
            _ => false,
        }
    }

    // Keeps the first Ack, where it is decided.
    pub(crate) fn acknowledge(&mut self, from: Instance)
        ensures { self.new ≡ record self.old { stage = acknowledged from self.old.stage } }
    {
        if let Stage::Decided { first, .. } = &mut self.stage {
            if first.is_none() {
                *first = Some(from);
            }
        }
    }

    // Its reply, where it is decided.
    pub(crate) fn into_ready(self) -> Option<Ready>
        ensures { result ≡ ready_with self (reply_in self.stage) }
    {
        let Operation {
            connection,
            stage,
            ..
        } = self;
        match stage {
            Stage::Decided { reply, .. } => Some(Ready { connection, reply }),
            Stage::Undecided(_) => None,
        }
    }
}
