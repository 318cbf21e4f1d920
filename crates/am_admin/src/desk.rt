//! Where requests are answered.

use crate::calm::{Obstacle, obstacle_to};
use crate::counted::Counted;
use crate::metrics;
use crate::telling::standing;
use am_asking::{Asked, Heads, read};
use am_gateway::has_quorum;
use am_http::{refusal_body, reply_bytes};
use am_serve::{Host, Verdict};
use am_text::Octets;
use am_world::{AnyWorld, Event};
use serde_json::json;
use std::alloc::{AllocError, Global};

/// Answers the clients of the port of those who run a service.
#[derive(Drop)]
pub struct Desk<'d, 'w, W: AnyWorld> {
    alloc: Global,
    heads: &'d mut Heads,
    counted: &'d mut Counted<'w, W>,
    // Whether memory ran out as something happened, so that a part of what was put out is lost.
    has_lost: bool,
}

impl<'d, 'w, W: AnyWorld> Desk<'d, 'w, W> {
    /// A desk before a gateway that is counted, to which these parts of heads came so far.
    pub fn new(
        alloc: Global,
        heads: &'d mut Heads,
        counted: &'d mut Counted<'w, W>,
    ) -> Desk<'d, 'w, W> {
        Desk {
            alloc,
            heads,
            counted,
            has_lost: false,
        }
    }

    /// # Errors
    /// Out of memory, where that happened as the ring changed: a part of what the world put out is lost then.
    pub fn close(self) -> Result<(), AllocError> {
        if self.has_lost {
            return Err(AllocError);
        }
        Ok(())
    }

    // What is answered once a piece came. Out of memory: nothing is, and the head is forgotten.
    fn hear(&mut self, connection: u64, piece: &[u8]) -> Result<Verdict, AllocError> {
        let head = self.heads.take(self.alloc, connection, piece)?;
        let reply = match read(&head) {
            None => {
                self.heads.keep(connection, head)?;
                return Ok(Verdict::Undecided);
            }
            Some(Ok(asked)) => self.answer(&asked)?,
            Some(Err(refusal)) => reply_bytes(self.alloc, refusal.status(), b"")?,
        };
        Ok(Verdict::Reply(reply.into_vec()))
    }

    // The world that is asked about.
    fn world(&self) -> &W {
        self.counted.gateway().world()
    }

    // Does what is asked for, and replies.
    fn answer(&mut self, asked: &Asked) -> Result<Octets, AllocError> {
        match asked {
            Asked::Ring => {
                let text = standing(self.alloc, self.world())?;
                reply_bytes(self.alloc, 200, text.as_slice())
            }
            Asked::Metrics => metrics::reply(self.alloc, self.counted),
            Asked::Healthy => reply_bytes(self.alloc, 200, b""),
            Asked::Ready => {
                let status = if has_quorum(self.world()) { 200 } else { 503 };
                reply_bytes(self.alloc, status, b"")
            }
            Asked::Change(event) => self.change(event),
        }
    }

    // Has an event happen, unless something is in its way, and replies.
    fn change(&mut self, event: &Event) -> Result<Octets, AllocError> {
        if let Some(obstacle) = obstacle_to(self.alloc, self.world(), event)? {
            return self.refuse(obstacle);
        }
        match self.counted.operate(event) {
            Ok(None) => reply_bytes(self.alloc, 200, b"{}"),
            Ok(Some(refused)) => {
                let body = refusal_body(self.alloc, refused.code())?;
                reply_bytes(self.alloc, 409, body.as_slice())
            }
            Err(AllocError) => {
                self.has_lost = true;
                Err(AllocError)
            }
        }
    }

    // Tells what is in the way of a change.
    fn refuse(&self, obstacle: Obstacle) -> Result<Octets, AllocError> {
        let why = format!(in self.alloc; "{obstacle}")?;
        let body = json!(in self.alloc; {"error": why})?.to_vec(self.alloc)?;
        reply_bytes(self.alloc, 409, &body)
    }
}

impl<W: AnyWorld> Host for Desk<'_, '_, W> {
    fn open(&mut self, _connection: u64) -> bool {
        true
    }

    // Where memory is refused, the connection is let go.
    fn take(&mut self, connection: u64, piece: &[u8]) -> Verdict {
        match self.hear(connection, piece) {
            Ok(verdict) => verdict,
            Err(AllocError) => Verdict::Gone,
        }
    }

    fn close(&mut self, connection: u64) {
        self.heads.forget(connection);
    }
}
