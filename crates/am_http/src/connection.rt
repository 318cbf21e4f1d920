//! One connection that is being read.
ghost use Rattle.std.specs.Prelude.{◌≡◌, ◌≤◌, [], ◌++◌, length, take, IfOk};
ghost use Rattle.am_http.specs.Plans.{asked_at, IsActionAt};
ghost use Rattle.am_http.specs.Scan.{start, scanned};
ghost use Rattle.am_http.specs.Stages.{HasHead, Stands};
ghost use Rattle.am_http.specs.Verdict.{asked_with, verdict};
ghost use Rattle.am_http.specs.declared.request.Fed.TheVariants.{Waits};
ghost use Rattle.am_http.specs.declared.scan.Scan.TheVariants.{Ended};

use crate::head::{Action, BODY_LIMIT, Plan, read_plan, split_target, text_at};
use crate::paths::Paths;
use crate::refusal::FrontRefusal;
use crate::request::{Fed, Request};
use crate::scan::{Place, Scan, find_end};
use am_text::{Octets, Text};
use std::alloc::{AllocError, Global};
use std::marker::Model;

/// The greatest length of a head in bytes.
const HEAD_LIMIT: usize = 16_384;

// How many bytes decide every connection: a head and a body of the greatest lengths.
const LIMIT: usize = HEAD_LIMIT + BODY_LIMIT as usize;

// What is known of the bytes that came.
#[derive(Clone, Copy)]
enum Stage {
    // The head hasn't ended.
    Head(Place),
    // The head has this many bytes, and passes every check.
    Body(Plan, usize),
    // The request is refused.
    Refused(FrontRefusal),
}

/// A connection and its bytes, of which it keeps no more than decide it. A contract sees it as those bytes.
#[derive(Drop)]
pub(crate) struct Connection {
    text: Vec<u8>,
    stage: Stage,
}

impl Model for Connection {
    ghost use Rattle.std.specs.Prelude.{ℕ, List};

    ghost Value = { List ℕ };

    ghost use Rattle.am_http.specs.Stages.{Stands};

    ghost view = { λ c. c.text.items };

    ghost invariant = { λ c. Stands c.stage c.text.items };
}

// The stage where the head has n bytes.
fn at_end(paths: &Paths, n: usize, text: &[u8]) -> Stage
    requires ended { scanned 0 start text.now ≡ Ended n }
    requires within { n ≤ length text.now }
    ensures { Stands result text.now }
{
    if n > HEAD_LIMIT {
        return Stage::Refused(FrontRefusal::LongHead);
    }
    match read_plan(paths, &text[..n]) {
        Ok(plan) => Stage::Body(plan, n),
        Err(refusal) => Stage::Refused(refusal),
    }
}

// The stage of bytes, of which the first `before` had come to this stage.
fn advance(paths: &Paths, stage: Stage, text: &[u8], before: usize) -> Stage
    requires stands { Stands stage (take before text.now) }
    requires within { before ≤ length text.now }
    ensures { Stands result text.now }
{
    match stage {
        Stage::Head(place) => match find_end(place, text, before) {
            Scan::Ended(n) => at_end(paths, n, text),
            Scan::Open(_) if text.len() > HEAD_LIMIT => Stage::Refused(FrontRefusal::LongHead),
            Scan::Open(place) => Stage::Head(place),
        },
        Stage::Body(plan, n) => Stage::Body(plan, n),
        Stage::Refused(refusal) => Stage::Refused(refusal),
    }
}

// What a head asks for, with its body.
fn ask(alloc: Global, head: &[u8], action: Action, body: &[u8]) -> Result<Fed, AllocError>
    requires { IsActionAt head.now action }
    ensures { IfOk result (λ fed. fed ≡ asked_with (asked_at head.now action) body.now) }
{
    let Action::Call(tenant, method, there, target) = action else {
        return Ok(Fed::Ready);
    };
    let (path, query) = split_target(text_at(head, target));
    Ok(Fed::Request(Request {
        tenant,
        method,
        endpoint: there.endpoint(alloc, path)?,
        query: Text::read(alloc, query)?,
        body: Octets::read(alloc, body)?,
    }))
}

// What the bytes come to where the head has n bytes and passes every check.
fn settle(alloc: Global, plan: Plan, n: usize, text: &[u8]) -> Result<Fed, AllocError>
    requires { HasHead text.now plan n }
    ensures { IfOk result (λ fed. fed ≡ verdict text.now) }
{
    let rest = &text[n..];
    let body_len = plan.body_len as usize;
    if rest.len() < body_len {
        return Ok(Fed::Waits);
    }
    ask(alloc, &text[..n], plan.action, &rest[..body_len])
}

impl Connection {
    /// A connection of which no bytes have come. It takes no memory.
    pub fn new(alloc: Global) -> Connection
        ensures { result ≡ [] }
    {
        Connection {
            text: Vec::new(alloc),
            stage: Stage::Head(Place::START),
        }
    }

    /// Takes in the next bytes, as far as they are needed, and says what all bytes come to. Fails only where
    /// memory is refused.
    pub fn feed(&mut self, alloc: Global, paths: &Paths, piece: &[u8]) -> Result<Fed, AllocError>
        ensures fed { IfOk result (λ fed. fed ≡ verdict (self.old ++ piece.now)) }
        ensures text { IfOk result (λ fed. fed ≡ Waits → self.new ≡ self.old ++ piece.now) }
    {
        let before = self.text.len();
        let room = LIMIT.saturating_sub(before);
        let needed = &piece[..piece.len().min(room)];
        self.text.extend_from_slice(needed)?;
        self.stage = advance(paths, self.stage, &self.text, before);
        self.said(alloc)
    }

    // What the bytes come to.
    fn said(&self, alloc: Global) -> Result<Fed, AllocError>
        ensures { IfOk result (λ fed. fed ≡ verdict self.now) }
    {
        match self.stage {
            Stage::Head(_) => Ok(Fed::Waits),
            Stage::Body(plan, n) => settle(alloc, plan, n, &self.text),
            Stage::Refused(refusal) => Ok(Fed::Refused(refusal)),
        }
    }
}
