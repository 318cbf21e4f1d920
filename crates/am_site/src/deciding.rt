//! Decisions: at the second answer to an operation.

ghost use Rattle.std.specs.Prelude.{◌≡◌, ◌+◌, ◌<◌, ◌≤◌, ℕ, List, Some, IfErr, IfOk, OnOk, length, true};
ghost use Rattle.am_alert.specs.Made.{counts_fit, greatest_count};
ghost use Rattle.am_cluster.specs.Operating.{carry_out, finish, stamp, wait_with};
ghost use Rattle.am_cluster.specs.Reactions.{where_some};
ghost use Rattle.am_item.specs.Best.{merged};
ghost use Rattle.am_muting.specs.Failing.{AddsAmong};
ghost use Rattle.am_pattern.specs.Asking.{Grows};
ghost use Rattle.am_node.specs.Held.{local_of as local_in_node};
ghost use Rattle.am_quorum.specs.Dockets.{Docket};
ghost use Rattle.am_quorum.specs.Operations.{operation_at};
ghost use Rattle.am_quorum.specs.declared.operation.Operation.{Operation as Opened};
ghost use Rattle.am_transfer.specs.Settling.{Settling};
ghost use Rattle.am_site.specs.Deciding.{Answers, IsDecided, StopsAnswering, StopsDeciding, asked_by, asked_on};
ghost use Rattle.am_site.specs.Deciding.{decides_on, shared_as};
ghost use Rattle.am_site.specs.Here.{here_of};
ghost use Rattle.am_site.specs.InOrder.{IsInOrder};
ghost use Rattle.am_site.specs.Locals.{from_rooms, local_of};
ghost use Rattle.am_site.specs.Reacting.{Does, Reacts, StopsReacting};

use crate::here::Here;
use crate::limiting::{SharedDecision, within_bytes};
use crate::said::Said;
use crate::site::Site;
use am_alert::Maker;
use am_api::decide;
use am_current::Elsewhere;
use am_http::{Request, reply_bytes};
use am_item::{Fault, Held};
use am_node::Node;
use am_pattern::PatternCache;
use am_quorum::{Answered, Decide, Target};
use am_text::Octets;
use am_wire::{Body, Items};
use am_words::Words;
use std::alloc::{AllocError, Global};

impl Site {
    /// Takes the answer of a replica to an operation of a tenant. The second one decides it, on the best of what the
    /// two hold: where nothing is stored the reply goes out; otherwise the items go to the three replicas.
    ///
    /// # Errors
    /// `CountsExhausted` where a count of the tenant here would pass 2^62 or a message is too long, `PatternNotBuilt`
    /// where a pattern in use that the request asks gave no answer, or out of memory.
    pub fn take_answer(
        &mut self,
        alloc: Global,
        here: &Here,
        target: Target,
        answered: Answered,
        cache: &mut PatternCache,
        outbox: &mut Vec<Said>,
    ) -> Result<(), Fault>
        requires { self.old.operations.incarnation ≡ target.incarnation }
        ensures answers { OnOk result (Answers here.now cache.old.refused cache.new.refused
            target.number target.epoch answered self.old self.new outbox.old.items outbox.new.items) }
        ensures fault { IfErr result (StopsAnswering cache.new.refused here.now
            target.number target.epoch answered (local_of here.now.tenant.now self.old)) }
        ensures asks { AddsAmong (asked_by here.now (decides_on target.number target.epoch answered
            (local_of here.now.tenant.now self.old).operations)) cache.old.refused cache.new.refused }
        ensures asked { Grows cache.old cache.new }
        ensures order { IsInOrder (here_of here.now) self.old → OnOk result (IsInOrder (here_of here.now) self.new) }
    {
        let lists = match self.operations.answer(here.tenant, target, answered)? {
            Some(lists) => lists,
            None => return Ok(()),
        };
        let Some(operation) = self.operations.get(here.tenant, target.number) else {
            return Ok(());
        };
        let list = merge(alloc, &lists)?;
        let request = &operation.request;
        let (node, elsewhere) = (&mut self.node, &mut self.elsewhere);
        let decided = decide_on(alloc, here, request, list, node, elsewhere, cache)?;
        self.carry_out(alloc, here, target, decided, outbox)
    }

    // Carries out what was decided on an operation: the items are counted, and the reply goes out, or waits for Acks of
    // the items that go to the three.
    fn carry_out(
        &mut self,
        alloc: Global,
        here: &Here,
        target: Target,
        decided: SharedDecision,
        outbox: &mut Vec<Said>,
    ) -> Result<(), Fault>
        requires fits { counts_fit decided.items.items ≡ true }
        requires room { 0 < length decided.items.items → (local_of here.now.tenant.now self.old).ledger.stamps
            + length decided.items.items ≤ greatest_count }
        ensures reacts { OnOk result ((o : Opened)
            → operation_at target.number (local_of here.now.tenant.now self.old).operations ≡ Some o
            → o.epoch ≡ target.epoch → Reacts here.now.tenant.now (carry_out (here_of here.now) o (shared_as decided))
            self.old self.new outbox.old.items outbox.new.items) }
        ensures fault { IfErr result (λ fault. (o : Opened)
            → operation_at target.number (local_of here.now.tenant.now self.old).operations ≡ Some o
            → o.epoch ≡ target.epoch → StopsReacting here.now.tenant.now
            (carry_out (here_of here.now) o (shared_as decided)) self.old fault) }
    {
        let reply = reply_bytes(alloc, decided.status, decided.body.as_slice())?;
        self.stamp(alloc, here, &decided)?;
        if decided.items.is_empty() {
            self.finish(here, target.number, reply, outbox)?;
            return Ok(());
        }
        self.wait(here, target.number, reply);
        let body = Body::Put {
            operation: target.number,
            items: Items::from_vec(alloc, decided.items)?,
        };
        self.send_all(alloc, here, target.epoch, here.three, &body, outbox)
    }

    // Counts the items that were made.
    fn stamp(
        &mut self,
        alloc: Global,
        here: &Here,
        decided: &SharedDecision,
    ) -> Result<(), AllocError>
        requires fits { counts_fit decided.now.items.items ≡ true }
        requires room { 0 < length decided.now.items.items → (local_of here.now.tenant.now self.old).ledger.stamps
            + length decided.now.items.items ≤ greatest_count }
        ensures { OnOk result (Does here.now.tenant.now (stamp (shared_as decided.now)) self.old self.new) }
    {
        let count = decided.items.len() as u64;
        self.node.count(alloc, here.tenant, count, decided.drawn)
    }

    // The reply of an operation waits for Acks, where it is open.
    fn wait(&mut self, here: &Here, number: u64, reply: Octets)
        ensures { Does here.now.tenant.now (λ l. where_some (wait_with reply) (operation_at number l.operations) l)
            self.old self.new }
    {
        self.operations.wait(here.tenant, number, reply);
    }

    // An operation is over, where it is open: its reply goes out.
    pub(crate) fn finish(
        &mut self,
        here: &Here,
        number: u64,
        reply: Octets,
        outbox: &mut Vec<Said>,
    ) -> Result<(), AllocError>
        ensures { OnOk result (Reacts here.now.tenant.now
            (λ l. where_some (finish reply) (operation_at number l.operations) l)
            self.old self.new outbox.old.items outbox.new.items) }
    {
        if let Some(operation) = self.operations.close(here.tenant, number) {
            outbox.push(Said::Reply {
                connection: operation.connection,
                bytes: reply,
            })?;
        }
        Ok(())
    }
}

// The best of what two replicas hold.
fn merge(alloc: Global, lists: &Decide) -> Result<Held, AllocError>
    ensures { IfOk result (λ held. held ≡ merged lists.now.first lists.now.second) }
{
    let first = lists.first.held(alloc)?;
    let second = lists.second.held(alloc)?;
    first.merged(alloc, &second)
}

// Decides on a request, where this list is held of its tenant. What the node has of all tenants stays.
fn decide_on(
    alloc: Global,
    here: &Here,
    request: &Request,
    list: Held,
    node: &mut Node,
    elsewhere: &mut Elsewhere,
    cache: &mut PatternCache,
) -> Result<SharedDecision, Fault>
    ensures decided { IfOk result (λ d. (docket : Docket) (sent : ℕ) (settling : Settling) →
        IsDecided cache.old.refused cache.new.refused here.now request.now list
        (from_rooms (local_in_node here.now.tenant.now node.old) docket sent settling) (shared_as d)) }
    ensures fault { IfErr result (λ fault. (docket : Docket) (sent : ℕ) (settling : Settling) →
        StopsDeciding cache.new.refused here.now request.now list
        (from_rooms (local_in_node here.now.tenant.now node.old) docket sent settling) fault) }
    ensures asks { AddsAmong (asked_on here.now request.now list) cache.old.refused cache.new.refused }
    ensures asked { Grows cache.old cache.new }
    ensures stays { (t : List ℕ) → local_in_node t node.new ≡ local_in_node t node.old }
{
    let number = here.instance.number();
    let maker = Maker {
        instance: number,
        incarnation: here.incarnation,
        used: node.stamps(here.tenant),
    };
    let place = node.place(here.tenant);
    let words = Words::new(
        here.service_key,
        here.tenant,
        number,
        here.incarnation,
        place,
    );
    let (held, config) = node.in_use(alloc, here.tenant)?;
    let config = elsewhere.in_use(alloc, here.tenant, &list, held, config)?;
    let (limits, moment) = (here.limits, here.moment);
    let decided = decide(
        alloc, request, &list, config, limits, moment, maker, words, cache,
    )?;
    let shared = within_bytes(alloc, limits.alert_bytes, request, list, decided)?;
    Ok(shared)
}
