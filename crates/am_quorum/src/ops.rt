//! The open operations of all tenants.

ghost use Rattle.std.specs.Prelude.{◌≡◌, ◌+◌, ◌^◌, ◌&&◌, ◌≤◌, ◌↔◌, ℕ, List, IfOk, IsErrOf, OnErr, OnOk};
ghost use Rattle.std.specs.List.Sorted.{IsStrictlySortedBy};
ghost use Rattle.std.specs.Option.{option_copied};
ghost use Rattle.am_timer.specs.Queue.{is_due};
ghost use Rattle.am_timer.specs.Tied.{has_timer};
ghost use Rattle.am_timer.specs.Timer.{Timer as Timed, timer_cmp};
ghost use Rattle.am_quorum.specs.Deadlines.{is_deadline};
ghost use Rattle.am_quorum.specs.Dockets.{AreOrdered, Changes, Stay, acknowledged_in, answered_in, closed_in};
ghost use Rattle.am_quorum.specs.Dockets.{docket_of, emptied, expired_in, no_docket, operations_of, started};
ghost use Rattle.am_quorum.specs.Dockets.{waiting_in};
ghost use Rattle.am_quorum.specs.Operations.{connections_of, late, lists_by, of_epoch, opened, operation_at};
ghost use Rattle.am_quorum.specs.Operations.{operation_of, ready_by, target_in};
ghost use Rattle.am_quorum.specs.declared.operation.Operation.{Operation};

use crate::deadline::{cancel_deadline, deadline_name};
use crate::docket::Docket;
use crate::operation::{Answered, Decide, Operation, Ready, Stage, Target};
use am_http::{ConnectionId, Request};
use am_item::Fault;
use am_ring::Instance;
use am_tenant::TenantName;
use am_text::{Moment, Octets};
use am_timer::{Timer, TimerQueue};
use std::alloc::{AllocError, Global};
use std::collections::BTreeMap;
use std::marker::Model;

/// The open operations of all tenants at an instance, in one of its incarnations. Each tenant's operations are numbered
/// from 1 on, whatever the other tenants' are, and no number is used again.
pub struct Ops {
    incarnation: u32,
    dockets: BTreeMap<TenantName, Docket>,
    timers: TimerQueue,
}

// Written out, so that a crate which owns one need not prove anew how its parts are dropped.
impl Drop for Ops {
    fn drop(self) {
        let Ops {
            incarnation: _incarnation,
            dockets,
            timers,
        } = self;
        drop(dockets);
        drop(timers);
    }
}

impl Model for Ops {
    ghost use Rattle.am_quorum.specs.Deadlines.{IsTimed};
    ghost use Rattle.am_quorum.specs.Dockets.{Ops};

    ghost Value = { Ops };

    ghost view = { λ ops. record { incarnation = ops.incarnation; dockets = ops.dockets.entries } };

    ghost invariant = { λ ops.
        IsTimed (record { incarnation = ops.incarnation; dockets = ops.dockets.entries }) ops.timers.timers };
}

impl Ops {
    /// No operations, at an instance in this incarnation: no tenant has had one.
    #[tactic(auto, unfolding(crate::specs::Dockets::docket_of))]
    pub fn new(alloc: Global, incarnation: u32) -> Ops
        ensures dockets { (t : List ℕ) → docket_of t result ≡ no_docket }
        ensures incarnation { result.incarnation ≡ incarnation }
    {
        Ops {
            incarnation,
            dockets: BTreeMap::new(alloc),
            timers: TimerQueue::new(alloc),
        }
    }

    /// The tenant's operation of a number, where it is open: no other one has its number.
    pub fn get(&self, tenant: &TenantName, number: u64) -> Option<&Operation>
        ensures operation { option_copied result ≡ operation_at number (operations_of tenant.now self.now) }
        ensures alone { (epoch : ℕ) → operation_of number epoch (operations_of tenant.now self.now)
            ≡ of_epoch epoch (operation_at number (operations_of tenant.now self.now)) }
        ensures ordered { AreOrdered self.now }
    {
        match self.dockets.get(tenant) {
            Some(docket) => docket.operation(number),
            None => None,
        }
    }

    /// Opens an operation for a request that comes at a moment, in the epoch of the ring that the instance goes by. It
    /// has the next number of the request's tenant, which is given.
    ///
    /// # Errors
    /// `CountsExhausted` where the tenant has used 2^62 numbers, or out of memory. Nothing changes.
    pub fn start(
        &mut self,
        alloc: Global,
        connection: ConnectionId,
        request: Request,
        started_at: Moment,
        epoch: u64,
    ) -> Result<u64, Fault>
        ensures number { IfOk result (λ number. number ≡ (docket_of request.tenant self.old).used + 1) }
        ensures each { OnOk result
            (Changes request.tenant (started (opened connection request started_at epoch)) self.old self.new) }
        ensures fault { IsErrOf result Fault.CountsExhausted ↔ (2 ^ 62 ≤ (docket_of request.tenant self.old).used) }
        ensures no_pattern { IsErrOf result Fault.PatternNotBuilt → ⊥ }
        ensures no_store { IsErrOf result Fault.StoreRefused → ⊥ }
        ensures err { OnErr result (Stay self.old self.new) }
        ensures incarnation { self.new.incarnation ≡ self.old.incarnation }
    {
        let tenant = request.tenant;
        let docket = self.dockets.entry(tenant)?.or_insert(Docket::new(alloc));
        let Some(number) = docket.next_number() else {
            return Err(Fault::CountsExhausted);
        };
        let operation = Operation {
            number,
            connection,
            request,
            started_at,
            epoch,
            stage: Stage::Undecided(None),
        };
        let name = deadline_name(&tenant, number);
        let due = operation.deadline();
        self.timers.set(alloc, Timer { due, name })?;
        if docket.add(operation).is_err() {
            cancel_deadline(&mut self.timers, &tenant, number);
            return Err(Fault::OutOfMemory);
        }
        Ok(number)
    }

    /// Takes the answer of a replica to a tenant's operation. The first one is kept. Once another replica's comes, the
    /// operation is to be decided on the two lists that are given; it stays open. Nothing is given and nothing changes
    /// where the operation isn't open, is of another epoch or incarnation, is decided, or has the replica's answer.
    ///
    /// # Errors
    /// Out of memory. Nothing changes.
    pub fn answer(
        &mut self,
        tenant: &TenantName,
        target: Target,
        answered: Answered,
    ) -> Result<Option<Decide>, AllocError>
        ensures decide { IfOk result (λ decide.
            decide ≡ lists_by answered (target_in self.old.incarnation target (operations_of tenant.now self.old))) }
        ensures each { OnOk result
            (Changes tenant.now (answered_in self.old.incarnation target answered) self.old self.new) }
        ensures err { OnErr result (Stay self.old self.new) }
        ensures incarnation { self.new.incarnation ≡ self.old.incarnation }
    {
        if target.incarnation != self.incarnation {
            return Ok(None);
        }
        let Some(docket) = self.dockets.get_mut(tenant) else {
            return Ok(None);
        };
        docket.answer(target.number, target.epoch, answered)
    }

    /// The decision on a tenant's operation was made, and brings items: its reply waits until two replicas have
    /// acknowledged them. Nothing changes where it isn't open.
    pub fn wait(&mut self, tenant: &TenantName, number: u64, reply: Octets)
        ensures each { Changes tenant.now (waiting_in reply number) self.old self.new }
        ensures incarnation { self.new.incarnation ≡ self.old.incarnation }
    {
        let Some(docket) = self.dockets.get_mut(tenant) else {
            return;
        };
        docket.wait(number, reply);
    }

    /// Takes the Ack of a replica for a tenant's operation. The first one is kept. Once another replica's comes, the
    /// operation is over, and its reply goes out. Nothing is given and nothing changes where the operation isn't open,
    /// is of another epoch or incarnation, isn't decided, or has the replica's Ack.
    pub fn ack(&mut self, tenant: &TenantName, target: Target, from: Instance) -> Option<Ready>
        ensures ready { result
            ≡ ready_by from (target_in self.old.incarnation target (operations_of tenant.now self.old)) }
        ensures each { Changes tenant.now (acknowledged_in self.old.incarnation target from) self.old self.new }
        ensures incarnation { self.new.incarnation ≡ self.old.incarnation }
    {
        if self.incarnation != target.incarnation {
            return None;
        }
        let Some(docket) = self.dockets.get_mut(tenant) else {
            return None;
        };
        let ready = docket.ack(target.number, target.epoch, from);
        if ready.is_some() {
            cancel_deadline(&mut self.timers, tenant, target.number);
        }
        ready
    }

    /// Closes a tenant's operation of a number, where it is open.
    pub fn close(&mut self, tenant: &TenantName, number: u64) -> Option<Operation>
        ensures operation { result ≡ operation_at number (operations_of tenant.now self.old) }
        ensures each { Changes tenant.now (closed_in number) self.old self.new }
        ensures incarnation { self.new.incarnation ≡ self.old.incarnation }
    {
        let Some(docket) = self.dockets.get_mut(tenant) else {
            return None;
        };
        cancel_deadline(&mut self.timers, tenant, number);
        docket.close(number)
    }

    /// Closes a tenant's operation of a number, where it is open and started [`DEADLINE`] or more before the moment.
    ///
    /// [`DEADLINE`]: crate::DEADLINE
    pub fn expire(&mut self, tenant: &TenantName, number: u64, now: Moment) -> Option<Operation>
        ensures operation { result ≡ late now (operation_at number (operations_of tenant.now self.old)) }
        ensures each { Changes tenant.now (expired_in number now) self.old self.new }
        ensures incarnation { self.new.incarnation ≡ self.old.incarnation }
    {
        let Some(docket) = self.dockets.get_mut(tenant) else {
            return None;
        };
        let expired = docket.expire(number, now);
        if expired.is_some() {
            cancel_deadline(&mut self.timers, tenant, number);
        }
        expired
    }

    /// Gives the deadlines of all tenants' operations that are at the moment or before it, in order: by moment, then
    /// tenant, then number. It looks at no other deadline but the next one, and changes nothing: the operations stay
    /// open until each is closed by [`Ops::expire`].
    ///
    /// # Errors
    /// Out of memory.
    pub fn due(&mut self, alloc: Global, now: Moment) -> Result<Vec<Timer>, AllocError>
        ensures due { IfOk result (λ due.
            (x : Timed) → has_timer due.items x ≡ (is_due now x && is_deadline self.old x)) }
        ensures order { IfOk result (λ due. IsStrictlySortedBy timer_cmp due.items) }
        ensures stays { self.new ≡ self.old }
    {
        let due = self.timers.due(alloc, now)?;
        Ok(due)
    }

    /// The tenant's replicas changed: closes all its operations, and gives their connections in order of number. Their
    /// numbers stay used.
    ///
    /// # Errors
    /// Out of memory. Nothing changes.
    pub fn changed(
        &mut self,
        alloc: Global,
        tenant: &TenantName,
    ) -> Result<Vec<ConnectionId>, AllocError>
        ensures connections { IfOk result (λ given. given.items ≡ connections_of (operations_of tenant.now self.old)) }
        ensures each { OnOk result (Changes tenant.now emptied self.old self.new) }
        ensures err { OnErr result (Stay self.old self.new) }
        ensures incarnation { self.new.incarnation ≡ self.old.incarnation }
    {
        let Some(docket) = self.dockets.get_mut(tenant) else {
            return Ok(Vec::new(alloc));
        };
        let connections = docket.connections(alloc)?;
        docket.cancel_deadlines(&mut self.timers, tenant);
        docket.clear();
        Ok(connections)
    }
}
