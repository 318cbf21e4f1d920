//! The open operations of one tenant.

ghost use Rattle.std.specs.Prelude.{◌≡◌, ◌+◌, ℕ, None, IfNone, IfOk, IfSome, OnErr, OnOk};
ghost use Rattle.std.specs.BTreeMap.{keys, values};
ghost use Rattle.std.specs.List.Sorted.{IsStrictlySortedBy};
ghost use Rattle.std.specs.Option.{option_copied};
ghost use Rattle.std.specs.Ordering.{nat_cmp};
ghost use Rattle.am_quorum.specs.Deadlines.{EndsDeadline, KeepDeadlines, without_deadlines};
ghost use Rattle.am_quorum.specs.Dockets.{AreNumbered, AreUsed, added, emptied, expired_in, next_number};
ghost use Rattle.am_quorum.specs.Dockets.{no_docket, with_operations};
ghost use Rattle.am_quorum.specs.Operations.{acked_by, answered_by, connections_of, first_ack_by, late, lists_by};
ghost use Rattle.am_quorum.specs.Operations.{of_epoch, operation_at, operation_of, ready_by, staged};
ghost use Rattle.am_quorum.specs.Operations.{without_operation};
ghost use Rattle.am_quorum.specs.declared.operation.Stage.TheVariants.{Decided};

use crate::deadline::cancel_deadline;
use crate::operation::{Answered, Decide, Operation, Ready, Stage};
use am_http::ConnectionId;
use am_item::GREATEST_COUNT;
use am_ring::Instance;
use am_tenant::TenantName;
use am_text::{Moment, Octets};
use am_timer::TimerQueue;
use std::alloc::{AllocError, Global};
use std::collections::BTreeMap;
use std::marker::Model;

/// A tenant's open operations, and how many it has had.
#[derive(Drop)]
pub struct Docket {
    used: u64,
    operations: BTreeMap<u64, Operation>,
}

impl Model for Docket {
    ghost use Rattle.std.specs.BTreeMap.{values};
    ghost use Rattle.am_quorum.specs.Dockets.{Docket, IsKept};

    ghost Value = { Docket };

    ghost view = { λ docket. record { used = docket.used; operations = values docket.operations } };

    ghost invariant = { λ docket. IsKept docket.used docket.operations.entries };
}

impl Docket {
    // The docket of a tenant that has had no operation.
    pub fn new(alloc: Global) -> Docket
        ensures { result ≡ no_docket }
    {
        Docket {
            used: 0,
            operations: BTreeMap::new(alloc),
        }
    }

    // The operation of a number.
    pub fn operation(&self, number: u64) -> Option<&Operation>
        ensures operation { option_copied result ≡ operation_at number self.now.operations }
        ensures alone { (epoch : ℕ) → operation_of number epoch self.now.operations
            ≡ of_epoch epoch (operation_at number self.now.operations) }
    {
        self.operations.get(&number)
    }

    // The operation of a number, where it started in this epoch.
    fn find(&self, number: u64, epoch: u64) -> Option<&Operation>
        ensures { option_copied result ≡ operation_of number epoch self.now.operations }
    {
        match self.operations.get(&number) {
            Some(operation) if operation.epoch == epoch => Some(operation),
            _ => None,
        }
    }

    // The next number, where not all are used. No open operation has it.
    pub fn next_number(&self) -> Option<u64>
        ensures number { result ≡ next_number self.now }
        ensures unused { operation_at (self.now.used + 1) self.now.operations ≡ None }
    {
        if self.used < GREATEST_COUNT {
            Some(self.used + 1)
        } else {
            None
        }
    }

    // Adds an operation, which has the next number.
    pub fn add(&mut self, operation: Operation) -> Result<(), AllocError>
        requires { operation.number ≡ self.old.used + 1 }
        ensures added { OnOk result (self.new ≡ added operation self.old) }
        ensures err { OnErr result (self.new ≡ self.old) }
    {
        let number = operation.number;
        self.operations.insert(number, operation)?;
        self.used = number;
        Ok(())
    }

    // Takes an answer of a replica to the operation of a number, where it started in this epoch.
    pub fn answer(
        &mut self,
        number: u64,
        epoch: u64,
        answered: Answered,
    ) -> Result<Option<Decide>, AllocError>
        ensures decide { IfOk result (λ decide.
            decide ≡ lists_by answered (operation_of number epoch self.old.operations)) }
        ensures docket { OnOk result (self.new
            ≡ with_operations (answered_by answered (operation_of number epoch self.old.operations)) self.old) }
        ensures deadlines { KeepDeadlines self.old.operations self.new.operations }
        ensures err { OnErr result (self.new ≡ self.old) }
    {
        let Some(operation) = self.find(number, epoch) else {
            return Ok(None);
        };
        match &operation.stage {
            Stage::Undecided(Some(first)) => first.with(answered),
            Stage::Undecided(None) => {
                set_stage(
                    &mut self.operations,
                    number,
                    Stage::Undecided(Some(answered)),
                );
                Ok(None)
            }
            Stage::Decided { .. } => Ok(None),
        }
    }

    // The reply of an operation that was decided waits for Acks.
    pub fn wait(&mut self, number: u64, reply: Octets)
        ensures docket { self.new
            ≡ with_operations (staged (Decided reply None) (operation_at number self.old.operations)) self.old }
        ensures deadlines { KeepDeadlines self.old.operations self.new.operations }
    {
        let stage = Stage::Decided { reply, first: None };
        set_stage(&mut self.operations, number, stage);
    }

    // Takes an Ack of a replica for the operation of a number, where it started in this epoch. Where it is the second
    // replica's, the operation is over, and its reply goes out.
    pub fn ack(&mut self, number: u64, epoch: u64, from: Instance) -> Option<Ready>
        ensures ready { result ≡ ready_by from (operation_of number epoch self.old.operations) }
        ensures docket { self.new
            ≡ with_operations (acked_by from (operation_of number epoch self.old.operations)) self.old }
        ensures over { IfSome result (λ _. EndsDeadline number self.old.operations self.new.operations) }
        ensures open { IfNone result (KeepDeadlines self.old.operations self.new.operations) }
    {
        let Some(operation) = self.find(number, epoch) else {
            return None;
        };
        if operation.is_ready_by(from) {
            return match self.close(number) {
                Some(operation) => operation.into_ready(),
                None => None,
            };
        }
        acknowledge(&mut self.operations, number, from);
        None
    }

    // Closes the operation of a number.
    pub fn close(&mut self, number: u64) -> Option<Operation>
        ensures operation { result ≡ operation_at number self.old.operations }
        ensures docket { self.new ≡ with_operations (without_operation number) self.old }
        ensures deadlines { EndsDeadline number self.old.operations self.new.operations }
    {
        self.operations.remove(&number)
    }

    // Closes the operation of a number, where its deadline has come.
    pub fn expire(&mut self, number: u64, now: Moment) -> Option<Operation>
        ensures operation { result ≡ late now (operation_at number self.old.operations) }
        ensures docket { self.new ≡ expired_in number now self.old }
        ensures over { IfSome result (λ _. EndsDeadline number self.old.operations self.new.operations) }
        ensures open { IfNone result (KeepDeadlines self.old.operations self.new.operations) }
    {
        let Some(operation) = self.operation(number) else {
            return None;
        };
        if !operation.is_late(now) {
            return None;
        }
        self.close(number)
    }

    // The connections that wait for operations, in order of number.
    pub fn connections(&self, alloc: Global) -> Result<Vec<ConnectionId>, AllocError>
        ensures { IfOk result (λ given. given.items ≡ connections_of self.now.operations) }
    {
        let mut connections = Vec::new(alloc);
        for operation in self.operations.values() {
            connections.push(operation.connection)?;
        }
        Ok(connections)
    }

    // Cancels the deadlines of all operations, which are a tenant's.
    pub fn cancel_deadlines(&self, timers: &mut TimerQueue, tenant: &TenantName)
        ensures { timers.new.timers ≡ without_deadlines tenant.now self.now.operations timers.old.timers }
    {
        for operation in self.operations.values() {
            cancel_deadline(timers, tenant, operation.number);
        }
    }

    // Closes all operations.
    pub fn clear(&mut self)
        ensures { self.new ≡ emptied self.old }
    {
        self.operations.clear();
    }
}

// Puts an operation at a stage.
fn set_stage(operations: &mut BTreeMap<u64, Operation>, number: u64, stage: Stage)
    requires { AreNumbered operations.old.entries }
    ensures operations { values operations.new
        ≡ staged stage (operation_at number (values operations.old)) (values operations.old) }
    ensures deadlines { KeepDeadlines (values operations.old) (values operations.new) }
    ensures numbered { AreNumbered operations.new.entries }
    ensures used { (n : ℕ) → AreUsed n operations.old.entries → AreUsed n operations.new.entries }
    ensures rising { IsStrictlySortedBy nat_cmp (keys operations.new) }
{
    if let Some(operation) = operations.get_mut(&number) {
        operation.stage = stage;
    }
}

// Keeps the first Ack of an operation, where it is decided.
fn acknowledge(operations: &mut BTreeMap<u64, Operation>, number: u64, from: Instance)
    requires { AreNumbered operations.old.entries }
    ensures operations { values operations.new
        ≡ first_ack_by from (operation_at number (values operations.old)) (values operations.old) }
    ensures deadlines { KeepDeadlines (values operations.old) (values operations.new) }
    ensures numbered { AreNumbered operations.new.entries }
    ensures used { (n : ℕ) → AreUsed n operations.old.entries → AreUsed n operations.new.entries }
    ensures rising { IsStrictlySortedBy nat_cmp (keys operations.new) }
{
    if let Some(operation) = operations.get_mut(&number) {
        operation.acknowledge(from);
    }
}
