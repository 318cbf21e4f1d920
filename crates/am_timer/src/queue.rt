//! The queue of timers.
ghost use Rattle.std.specs.Prelude.{◌≡◌, ◌+◌, ◌-◌, ◌⊎◌, ℕ, Some, true, min, not, List, [], length, filter, IfOk, OnOk, OnErr, if◌then◌else◌, ⊤};
ghost use Rattle.std.specs.List.Sorted.{IsStrictlySortedBy};
ghost use Rattle.am_tenant.specs.Names.{same};
ghost use Rattle.am_share.specs.Pairs.{LeavesOthers};
ghost use Rattle.am_timer.specs.Timer.{timer_cmp};
ghost use Rattle.am_timer.specs.Queue.{due_at, pairs_of, timers_of, with_timer, without};
ghost use Rattle.am_timer.specs.Tied.{IsTied, due_in};

use crate::timer::{Timer, TimerName};
use am_share::{ShareRefusal, Shared};
use am_tenant::TenantName;
use am_text::{Failure, Moment};
use std::alloc::{AllocError, Global};
use std::collections::{BTreeMap, BTreeSet};
use std::marker::Model;

/// The timers of all tenants, of which each name has one at most.
pub struct TimerQueue {
    by_due: BTreeSet<Timer>,
    dues: BTreeMap<TimerName, Moment>,
    looked: usize,
}

// Written out, so that a crate which owns one need not prove anew how its parts are dropped.
impl Drop for TimerQueue {
    fn drop(self) {
        let TimerQueue {
            by_due,
            dues,
            looked: _looked,
        } = self;
        drop(by_due);
        drop(dues);
    }
}

impl Model for TimerQueue {
    ghost use Rattle.am_timer.specs.Queue.{Queue};
    ghost use Rattle.am_timer.specs.Tied.{IsTied};

    ghost Value = { Queue };

    ghost view = { λ queue. record { timers = queue.by_due.keys; looked = queue.looked } };

    ghost invariant = { λ queue. IsTied queue.by_due.keys queue.dues.entries };
}

impl TimerQueue {
    /// A queue without timers, which has looked at none.
    pub fn new(alloc: Global) -> TimerQueue
        ensures timers { result.timers ≡ [] }
        ensures looked { result.looked ≡ 0 }
    {
        TimerQueue {
            by_due: BTreeSet::new(alloc),
            dues: BTreeMap::new(alloc),
            looked: 0,
        }
    }

    /// Sets a timer, in the place of the one of its name, if there is one.
    ///
    /// # Errors
    /// Out of memory. The timer of that name may be gone then; all others stay.
    pub fn set(&mut self, alloc: Global, timer: Timer) -> Result<(), AllocError>
        ensures set { OnOk result (self.new.timers ≡ with_timer timer self.old.timers) }
        ensures err { OnErr result ((self.new.timers ≡ self.old.timers) ⊎ (self.new.timers ≡ without timer.name self.old.timers)) }
        // For each tenant it is what a queue gives that this tenant alone uses.
        ensures each { OnOk result ((t : List ℕ) → timers_of t self.new.timers ≡
            (if same t timer.name.tenant then with_timer timer (timers_of t self.old.timers) else timers_of t self.old.timers)) }
        ensures others { LeavesOthers timer.name.tenant (pairs_of self.old.timers) (pairs_of self.new.timers) }
        ensures looked { self.new.looked ≡ self.old.looked }
    {
        set_in(alloc, &mut self.by_due, &mut self.dues, timer)?;
        Ok(())
    }

    /// Cancels the timer of this name, if there is one. It takes no memory.
    pub fn cancel(&mut self, name: &TimerName)
        ensures cancelled { self.new.timers ≡ without name.now self.old.timers }
        ensures each { (t : List ℕ) → timers_of t self.new.timers ≡
            (if same t name.now.tenant then without name.now (timers_of t self.old.timers) else timers_of t self.old.timers) }
        ensures others { LeavesOthers name.now.tenant (pairs_of self.old.timers) (pairs_of self.new.timers) }
        ensures looked { self.new.looked ≡ self.old.looked }
    {
        forget(&mut self.by_due, &mut self.dues, name);
    }

    /// Gives the timers that are due at the moment or before it, in order: by due, then tenant, then key. It looks at no
    /// other timer but the first that is due later. They stay until they are set anew or cancelled, as what they are for
    /// is done.
    ///
    /// # Errors
    /// Out of memory. Nothing changes.
    pub fn due(&mut self, alloc: Global, now: Moment) -> Result<Vec<Timer>, AllocError>
        ensures given { IfOk result (λ given. given.items ≡ due_at now self.old.timers) }
        ensures order { IfOk result (λ given. IsStrictlySortedBy timer_cmp given.items) }
        // For each tenant it is what a queue gives that this tenant alone uses.
        ensures each { IfOk result (λ given. (t : List ℕ) → timers_of t given.items ≡ due_at now (timers_of t self.old.timers)) }
        ensures stay { self.new.timers ≡ self.old.timers }
        ensures looked { IfOk result (λ given. self.new.looked ≡ length given.items + min 1 (length self.old.timers - length given.items)) }
        ensures err_looked { OnErr result (self.new.looked ≡ self.old.looked) }
    {
        let (due, looked) = first_due(alloc, &self.by_due, now)?;
        self.looked = looked;
        Ok(due)
    }

    /// How many timers the last call of [`TimerQueue::due`] that gave timers looked at: those that it gave, and the
    /// first of those that are due later. 0 before the first call.
    pub fn looked(&self) -> usize
        ensures { result ≡ self.now.looked }
    {
        self.looked
    }
}

impl Shared for TimerQueue {
    ghost use Rattle.am_timer.specs.Timer.{Timer};

    ghost Thing = { Timer };

    ghost pairs = { λ queue. pairs_of queue.timers };

    ghost stands = { λ _. ⊤ };

    ghost refuses = { ⊥ };

    fn drop_tenant(&mut self, tenant: &TenantName) -> Result<(), Failure<ShareRefusal>> {
        leave(&mut self.by_due, &mut self.dues, tenant);
        Ok(())
    }
}

// Takes a tenant's timers out of both maps.
fn leave(by_due: &mut BTreeSet<Timer>, dues: &mut BTreeMap<TimerName, Moment>, tenant: &TenantName)
    requires tied { IsTied by_due.old.keys dues.old.entries }
    ensures kept { by_due.new.keys ≡ filter (λ timer. not (same timer.name.tenant tenant.now)) by_due.old.keys }
    ensures tied { IsTied by_due.new.keys dues.new.entries }
{
    by_due.retain(|timer| timer.name.tenant != *tenant);
    dues.retain(|name, _| name.tenant != *tenant);
}

// The timers that are due, in their order, and how many timers it looked at.
fn first_due(
    alloc: Global,
    by_due: &BTreeSet<Timer>,
    now: Moment,
) -> Result<(Vec<Timer>, usize), AllocError>
    requires { IsStrictlySortedBy timer_cmp by_due.now.keys }
    ensures due { IfOk result (λ found. found.0.items ≡ due_at now by_due.now.keys) }
    ensures looked { IfOk result (λ found. found.1 ≡ length found.0.items + min 1 (length by_due.now.keys - length found.0.items)) }
{
    let mut due = Vec::new(alloc);
    let mut looked = 0;
    for timer in by_due {
        looked += 1;
        if timer.due > now {
            break;
        }
        due.push(timer.copy(alloc)?)?;
    }
    Ok((due, looked))
}

// Takes the timer of this name out of both maps.
fn forget(by_due: &mut BTreeSet<Timer>, dues: &mut BTreeMap<TimerName, Moment>, name: &TimerName)
    requires tied { IsTied by_due.old.keys dues.old.entries }
    ensures kept { by_due.new.keys ≡ without name.now by_due.old.keys }
    ensures tied { IsTied by_due.new.keys dues.new.entries }
{
    if let Some((own, due)) = dues.remove_entry(name) {
        by_due.remove(&Timer { due, name: own });
    }
}

// Puts the timer into both maps, unless it is there. First the one of its name goes, so that the maps go together after
// each step.
fn set_in(
    alloc: Global,
    by_due: &mut BTreeSet<Timer>,
    dues: &mut BTreeMap<TimerName, Moment>,
    timer: Timer,
) -> Result<(), AllocError>
    requires tied { IsTied by_due.old.keys dues.old.entries }
    ensures set { OnOk result (by_due.new.keys ≡ with_timer timer by_due.old.keys) }
    ensures err { OnErr result ((by_due.new.keys ≡ by_due.old.keys) ⊎ (by_due.new.keys ≡ without timer.name by_due.old.keys)) }
    ensures tied { IsTied by_due.new.keys dues.new.entries }
{
    if is_set(dues, &timer) {
        return Ok(());
    }
    let name = timer.name.copy(alloc)?;
    forget(by_due, dues, &name);
    dues.insert(name, timer.due)?;
    if let Err(refused) = by_due.insert(timer) {
        dues.remove(&refused.value.name);
        return Err(AllocError);
    }
    Ok(())
}

// Whether the timer of this name is due at this moment.
fn is_set(dues: &BTreeMap<TimerName, Moment>, timer: &Timer) -> bool
    ensures { result ≡ true → due_in dues.now.entries timer.now.name ≡ Some timer.now.due }
{
    match dues.get(&timer.name) {
        Some(due) => *due == timer.due,
        None => false,
    }
}
