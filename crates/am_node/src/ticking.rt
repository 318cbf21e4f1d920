//! Ticks.

ghost use Rattle.std.specs.Prelude.{◌≡◌, ◌++◌, ℕ, List, [], false, true, IfErr, IfOk, OnErr, OnOk, map, if◌then◌else◌};
ghost use Rattle.std.specs.List.Sorted.{IsStrictlySortedBy};
ghost use Rattle.am_tenant.specs.Names.{same};
ghost use Rattle.am_notifier.specs.Planned.{flush_due, timers_in};
ghost use Rattle.am_outlet.specs.Attempts.{is_due};
ghost use Rattle.am_pattern.specs.Asking.{Asked};
ghost use Rattle.am_timer.specs.Queue.{due_at, timers_of};
ghost use Rattle.am_timer.specs.Timer.{timer_cmp};
ghost use Rattle.am_timer.specs.declared.key.TimerKey.TheVariants.{Group as GroupTimer};
ghost use Rattle.am_node.specs.Delivery.{tells};
ghost use Rattle.am_node.specs.Held.{Does, StopsFor, local_of};
ghost use Rattle.am_node.specs.Local.{said_in};
ghost use Rattle.am_node.specs.Plans.{IsPlanned};
ghost use Rattle.am_node.specs.Retiring.{retired};
ghost use Rattle.am_node.specs.Storing.{AreStored, LeavesStore};
ghost use Rattle.am_replica.specs.Storing.{fault_in};
ghost use Rattle.am_node.specs.Ticking.{handled};
ghost use Rattle.am_node.specs.Ticks.{AreHandled, DoesDue, StopsTicking, StopsDoing, StopsHandling, StopsMuting};
ghost use Rattle.am_node.specs.Ticks.{TicksAll, has_flush, context_for, muted_at, muted_for, said_of};
ghost use Rattle.am_node.specs.Ticks.{some_flush};

use crate::dispatch::Dispatch;
use crate::muted::Muted;
use crate::parts::Parts;
use crate::report::Report;
use am_context::{Context, Start};
use am_item::Fault;
use am_limit::LimitBook;
use am_members::Group;
use am_outlet::Sending;
use am_pattern::PatternCache;
use am_rows::Rows;
use am_tenant::TenantName;
use am_text::{Moment, Text};
use am_timer::{FlushKey, Timer, TimerKey};
use std::alloc::{AllocError, Global};

impl Parts {
    /// A tick, of all tenants: what is retired at the moment goes, and then what is due is done once, in order: by when
    /// it is due, by tenant, groups before attempts. Gives what there is to say. It costs what is due and what goes.
    ///
    /// # Errors
    /// `CountsExhausted` where a count of a tenant would pass 2^62, `PatternNotBuilt` where a pattern that may mute
    /// alerts of a group gave no answer, `StoreRefused` where silences retire, or out of memory.
    pub(crate) fn tick<R: Rows>(
        &mut self,
        alloc: Global,
        start: Start,
        moment: Moment,
        limits: &LimitBook,
        cache: &mut PatternCache,
        store: &mut R,
    ) -> Result<Vec<Dispatch>, Fault>
        requires planned { (t : List ℕ) → IsPlanned (local_of t self.old) }
        requires open { R.is_open store.old ≡ true }
        ensures ticks { IfOk result (λ all. TicksAll (context_for start.instance start.incarnation moment limits.now)
            (λ t. local_of t self.old) (λ t. local_of t self.new) all.items) }
        ensures asked { Asked result cache.old cache.new }
        ensures fault { IfErr result (StopsTicking (context_for start.instance start.incarnation moment limits.now)
            (λ t. local_of t self.old) cache.new.refused) }
        ensures clean { R.is_clean store.new ≡ true → R.is_clean store.old ≡ true }
        ensures open { OnOk result (R.is_open store.new ≡ true) }
        ensures stores { R.is_clean store.new ≡ true → AreStored self.old (R.pairs store.old)
            → OnOk result (AreStored self.new (R.pairs store.new)) }
        ensures left { R.is_clean store.new ≡ true → AreStored self.old (R.pairs store.old) → LeavesStore
            (λ t. local_of t self.old) (λ t. retired moment (local_of t self.old))
            ⊥ (fault_in result) (R.medium store.old) (R.medium store.new) (R.pairs store.new) }
    {
        self.retire(alloc, moment, store)?;
        self.do_due(alloc, start, moment, limits, cache)
    }

    // Does all that is due at a moment, of all tenants.
    fn do_due(
        &mut self,
        alloc: Global,
        start: Start,
        moment: Moment,
        limits: &LimitBook,
        cache: &mut PatternCache,
    ) -> Result<Vec<Dispatch>, Fault>
        requires planned { (t : List ℕ) → IsPlanned (local_of t self.old) }
        ensures done { IfOk result (λ all. DoesDue (context_for start.instance start.incarnation moment limits.now)
            (λ t. local_of t self.old) (λ t. local_of t self.new) all.items) }
        ensures asked { Asked result cache.old cache.new }
        ensures fault { IfErr result (StopsDoing (context_for start.instance start.incarnation moment limits.now)
            (λ t. local_of t self.old) cache.new.refused) }
    {
        let (due, muted) = self.due(alloc, moment, cache)?;
        self.handle_all(alloc, start, moment, limits, &due, &muted)
    }

    /// The timers that are due at a moment, and what is muted of the tenants that have a group to flush.
    #[tactic(auto, unfolding(crate::specs::Held::local_of))]
    pub(crate) fn due(
        &mut self,
        alloc: Global,
        moment: Moment,
        cache: &mut PatternCache,
    ) -> Result<(Vec<Timer>, Muted), Fault>
        ensures due { IfOk result (λ found. (t : List ℕ) → timers_of t found.0.items
            ≡ due_at moment (timers_in t (local_of t self.old).plan)) }
        ensures order { IfOk result (λ found. IsStrictlySortedBy timer_cmp found.0.items) }
        ensures muted { IfOk result (λ found. (t : List ℕ) → some_flush t found.0.items ≡ true → muted_for t found.1
            ≡ muted_at moment (local_of t self.old).held) }
        ensures stays { self.new ≡ self.old }
        ensures asked { Asked result cache.old cache.new }
        ensures fault { IfErr result (StopsMuting cache.new.refused moment
            (λ t. has_flush t moment (local_of t self.old).plan) (λ t. (local_of t self.old).held)) }
    {
        let due = self.notifier.due(alloc, moment)?;
        let muted = Muted::of(alloc, &mut self.replica, &due, moment, cache)?;
        Ok((due, muted))
    }

    // Does what these timers are for, in their order.
    fn handle_all(
        &mut self,
        alloc: Global,
        start: Start,
        moment: Moment,
        limits: &LimitBook,
        due: &[Timer],
        muted: &Muted,
    ) -> Result<Vec<Dispatch>, Fault>
        requires planned { (t : List ℕ) → IsPlanned (local_of t self.old) }
        ensures handled { IfOk result (λ all. AreHandled
            (context_for start.instance start.incarnation moment limits.now) muted.now due.now
            (λ t. local_of t self.old) (λ t. local_of t self.new) all.items) }
        ensures fault { IfErr result (StopsHandling
            (context_for start.instance start.incarnation moment limits.now) muted.now due.now
            (λ t. local_of t self.old)) }
    {
        let mut all = Vec::new(alloc);
        for timer in due {
            let tenant = &timer.name.tenant;
            let context = Context {
                instance: start.instance,
                incarnation: start.incarnation,
                moment,
                limits: limits.of(tenant),
            };
            let reports = self.handle(alloc, tenant, &context, &timer.name.key, muted)?;
            add_all(&mut all, tenant, reports)?;
        }
        Ok(all)
    }

    /// Does what a timer of a tenant is for, where it is still due.
    pub(crate) fn handle(
        &mut self,
        alloc: Global,
        tenant: &TenantName,
        context: &Context,
        key: &TimerKey,
        muted: &Muted,
    ) -> Result<Vec<Report>, Fault>
        requires planned { IsPlanned (local_of tenant.now self.old) }
        ensures does { OnOk result (Does tenant.now
            (handled context.now (muted_for tenant.now muted.now) key.now) self.old self.new) }
        ensures said { IfOk result (λ v. map said_in v.items
            ≡ (handled context.now (muted_for tenant.now muted.now) key.now (local_of tenant.now self.old)).said) }
        ensures fits { IfOk result (λ _. (handled context.now (muted_for tenant.now muted.now) key.now
            (local_of tenant.now self.old)).fits ≡ true) }
        ensures fault { IfErr result (StopsFor
            (handled context.now (muted_for tenant.now muted.now) key.now (local_of tenant.now self.old))) }
    {
        match key {
            TimerKey::Group(group) => self.flush_due(alloc, tenant, context, group, muted),
            TimerKey::Retry(number) => {
                let sending = self.retry(alloc, tenant, context, *number)?;
                let reports = one_of(alloc, sending)?;
                Ok(reports)
            }
            TimerKey::Operation(_) => Ok(Vec::new(alloc)),
            TimerKey::Push(_) => Ok(Vec::new(alloc)),
        }
    }
}

// A try goes out, where there is one.
fn one_of(alloc: Global, sending: Option<Sending>) -> Result<Vec<Report>, AllocError>
    ensures { IfOk result (λ v. map said_in v.items ≡ tells sending) }
{
    let mut reports = Vec::new(alloc);
    if let Some(sending) = sending {
        reports.push(Report::Try(sending))?;
    }
    Ok(reports)
}

// Adds what there is to say of a tenant.
fn add_all(
    all: &mut Vec<Dispatch>,
    tenant: &TenantName,
    reports: Vec<Report>,
) -> Result<(), AllocError>
    ensures { OnOk result ((t : List ℕ) → said_of t all.new.items
        ≡ said_of t all.old.items ++ (if same t tenant.now then map said_in reports.items else [])) }
{
    for report in reports {
        all.push(Dispatch {
            tenant: *tenant,
            report,
        })?;
    }
    Ok(())
}
