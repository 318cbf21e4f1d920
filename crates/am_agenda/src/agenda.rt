//! What is planned of all tenants.
ghost use Rattle.std.specs.Prelude.{◌≡◌, ◌↔◌, ◌+◌, ◌^◌, ◌≤◌, ℕ, false, List, [], map, IfOk, IfSome, IsErrOf, OnErr};
ghost use Rattle.std.specs.Prelude.{OnOk, if◌then◌else◌};
ghost use Rattle.std.specs.List.Sorted.{IsStrictlySortedBy};
ghost use Rattle.std.specs.Map.{keys_of, lookup};
ghost use Rattle.std.specs.Option.{option_copied};
ghost use Rattle.am_tenant.specs.Names.{same};
ghost use Rattle.am_members.specs.Grouped.{flushed_at, grouped_of, kept_after, listed, members, nothing, put_in};
ghost use Rattle.am_members.specs.Members.{gave, is_bare};
ghost use Rattle.am_members.specs.Names.{is_set, without as absent};
ghost use Rattle.am_outlet.specs.Attempts.{added, after_outcome, after_tick, attempt_at, awaits_outcome, next_of};
ghost use Rattle.am_outlet.specs.Attempts.{no_attempts, outcome_of, sending_of, without, without_key};
ghost use Rattle.am_outlet.specs.Desks.{desk_of};
ghost use Rattle.am_timer.specs.Queue.{due_at, timers_of};
ghost use Rattle.am_timer.specs.Tied.{has_timer};
ghost use Rattle.am_timer.specs.Timer.{Timer as Timed, timer_cmp};
ghost use Rattle.am_labels.specs.Labels.{labels_cmp};
ghost use Rattle.am_planning.specs.Planning.{default_paces};
ghost use Rattle.am_agenda.specs.Paces.{paces_of};
ghost use Rattle.am_agenda.specs.Plan.{all_groups, dropped, flush_due, no_plan, rebuilt, timers_in, with_alert};
ghost use Rattle.am_agenda.specs.Plan.{with_alerts, with_desk, with_flush, with_living, without_alert};
ghost use Rattle.am_agenda.specs.Planned.{flush_due_of, groups_known, is_for, is_for_one, plan_of};

use crate::grouping::{flush_in, put_all, put_in, remove_from, sinces_of, take_out_of};
use crate::paces::Paces;
use crate::refresh::due;
use crate::trying::{drop_attempt, take_outcome, try_again};
use am_item::{EntryKey, Fault};
use am_labels::LabelSet;
use am_members::{Group, Groups, Known, Members};
use am_outlet::{Attempts, Notice, Outcome, Sending};
use am_planning::Pace;
use am_share::Shared;
use am_tenant::TenantName;
use am_text::{Listed, Moment, Text};
use am_timer::{Timer, TimerQueue};
use std::alloc::{AllocError, Global};
use std::marker::Model;

/// What an instance has to do by itself, of all tenants. A call that fails leaves nothing planned of any tenant but how long
/// groups wait; where `due` and `retry` fail, nothing changes.
pub struct Agenda {
    paces: Paces,
    groups: Groups,
    attempts: Attempts,
    timers: TimerQueue,
}

// Written out, so that a crate which owns one need not prove anew how its parts are dropped.
impl Drop for Agenda {
    fn drop(self) {
        let Agenda {
            paces,
            groups,
            attempts,
            timers,
        } = self;
        drop(paces);
        drop(groups);
        drop(attempts);
        drop(timers);
    }
}

impl Model for Agenda {
    ghost use Rattle.am_agenda.specs.Planned.{IsKept, Plans};

    ghost Value = { Plans };

    ghost view = { λ a. record { paces = a.paces; groups = a.groups; desks = a.attempts } };

    ghost invariant = { λ a. IsKept (record { paces = a.paces; groups = a.groups; desks = a.attempts })
        a.timers.timers };
}

impl Agenda {
    /// Nothing planned. The routes of a tenant for whom no others were set have the paces that hold without a configuration.
    ///
    /// An error is out of memory.
    pub fn new(alloc: Global) -> Result<Agenda, AllocError>
        ensures { IfOk result (λ agenda. (t : List ℕ) → plan_of t agenda ≡ no_plan default_paces) }
    {
        Ok(Agenda {
            paces: Paces::new(alloc)?,
            groups: Groups::new(alloc),
            attempts: Attempts::new(alloc),
            timers: TimerQueue::new(alloc),
        })
    }

    /// Forgets all that is planned, and the paces that were set. It takes no memory.
    pub fn clear(&mut self, alloc: Global)
        ensures { (t : List ℕ) → plan_of t self.new ≡ no_plan default_paces }
    {
        self.paces.clear();
        reset(
            alloc,
            &mut self.groups,
            &mut self.attempts,
            &mut self.timers,
        );
    }

    /// Forgets what is planned of a tenant, and the paces of its routes: its alerts with their groups and flushes, its
    /// attempts, and the timers of both. The numbers that its attempts have used stay used, and all that is planned of
    /// the other tenants stays. It takes no memory.
    pub fn drop_tenant(&mut self, tenant: &TenantName)
        ensures { (t : List ℕ)
            → plan_of t self.new ≡ (if same t tenant.now then dropped (plan_of t self.old) else plan_of t self.old) }
    {
        self.paces.drop_tenant(tenant);
        self.groups.clear(tenant);
        self.attempts.clear(tenant);
        // A queue, which lies in memory, refuses nothing.
        let _dropped = self.timers.drop_tenant(tenant);
    }

    /// What is kept of a tenant's alert; `None` where none of these labels is planned.
    #[tactic(auto, unfolding(crate::specs::Planned::plan_of))]
    pub fn known(&self, tenant: &TenantName, labels: &LabelSet) -> Option<&Known>
        ensures { option_copied result ≡ lookup (is_set labels.now) (plan_of tenant.now self.now).grouped.alerts }
    {
        self.groups.known(tenant, labels)
    }

    /// The members of a group, which are the alerts that are in it; `None` where it has none.
    #[tactic(auto, unfolding(crate::specs::Planned::plan_of))]
    pub fn members(&self, tenant: &TenantName, group: &Group) -> Option<&Members>
        ensures { listed (option_copied result) ≡ members group.now (plan_of tenant.now self.now).grouped.alerts }
    {
        self.groups.members(tenant, group)
    }

    /// When the flush of a tenant's group to this receiver is due; `None` where the group has no members, or its route another
    /// receiver.
    pub fn flush_due(&self, tenant: &TenantName, receiver: &Text, group: &Group) -> Option<Moment>
        ensures { result ≡ flush_due (plan_of tenant.now self.now).paces (plan_of tenant.now self.now).grouped
            (record { receiver = receiver.now; labels = group.now.labels; route = group.now.route }) }
    {
        let pace = self.paces.of(tenant).get(group.route)?;
        if pace.receiver != *receiver {
            return None;
        }
        due(&self.groups, pace, tenant, group)
    }

    /// The label sets of all of a tenant's alerts in order, each with the moment since which it is held.
    pub fn sinces(
        &self,
        alloc: Global,
        tenant: &TenantName,
    ) -> Result<Vec<(LabelSet, Moment)>, AllocError>
        ensures sinces { IfOk result (λ v. v.items
            ≡ map (λ a. (a.0, a.1.since)) (plan_of tenant.now self.now).grouped.alerts) }
        ensures rising { IfOk result (λ v. IsStrictlySortedBy labels_cmp (keys_of v.items)) }
    {
        match self.groups.alerts(tenant) {
            Some(alerts) => sinces_of(alloc, alerts),
            None => Ok(Vec::new(alloc)),
        }
    }

    /// Whether the outcome of this try of a tenant's attempt is awaited.
    #[tactic(auto, unfolding(crate::specs::Planned::plan_of))]
    pub fn is_awaited(&self, tenant: &TenantName, number: u64, tries: u8) -> bool
        ensures { result ≡ awaits_outcome tries (attempt_at number (plan_of tenant.now self.now).desk.open_ones) }
    {
        self.attempts.is_awaited(tenant, number, tries)
    }

    /// Puts an alert in the place of any of the tenant that has its labels and is in the same groups.
    pub fn put(
        &mut self,
        alloc: Global,
        tenant: &TenantName,
        labels: &LabelSet,
        known: Known,
    ) -> Result<(), AllocError>
        requires { IfSome (lookup (is_set labels.now) (plan_of tenant.now self.old).grouped.alerts)
            (λ held. held.groups ≡ known.groups) }
        ensures plans { OnOk result ((t : List ℕ) → plan_of t self.new
            ≡ (if same t tenant.now then with_alert labels.now known (plan_of t self.old) else plan_of t self.old)) }
        ensures err { OnErr result ((t : List ℕ) → plan_of t self.new ≡ no_plan (plan_of t self.new).paces) }
    {
        let paces = self.paces.of(tenant);
        let put = put_in(
            alloc,
            &mut self.groups,
            &mut self.timers,
            paces,
            tenant,
            labels,
            known,
        );
        if put.is_err() {
            reset(
                alloc,
                &mut self.groups,
                &mut self.attempts,
                &mut self.timers,
            );
        }
        put
    }

    /// Removes a tenant's alert, and the flushes of the groups that lose their last member by it, as a tick does with an
    /// alert that is retired.
    pub fn remove(
        &mut self,
        alloc: Global,
        tenant: &TenantName,
        labels: &LabelSet,
    ) -> Result<(), AllocError>
        ensures plans { OnOk result ((t : List ℕ) → plan_of t self.new
            ≡ (if same t tenant.now then without_alert labels.now (plan_of t self.old) else plan_of t self.old)) }
        ensures err { OnErr result ((t : List ℕ) → plan_of t self.new ≡ no_plan (plan_of t self.new).paces) }
    {
        let paces = self.paces.of(tenant);
        let removed = remove_from(
            alloc,
            &mut self.groups,
            &mut self.timers,
            paces,
            tenant,
            labels,
        );
        if removed.is_err() {
            reset(
                alloc,
                &mut self.groups,
                &mut self.attempts,
                &mut self.timers,
            );
        }
        removed
    }

    /// Puts these alerts, in the order of their labels, in the place of all that the tenant has, whose routes have these
    /// paces from now on. Flushes stay, also those of groups that have no member now.
    pub fn rebuild(
        &mut self,
        alloc: Global,
        tenant: &TenantName,
        paces: Listed<Pace>,
        list: Vec<(LabelSet, Known)>,
    ) -> Result<(), AllocError>
        requires { IsStrictlySortedBy labels_cmp (keys_of list.items) }
        ensures plans { OnOk result ((t : List ℕ) → plan_of t self.new
            ≡ (if same t tenant.now then rebuilt paces list.items (plan_of t self.old) else plan_of t self.old)) }
        ensures err { OnErr result ((t : List ℕ) → plan_of t self.new ≡ no_plan (plan_of t self.new).paces) }
    {
        self.take_out(alloc, tenant)?;
        self.put_back(alloc, tenant, paces, list)?;
        Ok(())
    }

    // Takes out all alerts of a tenant. The flushes stay.
    fn take_out(&mut self, alloc: Global, tenant: &TenantName) -> Result<(), AllocError>
        ensures plans { OnOk result ((t : List ℕ) → plan_of t self.new
            ≡ (if same t tenant.now then with_alerts [] (plan_of t self.old) else plan_of t self.old)) }
        ensures err { OnErr result ((t : List ℕ) → plan_of t self.new ≡ no_plan (plan_of t self.new).paces) }
    {
        let paces = self.paces.of(tenant);
        let taken = take_out_of(alloc, &mut self.groups, &mut self.timers, paces, tenant);
        if taken.is_err() {
            reset(
                alloc,
                &mut self.groups,
                &mut self.attempts,
                &mut self.timers,
            );
        }
        taken
    }

    // Puts alerts of a tenant that has none, whose routes have these paces from now on.
    fn put_back(
        &mut self,
        alloc: Global,
        tenant: &TenantName,
        paces: Listed<Pace>,
        list: Vec<(LabelSet, Known)>,
    ) -> Result<(), AllocError>
        requires none { (plan_of tenant.now self.old).grouped.alerts ≡ [] }
        requires rising { IsStrictlySortedBy labels_cmp (keys_of list.items) }
        ensures plans { OnOk result ((t : List ℕ) → plan_of t self.new
            ≡ (if same t tenant.now then rebuilt paces list.items (plan_of t self.old) else plan_of t self.old)) }
        ensures err { OnErr result ((t : List ℕ) → plan_of t self.new ≡ no_plan (plan_of t self.new).paces) }
    {
        let put = put_all(
            alloc,
            &mut self.paces,
            &mut self.groups,
            &mut self.timers,
            tenant,
            paces,
            list,
        );
        if put.is_err() {
            reset(
                alloc,
                &mut self.groups,
                &mut self.attempts,
                &mut self.timers,
            );
        }
        put
    }

    /// The last flush of a tenant's group, which has members, is that at this moment.
    pub fn flush_at(
        &mut self,
        alloc: Global,
        tenant: &TenantName,
        group: &Group,
        moment: Moment,
    ) -> Result<(), AllocError>
        requires { is_bare (members group.now (plan_of tenant.now self.old).grouped.alerts) ≡ false }
        ensures plans { OnOk result ((t : List ℕ) → plan_of t self.new
            ≡ (if same t tenant.now then with_flush group.now moment (plan_of t self.old) else plan_of t self.old)) }
        ensures err { OnErr result ((t : List ℕ) → plan_of t self.new ≡ no_plan (plan_of t self.new).paces) }
    {
        let paces = self.paces.of(tenant);
        let flushed = flush_in(
            alloc,
            &mut self.groups,
            &mut self.timers,
            paces,
            tenant,
            group,
            moment,
        );
        if flushed.is_err() {
            reset(
                alloc,
                &mut self.groups,
                &mut self.attempts,
                &mut self.timers,
            );
        }
        flushed
    }

    /// Forgets the flushes of all tenants' groups that have no members. It takes no memory.
    pub fn sweep(&mut self)
        ensures plans { (t : List ℕ) → plan_of t self.new ≡ with_living (plan_of t self.old) }
    {
        self.groups.sweep();
    }

    /// What is due at the moment or before it, in order: by moment, tenant, then groups before attempts; groups by receiver,
    /// labels and route, attempts by number. It stays due until its group is flushed, its try goes out or it is dropped.
    ///
    /// # Errors
    /// Out of memory. Nothing changes.
    pub fn due(&mut self, alloc: Global, now: Moment) -> Result<Vec<Timer>, AllocError>
        ensures due { IfOk result (λ due. (t : List ℕ) → timers_of t due.items
            ≡ due_at now (timers_in t (plan_of t self.old))) }
        ensures order { IfOk result (λ due. IsStrictlySortedBy timer_cmp due.items) }
        ensures stays { self.new ≡ self.old }
    {
        let due = self.timers.due(alloc, now)?;
        Ok(due)
    }

    /// Closes the attempt of this key, if the tenant has one open. It takes no memory.
    pub fn drop_attempt(&mut self, tenant: &TenantName, key: &EntryKey)
        ensures plans { (t : List ℕ) → plan_of t self.new
            ≡ (if same t tenant.now then with_desk (without key.now (plan_of t self.old).desk) (plan_of t self.old)
            else plan_of t self.old) }
    {
        drop_attempt(&mut self.attempts, &mut self.timers, tenant, key);
    }

    /// Opens an attempt for a notice, with the tenant's next number, and gives its first try. No attempt of its key may be
    /// open.
    ///
    /// # Errors
    /// `CountsExhausted` where the tenant has used 2^62 numbers, or out of memory.
    pub fn start(
        &mut self,
        alloc: Global,
        tenant: &TenantName,
        notice: Notice,
    ) -> Result<Sending, Fault>
        requires { without_key notice.key (plan_of tenant.now self.old).desk.open_ones
            ≡ (plan_of tenant.now self.old).desk.open_ones }
        ensures sending { IfOk result (λ sending. sending
            ≡ sending_of ((plan_of tenant.now self.old).desk.used + 1) 1 notice) }
        ensures started { OnOk result ((t : List ℕ) → plan_of t self.new
            ≡ (if same t tenant.now then with_desk (added notice (plan_of t self.old).desk) (plan_of t self.old)
            else plan_of t self.old)) }
        ensures fault { IsErrOf result Fault.CountsExhausted ↔ (2 ^ 62 ≤ (plan_of tenant.now self.old).desk.used) }
        ensures no_pattern { IsErrOf result Fault.PatternNotBuilt → ⊥ }
        ensures no_store { IsErrOf result Fault.StoreRefused → ⊥ }
        ensures err { OnErr result ((t : List ℕ) → plan_of t self.new ≡ no_plan (plan_of t self.new).paces) }
    {
        let started = self.attempts.start(alloc, tenant, notice);
        if started.is_err() {
            reset(
                alloc,
                &mut self.groups,
                &mut self.attempts,
                &mut self.timers,
            );
        }
        started
    }

    /// Takes the outcome of a try: the status of the webhook's answer, or `None` where there was no answer.
    ///
    /// # Errors
    /// Out of memory.
    pub fn outcome(
        &mut self,
        alloc: Global,
        tenant: &TenantName,
        number: u64,
        tries: u8,
        moment: Moment,
        status: Option<u16>,
    ) -> Result<Outcome, AllocError>
        ensures outcome { IfOk result (λ outcome. outcome
            ≡ outcome_of number tries moment status (plan_of tenant.now self.old).desk.open_ones) }
        ensures each { OnOk result ((t : List ℕ) → plan_of t self.new
            ≡ (if same t tenant.now then with_desk (after_outcome number tries moment status (plan_of t self.old).desk)
            (plan_of t self.old) else plan_of t self.old)) }
        ensures err { OnErr result ((t : List ℕ) → plan_of t self.new ≡ no_plan (plan_of t self.new).paces) }
    {
        let outcome = take_outcome(
            alloc,
            &mut self.attempts,
            &mut self.timers,
            tenant,
            number,
            tries,
            moment,
            status,
        );
        if outcome.is_err() {
            reset(
                alloc,
                &mut self.groups,
                &mut self.attempts,
                &mut self.timers,
            );
        }
        outcome
    }

    /// The next try of an attempt, where it is due at the moment or before it: then it goes out, with the same bytes, and
    /// its outcome is awaited. `None` where no try of that attempt is due, and nothing changes.
    ///
    /// # Errors
    /// Out of memory. Nothing changes.
    pub fn retry(
        &mut self,
        alloc: Global,
        tenant: &TenantName,
        number: u64,
        now: Moment,
    ) -> Result<Option<Sending>, AllocError>
        ensures sending { IfOk result (λ sending. sending ≡ next_of number now (plan_of tenant.now self.old).desk) }
        ensures each { OnOk result ((t : List ℕ) → plan_of t self.new
            ≡ (if same t tenant.now then with_desk (after_tick number now (plan_of t self.old).desk)
            (plan_of t self.old) else plan_of t self.old)) }
        ensures err { OnErr result ((t : List ℕ) → plan_of t self.new ≡ plan_of t self.old) }
    {
        let sending = try_again(
            alloc,
            &mut self.attempts,
            &mut self.timers,
            tenant,
            number,
            now,
        )?;
        Ok(sending)
    }
}

// Forgets all but the paces.
fn reset(alloc: Global, groups: &mut Groups, attempts: &mut Attempts, timers: &mut TimerQueue)
    ensures groups { (t : List ℕ) → grouped_of t groups.new ≡ nothing }
    ensures attempts { (t : List ℕ) → desk_of t attempts.new ≡ no_attempts }
    ensures timers { timers.new.timers ≡ [] }
{
    *groups = Groups::new(alloc);
    *attempts = Attempts::new(alloc);
    *timers = TimerQueue::new(alloc);
}
