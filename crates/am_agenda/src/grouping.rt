//! The groups of alerts, with the timers of their flushes.

ghost use Rattle.std.specs.Prelude.{◌≡◌, ℕ, false, List, [], map, IfOk, OnOk, if◌then◌else◌};
ghost use Rattle.std.specs.List.Sorted.{IsStrictlySortedBy};
ghost use Rattle.std.specs.Map.{keys_of, lookup};
ghost use Rattle.am_labels.specs.Labels.{labels_cmp};
ghost use Rattle.am_tenant.specs.Names.{same};
ghost use Rattle.am_members.specs.Grouped.{flushed_at, grouped_of, kept_after, members, put_in};
ghost use Rattle.am_members.specs.Members.{gave, is_bare};
ghost use Rattle.am_members.specs.Names.{is_set, without as absent};
ghost use Rattle.am_timer.specs.Tied.{has_timer};
ghost use Rattle.am_timer.specs.Timer.{Timer as Timed};
ghost use Rattle.am_agenda.specs.Paces.{paces_of};
ghost use Rattle.am_agenda.specs.Plan.{all_groups};
ghost use Rattle.am_agenda.specs.Planned.{flush_due_of, groups_known, is_for, is_for_one};

use crate::paces::Paces;
use crate::refresh::{refresh, refresh_alerts, refresh_all};
use am_labels::LabelSet;
use am_members::{Group, Groups, Known, copy_groups};
use am_planning::Pace;
use am_tenant::TenantName;
use am_text::{Listed, Moment};
use am_timer::TimerQueue;
use std::alloc::{AllocError, Global};
use std::collections::BTreeMap;

/// Puts an alert, and sets the timers of its groups anew.
pub fn put_in(
    alloc: Global,
    groups: &mut Groups,
    timers: &mut TimerQueue,
    paces: &[Pace],
    tenant: &TenantName,
    labels: &LabelSet,
    known: Known,
) -> Result<(), AllocError>
    ensures alerts { OnOk result ((t : List ℕ) → (grouped_of t groups.new).alerts
        ≡ (if same t tenant.now then put_in labels.now known (grouped_of t groups.old).alerts
        else (grouped_of t groups.old).alerts)) }
    ensures flushes { OnOk result ((t : List ℕ) → (grouped_of t groups.new).flushes
        ≡ (grouped_of t groups.old).flushes) }
    ensures timers { OnOk result ((x : Timed) → has_timer timers.new.timers x
        ≡ (if is_for_one tenant.now paces.now known.groups x
        then gave (flush_due_of paces.now (grouped_of tenant.now groups.new) x.name.key) x.due
        else has_timer timers.old.timers x)) }
{
    let changed = copy_groups(alloc, known.groups.as_slice())?;
    groups.put(alloc, tenant, labels, known)?;
    refresh_all(alloc, timers, groups, paces, tenant, changed.as_slice())
}

/// Removes an alert, and sets the timers of its groups anew.
pub fn remove_from(
    alloc: Global,
    groups: &mut Groups,
    timers: &mut TimerQueue,
    paces: &[Pace],
    tenant: &TenantName,
    labels: &LabelSet,
) -> Result<(), AllocError>
    ensures alerts { (t : List ℕ) → (grouped_of t groups.new).alerts
        ≡ (if same t tenant.now then absent labels.now (grouped_of t groups.old).alerts
        else (grouped_of t groups.old).alerts) }
    ensures flushes { (t : List ℕ) → (grouped_of t groups.new).flushes
        ≡ (if same t tenant.now then kept_after labels.now (grouped_of t groups.old)
        else (grouped_of t groups.old).flushes) }
    ensures timers { OnOk result ((x : Timed) → has_timer timers.new.timers x ≡
        (if is_for_one tenant.now paces.now (groups_known (lookup (is_set labels.now) (grouped_of tenant.now groups.old).alerts)) x
        then gave (flush_due_of paces.now (grouped_of tenant.now groups.new) x.name.key) x.due
        else has_timer timers.old.timers x)) }
{
    match groups.remove(tenant, labels) {
        Some(known) => refresh_all(
            alloc,
            timers,
            groups,
            paces,
            tenant,
            known.groups.as_slice(),
        ),
        None => Ok(()),
    }
}

/// Notes the flush of a group, and sets its timer anew.
pub fn flush_in(
    alloc: Global,
    groups: &mut Groups,
    timers: &mut TimerQueue,
    paces: &[Pace],
    tenant: &TenantName,
    group: &Group,
    moment: Moment,
) -> Result<(), AllocError>
    requires { is_bare (members group.now (grouped_of tenant.now groups.old).alerts) ≡ false }
    ensures alerts { OnOk result ((t : List ℕ) → (grouped_of t groups.new).alerts ≡ (grouped_of t groups.old).alerts) }
    ensures flushes { OnOk result ((t : List ℕ) → (grouped_of t groups.new).flushes
        ≡ (if same t tenant.now then flushed_at group.now moment (grouped_of t groups.old)
        else (grouped_of t groups.old).flushes)) }
    ensures timers { OnOk result ((x : Timed) → has_timer timers.new.timers x
        ≡ (if is_for tenant.now paces.now group.now x
        then gave (flush_due_of paces.now (grouped_of tenant.now groups.new) x.name.key) x.due
        else has_timer timers.old.timers x)) }
{
    groups.flush_at(tenant, group, moment)?;
    refresh(alloc, timers, groups, paces, tenant, group)
}

/// Takes out all alerts of a tenant, and cancels the timers of their groups.
pub fn take_out_of(
    alloc: Global,
    groups: &mut Groups,
    timers: &mut TimerQueue,
    paces: &[Pace],
    tenant: &TenantName,
) -> Result<(), AllocError>
    ensures alerts { OnOk result ((t : List ℕ) → (grouped_of t groups.new).alerts
        ≡ (if same t tenant.now then [] else (grouped_of t groups.old).alerts)) }
    ensures flushes { (t : List ℕ) → (grouped_of t groups.new).flushes ≡ (grouped_of t groups.old).flushes }
    ensures timers { OnOk result ((x : Timed) → has_timer timers.new.timers x
        ≡ (if is_for_one tenant.now paces.now (all_groups (grouped_of tenant.now groups.old).alerts) x
        then gave (flush_due_of paces.now (grouped_of tenant.now groups.new) x.name.key) x.due
        else has_timer timers.old.timers x)) }
{
    let before = groups.rebuild(alloc, tenant, Vec::new(alloc))?;
    refresh_alerts(alloc, timers, groups, paces, tenant, &before)
}

/// Puts all these alerts of a tenant, and sets the timers of their groups.
pub fn put_all(
    alloc: Global,
    book: &mut Paces,
    groups: &mut Groups,
    timers: &mut TimerQueue,
    tenant: &TenantName,
    paces: Listed<Pace>,
    list: Vec<(LabelSet, Known)>,
) -> Result<(), AllocError>
    requires { IsStrictlySortedBy labels_cmp (keys_of list.items) }
    ensures paces { OnOk result ((t : List ℕ) → paces_of t book.new
        ≡ (if same t tenant.now then paces else paces_of t book.old)) }
    ensures alerts { OnOk result ((t : List ℕ) → (grouped_of t groups.new).alerts
        ≡ (if same t tenant.now then list.items else (grouped_of t groups.old).alerts)) }
    ensures flushes { (t : List ℕ) → (grouped_of t groups.new).flushes ≡ (grouped_of t groups.old).flushes }
    ensures timers { OnOk result ((x : Timed) → has_timer timers.new.timers x
        ≡ (if is_for_one tenant.now paces (all_groups list.items) x
        then gave (flush_due_of paces (grouped_of tenant.now groups.new) x.name.key) x.due
        else has_timer timers.old.timers x)) }
{
    book.set(tenant, paces)?;
    groups.rebuild(alloc, tenant, list)?;
    match groups.alerts(tenant) {
        Some(alerts) => refresh_alerts(alloc, timers, groups, book.of(tenant), tenant, alerts),
        None => Ok(()),
    }
}

/// The label sets of these alerts, each with the moment since which it is held.
///
/// # Errors
/// Out of memory.
pub fn sinces_of(
    alloc: Global,
    alerts: &BTreeMap<LabelSet, Known>,
) -> Result<Vec<(LabelSet, Moment)>, AllocError>
    ensures { IfOk result (λ v. v.items ≡ map (λ a. (a.0, a.1.since)) alerts.now.entries) }
{
    let mut all = Vec::new(alloc);
    for (labels, known) in alerts.iter() {
        all.push((labels.copy()?, known.since))?;
    }
    Ok(all)
}
