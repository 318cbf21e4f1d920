//! The timers of groups' flushes.

ghost use Rattle.std.specs.Prelude.{◌≡◌, OnOk, if◌then◌else◌};
ghost use Rattle.am_members.specs.Grouped.{grouped_of};
ghost use Rattle.am_members.specs.Members.{gave};
ghost use Rattle.am_timer.specs.Tied.{has_timer};
ghost use Rattle.am_timer.specs.Timer.{Timer as Timed};
ghost use Rattle.am_agenda.specs.Plan.{all_groups, group_due};
ghost use Rattle.am_agenda.specs.Planned.{flush_due_of, is_for, is_for_one};

use crate::naming::flush_name;
use am_labels::LabelSet;
use am_members::{Group, Groups, Known};
use am_planning::Pace;
use am_tenant::TenantName;
use am_text::Moment;
use am_timer::{Timer, TimerQueue};
use std::alloc::{AllocError, Global};
use std::collections::BTreeMap;

/// Sets the timers of the flushes of all groups of these alerts anew.
pub fn refresh_alerts(
    alloc: Global,
    timers: &mut TimerQueue,
    groups: &Groups,
    paces: &[Pace],
    tenant: &TenantName,
    alerts: &BTreeMap<LabelSet, Known>,
) -> Result<(), AllocError>
    ensures { OnOk result ((x : Timed) → has_timer timers.new.timers x
        ≡ (if is_for_one tenant.now paces.now (all_groups alerts.now.entries) x
        then gave (flush_due_of paces.now (grouped_of tenant.now groups.now) x.name.key) x.due
        else has_timer timers.old.timers x)) }
{
    for known in alerts.values() {
        refresh_all(
            alloc,
            timers,
            groups,
            paces,
            tenant,
            known.groups.as_slice(),
        )?;
    }
    Ok(())
}

/// Sets the timers of the flushes of these groups anew, and cancels those of groups without members.
pub fn refresh_all(
    alloc: Global,
    timers: &mut TimerQueue,
    groups: &Groups,
    paces: &[Pace],
    tenant: &TenantName,
    changed: &[Group],
) -> Result<(), AllocError>
    ensures { OnOk result ((x : Timed) → has_timer timers.new.timers x
        ≡ (if is_for_one tenant.now paces.now changed.now x
        then gave (flush_due_of paces.now (grouped_of tenant.now groups.now) x.name.key) x.due
        else has_timer timers.old.timers x)) }
{
    for group in changed {
        refresh(alloc, timers, groups, paces, tenant, group)?;
    }
    Ok(())
}

/// Sets the timer of a group's flush anew, or cancels it where the group has no members.
pub fn refresh(
    alloc: Global,
    timers: &mut TimerQueue,
    groups: &Groups,
    paces: &[Pace],
    tenant: &TenantName,
    group: &Group,
) -> Result<(), AllocError>
    ensures { OnOk result ((x : Timed) → has_timer timers.new.timers x ≡ (if is_for tenant.now paces.now group.now x
        then gave (flush_due_of paces.now (grouped_of tenant.now groups.now) x.name.key) x.due
        else has_timer timers.old.timers x)) }
{
    let Some(pace) = paces.get(group.route) else {
        return Ok(());
    };
    let name = flush_name(alloc, tenant, pace, group)?;
    match due(groups, pace, tenant, group) {
        Some(due) => timers.set(alloc, Timer { due, name }),
        None => {
            timers.cancel(&name);
            Ok(())
        }
    }
}

// When a group of this pace is due.
pub(crate) fn due(
    groups: &Groups,
    pace: &Pace,
    tenant: &TenantName,
    group: &Group,
) -> Option<Moment>
    ensures { result ≡ group_due pace.now group.now (grouped_of tenant.now groups.now) }
{
    let since = groups.least_since(tenant, group)?;
    match groups.last_flush(tenant, group) {
        Some(last) => Some(last.plus(pace.group_interval)),
        None => Some(since.plus(pace.group_wait)),
    }
}
