//! The names of timers.

ghost use Rattle.std.specs.Prelude.{◌≡◌, IfOk};
ghost use Rattle.am_agenda.specs.Planned.{flush_name, retry_name};

use am_members::Group;
use am_planning::Pace;
use am_tenant::TenantName;
use am_timer::{FlushKey, TimerKey, TimerName};
use std::alloc::{AllocError, Global};

/// The name of the timer of a group's flush, where the group's route has this pace.
pub fn flush_name(
    alloc: Global,
    tenant: &TenantName,
    pace: &Pace,
    group: &Group,
) -> Result<TimerName, AllocError>
    ensures { IfOk result (λ name. name ≡ flush_name tenant.now pace.now group.now) }
{
    Ok(TimerName {
        tenant: *tenant,
        key: TimerKey::Group(FlushKey {
            receiver: pace.receiver.copy(alloc)?,
            labels: group.labels.copy()?,
            route: group.route,
        }),
    })
}

/// The name of the timer of an attempt's next try.
pub fn retry_name(tenant: &TenantName, number: u64) -> TimerName
    ensures { result ≡ retry_name tenant.now number }
{
    TimerName {
        tenant: *tenant,
        key: TimerKey::Retry(number),
    }
}
