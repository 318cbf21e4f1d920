//! The timers of deadlines.

ghost use Rattle.std.specs.Prelude.{◌≡◌};
ghost use Rattle.am_timer.specs.Queue.{without};
ghost use Rattle.am_quorum.specs.Deadlines.{deadline_name};

use am_tenant::TenantName;
use am_timer::{TimerKey, TimerName, TimerQueue};

// The name of the timer of an operation's deadline.
pub fn deadline_name(tenant: &TenantName, number: u64) -> TimerName
    ensures { result ≡ deadline_name tenant.now number }
{
    TimerName {
        tenant: *tenant,
        key: TimerKey::Operation(number),
    }
}

// Cancels the deadline of an operation. It takes no memory.
pub fn cancel_deadline(timers: &mut TimerQueue, tenant: &TenantName, number: u64)
    ensures { timers.new.timers ≡ without (deadline_name tenant.now number) timers.old.timers }
{
    timers.cancel(&deadline_name(tenant, number));
}
