//! The timers by which States and Asks are sent again.

ghost use Rattle.std.specs.Prelude.{◌≡◌, ◌∷◌, [], false, OnOk, if◌then◌else◌};
ghost use Rattle.am_transfer.specs.Timers.{AreCancelled, AreRefreshed, name_of};

use crate::tenants::Tenants;
use am_ring::Instance;
use am_tenant::TenantName;
use am_timer::{Timer, TimerKey, TimerName, TimerQueue};
use std::alloc::{AllocError, Global};

/// Sets the timers of what is sent again to these instances for a tenant anew, and cancels those of what isn't.
pub fn refresh_all(
    alloc: Global,
    timers: &mut TimerQueue,
    tenants: &Tenants,
    tenant: &TenantName,
    instances: &[Instance],
) -> Result<(), AllocError>
    ensures { OnOk result (AreRefreshed tenant.now instances.now tenants.now timers.old.timers timers.new.timers) }
{
    for instance in instances {
        refresh(alloc, timers, tenants, tenant, *instance)?;
    }
    Ok(())
}

/// Sets the timer of what is sent again to an instance for a tenant anew, or cancels it where nothing is.
pub fn refresh(
    alloc: Global,
    timers: &mut TimerQueue,
    tenants: &Tenants,
    tenant: &TenantName,
    instance: Instance,
) -> Result<(), AllocError>
    ensures { OnOk result (AreRefreshed tenant.now (instance ∷ []) tenants.now timers.old.timers timers.new.timers) }
{
    let name = name_of(tenant, instance);
    match tenants.due_of(tenant, instance) {
        Some(due) => timers.set(alloc, Timer { due, name }),
        None => {
            timers.cancel(&name);
            Ok(())
        }
    }
}

/// Cancels the timers of what is sent again to these instances for a tenant. It takes no memory.
pub fn cancel_all(timers: &mut TimerQueue, tenant: &TenantName, instances: &[Instance])
    ensures { AreCancelled tenant.now instances.now timers.old.timers timers.new.timers }
{
    for instance in instances {
        cancel(timers, tenant, *instance);
    }
}

/// Cancels the timer of what is sent again to an instance for a tenant. It takes no memory.
pub fn cancel(timers: &mut TimerQueue, tenant: &TenantName, instance: Instance)
    ensures { AreCancelled tenant.now (instance ∷ []) timers.old.timers timers.new.timers }
{
    timers.cancel(&name_of(tenant, instance));
}

// What names the timer of what is sent again to an instance for a tenant.
fn name_of(tenant: &TenantName, instance: Instance) -> TimerName
    ensures { result ≡ name_of tenant.now instance }
{
    TimerName {
        tenant: *tenant,
        key: TimerKey::Push(instance),
    }
}
