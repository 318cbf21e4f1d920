ghost use Rattle.std.specs.Prelude.{◌≡◌, IfOk};

use crate::key::TimerKey;
use am_tenant::TenantName;
use am_text::Moment;
use std::alloc::{AllocError, Global};

/// What names a timer: whose it is, and what it is for. Names are ordered by tenant, then key.
#[derive(PartialEq, Eq, PartialOrd, Ord, Drop)]
pub struct TimerName {
    /// Whose it is.
    pub tenant: TenantName,
    /// What it is for.
    pub key: TimerKey,
}

impl TimerName {
    /// A copy of the name.
    pub fn copy(&self, alloc: Global) -> Result<TimerName, AllocError>
        ensures { IfOk result (λ name. name ≡ self.now) }
    {
        Ok(TimerName {
            tenant: self.tenant,
            key: self.key.copy(alloc)?,
        })
    }
}

/// A moment at which something is to be done. Timers are ordered by that moment, then by name.
#[derive(PartialEq, Eq, PartialOrd, Ord, Drop)]
pub struct Timer {
    /// When it is due.
    pub due: Moment,
    /// Whose it is, and what it is for.
    pub name: TimerName,
}

impl Timer {
    /// A copy of the timer.
    pub fn copy(&self, alloc: Global) -> Result<Timer, AllocError>
        ensures { IfOk result (λ timer. timer ≡ self.now) }
    {
        Ok(Timer {
            due: self.due,
            name: self.name.copy(alloc)?,
        })
    }
}
