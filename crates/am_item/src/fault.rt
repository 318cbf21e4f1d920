ghost use Rattle.std.specs.Prelude.{◌≡◌};
ghost use Rattle.am_item.specs.declared.fault.Fault.TheVariants.{OutOfMemory};

use std::alloc::{AllocError, AllocFailed};
use thiserror::Error;

/// What stops an instance.
#[derive(Clone, Copy, Debug, PartialEq, Eq, Error)]
pub enum Fault {
    /// Memory ran out.
    #[error("out of memory")]
    OutOfMemory,
    /// A count of a tenant would pass [`crate::GREATEST_COUNT`].
    #[error("no count is left")]
    CountsExhausted,
    /// A pattern that a tenant's stored configuration uses was refused its build.
    #[error("a stored pattern was not built")]
    PatternNotBuilt,
    /// The instance's store refused a call.
    #[error("the store refused a call")]
    StoreRefused,
}

impl From<AllocError> for Fault {
    ghost from_gives = { λ _ fault. fault ≡ OutOfMemory };

    fn from(_error: AllocError) -> Fault {
        Fault::OutOfMemory
    }
}

impl<T: Drop> From<AllocFailed<T>> for Fault {
    ghost from_gives = { λ _ fault. fault ≡ OutOfMemory };

    fn from(_error: AllocFailed<T>) -> Fault {
        Fault::OutOfMemory
    }
}
