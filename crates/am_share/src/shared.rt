//! The trait of a part that all tenants share.

ghost use Rattle.std.specs.Prelude.{◌≡◌, ℕ, List, IfErr, OnErr, OnOk};
ghost use Rattle.am_share.specs.Pairs.{Drops};

use crate::refusal::ShareRefusal;
use am_tenant::TenantName;
use am_text::Failure;

/// A part of an instance that holds things of all tenants. Each of its calls for one tenant says that the lists of the
/// other tenants stay.
pub trait Shared {
    // What it holds of a tenant: things as they are told apart, wherever they lie in memory.
    ghost Thing: { Type 0 };

    // What it holds, with whose it is.
    ghost pairs: { Self → List (List ℕ × Thing) };

    // What it shows may be relied on: always, where it lies in memory; of what lies on a disk, as long as the disk
    // has returned what was written and the part was not shut.
    ghost stands: { Self → Type 0 };

    // That a call may be refused: never, where it lies in memory.
    ghost refuses: { Type 0 };

    /// Drops all that the part holds of a tenant.
    ///
    /// # Errors
    /// `Database`, or out of memory, of what lies on a disk. Nothing is dropped.
    fn drop_tenant(&mut self, tenant: &TenantName) -> Result<(), Failure<ShareRefusal>>
        ensures dropped { stands self.old → stands self.new → OnOk result (Drops tenant.now (pairs self.old) (pairs self.new)) }
        ensures err { stands self.old → stands self.new → OnErr result (pairs self.new ≡ pairs self.old) }
        ensures refusal { IfErr result (λ _. refuses) };
}
