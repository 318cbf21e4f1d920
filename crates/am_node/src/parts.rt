//! The rooms of an instance that have things of all tenants.

ghost use Rattle.std.specs.Prelude.{◌≡◌, ℕ, List, IfOk};
ghost use Rattle.am_node.specs.Held.{Makes, local_of};
ghost use Rattle.am_node.specs.Local.{blank, dropped};

use am_notifier::Notifier;
use am_replica::Replica;
use am_tenant::TenantName;
use am_words::Places;
use std::alloc::{AllocError, Global};

/// The rooms, and the places of the tenants' words. A call for one tenant leaves what they have of the others as it
/// was; after
/// an error they are of use only to be cleared.
#[derive(Drop)]
pub struct Parts {
    pub(crate) replica: Replica,
    pub(crate) notifier: Notifier,
    pub(crate) places: Places,
}

impl Parts {
    /// Nothing of any tenant.
    #[tactic(auto, unfolding(crate::specs::Held::local_of, am_words::specs::Places::place_of))]
    pub fn new(alloc: Global) -> Result<Parts, AllocError>
        ensures { IfOk result (λ parts. (t : List ℕ) → local_of t parts ≡ blank) }
    {
        Ok(Parts {
            replica: Replica::new(alloc)?,
            notifier: Notifier::new(alloc)?,
            places: Places::new(alloc),
        })
    }

    /// Forgets all that it has of all tenants, as a crash does. It takes no memory.
    #[tactic(auto, unfolding(crate::specs::Held::local_of, am_words::specs::Places::place_of))]
    pub fn clear(&mut self, alloc: Global)
        ensures { (t : List ℕ) → local_of t self.new ≡ blank }
    {
        self.replica.clear(alloc);
        self.notifier.clear(alloc);
        self.places = Places::new(alloc);
    }

    /// Forgets all that it has of a tenant but what was counted: the stamps, the numbers of attempts, and the place of
    /// the next word. It takes no memory.
    pub(crate) fn drop_tenant(&mut self, tenant: &TenantName)
        ensures { Makes tenant.now dropped self.old self.new }
    {
        self.replica.drop_tenant(tenant);
        self.notifier.drop_tenant(tenant);
    }
}
