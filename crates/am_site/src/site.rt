//! What an instance has of all tenants.

ghost use Rattle.std.specs.Prelude.{◌≡◌, ℕ, List, Some, IfOk};
ghost use Rattle.am_cluster.specs.Local.{blank};
ghost use Rattle.am_node.specs.Held.{local_of as local_in_node};
ghost use Rattle.am_transfer.specs.Timers.{AreTimed};
ghost use Rattle.am_site.specs.Locals.{local_of};

use am_current::Elsewhere;
use am_item::{Counts, Held};
use am_node::Node;
use am_quorum::Ops;
use am_tenant::TenantName;
use am_transfer::Settling;
use std::alloc::{AllocError, Global};

/// What an instance has of all tenants: what it holds and has planned, the operations that are open, how many messages
/// it sent, and how it settles. A call for one tenant leaves what it has of the others as it was; after a call that
/// failed it is of use only to be cleared.
pub struct Site {
    pub(crate) node: Node,
    pub(crate) operations: Ops,
    pub(crate) sent: Counts,
    pub(crate) settling: Settling,
    // the configurations of lists that answers were merged into
    pub(crate) elsewhere: Elsewhere,
}

// Written out, so that a crate which owns one has no need to prove anew how each of its parts is dropped.
impl Drop for Site {
    fn drop(self) {
        let Site {
            node,
            operations,
            sent,
            settling,
            elsewhere,
        } = self;
        drop(node);
        drop(operations);
        drop(sent);
        drop(settling);
        drop(elsewhere);
    }
}

impl Site {
    /// Nothing of any tenant, in this incarnation of the instance.
    ///
    /// An error is out of memory.
    pub fn new(alloc: Global, incarnation: u32) -> Result<Site, AllocError>
        ensures blank { IfOk result (λ site. (t : List ℕ) → local_of t site ≡ blank) }
        ensures incarnation { IfOk result (λ site. site.operations.incarnation ≡ incarnation) }
        ensures positions { IfOk result (λ site. (t : List ℕ) → (local_in_node t site.node).position ≡ Some 0) }
        ensures timed { IfOk result (λ site. AreTimed site.settling) }
    {
        Ok(Site {
            node: Node::new(alloc)?,
            operations: Ops::new(alloc, incarnation),
            sent: Counts::new(alloc),
            settling: Settling::new(alloc),
            elsewhere: Elsewhere::new(alloc)?,
        })
    }

    /// What is held of a tenant, in the order of keys.
    #[tactic(auto, unfolding(crate::specs::Locals::local_of))]
    pub fn held(&self, tenant: &TenantName) -> &Held
        ensures { result.now ≡ (local_of tenant.now self.now).held }
    {
        self.node.held(tenant)
    }

    /// How often an allowance held a notice back since there is the site, at most 2^64 - 1.
    pub fn held_back(&self) -> u64
        ensures { result ≡ self.now.node.notifier.held_back }
    {
        self.node.held_back()
    }

    /// Forgets all that it has of all tenants, as a crash does; from now on it is in this incarnation. It takes no
    /// memory.
    pub fn clear(&mut self, alloc: Global, incarnation: u32)
        ensures blank { (t : List ℕ) → local_of t self.new ≡ blank }
        ensures incarnation { self.new.operations.incarnation ≡ incarnation }
        ensures positions { (t : List ℕ) → (local_in_node t self.new.node).position ≡ Some 0 }
        ensures timed { AreTimed self.new.settling }
    {
        self.node.clear(alloc);
        self.operations = Ops::new(alloc, incarnation);
        self.sent = Counts::new(alloc);
        self.settling = Settling::new(alloc);
        self.elsewhere.clear();
    }
}
