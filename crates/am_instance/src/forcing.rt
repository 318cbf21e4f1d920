//! Settling by force.

ghost use Rattle.std.specs.Prelude.{◌≡◌, ℕ, List, [], true, IfErr, OnOk};
ghost use Rattle.am_cluster.specs.Transfers.{forced};
ghost use Rattle.am_rows.specs.Rows.{stored_in};
ghost use Rattle.am_instance.specs.Changing.{StopsForcing};
ghost use Rattle.am_instance.specs.Here.{circumstances};
ghost use Rattle.am_instance.specs.Instance.{ReadsOn, local_in, refused_in};
ghost use Rattle.am_instance.specs.Reacting.{Reacts};
ghost use Rattle.am_instance.specs.Whole.{IsWhole};

use crate::given::Occasion;
use crate::instance::Instance;
use am_item::Fault;
use am_tenant::TenantName;
use std::alloc::Global;

impl Instance {
    /// The instance, which is up, becomes settled for a tenant on an occasion, where it is a replica of it; the
    /// tenant's groups then wait by its position. It says nothing.
    ///
    /// # Errors
    /// `PatternNotBuilt` where it becomes settled, there are alerts, and a pattern of the routes that are in use gave
    /// no answer; or out of memory.
    pub fn force(
        &mut self,
        alloc: Global,
        occasion: &Occasion<'_>,
        tenant: &TenantName,
    ) -> Result<(), Fault>
        requires up { self.old.up ≡ true }
        requires whole { IsWhole (circumstances occasion.now) self.old }
        ensures reacts { OnOk result (Reacts (circumstances occasion.now) tenant.now forced self.old self.new [] []) }
        ensures cause { IfErr result
            (StopsForcing (circumstances occasion.now) tenant.now self.old (refused_in self.new)) }
        ensures stays { ReadsOn self.old self.new }
        ensures refused { OnOk result (refused_in self.new ≡ refused_in self.old) }
        ensures whole { OnOk result (IsWhole (circumstances occasion.now) self.new) }
        ensures stored { OnOk result ((t : List ℕ) →
            stored_in (local_in t self.new).held ≡ stored_in (local_in t self.old).held) }
    {
        let three = self.three(occasion, tenant);
        let here = self.here(occasion, tenant, &three);
        self.tenants.note(*tenant)?;
        let cache = &mut self.cache;
        self.site.force(alloc, &here, cache)?;
        Ok(())
    }
}
