//! For which tenants an instance is settled, and how much it holds.

ghost use Rattle.std.specs.Prelude.{◌≡◌, ◌<◌, IfOk, count_by, filter, length};
ghost use Rattle.am_instance.specs.Here.{circumstances};
ghost use Rattle.am_instance.specs.Standing.{IsStanding, is_replica_for, is_unsettled_for};

use crate::given::Occasion;
use crate::instance::Instance;
use am_tenant::TenantName;
use std::alloc::{AllocError, Global};

/// Of how many tenants an instance has something, and for which of them it may not answer yet.
#[derive(Drop)]
pub struct Standing {
    /// Of how many tenants it may have something, as one of their replicas.
    pub tenants: usize,
    /// Those of them for whom it isn't settled, in order.
    pub unsettled: Vec<TenantName>,
    /// How many alerts it holds of those of them whose first replica it is, at most 2^64 - 1.
    pub alerts: u64,
    /// How often an allowance held a notice back in it since the program began, at most 2^64 - 1.
    pub held_back: u64,
}

impl Instance {
    /// How the instance stands on an occasion. It looks at each tenant of whom the instance may have something.
    ///
    /// # Errors
    /// Out of memory.
    pub fn standing(&self, alloc: Global, occasion: &Occasion<'_>) -> Result<Standing, AllocError>
        requires { self.now.known < length occasion.now.rings.now }
        ensures { IfOk result (IsStanding (circumstances occasion.now) self.now) }
    {
        let names = self.tenants.list(alloc)?;
        Ok(Standing {
            tenants: self.replicas_among(occasion, &names),
            unsettled: self.unsettled_among(alloc, occasion, &names)?,
            alerts: self.alerts_among(occasion, &names),
            held_back: self.site.held_back(),
        })
    }

    // Of how many of these tenants it is a replica.
    fn replicas_among(&self, occasion: &Occasion<'_>, tenants: &[TenantName]) -> usize
        requires { self.now.known < length occasion.now.rings.now }
        ensures { result ≡ count_by (is_replica_for (circumstances occasion.now) self.now) tenants.now }
    {
        let mut count = 0;
        for tenant in tenants {
            if self.is_replica_for(occasion, tenant) {
                count += 1;
            }
        }
        count
    }

    // For which of these tenants it isn't settled.
    fn unsettled_among(
        &self,
        alloc: Global,
        occasion: &Occasion<'_>,
        tenants: &[TenantName],
    ) -> Result<Vec<TenantName>, AllocError>
        requires { self.now.known < length occasion.now.rings.now }
        ensures { IfOk result (λ unsettled. unsettled.items
            ≡ filter (is_unsettled_for (circumstances occasion.now) self.now) tenants.now) }
    {
        let mut unsettled = Vec::new(alloc);
        for tenant in tenants {
            if self.is_unsettled_for(occasion, tenant) {
                unsettled.push(*tenant)?;
            }
        }
        Ok(unsettled)
    }

    // How many alerts it holds of those of these tenants whose first replica it is.
    fn alerts_among(&self, occasion: &Occasion<'_>, tenants: &[TenantName]) -> u64
        requires { self.now.known < length occasion.now.rings.now }
    {
        let mut alerts = 0u64;
        for tenant in tenants {
            alerts = alerts.saturating_add(self.alerts_shown(occasion, tenant));
        }
        alerts
    }

    // How many alerts of a tenant it holds, where it is the first of its replicas.
    fn alerts_shown(&self, occasion: &Occasion<'_>, tenant: &TenantName) -> u64
        requires { self.now.known < length occasion.now.rings.now }
    {
        let three = self.three(occasion, tenant);
        let replicas = &three[..];
        if replicas[0] == self.number {
            self.site.held(tenant).alerts().len() as u64
        } else {
            0
        }
    }

    // Whether it is a replica of a tenant.
    fn is_replica_for(&self, occasion: &Occasion<'_>, tenant: &TenantName) -> bool
        requires { self.now.known < length occasion.now.rings.now }
        ensures { result ≡ is_replica_for (circumstances occasion.now) self.now tenant.now }
    {
        let three = self.three(occasion, tenant);
        self.here(occasion, tenant, &three).is_replica()
    }

    // .. and isn't settled for it.
    #[tactic(auto, unfolding(crate::specs::Instance::local_in))]
    fn is_unsettled_for(&self, occasion: &Occasion<'_>, tenant: &TenantName) -> bool
        requires { self.now.known < length occasion.now.rings.now }
        ensures { result ≡ is_unsettled_for (circumstances occasion.now) self.now tenant.now }
    {
        let three = self.three(occasion, tenant);
        let here = self.here(occasion, tenant, &three);
        here.is_replica() && !self.site.is_settled(&here)
    }
}
