//! What an instance goes by for a tenant.

ghost use Rattle.std.specs.Prelude.{◌≡◌, ◌+◌, ◌<◌, length, take};
ghost use Rattle.std.specs.List.{list_all};
ghost use Rattle.am_cluster.specs.Rings.{ring_at};
ghost use Rattle.am_ring.specs.Instances.{is_among};
ghost use Rattle.am_ring.specs.Replicas.{replicas};
ghost use Rattle.am_instance.specs.Here.{IsGiven, circumstances, has_stayed_on, rings_on, three_on};

use crate::given::Occasion;
use crate::instance::Instance;
use am_ring::{Instance as Number, Ring};
use am_site::{Here, is_among};
use am_tenant::TenantName;

impl Instance {
    /// The tenant's three replicas in the ring that the instance knows, in order of position.
    pub(crate) fn three(&self, occasion: &Occasion<'_>, tenant: &TenantName) -> [Number; 3]
        requires { self.now.known < length occasion.now.rings.now }
        ensures { result ≡ three_on (circumstances occasion.now) self.now tenant.now }
    {
        occasion.rings[self.known as usize].replicas(tenant)
    }

    /// What the instance goes by for a tenant on an occasion, who has these three replicas.
    pub(crate) fn here<'a>(
        &self,
        occasion: &'a Occasion<'_>,
        tenant: &'a TenantName,
        three: &'a [Number],
    ) -> Here<'a>
        requires known { self.now.known < length occasion.now.rings.now }
        requires three { three.now ≡ three_on (circumstances occasion.now) self.now tenant.now }
        ensures { IsGiven (circumstances occasion.now) self.now tenant.now result }
    {
        Here {
            tenant,
            instance: self.number,
            incarnation: self.incarnation,
            moment: occasion.moment,
            service_key: occasion.service_key,
            limits: occasion.limits.of(tenant),
            epoch: self.known,
            three,
            has_stayed: self.has_stayed(occasion, tenant, three),
            incarnations: occasion.incarnations,
        }
    }

    // Whether the instance was never joined or restarted, and was one of the three in every ring that it has known, of
    // which the last one has these.
    fn has_stayed(&self, occasion: &Occasion<'_>, tenant: &TenantName, three: &[Number]) -> bool
        requires known { self.now.known < length occasion.now.rings.now }
        requires three { three.now ≡ three_on (circumstances occasion.now) self.now tenant.now }
        ensures { result ≡ has_stayed_on (circumstances occasion.now) self.now tenant.now }
    {
        let number = self.number;
        if self.incarnation != occasion.first {
            return false;
        }
        if !is_among(number, three) {
            return false;
        }
        occasion.rings[..self.known as usize]
            .iter()
            .all(|ring| is_replica(ring, tenant, number))
    }
}

// Whether the instance is one of the tenant's three replicas in a ring.
fn is_replica(ring: &Ring, tenant: &TenantName, instance: Number) -> bool
    ensures { result ≡ is_among instance (replicas tenant.now ring.now.instances) }
{
    is_among(instance, &ring.replicas(tenant))
}
