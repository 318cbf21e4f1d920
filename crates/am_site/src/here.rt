//! What an instance goes by.

ghost use Rattle.std.specs.Prelude.{◌≡◌, IfOk};
ghost use Rattle.am_cluster.specs.Here.{is_replica_here, others, present_at, replica_here};
ghost use Rattle.am_site.specs.Here.{here_of};

use am_context::Context;
use am_limit::Limits;
use am_ring::Instance;
use am_tenant::TenantName;
use am_text::Moment;
use std::alloc::{AllocError, Global};

/// What an instance goes by where something happens to a tenant, beside what it has of the tenant.
#[derive(Drop)]
pub struct Here<'a> {
    /// Whose it is.
    pub tenant: &'a TenantName,
    /// The instance.
    pub instance: Instance,
    /// Which start of it this is, from 1 on.
    pub incarnation: u32,
    /// The moment at which it happens.
    pub moment: Moment,
    /// The key of the service, of which the words of all tenants are made.
    pub service_key: &'a [u8; 32],
    /// The tenant's limits.
    pub limits: Limits,
    /// The epoch of the ring that the instance knows.
    pub epoch: u64,
    /// The tenant's three replicas in that ring, in order of position.
    pub three: &'a [Instance],
    /// Whether the instance was never joined or restarted, and was one of the three in every ring that it has known.
    pub has_stayed: bool,
    /// The present incarnations of the instances 1 to 8, in their order.
    pub incarnations: &'a [u32],
}

impl<'a> Here<'a> {
    // What a node goes by.
    pub(crate) fn context(&self) -> Context
        ensures { result ≡ replica_here (here_of self.now) }
    {
        Context {
            instance: self.instance.number(),
            incarnation: self.incarnation,
            moment: self.moment,
            limits: self.limits,
        }
    }
    // The present incarnation of an instance.
    pub(crate) fn present(&self, instance: Instance) -> u32
        ensures { result ≡ present_at (here_of self.now) instance }
    {
        let index = usize::from(instance.number()) - 1;
        self.incarnations.get(index).copied().unwrap_or(0)
    }

    // Whether the instance is one of the tenant's three replicas.
    pub fn is_replica(&self) -> bool
        ensures { result ≡ is_replica_here (here_of self.now) }
    {
        self.three.iter().any(|replica| self.instance == *replica)
    }

    // The other two replicas, in order of position.
    pub(crate) fn others(&self, alloc: Global) -> Result<Vec<Instance>, AllocError>
        ensures { IfOk result (λ found. found.items ≡ others (here_of self.now)) }
    {
        let mut others = Vec::new(alloc);
        for instance in self.three {
            if *instance != self.instance {
                others.push(*instance)?;
            }
        }
        Ok(others)
    }
}
