//! What a world is opened with.
#![tactic(auto)]

ghost use Rattle.std.specs.Prelude.{◌≡◌, ◌↔◌, ◌<◌, IsTrue, IsSome, IfSome};
ghost use Rattle.am_ring.specs.Instances.{in_order, may_be_ring};
ghost use Rattle.am_limit.specs.Limits.{default_limits};
ghost use Rattle.am_setup.specs.Setup.{is_setup};

use am_limit::Limits;
use am_ring::Ring;
use std::marker::Model;

/// The settings of a world.
#[derive(Drop)]
pub struct Setup {
    key: [u8; 32],
    ring: Ring,
    cache: u32,
    start: u32,
    limits: Limits,
}

impl Model for Setup {
    ghost use Rattle.std.specs.Prelude.{◌≡◌, ◌<◌, IsTrue, length};
    ghost use Rattle.am_ring.specs.Instances.{in_order, may_be_ring};
    ghost use Rattle.am_setup.specs.Setup.{Settings};

    ghost Value = { Settings };

    ghost view = { λ s. record {
      origin = record { service_key = s.key; ring = s.ring.instances; first = s.start; limits = s.limits };
      cache = s.cache;
    } };

    ghost invariant = { λ s. (0 < s.cache) × (length s.key ≡ 32) × IsTrue (may_be_ring s.ring.instances)
        × (in_order s.ring.instances ≡ s.ring.instances) };
}

impl Setup {
    /// Settings out of the service key, the ring's instances (3 to 8 different numbers of 1 to 8, in any order), the
    /// capacity of an instance's cache of patterns (1 to 65,536) and the first incarnation (not 0). None where
    /// one of them is out of its range. A tenant has the default limits until others are set for it.
    pub fn new(key: [u8; 32], ring: &[u8], cache: u32, start: u32) -> Option<Setup>
        ensures valid { IsSome result ↔ IsTrue (is_setup ring.now cache start) }
        ensures settings { IfSome result (λ setup. setup ≡ record {
          origin = record { service_key = key; ring = in_order ring.now; first = start; limits = default_limits };
          cache = cache;
        }) }
    {
        let ring = Ring::new(ring)?;
        if cache == 0 || cache > 65_536 || start == 0 {
            return None;
        }
        Some(Setup {
            key,
            ring,
            cache,
            start,
            limits: Limits::default(),
        })
    }

    /// These settings with another first incarnation, which isn't 0.
    pub fn with_start(self, start: u32) -> Setup
        requires { 0 < start }
        ensures { result ≡ record self { origin = record self.origin { first = start } } }
    {
        let Setup {
            key,
            ring,
            cache,
            limits,
            ..
        } = self;
        Setup {
            key,
            ring,
            cache,
            start,
            limits,
        }
    }

    /// These settings with other limits of a tenant until others are set for it.
    pub fn with_limits(self, limits: Limits) -> Setup
        ensures { result ≡ record self { origin = record self.origin { limits = limits } } }
    {
        let Setup {
            key,
            ring,
            cache,
            start,
            ..
        } = self;
        Setup {
            key,
            ring,
            cache,
            start,
            limits,
        }
    }

    /// The limits of a tenant until others are set for it.
    pub fn limits(&self) -> Limits
        ensures { result ≡ self.now.origin.limits }
    {
        self.limits
    }

    /// The first incarnation of every instance.
    pub fn start(&self) -> u32
        ensures { result ≡ self.now.origin.first }
    {
        self.start
    }

    /// The ring's instances, in order of number, at epoch 0.
    pub fn ring(&self) -> Ring
        ensures instances { result.instances ≡ self.now.origin.ring }
        ensures ring { IsTrue (may_be_ring self.now.origin.ring) }
        ensures order { in_order self.now.origin.ring ≡ self.now.origin.ring }
    {
        self.ring
    }

    /// The service key, of which the words of all tenants are made.
    pub fn service_key(&self) -> [u8; 32]
        ensures { result ≡ self.now.origin.service_key }
    {
        self.key
    }

    /// How many patterns an instance keeps built at most.
    pub fn capacity(&self) -> usize
        ensures { 0 < result }
    {
        self.cache as usize
    }

    /// The secret of the hashes by which an instance keeps patterns: the first half of the service key.
    pub fn hash_key(&self) -> [u8; 16] {
        let mut hash_key = [0; 16];
        hash_key.copy_from_slice(&self.key[..16]);
        hash_key
    }
}
