//! The position of the instance among a tenant's replicas.

ghost use Rattle.std.specs.Prelude.{◌≡◌, ◌==◌, ◌<◌, ◌≤◌, ℕ, List, IfErr, IfSome, OnOk, false, length, option_map};
ghost use Rattle.std.specs.Prelude.{position};
ghost use Rattle.am_cluster.specs.Plans.{position_of};
ghost use Rattle.am_node.specs.Held.{local_of as local_in_node};
ghost use Rattle.am_notifier.specs.Positions.{number_of};
ghost use Rattle.am_pattern.specs.Asking.{Asked};
ghost use Rattle.am_tenant.specs.Names.{same};
ghost use Rattle.am_site.specs.Here.{here_of};
ghost use Rattle.am_site.specs.InOrder.{IsAtPosition, StopsMoving};
ghost use Rattle.am_site.specs.Locals.{local_of};

use crate::here::Here;
use crate::site::Site;
use am_item::Fault;
use am_notifier::Position;
use am_pattern::PatternCache;
use am_ring::Instance;
use std::alloc::Global;

impl Site {
    /// Has the groups of a tenant wait by the position of the instance among the three, where it is settled; else none
    /// of them is flushed here. Where they do so already, it costs next to nothing.
    ///
    /// # Errors
    /// `PatternNotBuilt` where they don't, and there are alerts, and a pattern of the routes that are in use gives no
    /// answer; or out of memory.
    pub fn take_position(
        &mut self,
        alloc: Global,
        here: &Here,
        cache: &mut PatternCache,
    ) -> Result<(), Fault>
        requires { length here.now.three.now ≤ 3 }
        ensures stays { OnOk result ((t : List ℕ) → local_of t self.new ≡ local_of t self.old) }
        ensures position { OnOk result (IsAtPosition (here_of here.now) self.new) }
        ensures others { OnOk result ((t : List ℕ) → same t here.now.tenant.now ≡ false →
            (local_in_node t self.new.node).position ≡ (local_in_node t self.old.node).position) }
        ensures operations { self.new.operations ≡ self.old.operations }
        ensures settling { self.new.settling ≡ self.old.settling }
        ensures asked { Asked result cache.old cache.new }
        ensures fault { IfErr result (StopsMoving cache.new.refused here.now self.old) }
    {
        let position = self.position(here);
        if self.node.is_at(here.tenant, position) {
            return Ok(());
        }
        self.node.set_position(alloc, here.tenant, position, cache)
    }

    // The position by which the tenant's groups are to wait.
    fn position(&self, here: &Here) -> Option<Position>
        requires { length here.now.three.now ≤ 3 }
        ensures { option_map number_of result ≡ position_of (here_of here.now) (local_of here.now.tenant.now self.now) }
    {
        if !self.is_settled(here) {
            return None;
        }
        match place_of(here.three, here.instance) {
            Some(place) => Some(Position::new(place)),
            None => None,
        }
    }
}

// Where the first of these is the instance.
fn place_of(instances: &[Instance], instance: Instance) -> Option<usize>
    ensures place { result ≡ position (λ other. other == instance) instances.now }
    ensures bound { IfSome result (λ place. place < length instances.now) }
{
    instances.iter().position(|other| *other == instance)
}
