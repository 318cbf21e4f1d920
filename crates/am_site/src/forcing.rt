//! Settling by force.

ghost use Rattle.std.specs.Prelude.{◌≤◌, IfErr, OnOk, length};
ghost use Rattle.am_cluster.specs.Transfers.{forced};
ghost use Rattle.am_pattern.specs.Asking.{Asked};
ghost use Rattle.am_site.specs.Here.{here_of};
ghost use Rattle.am_site.specs.InOrder.{IsInOrder};
ghost use Rattle.am_site.specs.Learning.{StopsForcing};
ghost use Rattle.am_site.specs.Reacting.{MovesInSilence};

use crate::here::Here;
use crate::site::Site;
use am_item::Fault;
use am_pattern::PatternCache;
use std::alloc::Global;

impl Site {
    /// A replica of the tenant that isn't settled becomes so; the tenant's groups then wait by its position. It says
    /// nothing.
    ///
    /// # Errors
    /// `PatternNotBuilt` where it becomes settled, there are alerts, and a pattern of the routes that are in use gives
    /// no answer; or out of memory.
    pub fn force(
        &mut self,
        alloc: Global,
        here: &Here,
        cache: &mut PatternCache,
    ) -> Result<(), Fault>
        requires { length here.now.three.now ≤ 3 }
        ensures moves { OnOk result (MovesInSilence here.now.tenant.now (forced (here_of here.now)) self.old self.new) }
        ensures order { IsInOrder (here_of here.now) self.old → OnOk result (IsInOrder (here_of here.now) self.new) }
        ensures asked { Asked result cache.old cache.new }
        ensures fault { IfErr result (StopsForcing cache.new.refused here.now self.old) }
    {
        if !here.is_replica() {
            return Ok(());
        }
        if self.is_settled(here) {
            return Ok(());
        }
        self.settling.forced(alloc, here.tenant)?;
        self.take_position(alloc, here, cache)?;
        Ok(())
    }
}
