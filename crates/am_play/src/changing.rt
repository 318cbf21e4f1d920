//! How instances learn the rings that they lack.
ghost use Rattle.std.specs.Prelude.{◌≡◌, OnOk};
ghost use Rattle.std.specs.List.{list_any};
ghost use Rattle.am_ring.specs.Instances.{all_instances};
ghost use Rattle.am_play.specs.Playing.{LearnsAll, LearnsEach, LearnsIfBehind, is_behind};
ghost use Rattle.am_play.specs.Trace.{Reports};

use crate::play::Player;
use am_event::Event;
use am_report::Report;
use am_world::AnyWorld;
use std::alloc::{AllocError, Global};

/// The numbers of all instances.
const NUMBERS: [u8; 8] = [1, 2, 3, 4, 5, 6, 7, 8];

impl<W: AnyWorld> Player<W> {
    /// Each instance that is behind learns the next ring, in order of number, and again, until none is behind.
    pub(crate) fn learn_all(&mut self, alloc: Global, report: &mut Report) -> Result<(), AllocError>
        ensures { OnOk result (Reports report.old report.new (LearnsAll W.contents self.old self.new)) }
    {
        // No instance can lack more rings.
        for _ in 0..u64::MAX {
            if !self.is_any_behind() {
                break;
            }
            self.learn_each(alloc, &NUMBERS, report)?;
        }
        Ok(())
    }

    /// Whether an instance is behind.
    fn is_any_behind(&self) -> bool
        ensures { result ≡ list_any (is_behind W.contents self.now) all_instances }
    {
        NUMBERS.iter().any(|number| self.world.is_behind(*number))
    }

    /// Each of these instances that is behind learns the next ring, one after the other.
    fn learn_each(
        &mut self,
        alloc: Global,
        numbers: &[u8],
        report: &mut Report,
    ) -> Result<(), AllocError>
        ensures { OnOk result (Reports report.old report.new (LearnsEach W.contents numbers.now self.old self.new)) }
    {
        for number in numbers {
            self.learn_if_behind(alloc, *number, report)?;
        }
        Ok(())
    }

    /// An instance learns the next ring, if it is behind.
    fn learn_if_behind(
        &mut self,
        alloc: Global,
        instance: u8,
        report: &mut Report,
    ) -> Result<(), AllocError>
        ensures { OnOk result (Reports report.old report.new (LearnsIfBehind W.contents instance self.old self.new)) }
    {
        if !self.world.is_behind(instance) {
            return Ok(());
        }
        self.bring(alloc, &Event::Learn { instance }, report)
    }
}
