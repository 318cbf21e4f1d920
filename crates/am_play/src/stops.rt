//! What is told of instances that stopped.
ghost use Rattle.std.specs.Prelude.{◌<◌, IfErr};
ghost use Rattle.am_stream.specs.Streams.{IsFailureOf};

use crate::telling::tell;
use am_log::{Entry, Log};
use am_stream::{Sink, StreamFailure};
use am_text::Text;
use am_world::AnyWorld;
use std::alloc::Global;

/// Of which instances it was told that they stopped, and not yet that they are up again, by number from 1 on.
#[derive(Clone, Copy)]
pub struct Stops {
    told: [bool; 8],
}

impl Stops {
    /// None so far.
    pub fn none() -> Stops {
        Stops { told: [false; 8] }
    }

    /// Tells of each instance that stopped, or is up again, since it was last told: a line each.
    ///
    /// # Errors
    /// Out of memory, or one of the sink's: what wasn't told whole counts as untold.
    pub fn tell<W: AnyWorld, E: Sink>(
        &mut self,
        alloc: Global,
        world: &W,
        log: Log,
        errors: &mut E,
    ) -> Result<(), StreamFailure>
        ensures causes { IfErr result (IsFailureOf E.fails_with) }
    {
        for place in 0..8u8 {
            self.tell_of(alloc, world, place, log, errors)?;
        }
        Ok(())
    }

    /// Tells of the instance at a place.
    fn tell_of<W: AnyWorld, E: Sink>(
        &mut self,
        alloc: Global,
        world: &W,
        place: u8,
        log: Log,
        errors: &mut E,
    ) -> Result<(), StreamFailure>
        requires { place < 8 }
        ensures causes { IfErr result (IsFailureOf E.fails_with) }
    {
        let number = place + 1;
        let is_told = self.told[usize::from(place)];
        let entry = match world.cause(number) {
            Some(fault) if !is_told => {
                let cause = Text::from_string(format!(in alloc; "{fault}")?);
                Entry::InstanceStopped(number, cause)
            }
            None if is_told && world.is_up(number) => Entry::InstanceUp(number),
            _ => return Ok(()),
        };
        tell(alloc, log, &entry, errors)?;
        self.told[usize::from(place)] = !is_told;
        Ok(())
    }
}
