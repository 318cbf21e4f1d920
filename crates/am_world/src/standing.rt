//! What an operator asks: the ring, and how each instance stands.

ghost use Rattle.std.specs.Prelude.{◌≡◌, ◌<◌, IfOk, length};
ghost use Rattle.am_instance.specs.Here.{circumstances};
ghost use Rattle.am_world.specs.Consistent.{IsConsistent, newest_in};
ghost use Rattle.am_world.specs.Places.{At, incarnation_at, instance_at, known_at};
ghost use Rattle.am_world.specs.Standing.{StandsAt, StandsWhere, newest_epoch};

use crate::instances::Instances;
use crate::state::State;
use am_instance::{Occasion, Standing};
use am_ring::Ring;
use std::alloc::{AllocError, Global};

impl State {
    /// The newest ring.
    pub fn ring(&self) -> Ring
        requires { IsConsistent self.now }
        ensures { result.instances ≡ newest_in self.now.common }
    {
        *self.common.newest()
    }

    /// The epoch of the newest ring.
    pub fn epoch(&self) -> u64
        requires { IsConsistent self.now }
        ensures { result ≡ newest_epoch self.now.common }
    {
        self.common.newest_epoch()
    }

    /// The epoch of the ring that an instance knows; 0 where there is none of that number.
    pub fn known(&self, instance: u8) -> u64
        ensures { result ≡ known_at instance self.now.instances }
    {
        self.instances.known(instance)
    }

    /// In which incarnation an instance is; 0 where there is none of that number.
    pub fn incarnation(&self, instance: u8) -> u32
        ensures { result ≡ incarnation_at instance self.now.instances }
    {
        self.instances.incarnation(instance)
    }

    /// How an instance stands.
    ///
    /// # Errors
    /// Out of memory.
    pub fn standing(&self, alloc: Global, instance: u8) -> Result<Standing, AllocError>
        requires { IsConsistent self.now }
        ensures { IfOk result (StandsAt instance self.now) }
    {
        let incarnations = self.instances.incarnations();
        let occasion = self.common.occasion(self.clock, &incarnations);
        self.instances.standing(alloc, instance, &occasion)
    }
}

impl Instances {
    /// How an instance stands on an occasion.
    ///
    /// # Errors
    /// Out of memory.
    pub fn standing(
        &self,
        alloc: Global,
        number: u8,
        occasion: &Occasion<'_>,
    ) -> Result<Standing, AllocError>
        requires { At number (λ x. x.known < length occasion.now.rings.now) self.now }
        ensures { IfOk result (StandsWhere (circumstances occasion.now) (instance_at number self.now)) }
    {
        match self.at(number) {
            Some(instance) => instance.standing(alloc, occasion),
            None => Ok(Standing {
                tenants: 0,
                unsettled: Vec::new(alloc),
                alerts: 0,
                held_back: 0,
            }),
        }
    }
}
