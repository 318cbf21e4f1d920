//! What is the same for all instances.

ghost use Rattle.std.specs.Prelude.{◌≡◌, ◌-◌, ◌<◌, length};
ghost use Rattle.am_instance.specs.Here.{circumstances};
ghost use Rattle.am_world.specs.Consistent.{around, newest_in};

use am_instance::Occasion;
use am_limit::LimitBook;
use am_ring::Ring;
use am_text::Moment;

/// What is the same for all instances: the key of the service, the limits of all tenants, the rings so far, by epoch,
/// and the first incarnation, which is that of every instance until it is joined or restarted.
pub struct Common {
    pub(crate) service_key: [u8; 32],
    pub(crate) limits: LimitBook,
    pub(crate) rings: Vec<Ring>,
    pub(crate) first: u32,
}

// Written out, so that a crate which owns one has no need to prove anew how each of its parts is dropped.
impl Drop for Common {
    fn drop(self) {
        let Common {
            service_key: _service_key,
            limits,
            rings,
            first: _first,
        } = self;
        drop(limits);
        drop(rings);
    }
}

impl Common {
    /// Something happens at a moment, where these are the present incarnations of the instances 1 to 8.
    pub fn occasion<'a>(&'a self, moment: Moment, incarnations: &'a [u32]) -> Occasion<'a>
        ensures { circumstances result ≡ around moment self.now incarnations.now }
    {
        Occasion {
            moment,
            service_key: &self.service_key,
            limits: &self.limits,
            rings: self.rings.as_slice(),
            first: self.first,
            incarnations,
        }
    }

    /// The newest ring.
    pub fn newest(&self) -> &Ring
        requires { 0 < length self.now.rings.items }
        ensures { result.now.instances ≡ newest_in self.now }
    {
        &self.rings[self.rings.len() - 1]
    }

    /// The epoch of the newest ring.
    pub fn newest_epoch(&self) -> u64
        requires { 0 < length self.now.rings.items }
        ensures { result ≡ length self.now.rings.items - 1 }
    {
        self.rings.len() as u64 - 1
    }
}
