ghost use Rattle.std.specs.Prelude.{◌≡◌, ◌+◌, ◌-◌, ◌<◌, Some, None, IsTrue, if◌then◌else◌};
ghost use Rattle.am_ring.specs.Instances.{is_instance};

use std::marker::Model;

/// The number of an instance, 1 to 8.
#[derive(Clone, Copy, PartialEq, Eq, PartialOrd, Ord)]
pub struct Instance {
    number: u8,
}

impl Model for Instance {
    ghost use Rattle.std.specs.Prelude.{ℕ, IsTrue};
    ghost use Rattle.am_ring.specs.Instances.{is_instance};

    ghost Value = { ℕ };

    ghost view = { λ instance. instance.number };

    ghost invariant = { λ instance. IsTrue (is_instance instance.number) };

    ghost inverse = { λ number. record { number = number } };
}

impl Instance {
    /// The instance of this number, where there is one.
    pub fn new(number: u8) -> Option<Instance>
        ensures { result ≡ (if is_instance number then Some number else None) }
    {
        if 1 <= number && number <= 8 {
            Some(Instance { number })
        } else {
            None
        }
    }

    /// Its number, 1 to 8.
    pub fn number(self) -> u8
        ensures number { result ≡ self }
        ensures range { IsTrue (is_instance self) }
    {
        self.number
    }

    // The instance at a place among all instances, from 0 on.
    pub(crate) fn at(index: usize) -> Instance
        requires { index < 8 }
        ensures { result ≡ index + 1 }
    {
        Instance {
            number: index as u8 + 1,
        }
    }

    // Its place among all instances, from 0 on.
    pub(crate) fn index(self) -> usize
        ensures index { result ≡ self - 1 }
        ensures range { IsTrue (is_instance self) }
    {
        usize::from(self.number - 1)
    }
}
