ghost use Rattle.std.specs.Prelude.{◌≡◌};

use std::fmt;

/// Why an event was refused. A refused event changes nothing.
#[derive(Clone, Copy, PartialEq, Eq)]
pub enum Refused {
    /// The moment is past [`LAST_MOMENT`](crate::LAST_MOMENT), or a tick goes back.
    MomentRefused,
    /// The instance isn't up in the ring; for a restart, it isn't down in the ring.
    InstanceNotUp,
    /// The message was never sent, or is lost.
    NotSent,
    /// No outcome of that try is awaited.
    NotAwaited,
    /// The connection isn't open, or was answered or closed.
    NotReading,
    /// The instance isn't up in the ring, or knows the newest ring already.
    NothingToLearn,
    /// All eight instances are in the ring.
    RingFull,
    /// Only three instances are in the ring.
    RingSmall,
    /// One that joins isn't numbered 1 to 8 or is in the ring; one that leaves isn't in the ring.
    WrongInstance,
    /// The instance has had its last incarnation.
    NoIncarnation,
}

impl Refused {
    ghost use Rattle.am_event.specs.Codes.{code_of};

    /// The refusal's code, as the program prints it.
    pub fn code(self) -> &'static str
        ensures { result.now ≡ code_of self }
    {
        match self {
            Refused::MomentRefused => "We1",
            Refused::InstanceNotUp => "We2",
            Refused::NotSent => "We3",
            Refused::NotAwaited => "We4",
            Refused::NotReading => "We5",
            Refused::NothingToLearn => "We6",
            Refused::RingFull => "Ri1",
            Refused::RingSmall => "Ri2",
            Refused::WrongInstance => "Ri3",
            Refused::NoIncarnation => "Ri4",
        }
    }
}

impl fmt::Display for Refused {
    ghost use Rattle.std.specs.Prelude.{Some};
    ghost use Rattle.am_event.specs.Codes.{code_of};

    ghost output = { λ refused. Some (code_of refused) };

    fn fmt<W: fmt::Write>(&self, f: &mut fmt::Formatter<W>) -> fmt::Result {
        f.write_str(self.code())
    }
}
