use std::error::Error;
use std::fmt;

/// Why an instance can't join or leave a ring.
#[derive(Clone, Copy, Debug, PartialEq, Eq)]
pub enum RingRefusal {
    /// All eight instances are in the ring already.
    Full,
    /// Only three instances are in the ring.
    Small,
    /// One that joins isn't numbered 1 to 8 or is in the ring already, or one that leaves isn't in it.
    WrongInstance,
}

/// The refusal's code, `Ri1` to `Ri3`.
impl fmt::Display for RingRefusal {
    ghost use Rattle.std.specs.Prelude.{Some};
    ghost use Rattle.am_ring.specs.Codes.{code_of};

    ghost output = { λ refusal. Some (code_of refusal) };

    fn fmt<W: fmt::Write>(&self, f: &mut fmt::Formatter<W>) -> fmt::Result {
        f.pad(match self {
            RingRefusal::Full => "Ri1",
            RingRefusal::Small => "Ri2",
            RingRefusal::WrongInstance => "Ri3",
        })
    }
}

impl Error for RingRefusal {}
