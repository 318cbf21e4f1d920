ghost use Rattle.std.specs.Prelude.{◌≡◌, ◌+◌, ◌≤◌, min};
ghost use Rattle.std.specs.Option.{SomeIff};
ghost use Rattle.am_text.specs.Moment.{greatest_moment};

use std::marker::Model;

/// A moment in milliseconds since 1970-01-01T00:00:00Z, at most 9999-12-31T23:59:59.999Z.
#[derive(Clone, Copy, PartialEq, Eq, PartialOrd, Ord)]
pub struct Moment {
    milliseconds: u64,
}

impl Model for Moment {
    ghost use Rattle.std.specs.Prelude.{ℕ, ◌≤◌};
    ghost use Rattle.am_text.specs.Moment.{greatest_moment};

    ghost Value = { ℕ };

    ghost view = { λ m. m.milliseconds };

    ghost invariant = { λ m. m.milliseconds ≤ greatest_moment };

    ghost inverse = { λ n. record { milliseconds = n } };
}

impl Moment {
    /// 9999-12-31T23:59:59.999Z, after which there is no moment.
    pub fn greatest() -> Moment
        ensures { result ≡ greatest_moment }
    {
        Moment {
            milliseconds: GREATEST_MILLISECONDS,
        }
    }

    /// The moment that many milliseconds after 1970-01-01T00:00:00Z; `None` past the greatest.
    pub fn from_milliseconds(milliseconds: u64) -> Option<Moment>
        ensures { SomeIff result (milliseconds ≤ greatest_moment) milliseconds }
    {
        if milliseconds <= GREATEST_MILLISECONDS {
            Some(Moment { milliseconds })
        } else {
            None
        }
    }

    /// The milliseconds since 1970-01-01T00:00:00Z.
    pub fn milliseconds(self) -> u64
        ensures value { result ≡ self }
        ensures bound { result ≤ greatest_moment }
    {
        self.milliseconds
    }

    /// The moment that many milliseconds later, or the greatest where that would pass it.
    pub fn plus(self, milliseconds: u64) -> Moment
        ensures { result ≡ min (self + milliseconds) greatest_moment }
    {
        Moment {
            milliseconds: self
                .milliseconds
                .saturating_add(milliseconds)
                .min(GREATEST_MILLISECONDS),
        }
    }
}

const GREATEST_MILLISECONDS: u64 = 253_402_300_799_999;
