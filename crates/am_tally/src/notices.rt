//! What became of notices.
ghost use Rattle.std.specs.Prelude.{◌≡◌};
ghost use Rattle.am_tally.specs.Counts.{counted, no_notices, tries_that};

/// What becomes of a try of a notice.
#[derive(Clone, Copy)]
pub enum Fate {
    /// Its webhook is called.
    Begun,
    /// It ends without an answer of success.
    Failed,
    /// It gives way to others before its webhook is called.
    GivenUp,
}

/// How many tries of notices came to what. Each count stops at 2^64 - 1.
#[derive(Clone, Copy)]
pub struct Notices {
    begun: u64,
    failed: u64,
    given_up: u64,
}

impl Notices {
    /// None so far.
    pub fn new() -> Notices
        ensures { result ≡ no_notices }
    {
        Notices {
            begun: 0,
            failed: 0,
            given_up: 0,
        }
    }

    /// One more came to this.
    pub fn count(&mut self, fate: Fate)
        ensures { self.new ≡ counted fate self.old }
    {
        match fate {
            Fate::Begun => self.begun = self.begun.saturating_add(1),
            Fate::Failed => self.failed = self.failed.saturating_add(1),
            Fate::GivenUp => self.given_up = self.given_up.saturating_add(1),
        }
    }

    /// How many came to this.
    pub fn of(&self, fate: Fate) -> u64
        ensures { result ≡ tries_that fate self.now }
    {
        match fate {
            Fate::Begun => self.begun,
            Fate::Failed => self.failed,
            Fate::GivenUp => self.given_up,
        }
    }
}
