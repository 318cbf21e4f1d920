ghost use Rattle.std.specs.Prelude.{◌≡◌};
ghost use Rattle.am_limit.specs.Limits.{fresh, has_room, with_limit, after_asking};

use am_text::Moment;
use std::marker::Model;

const MINUTE: u64 = 60_000;

/// How many notices one instance may still send to one tenant in a minute of the clock, which begins at
/// each multiple of 60,000 milliseconds.
///
/// It holds the last minute alone, so it counts right for a clock that does not go back: then it gives in
/// each minute as many notices as its limit says, and what it holds is the count of those that it gave
/// ([`laws`](crate::laws)). A moment in an earlier minute than the last begins a new count.
#[derive(Clone, Copy)]
pub struct Allowance {
    limit: u64,
    minute: u64,
    used: u64,
}

impl Model for Allowance {
    ghost use Rattle.am_limit.specs.Limits.{Count};

    ghost Value = { Count };

    ghost view = { λ a. record { limit = a.limit; minute = a.minute; used = a.used } };

    ghost inverse = { λ c. record { limit = c.limit; minute = c.minute; used = c.used } };
}

impl Allowance {
    /// An allowance of so many notices a minute, of which none was used.
    pub fn new(limit: u64) -> Allowance
        ensures { result ≡ fresh limit }
    {
        Allowance {
            limit,
            minute: 0,
            used: 0,
        }
    }

    /// Sets how many notices a minute has. What was used of the present minute stays used: a greater limit
    /// leaves the rest of it, a smaller one than what was used leaves none until the next minute.
    pub fn set_limit(&mut self, limit: u64)
        ensures { self.new ≡ with_limit self.old limit }
    {
        self.limit = limit;
    }

    /// Uses one notice of the minute in which the moment lies. `false`, and nothing is used, where that
    /// minute has none left, so always where the limit is 0. No memory is taken.
    pub fn take(&mut self, moment: Moment) -> bool
        ensures answer { result ≡ has_room self.old moment }
        ensures held { self.new ≡ after_asking self.old moment }
    {
        let minute = moment.milliseconds() / MINUTE;
        let used = if minute == self.minute { self.used } else { 0 };
        if used >= self.limit {
            return false;
        }
        self.minute = minute;
        self.used = used + 1;
        true
    }
}
