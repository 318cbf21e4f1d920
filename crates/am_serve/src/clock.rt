//! What moment it is, by a wall clock that may be set while time goes on.
ghost use Rattle.std.specs.Prelude.{◌≡◌, ◌≤◌, None, false};
ghost use Rattle.am_serve.specs.Clocks.{after, is_doubted, news, paced};

use std::fmt;

/// How far ahead the wall clock is believed at once, in milliseconds.
const MOST_AHEAD: u64 = 60_000;

/// How long it stands further ahead until it is believed, in milliseconds.
const STANDS: u64 = 30_000;

/// How far behind it is until that is told, in milliseconds.
const TOLD_BEHIND: u64 = 1_000;

/// What is told of the wall clock, each once, with the milliseconds by which it is off.
#[derive(Clone, Copy, Debug, PartialEq, Eq)]
pub enum ClockNews {
    /// It is behind by so much: until it catches up, time goes on by the monotonic clock.
    Behind(u64),
    /// It is ahead by so much, and isn't believed yet: time goes on by the monotonic clock.
    Ahead(u64),
    /// It stood ahead for 30 seconds, by so much now, and is believed.
    Believed(u64),
}

impl fmt::Display for ClockNews {
    fn fmt<W: fmt::Write>(&self, f: &mut fmt::Formatter<W>) -> fmt::Result {
        match self {
            ClockNews::Behind(by) => write!(
                f,
                "the wall clock is {by} ms behind: time goes on without it"
            ),
            ClockNews::Ahead(by) => write!(
                f,
                "the wall clock is {by} ms ahead: not believed for 30 s"
            ),
            ClockNews::Believed(by) => write!(f, "the wall clock is {by} ms ahead: believed"),
        }
    }
}

/// The moment, in milliseconds since 1970. It never goes back, and goes on where the wall clock is behind.
#[derive(Clone, Copy)]
pub struct SteadyClock {
    moment: u64,
    // What the monotonic clock said at that moment, in milliseconds.
    at: u64,
    // Since when the wall clock stands too far ahead, by the monotonic clock.
    ahead_since: Option<u64>,
    // Whether it was told that the wall clock is behind.
    is_behind: bool,
}

impl SteadyClock {
    /// The first moment is the wall clock's.
    pub fn new(wall: u64, now: u64) -> SteadyClock
        ensures { result ≡ record { moment = wall; at = now; ahead_since = None; is_behind = false } }
    {
        SteadyClock {
            moment: wall,
            at: now,
            ahead_since: None,
            is_behind: false,
        }
    }

    /// The last moment.
    pub fn moment(&self) -> u64
        ensures { result ≡ self.now.moment }
    {
        self.moment
    }

    /// Takes what the wall clock and the monotonic clock say now: the moment is the wall clock's, or, where that is
    /// behind or not believed, the last one and what the monotonic clock went on since. A wall clock over 60 seconds
    /// ahead is believed once it has been so for 30. Gives what is to be told.
    pub fn read(&mut self, wall: u64, now: u64) -> Option<ClockNews>
        ensures after { self.new ≡ after wall now self.old }
        ensures news { result ≡ news wall now self.old }
        ensures rises { self.old.moment ≤ self.new.moment }
    {
        let news = self.news(wall, now);
        *self = self.after(wall, now);
        news
    }

    // The last moment and what the monotonic clock went on since.
    fn paced(&self, now: u64) -> u64
        ensures value { result ≡ paced now self.now }
        ensures rises { self.now.moment ≤ result }
    {
        self.moment.saturating_add(now.saturating_sub(self.at))
    }

    // Whether the wall clock is too far ahead, and not for long enough.
    fn is_doubted(&self, wall: u64, now: u64) -> bool
        ensures { result ≡ is_doubted wall now self.now }
    {
        if wall.saturating_sub(self.paced(now)) <= MOST_AHEAD {
            return false;
        }
        match self.ahead_since {
            Some(since) => now.saturating_sub(since) < STANDS,
            None => true,
        }
    }

    fn after(&self, wall: u64, now: u64) -> SteadyClock
        ensures value { result ≡ after wall now self.now }
        ensures rises { self.now.moment ≤ result.moment }
    {
        let paced = self.paced(now);
        let is_doubted = self.is_doubted(wall, now);
        let behind = paced.saturating_sub(wall);
        SteadyClock {
            moment: if is_doubted { paced } else { paced.max(wall) },
            at: self.at.max(now),
            ahead_since: if is_doubted {
                Some(self.ahead_since.unwrap_or(now))
            } else {
                None
            },
            is_behind: behind > 0 && (self.is_behind || behind >= TOLD_BEHIND),
        }
    }

    fn news(&self, wall: u64, now: u64) -> Option<ClockNews>
        ensures { result ≡ news wall now self.now }
    {
        let paced = self.paced(now);
        let ahead = wall.saturating_sub(paced);
        let behind = paced.saturating_sub(wall);
        if self.is_doubted(wall, now) {
            match self.ahead_since {
                Some(_) => None,
                None => Some(ClockNews::Ahead(ahead)),
            }
        } else if ahead > MOST_AHEAD {
            Some(ClockNews::Believed(ahead))
        } else if !self.is_behind && behind >= TOLD_BEHIND {
            Some(ClockNews::Behind(behind))
        } else {
            None
        }
    }
}
