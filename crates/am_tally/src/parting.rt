//! Connections that were let go before their clients had the whole reply.
ghost use Rattle.std.specs.Prelude.{◌≡◌, ◌-◌};
ghost use Rattle.am_tally.specs.Counts.{let_go_for, raised, with_let_go};
ghost use Rattle.am_tally.specs.declared.parting.Parting.{Parting};

/// Why a connection was let go.
#[derive(Clone, Copy, PartialEq, Eq)]
pub enum Parting {
    /// It made no progress for too long, or was there for too long.
    Late,
    /// It gave its place to another, before its request was whole.
    Crowded,
    /// It gave way where the replies held too much: no byte of its reply was taken for longest.
    Unread,
    /// It was reset before its request was whole.
    Reset,
    /// It failed or ended before the last byte of its reply was taken.
    Lost,
    /// The service didn't take it.
    Refused,
    /// The service has it no more.
    Dropped,
}

/// How many reasons there are.
const REASONS: usize = 7;

impl Parting {
    /// All reasons, each once.
    pub const ALL: [Parting; REASONS] = [
        Parting::Late,
        Parting::Crowded,
        Parting::Unread,
        Parting::Reset,
        Parting::Lost,
        Parting::Refused,
        Parting::Dropped,
    ];

    /// The reason in a word.
    pub fn name(self) -> &'static str {
        match self {
            Parting::Late => "late",
            Parting::Crowded => "crowded",
            Parting::Unread => "unread",
            Parting::Reset => "reset",
            Parting::Lost => "lost",
            Parting::Refused => "refused",
            Parting::Dropped => "dropped",
        }
    }
}

/// How many connections were let go, by why. Each count stops at 2^64 - 1.
#[derive(Clone, Copy)]
pub struct Partings {
    late: u64,
    crowded: u64,
    unread: u64,
    reset: u64,
    lost: u64,
    refused: u64,
    dropped: u64,
}

impl Partings {
    /// None was let go.
    pub fn new() -> Partings
        ensures { (parting : Parting) → let_go_for parting result ≡ 0 }
    {
        Partings {
            late: 0,
            crowded: 0,
            unread: 0,
            reset: 0,
            lost: 0,
            refused: 0,
            dropped: 0,
        }
    }

    /// So many more were let go for this.
    pub fn count(&mut self, parting: Parting, connections: u64)
        ensures { self.new ≡ with_let_go parting (raised connections (let_go_for parting self.old)) self.old }
    {
        match parting {
            Parting::Late => self.late = self.late.saturating_add(connections),
            Parting::Crowded => self.crowded = self.crowded.saturating_add(connections),
            Parting::Unread => self.unread = self.unread.saturating_add(connections),
            Parting::Reset => self.reset = self.reset.saturating_add(connections),
            Parting::Lost => self.lost = self.lost.saturating_add(connections),
            Parting::Refused => self.refused = self.refused.saturating_add(connections),
            Parting::Dropped => self.dropped = self.dropped.saturating_add(connections),
        }
    }

    /// How many were let go for this.
    pub fn of(&self, parting: Parting) -> u64
        ensures { result ≡ let_go_for parting self.now }
    {
        match parting {
            Parting::Late => self.late,
            Parting::Crowded => self.crowded,
            Parting::Unread => self.unread,
            Parting::Reset => self.reset,
            Parting::Lost => self.lost,
            Parting::Refused => self.refused,
            Parting::Dropped => self.dropped,
        }
    }

    /// How many more were let go for this than at an earlier moment.
    pub fn since(&self, earlier: &Partings, parting: Parting) -> u64
        ensures { result ≡ let_go_for parting self.now - let_go_for parting earlier.now }
    {
        self.of(parting).saturating_sub(earlier.of(parting))
    }
}
