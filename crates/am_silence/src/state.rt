ghost use Rattle.std.specs.Prelude.{◌≡◌};
ghost use Rattle.am_silence.specs.Silences.{has_expired, is_active, state_at};

use am_text::Moment;

/// What a silence is at a moment.
#[derive(Clone, Copy, PartialEq, Eq)]
pub enum SilenceState {
    /// It has not started.
    Pending,
    /// It has started, and has not ended.
    Active,
    /// It has ended.
    Expired,
}

impl SilenceState {
    /// The state at a moment of a silence that starts and ends at these.
    pub fn at(moment: Moment, starts_at: Moment, ends_at: Moment) -> SilenceState
        ensures { result ≡ state_at moment starts_at ends_at }
    {
        if moment < starts_at {
            SilenceState::Pending
        } else if moment < ends_at {
            SilenceState::Active
        } else {
            SilenceState::Expired
        }
    }

    /// Whether it has ended.
    pub fn has_expired(self) -> bool
        ensures { result ≡ has_expired self }
    {
        matches!(self, SilenceState::Expired)
    }
}
