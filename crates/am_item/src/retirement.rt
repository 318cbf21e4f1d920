ghost use Rattle.std.specs.Prelude.{◌≡◌, ◌*◌, ℕ, max};
ghost use Rattle.am_item.specs.Retirement.{held_standing, hour, moment_after};

use crate::entry::EntryDetails;
use crate::held::Standing;
use crate::item::AlertDetails;
use crate::silence::SilenceDetails;
use crate::stamp::Stamped;
use am_text::Moment;

const HOUR: u64 = 3_600_000;

/// From when on an alert is retired: an hour after its end or its write, whichever is later.
pub fn alert_retires_at(ends_at: Moment, written_at: Moment) -> Moment
    ensures { result ≡ moment_after (max ends_at written_at) hour }
{
    ends_at.max(written_at).plus(HOUR)
}

/// From when on a silence is retired: 120 hours after it last counts as in use.
pub fn silence_retires_at(kept_until: Moment) -> Moment
    ensures { result ≡ moment_after kept_until (120 * hour) }
{
    kept_until.plus(120 * HOUR)
}

/// From when on a sent entry is retired: an hour after its end.
pub fn entry_retires_at(ends_at: Moment) -> Moment
    ensures { result ≡ moment_after ends_at hour }
{
    ends_at.plus(HOUR)
}

// What is held of an item beside its key, where that tells from when on the item is retired.
pub(crate) trait Retiring {
    ghost retires: { ℕ → Self → ℕ };

    // From when on an item is retired of which this is held and which was written at the moment.
    fn retires_at(&self, written_at: Moment) -> Moment
        ensures { result ≡ retires written_at self.now };
}

impl Retiring for SilenceDetails {
    ghost retires = { λ written silence. moment_after silence.kept_until (120 * hour) };

    fn retires_at(&self, _written_at: Moment) -> Moment {
        silence_retires_at(self.kept_until)
    }
}

impl Retiring for AlertDetails {
    ghost retires = { λ written alert. moment_after (max alert.ends_at written) hour };

    fn retires_at(&self, written_at: Moment) -> Moment {
        alert_retires_at(self.ends_at, written_at)
    }
}

impl Retiring for EntryDetails {
    ghost retires = { λ written entry. moment_after entry.ends_at hour };

    fn retires_at(&self, _written_at: Moment) -> Moment {
        entry_retires_at(self.ends_at)
    }
}

impl<V: Retiring> Stamped<V> {
    // The stamp of the item of which this is held, and from when on it is retired.
    pub(crate) fn standing(&self) -> Standing
        ensures { result ≡ held_standing V.retires self.now }
    {
        Standing {
            stamp: self.stamp,
            retires_at: Some(self.value.retires_at(self.stamp.moment)),
        }
    }
}
