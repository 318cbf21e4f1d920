ghost use Rattle.std.specs.Prelude.{◌≡◌, Some, refl};
ghost use Rattle.std.specs.Cmp.{partial_equiv_from_equiv, eq_by_cmp_equiv, po};
ghost use Rattle.std.specs.Cmp.Lexicographic.{slice_cmp, nat_list_cmp_total};
ghost use Rattle.std.specs.Ordering.{eq_by_cmp, nat_cmp};

use crate::matchers::Matchers;
use am_text::{Moment, Text};
use std::cmp::Ordering;
use std::marker::Model;

/// The identifier of a silence: 16 bytes.
#[derive(Clone, Copy)]
pub struct SilenceId {
    bytes: [u8; 16],
}

impl Model for SilenceId {
    ghost use Rattle.std.specs.Prelude.{ℕ, List};

    ghost Value = { List ℕ };

    ghost view = { λ id. id.bytes };

    ghost inverse = { λ bytes. record { bytes = bytes } };
}

impl SilenceId {
    /// The identifier of these bytes.
    pub fn from_bytes(bytes: [u8; 16]) -> SilenceId
        ensures { result ≡ bytes }
    {
        SilenceId { bytes }
    }

    /// Its bytes.
    pub fn as_bytes(&self) -> &[u8; 16]
        ensures { result.now ≡ self.now }
    {
        &self.bytes
    }
}

impl PartialEq for SilenceId {
    ghost eq = { eq_by_cmp (slice_cmp nat_cmp) };

    ghost laws = { partial_equiv_from_equiv (eq_by_cmp_equiv nat_list_cmp_total) };

    fn eq(&self, other: &SilenceId) -> bool {
        self.cmp(other).is_eq()
    }
}

impl Eq for SilenceId {
    ghost laws = { eq_by_cmp_equiv nat_list_cmp_total };
}

impl PartialOrd for SilenceId {
    ghost partial_cmp = { λ a b. Some (slice_cmp nat_cmp a b) };

    ghost laws = { po nat_list_cmp_total (λ _ _. refl) };

    fn partial_cmp(&self, other: &SilenceId) -> Option<Ordering> {
        Some(self.cmp(other))
    }
}

/// By bytes.
impl Ord for SilenceId {
    ghost cmp = { slice_cmp nat_cmp };

    ghost total = { nat_list_cmp_total };

    ghost matches_partial_cmp = { λ a b. refl };

    ghost matches_eq = { λ a b. refl };

    fn cmp(&self, other: &SilenceId) -> Ordering {
        self.bytes.as_slice().cmp(other.bytes.as_slice())
    }
}

/// A silence: from its start until before its end it mutes the alerts that all its matchers take.
#[derive(Drop)]
pub struct Silence {
    /// What identifies the silence.
    pub id: SilenceId,
    /// Since when it mutes.
    pub starts_at: Moment,
    /// From when on it mutes no more.
    pub ends_at: Moment,
    /// Until when it counts as in use: the greatest of its end, its stamp's moment and the `kept_until` of the
    /// silence that it replaced.
    pub kept_until: Moment,
    /// Who made it.
    pub created_by: Text,
    /// Why it was made.
    pub comment: Text,
    /// What it mutes.
    pub matchers: Matchers,
}

/// What a silence is beside its identifier.
#[derive(Drop)]
pub struct SilenceDetails {
    /// Since when it mutes.
    pub starts_at: Moment,
    /// From when on it mutes no more.
    pub ends_at: Moment,
    /// Until when it counts as in use.
    pub kept_until: Moment,
    /// Who made it.
    pub created_by: Text,
    /// Why it was made.
    pub comment: Text,
    /// What it mutes.
    pub matchers: Matchers,
}

impl Silence {
    ghost use Rattle.am_item.specs.Details.{silence_details};

    // The identifier, and what the silence is beside it.
    pub(crate) fn into_parts(self) -> (SilenceId, SilenceDetails)
        ensures { result ≡ (self.id, silence_details self) }
    {
        let Silence {
            id,
            starts_at,
            ends_at,
            kept_until,
            created_by,
            comment,
            matchers,
        } = self;
        let details = SilenceDetails {
            starts_at,
            ends_at,
            kept_until,
            created_by,
            comment,
            matchers,
        };
        (id, details)
    }
}
