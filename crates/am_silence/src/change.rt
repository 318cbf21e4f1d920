//! What a posted silence changes, and what a deletion does.

ghost use Rattle.std.specs.Prelude.{◌≡◌, IfOk, Some, option_map, map};
ghost use Rattle.am_silence.specs.Changing.{anew, change, change_of, changed_of, expiry, expiry_by, in_place, is_in_place, may_stay, same_matcher, same_matchers, stamped_after, write_of, writes_of};
ghost use Rattle.am_silence.specs.Held.{held_silence};
ghost use Rattle.am_silence.specs.Posted.{posted_of};
ghost use Rattle.am_silence.specs.Silences.{details_in, details_of, state_of};

use crate::held::{HeldSilence, state_of};
use crate::posted::PostedSilence;
use crate::state::SilenceState;
use am_item::{Matchers, Silence, SilenceDetails, SilenceId};
use am_match::Matcher;
use am_text::Moment;
use std::alloc::{AllocError, Global};

/// A silence that is to be stored.
#[derive(Drop)]
pub struct SilenceWrite {
    /// The moment of its stamp.
    pub moment: Moment,
    /// What is stored.
    pub silence: Silence,
}

/// What a posted silence changes.
#[derive(Drop)]
pub struct Change {
    /// The expiry of the old silence, where it brings one.
    pub expired: Option<SilenceWrite>,
    /// The old silence, where it is changed in its place. Else what is posted is a new silence, which needs an identifier
    /// that is drawn.
    pub id: Option<SilenceId>,
    /// The moment of the stamp of what is posted.
    pub moment: Moment,
    /// What is posted.
    pub details: SilenceDetails,
}

impl Change {
    /// What is to be stored, in order. A new silence has this identifier.
    pub fn into_writes(
        self,
        alloc: Global,
        new_id: SilenceId,
    ) -> Result<Vec<SilenceWrite>, AllocError>
        ensures { IfOk result (λ v. map write_of v.items ≡ writes_of (changed_of self) new_id) }
    {
        let Change {
            expired,
            id,
            moment,
            details,
        } = self;
        let mut writes = Vec::new(alloc);
        if let Some(write) = expired {
            writes.push(write)?;
        }
        let silence = with_id(id.unwrap_or(new_id), details);
        writes.push(SilenceWrite { moment, silence })?;
        Ok(writes)
    }
}

/// What a posted silence changes at a moment, where it names this one that is held, or none.
#[tactic(auto, unfolding(crate::specs::Changing::change))]
pub(crate) fn make_change(
    alloc: Global,
    old: Option<HeldSilence<'_>>,
    posted: PostedSilence,
    moment: Moment,
) -> Result<Change, AllocError>
    ensures { IfOk result (λ c. changed_of c ≡ change moment (option_map held_silence old.entry) (posted_of posted)) }
{
    match old {
        None => Ok(anew(None, posted, moment)),
        Some(old) => change_of(alloc, &old, posted, moment),
    }
}

fn change_of(
    alloc: Global,
    old: &HeldSilence<'_>,
    posted: PostedSilence,
    moment: Moment,
) -> Result<Change, AllocError>
    ensures { IfOk result (λ c. changed_of c ≡ change_of moment (held_silence old.now) (posted_of posted)) }
{
    if is_in_place(&old.held.value, &posted, moment) {
        return Ok(in_place(old, posted, moment));
    }
    let expired = expiry_of(alloc, old, moment)?;
    Ok(anew(expired, posted, moment))
}

// Whether the old silence is changed in its place.
fn is_in_place(old: &SilenceDetails, posted: &PostedSilence, moment: Moment) -> bool
    ensures { result ≡ is_in_place moment (details_of old.now) (posted_of posted.now) }
{
    same_matchers(old.matchers.as_slice(), &posted.matchers)
        && may_stay(
            state_of(old, moment),
            moment,
            old.starts_at,
            posted.starts_at,
        )
}

fn may_stay(state: SilenceState, moment: Moment, old_start: Moment, new_start: Moment) -> bool
    ensures { result ≡ may_stay state moment old_start new_start }
{
    match state {
        SilenceState::Active => new_start == old_start,
        SilenceState::Pending => moment <= new_start,
        SilenceState::Expired => false,
    }
}

// Whether the lists are equal.
fn same_matchers(first: &[Matcher], second: &[Matcher]) -> bool
    ensures { result ≡ same_matchers first.now second.now }
{
    first == second
}

// The old silence, changed in its place.
fn in_place(old: &HeldSilence<'_>, posted: PostedSilence, moment: Moment) -> Change
    ensures { changed_of result ≡ in_place moment (held_silence old.now) (posted_of posted) }
{
    let stamped = stamped_after(moment, old.held.stamp.moment);
    Change {
        expired: None,
        id: Some(*old.id),
        moment: stamped,
        details: SilenceDetails {
            starts_at: posted.starts_at,
            ends_at: posted.ends_at,
            kept_until: posted.ends_at.max(stamped).max(old.held.value.kept_until),
            created_by: posted.created_by,
            comment: posted.comment,
            matchers: Matchers::from_vec(posted.matchers),
        },
    }
}

// A new silence.
fn anew(expired: Option<SilenceWrite>, posted: PostedSilence, moment: Moment) -> Change
    ensures { changed_of result ≡ anew moment (option_map write_of expired) (posted_of posted) }
{
    Change {
        expired,
        id: None,
        moment,
        details: SilenceDetails {
            starts_at: posted.starts_at.max(moment),
            ends_at: posted.ends_at,
            kept_until: posted.ends_at.max(moment),
            created_by: posted.created_by,
            comment: posted.comment,
            matchers: Matchers::from_vec(posted.matchers),
        },
    }
}

/// The expiry of a silence, where it has not expired at the moment.
pub(crate) fn expiry_of(
    alloc: Global,
    old: &HeldSilence<'_>,
    moment: Moment,
) -> Result<Option<SilenceWrite>, AllocError>
    ensures { IfOk result (λ found. option_map write_of found ≡ expiry_by (state_of moment (details_of old.now.held.now.value)) moment (held_silence old.now)) }
{
    match state_of(&old.held.value, moment) {
        SilenceState::Expired => Ok(None),
        SilenceState::Pending | SilenceState::Active => Ok(Some(expiry(alloc, old, moment)?)),
    }
}

fn expiry(alloc: Global, old: &HeldSilence<'_>, moment: Moment) -> Result<SilenceWrite, AllocError>
    ensures { IfOk result (λ w. write_of w ≡ expiry moment (held_silence old.now)) }
{
    let stamped = stamped_after(moment, old.held.stamp.moment);
    let silence = &old.held.value;
    let starts_at = if moment < silence.starts_at {
        moment
    } else {
        silence.starts_at
    };
    Ok(SilenceWrite {
        moment: stamped,
        silence: Silence {
            id: *old.id,
            starts_at,
            ends_at: moment,
            kept_until: moment.max(stamped).max(silence.kept_until),
            created_by: silence.created_by.copy(alloc)?,
            comment: silence.comment.copy(alloc)?,
            matchers: Matchers::from_vec(copy_matchers(alloc, silence.matchers.as_slice())?),
        },
    })
}

fn copy_matchers(alloc: Global, matchers: &[Matcher]) -> Result<Vec<Matcher>, AllocError>
    ensures { IfOk result (λ v. v.items ≡ matchers.now) }
{
    let mut copies = Vec::with_capacity(alloc, matchers.len())?;
    for matcher in matchers {
        copies.push(matcher.copy(alloc)?)?;
    }
    Ok(copies)
}

// The moment of a stamp, where this one of the same key was seen.
fn stamped_after(moment: Moment, seen: Moment) -> Moment
    ensures { result ≡ stamped_after moment seen }
{
    moment.max(seen.plus(1))
}

// The silence of an identifier.
fn with_id(id: SilenceId, details: SilenceDetails) -> Silence
    ensures id { result.id ≡ id }
    ensures details { details_in result ≡ details_of details }
{
    Silence {
        id,
        starts_at: details.starts_at,
        ends_at: details.ends_at,
        kept_until: details.kept_until,
        created_by: details.created_by,
        comment: details.comment,
        matchers: details.matchers,
    }
}
