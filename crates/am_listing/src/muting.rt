//! Alerts with what mutes them.

ghost use Rattle.std.specs.Prelude.{◌≡◌, ◌&&◌, ℕ, ◌<◌, List, IfErr, IfOk, OnErr, get_or, length, map};
ghost use Rattle.std.specs.List.{enumerate_from};
ghost use Rattle.am_text.specs.Outcome.{ForRefused};
ghost use Rattle.am_pattern.specs.Asking.{Asked};
ghost use Rattle.am_alert.specs.HeldAlert.{held_alert};
ghost use Rattle.am_muting.specs.Failing.{AddsAmong, patterns_muting};
ghost use Rattle.am_muting.specs.Muting.{firing_sets, muting_of, nothing};
ghost use Rattle.am_listing.specs.Failing.{IsUnanswered};
ghost use Rattle.am_listing.specs.Listed.{chosen_among, is_chosen, muted};
ghost use Rattle.am_listing.specs.Shown.{lets_through};

use crate::refusal::Unanswered;
use am_alert::HeldAlert;
use am_config::Config;
use am_item::{Held, SilenceId};
use am_labels::LabelSet;
use am_muting::{Mutes, mutes_of_firing};
use am_pattern::PatternCache;
use am_query::Query;
use am_text::{Failure, Listed, Moment};
use std::alloc::{AllocError, Global};

/// An alert, and what mutes it.
#[derive(Drop)]
pub struct MutedAlert<'a> {
    pub alert: HeldAlert<'a>,
    /// The silences that silence it, in the order of identifiers.
    pub silenced_by: Listed<SilenceId>,
    /// The label sets of the alerts that inhibit it, in their order.
    pub inhibited_by: Listed<&'a LabelSet>,
}

/// What mutes each of the alerts that fire, which have these label sets.
pub(crate) fn mutes_of<'a>(
    alloc: Global,
    held: &Held,
    config: &Config,
    moment: Moment,
    firing: Vec<&'a LabelSet>,
    cache: &mut PatternCache,
) -> Result<Mutes<'a>, Failure<Unanswered>>
    requires { map (λ set. set.now) firing.items ≡ firing_sets moment held.now }
    ensures muting { IfOk result (λ m. m ≡ map
        (λ set. muting_of config.now moment held.now set.now) firing.entry.items) }
    ensures asked { Asked result cache.old cache.new }
    ensures adds { OnErr result (AddsAmong (patterns_muting config.now moment held.now) cache.old.refused
        cache.new.refused) }
    ensures failure { (own : List (List ℕ)) → IfErr result (λ failure. ForRefused failure
        (IsUnanswered cache.new.refused own (patterns_muting config.now moment held.now))) }
{
    match mutes_of_firing(alloc, held, config, moment, firing, cache) {
        Ok(mutes) => Ok(mutes),
        Err(Failure::Refused(_)) => Err(Failure::Refused(Unanswered::Stored)),
        Err(Failure::OutOfMemory) => Err(Failure::OutOfMemory),
    }
}

/// Those of the alerts that are taken, as the flags say, and that the query lets through, with what mutes them.
pub(crate) fn chosen_alerts<'a>(
    alloc: Global,
    query: &Query,
    alerts: &[HeldAlert<'a>],
    taken: &[bool],
    mutes: &Mutes<'a>,
) -> Result<Vec<MutedAlert<'a>>, AllocError>
    requires mutes { length mutes.now ≡ length alerts.now }
    requires taken { length taken.now ≡ length alerts.now }
    ensures { IfOk result (λ v. map muted v.items
        ≡ chosen_among query.now taken.now mutes.now (enumerate_from 0 alerts.now)) }
{
    let mut chosen = Vec::new(alloc);
    for (place, alert) in alerts.iter().enumerate() {
        if is_chosen(query, taken, mutes, place) {
            chosen.push(muted_at(alloc, alert, mutes, place)?)?;
        }
    }
    Ok(chosen)
}

// Whether the alert at this place is taken and let through.
fn is_chosen(query: &Query, taken: &[bool], mutes: &Mutes<'_>, place: usize) -> bool
    requires mutes { place < length mutes.now }
    requires taken { place < length taken.now }
    ensures { result ≡ is_chosen query.now taken.now mutes.now place }
{
    let is_silenced = mutes.is_silenced(place);
    let is_inhibited = mutes.is_inhibited(place);
    lets_through(query, is_silenced, is_inhibited) && taken[place]
}

// Whether the query lets an alert through that is silenced or not, and inhibited or not.
fn lets_through(query: &Query, is_silenced: bool, is_inhibited: bool) -> bool
    ensures { result ≡ lets_through query.now is_silenced is_inhibited }
{
    (query.active || is_silenced || is_inhibited)
        && (query.silenced || !is_silenced)
        && (query.inhibited || !is_inhibited)
}

// The alert at this place with what mutes it.
fn muted_at<'a>(
    alloc: Global,
    alert: &HeldAlert<'a>,
    mutes: &Mutes<'a>,
    place: usize,
) -> Result<MutedAlert<'a>, AllocError>
    requires { place < length mutes.now }
    ensures { IfOk result (λ m. muted m ≡ (held_alert alert.now, get_or mutes.now place nothing)) }
{
    let silenced_by = mutes.silenced_by(alloc, place)?;
    let inhibited_by = mutes.inhibited_by(alloc, place)?;
    Ok(MutedAlert {
        alert: HeldAlert {
            labels: alert.labels,
            details: alert.details,
        },
        silenced_by: Listed::from_vec(silenced_by),
        inhibited_by: Listed::from_vec(inhibited_by),
    })
}
