//! Alerts that came.

ghost use Rattle.std.specs.Prelude.{◌≡◌, ◌⊎◌, ◌<◌, ℕ, List, [], ◌∷◌, false, true, length, IfErr, IfOk, OnOk};
ghost use Rattle.std.specs.Prelude.{option_map, if◌then◌else◌};
ghost use Rattle.std.specs.List.{list_any};
ghost use Rattle.std.specs.List.Sorted.{IsStrictlySortedBy};
ghost use Rattle.std.specs.Map.{keys_of};
ghost use Rattle.am_agenda.specs.Plan.{with_alerts};
ghost use Rattle.am_agenda.specs.Planned.{plan_of};
ghost use Rattle.am_labels.specs.Labels.{labels_cmp};
ghost use Rattle.am_match.specs.Matchers.{patterns_of};
ghost use Rattle.am_members.specs.Grouped.{put_all};
ghost use Rattle.am_muting.specs.Failing.{HasUnanswered};
ghost use Rattle.am_notifier.specs.Following.{FailsFollowing, IsPlannedBy, all_sooner, follows, is_known, is_new_known};
ghost use Rattle.am_notifier.specs.Following.{paces_at, positioned, planned_by, sinces_in, unknown_of, with_met};
ghost use Rattle.am_notifier.specs.Notifies.{Makes, notifies_of};
ghost use Rattle.am_notifier.specs.Positions.{number_of};
ghost use Rattle.am_pattern.specs.Asking.{Asked};
ghost use Rattle.am_planning.specs.Planning.{planned_alerts};
ghost use Rattle.am_route.specs.Asked.{route_matchers};
ghost use Rattle.am_tenant.specs.Names.{same};
ghost use Rattle.am_text.specs.Outcome.{ForRefused};

use crate::notifier::Notifier;
use crate::position::Position;
use am_agenda::Agenda;
use am_config::Config;
use am_context::Came;
use am_labels::LabelSet;
use am_members::{Known, copy_groups};
use am_pattern::{PatternCache, PatternRefusal};
use am_planning::{Pace, paces_of, plan_alerts};
use am_tenant::TenantName;
use am_text::{Failure, Listed, Moment};
use std::alloc::{AllocError, Global};

impl Notifier {
    /// Follows what came of a tenant at a moment, by the configuration that is in use then. An alert whose label set is
    /// known
    /// keeps its groups, and the least moment at which it came; only where the configuration is new, all that is
    /// planned is
    /// planned anew.
    ///
    /// # Errors
    /// Where there are alerts to plan and a pattern of the routes gives no answer; or out of memory.
    pub fn follow(
        &mut self,
        alloc: Global,
        tenant: &TenantName,
        moment: Moment,
        came: Came,
        config: &Config,
        cache: &mut PatternCache,
    ) -> Result<(), Failure<PatternRefusal>>
        requires rising { IsStrictlySortedBy labels_cmp
            (keys_of (notifies_of tenant.now self.old).plan.grouped.alerts) }
        requires new { is_new_known came.sets.items (notifies_of tenant.now self.old).plan.grouped.alerts ≡ false }
        requires planned { came.is_configured ≡ false →
            IsPlannedBy config.now (notifies_of tenant.now self.old).position (notifies_of tenant.now self.old).plan }
        ensures plans { OnOk result (Makes tenant.now
            (follows config.now moment (keys_of came.sets.items)) self.old self.new) }
        ensures asked { Asked result cache.old cache.new }
        ensures failure { IfErr result (λ failure. ForRefused failure (λ refusal.
            FailsFollowing cache.new.refused config.now moment came.is_configured (keys_of came.sets.items)
            (notifies_of tenant.now self.old).plan)) }
    {
        let Came {
            sets,
            is_configured,
        } = came;
        let agenda = &mut self.agenda;
        meet(alloc, agenda, tenant, moment, sets, config, cache)?;
        if is_configured {
            let position = self.positions.of(tenant);
            plan_all(alloc, agenda, tenant, config, position, cache)
        } else {
            Ok(())
        }
    }

    /// Has the groups of a tenant wait by the position of the instance among the tenant's replicas from now on; without
    /// one, none of them is flushed. All that is planned is planned anew, by the configuration that is in use.
    ///
    /// # Errors
    /// Where there are alerts and a pattern of the routes gives no answer; or out of memory.
    pub fn set_position(
        &mut self,
        alloc: Global,
        tenant: &TenantName,
        position: Option<Position>,
        config: &Config,
        cache: &mut PatternCache,
    ) -> Result<(), Failure<PatternRefusal>>
        ensures plans { OnOk result
            (Makes tenant.now (positioned config.now (option_map number_of position)) self.old self.new) }
        ensures asked { Asked result cache.old cache.new }
        ensures failure { IfErr result (λ failure. ForRefused failure (λ refusal.
            (0 < length (notifies_of tenant.now self.old).plan.grouped.alerts)
            × HasUnanswered cache.new.refused (patterns_of (route_matchers config.now.routes)))) }
    {
        plan_all(alloc, &mut self.agenda, tenant, config, position, cache)?;
        self.positions.set(tenant, position)?;
        Ok(())
    }
}

// Alerts of these label sets came at a moment: those that aren't known are planned by the configuration, each pattern
// of it asked
// once for all of them.
fn meet(
    alloc: Global,
    agenda: &mut Agenda,
    tenant: &TenantName,
    moment: Moment,
    came: Vec<(LabelSet, bool)>,
    config: &Config,
    cache: &mut PatternCache,
) -> Result<(), Failure<PatternRefusal>>
    requires rising { IsStrictlySortedBy labels_cmp (keys_of (plan_of tenant.now agenda.old).grouped.alerts) }
    requires new { is_new_known came.items (plan_of tenant.now agenda.old).grouped.alerts ≡ false }
    ensures plans { OnOk result ((t : List ℕ) → plan_of t agenda.new ≡
        (if same t tenant.now then with_met config.now moment (keys_of came.items) (plan_of t agenda.old) else plan_of t agenda.old)) }
    ensures asked { Asked result cache.old cache.new }
    ensures failure { IfErr result (λ failure. ForRefused failure
        (λ refusal. (0 < length (unknown_of moment (keys_of came.items) (plan_of tenant.now agenda.old).grouped.alerts))
        × HasUnanswered cache.new.refused (patterns_of (route_matchers config.now.routes)))) }
{
    let unknown = meet_known(alloc, agenda, tenant, moment, came)?;
    plan_new(alloc, agenda, tenant, config, unknown, cache)
}

// Of these label sets whose alerts came at a moment, gives those that aren't known; the alerts of the others are held
// since then
// at the latest. One that is new isn't looked up.
fn meet_known(
    alloc: Global,
    agenda: &mut Agenda,
    tenant: &TenantName,
    moment: Moment,
    came: Vec<(LabelSet, bool)>,
) -> Result<Vec<(LabelSet, Moment)>, AllocError>
    requires rising { IsStrictlySortedBy labels_cmp (keys_of (plan_of tenant.now agenda.old).grouped.alerts) }
    requires new { is_new_known came.items (plan_of tenant.now agenda.old).grouped.alerts ≡ false }
    ensures plans { OnOk result ((t : List ℕ) → plan_of t agenda.new ≡ (if same t tenant.now
        then with_alerts (all_sooner moment (keys_of came.items) (plan_of t agenda.old).grouped.alerts) (plan_of t agenda.old)
        else plan_of t agenda.old)) }
    ensures unknown { IfOk result (λ v. v.items
        ≡ unknown_of moment (keys_of came.items) (plan_of tenant.now agenda.old).grouped.alerts) }
{
    let mut unknown = Vec::new(alloc);
    for (labels, is_new) in came {
        if is_new || !meet_one(alloc, agenda, tenant, moment, &labels)? {
            unknown.push((labels, moment))?;
        }
    }
    Ok(unknown)
}

// An alert came at a moment: where it is known, it is held since then at the latest. `false` where it isn't known.
fn meet_one(
    alloc: Global,
    agenda: &mut Agenda,
    tenant: &TenantName,
    moment: Moment,
    labels: &LabelSet,
) -> Result<bool, AllocError>
    requires rising { IsStrictlySortedBy labels_cmp (keys_of (plan_of tenant.now agenda.old).grouped.alerts) }
    ensures plans { OnOk result ((t : List ℕ) → plan_of t agenda.new ≡ (if same t tenant.now
        then with_alerts (all_sooner moment (labels.now ∷ []) (plan_of t agenda.old).grouped.alerts) (plan_of t agenda.old)
        else plan_of t agenda.old)) }
    ensures known { IfOk result (λ known. known ≡ is_known labels.now (plan_of tenant.now agenda.old).grouped.alerts) }
{
    let Some(known) = agenda.known(tenant, labels) else {
        return Ok(false);
    };
    if moment < known.since {
        let groups = copy_groups(alloc, known.groups.as_slice())?;
        let known = Known {
            since: moment,
            groups,
        };
        agenda.put(alloc, tenant, labels, known)?;
    }
    Ok(true)
}

// Alerts in their groups by the configuration. Where there are none, no pattern is asked.
fn plan_known(
    alloc: Global,
    config: &Config,
    alerts: Vec<(LabelSet, Moment)>,
    cache: &mut PatternCache,
) -> Result<Vec<(LabelSet, Known)>, Failure<PatternRefusal>>
    ensures planned { IfOk result (λ v. v.items ≡ planned_alerts config.now alerts.items) }
    ensures asked { Asked result cache.old cache.new }
    ensures failure { IfErr result (λ failure. ForRefused failure
        (λ refusal. (0 < length alerts.items) × HasUnanswered cache.new.refused
        (patterns_of (route_matchers config.now.routes)))) }
{
    if alerts.is_empty() {
        return Ok(Vec::new(alloc));
    }
    plan_alerts(alloc, config, alerts, cache)
}

// Puts alerts that aren't known, in their groups by the configuration.
fn plan_new(
    alloc: Global,
    agenda: &mut Agenda,
    tenant: &TenantName,
    config: &Config,
    unknown: Vec<(LabelSet, Moment)>,
    cache: &mut PatternCache,
) -> Result<(), Failure<PatternRefusal>>
    requires { list_any (λ a. is_known a.0 (plan_of tenant.now agenda.old).grouped.alerts) unknown.items ≡ false }
    ensures plans { OnOk result ((t : List ℕ) → plan_of t agenda.new ≡ (if same t tenant.now
        then with_alerts (put_all (planned_alerts config.now unknown.items) (plan_of t agenda.old).grouped.alerts) (plan_of t agenda.old)
        else plan_of t agenda.old)) }
    ensures asked { Asked result cache.old cache.new }
    ensures failure { IfErr result (λ failure. ForRefused failure
        (λ refusal. (0 < length unknown.items)
        × HasUnanswered cache.new.refused (patterns_of (route_matchers config.now.routes)))) }
{
    let planned = plan_known(alloc, config, unknown, cache)?;
    for (labels, known) in planned {
        agenda.put(alloc, tenant, &labels, known)?;
    }
    Ok(())
}

// Plans all alerts of a tenant anew, by the configuration and a position.
fn plan_all(
    alloc: Global,
    agenda: &mut Agenda,
    tenant: &TenantName,
    config: &Config,
    position: Option<Position>,
    cache: &mut PatternCache,
) -> Result<(), Failure<PatternRefusal>>
    ensures plans { OnOk result ((t : List ℕ) → plan_of t agenda.new ≡ (if same t tenant.now
        then planned_by config.now (option_map number_of position) (sinces_in (plan_of t agenda.old)) (plan_of t agenda.old)
        else plan_of t agenda.old)) }
    ensures asked { Asked result cache.old cache.new }
    ensures failure { IfErr result (λ failure. ForRefused failure
        (λ refusal. (0 < length (plan_of tenant.now agenda.old).grouped.alerts)
        × HasUnanswered cache.new.refused (patterns_of (route_matchers config.now.routes)))) }
{
    let sinces = agenda.sinces(alloc, tenant)?;
    let paces = paces_at(alloc, config, position)?;
    let planned = plan_known(alloc, config, sinces, cache)?;
    agenda.rebuild(alloc, tenant, paces, planned)?;
    Ok(())
}

// How the groups of each route wait at a position.
fn paces_at(
    alloc: Global,
    config: &Config,
    position: Option<Position>,
) -> Result<Listed<Pace>, AllocError>
    ensures { IfOk result (λ paces. paces ≡ paces_at config.now (option_map number_of position)) }
{
    match position {
        Some(position) => paces_of(alloc, config, position.number()),
        None => Ok(Listed::from_vec(Vec::new(alloc))),
    }
}
