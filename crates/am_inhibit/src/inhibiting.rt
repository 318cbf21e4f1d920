//! Which firing alerts inhibit others, by a configuration.

ghost use Rattle.std.specs.Prelude.{◌≡◌, ◌+◌, ◌++◌, ℕ, ◌<◌, ◌≤◌, [], List, All, IfErr, IfOk, get_or, length, map};
ghost use Rattle.am_labels.specs.declared.Label.{Label};
ghost use Rattle.am_pattern.specs.Asking.{Asked};
ghost use Rattle.am_match.specs.Asking.{IsFailureAmong};
ghost use Rattle.am_match.specs.Checking.{AreRefusedRightly};
ghost use Rattle.am_match.specs.Matchers.{patterns_of};
ghost use Rattle.am_config.specs.declared.parts.Rule.{Rule};
ghost use Rattle.am_inhibit.specs.Inhibits.{inhibitor_places, inhibitors, rule_matchers};

use crate::flags::first_set;
use crate::inhibited::Inhibited;
use crate::rules::links_of;
use am_config::Config;
use am_labels::LabelSet;
use am_pattern::{PatternCache, PatternRefusal};
use am_text::Failure;
use std::alloc::{AllocError, Global};

/// The label sets of the firing alerts that inhibit an alert with this one, in their order, each once.
///
/// A firing alert inhibits another where it takes a rule's source matchers and the other the target matchers, and both
/// have equal values of all labels in `equal`, where a missing one has the empty value. But an alert that takes both
/// sides isn't inhibited by one that takes both, so none inhibits itself.
///
/// # Errors
///
/// Those of [`am_match::Matcher::matches`] for a matcher of the inhibit rules.
pub fn inhibitors<'a>(
    alloc: Global,
    config: &Config,
    firing: &[&'a LabelSet],
    target: &'a LabelSet,
    cache: &mut PatternCache,
) -> Result<Vec<&'a LabelSet>, Failure<PatternRefusal>>
    ensures inhibitors { IfOk result (λ v. map (λ set. set.now) v.items
        ≡ inhibitors config.now.rules (map (λ set. set.now) firing.now) target.now) }
    ensures asked { Asked result cache.old cache.new }
    ensures misses { cache.new.misses ≤ cache.old.misses + length (patterns_of (rule_matchers config.now.rules)) }
    ensures failure { IfErr result (IsFailureAmong (rule_matchers config.now.rules) cache.old cache.new) }

    // Where no build of a pattern of the rules was refused, nothing but memory can fail.
    ensures meaning { AreRefusedRightly cache.new.refused (patterns_of (rule_matchers config.now.rules))
        → IfErr result (λ failure. failure ≡ Failure.OutOfMemory) }
{
    let inhibited = inhibitors_of_each(alloc, config, firing, &[target], cache)?;
    let places = inhibited.places_of(alloc, firing.len())?;
    let sets = sets_at(alloc, firing, &places)?;
    Ok(sets)
}

/// Which of the firing alerts inhibit each of them and each of some others, which come behind them: their places among
/// the firing ones, as [`inhibitors`] says.
///
/// All matchers of the inhibit rules are asked, each once for all label sets. So no more patterns are built in the call
/// than the rules have, however few the cache keeps. Equal rules are asked once. For all rules with equal source matchers
/// and equal labels in `equal` the firing alerts that take the source are listed by their values of these labels once, and
/// an alert that takes one of the targets has the list of its values: n alerts cost n log n comparisons of those values,
/// however many inhibit one another. Only for alerts that take both sides each of these rules lists its own.
///
/// # Errors
///
/// Those of [`am_match::Matcher::matches`] for a matcher of the inhibit rules.
pub fn inhibitors_of_each<'a>(
    alloc: Global,
    config: &Config,
    firing: &[&'a LabelSet],
    others: &[&'a LabelSet],
    cache: &mut PatternCache,
) -> Result<Inhibited, Failure<PatternRefusal>>
    ensures inhibitors { IfOk result (λ each. each
        ≡ map (λ target. inhibitor_places config.now.rules (map (λ set. set.now) firing.now) target.now) (firing.now ++ others.now)) }
    ensures places { IfOk result (λ each. All (λ places. All (λ place. place < length firing.now) places) each) }
    ensures asked { Asked result cache.old cache.new }
    ensures misses { cache.new.misses ≤ cache.old.misses + length (patterns_of (rule_matchers config.now.rules)) }
    ensures failure { IfErr result (IsFailureAmong (rule_matchers config.now.rules) cache.old cache.new) }

    // Where no build of a pattern of the rules was refused, nothing but memory can fail.
    ensures meaning { AreRefusedRightly cache.new.refused (patterns_of (rule_matchers config.now.rules))
        → IfErr result (λ failure. failure ≡ Failure.OutOfMemory) }
{
    let sets = joined(alloc, firing, others)?;
    let fires = first_set(alloc, firing.len(), others.len())?;
    let links = links_of(alloc, config.rules(), &sets, &fires, cache)?;
    Ok(Inhibited::new(firing.len(), links))
}

/// The label sets at these places, in their order.
pub fn sets_at<'a>(
    alloc: Global,
    sets: &[&'a LabelSet],
    places: &[usize],
) -> Result<Vec<&'a LabelSet>, AllocError>
    requires { All (λ place. place < length sets.now) places.now }
    ensures sets { IfOk result (λ v. map (λ set. set.now) v.items ≡ map (λ place. get_or (map (λ set. set.now) sets.now) place []) places.now) }

    // At the places that a list of inhibited alerts has, they are the inhibitors.
    ensures inhibitors { IfOk result (λ v. (rules : List Rule) (target : List Label)
        → places.now ≡ inhibitor_places rules (map (λ set. set.now) sets.now) target
        → map (λ set. set.now) v.items ≡ inhibitors rules (map (λ set. set.now) sets.now) target) }
{
    let mut chosen = Vec::with_capacity(alloc, places.len())?;
    for place in places {
        chosen.push(sets[*place])?;
    }
    Ok(chosen)
}

// The one label sets, and behind them the others.
fn joined<'a>(
    alloc: Global,
    one: &[&'a LabelSet],
    others: &[&'a LabelSet],
) -> Result<Vec<&'a LabelSet>, AllocError>
    ensures { IfOk result (λ v. v.items ≡ one.now ++ others.now) }
{
    let mut joined = Vec::from_slice(alloc, one)?;
    joined.extend_from_slice(others)?;
    Ok(joined)
}
