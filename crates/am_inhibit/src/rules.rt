//! Inhibit rules, asked of many label sets.

ghost use Rattle.std.specs.Prelude.{◌≡◌, ◌+◌, ◌++◌, ℕ, ◌<◌, ◌≤◌, [], false, true, All, IfErr, IfOk, OnOk};
ghost use Rattle.std.specs.Prelude.{get_or, length, map};
ghost use Rattle.am_pattern.specs.Asking.{Asked};
ghost use Rattle.am_match.specs.Asking.{IsFailureAmong};
ghost use Rattle.am_match.specs.Matchers.{patterns_of};
ghost use Rattle.am_match.specs.Meaning.{all_take};
ghost use Rattle.am_inhibit.specs.Inhibits.{AreInhibitors, rule_matchers};
ghost use Rattle.am_inhibit.specs.Links.{AreAllPlaces, lists_of};
ghost use Rattle.am_inhibit.specs.Sides.{AreLinkedAlone, AreLinkedBoth, sides_in};
ghost use Rattle.am_config.specs.declared.parts.Rule.{Rule};

use crate::different::{different_rules, shares_sources};
use crate::flags::{both, join, without};
use crate::links::link;
use am_config::Rule;
use am_labels::LabelSet;
use am_match::Matcher;
use am_pattern::{PatternCache, PatternRefusal};
use am_table::taken_by_each;
use am_text::{Failure, Text};
use std::alloc::{AllocError, Global};
use std::rc::RcSlice;

/// For each of the label sets, lists of the places of those that fire and inhibit it by one of the rules.
///
/// Equal rules are asked once. Those with equal sources and equal labels in `equal` give one list to the alerts that
/// take one of their targets alone, however many of these rules there are.
///
/// # Errors
///
/// Those of [`am_match::Matcher::matches`] for a matcher of the rules.
pub fn links_of(
    alloc: Global,
    rules: &[Rule],
    sets: &[&LabelSet],
    fires: &[bool],
    cache: &mut PatternCache,
) -> Result<Vec<Vec<RcSlice<usize>>>, Failure<PatternRefusal>>
    requires each { length fires.now ≡ length sets.now }
    ensures links { IfOk result (λ v. length v.items ≡ length sets.now) }
    ensures inhibitors { IfOk result (λ v.
        AreInhibitors rules.now (map (λ set. set.now) sets.now) fires.now (lists_of v.items)) }
    ensures places { (count : ℕ) → ((place : ℕ) → get_or fires.now place false ≡ true → place < count)
        → IfOk result (λ v. AreAllPlaces count (lists_of v.items)) }
    ensures asked { Asked result cache.old cache.new }
    ensures misses { cache.new.misses ≤ cache.old.misses + length (patterns_of (rule_matchers rules.now)) }
    ensures failure { IfErr result (IsFailureAmong (rule_matchers rules.now) cache.old cache.new) }
{
    let different = different_rules(alloc, rules)?;
    let lists = sides_of(alloc, &different)?;
    let table = taken_by_each(alloc, &lists, sets, cache)?;
    let links = linked_by(alloc, &different, &table, sets, fires)?;
    Ok(links)
}

// The matchers of both sides of each of the rules, the source before the target.
fn sides_of<'a>(alloc: Global, rules: &[&'a Rule]) -> Result<Vec<&'a [Matcher]>, AllocError>
    ensures { IfOk result (λ v. map (λ list. list.now) v.items ≡ sides_in (map (λ rule. rule.now) rules.now)) }
{
    let mut lists = Vec::new(alloc);
    for rule in rules {
        lists.push(rule.source.as_slice())?;
        lists.push(rule.target.as_slice())?;
    }
    Ok(lists)
}

// The lists of those that fire and inhibit a label set by one of the rules, where the table tells of each side which
// label sets it takes. Targets wait for their list until the next rule has other sources: all of them then get the same.
fn linked_by(
    alloc: Global,
    rules: &[&Rule],
    table: &[Vec<bool>],
    sets: &[&LabelSet],
    fires: &[bool],
) -> Result<Vec<Vec<RcSlice<usize>>>, AllocError>
    requires each { length fires.now ≡ length sets.now }
    requires table { map (λ row. row.items) table.now
        ≡ map (λ ms. map (λ set. all_take ms set.now) sets.now) (sides_in (map (λ rule. rule.now) rules.now)) }
    ensures links { IfOk result (λ v. length v.items ≡ length sets.now) }
    ensures inhibitors { IfOk result (λ v.
        AreInhibitors (map (λ rule. rule.now) rules.now) (map (λ set. set.now) sets.now) fires.now (lists_of v.items)) }
    ensures places { (count : ℕ) → ((place : ℕ) → get_or fires.now place false ≡ true → place < count)
        → IfOk result (λ v. AreAllPlaces count (lists_of v.items)) }
{
    let mut links = no_links(alloc, sets.len())?;
    let mut waiting = vec![in alloc; false; sets.len()]?;
    for (number, rule) in rules.iter().enumerate() {
        let sources = table[2 * number].as_slice();
        let targets = table[2 * number + 1].as_slice();
        let names = rule.equal.as_slice();
        link_both(alloc, names, sources, targets, sets, fires, &mut links)?;
        join(targets, &mut waiting);
        if !is_continued(rules, number) {
            link_alone(alloc, names, sources, &waiting, sets, fires, &mut links)?;
            waiting = vec![in alloc; false; sets.len()]?;
        }
    }
    Ok(links)
}

// Whether the next rule has equal sources and equal labels in `equal`.
fn is_continued(rules: &[&Rule], number: usize) -> bool
    requires { number < length rules.now }
    ensures next { result ≡ true → number + 1 < length rules.now }
    ensures shared { result ≡ true → (rule next : Rule)
        → rule ≡ get_or (map (λ rule. rule.now) rules.now) number rule
        → next ≡ get_or (map (λ rule. rule.now) rules.now) (number + 1) next
        → (rule.source ≡ next.source) × (rule.equal ≡ next.equal) }
{
    match rules.get(number.saturating_add(1)) {
        Some(next) => shares_sources(rules[number], next),
        None => false,
    }
}

// So many alerts that nothing inhibits.
fn no_links(alloc: Global, count: usize) -> Result<Vec<Vec<RcSlice<usize>>>, AllocError>
    ensures count { IfOk result (λ v. length v.items ≡ count) }
    ensures none { IfOk result (λ v. All (λ lists. lists ≡ []) (lists_of v.items)) }
{
    let mut links = Vec::with_capacity(alloc, count)?;
    for _ in 0..count {
        links.push(Vec::new(alloc))?;
    }
    Ok(links)
}

// Adds what inhibits the targets that take the target alone, by these names and these flags of what the sides take: all
// sources that are like them.
fn link_alone(
    alloc: Global,
    names: &[Text],
    sources: &[bool],
    targets: &[bool],
    sets: &[&LabelSet],
    fires: &[bool],
    links: &mut Vec<Vec<RcSlice<usize>>>,
) -> Result<(), AllocError>
    requires sources { length sources.now ≡ length sets.now }
    requires targets { length targets.now ≡ length sets.now }
    requires fires { length fires.now ≡ length sets.now }
    requires links { length links.now.items ≡ length sets.now }
    ensures links { OnOk result (length links.new.items ≡ length sets.now) }
    ensures linked { OnOk result (AreLinkedAlone names.now (map (λ set. set.now) sets.now) sources.now targets.now
        fires.now (lists_of links.old.items) (lists_of links.new.items)) }
    ensures places { (count : ℕ) → ((place : ℕ) → get_or fires.now place false ≡ true → place < count)
        → AreAllPlaces count (lists_of links.old.items) → OnOk result (AreAllPlaces count (lists_of links.new.items)) }
{
    let firing = both(alloc, sources, fires)?;
    let target_alone = without(alloc, targets, sources)?;
    link(alloc, names, sets, &firing, &target_alone, links)?;
    Ok(())
}

// Adds what inhibits those that take both sides: the sources that are like them and take the source alone.
fn link_both(
    alloc: Global,
    names: &[Text],
    sources: &[bool],
    targets: &[bool],
    sets: &[&LabelSet],
    fires: &[bool],
    links: &mut Vec<Vec<RcSlice<usize>>>,
) -> Result<(), AllocError>
    requires sources { length sources.now ≡ length sets.now }
    requires targets { length targets.now ≡ length sets.now }
    requires fires { length fires.now ≡ length sets.now }
    requires links { length links.now.items ≡ length sets.now }
    ensures links { OnOk result (length links.new.items ≡ length sets.now) }
    ensures linked { OnOk result (AreLinkedBoth names.now (map (λ set. set.now) sets.now) sources.now targets.now
        fires.now (lists_of links.old.items) (lists_of links.new.items)) }
    ensures places { (count : ℕ) → ((place : ℕ) → get_or fires.now place false ≡ true → place < count)
        → AreAllPlaces count (lists_of links.old.items) → OnOk result (AreAllPlaces count (lists_of links.new.items)) }
{
    let firing = both(alloc, sources, fires)?;
    let source_alone = without(alloc, &firing, targets)?;
    let both_sides = both(alloc, targets, sources)?;
    link(alloc, names, sets, &source_alone, &both_sides, links)?;
    Ok(())
}
