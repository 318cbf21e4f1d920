//! The different ones of many inhibit rules.

ghost use Rattle.std.specs.Prelude.{◌≡◌, IfOk, map, true};
ghost use Rattle.std.specs.List.{Contains};
ghost use Rattle.std.specs.List.Sorted.{IsPermutation};
ghost use Rattle.am_inhibit.specs.Inhibits.{AreWithoutRepeats};

use am_config::Rule;
use am_match::{Matcher, Operator};
use std::alloc::{AllocError, Global};
use std::cmp::Ordering;

/// The rules, of equal ones only one. Those with equal source matchers and equal labels in `equal` stand together.
pub fn different_rules<'a>(alloc: Global, rules: &'a [Rule]) -> Result<Vec<&'a Rule>, AllocError>
    ensures { IfOk result (λ v. AreWithoutRepeats rules.now (map (λ rule. rule.now) v.items)) }
{
    let mut sorted = Vec::with_capacity(alloc, rules.len())?;
    for rule in rules {
        sorted.push(rule)?;
    }
    sorted.sort_by(|one, other| compare(one, other))?;
    without_repeats(alloc, &sorted)
}

/// Whether both have equal source matchers, and equal labels in `equal`.
pub fn shares_sources(one: &Rule, other: &Rule) -> bool
    ensures source { result ≡ true → one.now.source ≡ other.now.source }
    ensures equal { result ≡ true → one.now.equal ≡ other.now.equal }
{
    are_equal(one.source.as_slice(), other.source.as_slice())
        && one.equal.as_slice() == other.equal.as_slice()
}

// The rules, but those that are equal to the one before them.
fn without_repeats<'a>(alloc: Global, rules: &[&'a Rule]) -> Result<Vec<&'a Rule>, AllocError>
    ensures { IfOk result (λ v. AreWithoutRepeats (map (λ rule. rule.now) rules.now) (map (λ rule. rule.now) v.items)) }
{
    let mut different = Vec::new(alloc);
    for rule in rules {
        if !repeats_last(&different, rule) {
            different.push(*rule)?;
        }
    }
    Ok(different)
}

// Whether the rule is equal to the last of these.
fn repeats_last(rules: &[&Rule], rule: &Rule) -> bool
    ensures { result ≡ true → Contains (map (λ rule. rule.now) rules.now) rule.now }
{
    match rules.last() {
        Some(last) => {
            shares_sources(last, rule) && are_equal(last.target.as_slice(), rule.target.as_slice())
        }
        None => false,
    }
}

// Whether these are equal matchers, one by one.
fn are_equal(one: &[Matcher], other: &[Matcher]) -> bool
    ensures { result ≡ true → one.now ≡ other.now }
{
    if one.len() != other.len() {
        return false;
    }
    for (place, matcher) in one.iter().enumerate() {
        if !is_equal(matcher, &other[place]) {
            return false;
        }
    }
    true
}

// Whether it is an equal matcher.
fn is_equal(one: &Matcher, other: &Matcher) -> bool
    ensures { result ≡ true → one.now ≡ other.now }
{
    one.operator() == other.operator() && one.name() == other.name() && one.value() == other.value()
}

// The order in which equal ones stand together, and those with equal sources.
fn compare(one: &Rule, other: &Rule) -> Ordering {
    compare_all(one.source.as_slice(), other.source.as_slice())
        .then(one.equal.as_slice().cmp(other.equal.as_slice()))
        .then(compare_all(one.target.as_slice(), other.target.as_slice()))
}

// The order of lists of matchers: the first that differs decides, and else which list is shorter.
fn compare_all(one: &[Matcher], other: &[Matcher]) -> Ordering {
    for (first, second) in one.iter().zip(other.iter()) {
        let order = compare_matchers(first, second);
        if order.is_ne() {
            return order;
        }
    }
    one.len().cmp(&other.len())
}

// That of matchers: by name, then by operator, then by value.
fn compare_matchers(one: &Matcher, other: &Matcher) -> Ordering {
    one.name()
        .cmp(other.name())
        .then(number_of(one.operator()).cmp(&number_of(other.operator())))
        .then(one.value().cmp(other.value()))
}

// A number for each operator.
fn number_of(operator: Operator) -> u8 {
    match operator {
        Operator::Equal => 0,
        Operator::NotEqual => 1,
        Operator::Match => 2,
        Operator::NotMatch => 3,
    }
}
