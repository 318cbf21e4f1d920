ghost use Rattle.std.specs.Prelude.{◌≡◌, ◌+◌, ◌≤◌, ◌∷◌, [], IfOk, IfErr, IsTrue, SomeIff, IsUtf8, length, map, not};
ghost use Rattle.std.specs.Str.{bytes_eq};
ghost use Rattle.am_labels.specs.Labels.{is_label_name};
ghost use Rattle.am_text.specs.Outcome.{Gives};
ghost use Rattle.am_pattern.specs.Asking.{Asked};
ghost use Rattle.am_pattern.specs.Refused.{IsRefusedRightly};
ghost use Rattle.am_pattern.specs.Taking.{IsPattern};
ghost use Rattle.am_match.specs.Asking.{IsFailureOf};
ghost use Rattle.am_match.specs.Matchers.{is_on_pattern, patterns_of};
ghost use Rattle.am_match.specs.Meaning.{passes, takes_labels, taking_of};

use am_labels::{LabelSet, is_label_name};
use am_pattern::{PatternCache, PatternRefusal};
use am_text::{Failure, Text};
use std::alloc::{AllocError, Global};
use std::marker::Model;

/// How a matcher compares the value of a label.
#[derive(Clone, Copy, PartialEq, Eq)]
pub enum Operator {
    /// `=`: equal to the value.
    Equal,
    /// `!=`: not equal to it.
    NotEqual,
    /// `=~`: taken by the pattern.
    Match,
    /// `!~`: not taken by it.
    NotMatch,
}

impl Operator {
    /// Whether it compares by a pattern.
    pub fn is_on_pattern(self) -> bool
        ensures { result ≡ is_on_pattern self }
    {
        matches!(self, Operator::Match | Operator::NotMatch)
    }
}

/// A condition on one label: its name, an operator and a value.
#[derive(PartialEq, Eq)]
pub struct Matcher {
    operator: Operator,
    name: Text,
    value: Text,
}

// Written out, so that a crate which owns one need not prove anew how its parts are dropped.
impl Drop for Matcher {
    fn drop(self) {
        let Matcher {
            operator: _operator,
            name,
            value,
        } = self;
        drop(name);
        drop(value);
    }
}

impl Model for Matcher {
    ghost use Rattle.std.specs.Prelude.{IsTrue};
    ghost use Rattle.am_labels.specs.Labels.{is_label_name};
    ghost use Rattle.am_match.specs.Matchers.{MatcherText};

    ghost Value = { MatcherText };

    ghost view = { λ m. record { operator = m.operator; name = m.name; value = m.value } };

    ghost invariant = { λ m. IsTrue (is_label_name m.name) };

    ghost inverse = { λ m. record { operator = m.operator; name = m.name; value = m.value } };
}

impl Matcher {
    /// A matcher, where the name is a label name `[a-zA-Z_][a-zA-Z0-9_]*`.
    pub fn new(operator: Operator, name: Text, value: Text) -> Option<Matcher>
        ensures { SomeIff result (IsTrue (is_label_name name)) (record { operator = operator; name = name; value = value }) }
    {
        if is_label_name(name.as_str()) {
            Some(Matcher {
                operator,
                name,
                value,
            })
        } else {
            None
        }
    }

    /// How it compares.
    pub fn operator(&self) -> Operator
        ensures { result ≡ self.now.operator }
    {
        self.operator
    }

    /// The label's name.
    pub fn name(&self) -> &str
        ensures name { result.now ≡ self.now.name }
        ensures label { IsTrue (is_label_name self.now.name) }
    {
        self.name.as_str()
    }

    /// The value that it compares with, or the pattern.
    pub fn value(&self) -> &str
        ensures value { result.now ≡ self.now.value }
        ensures text { IsUtf8 self.now.value }
    {
        self.value.as_str()
    }

    /// Whether the labels meet the condition. A label that is missing has the empty value.
    ///
    /// # Errors
    /// Those of [`PatternCache::answer`] for the pattern, where the operator compares by one.
    pub fn matches(
        &self,
        alloc: Global,
        labels: &LabelSet,
        cache: &mut PatternCache,
    ) -> Result<bool, Failure<PatternRefusal>>
        ensures value { IfOk result (λ taken. taken ≡ takes_labels self.now labels.now) }
        ensures pattern { IfOk result (λ _. IsTrue (is_on_pattern self.now.operator) → IsPattern self.now.value) }
        ensures asked { Asked result cache.old cache.new }
        ensures failure { IfErr result (IsFailureOf self.now cache.old cache.new) }

        // Where no build of this pattern was refused, the answer is the meaning.
        ensures meaning { IsRefusedRightly cache.new.refused self.now.value
            → Gives (λ taken. taken) result (taking_of self.now labels.now) }
    {
        let value = labels.get(self.name());
        match self.operator {
            Operator::Equal => Ok(self.value() == value),
            Operator::NotEqual => Ok(self.value() != value),
            Operator::Match => cache.answer(alloc, self.value(), value),
            Operator::NotMatch => match cache.answer(alloc, self.value(), value) {
                Ok(taken) => Ok(!taken),
                Err(failure) => Err(failure),
            },
        }
    }

    /// For each of the values whether it meets the condition, as a value of the label. Where there are none the pattern
    /// isn't asked for, else once.
    pub fn passes_each(
        &self,
        alloc: Global,
        values: &[&str],
        cache: &mut PatternCache,
    ) -> Result<Vec<bool>, Failure<PatternRefusal>>
        ensures values { IfOk result (λ v. v.items ≡ map (λ value. passes self.now.operator self.now.value value.now) values.now) }
        ensures asked { Asked result cache.old cache.new }
        ensures misses { cache.new.misses ≤ cache.old.misses + length (patterns_of (self.now ∷ [])) }
        ensures failure { IfErr result (IsFailureOf self.now cache.old cache.new) }
    {
        if values.is_empty() {
            return Ok(Vec::new(alloc));
        }
        match self.operator {
            Operator::Equal => Ok(are_equal(alloc, self.value(), values)?),
            Operator::NotEqual => {
                let equal = are_equal(alloc, self.value(), values)?;
                Ok(turned(alloc, &equal)?)
            }
            Operator::Match => cache.answer_each(alloc, self.value(), values),
            Operator::NotMatch => {
                let taken = cache.answer_each(alloc, self.value(), values)?;
                Ok(turned(alloc, &taken)?)
            }
        }
    }

    /// An equal matcher.
    pub fn copy(&self, alloc: Global) -> Result<Matcher, AllocError>
        ensures { IfOk result (λ m. m ≡ self.now) }
    {
        Ok(Matcher {
            operator: self.operator,
            name: self.name.copy(alloc)?,
            value: self.value.copy(alloc)?,
        })
    }
}

// For each of the values whether it is the wanted one.
fn are_equal(alloc: Global, wanted: &str, values: &[&str]) -> Result<Vec<bool>, AllocError>
    ensures { IfOk result (λ v. v.items ≡ map (λ value. bytes_eq wanted.now value.now) values.now) }
{
    values.iter().map(|value| wanted == *value).collect(alloc)
}

// The flags, each turned.
fn turned(alloc: Global, flags: &[bool]) -> Result<Vec<bool>, AllocError>
    ensures { IfOk result (λ v. v.items ≡ map not flags.now) }
{
    flags.iter().map(|flag| !*flag).collect(alloc)
}
