//! The values of a label in many label sets, and matchers that are asked of them.

ghost use Rattle.std.specs.Prelude.{◌≡◌, ◌+◌, ◌<◌, ◌≤◌, ◌∷◌, [], All, IfErr, IfOk, IsSomeAnd, OnOk, Some, length, map};
ghost use Rattle.std.specs.Prelude.{true, false};
ghost use Rattle.std.specs.List.{list_any};
ghost use Rattle.am_column.specs.Alike.{AreAlike};
ghost use Rattle.am_pattern.specs.Asking.{Asked};
ghost use Rattle.am_match.specs.Asking.{IsFailureOf};
ghost use Rattle.am_match.specs.Matchers.{is_on_pattern, patterns_of};
ghost use Rattle.am_match.specs.Meaning.{passes};
ghost use Rattle.am_table.specs.Narrowing.{narrowed_by};
ghost use Rattle.am_table.specs.Columns.{IsAnswered, IsIndexOf, IsIndexed, IsNarrowedBy};
ghost use Rattle.am_table.specs.Columns.{places_with, shown_in, values_in};
ghost use Rattle.am_table.specs.Holders.{IsWhole, held_at};

use crate::asking::narrow;
use crate::holders::Held;
use am_column::{
    Places, alike_by, clear, firsts_of, flags_at, found_at, has_set, keep, left_by, meet, places_by,
};
use am_match::{Matcher, Operator};
use am_pattern::{PatternCache, PatternRefusal};
use am_text::Failure;
use std::alloc::{AllocError, Global};

/// The values of a label in many label sets.
#[derive(Drop)]
pub struct Column<'n, 'h, 'a> {
    /// The label's name.
    pub name: &'n str,
    /// The places of the label sets that have it.
    pub places: &'h [usize],
    /// The empty value, which all others have, and behind it the value of each of them.
    pub values: &'h [&'a str],
    /// Where equal values stand. It costs as much as some questions, so it is made for many alone.
    pub index: Option<Index<'a>>,
}

/// Where equal values of a column stand.
#[derive(Drop)]
pub struct Index<'a> {
    /// For each of the values the place of the first that is equal.
    pub alike: Vec<usize>,
    /// The label sets that have each value.
    pub places: Places<'a>,
}

impl<'n, 'h, 'a> Column<'n, 'h, 'a> {
    /// The column of the label of this name, which is among those held, indexed where it is asked often.
    pub fn of(
        alloc: Global,
        name: &'n str,
        held: &'h Held<'_, 'a>,
        is_asked_often: bool,
    ) -> Result<Column<'n, 'h, 'a>, AllocError>
        requires { IsSomeAnd (held_at held.now name.now) IsWhole }
        ensures name { IfOk result (λ column. column.name.now ≡ name.now) }
        ensures holders { IfOk result (λ column. held_at held.now name.now ≡ Some (shown_in column)) }
        ensures indexed { IfOk result IsIndexed }
    {
        let Some(holders) = held.get(name) else {
            unreachable!();
        };
        let places = holders.places.as_slice();
        let values = holders.values.as_slice();
        let index = if is_asked_often {
            Some(Index::of(alloc, places, values)?)
        } else {
            None
        };
        Ok(Column {
            name,
            places,
            values,
            index,
        })
    }
}

impl<'a> Index<'a> {
    // Where equal ones of these values stand, of which all but the first are those of the label sets at these places.
    fn of(alloc: Global, places: &[usize], values: &[&'a str]) -> Result<Index<'a>, AllocError>
        requires { length values.now ≡ length places.now + 1 }
        ensures { IfOk result (IsIndexOf places.now (map (λ value. value.now) values.now)) }
    {
        let alike = alike_by(alloc, values)?;
        let places = places_by(alloc, places, &values[1..])?;
        Ok(Index { alike, places })
    }

    // The places of the label sets with this value; for the empty one, of all those that have the label.
    fn places_with<'p>(&'p self, holders: &'p [usize], value: &str) -> &'p [usize]
        ensures { result.now ≡ places_with self.now.places holders.now value.now }
    {
        if value.is_empty() {
            holders
        } else {
            found_at(&self.places, value)
        }
    }
}

/// A matcher that was asked of all values of a column, and which of them it takes.
#[derive(Drop)]
pub struct Answered<'a> {
    /// The matcher.
    pub matcher: &'a Matcher,
    /// A flag for each value.
    pub row: Vec<bool>,
}

impl Answered<'_> {
    // Whether this other matcher takes the same values.
    fn serves(&self, other: &Matcher) -> bool
        ensures operator { result ≡ true → self.now.matcher.now.operator ≡ other.now.operator }
        ensures value { result ≡ true → self.now.matcher.now.value ≡ other.now.value }
    {
        self.matcher.operator() == other.operator() && self.matcher.value() == other.value()
    }
}

/// Takes away the flags of the label sets that the matcher doesn't take.
///
/// A matcher that recurs is asked of all values, and its answers serve the next one, which is equal.
///
/// # Errors
/// Those of [`Matcher::matches`].
pub fn ask<'a>(
    alloc: Global,
    matcher: &'a Matcher,
    column: &Column<'_, '_, '_>,
    recurs: bool,
    last: &mut Option<Answered<'a>>,
    taken: &mut Vec<bool>,
    cache: &mut PatternCache,
) -> Result<(), Failure<PatternRefusal>>
    requires indexed { IsIndexed column.now }
    requires last { IsAnswered (values_in column.now) last.now }
    requires within { All (λ place. place < length taken.now.items) column.now.places.now }
    requires each { length column.now.values.now ≡ length column.now.places.now + 1 }
    ensures taken { OnOk result (IsNarrowedBy matcher.now column.now taken.old.items taken.new.items) }
    ensures asked { Asked result cache.old cache.new }
    ensures misses { cache.new.misses ≤ cache.old.misses + length (patterns_of (matcher.now ∷ [])) }
    ensures failure { IfErr result (IsFailureOf matcher.now cache.old cache.new) }
    ensures last { IsAnswered (values_in column.now) last.new }
{
    if matcher.operator().is_on_pattern() {
        return ask_pattern(alloc, matcher, column, recurs, last, taken, cache);
    }
    match &column.index {
        Some(index) => ask_index(alloc, matcher, column, index, taken)?,
        None => ask_flagged(alloc, matcher, column, taken, cache)?,
    }
    Ok(())
}

// The same of a matcher on a value, by an index: only the label sets with that value are gone over, or for the empty
// value those with any other.
fn ask_index(
    alloc: Global,
    matcher: &Matcher,
    column: &Column<'_, '_, '_>,
    index: &Index<'_>,
    taken: &mut Vec<bool>,
) -> Result<(), AllocError>
    requires value { is_on_pattern matcher.now.operator ≡ false }
    requires index { IsIndexOf column.now.places.now (values_in column.now) index.now }
    requires within { All (λ place. place < length taken.now.items) column.now.places.now }
    ensures taken { OnOk result (IsNarrowedBy matcher.now column.now taken.old.items taken.new.items) }
{
    let places = index.places_with(column.places, matcher.value());
    if takes_missing(matcher) {
        clear(places, taken);
    } else {
        let left = keep(alloc, places, taken)?;
        *taken = left;
    }
    Ok(())
}

// Whether the matcher, which is on a value, takes the label sets without its label.
fn takes_missing(matcher: &Matcher) -> bool
    requires { is_on_pattern matcher.now.operator ≡ false }
    ensures { result ≡ passes matcher.now.operator matcher.now.value [] }
{
    let is_empty = matcher.value().is_empty();
    match matcher.operator() {
        Operator::Equal => is_empty,
        Operator::NotEqual => !is_empty,
        Operator::Match | Operator::NotMatch => unreachable!(),
    }
}

// The same of a matcher on a pattern, which isn't asked for where no flag is set.
fn ask_pattern<'a>(
    alloc: Global,
    matcher: &'a Matcher,
    column: &Column<'_, '_, '_>,
    recurs: bool,
    last: &mut Option<Answered<'a>>,
    taken: &mut Vec<bool>,
    cache: &mut PatternCache,
) -> Result<(), Failure<PatternRefusal>>
    requires indexed { IsIndexed column.now }
    requires last { IsAnswered (values_in column.now) last.now }
    requires within { All (λ place. place < length taken.now.items) column.now.places.now }
    requires each { length column.now.values.now ≡ length column.now.places.now + 1 }
    ensures taken { OnOk result (IsNarrowedBy matcher.now column.now taken.old.items taken.new.items) }
    ensures asked { Asked result cache.old cache.new }
    ensures misses { cache.new.misses ≤ cache.old.misses + length (patterns_of (matcher.now ∷ [])) }
    ensures failure { IfErr result (IsFailureOf matcher.now cache.old cache.new) }
    ensures last { IsAnswered (values_in column.now) last.new }
    ensures unasked { list_any (λ flag. flag) taken.old.items ≡ false → cache.new ≡ cache.old }
{
    if let Some(answered) = last {
        if answered.serves(matcher) {
            meet(alloc, column.places, &answered.row, taken)?;
            return Ok(());
        }
    }
    if !has_set(taken) {
        return Ok(());
    }
    if !recurs {
        return ask_flagged(alloc, matcher, column, taken, cache);
    }
    let mut row = vec![in alloc; true; column.values.len()]?;
    ask_values(alloc, matcher, column, &mut row, cache)?;
    meet(alloc, column.places, &row, taken)?;
    *last = Some(Answered { matcher, row });
    Ok(())
}

// Asks the matcher of the values of the label sets whose flag is set, and of the empty one.
fn ask_flagged(
    alloc: Global,
    matcher: &Matcher,
    column: &Column<'_, '_, '_>,
    taken: &mut Vec<bool>,
    cache: &mut PatternCache,
) -> Result<(), Failure<PatternRefusal>>
    requires indexed { IsIndexed column.now }
    requires within { All (λ place. place < length taken.now.items) column.now.places.now }
    requires each { length column.now.values.now ≡ length column.now.places.now + 1 }
    ensures taken { OnOk result (IsNarrowedBy matcher.now column.now taken.old.items taken.new.items) }
    ensures asked { Asked result cache.old cache.new }
    ensures misses { cache.new.misses ≤ cache.old.misses + length (patterns_of (matcher.now ∷ [])) }
    ensures failure { IfErr result (IsFailureOf matcher.now cache.old cache.new) }
{
    let mut row = flags_at(alloc, column.places, taken)?;
    ask_values(alloc, matcher, column, &mut row, cache)?;
    meet(alloc, column.places, &row, taken)?;
    Ok(())
}

// Takes away the flags of those values of the column that don't meet the condition. Where there is an index, one of
// those that are alike is asked.
fn ask_values(
    alloc: Global,
    matcher: &Matcher,
    column: &Column<'_, '_, '_>,
    row: &mut Vec<bool>,
    cache: &mut PatternCache,
) -> Result<(), Failure<PatternRefusal>>
    requires indexed { IsIndexed column.now }
    requires each { length row.now.items ≡ length (values_in column.now) }
    ensures row { OnOk result (row.new.items ≡ narrowed_by matcher.now (values_in column.now) row.old.items) }
    ensures asked { Asked result cache.old cache.new }
    ensures misses { cache.new.misses ≤ cache.old.misses + length (patterns_of (matcher.now ∷ [])) }
    ensures failure { IfErr result (IsFailureOf matcher.now cache.old cache.new) }
{
    match &column.index {
        None => narrow(alloc, matcher, column.values, row, cache),
        Some(index) => ask_alike(alloc, matcher, column.values, &index.alike, row, cache),
    }
}

// Asks the matcher of one of the values that are alike, and takes away the flags of all of them where it isn't met.
fn ask_alike(
    alloc: Global,
    matcher: &Matcher,
    values: &[&str],
    alike: &[usize],
    taken: &mut Vec<bool>,
    cache: &mut PatternCache,
) -> Result<(), Failure<PatternRefusal>>
    requires alike { AreAlike (map (λ value. value.now) values.now) alike.now }
    requires each { length taken.now.items ≡ length values.now }
    ensures taken { OnOk result
        (taken.new.items ≡ narrowed_by matcher.now (map (λ value. value.now) values.now) taken.old.items) }
    ensures asked { Asked result cache.old cache.new }
    ensures misses { cache.new.misses ≤ cache.old.misses + length (patterns_of (matcher.now ∷ [])) }
    ensures failure { IfErr result (IsFailureOf matcher.now cache.old cache.new) }
{
    let mut firsts = firsts_of(alloc, alike, taken)?;
    narrow(alloc, matcher, values, &mut firsts, cache)?;
    let left = left_by(alloc, alike, taken, &firsts)?;
    *taken = left;
    Ok(())
}
