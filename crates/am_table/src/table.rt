//! Which label sets each of many lists of matchers takes.

ghost use Rattle.std.specs.Prelude.{◌≡◌, ◌+◌, ◌<◌, ◌≤◌, All, IfErr, IfOk, OnOk, length, map, true};
ghost use Rattle.am_pattern.specs.Asking.{Asked};
ghost use Rattle.am_match.specs.Asking.{IsFailureAmong};
ghost use Rattle.am_match.specs.Matchers.{patterns_of};
ghost use Rattle.am_match.specs.Meaning.{all_take};
ghost use Rattle.am_table.specs.Tables.{IsTable, all_matchers, answer_of};

use crate::column::{Column, ask};
use crate::holders::holders_of;
use crate::questions::{Question, questions_of};
use am_labels::LabelSet;
use am_match::Matcher;
use am_pattern::{PatternCache, PatternRefusal};
use am_text::Failure;
use std::alloc::{AllocError, Global};

// How many questions about a label an index of its values is made for. They cost about as much as the index.
const OFTEN: usize = 16;

/// For each of the lists of matchers, whether all of them take each of the label sets.
///
/// The matchers of all lists are asked together, label by label. The labels of each label set are gone over once. A
/// matcher is then asked of those label sets alone that have its label, and once of the empty value for all others.
/// Where many matchers are about a label, `=` and `!=` cost no more than the label sets that have their value, and a
/// pattern is asked of each different value once. It is built at most once for each label that it is asked of, and not
/// for a list that takes no label set any more. The call takes a byte for each list and label set.
///
/// # Errors
///
/// Those of [`Matcher::matches`] for a matcher of the lists.
pub fn taken_by_each(
    alloc: Global,
    lists: &[&[Matcher]],
    sets: &[&LabelSet],
    cache: &mut PatternCache,
) -> Result<Vec<Vec<bool>>, Failure<PatternRefusal>>
    ensures table { IfOk result (λ v. map (λ row. row.items) v.items
        ≡ map (λ list. map (λ set. all_take list.now set.now) sets.now) lists.now) }
    ensures asked { Asked result cache.old cache.new }
    ensures misses { cache.new.misses
        ≤ cache.old.misses + length (patterns_of (all_matchers (map (λ list. list.now) lists.now))) }
    ensures failure { IfErr result
        (IsFailureAmong (all_matchers (map (λ list. list.now) lists.now)) cache.old cache.new) }
{
    let questions = questions_of(alloc, lists)?;
    let mut table = all_taken(alloc, lists.len(), sets)?;
    ask_all(alloc, &questions, sets, &mut table, cache)?;
    Ok(table)
}

// A table of so many rows, which takes all label sets.
fn all_taken(alloc: Global, count: usize, sets: &[&LabelSet]) -> Result<Vec<Vec<bool>>, AllocError>
    ensures count { IfOk result (λ v. length v.items ≡ count) }
    ensures rows { IfOk result (λ v. All (λ row. row.items ≡ map (λ set. true) sets.now) v.items) }
{
    let mut table = Vec::new(alloc);
    for _ in 0..count {
        table.push(vec![in alloc; true; sets.len()]?)?;
    }
    Ok(table)
}

// Takes out of each list's row the label sets that one of the matchers doesn't take.
fn ask_all(
    alloc: Global,
    questions: &[Question<'_>],
    sets: &[&LabelSet],
    table: &mut Vec<Vec<bool>>,
    cache: &mut PatternCache,
) -> Result<(), Failure<PatternRefusal>>
    requires numbers { All (λ q. q.0 < length table.now.items) questions.now }
    requires rows { All (λ row. row.items ≡ map (λ set. true) sets.now) table.now.items }
    ensures rows { OnOk result (IsTable (answer_of questions.now) (map (λ set. set.now) sets.now)
        (length table.old.items) table.new.items) }
    ensures asked { Asked result cache.old cache.new }
    ensures misses { cache.new.misses ≤ cache.old.misses + length (patterns_of (map (λ q. q.1) questions.now)) }
    ensures failure { IfErr result (IsFailureAmong (map (λ q. q.1) questions.now) cache.old cache.new) }
{
    if questions.is_empty() {
        return Ok(());
    }
    let held = holders_of(alloc, questions, sets)?;
    let first = &questions[0];
    let is_first_often = is_asked_often(questions, 0);
    let mut column = Column::of(alloc, first.matcher.name(), &held, is_first_often)?;
    let mut last = None;
    for (number, question) in questions.iter().enumerate() {
        let name = question.matcher.name();
        if name != column.name {
            let is_often = is_asked_often(questions, number);
            column = Column::of(alloc, name, &held, is_often)?;
            last = None;
        }
        let recurs = recurs(questions, number);
        let taken = &mut table[question.list];
        ask(
            alloc,
            question.matcher,
            &column,
            recurs,
            &mut last,
            taken,
            cache,
        )?;
    }
    Ok(())
}

// Whether the question behind this one is about an equal matcher.
fn recurs(questions: &[Question<'_>], number: usize) -> bool
    requires { number < length questions.now }
{
    let here = &questions[number];
    match questions.get(number.saturating_add(1)) {
        Some(next) => next.matcher == here.matcher,
        None => false,
    }
}

// Whether this question and at least so many behind it are about one label.
fn is_asked_often(questions: &[Question<'_>], number: usize) -> bool
    requires { number < length questions.now }
{
    let here = &questions[number];
    match questions.get(number.saturating_add(OFTEN)) {
        Some(later) => later.matcher.name() == here.matcher.name(),
        None => false,
    }
}
