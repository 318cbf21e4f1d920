//! The matchers of lists, in the order in which many label sets are asked.

ghost use Rattle.std.specs.Prelude.{◌≡◌, ◌++◌, IfOk, OnOk, map};
ghost use Rattle.std.specs.List.Sorted.{IsPermutation};
ghost use Rattle.am_table.specs.Tables.{questions_from};

use am_match::Matcher;
use std::alloc::{AllocError, Global};
use std::cmp::Ordering;
use std::marker::Model;

/// A matcher of a list. A clause sees the list's number and the matcher.
#[derive(Drop)]
pub struct Question<'a> {
    /// The number of the list.
    pub list: usize,
    /// The matcher.
    pub matcher: &'a Matcher,
}

impl<'a> Model for Question<'a> {
    ghost use Rattle.std.specs.Prelude.{ℕ};
    ghost use Rattle.am_match.specs.Matchers.{MatcherText};

    ghost Value = { ℕ × MatcherText };

    ghost view = { λ q. (q.list, q.matcher.now) };
}

/// The matchers of all these lists, name by name; of one name those without patterns come first, and equal ones stand
/// together.
pub fn questions_of<'a>(
    alloc: Global,
    lists: &[&'a [Matcher]],
) -> Result<Vec<Question<'a>>, AllocError>
    ensures { IfOk result (λ v. IsPermutation (questions_from 0 (map (λ list. list.now) lists.now)) v.items) }
{
    let mut questions = Vec::new(alloc);
    for (number, list) in lists.iter().enumerate() {
        add_questions(number, list, &mut questions)?;
    }
    questions.sort_by(|one, other| compare(one, other))?;
    Ok(questions)
}

// Adds the matchers of the list of this number.
fn add_questions<'a>(
    number: usize,
    matchers: &'a [Matcher],
    questions: &mut Vec<Question<'a>>,
) -> Result<(), AllocError>
    ensures { OnOk result (questions.new.items
        ≡ questions.old.items ++ map (λ matcher. (number, matcher)) matchers.now) }
{
    for matcher in matchers {
        questions.push(Question {
            list: number,
            matcher,
        })?;
    }
    Ok(())
}

// The order in which they are asked.
fn compare(one: &Question<'_>, other: &Question<'_>) -> Ordering {
    let (first, second) = (one.matcher, other.matcher);
    first
        .name()
        .cmp(second.name())
        .then(
            first
                .operator()
                .is_on_pattern()
                .cmp(&second.operator().is_on_pattern()),
        )
        .then(first.value().cmp(second.value()))
}
