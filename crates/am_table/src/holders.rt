//! Which of many label sets have the labels that matchers are about.

ghost use Rattle.std.specs.Prelude.{◌≡◌, ◌++◌, ◌∷◌, [], ℕ, List, All, Some, IfOk, OnOk, map};
ghost use Rattle.std.specs.Option.{option_map};
ghost use Rattle.std.specs.List.{Contains};
ghost use Rattle.am_labels.specs.Sets.{IsLabelSet};
ghost use Rattle.am_table.specs.Holders.{AreHolders, held_at, holders_from, labels_named, none_hold, with_holders};

use crate::questions::Question;
use am_labels::{Label, LabelSet};
use std::alloc::{AllocError, Global};
use std::collections::BTreeMap;

/// By the name of a label, the label sets that have it.
pub type Held<'n, 'a> = BTreeMap<&'n str, Holders<'a>>;

/// The label sets that have a label.
#[derive(Drop)]
pub struct Holders<'a> {
    /// Their places among the label sets, rising.
    pub places: Vec<usize>,
    /// The empty value, which all others have, and behind it the value of each of them.
    pub values: Vec<&'a str>,
}

impl<'a> Holders<'a> {
    // No label set so far.
    fn new(alloc: Global) -> Result<Holders<'a>, AllocError>
        ensures { IfOk result (λ holders. AreHolders [] holders) }
    {
        let mut values: Vec<&'a str> = Vec::new(alloc);
        values.push("")?;
        Ok(Holders {
            places: Vec::new(alloc),
            values,
        })
    }

    // One more, with its value.
    fn add(&mut self, place: usize, value: &'a str) -> Result<(), AllocError>
        ensures places { OnOk result (self.new.places.items ≡ self.old.places.items ++ place ∷ []) }
        ensures values { OnOk result (map (λ v. v.now) self.new.values.items
            ≡ map (λ v. v.now) self.old.values.items ++ value.now ∷ []) }
    {
        self.places.push(place)?;
        self.values.push(value)?;
        Ok(())
    }
}

/// Of each label that a question is about, which of the label sets have it. The labels of each are gone over once.
pub fn holders_of<'n, 'a>(
    alloc: Global,
    questions: &[Question<'n>],
    sets: &[&'a LabelSet],
) -> Result<Held<'n, 'a>, AllocError>
    ensures label_sets { OnOk result (All IsLabelSet (map (λ set. set.now) sets.now)) }
    ensures held { IfOk result (λ held. (name : List ℕ) → Contains (map (λ q. q.1.name) questions.now) name
        → held_at held name ≡ Some (with_holders (holders_from 0 name (map (λ set. set.now) sets.now)) none_hold)) }
{
    let mut held = nothing_held(alloc, questions)?;
    for (place, set) in sets.iter().enumerate() {
        note_labels(place, set.labels(), &mut held)?;
    }
    Ok(held)
}

// Of each label that a question is about, that no label set has it.
fn nothing_held<'n, 'a>(
    alloc: Global,
    questions: &[Question<'n>],
) -> Result<Held<'n, 'a>, AllocError>
    ensures { IfOk result (λ held. (name : List ℕ) → Contains (map (λ q. q.1.name) questions.now) name
        → held_at held name ≡ Some none_hold) }
{
    let mut held = BTreeMap::new(alloc);
    for question in questions {
        let name = question.matcher.name();
        if !held.contains_key(name) {
            held.insert(name, Holders::new(alloc)?)?;
        }
    }
    Ok(held)
}

// Notes the labels of the label set at this place, where they are asked for.
fn note_labels<'a>(
    place: usize,
    labels: &'a [Label],
    held: &mut Held<'_, 'a>,
) -> Result<(), AllocError>
    ensures { OnOk result ((name : List ℕ) → held_at held.new name
        ≡ option_map (with_holders (labels_named place name labels.now)) (held_at held.old name)) }
{
    for label in labels {
        note(place, label, held)?;
    }
    Ok(())
}

// Notes one of them.
fn note<'a>(place: usize, label: &'a Label, held: &mut Held<'_, 'a>) -> Result<(), AllocError>
    ensures { OnOk result ((name : List ℕ) → held_at held.new name
        ≡ option_map (with_holders (labels_named place name (label.now ∷ []))) (held_at held.old name)) }
{
    let Some(holders) = held.get_mut(label.name.as_str()) else {
        return Ok(());
    };
    holders.add(place, label.value.as_str())?;
    Ok(())
}
