//! Classes of label sets that are alike.

ghost use Rattle.std.specs.Prelude.{◌≡◌, ◌≤◌, ◌<◌, ◌==◌, ◌++◌, ◌∷◌, [], ℕ, List, All, IfOk, OnOk, Some, if◌then◌else◌, length, map, unwrap_or};
ghost use Rattle.std.specs.BTreeMap.{get};
ghost use Rattle.std.specs.Map.{update};
ghost use Rattle.std.specs.Option.{ForSome};
ghost use Rattle.std.specs.Ordering.{eq_by_cmp};
ghost use Rattle.std.specs.Rc.{rc_slice_items};
ghost use Rattle.am_inhibit.specs.Alike.{keys_cmp};
ghost use Rattle.am_inhibit.specs.Classes.{AreClasses, list_of_key, put_in};

use crate::key::Key;
use am_labels::LabelSet;
use am_text::Text;
use std::alloc::{AllocError, Global};
use std::collections::BTreeMap;
use std::rc::RcSlice;

/// The places of label sets, in lists of those that are alike.
#[derive(Drop)]
pub struct Classes<'a> {
    // for the values of each class its number
    pub numbers: BTreeMap<Key<'a>, usize>,
    // for each number the places
    pub lists: Vec<RcSlice<usize>>,
}

impl<'a> Classes<'a> {
    /// Adds the list of this key to the lists, where it has one.
    pub fn add_to(&self, key: &Key<'a>, lists: &mut Vec<RcSlice<usize>>) -> Result<(), AllocError>
        requires within { ForSome (get keys_cmp self.now.numbers key.now) (λ number. number < length self.now.lists.items) }
        requires some { All (λ list. 0 < length list) (map rc_slice_items self.now.lists.items) }
        ensures { OnOk result (map rc_slice_items lists.new.items
            ≡ (if length (list_of_key self.now.numbers (map rc_slice_items self.now.lists.items) key.now) == 0
            then map rc_slice_items lists.old.items
            else map rc_slice_items lists.old.items
            ++ list_of_key self.now.numbers (map rc_slice_items self.now.lists.items) key.now ∷ [])) }
    {
        if let Some(number) = self.numbers.get(key) {
            lists.push(self.lists[*number].clone()?)?;
        }
        Ok(())
    }
}

/// The classes of the flagged label sets, by their values of all labels of these names.
pub fn classes_of<'a>(
    alloc: Global,
    names: &[Text],
    sets: &[&'a LabelSet],
    flags: &[bool],
) -> Result<Classes<'a>, AllocError>
    requires { length flags.now ≡ length sets.now }
    ensures { IfOk result (λ classes. AreClasses names.now (map (λ set. set.now) sets.now) flags.now
        classes.numbers (map rc_slice_items classes.lists.items)) }
{
    let mut numbers = BTreeMap::new(alloc);
    let mut lists = Vec::new(alloc);
    for (place, set) in sets.iter().enumerate() {
        if flags[place] {
            let number = number_of(Key::of(alloc, names, set)?, lists.len(), &mut numbers)?;
            put(alloc, place, number, &mut lists)?;
        }
    }
    let lists = shared(alloc, lists)?;
    Ok(Classes { numbers, lists })
}

// The number of this key: the next one where it has none yet.
fn number_of<'a>(
    key: Key<'a>,
    next: usize,
    numbers: &mut BTreeMap<Key<'a>, usize>,
) -> Result<usize, AllocError>
    ensures number { IfOk result (λ number. number ≡ unwrap_or (get keys_cmp numbers.old key.entry) next) }
    ensures kept { IfOk result (λ number. (other : List (List ℕ)) → get keys_cmp numbers.new other
        ≡ update (eq_by_cmp keys_cmp) (get keys_cmp numbers.old) key.entry (Some number) other) }
{
    if let Some(number) = numbers.get(&key) {
        return Ok(*number);
    }
    numbers.insert(key, next)?;
    Ok(next)
}

// The place comes to the list of this number, which is a new one behind the others where there is none.
fn put(
    alloc: Global,
    place: usize,
    number: usize,
    lists: &mut Vec<Vec<usize>>,
) -> Result<(), AllocError>
    requires { number ≤ length lists.now.items }
    ensures { OnOk result (map (λ list. list.items) lists.new.items ≡ put_in place number (map (λ list. list.items) lists.old.items)) }
{
    if number == lists.len() {
        lists.push(vec![in alloc; place; 1]?)?;
    } else {
        lists[number].push(place)?;
    }
    Ok(())
}

// The lists, such that copies share their elements.
fn shared(alloc: Global, lists: Vec<Vec<usize>>) -> Result<Vec<RcSlice<usize>>, AllocError>
    ensures { IfOk result (λ v. map rc_slice_items v.items ≡ map (λ list. list.items) lists.items) }
{
    let mut shared = Vec::with_capacity(alloc, lists.len())?;
    for list in lists {
        shared.push(RcSlice::from_vec(list)?)?;
    }
    Ok(shared)
}
