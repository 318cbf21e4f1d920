//! Lists of sources that targets share.

ghost use Rattle.std.specs.Prelude.{◌≡◌, ℕ, ◌<◌, [], false, true, OnOk, get_or, length, map};
ghost use Rattle.am_inhibit.specs.Links.{AreAllPlaces, AreLinked, lists_of};

use crate::classes::classes_of;
use crate::flags::has_set;
use crate::key::Key;
use am_labels::LabelSet;
use am_text::Text;
use std::alloc::{AllocError, Global};
use std::rc::RcSlice;

/// Adds to each flagged target's lists that of the flagged sources that have equal values of all labels of these names,
/// where there are any. All targets that are alike share one list. Only the sources are kept by their values, since they
/// are mostly fewer than the targets, which are looked up among them. Without a source or a target nothing is gone over.
pub fn link(
    alloc: Global,
    names: &[Text],
    sets: &[&LabelSet],
    sources: &[bool],
    targets: &[bool],
    links: &mut Vec<Vec<RcSlice<usize>>>,
) -> Result<(), AllocError>
    requires sources { length sources.now ≡ length sets.now }
    requires targets { length targets.now ≡ length sets.now }
    requires links { length links.now.items ≡ length sets.now }
    ensures links { OnOk result (length links.new.items ≡ length sets.now) }
    ensures linked { OnOk result (AreLinked names.now (map (λ set. set.now) sets.now) sources.now targets.now
        (lists_of links.old.items) (lists_of links.new.items)) }
    ensures places { (count : ℕ) → ((place : ℕ) → get_or sources.now place false ≡ true → place < count)
        → AreAllPlaces count (lists_of links.old.items) → OnOk result (AreAllPlaces count (lists_of links.new.items)) }
{
    if !has_set(sources) || !has_set(targets) {
        return Ok(());
    }
    let classes = classes_of(alloc, names, sets, sources)?;
    for (place, set) in sets.iter().enumerate() {
        if targets[place] {
            let key = Key::of(alloc, names, set)?;
            classes.add_to(&key, &mut links[place])?;
        }
    }
    Ok(())
}
