ghost use Rattle.std.specs.Prelude.{◌≡◌, []};

use am_item::LabelSets;
use std::alloc::Global;

/// No label sets.
pub fn no_sets(alloc: Global) -> LabelSets
    ensures { result ≡ [] }
{
    match LabelSets::from_rising(Vec::new(alloc)) {
        Some(sets) => sets,
        None => unreachable!(),
    }
}
