//! Whose the rows are.

ghost use Rattle.std.specs.Prelude.{◌≡◌, ℕ, List, IfOk};
ghost use Rattle.std.specs.Cmp.Lexicographic.{slice_cmp};
ghost use Rattle.std.specs.List.{list_any};
ghost use Rattle.std.specs.List.Sorted.{IsStrictlySortedBy};
ghost use Rattle.std.specs.Ordering.{nat_cmp};
ghost use Rattle.am_tenant.specs.Names.{same};

use am_item::SharedItem;
use am_tenant::TenantName;
use std::alloc::{AllocError, Global};

// Whether two names are one.
#[tactic(auto, unfolding(am_tenant::specs::Names::same))]
pub(crate) fn is_same(one: &TenantName, other: &TenantName) -> bool
    ensures { result ≡ same one.now other.now }
{
    *one == *other
}

// Whose the pairs are, each once, in order of name.
pub(crate) fn names_in(
    alloc: Global,
    pairs: &[(TenantName, SharedItem)],
) -> Result<Vec<TenantName>, AllocError>
    ensures order { IfOk result (λ names. IsStrictlySortedBy (slice_cmp nat_cmp) names.items) }
    ensures names { IfOk result (λ names. (t : List ℕ) → list_any (same t) names.items
        ≡ list_any (λ pair. same t pair.0) pairs.now) }
{
    let mut names = Vec::with_capacity(alloc, pairs.len())?;
    for (name, _) in pairs {
        names.push(*name)?;
    }
    names.sort()?;
    names.dedup();
    Ok(names)
}
