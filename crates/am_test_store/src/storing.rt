//! What of a list is stored.

ghost use Rattle.std.specs.Prelude.{◌≡◌, ◌∷◌, ◌++◌, [], map, IfOk, OnOk};
ghost use Rattle.am_rows.specs.Rows.{is_stored, stored_in};
ghost use Rattle.am_test_store.specs.Pairs.{with_name};

use am_item::{Part, SharedItem};
use am_tenant::TenantName;
use std::alloc::{AllocError, Global};

// A tenant's items that are stored, each with the tenant's name.
pub(crate) fn pairs_of(
    alloc: Global,
    tenant: &TenantName,
    items: &[SharedItem],
) -> Result<Vec<(TenantName, SharedItem)>, AllocError>
    ensures { IfOk result (λ pairs. pairs.items ≡ map (with_name tenant.now) (stored_in items.now)) }
{
    let mut pairs = Vec::new(alloc);
    for item in items {
        push_stored(&mut pairs, tenant, item)?;
    }
    Ok(pairs)
}

fn push_stored(
    pairs: &mut Vec<(TenantName, SharedItem)>,
    tenant: &TenantName,
    item: &SharedItem,
) -> Result<(), AllocError>
    ensures { OnOk result
        (pairs.new.items ≡ pairs.old.items ++ map (with_name tenant.now) (stored_in (item.now ∷ []))) }
{
    if !is_stored(item) {
        return Ok(());
    }
    pairs.push((*tenant, item.share()?))?;
    Ok(())
}

// Whether an item is one that is stored.
pub(crate) fn is_stored(item: &SharedItem) -> bool
    ensures { result ≡ is_stored item.now }
{
    match item.part() {
        Part::Configuration(_) | Part::Silence(_, _) => true,
        Part::Alert(_, _) | Part::SentEntry(_, _) => false,
    }
}
