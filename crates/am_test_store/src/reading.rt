//! The rows of a tenant.

ghost use Rattle.std.specs.Prelude.{◌≡◌, ◌&&◌, ◌∷◌, [], IfOk, OnOk};
ghost use Rattle.am_item.specs.Best.{all_joined, joined};
ghost use Rattle.am_rows.specs.Rows.{is_stored, rows_of, stored_in};
ghost use Rattle.am_share.specs.Pairs.{things_of};
ghost use Rattle.am_tenant.specs.Names.{same};

use crate::naming::is_same;
use crate::storing::is_stored;
use am_item::{Held, SharedItem};
use am_tenant::TenantName;
use std::alloc::{AllocError, Global};

// The rows of a tenant, in the order of keys.
pub(crate) fn rows_of(
    alloc: Global,
    pairs: &[(TenantName, SharedItem)],
    tenant: &TenantName,
) -> Result<Vec<SharedItem>, AllocError>
    ensures { IfOk result (λ rows. rows.items ≡ rows_of tenant.now pairs.now) }
{
    let held = held_of(alloc, pairs, tenant)?;
    held.items(alloc)
}

// The rows of a tenant, as they are held.
fn held_of(
    alloc: Global,
    pairs: &[(TenantName, SharedItem)],
    tenant: &TenantName,
) -> Result<Held, AllocError>
    ensures { IfOk result (λ held. held ≡ rows_of tenant.now pairs.now) }
{
    let mut held = Held::new(alloc)?;
    for pair in pairs {
        put_own(&mut held, tenant, pair)?;
    }
    Ok(held)
}

// Puts an item, where it is one of the tenant that is stored.
fn put_own(
    held: &mut Held,
    tenant: &TenantName,
    pair: &(TenantName, SharedItem),
) -> Result<(), AllocError>
    ensures { OnOk result (held.new ≡ all_joined held.old (stored_in (things_of tenant.now (pair.now ∷ [])))) }
{
    if !is_own(tenant, pair) {
        return Ok(());
    }
    put(held, pair.1.share()?)
}

// Whether an item is one of the tenant that is stored.
fn is_own(tenant: &TenantName, pair: &(TenantName, SharedItem)) -> bool
    ensures { result ≡ (same tenant.now pair.now.0 && is_stored pair.now.1) }
{
    is_same(tenant, &pair.0) && is_stored(&pair.1)
}

fn put(held: &mut Held, item: SharedItem) -> Result<(), AllocError>
    ensures { OnOk result (held.new ≡ joined held.old item) }
{
    match held.put(item) {
        Ok(_) => Ok(()),
        Err(refused) => Err(refused),
    }
}
