//! Items that are accepted.

ghost use Rattle.std.specs.Prelude.{◌≡◌, ◌+◌, ◌<◌, ◌≤◌, IfOk, OnOk, map};
ghost use Rattle.am_item.specs.Counts.{greatest_count};
ghost use Rattle.am_replica.specs.Coming.{flagged, is_configured, set_of, sets_coming};
ghost use Rattle.am_replica.specs.Holds.{Makes, accepted, counted, holds_of};

use crate::replica::Replica;
use am_context::Came;
use am_current::is_replaced;
use am_item::{Part, SharedItem};
use am_labels::LabelSet;
use am_tenant::TenantName;
use std::alloc::{AllocError, Global};

impl Replica {
    /// Accepts items of a tenant: the best of each key are held. Answers what came with them.
    pub fn accept(
        &mut self,
        alloc: Global,
        tenant: &TenantName,
        items: Vec<SharedItem>,
    ) -> Result<Came, AllocError>
        ensures holds { OnOk result (Makes tenant.now (accepted items.items) self.old self.new) }
        ensures sets { IfOk result (λ came. came.sets.items
            ≡ sets_coming (holds_of tenant.now self.old).held items.items) }
        ensures configured { IfOk result (λ came. came.is_configured
            ≡ is_configured (holds_of tenant.now self.old).held items.items) }
    {
        let labels = label_sets(alloc, &items)?;
        let is_configured = is_replaced(self.holdings.held(tenant), &items);
        let are_new = self.holdings.put_all(alloc, tenant, items)?;
        let sets = flagged(alloc, labels, are_new)?;
        Ok(Came {
            sets,
            is_configured,
        })
    }

    /// Counts so many more stamps of a tenant. Its count may not pass 2^62.
    #[tactic(auto, unfolding(crate::specs::Holds::holds_of))]
    pub fn count(&mut self, alloc: Global, tenant: &TenantName, more: u64) -> Result<(), AllocError>
        requires { 0 < more → (holds_of tenant.now self.old).stamps + more ≤ greatest_count }
        ensures { OnOk result (Makes tenant.now (counted more) self.old self.new) }
    {
        let used = self.counts.used(tenant);
        self.counts.set(alloc, tenant, used + more)?;
        Ok(())
    }
}

// The label sets of items that are alerts, copied, each in the place of its item.
fn label_sets(alloc: Global, items: &[SharedItem]) -> Result<Vec<Option<LabelSet>>, AllocError>
    ensures { IfOk result (λ v. v.items ≡ map set_of items.now) }
{
    let mut sets = Vec::new(alloc);
    for item in items {
        sets.push(label_set(item)?)?;
    }
    Ok(sets)
}

// The label set of an item that is an alert, copied.
fn label_set(item: &SharedItem) -> Result<Option<LabelSet>, AllocError>
    ensures { IfOk result (λ set. set ≡ set_of item.now) }
{
    match item.part() {
        Part::Alert(labels, _) => Ok(Some(labels.copy()?)),
        _ => Ok(None),
    }
}

// The label sets of the alerts that came, each with whether it is new, which is told of each item in its place.
fn flagged(
    alloc: Global,
    sets: Vec<Option<LabelSet>>,
    are_new: Vec<bool>,
) -> Result<Vec<(LabelSet, bool)>, AllocError>
    ensures { IfOk result (λ v. v.items ≡ flagged sets.items are_new.items) }
{
    sets.into_iter()
        .zip(are_new)
        .filter_map(|(set, is_new)| Some((set?, is_new)))
        .collect(alloc)
}
