//! What records that webhooks were told.

ghost use Rattle.std.specs.Prelude.{◌≡◌, ◌+◌, nat_le, true, IfErr, IfOk, OnOk};
ghost use Rattle.am_book.specs.Book.{items_of};
ghost use Rattle.am_context.specs.Stopping.{StopsPast};
ghost use Rattle.am_item.specs.Counts.{greatest_count};
ghost use Rattle.am_replica.specs.Holds.{Makes, holds_of};
ghost use Rattle.am_replica.specs.Recording.{entry_of, entry_stamped, recorded, seen};

use crate::replica::Replica;
use am_alert::stamp_moment;
use am_context::{Context, Receipt};
use am_current::Holdings;
use am_group::recorded;
use am_item::{EntryKey, Fault, GREATEST_COUNT, Item, SharedItem, Stamp, Thing};
use am_tenant::TenantName;
use am_text::Moment;
use std::alloc::Global;

impl Replica {
    /// Records that a webhook of a tenant was told, and gives the item that does.
    ///
    /// # Errors
    /// `CountsExhausted` where the count of the stamp would pass 2^62, or out of memory.
    pub fn record(
        &mut self,
        alloc: Global,
        tenant: &TenantName,
        context: &Context,
        receipt: Receipt,
    ) -> Result<SharedItem, Fault>
        ensures holds { OnOk result (Makes tenant.now (recorded context.now receipt) self.old self.new) }
        ensures entry { IfOk result (λ entry. entry ≡ entry_of context.now receipt (holds_of tenant.now self.old)) }
        ensures fits { IfOk result (λ _. nat_le ((holds_of tenant.now self.old).stamps + 1) greatest_count ≡ true) }
        ensures fault { IfErr result (StopsPast (nat_le ((holds_of tenant.now self.old).stamps + 1) greatest_count)) }
    {
        let used = self.counts.used(tenant);
        if used >= GREATEST_COUNT {
            return Err(Fault::CountsExhausted);
        }
        let moment = stamp_moment(context.moment, seen(&self.holdings, tenant, &receipt.key));
        let entry = entry(context, receipt, moment, used + 1);
        let entry = SharedItem::new(alloc, entry)?;
        let shared = entry.share()?;
        let items = vec![in alloc; shared]?;
        self.holdings.put_all(alloc, tenant, items)?;
        self.counts.set(alloc, tenant, used + 1)?;
        Ok(entry)
    }
}

// The stamp moment of what is recorded of a key, where something is.
fn seen(holdings: &Holdings, tenant: &TenantName, key: &EntryKey) -> Option<Moment>
    ensures { result ≡ seen key.now (items_of tenant.now holdings.now) }
{
    let sent = holdings.held(tenant).sent_entries();
    sent.get(key).map(|entry| entry.stamp.moment)
}

// The entry, by a stamp of this moment and count.
fn entry(context: &Context, receipt: Receipt, moment: Moment, count: u64) -> Item
    ensures { result ≡ entry_stamped context.now receipt.key receipt.firing receipt.resolved receipt.span moment count }
{
    let Receipt {
        key,
        firing,
        resolved,
        span,
    } = receipt;
    let EntryKey {
        receiver,
        group,
        webhook,
    } = key;
    Item {
        stamp: Stamp {
            moment,
            instance: context.instance,
            incarnation: context.incarnation,
            count,
        },
        thing: Thing::SentEntry(recorded(receiver, group, webhook, firing, resolved, moment, span)),
    }
}
