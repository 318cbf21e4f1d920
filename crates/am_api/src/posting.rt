//! Posted alerts.

ghost use Rattle.std.specs.Prelude.{◌≡◌, ℕ, nat_lt, IfOk};
ghost use Rattle.am_alert.specs.Posted.{posted};
ghost use Rattle.am_alert.specs.declared.maker.Maker.{Maker};
ghost use Rattle.am_api.specs.Deciding.{Decides};
ghost use Rattle.am_api.specs.Decision.{count_with, stored_or_refused, stored_within};
ghost use Rattle.am_api.specs.Fresh.{has_alert, new_count};

use crate::decision::{self, Decided, refuse};
use am_alert::{Maker, items_of_post, read_posted};
use am_item::{Alert, Fault, Held};
use am_labels::LabelSet;
use am_text::{Failure, Moment, Octets};
use std::alloc::{AllocError, Global};
use std::collections::BTreeSet;

/// The items of a posted list, or its refusal. No more alerts may then be held than `limit`.
pub(crate) fn post_alerts(
    alloc: Global,
    body: &[u8],
    resolve_timeout: u64,
    held: &Held,
    limit: u64,
    moment: Moment,
    maker: Maker,
) -> Result<Decided, Fault>
    ensures { Decides result (stored_or_refused limit held.now moment maker (posted moment resolve_timeout body.now)) }
{
    match read_posted(alloc, body, moment, resolve_timeout) {
        Ok(posted) => store(alloc, posted, held, limit, moment, maker),
        Err(Failure::Refused(reason)) => refuse(alloc, 400, reason.code()),
        Err(Failure::OutOfMemory) => Err(Fault::OutOfMemory),
    }
}

fn store(
    alloc: Global,
    posted: Vec<Alert>,
    held: &Held,
    limit: u64,
    moment: Moment,
    maker: Maker,
) -> Result<Decided, Fault>
    ensures { Decides result (stored_within limit held.now moment maker posted.items) }
{
    if is_past(alloc, limit, held, &posted)? {
        return refuse(alloc, 429, "Li1");
    }
    let items = items_of_post(alloc, posted, held, moment, maker)?;
    Ok(decision::store(items, 200, Octets::from_vec(Vec::new(alloc))))
}

// Whether more alerts than the limit would be held once the posted ones have come. Those that are held are not gone
// over, and where there is room for all that are posted, none is looked for.
fn is_past(alloc: Global, limit: u64, held: &Held, posted: &[Alert]) -> Result<bool, AllocError>
    ensures { IfOk result (λ past. (time : ℕ) (maker : Maker) → past
        ≡ nat_lt limit (count_with held.now time maker posted.now)) }
{
    let Some(room) = limit.checked_sub(held.alerts().entries().len() as u64) else {
        return Ok(true);
    };
    if posted.len() as u64 <= room {
        return Ok(false);
    }
    let new = count_new(alloc, held, posted)?;
    Ok(room < new as u64)
}

// How many label sets are posted that aren't held.
fn count_new(alloc: Global, held: &Held, posted: &[Alert]) -> Result<usize, AllocError>
    ensures { IfOk result (λ count. count ≡ new_count held.now posted.now) }
{
    let mut new = BTreeSet::new(alloc);
    let mut before = posted;
    while let Some((alert, earlier)) = before.split_last() {
        if !has_alert(held, &alert.labels) {
            new.insert(&alert.labels)?;
        }
        before = earlier;
    }
    Ok(new.len())
}

// Whether an alert with this label set is held.
fn has_alert(held: &Held, labels: &LabelSet) -> bool
    ensures { result ≡ has_alert held.now labels.now }
{
    held.alerts().get(labels).is_some()
}
