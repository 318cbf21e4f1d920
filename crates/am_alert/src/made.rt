//! The items that a posted list makes.

ghost use Rattle.std.specs.Prelude.{◌≡◌, IfOk};
ghost use Rattle.am_alert.specs.Made.{chosen, items_from, last_of_each, lasts_among, made, MakesItems, stamp_moment};

use crate::held::AlertBook;
use crate::maker::Maker;
use am_item::{Alert, Fault, GREATEST_COUNT, Held, Item, Stamp, Thing};
use am_text::Moment;
use std::alloc::{AllocError, Global};
use std::collections::BTreeSet;

/// The items of a posted list at a moment, where `held` is held, in the order of label sets: of each label
/// set the last alert, in the order of those places, each with the next count. A stamp comes after that of
/// the item that is held of its key.
#[tactic(auto, unfolding(crate::specs::Made::made))]
pub fn items_of_post(
    alloc: Global,
    posted: Vec<Alert>,
    held: &Held,
    moment: Moment,
    maker: Maker,
) -> Result<Vec<Item>, Fault>
    ensures { MakesItems result (made held.now moment maker posted.items) }
{
    let alerts = last_of_each(alloc, posted)?;
    items_from(alloc, alerts, held, moment, maker)
}

// Of each label set the last alert, in the order of those places.
fn last_of_each(alloc: Global, posted: Vec<Alert>) -> Result<Vec<Alert>, AllocError>
    ensures { IfOk result (λ v. v.items ≡ last_of_each posted.items) }
{
    let lasts = lasts_among(alloc, &posted)?;
    chosen(alloc, posted, lasts)
}

// Of each alert whether no later one has its label set.
fn lasts_among(alloc: Global, posted: &[Alert]) -> Result<Vec<bool>, AllocError>
    ensures { IfOk result (λ v. v.items ≡ lasts_among posted.now) }
{
    let mut keys = BTreeSet::new(alloc);
    let mut lasts = Vec::with_capacity(alloc, posted.len())?;
    let mut before = posted;
    while let Some((alert, earlier)) = before.split_last() {
        lasts.push(keys.insert(&alert.labels)?)?;
        before = earlier;
    }
    lasts.reverse();
    Ok(lasts)
}

// The alerts that are chosen, in their order.
fn chosen(alloc: Global, alerts: Vec<Alert>, choice: Vec<bool>) -> Result<Vec<Alert>, AllocError>
    ensures { IfOk result (λ v. v.items ≡ chosen choice.items alerts.items) }
{
    alerts
        .into_iter()
        .zip(choice)
        .filter(|(_, is_chosen)| *is_chosen)
        .map(|(alert, _)| alert)
        .collect(alloc)
}

#[tactic(auto, unfolding(crate::specs::Made::items_from))]
fn items_from(
    alloc: Global,
    alerts: Vec<Alert>,
    held: &Held,
    moment: Moment,
    maker: Maker,
) -> Result<Vec<Item>, Fault>
    ensures { MakesItems result (items_from held.now moment maker alerts.items) }
{
    let book = AlertBook::new(held);
    let mut items = Vec::with_capacity(alloc, alerts.len())?;
    let mut used = maker.used;
    for alert in alerts {
        if used >= GREATEST_COUNT {
            return Err(Fault::CountsExhausted);
        }
        used += 1;
        let stamp = Stamp {
            moment: stamp_moment(moment, book.seen(&alert.labels)),
            instance: maker.instance,
            incarnation: maker.incarnation,
            count: used,
        };
        items.push(Item {
            stamp,
            thing: Thing::Alert(alert),
        })?;
    }
    Ok(items)
}

/// The moment of a write's stamp: that of the event, or one millisecond past the stamp that was seen of its key, where that
/// is later; the greatest moment at most.
pub fn stamp_moment(moment: Moment, seen: Option<Moment>) -> Moment
    ensures { result ≡ stamp_moment moment seen }
{
    match seen {
        None => moment,
        Some(before) => moment.max(before.plus(1)),
    }
}
