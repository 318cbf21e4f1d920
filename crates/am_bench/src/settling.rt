//! What settling costs, for `bench/settling`.
//!
//! `prepare TENANTS ITEMS` makes what is held of so many tenants, so many items of each. `change TENANTS ITEMS TIMES`
//! does that, and so often a ring is learned under which another instance is the tenants' replica: their States begin
//! to be pushed to it, and those of the time before are given back. `state ITEMS` hands a State over, piece by piece.
//! What is held stays to the end. `ticks TENANTS TICKS` asks so often what is sent again, of so many tenants whose push
//! runs, where nothing is due.
use crate::number;
use am_item::{Held, Item, Matchers, SharedItem, Silence, SilenceId, Stamp, Thing};
use am_ring::Instance;
use am_tenant::TenantName;
use am_text::{Moment, Text};
use am_transfer::{Peer, Settling, Span};
use anyhow::{Context, Result, bail};
use std::alloc::Global;
use std::mem::forget;

/// The instance whose States are sent, the one that is new among a tenant's three, and the third.
const SENDER: u8 = 2;

const RECEIVER: u8 = 4;

const THIRD: u8 = 1;

/// The one that was among the three before.
const LEFT: u8 = 3;

/// The incarnation of each.
const INCARNATION: u32 = 1;

/// How many bytes a silence's comment has, so that an item has some 200 bytes.
const COMMENT_LENGTH: usize = 128;

/// A tenant and what is held of it.
#[derive(Drop)]
struct Holding {
    tenant: TenantName,
    held: Held,
}

/// Does what the words say.
pub fn run(alloc: Global, words: &[String]) -> Result<usize> {
    let Some(task) = words.first() else {
        bail!("prepare, change, state or ticks");
    };
    let first = number(words, 1)?;
    match task.as_str() {
        "prepare" => prepare(alloc, first, number(words, 2)?),
        "change" => change(alloc, first, number(words, 2)?, number(words, 3)?),
        "state" => hand_over(alloc, first),
        "ticks" => tick(alloc, first, number(words, 2)?),
        _ => bail!("prepare, change, state or ticks"),
    }
}

fn moment(milliseconds: u64) -> Result<Moment> {
    Moment::from_milliseconds(milliseconds).context("no moment")
}

fn instance(number: u8) -> Result<Instance> {
    Instance::new(number).context("no instance")
}

fn peer(number: u8) -> Result<Peer> {
    Ok(Peer {
        instance: instance(number)?,
        incarnation: INCARNATION,
    })
}

/// A silence of some 200 bytes.
fn item(alloc: Global, number: u32) -> Result<SharedItem> {
    let text = String::from_utf8(vec![in alloc; b'x'; COMMENT_LENGTH]?)?;
    let [first, second, third, fourth] = number.to_be_bytes();
    let mut id = [0; 16];
    id[0] = first;
    id[1] = second;
    id[2] = third;
    id[3] = fourth;
    let stamp = Stamp {
        moment: moment(0)?,
        instance: SENDER,
        incarnation: INCARNATION,
        count: u64::from(number),
    };
    let thing = Thing::Silence(Silence {
        id: SilenceId::from_bytes(id),
        starts_at: moment(0)?,
        ends_at: moment(0)?,
        kept_until: moment(0)?,
        created_by: Text::from_string(String::new(alloc)),
        comment: Text::from_string(text),
        matchers: Matchers::from_vec(Vec::new(alloc)),
    });
    Ok(SharedItem::new(alloc, Item { stamp, thing })?)
}

fn held_of(alloc: Global, count: u32) -> Result<Held> {
    let mut items = Vec::new(alloc);
    for number in 0..count {
        items.push(item(alloc, number)?)?;
    }
    Ok(Held::best_of(alloc, &items)?)
}

fn holding_of(alloc: Global, number: u32, count: u32) -> Result<Holding> {
    let name = format!(in alloc; "tenant-{number}")?;
    let tenant = TenantName::read(name.as_bytes()).ok().context("no tenant")?;
    let held = held_of(alloc, count)?;
    Ok(Holding { tenant, held })
}

/// So many tenants, so many items of each.
fn holdings(alloc: Global, tenants: u32, count: u32) -> Result<Vec<Holding>> {
    let mut holdings = Vec::new(alloc);
    for number in 0..tenants {
        holdings.push(holding_of(alloc, number, count)?)?;
    }
    Ok(holdings)
}

/// A ring is learned under which another instance is a tenant's replica, and its State begins to be pushed there.
fn learn(alloc: Global, settling: &mut Settling, holding: &Holding) -> Result<usize> {
    let tenant = &holding.tenant;
    let others = [instance(THIRD)?, instance(RECEIVER)?];
    let before = [instance(THIRD)?, instance(SENDER)?, instance(LEFT)?];
    let receivers = settling.changed(alloc, tenant, &others, &before)?;
    let mut pieces = 0;
    for instance in receivers {
        let receiver = Peer {
            instance,
            incarnation: INCARNATION,
        };
        let pushed = settling.push(alloc, tenant, receiver, moment(0)?, &holding.held)?;
        pieces = pushed.len();
    }
    Ok(pieces)
}

/// Makes what is held of so many tenants, so many items of each. Gives how many tenants.
fn prepare(alloc: Global, tenants: u32, count: u32) -> Result<usize> {
    let holdings = holdings(alloc, tenants, count)?;
    let made = holdings.len();
    forget(holdings);
    Ok(made)
}

/// A ring change of all these tenants, and what it sends is given back. Gives how many pieces the last State has.
fn learn_all(alloc: Global, holdings: &[Holding]) -> Result<usize> {
    let mut settling = Settling::new(alloc);
    let mut pieces = 0;
    for holding in holdings {
        pieces = learn(alloc, &mut settling, holding)?;
    }
    Ok(pieces)
}

/// So many ring changes of so many tenants. Gives how many pieces the last State has.
fn change(alloc: Global, tenants: u32, count: u32, times: u32) -> Result<usize> {
    let holdings = holdings(alloc, tenants, count)?;
    let mut pieces = 0;
    for _ in 0..times {
        pieces = learn_all(alloc, holdings.as_slice())?;
    }
    forget(holdings);
    Ok(pieces)
}

/// A State of so many items, each piece of which comes and is answered by a Got. Gives the place that the last one
/// told.
fn hand_over(alloc: Global, count: u32) -> Result<usize> {
    let Holding { tenant, held } = holding_of(alloc, 0, count)?;
    let (mut sender, mut receiver) = (Settling::new(alloc), Settling::new(alloc));
    let (from, to) = (peer(SENDER)?, peer(RECEIVER)?);
    let others = [instance(THIRD)?, from.instance];
    let mut behind = 0;
    for piece in sender.push(alloc, &tenant, to, moment(0)?, &held)? {
        let place = u32::try_from(piece.place())?;
        let span = Span {
            count: u32::try_from(piece.items().list(alloc)?.len())?,
            is_last: piece.is_last(),
        };
        let told = receiver.state(alloc, &tenant, from, place, span, &others)?;
        behind = usize::try_from(told)?;
        sender.got(alloc, &tenant, to, INCARNATION, behind)?;
    }
    forget((sender, receiver));
    forget(held);
    Ok(behind)
}

/// So many ticks at which nothing is due, where the States of so many tenants are pushed. Gives what was due.
fn tick(alloc: Global, tenants: u32, ticks: u32) -> Result<usize> {
    let mut settling = Settling::new(alloc);
    for holding in holdings(alloc, tenants, 1)? {
        learn(alloc, &mut settling, &holding)?;
    }
    let now = moment(1)?;
    let mut due = 0;
    for _ in 0..ticks {
        due = settling.due(alloc, now)?.len();
    }
    Ok(due)
}
