//! A State of 65 items on its way from instance 2 to 4: what comes, what is lost, and what is sent again.

use crate::pieces::{Told, held_of, told};
use am_expect::equal;
use am_item::Held;
use am_ring::Instance;
use am_tenant::TenantName;
use am_text::Moment;
use am_transfer::{Again, Peer, Piece, Settling, Span};
use std::alloc::Global;
use std::test::Fail;

// Which of the two pieces is lost, the place that the last Got tells, and what is sent again 10 seconds after the push.
const LOSSES: &[(&str, usize, u64, [Option<Told>; 2])] = &[
    ("none", 2, 65, [None, None]),
    ("the second", 1, 64, [Some((64, 1, true)), None]),
    (
        "the first",
        0,
        0,
        [Some((0, 64, false)), Some((64, 1, true))],
    ),
];

// A sender and a receiver of a tenant's State, and what they keep.
#[derive(Drop)]
struct Pair {
    tenant: TenantName,
    from: Peer,
    to: Peer,
    // The receiver's others.
    others: [Instance; 2],
    sender: Settling,
    receiver: Settling,
}

fn instance(number: u8) -> Result<Instance, Fail> {
    let instance = Instance::new(number).ok_or("no instance")?;
    Ok(instance)
}

fn moment(milliseconds: u64) -> Result<Moment, Fail> {
    let moment = Moment::from_milliseconds(milliseconds).ok_or("no moment")?;
    Ok(moment)
}

// A piece comes to the receiver, and its Got to the sender.
fn deliver(alloc: Global, pair: &mut Pair, piece: &Piece) -> Result<u64, Fail> {
    let place = u32::try_from(piece.place())?;
    let span = Span {
        count: u32::try_from(piece.items().list(alloc)?.len())?,
        is_last: piece.is_last(),
    };
    let behind = pair
        .receiver
        .state(alloc, &pair.tenant, pair.from, place, span, &pair.others)?;
    let named = usize::try_from(behind)?;
    pair.sender
        .got(alloc, &pair.tenant, pair.to, pair.to.incarnation, named)?;
    Ok(behind)
}

// What is sent again at the moment.
fn sent_again(
    alloc: Global,
    pair: &mut Pair,
    held: &Held,
    now: Moment,
) -> Result<[Option<Told>; 2], Fail> {
    let due = pair.sender.due(alloc, now)?;
    if due.is_empty() {
        return Ok([None, None]);
    }
    match pair
        .sender
        .tick(alloc, &pair.tenant, pair.to.instance, now, held)?
    {
        Again::State(2, pieces) => told(alloc, pieces.as_slice()),
        _ => Err(Fail::new("something else is sent again")),
    }
}

fn exchange(alloc: Global, pair: &mut Pair, lost: usize) -> Result<(u64, [Option<Told>; 2]), Fail> {
    let held = held_of(alloc, &[0; 65])?;
    let pieces = pair
        .sender
        .push(alloc, &pair.tenant, pair.to, moment(0)?, &held)?;
    let mut behind = 0;
    for (index, piece) in pieces.iter().enumerate() {
        if index != lost {
            behind = deliver(alloc, pair, piece)?;
        }
    }
    let early = sent_again(alloc, pair, &held, moment(9_999)?)?;
    equal(early, [None, None], "too early")?;
    let again = sent_again(alloc, pair, &held, moment(10_000)?)?;
    Ok((behind, again))
}

fn new_pair(alloc: Global) -> Result<Pair, Fail> {
    let tenant = TenantName::read(b"a").ok().ok_or("no tenant")?;
    let from = Peer {
        instance: instance(2)?,
        incarnation: 1,
    };
    let to = Peer {
        instance: instance(4)?,
        incarnation: 2,
    };
    Ok(Pair {
        tenant,
        from,
        to,
        others: [from.instance, instance(1)?],
        sender: Settling::new(alloc),
        receiver: Settling::new(alloc),
    })
}

#[test]
fn losses(rt: HostRuntime) -> Result<(), Fail> {
    for (tried, lost, behind, again) in LOSSES {
        let mut pair = new_pair(rt.alloc())?;
        let found = exchange(rt.alloc(), &mut pair, *lost)?;
        equal(found, (*behind, *again), *tried)?;
    }
    Ok(())
}

// From which instances the whole State comes, and whether the receiver is settled then.
const SETTLED: &[(&str, &[u8], bool)] = &[
    ("nobody", &[], false),
    ("one", &[2], false),
    ("one twice", &[2, 2], false),
    ("both", &[2, 1], true),
];

fn is_settled_by(alloc: Global, senders: &[u8]) -> Result<bool, Fail> {
    let mut pair = new_pair(alloc)?;
    for number in senders {
        let sender = Peer {
            instance: instance(*number)?,
            incarnation: 1,
        };
        let span = Span {
            count: 0,
            is_last: true,
        };
        pair.receiver
            .state(alloc, &pair.tenant, sender, 0, span, &pair.others)?;
    }
    Ok(pair.receiver.is_settled(&pair.tenant, false))
}

#[test]
fn settles_by_both(rt: HostRuntime) -> Result<(), Fail> {
    for (tried, senders, wanted) in SETTLED {
        equal(is_settled_by(rt.alloc(), senders)?, *wanted, *tried)?;
    }
    Ok(())
}
