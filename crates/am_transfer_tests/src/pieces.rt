//! How what is held is cut, by numbers and by bytes.

use am_expect::equal;
use am_item::{Held, Item, Matchers, SharedItem, Silence, SilenceId, Stamp, Thing};
use am_ring::Instance;
use am_tenant::TenantName;
use am_text::{Moment, Text};
use am_transfer::{Peer, Piece, Settling};
use std::alloc::Global;
use std::test::Fail;

/// A piece as it is told: its place, how many items it has, and whether it is the last.
pub type Told = (usize, usize, bool);

// A silence whose comment has so many bytes; such an item has 72 bytes more. They stand in the order of their numbers.
fn item(alloc: Global, number: u8, length: usize) -> Result<Item, Fail> {
    let mut id = [0; 16];
    id[0] = number;
    let moment = Moment::from_milliseconds(0).ok_or("no moment")?;
    let bytes = vec![in alloc; b'x'; length]?;
    let text = String::from_utf8(bytes).ok().ok_or("no text")?;
    Ok(Item {
        stamp: Stamp {
            moment,
            instance: 2,
            incarnation: 1,
            count: u64::from(number),
        },
        thing: Thing::Silence(Silence {
            id: SilenceId::from_bytes(id),
            starts_at: moment,
            ends_at: moment,
            kept_until: moment,
            created_by: Text::from_string(String::new(alloc)),
            comment: Text::from_string(text),
            matchers: Matchers::from_vec(Vec::new(alloc)),
        }),
    })
}

/// What is held where silences were put whose comments have so many bytes.
pub fn held_of(alloc: Global, lengths: &[usize]) -> Result<Held, Fail> {
    let mut list = Vec::new(alloc);
    for (number, length) in lengths.iter().enumerate() {
        let item = item(alloc, u8::try_from(number)?, *length)?;
        list.push(SharedItem::new(alloc, item)?)?;
    }
    Ok(Held::best_of(alloc, &list)?)
}

fn told_at(alloc: Global, pieces: &[Piece], index: usize) -> Result<Option<Told>, Fail> {
    let Some(piece) = pieces.get(index) else {
        return Ok(None);
    };
    let items = piece.items().list(alloc)?;
    Ok(Some((piece.place(), items.len(), piece.is_last())))
}

/// The first two pieces, as they are told.
pub fn told(alloc: Global, pieces: &[Piece]) -> Result<[Option<Told>; 2], Fail> {
    Ok([told_at(alloc, pieces, 0)?, told_at(alloc, pieces, 1)?])
}

// What is held by the lengths of the silences' comments, and the first two pieces of each.
const CUTS: &[(&str, &[usize], [Option<Told>; 2])] = &[
    ("nothing", &[], [Some((0, 0, true)), None]),
    ("64 items", &[0; 64], [Some((0, 64, true)), None]),
    (
        "65 items",
        &[0; 65],
        [Some((0, 64, false)), Some((64, 1, true))],
    ),
    (
        "65,536 bytes",
        &[32_696, 32_696],
        [Some((0, 2, true)), None],
    ),
    (
        "65,537 bytes",
        &[32_696, 32_697],
        [Some((0, 1, false)), Some((1, 1, true))],
    ),
    (
        "a large item behind a small one",
        &[0, 70_000],
        [Some((0, 1, false)), Some((1, 1, true))],
    ),
    (
        "a small item behind a large one",
        &[70_000, 0],
        [Some((0, 1, false)), Some((1, 1, true))],
    ),
];

fn cut(alloc: Global, lengths: &[usize]) -> Result<[Option<Told>; 2], Fail> {
    let tenant = TenantName::read(b"a").ok().ok_or("no tenant")?;
    let moment = Moment::from_milliseconds(0).ok_or("no moment")?;
    let receiver = Peer {
        instance: Instance::new(4).ok_or("no instance")?,
        incarnation: 1,
    };
    let held = held_of(alloc, lengths)?;
    let mut settling = Settling::new(alloc);
    let pieces = settling.push(alloc, &tenant, receiver, moment, &held)?;
    told(alloc, &pieces)
}

#[test]
fn cuts(rt: HostRuntime) -> Result<(), Fail> {
    for (tried, lengths, wanted) in CUTS {
        equal(cut(rt.alloc(), lengths)?, *wanted, *tried)?;
    }
    Ok(())
}
