//! What waits of tenants: whose turn it is, and who gives way.

use am_expect::equal;
use am_serve::{Lanes, Weighs};
use am_tenant::TenantName;
use std::test::Fail;

// What waits, and weighs what it says.
#[derive(Drop)]
struct Item {
    number: u64,
    bytes: usize,
}

impl Weighs for Item {
    ghost weight = { λ item. item.bytes };

    fn bytes(&self) -> usize {
        self.bytes
    }
}

// The places that are free, and what begins then.
type Begin = (usize, Option<u64>);

fn begin(lanes: &mut Lanes<Item>, rows: &[Begin]) -> Result<(), Fail> {
    for (free, wanted) in rows {
        equal(lanes.pop(*free).map(|taken| taken.1.number), *wanted, *free)?;
    }
    Ok(())
}

// Where the items of one tenant wait.
const ALONE: &[Begin] = &[
    (8, Some(0)),
    (7, Some(1)),
    (6, Some(2)),
    (5, Some(3)),
    (4, None),
];

// Where another tenant's items came.
const SHARED: &[Begin] = &[(4, Some(300)), (3, Some(301)), (2, None)];

// Where two of the first tenant's items ended.
const ENDED: &[Begin] = &[(4, Some(4))];

fn push_all(lanes: &mut Lanes<Item>, tenant: TenantName, from: u64, to: u64) -> Result<(), Fail> {
    for number in from..to {
        lanes.push(tenant, Item { number, bytes: 1 })?;
    }
    Ok(())
}

fn leaves_places(
    lanes: &mut Lanes<Item>,
    first: TenantName,
    second: TenantName,
) -> Result<(), Fail> {
    push_all(lanes, first, 0, 300)?;
    begin(lanes, ALONE)?;
    push_all(lanes, second, 300, 302)?;
    begin(lanes, SHARED)?;
    lanes.end(&first);
    lanes.end(&first);
    begin(lanes, ENDED)
}

#[test]
fn tenants_leave_places(rt: HostRuntime) -> Result<(), Fail> {
    let first = TenantName::read(b"first")?;
    let second = TenantName::read(b"second")?;
    leaves_places(&mut Lanes::new(rt.alloc()), first, second)
}

// How many MiB each item has of the first tenant, and of the second; which are given up, and how many MiB are left.
type Load = (&'static [usize], &'static [usize], &'static [u64], usize);

// The second tenant's items are numbered from 100 on.
const LOADS: &[Load] = &[
    (&[200], &[56], &[], 256),
    (&[200], &[56, 1], &[0], 57),
    (&[100, 100], &[90, 90], &[0, 100], 190),
    // One alone may hold more.
    (&[300], &[], &[], 300),
    (&[1, 300], &[2], &[0, 1], 2),
];

fn load(
    lanes: &mut Lanes<Item>,
    tenant: TenantName,
    first: u64,
    sizes: &[usize],
) -> Result<(), Fail> {
    let mut number = first;
    for size in sizes {
        let bytes = size.saturating_mul(1 << 20);
        lanes.push(tenant, Item { number, bytes })?;
        number = number.saturating_add(1);
    }
    Ok(())
}

// Holds what is given up to what is wanted.
fn relieve(lanes: &mut Lanes<Item>, wanted: &[u64], left: usize) -> Result<(), Fail> {
    for number in wanted {
        equal(
            lanes.give_up().map(|taken| taken.1.number),
            Some(*number),
            left,
        )?;
    }
    equal(lanes.give_up().map(|taken| taken.1.number), None, left)?;
    equal(lanes.bytes() >> 20, left, left)
}

#[test]
fn heaviest_tenants_give_way(rt: HostRuntime) -> Result<(), Fail> {
    let first = TenantName::read(b"first")?;
    let second = TenantName::read(b"second")?;
    for (own, others, wanted, left) in LOADS {
        let mut lanes = Lanes::new(rt.alloc());
        load(&mut lanes, first, 0, own)?;
        load(&mut lanes, second, 100, others)?;
        relieve(&mut lanes, wanted, *left)?;
    }
    Ok(())
}
