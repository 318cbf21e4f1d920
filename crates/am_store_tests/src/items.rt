//! What is put, step by step, and how the rows are told.

ghost use Rattle.std.specs.Prelude.{All, IfOk};
ghost use Rattle.am_rows.specs.Fit.{IsFit, IsNumbered};

use crate::work::Told;
use am_item::{Item, Matchers, SharedItem, Silence, SilenceId, Stamp, Thing};
use am_rows::StoreRefusal;
use am_store::Store;
use am_tenant::TenantName;
use am_text::{Failure, Moment, Text};
use sqlite::Alter;
use std::alloc::{AllocError, Global};

#[derive(Clone, Copy)]
enum Step {
    /// A configuration of this count is put, and a silence of the next.
    Put(u8),
    DropSilence,
    DropTenant,
}

// The steps, each with its tenant.
const STEPS: &[(&[u8], Step)] = &[
    (b"a", Step::Put(1)),
    (b"b", Step::Put(3)),
    (b"a", Step::Put(5)),
    (b"a", Step::DropSilence),
    (b"b", Step::DropTenant),
];

/// What the rows are told as before the store is opened, then behind the opening and behind each step.
pub(crate) const ROWS: [u64; 7] = [0, 0, 1_120, 212_034, 256_034, 25_034, 150];

fn stamp(count: u8) -> Stamp
    ensures { IsNumbered result }
{
    Stamp {
        moment: Moment::greatest(),
        instance: 1,
        incarnation: 1,
        count: u64::from(count),
    }
}

// A configuration; that of the count 5 was deleted.
fn configuration(alloc: Global, count: u8) -> Result<Item, AllocError>
    ensures { IfOk result IsFit }
{
    let body = if count == 5 {
        None
    } else {
        Some(Text::read(alloc, "route: {}")?)
    };
    Ok(Item {
        stamp: stamp(count),
        thing: Thing::Configuration(body),
    })
}

fn identifier() -> SilenceId {
    SilenceId::from_bytes([7; 16])
}

// A silence of no matchers.
fn silence(alloc: Global, count: u8) -> Result<Item, AllocError>
    ensures { IfOk result IsFit }
{
    let stamp = stamp(count);
    Ok(Item {
        stamp,
        thing: Thing::Silence(Silence {
            id: identifier(),
            starts_at: stamp.moment,
            ends_at: stamp.moment,
            kept_until: stamp.moment,
            created_by: Text::read(alloc, "ada")?,
            comment: Text::from_string(String::new(alloc)),
            matchers: Matchers::from_vec(Vec::new(alloc)),
        }),
    })
}

// A configuration of this count and a silence of the next.
fn items(alloc: Global, count: u8) -> Result<Vec<SharedItem>, AllocError>
    ensures { IfOk result (λ items. All IsFit items.items) }
{
    let mut items = Vec::new(alloc);
    let configuration = configuration(alloc, count)?;
    items.push(SharedItem::new(alloc, configuration)?)?;
    let silence = silence(alloc, count.saturating_add(1))?;
    items.push(SharedItem::new(alloc, silence)?)?;
    Ok(items)
}

fn put<S: Alter>(alloc: Global, store: &mut Store<S>, tenant: &TenantName, count: u8) -> bool {
    match items(alloc, count) {
        Ok(items) => store.put(alloc, tenant, items.as_slice()).is_ok(),
        Err(_) => false,
    }
}

// Takes a step, and tells whether it was done.
fn take<S: Alter>(alloc: Global, store: &mut Store<S>, tenant: &TenantName, step: Step) -> bool {
    match step {
        Step::Put(count) => put(alloc, store, tenant, count),
        Step::DropSilence => store.drop_silence(tenant, &identifier()).is_ok(),
        Step::DropTenant => store.drop_tenant(tenant).is_ok(),
    }
}

/// Takes the steps until one is refused, and tells how many were done.
pub(crate) fn steps<S: Alter>(alloc: Global, store: &mut Store<S>) -> u64 {
    let mut taken = 0_u64;
    for (tenant, step) in STEPS {
        let is_taken = match TenantName::read(tenant) {
            Ok(tenant) => take(alloc, store, &tenant, *step),
            Err(_) => false,
        };
        if !is_taken {
            return taken;
        }
        taken = taken.saturating_add(1);
    }
    taken
}

/// The rows of a tenant.
pub(crate) fn rows_of<S: Alter>(
    alloc: Global,
    store: &mut Store<S>,
    tenant: &[u8],
) -> Result<Vec<SharedItem>, Failure<StoreRefusal>> {
    match TenantName::read(tenant) {
        Ok(tenant) => store.rows_of(alloc, &tenant),
        Err(_) => Err(Failure::Refused(StoreRefusal::Database)),
    }
}

// The digits, and behind them the counts of rows, a digit each.
fn with_counts(digits: u64, items: &[SharedItem]) -> u64 {
    let mut digits = digits;
    for item in items {
        digits = digits.wrapping_mul(10).wrapping_add(item.stamp().count);
    }
    digits
}

/// How many tenants there are, and then the counts of the rows of either, a digit each, with a 0 between them.
pub(crate) fn rows<S: Alter>(alloc: Global, store: &mut Store<S>) -> Told {
    let tenants = store.tenants(alloc)?.len() as u64;
    let first = with_counts(tenants, rows_of(alloc, store, b"a")?.as_slice());
    let second = rows_of(alloc, store, b"b")?;
    Ok(with_counts(first.wrapping_mul(10), second.as_slice()))
}
