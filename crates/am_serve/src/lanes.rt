//! What waits to go out, tenant by tenant.
ghost use Rattle.std.specs.Prelude.{◌≡◌, ◌≢◌, ◌↔◌, ◌+◌, ◌-◌, ◌^◌, ◌<◌, ◌++◌, ◌∷◌, ℕ, List, [], Some, None};
ghost use Rattle.std.specs.Prelude.{IfNone, IfSome, IsTrue, OnErr, OnOk, false, true, if◌then◌else◌};
ghost use Rattle.am_tenant.specs.Names.{same};
ghost use Rattle.am_serve.specs.Lanes.{AreNeeded, can_begin, comes_before, is_after, is_below, is_needed, is_ready};
ghost use Rattle.am_serve.specs.Lanes.{under_way_of, waiting_of};
ghost use Rattle.am_serve.specs.Weights.{AreCounted, HoldsAll, IsHeaviest, WaitsWithin, all_bytes, exceeds, heavier};

use crate::weight::Weighs;
use am_tenant::TenantName;
use std::alloc::{AllocError, Global};
use std::collections::{BTreeMap, VecDeque};
use std::ops::Bound;

/// How many bytes all that waits may hold, unless one item holds them all.
pub const WAITING_BYTES: usize = 268_435_456;

// What is to go out of one tenant.
#[derive(Drop)]
struct Lane<T: Weighs> {
    // In the order in which they go out.
    waiting: VecDeque<T>,
    // How many bytes they hold.
    bytes: usize,
    under_way: usize,
}

impl<T: Weighs> Lane<T> {
    // Nothing waits, and nothing is under way.
    fn new(alloc: Global) -> Lane<T>
        ensures waiting { result.waiting.items ≡ [] }
        ensures bytes { result.bytes ≡ 0 }
        ensures under_way { result.under_way ≡ 0 }
    {
        Lane {
            waiting: VecDeque::new(alloc),
            bytes: 0,
            under_way: 0,
        }
    }

    // Puts an item behind those that wait. Where memory runs out they stay as they were.
    fn add(&mut self, item: T) -> Result<(), AllocError>
        requires { self.old.bytes + T.weight item < 2 ^ 64 }
        ensures waiting { OnOk result (self.new.waiting.items ≡ self.old.waiting.items ++ item ∷ []) }
        ensures bytes { OnOk result (self.new.bytes ≡ self.old.bytes + T.weight item) }
        ensures err { OnErr result (self.new.waiting.items ≡ self.old.waiting.items) }
        ensures err_bytes { OnErr result (self.new.bytes ≡ self.old.bytes) }
        ensures under_way { self.new.under_way ≡ self.old.under_way }
    {
        let bytes = self.bytes + item.bytes();
        self.waiting.push_back(item)?;
        self.bytes = bytes;
        Ok(())
    }

    // Whether something waits, and fewer are under way than there are places free.
    fn can_begin(&self, free: usize) -> bool
        ensures { result ≡ can_begin free self.now }
    {
        !self.waiting.is_empty() && self.under_way < free
    }

    // Whether something waits or is under way.
    fn is_needed(&self) -> bool
        ensures { result ≡ is_needed self.now }
    {
        !self.waiting.is_empty() || self.under_way > 0
    }
}

/// What waits to go out and how much is under way, tenant by tenant. What waits of a tenant keeps its order; the tenants
/// take turns, in the order of their names.
///
/// A tenant of whom nothing waits and nothing is under way takes no memory.
#[derive(Drop)]
pub struct Lanes<T: Weighs> {
    alloc: Global,
    lanes: BTreeMap<TenantName, Lane<T>>,
    // How many bytes all that waits holds.
    held: usize,
    // Whose turn was last.
    last: Option<TenantName>,
    ghost needed: { AreNeeded lanes },
    ghost counted: { AreCounted T.weight lanes },
    ghost sum: { held ≡ all_bytes T.weight lanes },
}

impl<T: Weighs> Lanes<T> {
    /// Nothing waits, nothing is under way, and nobody had a turn.
    pub fn new(alloc: Global) -> Lanes<T>
        ensures waiting { (t : List ℕ) → waiting_of t result.lanes ≡ [] }
        ensures under_way { (t : List ℕ) → under_way_of t result.lanes ≡ 0 }
        ensures last { result.last ≡ None }
    {
        Lanes {
            alloc,
            lanes: BTreeMap::new(alloc),
            held: 0,
            last: None,
        }
    }

    /// How many bytes all that waits holds.
    pub fn bytes(&self) -> usize
        ensures { result ≡ all_bytes T.weight self.now.lanes }
    {
        self.held
    }

    /// Puts an item behind those of its tenant that wait.
    ///
    /// # Errors
    /// Out of memory, as where 2^64 bytes would wait: nothing changed, and the item is dropped.
    pub fn push(&mut self, tenant: TenantName, item: T) -> Result<(), AllocError>
        ensures waiting { OnOk result ((t : List ℕ) → waiting_of t self.new.lanes
            ≡ (if same t tenant then waiting_of t self.old.lanes ++ item ∷ [] else waiting_of t self.old.lanes)) }
        ensures err { OnErr result ((t : List ℕ) → waiting_of t self.new.lanes ≡ waiting_of t self.old.lanes) }
        ensures under_way { (t : List ℕ) → under_way_of t self.new.lanes ≡ under_way_of t self.old.lanes }
        ensures last { self.new.last ≡ self.old.last }
    {
        let Some(held) = self.held.checked_add(item.bytes()) else {
            return Err(AllocError);
        };
        put(&mut self.lanes, self.alloc, tenant, item)?;
        self.held = held;
        Ok(())
    }

    /// Takes the first item that waits of the next tenant, after the one whose turn was last, that has fewer items under
    /// way than there are places free; it is under way then. `None`: there is no such tenant.
    pub fn pop(&mut self, free: usize) -> Option<(TenantName, T)>
        ensures ready { IfSome result (λ taken. is_ready free taken.0 self.old.lanes ≡ true) }
        // No tenant that is ready comes between the one whose turn was last and this one.
        ensures turn { IfSome result (λ taken. (t : List ℕ) → comes_before self.old.last t taken.0 ≡ true → is_ready free t self.old.lanes ≡ false) }
        ensures last { IfSome result (λ taken. self.new.last ≡ Some taken.0) }
        ensures first { IfSome result (λ taken. waiting_of taken.0 self.old.lanes ≡ taken.1 ∷ waiting_of taken.0 self.new.lanes) }
        ensures others { IfSome result (λ taken. (t : List ℕ) → same t taken.0 ≡ false → waiting_of t self.new.lanes ≡ waiting_of t self.old.lanes) }
        ensures under_way { IfSome result (λ taken. (t : List ℕ) → under_way_of t self.new.lanes
            ≡ (if same t taken.0 then under_way_of t self.old.lanes + 1 else under_way_of t self.old.lanes)) }
        ensures none { IfNone result ((t : List ℕ) → is_ready free t self.old.lanes ≡ false) }
        ensures stays { IfNone result (self.new ≡ self.old) }
    {
        let Some(tenant) = next_ready(&self.lanes, self.last, free) else {
            return None;
        };
        let item = take_first(&mut self.lanes, &tenant, free);
        self.held -= item.bytes();
        self.last = Some(tenant);
        Some((tenant, item))
    }

    /// Takes an item that is not to go out, where all that waits holds over 256 MiB and this one doesn't hold all of
    /// it: the first of the tenant of whom most bytes wait. It is under way then, as if it had been begun. `None`: what
    /// waits holds no more than it may.
    pub fn give_up(&mut self) -> Option<(TenantName, T)>
        ensures over { IfSome result (λ taken. 268435456 < all_bytes T.weight self.old.lanes) }
        ensures shared { IfSome result (λ taken. T.weight taken.1 ≢ all_bytes T.weight self.old.lanes) }
        ensures heaviest { IfSome result (λ taken. IsHeaviest T.weight taken.0 self.old.lanes) }
        ensures first { IfSome result (λ taken. waiting_of taken.0 self.old.lanes ≡ taken.1 ∷ waiting_of taken.0 self.new.lanes) }
        ensures others { IfSome result (λ taken. (t : List ℕ) → same t taken.0 ≡ false → waiting_of t self.new.lanes ≡ waiting_of t self.old.lanes) }
        ensures under_way { IfSome result (λ taken. (t : List ℕ) → under_way_of t self.new.lanes
            ≡ (if same t taken.0 then under_way_of t self.old.lanes + 1 else under_way_of t self.old.lanes)) }
        ensures last { self.new.last ≡ self.old.last }
        ensures none { IfNone result (WaitsWithin T.weight self.old.lanes × (self.new ≡ self.old)) }
    {
        if self.held <= WAITING_BYTES {
            return None;
        }
        let Some(tenant) = heaviest(&self.lanes) else {
            return None;
        };
        if self.holds_all(&tenant) {
            return None;
        }
        let item = take_first(&mut self.lanes, &tenant, usize::MAX);
        self.held -= item.bytes();
        Some((tenant, item))
    }

    // Whether a tenant's first item holds all that waits.
    fn holds_all(&self, tenant: &TenantName) -> bool
        ensures { IsTrue result ↔ HoldsAll T.weight tenant.now self.now.lanes }
    {
        match self.lanes.get(tenant) {
            Some(lane) => match lane.waiting.front() {
                Some(item) => item.bytes() == self.held,
                None => false,
            },
            None => false,
        }
    }

    /// An item of this tenant is no longer under way.
    pub fn end(&mut self, tenant: &TenantName)
        ensures waiting { (t : List ℕ) → waiting_of t self.new.lanes ≡ waiting_of t self.old.lanes }
        ensures under_way { (t : List ℕ) → under_way_of t self.new.lanes
            ≡ (if same t tenant.now then under_way_of t self.old.lanes - 1 else under_way_of t self.old.lanes) }
        ensures last { self.new.last ≡ self.old.last }
    {
        end_one(&mut self.lanes, tenant);
    }
}

// Puts an item behind those of its tenant that wait. Where memory runs out nothing changed.
fn put<T: Weighs>(
    lanes: &mut BTreeMap<TenantName, Lane<T>>,
    alloc: Global,
    tenant: TenantName,
    item: T,
) -> Result<(), AllocError>
    requires needed { AreNeeded lanes.old }
    requires counted { AreCounted T.weight lanes.old }
    requires fits { all_bytes T.weight lanes.old + T.weight item < 2 ^ 64 }
    ensures waiting { OnOk result ((t : List ℕ) → waiting_of t lanes.new
        ≡ (if same t tenant then waiting_of t lanes.old ++ item ∷ [] else waiting_of t lanes.old)) }
    ensures err { OnErr result ((t : List ℕ) → waiting_of t lanes.new ≡ waiting_of t lanes.old) }
    ensures under_way { (t : List ℕ) → under_way_of t lanes.new ≡ under_way_of t lanes.old }
    ensures needed { AreNeeded lanes.new }
    ensures counted { AreCounted T.weight lanes.new }
    ensures bytes { OnOk result (all_bytes T.weight lanes.new ≡ all_bytes T.weight lanes.old + T.weight item) }
    ensures err_bytes { OnErr result (all_bytes T.weight lanes.new ≡ all_bytes T.weight lanes.old) }
{
    if let Some(lane) = lanes.get_mut(&tenant) {
        lane.add(item)?;
        return Ok(());
    }
    let mut fresh = Lane::new(alloc);
    fresh.add(item)?;
    lanes.insert(tenant, fresh)?;
    Ok(())
}

// The first tenant that is ready of those whose names stand after this one; without one, of all.
fn first_ready<T: Weighs>(
    lanes: &BTreeMap<TenantName, Lane<T>>,
    after: Option<TenantName>,
    free: usize,
) -> Option<TenantName>
    ensures after { IfSome result (λ found. is_after after found ≡ true) }
    ensures ready { IfSome result (λ found. is_ready free found lanes.now ≡ true) }
    ensures first { IfSome result (λ found. (t : List ℕ) → is_after after t ≡ true → is_below t found ≡ true → is_ready free t lanes.now ≡ false) }
    ensures none { IfNone result ((t : List ℕ) → is_after after t ≡ true → is_ready free t lanes.now ≡ false) }
{
    let start = match after {
        Some(name) => Bound::Excluded(name),
        None => Bound::Unbounded,
    };
    for (tenant, lane) in lanes.range((start, Bound::Unbounded)) {
        if lane.can_begin(free) {
            return Some(*tenant);
        }
    }
    None
}

// The next tenant that is ready, after the one whose turn was last, and from the last name on to the first.
fn next_ready<T: Weighs>(
    lanes: &BTreeMap<TenantName, Lane<T>>,
    last: Option<TenantName>,
    free: usize,
) -> Option<TenantName>
    ensures ready { IfSome result (λ found. is_ready free found lanes.now ≡ true) }
    ensures turn { IfSome result (λ found. (t : List ℕ) → comes_before last t found ≡ true → is_ready free t lanes.now ≡ false) }
    ensures none { IfNone result ((t : List ℕ) → is_ready free t lanes.now ≡ false) }
{
    if free == 0 {
        return None;
    }
    match first_ready(lanes, last, free) {
        Some(tenant) => Some(tenant),
        None => first_ready(lanes, None, free),
    }
}

// Takes the first item that waits of a tenant that is ready; it is under way then.
fn take_first<T: Weighs>(
    lanes: &mut BTreeMap<TenantName, Lane<T>>,
    tenant: &TenantName,
    free: usize,
) -> T
    requires ready { is_ready free tenant.now lanes.old ≡ true }
    requires needed { AreNeeded lanes.old }
    requires counted { AreCounted T.weight lanes.old }
    ensures first { waiting_of tenant.now lanes.old ≡ result ∷ waiting_of tenant.now lanes.new }
    ensures others { (t : List ℕ) → same t tenant.now ≡ false → waiting_of t lanes.new ≡ waiting_of t lanes.old }
    ensures under_way { (t : List ℕ) → under_way_of t lanes.new
        ≡ (if same t tenant.now then under_way_of t lanes.old + 1 else under_way_of t lanes.old) }
    ensures needed { AreNeeded lanes.new }
    ensures counted { AreCounted T.weight lanes.new }
    ensures bytes { all_bytes T.weight lanes.new + T.weight result ≡ all_bytes T.weight lanes.old }
{
    let Some(lane) = lanes.get_mut(tenant) else {
        unreachable!()
    };
    let Some(item) = lane.waiting.pop_front() else {
        unreachable!()
    };
    let taken = item.bytes();
    lane.bytes -= taken;
    lane.under_way += 1;
    item
}

// One item fewer of a tenant is under way, and a lane that is no longer needed is dropped.
fn end_one<T: Weighs>(lanes: &mut BTreeMap<TenantName, Lane<T>>, tenant: &TenantName)
    requires needed { AreNeeded lanes.old }
    requires counted { AreCounted T.weight lanes.old }
    ensures waiting { (t : List ℕ) → waiting_of t lanes.new ≡ waiting_of t lanes.old }
    ensures under_way { (t : List ℕ) → under_way_of t lanes.new
        ≡ (if same t tenant.now then under_way_of t lanes.old - 1 else under_way_of t lanes.old) }
    ensures needed { AreNeeded lanes.new }
    ensures counted { AreCounted T.weight lanes.new }
    ensures bytes { all_bytes T.weight lanes.new ≡ all_bytes T.weight lanes.old }
{
    let Some(lane) = lanes.get_mut(tenant) else {
        return;
    };
    lane.under_way = lane.under_way.saturating_sub(1);
    if !lane.is_needed() {
        lanes.remove(tenant);
    }
}

// The tenant of whom most bytes wait, of those that could begin with all places free.
fn heaviest<T: Weighs>(lanes: &BTreeMap<TenantName, Lane<T>>) -> Option<TenantName>
    requires { AreCounted T.weight lanes.now }
    ensures some { IfSome result (λ tenant. IsHeaviest T.weight tenant lanes.now) }
    ensures none { IfNone result ((t : List ℕ) → is_ready 18446744073709551615 t lanes.now ≡ false) }
{
    let mut found = None;
    for (tenant, lane) in lanes {
        found = heavier(found, *tenant, lane);
    }
    let (tenant, _) = found?;
    Some(tenant)
}

// Of a tenant that was found with its bytes, if one was, and another one that of whom more bytes wait.
fn heavier<T: Weighs>(
    found: Option<(TenantName, usize)>,
    tenant: TenantName,
    lane: &Lane<T>,
) -> Option<(TenantName, usize)>
    ensures { result ≡ heavier found tenant lane.now }
{
    if lane.can_begin(usize::MAX) && exceeds(lane.bytes, &found) {
        Some((tenant, lane.bytes))
    } else {
        found
    }
}

// Whether these are more bytes than those of a tenant that was found, if one was.
fn exceeds(bytes: usize, found: &Option<(TenantName, usize)>) -> bool
    ensures { result ≡ exceeds bytes found.now }
{
    match found {
        Some((_, most)) => bytes > *most,
        None => true,
    }
}
