ghost use Rattle.std.specs.Prelude.{◌≡◌, ◌+◌, ℕ, List, [], Some, length, slice_get, true, false, not, filter, IsSome, nat_le, IfNone, IfOk, IfSome, OnErr, OnOk, if◌then◌else◌};
ghost use Rattle.std.specs.BTreeMap.{IsOrdered};
ghost use Rattle.std.specs.Cmp.Lexicographic.{slice_cmp};
ghost use Rattle.std.specs.Option.{option_map_or};
ghost use Rattle.std.specs.Ordering.{nat_cmp};
ghost use Rattle.am_tenant.specs.Names.{same};
ghost use Rattle.am_item.specs.Best.{IsRising, all_joined, item_at, joined};
ghost use Rattle.am_item.specs.Key.{has_key};
ghost use Rattle.am_item.specs.Retirement.{is_retired};
ghost use Rattle.am_book.specs.Book.{AreHeld, IsPartlyJoined, are_new, held_of, is_new, items_of, pairs_of};
ghost use Rattle.am_book.specs.Row.{has_row, is_row_of, same_row, tells};
ghost use Rattle.am_book.specs.declared.row.Row.{Row};

use crate::row::Row;
use am_item::{Held, Put, SharedItem, Standing, ThingKey};
use am_tenant::TenantName;
use am_text::Moment;
use std::alloc::{AllocError, Global};
use std::collections::{BTreeMap, BTreeSet};
use std::marker::Model;

/// The items of all tenants: for each tenant the best of what was put, in the order of keys, but what retired.
pub struct Book {
    tenants: BTreeMap<TenantName, Held>,
    rows: BTreeSet<Row>,
    nothing: Held,
}

// Written out, so that a crate which owns one need not prove anew how its parts are dropped.
impl Drop for Book {
    fn drop(self) {
        let Book {
            tenants,
            rows,
            nothing,
        } = self;
        drop(tenants);
        drop(rows);
        drop(nothing);
    }
}

impl Model for Book {
    ghost use Rattle.std.specs.Prelude.{◌≡◌, ℕ, List, []};
    ghost use Rattle.am_item.specs.declared.item.Item.{Item};
    ghost use Rattle.am_book.specs.Book.{AreHeld, AreTold, pairs_of};

    ghost Value = { List (List ℕ × Item) };

    ghost view = { λ book. pairs_of book.tenants };

    ghost invariant = { λ book. AreHeld book.tenants × (book.nothing ≡ []) × AreTold book.rows book.tenants };
}

impl Book {
    /// A book without items.
    #[tactic(auto, unfolding(crate::specs::Book::pairs_of, crate::specs::Row::tells))]
    pub fn new(alloc: Global) -> Result<Book, AllocError>
        ensures { IfOk result (λ book. book ≡ []) }
    {
        Ok(Book {
            tenants: BTreeMap::new(alloc),
            rows: BTreeSet::new(alloc),
            nothing: Held::new(alloc)?,
        })
    }

    /// Forgets all items. It takes no memory.
    #[tactic(auto, unfolding(crate::specs::Book::pairs_of, crate::specs::Row::tells))]
    pub fn clear(&mut self)
        ensures { self.new ≡ [] }
    {
        self.tenants.clear();
        self.rows.clear();
    }

    /// Forgets all that is held of a tenant: it is again as one of which nothing was put. Other tenants' items stay. It
    /// takes no memory.
    pub fn drop_tenant(&mut self, tenant: &TenantName)
        ensures { (t : List ℕ) → items_of t self.new
            ≡ (if same t tenant.now then [] else items_of t self.old) }
    {
        self.tenants.remove(tenant);
        forget_all(&mut self.rows, tenant);
    }

    /// What is held of a tenant, in the order of keys.
    pub fn held(&self, tenant: &TenantName) -> &Held
        ensures items { result.now ≡ items_of tenant.now self.now }
        ensures rising { IsRising result.now }
    {
        match self.tenants.get(tenant) {
            Some(held) => held,
            None => &self.nothing,
        }
    }

    /// Puts an item of a tenant: it takes its key's place, unless an item of that key is held whose
    /// stamp is no smaller. Other tenants' items stay. Answers whether none of that key was held. An error, which is
    /// out of memory, leaves all items as they were.
    pub fn put(
        &mut self,
        alloc: Global,
        tenant: &TenantName,
        item: SharedItem,
    ) -> Result<bool, AllocError>
        ensures joined { OnOk result ((t : List ℕ) → items_of t self.new ≡ (if same t tenant.now then joined (items_of t self.old) item else items_of t self.old)) }
        ensures new { IfOk result (λ new. new ≡ is_new (items_of tenant.now self.old) item) }
        ensures err { OnErr result ((t : List ℕ) → items_of t self.new ≡ items_of t self.old) }
    {
        // A tenant's first items begin with the lists of nothing, which cost no memory until they change.
        let nothing = self.nothing.snapshot()?;
        let held = self.tenants.entry(*tenant)?.or_insert(nothing);
        put_in(alloc, held, &mut self.rows, tenant, item)
    }

    /// Puts items of a tenant, as [`Book::put`] does one after the other, and answers of each what that answers. After
    /// an error, which is out of memory, those before one of them are put and no others; other tenants' items stay.
    pub fn put_all(
        &mut self,
        alloc: Global,
        tenant: &TenantName,
        items: Vec<SharedItem>,
    ) -> Result<Vec<bool>, AllocError>
        ensures joined { OnOk result ((t : List ℕ) → items_of t self.new ≡ (if same t tenant.now then all_joined (items_of t self.old) items.items else items_of t self.old)) }
        ensures new { IfOk result (λ new. new.items ≡ are_new (items_of tenant.now self.old) items.items) }
        ensures own { OnErr result (IsPartlyJoined (items_of tenant.now self.old) items.items (items_of tenant.now self.new)) }
        ensures others { OnErr result ((t : List ℕ) → same t tenant.now ≡ false → items_of t self.new ≡ items_of t self.old) }
    {
        // Room for the answers is taken first, so that from then on only a put may fail.
        let mut answers = Vec::with_capacity(alloc, items.len())?;
        for item in items {
            let is_new = self.put(alloc, tenant, item)?;
            answers.push_reserved(is_new);
        }
        Ok(answers)
    }

    /// Takes out the item that is retired first, where one is retired at the moment, and answers whose it was and its
    /// key. It looks at no more than that item and the one that retires next. An error, which is out of memory, leaves
    /// all items as they were; it comes only where a snapshot shares the list that the item stands in.
    pub fn pop_retired(
        &mut self,
        moment: Moment,
    ) -> Result<Option<(TenantName, ThingKey)>, AllocError>
        ensures none { IfOk result (λ first. IfNone first ((t : List ℕ) → filter (λ item. not (is_retired moment item)) (items_of t self.old) ≡ items_of t self.old)) }
        ensures stays { IfOk result (λ first. IfNone first ((t : List ℕ) → items_of t self.new ≡ items_of t self.old)) }
        ensures retired { IfOk result (λ first. IfSome first (λ first. option_map_or (is_retired moment) (item_at first.1 (items_of first.0 self.old)) false ≡ true)) }
        ensures others { IfOk result (λ first. IfSome first (λ first. (t : List ℕ) → items_of t self.new ≡ (if same t first.0 then filter (λ item. not (has_key first.1 item)) (items_of t self.old) else items_of t self.old))) }
        ensures fewer { IfOk result (λ first. IfSome first (λ _. length self.new + 1 ≡ length self.old)) }
        ensures err { OnErr result ((t : List ℕ) → items_of t self.new ≡ items_of t self.old) }
    {
        let Some(row) = first_due(&self.rows, moment) else {
            return Ok(None);
        };
        remove_of(&mut self.tenants, row)?;
        let Some(row) = self.rows.pop_first() else {
            unreachable!();
        };
        Ok(Some((row.tenant, row.key)))
    }
}

// Puts an item of a tenant into what is held of it, and its row in the place of that of the item that it replaces.
// Answers whether none of its key was held.
fn put_in(
    alloc: Global,
    held: &mut Held,
    rows: &mut BTreeSet<Row>,
    tenant: &TenantName,
    item: SharedItem,
) -> Result<bool, AllocError>
    requires rising { IsRising held.old }
    requires told { (row : Row) → same row.tenant tenant.now ≡ true → has_row rows.old row ≡ tells row held.old }
    ensures joined { OnOk result (held.new ≡ joined held.old item) }
    ensures new { IfOk result (λ new. new ≡ is_new held.old item) }
    ensures err { OnErr result (held.new ≡ held.old) }
    ensures told { (row : Row) → has_row rows.new row ≡ (if same row.tenant tenant.now then tells row held.new else has_row rows.old row) }
{
    let key = item.key(alloc)?;
    let own = item.key(alloc)?;
    let standing = item.standing();
    // The row comes first: nothing that is held has to be taken back where memory runs out for it.
    let added = remember(rows, tenant, &standing, key)?;
    match held.put(item) {
        Ok(Put::New) => Ok(true),
        Ok(Put::Replaced(old)) => {
            forget(rows, tenant, &old, own);
            Ok(false)
        }
        Ok(Put::Older) => {
            // A row that was there before is that of the held item.
            if added {
                forget(rows, tenant, &standing, own);
            }
            Ok(false)
        }
        Err(refused) => {
            if added {
                forget(rows, tenant, &standing, own);
            }
            Err(refused)
        }
    }
}

// Adds the row of what stands at a tenant's key, and answers whether there is one and it wasn't there. Where memory
// runs out no row is added.
fn remember(
    rows: &mut BTreeSet<Row>,
    tenant: &TenantName,
    standing: &Standing,
    key: ThingKey,
) -> Result<bool, AllocError>
    ensures row { OnOk result ((row : Row) → has_row rows.new row ≡ (if is_row_of tenant.now key standing.now row then true else has_row rows.old row)) }
    ensures added { IfOk result (λ added. (row : Row) → is_row_of tenant.now key standing.now row ≡ true → has_row rows.old row ≡ not added) }
    ensures err { OnErr result (rows.new.keys ≡ rows.old.keys) }
{
    let Some(retires_at) = standing.retires_at else {
        return Ok(false);
    };
    let row = Row {
        retires_at,
        stamp: standing.stamp,
        tenant: *tenant,
        key,
    };
    Ok(rows.insert(row)?)
}

// Removes the row of what stood at a tenant's key.
fn forget(rows: &mut BTreeSet<Row>, tenant: &TenantName, standing: &Standing, key: ThingKey)
    ensures { (row : Row) → has_row rows.new row ≡ (if is_row_of tenant.now key standing.now row then false else has_row rows.old row) }
{
    if let Some(retires_at) = standing.retires_at {
        let row = Row {
            retires_at,
            stamp: standing.stamp,
            tenant: *tenant,
            key,
        };
        rows.remove(&row);
    }
}

// Removes all rows of a tenant.
fn forget_all(rows: &mut BTreeSet<Row>, tenant: &TenantName)
    ensures { (row : Row) → has_row rows.new row
        ≡ (if same row.tenant tenant.now then false else has_row rows.old row) }
{
    rows.retain(|row| row.tenant != *tenant);
}

// The first row, where its item is retired at the moment.
fn first_due(rows: &BTreeSet<Row>, moment: Moment) -> Option<&Row>
    ensures none { IfNone result ((row : Row) → has_row rows.now row ≡ true → nat_le row.retires_at moment ≡ false) }
    ensures due { IfSome result (λ row. nat_le row.now.retires_at moment ≡ true) }
    ensures first { IfSome result (λ row. slice_get rows.now.keys 0 ≡ Some row.now) }
    ensures there { IfSome result (λ row. has_row rows.now row.now ≡ true) }
{
    match rows.first() {
        None => None,
        Some(first) => {
            if first.retires_at <= moment {
                Some(first)
            } else {
                None
            }
        }
    }
}

// Removes the item of a row. Where memory runs out, all items stay.
fn remove_of(tenants: &mut BTreeMap<TenantName, Held>, row: &Row) -> Result<(), AllocError>
    requires { AreHeld tenants.old }
    ensures held { OnOk result ((t : List ℕ) → held_of t tenants.new ≡ (if same t row.now.tenant then filter (λ item. not (has_key row.now.key item)) (held_of t tenants.old) else held_of t tenants.old)) }
    ensures fewer { OnOk result (IsSome (item_at row.now.key (held_of row.now.tenant tenants.old)) → length (pairs_of tenants.new) + 1 ≡ length (pairs_of tenants.old)) }
    ensures err { OnErr result ((t : List ℕ) → held_of t tenants.new ≡ held_of t tenants.old) }
    ensures ordered { AreHeld tenants.new }
{
    match tenants.get_mut(&row.tenant) {
        None => Ok(()),
        Some(held) => held.remove(&row.key),
    }
}
