ghost use Rattle.std.specs.Prelude.{◌≡◌, ◌+◌, ℕ, List, [], IfNone, IfOk, IfSome, OnErr, OnOk, false, filter, length, not, true, unwrap_or, if◌then◌else◌};
ghost use Rattle.std.specs.Borrow.{sem};
ghost use Rattle.std.specs.Io.BufRead.{Rests};
ghost use Rattle.std.specs.Option.{option_map_or};
ghost use Rattle.am_tenant.specs.Names.{same};
ghost use Rattle.am_item.specs.Best.{IsRising, all_joined, item_at};
ghost use Rattle.am_book.specs.Book.{are_new, items_of};
ghost use Rattle.am_item.specs.Key.{has_key};
ghost use Rattle.am_item.specs.Retirement.{is_retired};
ghost use Rattle.am_current.specs.Current.{configuration_in, read_for};

use crate::reading::Readings;
use crate::replacing::is_replaced;
use am_book::Book;
use am_config::Config;
use am_item::{Held, SharedItem, ThingKey};
use am_tenant::TenantName;
use am_text::Moment;
use std::alloc::{AllocError, Global};
use std::marker::Model;

/// What is held of all tenants, and the configurations that were read of it.
pub struct Holdings {
    parts: Parts,
}

// Written out, so that a crate which owns one need not prove anew how its parts are dropped.
impl Drop for Holdings {
    fn drop(self) {
        let Holdings { parts } = self;
        drop(parts);
    }
}

// The items, and of some tenants what their configuration was read as.
#[derive(Drop)]
struct Parts {
    book: Book,
    readings: Readings,
}

impl Parts {
    // Both of one tenant.
    fn of(&self, tenant: &TenantName) -> (&Held, &Config)
        ensures held { result.0.now ≡ items_of tenant.now self.now.book }
        ensures rising { IsRising result.0.now }
        ensures configuration { result.1.now ≡ unwrap_or (read_for tenant.now self.now.readings.read) self.now.readings.otherwise }
    {
        (self.book.held(tenant), self.readings.of(tenant))
    }
}

impl Model for Holdings {
    ghost use Rattle.std.specs.Prelude.{◌≡◌, ℕ, List};
    ghost use Rattle.am_config.specs.Default.{default_configuration};
    ghost use Rattle.am_item.specs.declared.item.Item.{Item};
    ghost use Rattle.am_current.specs.Current.{AreInUse};

    ghost Value = { List (List ℕ × Item) };

    ghost view = { λ holdings. holdings.parts.book };

    ghost invariant = { λ holdings. AreInUse holdings.parts.readings.read holdings.parts.book × (holdings.parts.readings.otherwise ≡ default_configuration) };
}

impl Holdings {
    ghost use Rattle.am_current.specs.contracts.holdings.Holdings.{the_row};

    /// Nothing held.
    ///
    /// # Errors
    /// Out of memory alone.
    pub fn new(alloc: Global) -> Result<Holdings, AllocError>
        ensures { IfOk result (λ holdings. holdings ≡ []) }
    {
        let parts = Parts {
            book: Book::new(alloc)?,
            readings: Readings::new(alloc)?,
        };
        Ok(Holdings { parts })
    }

    /// Forgets all that is held. It takes no memory.
    pub fn clear(&mut self)
        ensures { self.new ≡ [] }
    {
        self.parts.book.clear();
        self.parts.readings.clear();
    }

    /// Forgets all that is held of a tenant, and the configuration that was read for it: the default one is in use
    /// until another is put. Other tenants' items stay. It takes no memory.
    pub fn drop_tenant(&mut self, tenant: &TenantName)
        ensures { (t : List ℕ) → items_of t self.new
            ≡ (if same t tenant.now then [] else items_of t self.old) }
    {
        let parts = &mut self.parts;
        parts.book.drop_tenant(tenant);
        parts.readings.forget(tenant);
    }

    /// What is held of a tenant, in the order of keys.
    pub fn held(&self, tenant: &TenantName) -> &Held
        ensures items { result.now ≡ items_of tenant.now self.now }
        ensures rising { IsRising result.now }
    {
        self.parts.book.held(tenant)
    }

    /// What is held of a tenant, and the configuration in use for it. A text is read when it is first used, and not
    /// again until a newer configuration is put.
    ///
    /// # Errors
    /// Out of memory alone; what is held stays then too.
    pub fn in_use(
        &mut self,
        alloc: Global,
        tenant: &TenantName,
    ) -> Result<(&Held, &Config), AllocError>
        ensures* stays { sem 𝓛 (Rests the_row self.entry (λ new. new ≡ self.old)) }
        ensures held { IfOk result (λ used. used.0.now ≡ items_of tenant.now self.old) }
        ensures rising { IfOk result (λ used. IsRising used.0.now) }
        ensures configuration { IfOk result (λ used. used.1.now ≡ configuration_in (items_of tenant.now self.old)) }
    {
        self.parts
            .readings
            .keep(alloc, tenant, self.parts.book.held(tenant))?;
        Ok(self.parts.of(tenant))
    }

    /// Puts items of a tenant, one after the other: each takes its key's place, unless an item of that key is held
    /// whose stamp is no smaller. Answers of each whether none of its key was held. After an error, which is out of
    /// memory, the first of them may be there; other tenants' items stay.
    pub fn put_all(
        &mut self,
        alloc: Global,
        tenant: &TenantName,
        items: Vec<SharedItem>,
    ) -> Result<Vec<bool>, AllocError>
        ensures joined { OnOk result ((t : List ℕ) → items_of t self.new ≡ (if same t tenant.now then all_joined (items_of t self.old) items.items else items_of t self.old)) }
        ensures new { IfOk result (λ new. new.items ≡ are_new (items_of tenant.now self.old) items.items) }
        ensures others { OnErr result ((t : List ℕ) → same t tenant.now ≡ false → items_of t self.new ≡ items_of t self.old) }
    {
        let is_replaced = is_replaced(self.parts.book.held(tenant), items.as_slice());
        let put = self.parts.book.put_all(alloc, tenant, items);
        if is_replaced || put.is_err() {
            self.parts.readings.forget(tenant);
        }
        put
    }

    /// Takes out the item that is retired first, where one is retired at the moment, and answers whose it was and its
    /// key, which is never that of a configuration. It looks at no more than that item and the one that retires next.
    ///
    /// # Errors
    /// Out of memory alone; what is held stays then.
    pub fn pop_retired(
        &mut self,
        moment: Moment,
    ) -> Result<Option<(TenantName, ThingKey)>, AllocError>
        ensures none { IfOk result (λ first. IfNone first ((t : List ℕ) → filter (λ item. not (is_retired moment item)) (items_of t self.old) ≡ items_of t self.old)) }
        ensures stays { IfOk result (λ first. IfNone first ((t : List ℕ) → items_of t self.new ≡ items_of t self.old)) }
        ensures retired { IfOk result (λ first. IfSome first (λ first. option_map_or (is_retired moment) (item_at first.1 (items_of first.0 self.old)) false ≡ true)) }
        ensures others { IfOk result (λ first. IfSome first (λ first. (t : List ℕ) → items_of t self.new ≡ (if same t first.0 then filter (λ item. not (has_key first.1 item)) (items_of t self.old) else items_of t self.old))) }
        ensures fewer { IfOk result (λ first. IfSome first (λ _. length self.new + 1 ≡ length self.old)) }
        ensures err { OnErr result ((t : List ℕ) → items_of t self.new ≡ items_of t self.old) }
    {
        self.parts.book.pop_retired(moment)
    }
}
