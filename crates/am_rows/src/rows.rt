//! The trait of a store.

ghost use Rattle.std.specs.Prelude.{◌≡◌, ◌⊎◌, ℕ, Bool, List, [], IfErr, IfOk, OnErr, OnOk, true, false};
ghost use Rattle.std.specs.Cmp.Lexicographic.{slice_cmp};
ghost use Rattle.std.specs.List.{list_any};
ghost use Rattle.std.specs.List.Sorted.{IsStrictlySortedBy};
ghost use Rattle.std.specs.Ordering.{nat_cmp};
ghost use Rattle.am_item.specs.declared.item.Item.{Item};
ghost use Rattle.am_item.specs.Best.{IsRising};
ghost use Rattle.am_item.specs.Key.{SilenceKey};
ghost use Rattle.am_tenant.specs.Names.{same};
ghost use Rattle.am_rows.specs.Refusing.{IsCaused, IsJudged, MayRefuse, Medium, Wears};
ghost use Rattle.am_rows.specs.Rows.{Keeps, Makes, no_rows, put_rows, rows_of, stored_in, without_key};
ghost use Rattle.am_rows.specs.Rows.{without_silences};

use crate::refusal::StoreRefusal;
use am_item::{SharedItem, SilenceId};
use am_tenant::TenantName;
use am_text::Failure;
use std::alloc::Global;

/// The store of an instance: the configurations and silences of all tenants, which stay where the instance stops. What is
/// said of its rows holds as long as the disk has returned what was written.
pub trait Rows {
    // What it has, with whose it is.
    ghost pairs: { Self → List (List ℕ × Item) };

    // So far the disk has returned what was written. It may fall at any call, and never rises.
    ghost is_clean: { Self → Bool };

    // How often its medium failed, and whether that shut it: nothing is known of what it shows from then on.
    ghost medium: { Self → Medium };

    // It was opened, and no call was refused since: only then is it put to and dropped from.
    ghost is_open: { Self → Bool };

    // It has something, and is no store.
    ghost is_foreign: { Self → Type 0 };

    // Stores of this kind take no such items of a tenant.
    ghost rejects: { List ℕ → List Item → Type 0 };

    /// Opens it, again too: an empty one is made a store, all rows of another are tested.
    ///
    /// # Errors
    /// `F3` where it is no store; `F2` where a call of the database was refused; or out of memory. All rows stay.
    fn open(&mut self, alloc: Global) -> Result<(), Failure<StoreRefusal>>
        ensures clean { is_clean self.new ≡ true → is_clean self.old ≡ true }
        ensures open { OnOk result (is_open self.new ≡ true) }
        ensures opened { is_clean self.new ≡ true → OnOk result (Keeps (pairs self.old) (pairs self.new)) }
        ensures err { is_clean self.new ≡ true → (medium self.new).is_shut ≡ false
            → OnErr result (Keeps (pairs self.old) (pairs self.new)) }
        ensures fails { is_clean self.new ≡ true
            → IfErr result (IsJudged (is_foreign self.old) (MayRefuse (medium self.old) (medium self.new))) }
        ensures wears { is_clean self.new ≡ true → Wears (medium self.old) (medium self.new) };

    /// Puts items of a tenant and commits them, all or none: a configuration or silence takes its key's place, unless one is
    /// there whose stamp is no smaller. Alerts and sent entries are passed over.
    ///
    /// # Errors
    /// `F2` where a call of the database was refused, one for items that it has no room for too; or out of memory. All rows
    /// stay.
    fn put(
        &mut self,
        alloc: Global,
        tenant: &TenantName,
        items: &[SharedItem],
    ) -> Result<(), Failure<StoreRefusal>>
        requires open { is_open self.old ≡ true }
        ensures clean { is_clean self.new ≡ true → is_clean self.old ≡ true }
        ensures open { OnOk result (is_open self.new ≡ true) }
        ensures put { is_clean self.new ≡ true
            → OnOk result (Makes tenant.now (put_rows items.now) (pairs self.old) (pairs self.new)) }
        ensures err { is_clean self.new ≡ true → (medium self.new).is_shut ≡ false
            → OnErr result (Keeps (pairs self.old) (pairs self.new)) }
        ensures fails { is_clean self.new ≡ true
            → IfErr result (IsCaused (MayRefuse (medium self.old) (medium self.new) ⊎ rejects tenant.now items.now)) }
        ensures wears { is_clean self.new ≡ true → Wears (medium self.old) (medium self.new) };

    /// What it has of a tenant: its configuration, then its silences in order of identifier.
    ///
    /// # Errors
    /// `F2`, `F3` for a row that is no item of a tenant, or out of memory. All rows stay.
    fn rows_of(
        &mut self,
        alloc: Global,
        tenant: &TenantName,
    ) -> Result<Vec<SharedItem>, Failure<StoreRefusal>>
        requires { is_open self.old ≡ true }
        ensures clean { is_clean self.new ≡ true → is_clean self.old ≡ true }
        ensures open { OnOk result (is_open self.new ≡ true) }
        ensures rows { is_clean self.new ≡ true
            → IfOk result (λ items. items.items ≡ rows_of tenant.now (pairs self.old)) }
        ensures stored { IfOk result (λ items. stored_in items.items ≡ items.items) }
        ensures stays { is_clean self.new ≡ true → OnOk result (Keeps (pairs self.old) (pairs self.new)) }
        ensures err { is_clean self.new ≡ true → (medium self.new).is_shut ≡ false
            → OnErr result (Keeps (pairs self.old) (pairs self.new)) }
        ensures fails { is_clean self.new ≡ true
            → IfErr result (IsCaused (MayRefuse (medium self.old) (medium self.new))) }
        ensures wears { is_clean self.new ≡ true → Wears (medium self.old) (medium self.new) };

    /// The tenants of which it has something, each once, in order of name: no other tenant has a row.
    ///
    /// # Errors
    /// `F2`, or out of memory. All rows stay.
    fn tenants(&mut self, alloc: Global) -> Result<Vec<TenantName>, Failure<StoreRefusal>>
        requires { is_open self.old ≡ true }
        ensures clean { is_clean self.new ≡ true → is_clean self.old ≡ true }
        ensures open { OnOk result (is_open self.new ≡ true) }
        ensures order { IfOk result (λ names. IsStrictlySortedBy (slice_cmp nat_cmp) names.items) }
        ensures names { is_clean self.new ≡ true → IfOk result (λ names. (t : List ℕ)
            → list_any (same t) names.items ≡ false → rows_of t (pairs self.old) ≡ []) }
        ensures stays { is_clean self.new ≡ true → OnOk result (Keeps (pairs self.old) (pairs self.new)) }
        ensures err { is_clean self.new ≡ true → (medium self.new).is_shut ≡ false
            → OnErr result (Keeps (pairs self.old) (pairs self.new)) }
        ensures fails { is_clean self.new ≡ true
            → IfErr result (IsCaused (MayRefuse (medium self.old) (medium self.new))) }
        ensures wears { is_clean self.new ≡ true → Wears (medium self.old) (medium self.new) };

    /// Drops a silence of a tenant, and commits that.
    ///
    /// # Errors
    /// `F2` where a call of the database was refused, or out of memory. All rows stay.
    fn drop_silence(
        &mut self,
        tenant: &TenantName,
        id: &SilenceId,
    ) -> Result<(), Failure<StoreRefusal>>
        requires { is_open self.old ≡ true }
        ensures clean { is_clean self.new ≡ true → is_clean self.old ≡ true }
        ensures open { OnOk result (is_open self.new ≡ true) }
        ensures dropped { is_clean self.new ≡ true
            → OnOk result (Makes tenant.now (without_key (SilenceKey id.now)) (pairs self.old) (pairs self.new)) }
        ensures err { is_clean self.new ≡ true → (medium self.new).is_shut ≡ false
            → OnErr result (Keeps (pairs self.old) (pairs self.new)) }
        ensures fails { is_clean self.new ≡ true
            → IfErr result (IsCaused (MayRefuse (medium self.old) (medium self.new))) }
        ensures wears { is_clean self.new ≡ true → Wears (medium self.old) (medium self.new) };

    /// Drops silences, each named with its tenant, and commits that, all or none. It costs one commit, and none where none
    /// is named.
    ///
    /// # Errors
    /// `F2` where a call of the database was refused, or out of memory. All rows stay.
    fn drop_silences(
        &mut self,
        silences: &[(TenantName, SilenceId)],
    ) -> Result<(), Failure<StoreRefusal>>
        requires { is_open self.old ≡ true }
        ensures clean { is_clean self.new ≡ true → is_clean self.old ≡ true }
        ensures open { OnOk result (is_open self.new ≡ true) }
        ensures dropped { is_clean self.new ≡ true → OnOk result ((t : List ℕ) →
            rows_of t (pairs self.new) ≡ without_silences silences.now t (rows_of t (pairs self.old))) }
        ensures err { is_clean self.new ≡ true → (medium self.new).is_shut ≡ false
            → OnErr result (Keeps (pairs self.old) (pairs self.new)) }
        ensures fails { is_clean self.new ≡ true
            → IfErr result (IsCaused (MayRefuse (medium self.old) (medium self.new))) }
        ensures wears { is_clean self.new ≡ true → Wears (medium self.old) (medium self.new) };

    /// Drops all rows of a tenant, and commits that.
    ///
    /// # Errors
    /// `F2` where a call of the database was refused, or out of memory. All rows stay.
    fn drop_tenant(&mut self, tenant: &TenantName) -> Result<(), Failure<StoreRefusal>>
        requires { is_open self.old ≡ true }
        ensures clean { is_clean self.new ≡ true → is_clean self.old ≡ true }
        ensures open { OnOk result (is_open self.new ≡ true) }
        ensures dropped { is_clean self.new ≡ true
            → OnOk result (Makes tenant.now no_rows (pairs self.old) (pairs self.new)) }
        ensures err { is_clean self.new ≡ true → (medium self.new).is_shut ≡ false
            → OnErr result (Keeps (pairs self.old) (pairs self.new)) }
        ensures fails { is_clean self.new ≡ true
            → IfErr result (IsCaused (MayRefuse (medium self.old) (medium self.new))) }
        ensures wears { is_clean self.new ≡ true → Wears (medium self.old) (medium self.new) };
}
