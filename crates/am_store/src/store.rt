//! The store.

ghost use Rattle.std.specs.Prelude.{◌≡◌, ℕ, List, false, All, IfErr, IfOk, IsTrue, MatchResult, OnErr, OnOk};
ghost use Rattle.std.specs.Cmp.Lexicographic.{slice_cmp};
ghost use Rattle.std.specs.List.{list_any};
ghost use Rattle.std.specs.Ordering.{nat_cmp};
ghost use Rattle.std.specs.List.Sorted.{IsPermutation, IsStrictlySortedBy};
ghost use Rattle.sqlite.specs.Held.{state};
ghost use Rattle.sqlite.specs.State.{HasCleanDisk, Survives};
ghost use Rattle.am_tenant.specs.Names.{same};
ghost use Rattle.am_item.specs.Best.{IsRising};
ghost use Rattle.am_item.specs.Key.{SilenceKey};
ghost use Rattle.am_share.specs.Pairs.{things_of};
ghost use Rattle.am_text.specs.Outcome.{ForRefused};
ghost use Rattle.am_store.specs.Failing.{FailsForCause, IsJudged, IsPutCaused};
ghost use Rattle.am_store.specs.Opening.{IsForeign, LeavesNew, Opens, Rests};
ghost use Rattle.am_rows.specs.Fit.{IsFit};
ghost use Rattle.am_store.specs.Rows.{IsStore, pairs_in};
ghost use Rattle.am_store.specs.Steps.{Commits, Empties, IsSame, Leaves, Removes, Stores};
ghost use Rattle.am_store.specs.Stored.{stored_items};
ghost use Rattle.am_store.specs.Tables.{no_schema};

use crate::refusal::failure_of;
use crate::{commit, opening, rows, tenants};
use am_item::{SharedItem, SilenceId};
use am_rows::StoreRefusal;
use am_share::{ShareRefusal, Shared};
use am_tenant::TenantName;
use am_text::Failure;
use sqlite::{Alter, Connection};
use std::alloc::Global;
use std::marker::Model;

/// The configurations and silences of all tenants, in a database. What is said of it holds as long as the disk has
/// returned what was written; and of a call that a failure of the disk shut it in, only what a crash may leave.
#[derive(Drop)]
pub struct Store<S: Alter> {
    conn: Connection<S>,
}

impl<S: Alter> Model for Store<S> {
    ghost use Rattle.sqlite.specs.Held.{Held, held_code};
    ghost use Rattle.std.specs.Prelude.{◌≡◌, false};

    ghost Value = { Held S };

    ghost coded = { held_code S.code };

    ghost view = { λ store. store.conn };

    ghost invariant = { λ store. store.conn.in_transaction ≡ false };
}

impl<S: Alter> Store<S> {
    /// Opens a database as a store. One without tables gets those of schema 1 and its version in one transaction; of
    /// one that has tables, each row is tested, and nothing is written.
    ///
    /// # Errors
    /// `F3` where the database has tables and is no store; `F2`, of a blank one too, where the disk failed or refused,
    /// a failure before had shut the connection, or it has a limit on steps; or out of memory. The connection is handed
    /// back and nothing was written; where a failure shut it, a crash leaves what was there before, or a store in which
    /// nothing is stored.
    pub fn open(
        alloc: Global,
        mut conn: Connection<S>,
    ) -> Result<Store<S>, (Failure<StoreRefusal>, Connection<S>)>
        requires { conn.in_transaction ≡ false }
        ensures opened { IfOk result (λ store. HasCleanDisk (state S.Store store)
            → Opens (state S.Store conn) (state S.Store store)) }
        ensures err { IfErr result (λ e. HasCleanDisk (state S.Store e.1) → IsTrue (state S.Store e.1).is_open
            → IsSame (state S.Store conn) (state S.Store e.1)) }
        ensures fails { IfErr result (λ e. HasCleanDisk (state S.Store e.1)
            → IsJudged (state S.Store conn) (state S.Store e.1) e.0) }
        ensures used { IfErr result (λ e. e.0 ≡ Failure.Refused StoreRefusal.Foreign
            → (state S.Store conn).now.schema ≡ no_schema → ⊥) }
        ensures foreign { IfErr result (λ e. HasCleanDisk (state S.Store e.1)
            → e.0 ≡ Failure.Refused StoreRefusal.Foreign → IsForeign (state S.Store conn).now) }
        ensures refused { IsForeign (state S.Store conn).now → MatchResult result
            (λ store. HasCleanDisk (state S.Store store) → ⊥)
            (λ e. Survives (state S.Store conn) (state S.Store e.1) (λ _. ⊥)) }
        ensures crash { MatchResult result
            (λ store. Survives (state S.Store conn) (state S.Store store) (LeavesNew (state S.Store conn)))
            (λ e. Survives (state S.Store conn) (state S.Store e.1) (LeavesNew (state S.Store conn))) }
    {
        match opening::open(alloc, &mut conn) {
            Ok(()) => Ok(Store { conn }),
            Err(failure) => Err((failure, conn)),
        }
    }

    /// The store's connection, as it is.
    pub fn into_connection(self) -> Connection<S>
        ensures { result ≡ self }
    {
        let Store { conn } = self;
        conn
    }

    /// Puts items of a tenant and commits them, all or none: a configuration or silence takes its key's place, unless
    /// one is there whose stamp is no smaller. Alerts and sent entries are passed over. Other tenants' rows stay.
    ///
    /// # Errors
    /// `F2` where the disk failed or a row can't be stored, as it is too large; or out of memory. All rows stay; where
    /// it shut the store, they are as before or as committed.
    pub fn put(
        &mut self,
        alloc: Global,
        tenant: &TenantName,
        items: &[SharedItem],
    ) -> Result<(), Failure<StoreRefusal>>
        requires { All IsFit items.now }
        ensures put { HasCleanDisk (state S.Store self.new) → IsStore (state S.Store self.old).now
            → OnOk result (Commits (Stores tenant.now (stored_items items.now)) (state S.Store self.old)
            (state S.Store self.new)) }
        ensures err { HasCleanDisk (state S.Store self.new) → IsStore (state S.Store self.old).now
            → IsTrue (state S.Store self.new).is_open
            → OnErr result (IsSame (state S.Store self.old) (state S.Store self.new)) }
        ensures fails { HasCleanDisk (state S.Store self.new) → IsStore (state S.Store self.old).now
            → IfErr result (IsPutCaused tenant.now (stored_items items.now) (state S.Store self.old)
            (state S.Store self.new)) }
        ensures database { IfErr result (λ failure. ForRefused failure (λ refusal. refusal ≡ StoreRefusal.Database)) }
        ensures crash { Survives (state S.Store self.old) (state S.Store self.new)
            (Leaves (Stores tenant.now (stored_items items.now)) (state S.Store self.old)) }
    {
        match commit::put(alloc, &mut self.conn, tenant, items) {
            Ok(()) => Ok(()),
            Err(error) => Err(failure_of(error)),
        }
    }

    /// What is stored of a tenant: its configuration, then its silences in order of identifier. No key has two rows.
    ///
    /// # Errors
    /// `F2`, `F3` for a row that is no item of a tenant, or out of memory.
    pub fn rows_of(
        &mut self,
        alloc: Global,
        tenant: &TenantName,
    ) -> Result<Vec<SharedItem>, Failure<StoreRefusal>>
        ensures rows { HasCleanDisk (state S.Store self.new) → IsStore (state S.Store self.old).now
            → IfOk result (λ items. IsPermutation (things_of tenant.now (pairs_in (state S.Store self.old).now.trees))
            (stored_items items.items)) }
        ensures order { IfOk result (λ items. IsRising items.items) }
        ensures fails { HasCleanDisk (state S.Store self.new) → IsStore (state S.Store self.old).now
            → FailsForCause (state S.Store self.old) (state S.Store self.new) result }
        ensures rests { (HasCleanDisk (state S.Store self.old) → IsStore (state S.Store self.old).now)
            → Rests (state S.Store self.old) (state S.Store self.new) }
        ensures same { HasCleanDisk (state S.Store self.new) → IsStore (state S.Store self.old).now
            → OnOk result ((state S.Store self.new).now ≡ (state S.Store self.old).now) }
    {
        rows::rows_of(alloc, &mut self.conn, tenant)
    }

    /// The tenants of which something is stored, each once, in order of name.
    ///
    /// # Errors
    /// `F2`, or out of memory. Nothing is written.
    pub fn tenants(&mut self, alloc: Global) -> Result<Vec<TenantName>, Failure<StoreRefusal>>
        ensures order { IfOk result (λ names. IsStrictlySortedBy (slice_cmp nat_cmp) names.items) }
        ensures names { HasCleanDisk (state S.Store self.new) → IsStore (state S.Store self.old).now
            → IfOk result (λ names. (t : List ℕ) → list_any (same t) names.items
            ≡ list_any (λ pair. same t pair.0) (pairs_in (state S.Store self.old).now.trees)) }
        ensures fails { HasCleanDisk (state S.Store self.new) → IsStore (state S.Store self.old).now
            → FailsForCause (state S.Store self.old) (state S.Store self.new) result }
        ensures rests { (HasCleanDisk (state S.Store self.old) → IsStore (state S.Store self.old).now)
            → Rests (state S.Store self.old) (state S.Store self.new) }
    {
        tenants::tenants(alloc, &mut self.conn)
    }

    /// Drops a silence of a tenant, and commits that. All other rows stay.
    ///
    /// # Errors
    /// `F2` where the disk failed, or out of memory. What stays is as of [`Store::put`].
    pub fn drop_silence(
        &mut self,
        tenant: &TenantName,
        id: &SilenceId,
    ) -> Result<(), Failure<StoreRefusal>>
        ensures dropped { HasCleanDisk (state S.Store self.new) → IsStore (state S.Store self.old).now
            → OnOk result (Commits (Removes tenant.now (SilenceKey id.now)) (state S.Store self.old)
            (state S.Store self.new)) }
        ensures err { HasCleanDisk (state S.Store self.new) → IsStore (state S.Store self.old).now
            → IsTrue (state S.Store self.new).is_open
            → OnErr result (IsSame (state S.Store self.old) (state S.Store self.new)) }
        ensures fails { HasCleanDisk (state S.Store self.new) → IsStore (state S.Store self.old).now
            → FailsForCause (state S.Store self.old) (state S.Store self.new) result }
        ensures database { IfErr result (λ failure. ForRefused failure (λ refusal. refusal ≡ StoreRefusal.Database)) }
        ensures crash { Survives (state S.Store self.old) (state S.Store self.new)
            (Leaves (Removes tenant.now (SilenceKey id.now)) (state S.Store self.old)) }
    {
        match commit::drop_silence(&mut self.conn, tenant, id) {
            Ok(()) => Ok(()),
            Err(error) => Err(failure_of(error)),
        }
    }

    /// Drops all rows of a tenant, and commits that. Other tenants' rows stay.
    ///
    /// # Errors
    /// `F2` where the disk failed, or out of memory. What stays is as of [`Store::put`].
    pub fn drop_tenant(&mut self, tenant: &TenantName) -> Result<(), Failure<StoreRefusal>>
        ensures dropped { HasCleanDisk (state S.Store self.new) → IsStore (state S.Store self.old).now
            → OnOk result (Commits (Empties tenant.now) (state S.Store self.old) (state S.Store self.new)) }
        ensures err { HasCleanDisk (state S.Store self.new) → IsStore (state S.Store self.old).now
            → IsTrue (state S.Store self.new).is_open
            → OnErr result (IsSame (state S.Store self.old) (state S.Store self.new)) }
        ensures fails { HasCleanDisk (state S.Store self.new) → IsStore (state S.Store self.old).now
            → FailsForCause (state S.Store self.old) (state S.Store self.new) result }
        ensures database { IfErr result (λ failure. ForRefused failure (λ refusal. refusal ≡ StoreRefusal.Database)) }
        ensures crash { Survives (state S.Store self.old) (state S.Store self.new)
            (Leaves (Empties tenant.now) (state S.Store self.old)) }
    {
        match commit::drop_tenant(&mut self.conn, tenant) {
            Ok(()) => Ok(()),
            Err(error) => Err(failure_of(error)),
        }
    }
}

impl<S: Alter> Shared for Store<S> {
    ghost use Rattle.am_store.specs.Kept.{Stands};
    ghost use Rattle.am_store.specs.Stored.{Stored};

    ghost Thing = { Stored };

    ghost pairs = { λ store. pairs_in (state S.Store store).now.trees };

    ghost stands = { Stands S.Store };

    ghost refuses = { Unit {0} };

    fn drop_tenant(&mut self, tenant: &TenantName) -> Result<(), Failure<ShareRefusal>> {
        match self.drop_tenant(tenant) {
            Ok(()) => Ok(()),
            Err(failure) => Err(failure.refuse_as(ShareRefusal::Database)),
        }
    }
}
