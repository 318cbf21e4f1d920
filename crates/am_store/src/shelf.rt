//! A database as the store of an instance, opened or not.

ghost use Rattle.std.specs.Prelude.{◌≡◌, Bool, None, false, true};
ghost use Rattle.sqlite.specs.Held.{state};
ghost use Rattle.am_store.specs.Items.{kept_in};

use crate::fit::are_fit;
use crate::refusal::failure_of;
use crate::{commit, opening, rows, tenants};
use am_item::{SharedItem, SilenceId};
use am_rows::{Rows, StoreRefusal};
use am_tenant::TenantName;
use am_text::Failure;
use sqlite::{Alter, Connection};
use std::alloc::Global;
use std::marker::Model;

/// A database that an instance keeps its rows in. It is a store once it was opened, until a call is refused.
pub struct Shelf<S: Alter> {
    conn: Connection<S>,
    is_open: bool,
}

impl<S: Alter> Model for Shelf<S> {
    ghost use Rattle.std.specs.Coded.{coded×, coded_bool};
    ghost use Rattle.std.specs.Prelude.{◌≡◌, Bool, None, false, true};
    ghost use Rattle.sqlite.specs.Held.{Held, held_code, state};
    ghost use Rattle.sqlite.specs.State.{HasCleanDisk};
    ghost use Rattle.am_store.specs.Rows.{IsStore};

    ghost Value = { Held S × Bool };

    ghost coded = { coded× (held_code S.code) coded_bool };

    ghost view = { λ shelf. (shelf.conn, shelf.is_open) };

    ghost invariant = { λ shelf. (shelf.conn.in_transaction ≡ false)
        × (shelf.is_open ≡ true → HasCleanDisk (state S.Store shelf.conn) → IsStore (state S.Store shelf.conn).now)
        × (shelf.conn.step_limit ≡ None) };
}

// Written out, so that a crate which owns one has no need to prove anew how each part of a database is dropped.
impl<S: Alter + Drop> Drop for Shelf<S> {
    fn drop(self) {
        let Shelf {
            conn,
            is_open: _is_open,
        } = self;
        drop(conn);
    }
}

impl<S: Alter> Shelf<S> {
    /// A database that isn't opened yet, and has no limit on the steps of a query.
    pub fn new(conn: Connection<S>) -> Shelf<S>
        requires idle { conn.in_transaction ≡ false }
        requires unlimited { conn.step_limit ≡ None }
        ensures { result ≡ (conn, false) }
    {
        Shelf {
            conn,
            is_open: false,
        }
    }

    /// The connection, at its last commit.
    pub fn into_connection(self) -> Connection<S>
        ensures { result ≡ self.0 }
    {
        let Shelf {
            conn,
            is_open: _is_open,
        } = self;
        conn
    }
}

impl<S: Alter> Rows for Shelf<S> {
    ghost use Rattle.am_store.specs.Failing.{Rejects, medium_of};
    ghost use Rattle.am_store.specs.Opening.{IsForeign};

    ghost pairs = { λ shelf. kept_in (state S.Store shelf.0).now };

    ghost is_clean = { λ shelf. (state S.Store shelf.0).is_clean };

    ghost medium = { λ shelf. medium_of (state S.Store shelf.0) };

    ghost is_open = { λ shelf. shelf.1 };

    ghost is_foreign = { λ shelf. IsForeign (state S.Store shelf.0).now };

    ghost rejects = { Rejects };

    fn open(&mut self, alloc: Global) -> Result<(), Failure<StoreRefusal>> {
        self.is_open = false;
        match opening::open(alloc, &mut self.conn) {
            Ok(()) => {
                self.is_open = true;
                Ok(())
            }
            Err(failure) => Err(failure),
        }
    }

    fn put(
        &mut self,
        alloc: Global,
        tenant: &TenantName,
        items: &[SharedItem],
    ) -> Result<(), Failure<StoreRefusal>> {
        self.is_open = false;
        if !are_fit(items) {
            return Err(Failure::Refused(StoreRefusal::Database));
        }
        match commit::put(alloc, &mut self.conn, tenant, items) {
            Ok(()) => {
                self.is_open = true;
                Ok(())
            }
            Err(error) => Err(failure_of(error)),
        }
    }

    fn rows_of(
        &mut self,
        alloc: Global,
        tenant: &TenantName,
    ) -> Result<Vec<SharedItem>, Failure<StoreRefusal>> {
        self.is_open = false;
        // (so it is told that nothing is uncommitted: what a refused read leaves is what was committed)
        let _settled = self.conn.is_autocommit();
        match rows::rows_of(alloc, &mut self.conn, tenant) {
            Ok(items) => {
                self.is_open = true;
                Ok(items)
            }
            Err(failure) => Err(failure),
        }
    }

    fn tenants(&mut self, alloc: Global) -> Result<Vec<TenantName>, Failure<StoreRefusal>> {
        self.is_open = false;
        // (so it is told that nothing is uncommitted: what a refused read leaves is what was committed)
        let _settled = self.conn.is_autocommit();
        match tenants::tenants(alloc, &mut self.conn) {
            Ok(names) => {
                self.is_open = true;
                Ok(names)
            }
            Err(failure) => Err(failure),
        }
    }

    fn drop_silence(
        &mut self,
        tenant: &TenantName,
        id: &SilenceId,
    ) -> Result<(), Failure<StoreRefusal>> {
        self.is_open = false;
        match commit::drop_silence(&mut self.conn, tenant, id) {
            Ok(()) => {
                self.is_open = true;
                Ok(())
            }
            Err(error) => Err(failure_of(error)),
        }
    }

    fn drop_silences(
        &mut self,
        silences: &[(TenantName, SilenceId)],
    ) -> Result<(), Failure<StoreRefusal>> {
        self.is_open = false;
        match commit::drop_silences(&mut self.conn, silences) {
            Ok(()) => {
                self.is_open = true;
                Ok(())
            }
            Err(error) => Err(failure_of(error)),
        }
    }

    fn drop_tenant(&mut self, tenant: &TenantName) -> Result<(), Failure<StoreRefusal>> {
        self.is_open = false;
        match commit::drop_tenant(&mut self.conn, tenant) {
            Ok(()) => {
                self.is_open = true;
                Ok(())
            }
            Err(error) => Err(failure_of(error)),
        }
    }
}
