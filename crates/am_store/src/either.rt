//! A database of one of two kinds, as the store of an instance.

use crate::shelf::Shelf;
use am_item::{SharedItem, SilenceId};
use am_rows::{Rows, StoreRefusal};
use am_tenant::TenantName;
use am_text::Failure;
use sqlite::Alter;
use std::alloc::Global;

/// A store over one of two kinds of databases: so a program that takes either is made once, and not once for each.
pub enum EitherShelf<S: Alter, T: Alter> {
    First(Shelf<S>),
    Second(Shelf<T>),
}

// Written out, so that a crate which owns one has no need to prove anew how each part of a database is dropped.
impl<S: Alter + Drop, T: Alter + Drop> Drop for EitherShelf<S, T> {
    fn drop(self) {
        match self {
            EitherShelf::First(shelf) => drop(shelf),
            EitherShelf::Second(shelf) => drop(shelf),
        }
    }
}

impl<S: Alter, T: Alter> Rows for EitherShelf<S, T> {
    ghost use Rattle.sqlite.specs.Held.{state};
    ghost use Rattle.am_store.specs.Either.{foreign_of, of_either};
    ghost use Rattle.am_store.specs.Failing.{Rejects, medium_of};
    ghost use Rattle.am_store.specs.Items.{kept_in};
    ghost use Rattle.am_store.specs.Opening.{IsForeign};

    ghost pairs = { of_either (λ shelf. kept_in (state S.Store shelf.0).now)
        (λ shelf. kept_in (state T.Store shelf.0).now) };

    ghost is_clean = { of_either (λ shelf. (state S.Store shelf.0).is_clean)
        (λ shelf. (state T.Store shelf.0).is_clean) };

    ghost medium = { of_either (λ shelf. medium_of (state S.Store shelf.0))
        (λ shelf. medium_of (state T.Store shelf.0)) };

    ghost is_open = { of_either (λ shelf. shelf.1) (λ shelf. shelf.1) };

    ghost is_foreign = { foreign_of (λ shelf. IsForeign (state S.Store shelf.0).now)
        (λ shelf. IsForeign (state T.Store shelf.0).now) };

    ghost rejects = { Rejects };

    fn open(&mut self, alloc: Global) -> Result<(), Failure<StoreRefusal>> {
        match self {
            EitherShelf::First(shelf) => shelf.open(alloc),
            EitherShelf::Second(shelf) => shelf.open(alloc),
        }
    }

    fn put(
        &mut self,
        alloc: Global,
        tenant: &TenantName,
        items: &[SharedItem],
    ) -> Result<(), Failure<StoreRefusal>> {
        match self {
            EitherShelf::First(shelf) => shelf.put(alloc, tenant, items),
            EitherShelf::Second(shelf) => shelf.put(alloc, tenant, items),
        }
    }

    fn rows_of(
        &mut self,
        alloc: Global,
        tenant: &TenantName,
    ) -> Result<Vec<SharedItem>, Failure<StoreRefusal>> {
        match self {
            EitherShelf::First(shelf) => shelf.rows_of(alloc, tenant),
            EitherShelf::Second(shelf) => shelf.rows_of(alloc, tenant),
        }
    }

    fn tenants(&mut self, alloc: Global) -> Result<Vec<TenantName>, Failure<StoreRefusal>> {
        match self {
            EitherShelf::First(shelf) => shelf.tenants(alloc),
            EitherShelf::Second(shelf) => shelf.tenants(alloc),
        }
    }

    fn drop_silence(
        &mut self,
        tenant: &TenantName,
        id: &SilenceId,
    ) -> Result<(), Failure<StoreRefusal>> {
        match self {
            EitherShelf::First(shelf) => shelf.drop_silence(tenant, id),
            EitherShelf::Second(shelf) => shelf.drop_silence(tenant, id),
        }
    }

    fn drop_silences(
        &mut self,
        silences: &[(TenantName, SilenceId)],
    ) -> Result<(), Failure<StoreRefusal>> {
        match self {
            EitherShelf::First(shelf) => shelf.drop_silences(silences),
            EitherShelf::Second(shelf) => shelf.drop_silences(silences),
        }
    }

    fn drop_tenant(&mut self, tenant: &TenantName) -> Result<(), Failure<StoreRefusal>> {
        match self {
            EitherShelf::First(shelf) => shelf.drop_tenant(tenant),
            EitherShelf::Second(shelf) => shelf.drop_tenant(tenant),
        }
    }
}
