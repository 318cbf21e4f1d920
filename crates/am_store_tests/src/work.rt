//! What the tests do over a connection.

use crate::by_hand::known;
use crate::items::{rows, steps};
use am_rows::StoreRefusal;
use am_store::Store;
use am_text::Failure;
use sqlite::{Alter, Connection};
use std::alloc::Global;

/// What is done over a connection.
#[derive(Clone, Copy)]
pub(crate) enum Work<'a> {
    /// A statement is run, and how many rows it changed is told.
    Statement(&'a str),
    /// A store is opened and the steps are taken, and how many of these calls were answered is told.
    Steps,
    /// A store is opened, and its rows are told.
    Rows,
    /// A store is opened, and how many of its rows are as they were written by hand is told.
    ByHand,
}

/// What is told of it as a number, or why it wasn't done.
pub(crate) type Told = Result<u64, Failure<StoreRefusal>>;

/// There is no connection, or it refused.
pub(crate) const UNDONE: Told = Err(Failure::Refused(StoreRefusal::Database));

fn told_by<S: Alter>(alloc: Global, store: &mut Store<S>, work: Work<'_>) -> Told {
    match work {
        Work::Steps => Ok(steps(alloc, store).saturating_add(1)),
        Work::ByHand => known(alloc, store),
        _ => rows(alloc, store),
    }
}

fn done_over_store<S: Alter + Drop>(
    alloc: Global,
    conn: Connection<S>,
    work: Work<'_>,
) -> (S, Told) {
    if !conn.is_autocommit() {
        return (conn.into_store(), UNDONE);
    }
    match Store::open(alloc, conn) {
        Ok(mut store) => {
            let told = told_by(alloc, &mut store, work);
            (store.into_connection().into_store(), told)
        }
        Err((failure, conn)) => (conn.into_store(), Err(failure)),
    }
}

fn executed<S: Alter>(conn: &mut Connection<S>, sql: &str) -> Told {
    match conn.execute(sql, &[]) {
        Ok(rows) => Ok(rows as u64),
        Err(_) => UNDONE,
    }
}

/// What a connection was over, behind a work over it, and what was told of that.
pub(crate) fn done_over<S: Alter + Drop>(
    alloc: Global,
    mut conn: Connection<S>,
    work: Work<'_>,
) -> (S, Told) {
    if let Work::Statement(sql) = work {
        let told = executed(&mut conn, sql);
        return (conn.into_store(), told);
    }
    done_over_store(alloc, conn, work)
}
