//! Two files in memory. No function has a clause, so that the proofs of tests carry no state.

use crate::work::{Told, UNDONE, Work, done_over};
use sqlite::{Connection, FileStore, Files, Options};
use sqlite_disk::{Crash, Disk, Fuse, Memory, digest_of};
use std::alloc::Global;

/// The log and the database, each of which stops behind so many calls.
pub(crate) fn files(alloc: Global, log: u64, db: u64) -> Files<Fuse<Memory>> {
    Files {
        log: Fuse::new(Memory::new(alloc), log),
        db: Fuse::new(Memory::new(alloc), db),
    }
}

// The files behind a work over a connection to them, and what was told of it.
fn done<D: Disk + Drop>(alloc: Global, files: Files<D>, work: Work<'_>) -> (Files<D>, Told) {
    if !files.may_be_used() {
        return (files, UNDONE);
    }
    match Connection::open_files(alloc, files, Options::new(7)) {
        Ok(conn) => {
            // The one call with a connection to files: to prove such a call costs more than all else here.
            let (store, told) = done_over(alloc, conn, work);
            (store.close(), told)
        }
        Err((_, left)) => (left.into_files(), UNDONE),
    }
}

fn digest(files: &Files<Fuse<Memory>>) -> u64 {
    let log = digest_of(0, files.log.inner().bytes());
    digest_of(log, files.db.inner().bytes())
}

/// What a work over files came to.
#[derive(Clone, Copy)]
pub(crate) struct Seen {
    /// What was told of it.
    pub(crate) told: Told,
    /// The rows behind a crash.
    pub(crate) rows: Told,
    /// No byte of the files changed as the rows were told.
    pub(crate) is_unchanged: bool,
}

/// Does a work over files, which then lose what wasn't synced, and tells their rows.
pub(crate) fn see(alloc: Global, files: Files<Fuse<Memory>>, work: Work<'_>) -> Seen {
    let (mut files, told) = done(alloc, files, work);
    files.log.crash();
    files.db.crash();
    let before = digest(&files);
    let (files, rows) = done(alloc, files, Work::Rows);
    Seen {
        told,
        rows,
        is_unchanged: digest(&files) == before,
    }
}
