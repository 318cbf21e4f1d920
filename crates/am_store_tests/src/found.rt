//! Files of other programs: a store is read, and of what is none no byte changes.

use crate::by_hand::PIECES;
use crate::disk::see;
use crate::work::{Told, Work};
use am_expect::{equal, holds};
use am_rows::StoreRefusal;
use am_text::Failure;
use sqlite::Files;
use sqlite_disk::{Disk, Fuse, Memory};
use std::alloc::Global;
use std::test::Fail;

fn write(db: &mut Memory, (at, bytes): (usize, &[u8])) -> bool {
    db.may_be_used() && db.write_at(at, bytes).is_ok()
}

// Writes what was written by hand. Where a write fails, no store is found.
fn fill(db: &mut Memory) -> bool {
    for piece in PIECES {
        if !write(db, *piece) {
            return false;
        }
    }
    db.may_be_used() && db.sync().is_ok()
}

fn by_hand(alloc: Global) -> Files<Fuse<Memory>> {
    let mut db = Memory::new(alloc);
    fill(&mut db);
    Files {
        log: Fuse::new(Memory::new(alloc), u64::MAX),
        db: Fuse::new(db, u64::MAX),
    }
}

#[test]
fn what_was_written_by_hand_is_read(rt: HostRuntime) -> Result<(), Fail> {
    let seen = see(rt.alloc(), by_hand(rt.alloc()), Work::ByHand);
    equal(seen.told, Ok(2), "rows")
}

const FOREIGN: Told = Err(Failure::Refused(StoreRefusal::Foreign));

// Statements, and what is told of the rows behind them. The first changes nothing.
const STATEMENTS: &[(&str, Told)] = &[
    ("UPDATE version SET n = 1", Ok(1_780)),
    ("UPDATE version SET n = 2", FOREIGN),
    ("CREATE TABLE other (n INTEGER)", FOREIGN),
    ("UPDATE silence SET matchers = X'0001'", FOREIGN),
    ("UPDATE silence SET ends = 253402300800000", FOREIGN),
    ("UPDATE config SET instance = 9", FOREIGN),
];

// The file by hand, changed by a statement. No byte of it changes as its rows are told.
fn statement_leaves(alloc: Global, (sql, rows): (&str, Told)) -> Result<(), Fail> {
    let seen = see(alloc, by_hand(alloc), Work::Statement(sql));
    equal(seen.rows, rows, sql)?;
    holds(seen.told.is_ok() && seen.is_unchanged, sql)
}

#[test]
fn no_byte_of_what_is_no_store_changes(rt: HostRuntime) -> Result<(), Fail> {
    for row in STATEMENTS {
        statement_leaves(rt.alloc(), *row)?;
    }
    Ok(())
}
