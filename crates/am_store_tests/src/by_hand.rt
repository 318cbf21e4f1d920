//! A database that Debian's `sqlite3` 3.40.1 wrote, by hand: the three tables of a store, one row in each.

use crate::items::rows_of;
use crate::work::Told;
use am_item::{Part, SharedItem, SilenceDetails};
use am_store::Store;
use sqlite::Alter;
use std::alloc::Global;

// What lies where in the 4096 bytes of the file; all else is zeros. A page has 512 bytes.
pub(crate) const PIECES: &[(usize, &[u8])] = &[
    (
        0,
        b"SQLite format 3\0\x02\0\x01\x01\0@  \0\0\0\x07\0\0\0\x08",
    ),
    (43, b"\x04\0\0\0\x04"),
    (59, b"\x01"),
    (
        95,
        b"\x07\0.c\x01\x05\0\0\0\x01\x01\xfb\0\0\0\0\x08\x01\xfb",
    ),
    (510, b"\x07\x03\x0d\0\0\0\x01\x01\xfc\0\x01\xfc"),
    (1020, b"\x02\x01\x02\x09\x0d\0\0\0\x01\x01\xe6\0\x01\xe6"),
    (
        1510,
        b"\x18\x01\x07\x0f\x1e\x05\x09\x09\x01aroute: {}\x01\x97t \xdc\0\x07\x0a\0\0\0\x01\x01\xfb\0\x01\
          \xfb",
    ),
    (2043, b"\x04\x03\x0f\x09a\x0d\0\0\0\x01\x01\x9f\0\x01\x9f"),
    (
        2463,
        b"_\x01\x0d\x0fU\x05\x05\x05\x12\x12&\x05\x01\x09\x01a00000000-0000-4000-8000-000000000001\x01\
          \x97t \xdc\0\x01\x97tW\xca\x80\x01\x97tW\xca\x80adawhy\0\x01\0\0\0\0\x01a\0\0\0\x01b\x01\x97t \
          \xdc\0\x02\x08\x0a\0\0\0\x01\x01\xd6\0\x01\xd6",
    ),
    (
        3030,
        b")\x04\x0fU\x09a00000000-0000-4000-8000-000000000001\x0d\x01\xb3\0\x03\0\xbf\0\x01\xbb\0\xbf\x01\
          \x86\0\x90\0\x90",
    ),
    (
        3116,
        b"-\x05\x06\x17A\x1b\x01\0indexsqlite_autoindex_silence_1silence\x06\x81D\x02\x07\x17\x19\x19\x01\
          \x82ctableconfigconf",
    ),
    (3216, b"\x01\xb3\0/"),
    (
        3263,
        b"\x81D\x02\x07\x17\x19\x19\x01\x82ctableconfigconfig\x03CREATE TABLE config (tenant TEXT NOT NUL\
          L PRIMARY KEY, body BLOB, moment INTEGER NOT NULL, instance INTEGER NOT NULL, incarnation INTEG\
          ER NOT NULL, count INTEGER NOT NULL)+\x03\x06\x17?\x19\x01\0indexsqlite_autoindex_config_1confi\
          g\x04\0\0\0\x08\0\0\0\0C\x01\x06\x17\x1b\x1b\x01_tableversionversion\x02CREATE TABLE version (n\
          \x20INTEGER NOT NULL)\x0d\0\0\0\x02\0f\0\0\x95\0f",
    ),
    (
        3686,
        b"-\x05\x06\x17A\x1b\x01\0indexsqlite_autoindex_silence_1silence\x06\x82h\x04\x07\x17\x1b\x1b\x01\
          \x85'tablesilencesilence\x05CREATE TABLE silence (tenant TEXT NOT NULL, id TEXT NOT NULL, start\
          s INTEGER NOT NULL, ends INTEGER NOT NULL, kept INTEGER NOT NULL, author BLOB NOT NULL, comment\
          \x20BLOB NOT NULL, matchers BLOB NOT NULL, moment INTEGER NOT NULL, instance INTEGER NOT NULL, \
          incarnation INTEGER NOT NULL, count INTEGER NOT NULL, PRIMARY KEY (tenant, id))",
    ),
];

fn is_configuration(item: &SharedItem) -> bool {
    match item.part() {
        Part::Configuration(Some(text)) => text.as_str() == "route: {}" && item.stamp().count == 7,
        _ => false,
    }
}

fn has_matcher(silence: &SilenceDetails) -> bool {
    match silence.matchers.as_slice() {
        [matcher] => matcher.name() == "a" && matcher.value() == "b",
        _ => false,
    }
}

fn is_silence(item: &SharedItem) -> bool {
    let Part::Silence(id, silence) = item.part() else {
        return false;
    };
    id.as_bytes() == &[0, 0, 0, 0, 0, 0, 0x40, 0, 0x80, 0, 0, 0, 0, 0, 0, 1]
        && silence.starts_at.milliseconds() == 1_750_000_000_000
        && silence.ends_at.milliseconds() == 1_750_003_600_000
        && silence.created_by.as_str() == "ada"
        && silence.comment.as_str() == "why"
        && has_matcher(silence)
        && item.stamp().instance == 2
}

fn are_known(items: &[SharedItem]) -> bool {
    match items {
        [configuration, silence] => is_configuration(configuration) && is_silence(silence),
        _ => false,
    }
}

/// How many of the rows are as they were written: both, or none.
pub(crate) fn known<S: Alter>(alloc: Global, store: &mut Store<S>) -> Told {
    let items = rows_of(alloc, store, b"a")?;
    Ok(if are_known(items.as_slice()) { 2 } else { 0 })
}
