//! What a store's puts cost, for `bench/store`.
//!
//! `put COUNT` puts them into a store in memory, `put COUNT FILE` into one in a file; `read COUNT`, or `read COUNT
//! FILE`, then reads all rows as well, as an opening does. Each is one commit.
use crate::number;
use am_item::{Item, Matchers, SharedItem, Silence, SilenceId, Stamp, Thing};
use am_match::{Matcher, Operator};
use am_rows::Rows;
use am_store::Shelf;
use am_tenant::TenantName;
use am_text::{Moment, Text};
use anyhow::{Context, Result, bail};
use std::alloc::Global;

/// What a silence has as its comment, so that a row has some 200 bytes.
const COMMENT: &str =
    "The cluster is moved to other machines, which takes the weekend; ada and bob know more of that.";

/// When all silences start.
const START: u64 = 1_750_000_000_000;

/// Does what the words say.
pub fn run(rt: &HostRuntime, words: &[String]) -> Result<usize> {
    let alloc = rt.alloc();
    let Some(task) = words.first() else {
        bail!("put COUNT [FILE], or read COUNT [FILE]");
    };
    let count = number(words, 1)?;
    let is_read = task.as_str() == "read";
    match words.get(2) {
        None => work(alloc, Shelf::in_memory(alloc)?, count, is_read),
        Some(path) => match Shelf::in_file(rt, path.as_str()) {
            Ok(shelf) => work(alloc, shelf, count, is_read),
            Err(_) => bail!("the file is no store"),
        },
    }
}

/// Puts so many silences, and reads all rows where that is asked for. Gives how many were read, or put.
fn work<R: Rows + Drop>(alloc: Global, mut store: R, count: u32, is_read: bool) -> Result<usize> {
    match store.open(alloc) {
        Ok(()) => {}
        Err(_) => bail!("the store is refused"),
    }
    let tenant = TenantName::read(b"a").ok().context("no tenant")?;
    for number in 0..count {
        let item = silence(alloc, number)?;
        match store.put(alloc, &tenant, &[item]) {
            Ok(()) => {}
            Err(_) => bail!("a put is refused"),
        }
    }
    if !is_read {
        return Ok(usize::try_from(count)?);
    }
    match store.rows_of(alloc, &tenant) {
        Ok(rows) => Ok(rows.len()),
        Err(_) => bail!("the rows are refused"),
    }
}

/// A silence of this number.
fn silence(alloc: Global, number: u32) -> Result<SharedItem> {
    let start = Moment::from_milliseconds(START).context("no moment")?;
    let end = start.plus(3_600_000);
    // As identifiers are, in no order.
    let [first, second, third, fourth] = number.wrapping_mul(0x9e37_79b1).to_be_bytes();
    let id = [
        first, second, third, fourth, 0, 0, 0, 0, 0, 0, 0, 0, 0, 0, 0, 0,
    ];
    let stamp = Stamp {
        moment: start,
        instance: 1,
        incarnation: 1,
        count: u64::from(number) + 1,
    };
    let thing = Thing::Silence(Silence {
        id: SilenceId::from_bytes(id),
        starts_at: start,
        ends_at: end,
        kept_until: end,
        created_by: Text::read(alloc, "ada")?,
        comment: Text::read(alloc, COMMENT)?,
        matchers: Matchers::from_vec(vec![in alloc; matcher(alloc)?]?),
    });
    Ok(SharedItem::new(alloc, Item { stamp, thing })?)
}

/// The matcher of each silence.
fn matcher(alloc: Global) -> Result<Matcher> {
    let (name, value) = (
        Text::read(alloc, "cluster")?,
        Text::read(alloc, "eu-west-1")?,
    );
    Matcher::new(Operator::Equal, name, value).context("no label name")
}
