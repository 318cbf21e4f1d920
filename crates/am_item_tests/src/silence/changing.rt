use super::{minute, minute_of};
use crate::parts::{POSTED_AT, hold, text};
use am_expect::equal;
use am_item::{Held, Matchers, Silence, SilenceId, Thing};
use am_match::{Matcher, Operator};
use am_silence::{PostedSilence, SilenceBook, SilenceWrite};
use std::alloc::Global;
use std::test::Fail;

fn id(number: u8) -> SilenceId {
    SilenceId::from_bytes([number; 16])
}

// One matcher, that `a` is this value.
fn matchers(alloc: Global, value: &str) -> Result<Vec<Matcher>, Fail> {
    match Matcher::new(Operator::Equal, text(alloc, "a"), text(alloc, value)) {
        Some(matcher) => Ok(Vec::from_array(alloc, [matcher])?),
        None => Err(Fail::new("no matcher")),
    }
}

// The value of `a` that is matched, and from which minute until which.
type Post = (&'static str, u8, u8);

fn posted(alloc: Global, post: Post) -> Result<PostedSilence, Fail> {
    let (value, from, until) = post;
    Ok(PostedSilence {
        matchers: matchers(alloc, value)?,
        id: None,
        starts_at: minute(from),
        ends_at: minute(until),
        created_by: text(alloc, "you"),
        comment: text(alloc, ""),
    })
}

// Silence 1 on `a="b"` until minute 10.
fn silence(alloc: Global, from: u8) -> Result<Silence, Fail> {
    Ok(Silence {
        matchers: Matchers::from_vec(matchers(alloc, "b")?),
        id: id(1),
        starts_at: minute(from),
        ends_at: minute(10),
        kept_until: minute(10),
        created_by: text(alloc, "me"),
        comment: text(alloc, ""),
    })
}

// Where that silence is held, written at minute 0.
fn held(alloc: Global, from: u8) -> Result<Held, Fail> {
    let mut held = Held::new(alloc)?;
    hold(
        alloc,
        &mut held,
        Thing::Silence(silence(alloc, from)?),
        POSTED_AT,
    )?;
    Ok(held)
}

// The minute of a write, then the silence's number, start, end, kept end and author.
type Written<'a> = (u64, u8, u64, u64, u64, &'a str);

fn written(write: &SilenceWrite) -> Written<'_> {
    let silence = &write.silence;
    (
        minute_of(write.moment),
        silence.id.as_bytes()[0],
        minute_of(silence.starts_at),
        minute_of(silence.ends_at),
        minute_of(silence.kept_until),
        silence.created_by.as_str(),
    )
}

// A post writes one silence or two.
fn are_written(writes: &[SilenceWrite], wanted: &[Written<'_>]) -> Result<(), Fail> {
    match writes {
        [one] => equal([written(one)].as_slice(), wanted, "one write"),
        [one, two] => equal(
            [written(one), written(two)].as_slice(),
            wanted,
            "two writes",
        ),
        _ => Err(Fail::new("no write")),
    }
}

// What a post writes at minute 5 that gives silence 1; a new silence is silence 9.
fn post_writes(alloc: Global, held: &Held, post: Post, wanted: &[Written<'_>]) -> Result<(), Fail> {
    let posted = posted(alloc, post)?;
    let change = SilenceBook::new(held).change(alloc, Some(id(1)), posted, minute(5))?;
    let writes = change.into_writes(alloc, id(9))?;
    are_written(&writes, wanted)
}

// What the deletion of silence 1 writes at minute 5.
fn deletion_writes(alloc: Global, held: &Held, wanted: &[Written<'_>]) -> Result<(), Fail> {
    let write = SilenceBook::new(held).delete(alloc, &id(1), minute(5))?;
    are_written(&[write], wanted)
}

// The start of silence 1 as it is held, what is posted, or nothing where it is deleted, and what is written.
type Row = (u8, Option<Post>, &'static [Written<'static>]);

const CHANGES: &[Row] = &[
    // an active silence is changed in place
    (0, Some(("b", 0, 8)), &[(5, 1, 0, 8, 10, "you")]),
    // or it ends and another begins
    (
        0,
        Some(("c", 0, 8)),
        &[(5, 1, 0, 5, 10, "me"), (5, 9, 5, 8, 8, "you")],
    ),
    (
        0,
        Some(("b", 6, 8)),
        &[(5, 1, 0, 5, 10, "me"), (5, 9, 6, 8, 8, "you")],
    ),
    // a pending silence may start at the moment
    (7, Some(("b", 5, 12)), &[(5, 1, 5, 12, 12, "you")]),
    (
        7,
        Some(("b", 4, 12)),
        &[(5, 1, 5, 5, 10, "me"), (5, 9, 5, 12, 12, "you")],
    ),
    // a deletion expires
    (0, None, &[(5, 1, 0, 5, 10, "me")]),
    (7, None, &[(5, 1, 5, 5, 10, "me")]),
];

fn row_is(alloc: Global, row: &Row) -> Result<(), Fail> {
    let held = held(alloc, row.0)?;
    match row.1 {
        Some(post) => post_writes(alloc, &held, post, row.2),
        None => deletion_writes(alloc, &held, row.2),
    }
}

#[test]
fn what_is_written(rt: HostRuntime) -> Result<(), Fail> {
    for row in CHANGES {
        row_is(rt.alloc(), row)?;
    }
    Ok(())
}
