//! Frames written out by hand: each is read, and the message is written as the same bytes.
use crate::item::{best_are_held, hold_all};
use am_expect::{equal, holds};
use am_item::Held;
use am_ring::Instance;
use am_tenant::TenantName;
use am_text::{Failure, Octets};
use am_wire::{Body, Items, Message, decode, encode, spelled_len};
use std::alloc::Global;
use std::test::Fail;

// The code of the refusal of these bytes, empty where they are read and written again.
fn code(alloc: Global, bytes: &[u8]) -> &'static str {
    match decode(alloc, bytes) {
        Ok(message) => rewritten(alloc, &message, bytes),
        Err(Failure::Refused(refusal)) => refusal.code(),
        Err(Failure::OutOfMemory) => "out of memory",
    }
}

// Nothing, where the message is written as these bytes, it is told how many they are, and a share of it is written so too.
fn rewritten(alloc: Global, message: &Message, bytes: &[u8]) -> &'static str {
    let Ok(shared) = message.share() else {
        return "not shared";
    };
    match encode(alloc, &shared) {
        Ok(written) if written.as_slice() == bytes => measured(message, bytes),
        _ => "written otherwise",
    }
}

// Nothing, where the message is told to have so many bytes.
fn measured(message: &Message, bytes: &[u8]) -> &'static str {
    match spelled_len(message) {
        Some(length) if length as usize == bytes.len() => "",
        _ => "of another length",
    }
}

type Row = (&'static str, &'static [u8], &'static str);

// Messages from instance 1 to 2 on tenant `a`, what is wrong with them, and the code of that.
const FRAMES: &[Row] = &[
    (
        "get",
        b"\0\0\0\x22\x02\x01\x01\0\0\0\x01\x02\0\0\0\0\0\0\0\x01\0\0\0\0\0\0\0\0\x01a\0\0\0\0\0\0\0\x01",
        "",
    ),
    (
        "a length of one less",
        b"\0\0\0!\x02\x01\x01\0\0\0\x01\x02\0\0\0\0\0\0\0\x01\0\0\0\0\0\0\0\0\x01a\0\0\0\0\0\0\0\x01",
        "Wi2",
    ),
    (
        "a length of one more",
        b"\0\0\0#\x02\x01\x01\0\0\0\x01\x02\0\0\0\0\0\0\0\x01\0\0\0\0\0\0\0\0\x01a\0\0\0\0\0\0\0\x01",
        "Wi1",
    ),
    (
        "a length of one more, and a byte more",
        b"\0\0\0#\x02\x01\x01\0\0\0\x01\x02\0\0\0\0\0\0\0\x01\0\0\0\0\0\0\0\0\x01a\0\0\0\0\0\0\0\x01\0",
        "Wi6",
    ),
    (
        "version 1",
        b"\0\0\0\x22\x01\x01\x01\0\0\0\x01\x02\0\0\0\0\0\0\0\x01\0\0\0\0\0\0\0\0\x01a\0\0\0\0\0\0\0\x01",
        "Wi3",
    ),
    (
        "the frame of version 1",
        b"\0\0\0\x1a\x01\x01\x01\0\0\0\x01\x02\0\0\0\0\0\0\0\x01\x01a\0\0\0\0\0\0\0\x01",
        "Wi3",
    ),
    (
        "version 3",
        b"\0\0\0\x22\x03\x01\x01\0\0\0\x01\x02\0\0\0\0\0\0\0\x01\0\0\0\0\0\0\0\0\x01a\0\0\0\0\0\0\0\x01",
        "Wi3",
    ),
    (
        "kind 8",
        b"\0\0\0\x22\x02\x08\x01\0\0\0\x01\x02\0\0\0\0\0\0\0\x01\0\0\0\0\0\0\0\0\x01a\0\0\0\0\0\0\0\x01",
        "Wi3",
    ),
    (
        "kind 0",
        b"\0\0\0\x22\x02\0\x01\0\0\0\x01\x02\0\0\0\0\0\0\0\x01\0\0\0\0\0\0\0\0\x01a\0\0\0\0\0\0\0\x01",
        "Wi3",
    ),
    (
        "from instance 9",
        b"\0\0\0\x22\x02\x01\x09\0\0\0\x01\x02\0\0\0\0\0\0\0\x01\0\0\0\0\0\0\0\0\x01a\0\0\0\0\0\0\0\x01",
        "Wi5",
    ),
    (
        "to instance 0",
        b"\0\0\0\x22\x02\x01\x01\0\0\0\x01\0\0\0\0\0\0\0\0\x01\0\0\0\0\0\0\0\0\x01a\0\0\0\0\0\0\0\x01",
        "Wi5",
    ),
    (
        "a tenant of no name",
        b"\0\0\0\x22\x02\x01\x01\0\0\0\x01\x02\0\0\0\0\0\0\0\x01\0\0\0\0\0\0\0\0\0a\0\0\0\0\0\0\0\x01",
        "Wi4",
    ),
    (
        "a tenant of another character",
        b"\0\0\0\x22\x02\x01\x01\0\0\0\x01\x02\0\0\0\0\0\0\0\x01\0\0\0\0\0\0\0\0\x01|\0\0\0\0\0\0\0\x01",
        "Wi4",
    ),
    (
        "a tenant of a space",
        b"\0\0\0\x22\x02\x01\x01\0\0\0\x01\x02\0\0\0\0\0\0\0\x01\0\0\0\0\0\0\0\0\x01 \0\0\0\0\0\0\0\x01",
        "Wi4",
    ),
    (
        "a byte left behind the message",
        b"\0\0\0\x22\x02\x01\x01\0\0\0\x01\x02\0\0\0\0\0\0\0\x01\0\0\0\0\0\0\0\0\x01a\0\0\0\0\0\0\0\x01\0",
        "Wi6",
    ),
    (
        "an epoch",
        b"\0\0\0\x22\x02\x01\x01\0\0\0\x01\x02\0\0\0\0\0\0\0\x01\x01\x02\x03\x04\x05\x06\x07\x08\x01a\0\0\0\0\0\0\0\x01",
        "",
    ),
    (
        "answer",
        b"\0\0\0*\x02\x02\x01\0\0\0\x01\x02\0\0\0\0\0\0\0\x01\0\0\0\0\0\0\0\0\x01a\0\0\0\0\0\0\0\x07\0\0\0\x02\0\0\0\0",
        "",
    ),
    (
        "put",
        b"\0\0\0&\x02\x03\x01\0\0\0\x01\x02\0\0\0\0\0\0\0\x01\0\0\0\0\0\0\0\0\x01a\0\0\0\0\0\0\0\x07\0\0\0\0",
        "",
    ),
    (
        "acknowledgement",
        b"\0\0\0&\x02\x04\x01\0\0\0\x01\x02\0\0\0\0\0\0\0\x01\0\0\0\0\0\0\0\0\x01a\0\0\0\0\0\0\0\x07\0\0\0\x02",
        "",
    ),
    (
        "ask",
        b"\0\0\0\x1e\x02\x05\x01\0\0\0\x01\x02\0\0\0\0\0\0\0\x01\0\0\0\0\0\0\0\0\x01a\0\0\0\x02",
        "",
    ),
    (
        "ask with an epoch in its body",
        b"\0\0\0&\x02\x05\x01\0\0\0\x01\x02\0\0\0\0\0\0\0\x01\0\0\0\0\0\0\0\0\x01a\0\0\0\0\0\0\0\x03\0\0\0\x02",
        "Wi6",
    ),
    (
        "state",
        b"\0\0\0'\x02\x06\x01\0\0\0\x01\x02\0\0\0\0\0\0\0\x01\0\0\0\0\0\0\0\0\x01a\0\0\0\x02\0\0\0@\x01\0\0\0\0",
        "",
    ),
    (
        "got",
        b"\0\0\0\x22\x02\x07\x01\0\0\0\x01\x02\0\0\0\0\0\0\0\x01\0\0\0\0\0\0\0\0\x01a\0\0\0\x02\0\0\0A",
        "",
    ),
    (
        "a flag of 2",
        b"\0\0\0'\x02\x06\x01\0\0\0\x01\x02\0\0\0\0\0\0\0\x01\0\0\0\0\0\0\0\0\x01a\0\0\0\x02\0\0\0@\x02\0\0\0\0",
        "Wi5",
    ),
];

fn frame_is(alloc: Global, row: &Row) -> Result<(), Fail> {
    equal(code(alloc, row.1), row.2, row.0)
}

#[test]
fn frames(rt: HostRuntime) -> Result<(), Fail> {
    for row in FRAMES {
        frame_is(rt.alloc(), row)?;
    }
    Ok(())
}

// The first frame: a `Get` of 38 bytes.
fn first_frame() -> &'static [u8] {
    match FRAMES.first() {
        Some(row) => row.1,
        None => b"",
    }
}

#[test]
fn no_beginning_is_a_frame(rt: HostRuntime) -> Result<(), Fail> {
    let frame = first_frame();
    equal(frame.len(), 38, "the bytes of a frame")?;
    for (length, _) in frame.iter().enumerate() {
        equal(code(rt.alloc(), &frame[..length]), "Wi1", "a beginning")?;
    }
    Ok(())
}

// The bytes of an Answer of these items.
fn answer_of(alloc: Global, items: Items) -> Result<Octets, Fail> {
    let message = Message {
        from: Instance::new(1).ok_or("no sender")?,
        incarnation: 1,
        to: Instance::new(2).ok_or("no receiver")?,
        count: 1,
        epoch: 0,
        tenant: TenantName::read(b"a").ok().ok_or("no tenant")?,
        body: Body::Answer {
            operation: 7,
            incarnation: 2,
            items,
        },
    };
    let bytes = encode(alloc, &message).ok().ok_or("not written")?;
    equal(measured(&message, bytes.as_slice()), "", "an Answer")?;
    Ok(bytes)
}

// What an Answer brings.
fn brought(alloc: Global, bytes: &[u8]) -> Result<Held, Fail> {
    let message = decode(alloc, bytes).ok().ok_or("not read")?;
    match &message.body {
        Body::Answer { items, .. } => Ok(items.held(alloc)?),
        _ => Err(Fail::new("no Answer")),
    }
}

#[test]
fn what_is_held_is_sent_as_its_list(rt: HostRuntime) -> Result<(), Fail> {
    let alloc = rt.alloc();
    let mut held = Held::new(alloc)?;
    hold_all(alloc, &mut held)?;
    let list = Items::from_vec(alloc, held.items(alloc)?)?;
    let listed = answer_of(alloc, list)?;
    let sent = answer_of(alloc, Items::from_held(held))?;
    holds(
        sent.as_slice() == listed.as_slice(),
        "an Answer of what is held",
    )?;
    let held = brought(alloc, sent.as_slice())?;
    best_are_held(&held)
}
