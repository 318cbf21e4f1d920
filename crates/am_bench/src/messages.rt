//! What messages and operations cost, for `bench/messages`.
//!
//! `hold ITEMS` makes so many alerts, and what two replicas hold of them: all of them shared but one. `decide ITEMS
//! TIMES` does that, and decides so many operations on the Answers of the two; so does `apart ITEMS TIMES`, where the
//! replicas share no alert. `fly ITEMS MESSAGES` keeps so many Answers that were sent, each of another list. `encode
//! ITEMS TIMES` writes an Answer so often, and `measure ITEMS TIMES` tells its length.
mod alerts;
mod exchange;

use crate::messages::alerts::{holding, renewed};
use crate::messages::exchange::{Office, answer, moment};
use crate::number;
use am_item::Held;
use am_messages::{MessageName, Messages};
use am_tenant::TenantName;
use am_wire::{Message, encode, spelled_len};
use anyhow::{Context, Result, bail};
use std::alloc::Global;

/// Does what the words say.
pub fn run(alloc: Global, words: &[String]) -> Result<usize> {
    let Some(task) = words.first() else {
        bail!("hold, decide, apart, fly, encode or measure");
    };
    let items = number(words, 1)?;
    match task.as_str() {
        "hold" => hold(alloc, items),
        "decide" => decide(alloc, items, number(words, 2)?),
        "apart" => apart(alloc, items, number(words, 2)?),
        "fly" => fly(alloc, items, number(words, 2)?),
        "encode" => write(alloc, items, number(words, 2)?),
        "measure" => measure(alloc, items, number(words, 2)?),
        _ => bail!("hold, decide, apart, fly, encode or measure"),
    }
}

fn tenant() -> Result<TenantName> {
    TenantName::read(b"a").ok().context("no tenant")
}

/// Makes what two replicas hold. Gives how many alerts the second one holds.
fn hold(alloc: Global, items: u32) -> Result<usize> {
    let first = holding(alloc, items)?;
    let second = renewed(alloc, &first, 0, 1)?;
    Ok(second.alerts().len())
}

/// Decides so many operations where the replicas share all alerts but one.
fn decide(alloc: Global, items: u32, times: u32) -> Result<usize> {
    let first = holding(alloc, items)?;
    let second = renewed(alloc, &first, 0, 1)?;
    decide_all(alloc, &first, &second, times)
}

/// Decides so many operations where the replicas share no alert.
fn apart(alloc: Global, items: u32, times: u32) -> Result<usize> {
    let first = holding(alloc, items)?;
    let other = holding(alloc, items)?;
    let second = renewed(alloc, &other, 0, 1)?;
    decide_all(alloc, &first, &second, times)
}

/// Decides so many operations on what two replicas hold. Gives how many alerts the last merged list has.
fn decide_all(alloc: Global, first: &Held, second: &Held, times: u32) -> Result<usize> {
    let mut office = Office::new(alloc, tenant()?);
    let mut merged = 0;
    for _ in 0..times {
        merged = office.decide(alloc, first, second)?;
    }
    Ok(merged)
}

/// Keeps so many Answers that were sent, each of what is held once one more alert was renewed. Gives how many bytes
/// the last one is found to have.
fn fly(alloc: Global, items: u32, count: u32) -> Result<usize> {
    let mut held = holding(alloc, items)?;
    let mut messages = Messages::new(alloc);
    let mut last = None;
    for number in 0..count {
        held = renewed(alloc, &held, number, u64::from(number) + 1)?;
        let message = answer(tenant()?, 1, u64::from(number) + 1, &held)?;
        last = Some(MessageName::of(&message));
        messages.send(message, moment(0)?)?;
    }
    match last {
        Some(name) => found_length(&messages, &name),
        None => Ok(0),
    }
}

/// How many bytes the message of a name has.
fn found_length(messages: &Messages, name: &MessageName) -> Result<usize> {
    match messages.find(name) {
        Some(message) => length_of(message),
        None => bail!("no message"),
    }
}

/// How many bytes a message has.
fn length_of(message: &Message) -> Result<usize> {
    let length = spelled_len(message).context("too long")?;
    Ok(usize::try_from(length)?)
}

/// An Answer of so many alerts.
fn answer_of(alloc: Global, items: u32) -> Result<Message> {
    let held = holding(alloc, items)?;
    answer(tenant()?, 1, 1, &held)
}

/// Writes an Answer so often. Gives how many bytes it has.
fn write(alloc: Global, items: u32, times: u32) -> Result<usize> {
    let message = answer_of(alloc, items)?;
    let mut length = 0;
    for _ in 0..times {
        length = encode(alloc, &message).ok().context("not written")?.len();
    }
    Ok(length)
}

/// Tells so often how many bytes an Answer has.
fn measure(alloc: Global, items: u32, times: u32) -> Result<usize> {
    let message = answer_of(alloc, items)?;
    let mut length = 0;
    for _ in 0..times {
        length = length_of(&message)?;
    }
    Ok(length)
}
