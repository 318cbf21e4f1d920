//! How many bytes spell a message, told without making them: items know their part. A sum past 64 bits is the greatest
//! number of 64 bits.

ghost use Rattle.std.specs.Prelude.{◌≡◌, length};
ghost use Rattle.std.specs.List.{flat_map};
ghost use Rattle.am_length.specs.Capped.{capped};
ghost use Rattle.am_wire.specs.ItemFields.{item_bytes, items_bytes};
ghost use Rattle.am_wire.specs.Lengths.{in_32_bits};
ghost use Rattle.am_wire.specs.Messages.{body_bytes, spelling};

use crate::held_part::HeldPart;
use crate::items::{Form, Items};
use crate::message::{Body, Message};
use am_item::{Held, SharedItem};

// How many bytes spell an item.
#[tactic(auto, using(crate::proofs::Counted::item_spelled))]
fn item_len(item: &SharedItem) -> u64
    ensures { result ≡ capped (length (item_bytes item.now)) }
{
    item.spelled_len()
}

fn listed_len(items: &[SharedItem]) -> u64
    ensures { result ≡ capped (length (flat_map item_bytes items.now)) }
{
    let mut total = 0u64;
    for item in items {
        total = total.saturating_add(item_len(item));
    }
    total
}

#[tactic(auto, using(crate::proofs::Counted::items_spelled))]
fn held_len(held: &Held) -> u64
    ensures { result ≡ capped (length (flat_map item_bytes held.now)) }
{
    held.spelled_len()
}

#[tactic(auto, using(crate::proofs::Counted::items_spelled))]
fn part_len(part: &HeldPart) -> u64
    ensures { result ≡ capped (length (flat_map item_bytes part.now)) }
{
    part.spelled_len()
}

#[tactic(auto, using(crate::proofs::Counted::items_length))]
fn items_len(items: &Items) -> u64
    ensures { result ≡ capped (length (items_bytes items.now)) }
{
    let len = match items.form() {
        Form::Listed(list) => listed_len(list.as_ref().as_slice()),
        Form::Held(held) => held_len(held),
        Form::Part(part) => part_len(part),
    };
    len.saturating_add(4)
}

#[tactic(auto, using(crate::proofs::Counted::body_lengths))]
fn body_len(body: &Body) -> u64
    ensures { result ≡ capped (length (body_bytes body.now)) }
{
    match body {
        Body::Get { .. } => 8,
        Body::Answer { items, .. } => items_len(items).saturating_add(12),
        Body::Put { items, .. } => items_len(items).saturating_add(8),
        Body::Ack { .. } => 12,
        Body::Ask { .. } => 4,
        Body::State { items, .. } => items_len(items).saturating_add(9),
        Body::Got { .. } => 8,
    }
}

/// How many bytes spell a message, the 4 of their length with them; `None` where that is more than 2^32 - 1. It takes
/// the same time however much is held; over a list of items, or a part of what is held, it walks once, and over none of
/// their texts.
#[tactic(auto, using(crate::proofs::Counted::message_length))]
pub fn spelled_len(message: &Message) -> Option<u32>
    ensures { result ≡ in_32_bits (length (spelling message.now)) }
{
    let tenant = message.tenant.as_bytes();
    let length = body_len(&message.body)
        .saturating_add(tenant.len() as u64)
        .saturating_add(29);
    u32::try_from(length).ok()
}
