//! Writing messages.

ghost use Rattle.std.specs.Prelude.{◌≡◌, ◌++◌, ◌∷◌, ◌<◌, ◌^◌, IfErr, IfOk, OnOk, length};
ghost use Rattle.am_text.specs.Outcome.{ForRefused};
ghost use Rattle.am_wire.specs.Fields.{flag_bytes};
ghost use Rattle.am_wire.specs.Messages.{IsBody, IsMessage, IsRefusalOf, Spells, body_bytes, inside};
ghost use Rattle.am_wire.specs.Refusals.{IsBadBy};

use crate::kinds::{VERSION, body_number};
use crate::message::{Body, Message};
use crate::refusal::EncodeRefusal;
use crate::write_fields::{push_u32, push_u64};
use crate::write_items::push_items;
use am_text::{Failure, Octets};
use byteorder::{BigEndian, ByteOrder};
use std::alloc::Global;

#[tactic(auto, unfolding(crate::specs::Messages::body_bytes))]
fn push_body(alloc: Global, out: &mut Vec<u8>, body: &Body) -> Result<(), Failure<EncodeRefusal>>
    ensures bytes { OnOk result (out.new.items ≡ out.old.items ++ body_bytes body.now) }
    ensures valid { OnOk result (IsBody body.now) }
    ensures refused { IfErr result (IsBadBy (¬ IsBody body.now)) }
{
    match body {
        Body::Get { operation } => push_u64(out, *operation)?,
        Body::Answer {
            operation,
            incarnation,
            items,
        } => {
            push_u64(out, *operation)?;
            push_u32(out, *incarnation)?;
            push_items(out, &items.list(alloc)?)?;
        }
        Body::Put { operation, items } => {
            push_u64(out, *operation)?;
            push_items(out, &items.list(alloc)?)?;
        }
        Body::Ack {
            operation,
            incarnation,
        } => {
            push_u64(out, *operation)?;
            push_u32(out, *incarnation)?;
        }
        Body::Ask { incarnation } => push_u32(out, *incarnation)?,
        Body::State {
            incarnation,
            place,
            is_last,
            items,
        } => {
            push_u32(out, *incarnation)?;
            push_u32(out, *place)?;
            out.push(u8::from(*is_last))?;
            push_items(out, &items.list(alloc)?)?;
        }
        Body::Got { incarnation, place } => {
            push_u32(out, *incarnation)?;
            push_u32(out, *place)?;
        }
    }
    Ok(())
}

// A message behind its length.
#[tactic(auto, unfolding(crate::specs::Messages::inside))]
fn push_message(
    alloc: Global,
    out: &mut Vec<u8>,
    message: &Message,
) -> Result<(), Failure<EncodeRefusal>>
    ensures bytes { OnOk result (out.new.items ≡ out.old.items ++ inside message.now) }
    ensures valid { OnOk result (IsMessage message.now) }
    ensures refused { IfErr result (IsBadBy (¬ IsMessage message.now)) }
{
    let tenant = message.tenant.as_bytes();
    out.push(VERSION)?;
    out.push(body_number(&message.body))?;
    out.push(message.from.number())?;
    push_u32(out, message.incarnation)?;
    out.push(message.to.number())?;
    push_u64(out, message.count)?;
    push_u64(out, message.epoch)?;
    out.push(tenant.len() as u8)?;
    out.extend_from_slice(tenant)?;
    push_body(alloc, out, &message.body)?;
    Ok(())
}

/// The bytes that spell the message.
///
/// # Errors
/// [`EncodeRefusal::BadItem`] where the message has a value that isn't allowed, else [`EncodeRefusal::TooLong`] where it
/// has more than 2^32 - 1 bytes.
pub fn encode(alloc: Global, message: &Message) -> Result<Octets, Failure<EncodeRefusal>>
    ensures spells { IfOk result (λ bytes. Spells bytes message.now) }
    ensures short { IfOk result (λ bytes. length bytes < 2 ^ 32) }
    ensures refused { IfErr result (λ failure. ForRefused failure (IsRefusalOf message.now)) }
{
    let mut bytes = Vec::new(alloc);
    push_u32(&mut bytes, 0)?;
    push_message(alloc, &mut bytes, message)?;
    let Ok(length) = u32::try_from(bytes.as_slice().len()) else {
        return Err(Failure::Refused(EncodeRefusal::TooLong));
    };
    // The length stands in front, and doesn't count itself.
    BigEndian::write_u32(&mut bytes, length - 4);
    Ok(Octets::from_vec(bytes))
}
