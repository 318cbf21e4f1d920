//! Writing numbers and texts.

ghost use Rattle.std.specs.Prelude.{◌≡◌, ◌++◌, ◌≤◌, ◌<◌, ◌^◌, IfErr, IsUtf8, OnOk, length};
ghost use Rattle.am_text.specs.Moment.{greatest_moment};
ghost use Rattle.am_wire.specs.Fields.{number_bytes, text_bytes};
ghost use Rattle.am_wire.specs.Refusals.{IsBadBy};

use crate::refusal::EncodeRefusal;
use am_text::{Failure, Moment};
use byteorder::{BigEndian, ByteOrder};
use std::alloc::AllocError;

/// A number in 4 bytes.
#[tactic(auto, unfolding(crate::specs::Fields::number_bytes))]
pub fn push_u32(out: &mut Vec<u8>, number: u32) -> Result<(), AllocError>
    ensures { OnOk result (out.new.items ≡ out.old.items ++ number_bytes 4 number) }
{
    let mut field = [0; 4];
    BigEndian::write_u32(&mut field, number);
    out.extend_from_slice(&field)
}

/// A number in 8 bytes.
#[tactic(auto, unfolding(crate::specs::Fields::number_bytes))]
pub fn push_u64(out: &mut Vec<u8>, number: u64) -> Result<(), AllocError>
    ensures { OnOk result (out.new.items ≡ out.old.items ++ number_bytes 8 number) }
{
    let mut field = [0; 8];
    BigEndian::write_u64(&mut field, number);
    out.extend_from_slice(&field)
}

/// A moment.
pub fn push_moment(out: &mut Vec<u8>, moment: Moment) -> Result<(), AllocError>
    ensures bytes { OnOk result (out.new.items ≡ out.old.items ++ number_bytes 8 moment) }
    ensures valid { OnOk result (moment ≤ greatest_moment) }
{
    push_u64(out, moment.milliseconds())
}

/// The lowest 4 bytes of a length. A length that has more of them is refused by the length of the whole message.
#[tactic(auto, unfolding(crate::specs::Fields::number_bytes))]
pub fn push_length(out: &mut Vec<u8>, length: usize) -> Result<(), AllocError>
    ensures { OnOk result (out.new.items ≡ out.old.items ++ number_bytes 4 length) }
{
    let mut field = [0; 8];
    BigEndian::write_u64(&mut field, length as u64);
    out.extend_from_slice(&field[4..])
}

/// A number of labels or matchers, in 2 bytes.
#[tactic(auto, unfolding(crate::specs::Fields::number_bytes))]
pub fn push_few(out: &mut Vec<u8>, count: usize) -> Result<(), Failure<EncodeRefusal>>
    ensures bytes { OnOk result (out.new.items ≡ out.old.items ++ number_bytes 2 count) }
    ensures few { OnOk result (count < 2 ^ 16) }
    ensures refused { IfErr result (IsBadBy (2 ^ 16 ≤ count)) }
{
    let Ok(count) = u16::try_from(count) else {
        return Err(Failure::Refused(EncodeRefusal::BadItem));
    };
    let mut field = [0; 2];
    BigEndian::write_u16(&mut field, count);
    out.extend_from_slice(&field)?;
    Ok(())
}

/// A text behind its length.
#[tactic(auto, unfolding(crate::specs::Fields::text_bytes))]
pub fn push_str(out: &mut Vec<u8>, text: &str) -> Result<(), AllocError>
    ensures bytes { OnOk result (out.new.items ≡ out.old.items ++ text_bytes text.now) }
    ensures valid { OnOk result (IsUtf8 text.now) }
{
    push_length(out, text.len())?;
    out.extend_from_slice(text.as_bytes())
}
