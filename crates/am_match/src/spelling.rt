ghost use Rattle.std.specs.Prelude.{◌≡◌, ◌<◌, ◌≤◌, ◌^◌, ◌++◌, All, IfOk, IfErr, OnOk, length};
ghost use Rattle.std.specs.List.{flat_map};
ghost use Rattle.am_text.specs.Outcome.{ForRefused};
ghost use Rattle.byteorder.specs.Endian.{big_bytes};
ghost use Rattle.am_match.specs.Matchers.{IsMatcher};
ghost use Rattle.am_match.specs.Spelling.{operator_number, text_bytes, matcher_bytes, IsShort, IsSpellable, Spells};

use crate::matcher::{Matcher, Operator};
use crate::refusal::SpellRefusal;
use am_text::{Failure, Octets};
use byteorder::{BigEndian, ByteOrder};
use std::alloc::{AllocError, Global};

fn number_of(operator: Operator) -> u8
    ensures { result ≡ operator_number operator }
{
    match operator {
        Operator::Equal => 0,
        Operator::NotEqual => 1,
        Operator::Match => 2,
        Operator::NotMatch => 3,
    }
}

fn push_u16(bytes: &mut Vec<u8>, n: u16) -> Result<(), AllocError>
    ensures { OnOk result (bytes.new.items ≡ bytes.old.items ++ big_bytes 2 n) }
{
    let mut field = [0; 2];
    BigEndian::write_u16(&mut field, n);
    bytes.extend_from_slice(&field)
}

fn push_u32(bytes: &mut Vec<u8>, n: u32) -> Result<(), AllocError>
    ensures { OnOk result (bytes.new.items ≡ bytes.old.items ++ big_bytes 4 n) }
{
    let mut field = [0; 4];
    BigEndian::write_u32(&mut field, n);
    bytes.extend_from_slice(&field)
}

fn push_text(bytes: &mut Vec<u8>, text: &str) -> Result<(), Failure<SpellRefusal>>
    ensures bytes { OnOk result (bytes.new.items ≡ bytes.old.items ++ text_bytes text.now) }
    ensures short { OnOk result (length text.now < 2 ^ 32) }
    ensures failure { IfErr result (λ failure. ForRefused failure (λ _. 2 ^ 32 ≤ length text.now)) }
{
    let Ok(length) = u32::try_from(text.len()) else {
        return Err(Failure::Refused(SpellRefusal::TooLong));
    };
    push_u32(bytes, length)?;
    bytes.extend_from_slice(text.as_bytes())?;
    Ok(())
}

fn push_matcher(bytes: &mut Vec<u8>, matcher: &Matcher) -> Result<(), Failure<SpellRefusal>>
    ensures bytes { OnOk result (bytes.new.items ≡ bytes.old.items ++ matcher_bytes matcher.now) }
    ensures short { OnOk result (IsShort matcher.now) }
    ensures valid { OnOk result (IsMatcher matcher.now) }
    ensures failure { IfErr result (λ failure. ForRefused failure (λ _. ¬ IsShort matcher.now)) }
{
    bytes.push(number_of(matcher.operator()))?;
    push_text(bytes, matcher.name())?;
    push_text(bytes, matcher.value())?;
    Ok(())
}

fn push_all(bytes: &mut Vec<u8>, matchers: &[Matcher]) -> Result<(), Failure<SpellRefusal>>
    ensures bytes { OnOk result (bytes.new.items ≡ bytes.old.items ++ flat_map matcher_bytes matchers.now) }
    ensures short { OnOk result (All IsShort matchers.now) }
    ensures valid { OnOk result (All IsMatcher matchers.now) }
    ensures failure { IfErr result (λ failure. ForRefused failure (λ _. ¬ All IsShort matchers.now)) }
{
    for matcher in matchers {
        push_matcher(bytes, matcher)?;
    }
    Ok(())
}

/// The matchers as bytes: their number in 2 bytes, then each by its operator (0 `=`, 1 `!=`, 2 `=~`, 3 `!~`) in 1 byte,
/// its name and its value, both as a length in 4 bytes and UTF-8. Numbers have their greatest byte first.
pub fn spell_matchers(alloc: Global, matchers: &[Matcher]) -> Result<Octets, Failure<SpellRefusal>>
    ensures spells { IfOk result (λ bytes. Spells bytes matchers.now) }
    ensures failure { IfErr result (λ failure. ForRefused failure (λ _. ¬ IsSpellable matchers.now)) }
{
    let Ok(count) = u16::try_from(matchers.len()) else {
        return Err(Failure::Refused(SpellRefusal::TooLong));
    };
    let mut bytes = Vec::new(alloc);
    push_u16(&mut bytes, count)?;
    push_all(&mut bytes, matchers)?;
    Ok(Octets::from_vec(bytes))
}
