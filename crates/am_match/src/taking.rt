ghost use Rattle.std.specs.Prelude.{◌≡◌, ◌⊎◌, ◌++◌, List, ℕ, MatchResult, IfOk, Ok, Err, IsTrue, length, take, drop};
ghost use Rattle.am_text.specs.Outcome.{Gives};
ghost use Rattle.am_labels.specs.Labels.{is_label_name};
ghost use Rattle.am_match.specs.Matchers.{MatcherText};
ghost use Rattle.am_match.specs.Spelling.{Spells};
ghost use Rattle.am_match.specs.Taking.{take_bytes, take_number, take_operator, take_text, take_name, take_matcher, take_several, taken};

use crate::matcher::{Matcher, Operator};
use crate::refusal::TakeRefusal;
use am_labels::is_label_name;
use am_text::{Failure, Text};
use byteorder::{BigEndian, ByteOrder};
use std::alloc::Global;
use std::str;

fn read_bytes(bytes: &[u8], n: usize) -> Result<(&[u8], &[u8]), Failure<TakeRefusal>>
    ensures { Gives (λ p. (p.0.now, p.1.now)) result (take_bytes n bytes.now) }
{
    if n <= bytes.len() {
        Ok(bytes.split_at(n))
    } else {
        Err(Failure::Refused(TakeRefusal::Short))
    }
}

fn read_u16(bytes: &[u8]) -> Result<(u16, &[u8]), Failure<TakeRefusal>>
    ensures { Gives (λ p. (p.0, p.1.now)) result (take_number 2 bytes.now) }
{
    if 2 <= bytes.len() {
        Ok((BigEndian::read_u16(bytes), &bytes[2..]))
    } else {
        Err(Failure::Refused(TakeRefusal::Short))
    }
}

fn read_u32(bytes: &[u8]) -> Result<(u32, &[u8]), Failure<TakeRefusal>>
    ensures { Gives (λ p. (p.0, p.1.now)) result (take_number 4 bytes.now) }
{
    if 4 <= bytes.len() {
        Ok((BigEndian::read_u32(bytes), &bytes[4..]))
    } else {
        Err(Failure::Refused(TakeRefusal::Short))
    }
}

fn read_operator(bytes: &[u8]) -> Result<(Operator, &[u8]), Failure<TakeRefusal>>
    ensures { Gives (λ p. (p.0, p.1.now)) result (take_operator bytes.now) }
{
    match bytes {
        [] => Err(Failure::Refused(TakeRefusal::Short)),
        [0, rest @ ..] => Ok((Operator::Equal, rest)),
        [1, rest @ ..] => Ok((Operator::NotEqual, rest)),
        [2, rest @ ..] => Ok((Operator::Match, rest)),
        [3, rest @ ..] => Ok((Operator::NotMatch, rest)),
        _ => Err(Failure::Refused(TakeRefusal::Bad)),
    }
}

fn read_str(bytes: &[u8]) -> Result<(&str, &[u8]), Failure<TakeRefusal>>
    ensures { Gives (λ p. (p.0.now, p.1.now)) result (take_text bytes.now) }
{
    let (length, behind) = read_u32(bytes)?;
    let (text, rest) = read_bytes(behind, length as usize)?;
    match str::from_utf8(text) {
        Ok(text) => Ok((text, rest)),
        Err(_) => Err(Failure::Refused(TakeRefusal::Bad)),
    }
}

fn read_name(bytes: &[u8]) -> Result<(&str, &[u8]), Failure<TakeRefusal>>
    ensures taken { Gives (λ p. (p.0.now, p.1.now)) result (take_name bytes.now) }
    ensures label { IfOk result (λ p. IsTrue (is_label_name p.0.now)) }
{
    let (name, rest) = read_str(bytes)?;
    if is_label_name(name) {
        Ok((name, rest))
    } else {
        Err(Failure::Refused(TakeRefusal::Bad))
    }
}

fn read_matcher(alloc: Global, bytes: &[u8]) -> Result<(Matcher, &[u8]), Failure<TakeRefusal>>
    ensures { Gives (λ p. (p.0, p.1.now)) result (take_matcher bytes.now) }
{
    let (operator, after) = read_operator(bytes)?;
    let (name, behind) = read_name(after)?;
    let (value, rest) = read_str(behind)?;
    let name = Text::read(alloc, name)?;
    let value = Text::read(alloc, value)?;
    match Matcher::new(operator, name, value) {
        Some(matcher) => Ok((matcher, rest)),
        None => unreachable!(),
    }
}

fn read_several(
    alloc: Global,
    bytes: &[u8],
    count: usize,
) -> Result<(Vec<Matcher>, &[u8]), Failure<TakeRefusal>>
    ensures { Gives (λ p. (p.0.items, p.1.now)) result (take_several count bytes.now) }
{
    let mut matchers = Vec::new(alloc);
    let mut rest = bytes;
    let mut left = count;
    'several: while left > 0 {
        left -= 1;
        let (matcher, behind) = read_matcher(alloc, rest)?;
        matchers.push(matcher)?;
        rest = behind;
    }
    Ok((matchers, rest))
}

fn read_all(alloc: Global, bytes: &[u8]) -> Result<(Vec<Matcher>, &[u8]), Failure<TakeRefusal>>
    ensures { Gives (λ p. (p.0.items, p.1.now)) result (taken bytes.now) }
{
    let (count, behind) = read_u16(bytes)?;
    read_several(alloc, behind, count as usize)
}

/// The matchers that the bytes begin with, written as [`crate::spell_matchers`] does, and how many bytes they take.
///
/// # Errors
/// That of the first field that can't be taken: `Short` where it runs past the end of the bytes, `Bad` where its value
/// isn't allowed.
pub fn take_matchers(
    alloc: Global,
    bytes: &[u8],
) -> Result<(Vec<Matcher>, usize), Failure<TakeRefusal>>
    ensures taken { Gives (λ p. (p.0.items, drop p.1 bytes.now)) result (taken bytes.now) }

    // What is taken is what the bytes begin with, and what was written is taken again, whatever follows.
    ensures spells { IfOk result (λ p. Spells (take p.1 bytes.now) p.0.items) }
    ensures written { (ms : List MatcherText) (written rest : List ℕ) → Spells written ms → bytes.now ≡ written ++ rest →
        MatchResult result (λ p. (p.0.items ≡ ms) × (p.1 ≡ length written)) (λ failure. failure ≡ Failure.OutOfMemory) }
{
    match read_all(alloc, bytes) {
        Ok((matchers, rest)) => Ok((matchers, bytes.len() - rest.len())),
        Err(failure) => Err(failure),
    }
}
