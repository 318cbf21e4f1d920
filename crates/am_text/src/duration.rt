//! Reads durations.
ghost use Rattle.std.specs.Prelude.{◌≡◌, ◌≤◌, IsTrue, length};
ghost use Rattle.std.specs.Char.{is_ascii_digit};
ghost use Rattle.std.specs.List.{list_all};
ghost use Rattle.std.specs.Str.Parse.{digits_value};
ghost use Rattle.am_text.specs.Duration.{at_most_64_bits, duration, letter_count, letters_of, milliseconds_of, part_at, parts_at};

use crate::reading::{count_digits, digit};
use crate::refusal::TextRefusal;

/// 100 years of 365 days.
const LONGEST_DURATION: u64 = 3_153_600_000_000;

#[derive(Clone, Copy)]
enum TimeUnit {
    Year,
    Week,
    Day,
    Hour,
    Minute,
    Second,
    Millisecond,
}

/// In the order in which they may stand.
const UNITS: [TimeUnit; 7] = [
    TimeUnit::Year,
    TimeUnit::Week,
    TimeUnit::Day,
    TimeUnit::Hour,
    TimeUnit::Minute,
    TimeUnit::Second,
    TimeUnit::Millisecond,
];

impl TimeUnit {
    fn letters(self) -> &'static str
        ensures { result.now ≡ letters_of self }
    {
        match self {
            TimeUnit::Year => "y",
            TimeUnit::Week => "w",
            TimeUnit::Day => "d",
            TimeUnit::Hour => "h",
            TimeUnit::Minute => "m",
            TimeUnit::Second => "s",
            TimeUnit::Millisecond => "ms",
        }
    }

    fn milliseconds(self) -> u64
        ensures { result ≡ milliseconds_of self }
    {
        match self {
            TimeUnit::Year => 31_536_000_000,
            TimeUnit::Week => 604_800_000,
            TimeUnit::Day => 86_400_000,
            TimeUnit::Hour => 3_600_000,
            TimeUnit::Minute => 60_000,
            TimeUnit::Second => 1000,
            TimeUnit::Millisecond => 1,
        }
    }
}

/// The milliseconds of a duration, as `1h30m`: whole numbers of `y`, `w`, `d`, `h`, `m`, `s` and `ms`, in
/// that order and each at most once, or `0` alone. A year has 365 days and a week 7. No memory is taken.
///
/// # Errors
///
/// `NotADuration` for a text of another form, and `OutOfRange` for a duration above 100 years.
pub fn read_duration(text: &str) -> Result<u64, TextRefusal>
    ensures { result ≡ duration text.now }
{
    if text == "0" {
        return Ok(0);
    }
    if text.is_empty() {
        return Err(TextRefusal::NotADuration);
    }
    let (milliseconds, rest) = read_parts(&UNITS, text.as_bytes());
    if !rest.is_empty() {
        return Err(TextRefusal::NotADuration);
    }
    if milliseconds > LONGEST_DURATION {
        return Err(TextRefusal::OutOfRange);
    }
    Ok(milliseconds)
}

// The numbers at the front, at most one of each unit in their order: their milliseconds, or `u64::MAX`
// where that is too small, and what follows them.
fn read_parts<'a>(units: &[TimeUnit], text: &'a [u8]) -> (u64, &'a [u8])
    ensures value { result.0 ≡ at_most_64_bits (parts_at units.now text.now).0 }
    ensures rest { result.1.now ≡ (parts_at units.now text.now).1 }
{
    let mut sum: u64 = 0;
    let mut rest = text;
    for unit in units {
        let (milliseconds, after) = read_part(*unit, rest);
        sum = sum.saturating_add(milliseconds);
        rest = after;
    }
    (sum, rest)
}

// A number of this unit, if one stands at the front.
#[tactic(auto, unfolding(crate::specs::Duration::part_at))]
fn read_part(unit: TimeUnit, text: &[u8]) -> (u64, &[u8])
    ensures value { result.0 ≡ at_most_64_bits (part_at unit text.now).0 }
    ensures rest { result.1.now ≡ (part_at unit text.now).1 }
{
    let (digits, after) = text.split_at(count_digits(text));
    let (letters, rest) = after.split_at(count_letters(after));
    if digits.is_empty() || letters != unit.letters().as_bytes() {
        return (0, text);
    }
    (
        read_number(digits).saturating_mul(unit.milliseconds()),
        rest,
    )
}

fn count_letters(text: &[u8]) -> usize
    ensures count { result ≡ letter_count text.now }
    ensures within { result ≤ length text.now }
{
    text.iter()
        .take_while(|byte| !byte.is_ascii_digit())
        .count()
}

fn read_number(digits: &[u8]) -> u64
    requires { IsTrue (list_all is_ascii_digit digits.now) }
    ensures { result ≡ at_most_64_bits (digits_value 10 digits.now) }
{
    let mut number: u64 = 0;
    for byte in digits {
        number = number
            .saturating_mul(10)
            .saturating_add(u64::from(digit(*byte)));
    }
    number
}
