//! Reads the date-time of RFC 3339 section 5.6.
ghost use Rattle.std.specs.Prelude.{◌≡◌, ◌-◌, ◌+ℤ◌, ◌-ℤ◌, ◌*ℤ◌, ◌<◌, ◌≤◌, ℕ, pos, ◌≤ℤ◌, option_map, IfSome, length, ok_or, OnOk};
ghost use Rattle.std.specs.List.{prefix_len};
ghost use Rattle.std.specs.Char.{is_ascii_digit};
ghost use Rattle.jiff_core.specs.Calendar.{IsEpochDay, IsWithin};
ghost use Rattle.am_text.specs.DateTime.{DateTime, Spells, instant, fraction_milliseconds};
ghost use Rattle.am_text.specs.Moment.{moment_at, greatest_moment, day_length};
ghost use Rattle.am_text.specs.Printing.{moment_text};
ghost use Rattle.am_text.specs.Reading as spec;

use crate::moment::Moment;
use crate::refusal::TextRefusal;
use jiff::civil::Date;

const DAY_LENGTH: i64 = 86_400_000;

/// 0001-01-01T00:00:00Z, which clients write where there is no moment.
const ABSENT: i64 = -62_135_596_800_000;

/// The moment that a text gives in the form of RFC 3339 section 5.6, cut to whole milliseconds.
/// `None` is for the instant 0001-01-01T00:00:00Z, which stands for no moment.
///
/// `T` and `Z` may be small, a fraction has one to nine digits, seconds go to 59 and the hours of an
/// offset to 23. Instants before 1970 and after 9999 are refused. No memory is taken.
#[tactic(auto, unfolding(crate::specs::Reading::moment_of))]
pub fn read_moment(text: &str) -> Result<Option<Moment>, TextRefusal>
    ensures value { result ≡ ok_or (spec.moment_of text.now) TextRefusal.NotAMoment }
    // A date-time gives the moment at its instant, and nothing else gives one.
    ensures spelled { (d : DateTime) → Spells text.now d
        → result ≡ ok_or (moment_at (instant d)) TextRefusal.NotAMoment }
    ensures only { OnOk result ((d : DateTime) × Spells text.now d) }
    // What is printed of a moment gives it back.
    ensures printed { (n : ℕ) → n ≤ greatest_moment → text.now ≡ moment_text n
        → result ≡ Ok (Some n) }
{
    match read_instant(text.as_bytes()) {
        Some(instant) => moment_at(instant),
        None => Err(TextRefusal::NotAMoment),
    }
}

fn moment_at(milliseconds: i64) -> Result<Option<Moment>, TextRefusal>
    ensures { result ≡ ok_or (moment_at milliseconds) TextRefusal.NotAMoment }
{
    if milliseconds == ABSENT {
        return Ok(None);
    }
    let Ok(milliseconds) = u64::try_from(milliseconds) else {
        return Err(TextRefusal::NotAMoment);
    };
    match Moment::from_milliseconds(milliseconds) {
        Some(moment) => Ok(Some(moment)),
        None => Err(TextRefusal::NotAMoment),
    }
}

// Milliseconds since 1970-01-01T00:00:00Z.
#[tactic(auto, unfolding(crate::specs::Reading::instant_of))]
fn read_instant(text: &[u8]) -> Option<i64>
    ensures { result ≡ spec.instant_of text.now }
{
    let (days, rest) = read_date(text)?;
    let rest = read_letter(rest)?;
    let (seconds, rest) = read_clock(rest)?;
    let (milliseconds, rest) = read_fraction(rest)?;
    let offset = read_offset(rest)?;
    Some(instant(days, seconds * 1000 + milliseconds, offset))
}

fn instant(days: i64, milliseconds: u32, offset: i64) -> i64
    requires days { IsEpochDay days }
    requires offset { IsWithin 86_400_000 offset }
    ensures { result ≡ days *ℤ pos day_length +ℤ pos milliseconds -ℤ offset }
{
    days * DAY_LENGTH + i64::from(milliseconds) - offset
}

// A date, as the number of days since 1970-01-01.
#[tactic(auto, unfolding(crate::specs::Reading::date_at))]
fn read_date(text: &[u8]) -> Option<(i64, &[u8])>
    ensures value { option_map (λ p. (p.0, p.1.now)) result ≡ spec.date_at text.now }
    ensures bound { IfSome result (λ p. IsEpochDay p.0) }
{
    let (year, rest) = read_four(text)?;
    let rest = read_byte(rest, b'-')?;
    let (month, rest) = read_two(rest)?;
    let rest = read_byte(rest, b'-')?;
    let (day, rest) = read_two(rest)?;
    Some((day_number(year, month, day)?, rest))
}

fn day_number(year: u16, month: u8, day: u8) -> Option<i64>
    requires year { year < 10_000 }
    requires month { month < 100 }
    requires day { day < 100 }
    ensures value { result ≡ spec.day_number year month day }
    ensures bound { IfSome result IsEpochDay }
{
    let Ok(date) = Date::new(year as i16, month as i8, day as i8) else {
        return None;
    };
    Some(i64::from(date.to_plain().to_unix_epoch_day()))
}

// A time of day without its fraction, in seconds.
#[tactic(auto, unfolding(crate::specs::Reading::clock_at))]
fn read_clock(text: &[u8]) -> Option<(u32, &[u8])>
    ensures value { option_map (λ p. (p.0, p.1.now)) result ≡ spec.clock_at text.now }
    ensures bound { IfSome result (λ p. p.0 < 86_400) }
{
    let (hour, rest) = read_below(text, 24)?;
    let rest = read_byte(rest, b':')?;
    let (minute, rest) = read_below(rest, 60)?;
    let rest = read_byte(rest, b':')?;
    let (second, rest) = read_below(rest, 60)?;
    let seconds = u32::from(hour) * 3600 + u32::from(minute) * 60 + u32::from(second);
    Some((seconds, rest))
}

// The fraction, if a dot stands there, cut to whole milliseconds.
fn read_fraction(text: &[u8]) -> Option<(u32, &[u8])>
    ensures value { option_map (λ p. (p.0, p.1.now)) result ≡ spec.fraction_at text.now }
    ensures bound { IfSome result (λ p. p.0 < 1000) }
{
    match text {
        [b'.', rest @ ..] => read_digits(rest),
        _ => Some((0, text)),
    }
}

fn read_digits(text: &[u8]) -> Option<(u32, &[u8])>
    ensures value { option_map (λ p. (p.0, p.1.now)) result ≡ spec.digits_at text.now }
    ensures bound { IfSome result (λ p. p.0 < 1000) }
{
    let places = count_digits(text);
    if places == 0 || places > 9 {
        return None;
    }
    let (digits, rest) = text.split_at(places);
    Some((fraction_milliseconds(digits), rest))
}

pub(crate) fn count_digits(text: &[u8]) -> usize
    ensures count { result ≡ prefix_len is_ascii_digit text.now }
    ensures within { result ≤ length text.now }
{
    text.iter().take_while(|byte| byte.is_ascii_digit()).count()
}

fn fraction_milliseconds(digits: &[u8]) -> u32
    ensures { result ≡ fraction_milliseconds digits.now }
{
    match digits {
        [] => 0,
        [a] => digit(*a) * 100,
        [a, b] => digit(*a) * 100 + digit(*b) * 10,
        [a, b, c, ..] => digit(*a) * 100 + digit(*b) * 10 + digit(*c),
    }
}

pub(crate) fn digit(byte: u8) -> u32
    ensures { result ≡ byte - 48 }
{
    u32::from(byte.saturating_sub(b'0'))
}

// The offset that is the whole text, in milliseconds, positive where local time is ahead of UTC.
#[tactic(auto, unfolding(crate::specs::Reading::offset_of))]
fn read_offset(text: &[u8]) -> Option<i64>
    ensures value { result ≡ spec.offset_of text.now }
    ensures bound { IfSome result (IsWithin 86_400_000) }
{
    match text {
        [b'+', rest @ ..] => read_distance(rest),
        [b'-', rest @ ..] => Some(-read_distance(rest)?),
        [b'Z' | b'z'] => Some(0),
        _ => None,
    }
}

// Hours and minutes with nothing after them, in milliseconds.
#[tactic(auto, unfolding(crate::specs::Reading::distance_of))]
fn read_distance(text: &[u8]) -> Option<i64>
    ensures value { result ≡ option_map (λ n. pos n) (spec.distance_of text.now) }
    ensures bound { IfSome result (λ n. (pos 0 ≤ℤ n) × (n ≤ℤ pos 86_400_000)) }
{
    let (hour, rest) = read_below(text, 24)?;
    let rest = read_byte(rest, b':')?;
    let (minute, rest) = read_below(rest, 60)?;
    if rest.is_empty() {
        Some((i64::from(hour) * 60 + i64::from(minute)) * 60_000)
    } else {
        None
    }
}

fn read_letter(text: &[u8]) -> Option<&[u8]>
    ensures { option_map (λ rest. rest.now) result ≡ spec.after_letter text.now }
{
    match text {
        [b'T' | b't', rest @ ..] => Some(rest),
        _ => None,
    }
}

fn read_byte(text: &[u8], byte: u8) -> Option<&[u8]>
    ensures { option_map (λ rest. rest.now) result ≡ spec.after_byte byte text.now }
{
    match text {
        [first, rest @ ..] if *first == byte => Some(rest),
        _ => None,
    }
}

#[tactic(auto, unfolding(crate::specs::Reading::below_at))]
fn read_below(text: &[u8], limit: u8) -> Option<(u8, &[u8])>
    ensures value { option_map (λ p. (p.0, p.1.now)) result ≡ spec.below_at limit text.now }
    ensures bound { IfSome result (λ p. p.0 < limit) }
{
    let (number, rest) = read_two(text)?;
    if number < limit {
        Some((number, rest))
    } else {
        None
    }
}

#[tactic(auto, unfolding(crate::specs::Reading::four_at))]
fn read_four(text: &[u8]) -> Option<(u16, &[u8])>
    ensures value { option_map (λ p. (p.0, p.1.now)) result ≡ spec.four_at text.now }
    ensures bound { IfSome result (λ p. p.0 < 10_000) }
{
    let (century, rest) = read_two(text)?;
    let (year, rest) = read_two(rest)?;
    Some((u16::from(century) * 100 + u16::from(year), rest))
}

#[tactic(auto, unfolding(crate::specs::Reading::two_at))]
fn read_two(text: &[u8]) -> Option<(u8, &[u8])>
    ensures value { option_map (λ p. (p.0, p.1.now)) result ≡ spec.two_at text.now }
    ensures bound { IfSome result (λ p. p.0 < 100) }
{
    match text {
        [tens @ b'0'..=b'9', ones @ b'0'..=b'9', rest @ ..] => {
            Some(((*tens - b'0') * 10 + (*ones - b'0'), rest))
        }
        _ => None,
    }
}
