//! Prints moments.
ghost use Rattle.std.specs.Prelude.{◌≡◌, ◌≤◌, pos, ◌*ℤ◌, IfOk};
ghost use Rattle.jiff_core.specs.DateTime.{civil_nanos};
ghost use Rattle.am_text.specs.DateTime.{IsUtcText};
ghost use Rattle.am_text.specs.Moment.{greatest_moment};
ghost use Rattle.am_text.specs.Printing.{moment_text};

use crate::moment::Moment;
use crate::text::Text;
use jiff::SignedDuration;
use jiff::civil::{DateTime, Time, date};
use jiff::fmt::temporal::DateTimePrinter;
use std::alloc::{AllocError, Global};

/// How many bytes `2025-06-15T15:06:40.000Z` has.
const MOMENT_LENGTH: usize = 24;

/// The text of a moment in UTC by RFC 3339 section 5.6, with three digits of a fraction and `Z`, as
/// `2025-06-15T15:06:40.000Z`.
pub fn print_moment(alloc: Global, moment: Moment) -> Result<Text, AllocError>
    ensures value { IfOk result (λ t. t ≡ moment_text moment) }
    ensures spelled { IfOk result (IsUtcText moment) }
{
    let printer = DateTimePrinter::new().precision(Some(3));
    let printed = printer.datetime_text(utc_clock(moment).to_plain());
    let mut string = String::with_capacity(alloc, MOMENT_LENGTH)?;
    string.push_str(printed.as_str())?;
    string.push('Z')?;
    Ok(Text::from_string(string))
}

// What a clock at UTC shows.
fn utc_clock(moment: Moment) -> DateTime
    ensures value { civil_nanos result ≡ pos moment *ℤ pos 1_000_000 }
    ensures bound { moment ≤ greatest_moment }
{
    let epoch = date(1970, 1, 1).to_datetime(Time::midnight());
    let since = SignedDuration::from_millis(moment.milliseconds() as i64);
    epoch.checked_add(since).unwrap()
}
