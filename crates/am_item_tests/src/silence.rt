//! Worked examples: what a post is refused for and in which order, and what it changes. Times are minutes from
//! 2025-06-15T15:06:40Z on.

mod changing;
mod posting;

use crate::parts::{POSTED_AT, at};
use am_text::Moment;

fn minute(number: u8) -> Moment {
    at(POSTED_AT + 60000 * u64::from(number))
}

// The minute of a moment.
fn minute_of(moment: Moment) -> u64 {
    moment.milliseconds().saturating_sub(POSTED_AT) / 60000
}
