ghost use Rattle.std.specs.Prelude.{◌≡◌, ◌≤◌, IfSome};
ghost use Rattle.am_outlet.specs.Outcomes.{awaits, is_delivered, is_to_retry, next_due};

use crate::attempt::{Attempt, Notice};
use am_text::Moment;

// How many milliseconds after the outcome of each try but the last the next one is due.
const WAITS: [u64; 4] = [10_000, 20_000, 40_000, 80_000];

/// What the outcome of a try made of its attempt.
#[derive(Drop)]
pub enum Outcome {
    /// No outcome of that try is awaited. Nothing changed.
    NotOpen,
    /// The webhook was told this. The attempt is closed.
    Delivered(Notice),
    /// The next try is due at this moment.
    Again(Moment),
    /// There is no further try. The attempt is closed.
    GivenUp,
}

// Whether the outcome of this try is awaited.
pub fn awaits(tries: u8, attempt: &Attempt) -> bool
    ensures { result ≡ awaits tries attempt.now }
{
    attempt.tries == tries && attempt.again.is_none()
}

// Whether a webhook that answers so was told.
pub fn is_delivered(status: Option<u16>) -> bool
    ensures { result ≡ is_delivered status }
{
    match status {
        None => false,
        Some(status) => 200 <= status && status < 300,
    }
}

// When the try after so many is due, where there is one.
pub fn next_due(tries: u8, moment: Moment, status: Option<u16>) -> Option<Moment>
    ensures due { result ≡ next_due tries moment status }
    // There is none after the fifth.
    ensures tries { IfSome result (λ _. tries ≤ 4) }
{
    if !is_to_retry(status) {
        return None;
    }
    let wait = WAITS.get(usize::from(tries.saturating_sub(1)))?;
    Some(moment.plus(*wait))
}

// Whether a webhook that answers so may be told again.
fn is_to_retry(status: Option<u16>) -> bool
    ensures { result ≡ is_to_retry status }
{
    match status {
        None => true,
        Some(status) => 500 <= status && status < 600,
    }
}
