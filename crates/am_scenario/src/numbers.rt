//! Numbers as the program's user writes them.
ghost use Rattle.std.specs.Prelude.{◌≡◌};
ghost use Rattle.am_scenario.specs.Number.{number_of};

/// The number that a text of decimal digits says, at most 2^64 - 1. Leading zeros are taken, a sign isn't. `None` for any
/// other text.
#[tactic(auto, unfolding(crate::specs::Number::number_of))]
pub fn number(text: &str) -> Option<u64>
    ensures { result ≡ number_of text.now }
{
    if text.starts_with('+') {
        return None;
    }
    match text.parse::<u64>() {
        Ok(number) => Some(number),
        Err(_) => None,
    }
}
