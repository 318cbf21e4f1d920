ghost use Rattle.std.specs.Prelude.{◌≡◌, ◌≤◌};
ghost use Rattle.am_notifier.specs.Positions.{number_of};

/// The position of an instance among the three replicas of a tenant.
#[derive(Clone, Copy)]
pub enum Position {
    First,
    Second,
    Third,
}

impl Position {
    /// The position of a number, 0 to 2.
    pub fn new(number: usize) -> Position
        requires { number ≤ 2 }
        ensures { number_of result ≡ number }
    {
        match number {
            0 => Position::First,
            1 => Position::Second,
            _ => Position::Third,
        }
    }

    // Its number.
    pub(crate) fn number(self) -> u8
        ensures number { result ≡ number_of self }
        ensures bound { result ≤ 2 }
    {
        match self {
            Position::First => 0,
            Position::Second => 1,
            Position::Third => 2,
        }
    }
}
