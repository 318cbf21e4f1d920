ghost use Rattle.std.specs.Prelude.{◌≡◌};

use std::marker::Model;

/// The number of a route in its configuration: its place in the list that has each route before those
/// within it. The root's is 0.
#[derive(Clone, Copy, PartialEq, Eq, PartialOrd, Ord)]
pub struct RouteId {
    number: usize,
}

impl Model for RouteId {
    ghost use Rattle.std.specs.Prelude.{ℕ};

    ghost Value = { ℕ };

    ghost view = { λ id. id.number };

    ghost inverse = { λ n. record { number = n } };
}

impl RouteId {
    /// The route at this place.
    pub fn new(number: usize) -> RouteId
        ensures { result ≡ number }
    {
        RouteId { number }
    }

    /// The place of the route.
    pub fn number(self) -> usize
        ensures { result ≡ self }
    {
        self.number
    }
}
