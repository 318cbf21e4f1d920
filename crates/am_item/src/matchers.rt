ghost use Rattle.std.specs.Prelude.{◌≡◌};

use am_match::Matcher;
use std::marker::Model;

/// The matchers of a silence, in their order.
pub struct Matchers {
    items: Vec<Matcher>,
}

// Written out, so that a crate which owns one need not prove anew how its parts are dropped.
impl Drop for Matchers {
    fn drop(self) {
        let Matchers { items } = self;
        drop(items);
    }
}

impl Model for Matchers {
    ghost use Rattle.std.specs.Prelude.{List};
    ghost use Rattle.am_match.specs.Matchers.{MatcherText};

    ghost Value = { List MatcherText };

    ghost view = { λ m. m.items.items };
}

impl Matchers {
    /// These matchers.
    pub fn from_vec(items: Vec<Matcher>) -> Matchers
        ensures { result ≡ items.items }
    {
        Matchers { items }
    }

    /// The matchers, borrowed.
    pub fn as_slice(&self) -> &[Matcher]
        ensures { result.now ≡ self.now }
    {
        self.items.as_slice()
    }
}
