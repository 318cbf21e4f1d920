//! What a text of matchers says: laws, which no program needs to call.
ghost use Rattle.std.specs.Prelude.{◌≡◌, ℕ, List, Some};
ghost use Rattle.am_match.specs.Forms.{Says};
ghost use Rattle.am_match.specs.Matchers.{MatcherText};
ghost use Rattle.am_match.specs.Reading.{matchers_of};

/// The matchers that are read of a text are those that it says, and each text that says any is read.
pub fn matchers_of_a_text()
    ensures read { (text : List ℕ) (ms : List MatcherText) → Says text ms → matchers_of text ≡ Some ms }
    ensures says { (text : List ℕ) (ms : List MatcherText) → matchers_of text ≡ Some ms → Says text ms }
{}
