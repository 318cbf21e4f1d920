//! What the moment and the duration of a text are by their grammars: laws, which no program needs to call.
ghost use Rattle.std.specs.Prelude.{◌≡◌, ◌≤◌, ◌⊎◌, ℕ, List, Option, Some, Ok, Err, codes};
ghost use Rattle.am_text.specs.DateTime.{DateTime, Spells, instant};
ghost use Rattle.am_text.specs.Duration.{Part, SpellsParts, duration, milliseconds_in, within_range};
ghost use Rattle.am_text.specs.Moment.{moment_at, greatest_moment};
ghost use Rattle.am_text.specs.Printing.{moment_text};
ghost use Rattle.am_text.specs.Reading.{moment_of};

use crate::refusal::TextRefusal;

/// The moment of a text is the one at the instant of the date-time that the text spells, by
/// RFC 3339 section 5.6. A text that spells none has no moment, and a printed moment is that of its text.
pub fn moment_of_a_text()
    ensures spelled { (text : List ℕ) (d : DateTime) → Spells text d → moment_of text ≡ moment_at (instant d) }
    ensures only { (text : List ℕ) (m : Option ℕ) → moment_of text ≡ Some m → (d : DateTime) × Spells text d }
    ensures printed { (n : ℕ) → n ≤ greatest_moment → moment_of (moment_text n) ≡ Some (Some n) }
{}

/// The duration of a text is the sum of the parts that the text spells: one or more, each digits and a unit,
/// in the order of the units. A text that spells none, and isn't `0`, has no duration.
pub fn duration_of_a_text()
    ensures spelled { (text : List ℕ) (parts : List Part) → SpellsParts text parts
        → duration text ≡ within_range (milliseconds_in parts) }
    ensures zero { duration (codes "0") ≡ Ok 0 }
    ensures only { (text : List ℕ) → (duration text ≡ Err TextRefusal.NotADuration)
        ⊎ ((text ≡ codes "0") ⊎ ((parts : List Part) × SpellsParts text parts)) }
{}
