//! What is so of patterns that give no answer: laws, which no program needs to call.

ghost use Rattle.std.specs.Prelude.{ℕ, List, All};
ghost use Rattle.am_pattern.specs.Taking.{IsPattern};
ghost use Rattle.am_query.specs.Patterns.{HasRefused};
ghost use Rattle.am_muting.specs.Failing.{HasUnanswered};

/// Of texts that are all patterns one gives no answer just where one was refused a build.
pub fn unanswered_patterns_are_refused()
    ensures refused { (refused texts : List (List ℕ)) → All IsPattern texts → HasUnanswered refused texts
        → HasRefused refused texts }
    ensures unanswered { (refused texts : List (List ℕ)) → HasRefused refused texts → HasUnanswered refused texts }
{}
