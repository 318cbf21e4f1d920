//! What a throttle says over all that comes of one tenant: laws, which no program needs to call.
ghost use Rattle.std.specs.Prelude.{◌≡◌, ◌≤◌, ◌<◌, ◌+◌, ◌^◌, ℕ, List, None, Some, length, true};
ghost use Rattle.am_log.specs.Throttling.{AreApart, after_all, after_one, count_in, is_over, left_out_in, told_at};
ghost use Rattle.am_log.specs.Throttling.{told_of_all};
ghost use Rattle.am_log.specs.declared.throttle.Recent.{Recent};

/// Whatever comes of a tenant, what is told is at least a second apart.
pub fn what_is_told_is_a_second_apart()
    ensures { (moments : List ℕ) → AreApart (told_of_all None moments) }
{}

/// Each of what comes of a tenant is told, or counted as left out with the next that is told, or waits to be.
pub fn each_is_told_or_left_out()
    ensures { (moments : List ℕ) → length moments < 2 ^ 64
        → count_in (told_of_all None moments) + left_out_in (after_all None moments) ≡ length moments }
{}

/// To forget a tenant of whom nothing was told within the second before, nor left out since, changes nothing of what is
/// told later.
pub fn forgetting_changes_nothing()
    ensures told { (recent : Recent) (moment later : ℕ) → is_over moment recent ≡ true → moment ≤ later
        → told_at later (Some recent) ≡ told_at later None }
    ensures kept { (recent : Recent) (moment later : ℕ) → is_over moment recent ≡ true → moment ≤ later
        → after_one later (Some recent) ≡ after_one later None }
{}
