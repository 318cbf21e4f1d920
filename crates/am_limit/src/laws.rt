//! What an allowance says over all the moments at which it is asked: laws, which no program needs to call.
ghost use Rattle.std.specs.Prelude.{◌≡◌, ◌≤◌, ◌∷◌, ◌++◌, ℕ, List, [], nat_lt};
ghost use Rattle.am_limit.specs.Limits.{Count, HasCounted, IsForward, may_take, taken_after};
ghost use Rattle.am_limit.specs.Limits.{after_asking, after_asking_all, count_in, fresh, has_room, with_limit, minute_of};

/// An allowance and the list of the moments at which it gave a notice say the same, for a clock that does
/// not go back: it gives one more exactly where fewer than its present limit lie in the minute.
pub fn given_notices_are_counted()
    ensures first { (limit : ℕ) → HasCounted (fresh limit) [] }
    ensures answer { (a : Count) (taken : List ℕ) (moment : ℕ) → HasCounted a taken → a.minute ≤ minute_of moment
        → has_room a moment ≡ may_take a.limit taken moment }
    ensures counted { (a : Count) (taken : List ℕ) (moment : ℕ) → HasCounted a taken → a.minute ≤ minute_of moment
        → HasCounted (after_asking a moment) (taken_after a.limit taken moment) }

    // Another limit forgets nothing.
    ensures limit_set { (a : Count) (taken : List ℕ) (limit : ℕ) → HasCounted a taken
        → HasCounted (with_limit a limit) taken }
{}

/// Asked at moments that never go back, it says yes exactly as often in each minute as its limit allows:
/// where it was asked fewer times than that in the minute before.
pub fn each_minute_has_its_limit()
    ensures { (limit : ℕ) (moments : List ℕ) (moment : ℕ) → IsForward 0 (moments ++ moment ∷ [])
        → has_room (after_asking_all (fresh limit) moments) moment ≡ nat_lt (count_in (minute_of moment) moments) limit }
{}
