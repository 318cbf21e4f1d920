//! What a queue answers to each tenant, and the order of timers: laws, which no program needs to call.
ghost use Rattle.std.specs.Prelude.{◌≡◌, ℕ, List, [], map};
ghost use Rattle.std.specs.Cmp.{IsTotalOrder};
ghost use Rattle.std.specs.declared.cmp.Ordering.TheVariants.{Equal};
ghost use Rattle.am_timer.specs.Calls.{Call, answers, calls_of};
ghost use Rattle.am_timer.specs.Queue.{timers_of};
ghost use Rattle.am_timer.specs.Timer.{Timer, timer_cmp};

/// Whatever the other tenants set and cancel, what a queue answers of a tenant's timers is what a queue answers that
/// this tenant alone uses.
pub fn each_tenant_is_answered_alone()
    ensures { (calls : List Call) (t : List ℕ) → map (timers_of t) (answers calls []) ≡ answers (calls_of t calls) [] }
{}

/// The order of timers is total, and tells apart what differs.
pub fn order()
    ensures total { IsTotalOrder timer_cmp }
    ensures one_timer { (a b : Timer) → timer_cmp a b ≡ Equal → a ≡ b }
{}
