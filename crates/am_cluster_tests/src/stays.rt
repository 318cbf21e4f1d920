//! The words on acknowledged writes, evaluated in three runs: two that are calm, and one that isn't, in which the
//! claim is false.

ghost use Rattle.std.specs.Prelude.{◌≡◌, true, false, codes};
ghost use Rattle.am_cluster.specs.AcknowledgedWrites.{are_ready, is_calm_at, is_settled_at};
ghost use Rattle.am_cluster.specs.Happening.{Changed, Forced};
ghost use Rattle.am_cluster.specs.Roster.{Crashes, Joins};
ghost use Rattle.am_cluster_tests.specs.Stays.{
  acknowledged,
  asked_again,
  asked_forced,
  asked_joined,
  by_distance,
  came_again,
  cluster_by,
  decides_with,
  decides_without,
  holds_all,
  joined,
  next_decision,
  one_down,
  two_again,
  written_by,
};
ghost use Rattle.am_cluster_tests.specs.StandIn.{bytes_listed};

/// A replica that holds a write crashes in calm and comes again: it holds the write once it is settled, and a
/// decision sees it, though the other replica that answers never had it.
pub fn crash_in_calm()
    ensures written { bytes_listed (written_by by_distance) ≡ codes "bbb" }
    ensures ready { are_ready (cluster_by by_distance acknowledged) ≡ true }
    ensures calm { is_calm_at (cluster_by by_distance acknowledged) (Changed (Crashes 2)) ≡ true }
    ensures settled { is_settled_at (cluster_by by_distance came_again) 2 ≡ true }
    ensures holds { holds_all (cluster_by by_distance came_again) (written_by by_distance) 2 ≡ true }
    ensures lacks { holds_all (cluster_by by_distance came_again) (written_by by_distance) 3 ≡ false }
    ensures seen { decides_with (next_decision (asked_again by_distance)) (written_by by_distance) ≡ true }
{}

/// A place moves in calm, and then a holder crashes: who got the place holds the write, who lost it doesn't, and a
/// decision sees it.
pub fn move_in_calm()
    ensures calm { is_calm_at (cluster_by by_distance acknowledged) (Changed (Joins 4)) ≡ true }
    ensures ready { are_ready (cluster_by by_distance joined) ≡ true }
    ensures holds { holds_all (cluster_by by_distance joined) (written_by by_distance) 4 ≡ true }
    ensures lacks { holds_all (cluster_by by_distance joined) (written_by by_distance) 3 ≡ false }
    ensures still_calm { is_calm_at (cluster_by by_distance joined) (Changed (Crashes 1)) ≡ true }
    ensures seen { decides_with (next_decision (asked_joined by_distance)) (written_by by_distance) ≡ true }
{}

/// Where two replicas crash, the second one while the first is down, and are settled by force, it isn't calm, and a
/// decision doesn't see the write.
pub fn crash_outside_calm()
    ensures calm { is_calm_at (cluster_by by_distance acknowledged) (Changed (Crashes 1)) ≡ true }
    ensures not_calm { is_calm_at (cluster_by by_distance one_down) (Changed (Crashes 2)) ≡ false }
    ensures unsettled { is_settled_at (cluster_by by_distance two_again) 2 ≡ false }
    ensures forced { is_calm_at (cluster_by by_distance two_again) Forced ≡ false }
    ensures settled { is_settled_at (asked_forced by_distance).cluster 2 ≡ true }
    ensures unseen { decides_without (next_decision (asked_forced by_distance)) (written_by by_distance) ≡ true }
{}
