//! Acknowledged writes stay: what on-call people rely on most, proved on one key of one tenant.
//!
//! A silence that was answered is seen by the decision of every request that comes later, until it is outlived: over
//! crashes, restarts, joins, leaves, a stop of all, and ring changes that each instance learns for itself, while the
//! view is calm: a replica crashes, joins or leaves only while all three are up, settled and go by the present era,
//! and none is settled by force. Messages may be lost, repeated, and come in any order, however late.
//!
//! `specs/Shadow` has what one key sees of the cluster, `specs/Happenings` what happens and when it can,
//! `specs/Claims` the claims, `specs/Examples` views that are computed. No function here does anything: their
//! contracts are the claims, and what is seen in those views.
#![tactic(auto)]

ghost use Rattle.am_stays.specs.Claims.{
  InEveryCalmView,
  PairsHold,
  ListsAreHeld,
  DecisionsSee,
  EarlierEpochsEnd,
  AreAdjacent,
  OthersHoldNothing,
  NewcomersHoldNothing,
  EpochsFollow,
  PlacesFollow,
};

mod broken_rules;
mod examples;

pub use broken_rules::{
    rules_of_operations_are_needed, rules_of_rings_are_needed, rules_of_settling_are_needed,
};
pub use examples::{
    acknowledged_late, decided_in_an_old_era, ended_for_good, kept_over_a_stop, kept_over_an_epoch,
    lacking_after_force, lacking_in_two_eras, outlived_once_retired, seen_after_a_move,
    seen_in_a_greater_one,
};

/// Any two settled replicas of an era include a holder of each acknowledged item that isn't outlived, and who settles
/// has what both others had when their lists were cut, or it is outlived.
pub fn acknowledged_writes_stay()
    ensures pairs { InEveryCalmView PairsHold }
    ensures lists { InEveryCalmView ListsAreHeld }
{}

/// Each decision sees what was acknowledged before its request came.
pub fn decisions_see()
    ensures { InEveryCalmView DecisionsSee }
{}

/// At any moment replicas of at most two eras count: who still goes by an older one lost its place, and where two
/// answered a request of an epoch, at most one replica of each earlier epoch still goes by that.
pub fn at_most_two_eras()
    ensures adjacent { InEveryCalmView AreAdjacent }
    ensures ended { InEveryCalmView EarlierEpochsEnd }
{}

/// Epochs and eras follow one by one: with each epoch the era stays or the next begins, and the three of an era are
/// those of the era before, but for one, whose place another instance got.
pub fn places_follow_instances()
    ensures epochs { InEveryCalmView EpochsFollow }
    ensures places { InEveryCalmView PlacesFollow }
{}

/// Who is up and none of the three, by what it knows, holds nothing and isn't settled. So an instance that gets a place
/// has nothing until it knows the era that began so.
pub fn others_hold_nothing()
    ensures others { InEveryCalmView OthersHoldNothing }
    ensures newcomers { InEveryCalmView NewcomersHoldNothing }
{}
