//! Each rule is needed: where one is broken once, a claim fails.

ghost use Rattle.am_stays.specs.Claims.{
  AreAdjacent,
  DecisionsSee,
  EarlierEpochsEnd,
  ListsAreHeld,
  OthersHoldNothing,
  PairsHold,
};
ghost use Rattle.am_stays.specs.BrokenRules.{
  late_get,
  late_put,
  newcomer_answer,
  one_ack,
  one_answer,
  one_list,
  piece_missing,
  place_lost,
  restart_refuses_nothing,
  second_list,
  two_moves,
  unsettled_answer,
};

/// Two Answers decide and two Acks acknowledge, of settled replicas, each by the operation's own epoch: any less, and
/// an acknowledged write can be lacking.
pub fn rules_of_operations_are_needed()
    ensures one_answer { PairsHold one_answer → ⊥ }
    ensures one_ack { PairsHold one_ack → ⊥ }
    ensures late_put { PairsHold late_put → ⊥ }
    ensures late_get { DecisionsSee late_get → ⊥ }
    ensures unsettled { DecisionsSee unsettled_answer → ⊥ }
    ensures newcomer { EarlierEpochsEnd newcomer_answer → ⊥ }
{}

/// A restart refuses open writes, and a replica settles by all pieces of both lists, each of which is cut once: any
/// less, and an acknowledged write can be lacking.
pub fn rules_of_settling_are_needed()
    ensures restart { PairsHold restart_refuses_nothing → ⊥ }
    ensures one_list { PairsHold one_list → ⊥ }
    ensures piece_missing { PairsHold piece_missing → ⊥ }
    ensures second_list { ListsAreHeld second_list → ⊥ }
{}

/// A place moves only once the last one that moved is settled, and who lost its place drops what it holds: else
/// replicas of three eras count, or one that is none of the three holds something.
pub fn rules_of_rings_are_needed()
    ensures two_moves { AreAdjacent two_moves → ⊥ }
    ensures place_lost { OthersHoldNothing place_lost → ⊥ }
{}
