//! Views, computed: the claims say something, and no more than is so.

ghost use Rattle.std.specs.Prelude.{◌≡◌, true, false};
ghost use Rattle.am_stays.specs.Happenings.{era_now};
ghost use Rattle.am_stays.specs.Claims.{serves};
ghost use Rattle.am_stays.specs.Examples.{
  after,
  moved,
  late,
  old_era,
  two_eras,
  turned,
  stopped,
  retired,
  accepted,
  ended,
  forced,
};

/// An acknowledged write is seen though one of the two answers lacks it, after its place moved and a holder crashed.
pub fn seen_after_a_move()
    ensures acknowledged { (after moved).acknowledged 7 ≡ true }
    ensures before { (after moved).before 2 7 ≡ true }
    ensures undecided { (after moved).undecided 2 ≡ true }
    ensures seen { (after moved).answer 2 4 7 ≡ true }
    ensures lacking { (after moved).answer 2 3 0 ≡ true }
{}

/// A write is acknowledged after its place was handed on with it. A request that came before is answered, and
/// decided, by one with it and one without; the write that it makes is taken by those alone who still go by its
/// epoch.
pub fn acknowledged_late()
    ensures acknowledged { (after late).acknowledged 7 ≡ true }
    ensures settled { (after late).held 4 ≡ 7 }
    ensures before { (after late).before 2 7 ≡ true }
    ensures third { (after late).answer 3 3 0 ≡ true }
    ensures second { (after late).answer 3 2 7 ≡ true }
    ensures decided { (after late).put 8 ≡ true }
    ensures taken { (after late).ack 8 2 ≡ true }
    ensures refused { (after late).ack 8 1 ≡ false }
{}

/// A request of an era that ended, which comes behind the acknowledgement, sees the write.
pub fn decided_in_an_old_era()
    ensures acknowledged { (after old_era).acknowledged 7 ≡ true }
    ensures era { era_now (after old_era) ≡ 1 }
    ensures request_era { (after old_era).era_of ((after old_era).epoch 2) ≡ 0 }
    ensures before { (after old_era).before 2 7 ≡ true }
    ensures lacking { (after old_era).answer 2 2 0 ≡ true }
    ensures seen { (after old_era).answer 2 3 7 ≡ true }
    ensures decided { (after old_era).put 8 ≡ true }
{}

/// Two settled replicas, of two eras, both lack an acknowledged write.
pub fn lacking_in_two_eras()
    ensures acknowledged { (after two_eras).acknowledged 7 ≡ true }
    ensures second { serves (after two_eras) 2 ≡ true }
    ensures second_lacks { (after two_eras).held 2 ≡ 0 }
    ensures third { serves (after two_eras) 3 ≡ true }
    ensures third_lacks { (after two_eras).held 3 ≡ 0 }
{}

/// Within an era a replica keeps what it holds as it learns the next epoch, and takes no Put or Get of another.
pub fn kept_over_an_epoch()
    ensures era { era_now (after turned) ≡ 0 }
    ensures epoch { (after turned).epoch 2 ≡ 1 }
    ensures refused { (after turned).ack 7 1 ≡ false }
    ensures acknowledged { (after turned).acknowledged 7 ≡ true }
    ensures lacking { (after turned).answer 2 1 0 ≡ true }
    ensures unanswered { (after turned).answer 2 2 7 ≡ false }
    ensures known { (after turned).known 2 ≡ 1 }
    ensures kept { (after turned).held 2 ≡ 7 }
{}

/// A stop of all ends what is open, and the three keep what they stored.
pub fn kept_over_a_stop()
    ensures ended { (after stopped).undecided 2 ≡ false }
    ensures not_taken { (after stopped).ack 7 3 ≡ false }
    ensures before { (after stopped).before 3 7 ≡ true }
    ensures undecided { (after stopped).undecided 3 ≡ true }
    ensures seen { (after stopped).answer 3 1 7 ≡ true }
    ensures lacking { (after stopped).answer 3 3 0 ≡ true }
    ensures up { (after stopped).up 4 ≡ true }
    ensures unanswered { (after stopped).answer 3 4 0 ≡ false }
{}

/// What replicas dropped at its retirement is outlived, and isn't seen.
pub fn outlived_once_retired()
    ensures acknowledged { (after retired).acknowledged 7 ≡ true }
    ensures before { (after retired).before 2 7 ≡ true }
    ensures outlived { (after retired).outlived ≡ 7 }
    ensures undecided { (after retired).undecided 2 ≡ true }
    ensures first_lacks { (after retired).answer 2 1 0 ≡ true }
    ensures third_lacks { (after retired).answer 2 3 0 ≡ true }
{}

/// A write is seen where greater ones of its key are; who is none of the three takes nothing.
pub fn seen_in_a_greater_one()
    ensures acknowledged { (after accepted).acknowledged 7 ≡ true }
    ensures before { (after accepted).before 2 7 ≡ true }
    ensures not_outlived { (after accepted).outlived ≡ 0 }
    ensures first { (after accepted).answer 2 1 8 ≡ true }
    ensures third { (after accepted).answer 2 3 9 ≡ true }
    ensures up { (after accepted).up 4 ≡ true }
    ensures not_taken { (after accepted).held 4 ≡ 0 }
{}

/// A request that was refused is not decided, and a write that ended is not acknowledged, though its two Acks come.
pub fn ended_for_good()
    ensures undone { (after ended).put 7 ≡ false }
    ensures written { (after ended).put 8 ≡ true }
    ensures first { (after ended).ack 8 1 ≡ true }
    ensures second { (after ended).ack 8 2 ≡ true }
    ensures unacknowledged { (after ended).acknowledged 8 ≡ false }
    ensures held { (after ended).held 1 ≡ 8 }
{}

/// Outside calm, where one was settled by force, two settled replicas of one era lack an acknowledged write.
pub fn lacking_after_force()
    ensures acknowledged { forced.acknowledged 7 ≡ true }
    ensures first { serves forced 1 ≡ true }
    ensures first_lacks { forced.held 1 ≡ 0 }
    ensures third { serves forced 3 ≡ true }
    ensures third_lacks { forced.held 3 ≡ 0 }
{}
