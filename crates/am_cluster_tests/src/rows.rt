//! Worked examples, played through the definitions.

ghost use Rattle.std.specs.Prelude.{◌≡◌, true, false, [], ◌∷◌, codes};
ghost use Rattle.am_ring.specs.Replicas.{replicas};
ghost use Rattle.am_cluster.specs.Refused.{NotSent, RingSmall};
ghost use Rattle.am_cluster_tests.specs.Rows.{acknowledged_by_one, acknowledged_by_two, answered_twice, configuration_put_lost, first_piece_lost, given_up, join_settles, join_unsettled, leave_of_three, lost_in_time, not_yet_learned, ok, old_answers, pieces_between, played_out, posted_and_listed, put_and_answer_lost, read_after_stop, refused_as, replaced, restarted, second_piece_lost, served_by_another, stopped_and_started, text, two_crash, write_survives};
ghost use Rattle.am_cluster_tests.specs.Scenario.{replies};
ghost use Rattle.am_cluster_tests.specs.StandIn.{tenant};

/// The tenant `a` has the replicas 2, 1 and 3 of the ring 1, 2, 3, and 2, 4 and 1 where 4 is in it too.
pub fn replicas_of_rings()
    ensures three { replicas tenant (1 ∷ 2 ∷ 3 ∷ []) ≡ 2 ∷ 1 ∷ 3 ∷ [] }
    ensures four { replicas tenant (1 ∷ 2 ∷ 3 ∷ 4 ∷ []) ≡ 2 ∷ 4 ∷ 1 ∷ [] }
{}

/// An alert is posted and listed, also where a Put and an Answer are lost.
pub fn requests()
    ensures listed { replies (played_out posted_and_listed) ≡ (1, ok []) ∷ (2, ok (codes "b")) ∷ [] }
    ensures lost { replies (played_out put_and_answer_lost) ≡ (1, ok []) ∷ (2, ok (codes "b")) ∷ [] }
{}

/// An answer or an Ack that comes again, or comes from the same replica, adds nothing.
pub fn repeats()
    ensures answers { replies (played_out answered_twice) ≡ [] }
    ensures one_ack { replies (played_out acknowledged_by_one) ≡ [] }
    ensures two_acks { replies (played_out acknowledged_by_two) ≡ (1, ok []) ∷ [] }
{}

/// An open operation ends where another ring has other replicas, and where one of the three is restarted.
pub fn endings()
    ensures other_replicas { replies (played_out replaced) ≡ (1, refused_as (codes "Q2")) ∷ [] }
    ensures new_life { replies (played_out restarted) ≡ (1, refused_as (codes "Q2")) ∷ [] }
{}

/// Where two of three crash, a request times out, also when they came again, until they are settled by force.
pub fn crashes()
    ensures { replies (played_out two_crash) ≡ (1, ok []) ∷ (3, refused_as (codes "Q1")) ∷ (4, refused_as (codes "Q1")) ∷ (5, ok (codes "b")) ∷ [] }
{}

/// An instance that joined serves once it has the States of both others, and not before; who is no replica any more
/// serves by those who are; and a ring counts for an instance once it has learned it.
pub fn joins()
    ensures join_settled { replies (played_out join_settles) ≡ (1, ok []) ∷ (3, ok (codes "b")) ∷ [] }
    ensures join_waits { replies (played_out join_unsettled) ≡ (1, ok []) ∷ (3, ok (codes "b")) ∷ (4, refused_as (codes "Q1")) ∷ [] }
    ensures served { replies (played_out served_by_another) ≡ (1, ok []) ∷ (3, ok (codes "b")) ∷ [] }
    ensures learned_late { replies (played_out not_yet_learned) ≡ (1, ok []) ∷ (3, ok (codes "b")) ∷ (4, refused_as (codes "Q1")) ∷ (5, ok (codes "b")) ∷ [] }
{}

/// A State goes on from the first piece that is lacking.
pub fn pieces()
    ensures second_again { pieces_between 2 4 (played_out second_piece_lost) ≡ (0, false, 64) ∷ (64, true, 1) ∷ (64, true, 1) ∷ [] }
    ensures first_again { pieces_between 2 4 (played_out first_piece_lost) ≡ (0, false, 64) ∷ (64, true, 1) ∷ (0, false, 64) ∷ (64, true, 1) ∷ [] }
{}

/// A write that was acknowledged survives a restart, and a stop where it is stored; answers and Acks of an earlier
/// incarnation count for nothing.
pub fn writes()
    ensures survived { replies (played_out write_survives) ≡ (1, ok []) ∷ (2, ok (codes "b")) ∷ [] }
    ensures stored { replies (stopped_and_started configuration_put_lost read_after_stop) ≡ (2, ok text) ∷ [] }
    ensures old_ones { replies (played_out old_answers) ≡ (2, refused_as (codes "Q1")) ∷ [] }
{}

/// One of only three can't leave, and a message that was given up is lost, as is one that was sent a minute ago.
pub fn refusals()
    ensures small { (played_out leave_of_three).refused ≡ RingSmall ∷ [] }
    ensures gone { (played_out given_up).refused ≡ NotSent ∷ NotSent ∷ [] }
    ensures lost { (played_out lost_in_time).refused ≡ NotSent ∷ [] }
{}
