//! Laws of the private cluster, which no program needs to call.

ghost use Rattle.std.specs.Prelude.{◌≡◌, ◌≤◌, ℕ, [], ◌∷◌, ◌++◌, Contains, List, None, Some, IsTrue, true, false, find};
ghost use Rattle.std.specs.Prelude.{flat_map, is_some};
ghost use Rattle.std.specs.List.{list_all, list_any};
ghost use Rattle.am_item.specs.declared.item.Item.{Item};
ghost use Rattle.am_ring.specs.Instances.{in_order, is_instance};
ghost use Rattle.am_ring.specs.Replicas.{ReplacesOne};
ghost use Rattle.am_cluster.specs.Courses.{after_all, told_all};
ghost use Rattle.am_cluster.specs.Events.{Event, Reply};
ghost use Rattle.am_cluster.specs.Happening.{Happening};
ghost use Rattle.am_cluster.specs.Here.{Here, is_replica_here};
ghost use Rattle.am_cluster.specs.Local.{Local, is_settled};
ghost use Rattle.am_cluster.specs.Messages.{Get, Message};
ghost use Rattle.am_setup.specs.Setup.{Origin};
ghost use Rattle.am_transfer.specs.Pieces.{Piece, cut};
ghost use Rattle.am_cluster.specs.Plans.{plan_of};
ghost use Rattle.am_cluster.specs.PrivateCluster.{PrivateCluster, here_at, opened};
ghost use Rattle.am_cluster.specs.Reactions.{stays};
ghost use Rattle.am_cluster.specs.Replying.{WaitOver, connections_of};
ghost use Rattle.am_cluster.specs.Roster.{AreInstancesUp, IsSameRoster, RingEvent, Roster, instance_in, opened_roster};
ghost use Rattle.am_cluster.specs.Roster.{ring_event_refusal, ring_now, roster_after};
ghost use Rattle.am_cluster.specs.Sent.{Sent, is_named, posted, with_given_up};
ghost use Rattle.am_cluster.specs.SentFacts.{AreLists, AreNamedOnce, found_as};
ghost use Rattle.am_transfer.specs.Settling.{untouched};
ghost use Rattle.am_cluster.specs.Steady.{IsSteady, any_moves};
ghost use Rattle.am_cluster.specs.Ticking.{deadlines, timers_of};
ghost use Rattle.am_wire.specs.Messages.{spelling};
ghost use Rattle.am_node.specs.Notices.{in_order as timers_in_order, timers_in};
ghost use Rattle.am_cluster.specs.Transfers.{asks_first};
ghost use Rattle.am_cluster.specs.Unnamed.{IsUnnamed, name_nobody};
ghost use Rattle.am_cluster.specs.View.{Watch, adds, first_watch, view, watch, watch_all};

/// A tenant whom nothing has named stays so, whatever happens to the ring, and nothing is put out for it.
pub fn unnamed_tenants()
    ensures opened { (origin : Origin) (tenant : List ℕ) → IsUnnamed (opened origin tenant (λ i. [])) }
    ensures stay { (p : PrivateCluster) (hs : List Happening) → IsUnnamed p → IsTrue (name_nobody hs)
        → IsUnnamed (after_all p hs) }
    ensures silent { (p : PrivateCluster) (hs : List Happening) → IsUnnamed p → IsTrue (name_nobody hs) → told_all p hs
        ≡ [] }
{}

/// A join or a leave, as any other event of the ring, puts at most one replica of a tenant in another's place.
pub fn one_replica_changes()
    ensures opened { (origin : Origin) → ring_now (opened_roster origin) ≡ in_order (ring_now (opened_roster origin)) }
    ensures one { (tenant : List ℕ) (roster : Roster) (event : RingEvent) → ring_now roster ≡ in_order (ring_now roster)
        → ring_event_refusal event roster ≡ None
        → ReplacesOne tenant (ring_now roster) (ring_now (roster_after event roster)) }
    ensures ordered { (roster : Roster) (event : RingEvent) → ring_now roster ≡ in_order (ring_now roster)
        → ring_event_refusal event roster ≡ None
        → ring_now (roster_after event roster) ≡ in_order (ring_now (roster_after event roster)) }
{}

/// Only instances are ever up, and the newest ring is in order, whatever comes; so an event of the ring that names
/// another number is refused.
pub fn only_instances_are_up()
    ensures opened { (origin : Origin) → list_all is_instance origin.ring ≡ true
        → AreInstancesUp (first_watch origin).roster }
    ensures stay { (v : Watch) (e : Event) → ring_now v.roster ≡ in_order (ring_now v.roster)
        → AreInstancesUp v.roster → AreInstancesUp (watch v e).roster }
    ensures ordered { (v : Watch) (e : Event) → ring_now v.roster ≡ in_order (ring_now v.roster)
        → ring_now (watch v e).roster ≡ in_order (ring_now (watch v e).roster) }
    ensures others { (roster : Roster) (event : RingEvent) → ring_now roster ≡ in_order (ring_now roster)
        → AreInstancesUp roster → is_instance (instance_in event) ≡ false
        → is_some (ring_event_refusal event roster) ≡ true }
{}

/// Which instances are up, in which incarnations, and which rings they know is the same in each tenant's private
/// cluster, whatever the events were: it is known from the events of the ring alone. So an event of the ring is refused
/// for all tenants or for none.
pub fn instances_are_known()
    ensures refused { (one other : Roster) (event : RingEvent) → IsSameRoster one other
        → ring_event_refusal event one ≡ ring_event_refusal event other }
    ensures after { (one other : Roster) (event : RingEvent) → IsSameRoster one other
        → IsSameRoster (roster_after event one) (roster_after event other) }
    ensures event { (tenant : List ℕ) (v : Watch) (e : Event) (p : PrivateCluster) → IsSameRoster p.roster v.roster
        → IsSameRoster (after_all p (adds tenant v e)).roster (watch v e).roster }
    ensures all { (origin : Origin) (tenant : List ℕ) (rows : ℕ → List Item) (es : List Event)
        → IsSameRoster (after_all (opened origin tenant rows) (view tenant (first_watch origin) es)).roster
        (watch_all (first_watch origin) es).roster }
{}

/// While no instance joins, leaves or is restarted, the replicas are those that are settled, whatever else happens,
/// and nothing by which instances settle is sent: nobody asks, and the timers are deadlines, flushes and tries.
pub fn settled_from_the_start()
    ensures opened { (origin : Origin) (tenant : List ℕ) (rows : ℕ → List Item) → IsSteady (opened origin tenant rows) }
    ensures stay { (p : PrivateCluster) (hs : List Happening) → IsSteady p → any_moves hs ≡ false
        → IsSteady (after_all p hs) }
    ensures all { (p : PrivateCluster) (moment i : ℕ) → IsSteady p
        → is_settled (here_at p moment i) (p.at i) ≡ is_replica_here (here_at p moment i) }
    ensures settled { (here : Here) (local : Local) → here.stayed ≡ is_replica_here here → local.settling ≡ untouched
        → is_settled here local ≡ is_replica_here here }
    ensures nobody_asks { (here : Here) (local : Local) → here.stayed ≡ is_replica_here here → asks_first here local
        ≡ stays local }
    ensures timers { (here : Here) (local : Local) → local.settling ≡ untouched
        → timers_of here local
        ≡ timers_in_order (deadlines here.tenant local ++ (timers_in here.tenant (plan_of here local) ++ [])) }
{}

/// No two messages of a tenant have one name, whatever happened since its cluster was opened.
pub fn messages_are_named_once()
    ensures { (origin : Origin) (tenant : List ℕ) (rows : ℕ → List Item) (hs : List Happening)
        → AreNamedOnce (after_all (opened origin tenant rows) hs).sent }
{}

/// Each message that was sent is what is found under its name, whatever happened since its tenant's cluster was opened,
/// and messages of other names change nothing of that. Once it is given up, or lost, nothing is there under its name.
pub fn messages_are_found_once()
    ensures found { (origin : Origin) (tenant : List ℕ) (rows : ℕ → List Item) (hs : List Happening) (s : Sent)
        → Contains (after_all (opened origin tenant rows) hs).sent s
        → found_as s.message (after_all (opened origin tenant rows) hs).sent ≡ Some s }
    ensures before { (from incarnation to count : ℕ) (sent later : List Sent)
        → list_any (is_named from incarnation to count) later ≡ false
        → find (is_named from incarnation to count) (sent ++ later) ≡ find (is_named from incarnation to count) sent }
    ensures given_up { (clock from incarnation to count : ℕ) (sent : List Sent)
        → posted clock from incarnation to count (with_given_up from incarnation to count sent) ≡ None }
    ensures lost { (clock moment from incarnation to count : ℕ) (sent : List Sent) (m : Message) → clock ≤ moment
        → posted moment from incarnation to count sent ≡ Some m → posted clock from incarnation to count sent ≡ Some m }
{}

/// Each reply that a tenant's cluster puts out goes to a connection over which a request of the tenant had come,
/// and so will the reply of each open operation at each instance.
pub fn replies_answer_requests()
    ensures operations { (origin : Origin) (tenant : List ℕ) (rows : ℕ → List Item) (hs : List Happening) (i : ℕ)
        → WaitOver (λ connection request. Contains (connections_of hs) connection)
        ((after_all (opened origin tenant rows) hs).at i).operations }
    ensures replies { (origin : Origin) (tenant : List ℕ) (rows : ℕ → List Item) (hs : List Happening)
        (connection : ℕ) (bytes : List ℕ) → Contains (told_all (opened origin tenant rows) hs) (Reply connection bytes)
        → Contains (connections_of hs) connection }
{}

/// The pieces of a State that were sent, in one epoch and to one incarnation of its receiver, are those into which
/// one list is cut, however often they were sent.
pub fn states_are_lists()
    ensures { (origin : Origin) (tenant : List ℕ) (rows : ℕ → List Item) (hs : List Happening)
        → AreLists (after_all (opened origin tenant rows) hs).sent }
{}

/// The pieces into which a list is cut are the list, one after the other.
pub fn one_list()
    ensures { (items : List Item) → flat_map (λ (p : Piece). p.items) (cut items) ≡ items }
{}

/// The frame of `Get` number 1 of tenant `a` from instance 1 to 2, of epoch 0.
pub fn first_frame()
    ensures { spelling (record {
      tenant = 97 ∷ [];
      from = 1;
      incarnation = 1;
      to = 2;
      count = 1;
      epoch = 0;
      body = Get 1;
    })
        ≡ 0 ∷ 0 ∷ 0 ∷ 34 ∷ 2 ∷ 1 ∷ 1 ∷ 0 ∷ 0 ∷ 0 ∷ 1 ∷ 2 ∷ 0 ∷ 0 ∷ 0 ∷ 0 ∷ 0 ∷ 0 ∷ 0 ∷ 1 ∷ 0 ∷ 0 ∷ 0 ∷ 0 ∷ 0 ∷ 0 ∷ 0 ∷ 0
        ∷ 1 ∷ 97
        ∷ 0 ∷ 0 ∷ 0 ∷ 0 ∷ 0 ∷ 0 ∷ 0 ∷ 1 ∷ [] }
{}
