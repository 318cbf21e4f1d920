//! What calls for one tenant leave: laws, which no program needs to call.

ghost use Rattle.std.specs.Prelude.{◌≡◌, ℕ, List};
ghost use Rattle.am_share.specs.Pairs.{LeavesOthers, things_of};
ghost use Rattle.am_quorum.specs.Dockets.{AreOrdered, Changes, Docket, Ops, Stay, operations_of, pairs_of};

/// Of all operations, each with whose it is, a tenant's are those of its docket. So where the docket of one tenant
/// changed, the lists of all others stay.
pub fn operations_of_others()
    ensures seen { (t : List ℕ) (ops : Ops) → AreOrdered ops → things_of t (pairs_of ops) ≡ operations_of t ops }
    ensures others { (tenant : List ℕ) (change : Docket → Docket) (old new : Ops) → AreOrdered old → AreOrdered new →
        Changes tenant change old new → LeavesOthers tenant (pairs_of old) (pairs_of new) }
    ensures none { (tenant : List ℕ) (old new : Ops) → AreOrdered old → AreOrdered new →
        Stay old new → LeavesOthers tenant (pairs_of old) (pairs_of new) }
{}
