//! How what a store has of a tenant goes with the best of the items that were put, and what is said of a store in
//! memory: laws, which no program needs to call.

ghost use Rattle.std.specs.Prelude.{◌≡◌, ℕ, Bool, List, [], true};
ghost use Rattle.am_item.specs.Best.{IsRising, all_joined, best};
ghost use Rattle.am_item.specs.declared.item.Item.{Item};
ghost use Rattle.am_share.specs.Pairs.{Drops};
ghost use Rattle.am_store.specs.Best.{Holds};
ghost use Rattle.sqlite.specs.Held.{Held, state};
ghost use Rattle.sqlite.specs.Steps.{over_memory};
ghost use Rattle.sqlite_trees.specs.declared.memory.MemStore.{MemStore};
ghost use Rattle.am_rows.specs.Refusing.{MayRefuse};
ghost use Rattle.am_store.specs.Failing.{medium_of};
ghost use Rattle.am_store.specs.Stored.{Puts, Stored, stored_items};

/// What a store has of a tenant under each key is the best of the items that were put since the tenant was last
/// dropped: a drop leaves what the empty list has, and what is put joins the list.
pub fn rows_are_the_best()
    ensures dropped { (tenant : List ℕ) (old new : List (List ℕ × Stored)) → Drops tenant old new
        → Holds tenant [] new }
    ensures put { (tenant : List ℕ) (held items : List Item) (old new : List (List ℕ × Stored)) → IsRising held
        → Holds tenant held old → Puts tenant (stored_items items) old new → Holds tenant (all_joined held items) new }
    ensures best { (tenant : List ℕ) (items : List Item) (old new : List (List ℕ × Stored)) → Holds tenant [] old
        → Puts tenant (stored_items items) old new → Holds tenant (best items) new }
{}

/// Memory always returns what was written: what is said of a store as long as its disk does so holds of one in memory at any
/// time.
pub fn memory_stays_clean()
    ensures { (shelf : Held MemStore × Bool) → (state over_memory shelf.0).is_clean ≡ true }
{}

/// Memory never fails: what a call of a store may be refused for never holds of one in memory. It refuses only what no
/// store takes.
pub fn memory_never_fails()
    ensures { (old new : Held MemStore × Bool)
        → MayRefuse (medium_of (state over_memory old.0)) (medium_of (state over_memory new.0)) → ⊥ }
{}
