//! What becomes of what is retired.

ghost use Rattle.std.specs.Prelude.{◌≡◌, ℕ, List, IfErr, OnOk, true};
ghost use Rattle.am_node.specs.Held.{local_of};
ghost use Rattle.am_node.specs.Retiring.{retired};
ghost use Rattle.am_node.specs.Storing.{AreStored, LeavesStore};
ghost use Rattle.am_replica.specs.Retiring.{StopsRetiring};
ghost use Rattle.am_replica.specs.Storing.{fault_in};

use crate::parts::Parts;
use am_item::Fault;
use am_rows::Rows;
use am_text::Moment;
use std::alloc::Global;

impl Parts {
    /// Drops what is retired at the moment, of all tenants: items, the alerts among them from their groups, and the
    /// last
    /// flushes of groups that have no members. It looks at what goes, and at the item that retires next.
    pub(crate) fn retire<R: Rows>(
        &mut self,
        alloc: Global,
        moment: Moment,
        store: &mut R,
    ) -> Result<(), Fault>
        requires { R.is_open store.old ≡ true }
        ensures retired { OnOk result ((t : List ℕ) → local_of t self.new ≡ retired moment (local_of t self.old)) }
        ensures clean { R.is_clean store.new ≡ true → R.is_clean store.old ≡ true }
        ensures open { OnOk result (R.is_open store.new ≡ true) }
        ensures stores { R.is_clean store.new ≡ true → AreStored self.old (R.pairs store.old)
            → OnOk result (AreStored self.new (R.pairs store.new)) }
        ensures left { R.is_clean store.new ≡ true → AreStored self.old (R.pairs store.old) → LeavesStore
            (λ t. local_of t self.old) (λ t. retired moment (local_of t self.old))
            ⊥ (fault_in result) (R.medium store.old) (R.medium store.new) (R.pairs store.new) }
        ensures fault { IfErr result (StopsRetiring moment (λ t. (local_of t self.old).held)) }
    {
        let gone = self.replica.retire(alloc, moment, store)?;
        match self.notifier.forget(alloc, gone) {
            Ok(()) => Ok(()),
            Err(_) => Err(Fault::OutOfMemory),
        }
    }
}
