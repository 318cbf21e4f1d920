//! What is retired.

ghost use Rattle.std.specs.Prelude.{◌≡◌, ℕ, List, Some, IfErr, IfOk, OnErr, OnOk, false, true};
ghost use Rattle.am_book.specs.Retired.{is_key_retired};
ghost use Rattle.am_context.specs.Gone.{is_gone};
ghost use Rattle.am_item.specs.Key.{Key};
ghost use Rattle.am_replica.specs.Holds.{holds_of};
ghost use Rattle.am_replica.specs.Retiring.{StopsRetiring, retired};
ghost use Rattle.am_replica.specs.Storing.{AreStored, fault_in};
ghost use Rattle.am_rows.specs.Refusing.{MayRefuse};
ghost use Rattle.am_rows.specs.Rows.{Keeps};

use crate::replica::Replica;
use crate::storing::{drop_rows, note_silence};
use am_item::{Fault, ThingKey};
use am_rows::Rows;
use am_tenant::TenantName;
use am_text::Moment;
use std::alloc::Global;

impl Replica {
    /// Drops what is retired at the moment, of all tenants, and gives the keys of what went, each with whose it was.
    /// The rows
    /// of silences go in one commit. It looks at what goes, and at the item that retires next.
    ///
    /// # Errors
    /// `StoreRefused` where silences retire, or out of memory. The rows are as before then.
    pub fn retire<R: Rows>(
        &mut self,
        alloc: Global,
        moment: Moment,
        store: &mut R,
    ) -> Result<Vec<(TenantName, ThingKey)>, Fault>
        requires { R.is_open store.old ≡ true }
        ensures holds { OnOk result ((t : List ℕ) → holds_of t self.new ≡ retired moment (holds_of t self.old)) }
        ensures gone { IfOk result (λ gone. (t : List ℕ) (key : Key)
            → is_gone t key gone.items ≡ is_key_retired moment (holds_of t self.old).held key) }
        ensures clean { R.is_clean store.new ≡ true → R.is_clean store.old ≡ true }
        ensures open { OnOk result (R.is_open store.new ≡ true) }
        ensures stores { R.is_clean store.new ≡ true → AreStored self.old (R.pairs store.old)
            → OnOk result (AreStored self.new (R.pairs store.new)) }
        ensures left { R.is_clean store.new ≡ true → (R.medium store.new).is_shut ≡ false
            → OnErr result (Keeps (R.pairs store.old) (R.pairs store.new)) }
        ensures fault { IfErr result (StopsRetiring moment (λ t. (holds_of t self.old).held)) }
        ensures cause { R.is_clean store.new ≡ true → fault_in result ≡ Some Fault.StoreRefused
            → MayRefuse (R.medium store.old) (R.medium store.new) }
    {
        let mut gone = Vec::new(alloc);
        let mut silences = Vec::new(alloc);
        while let Some(first) = self.holdings.pop_retired(moment)? {
            note_silence(&mut silences, &first.0, &first.1)?;
            gone.push(first)?;
        }
        drop_rows(store, &silences)?;
        Ok(gone)
    }
}
