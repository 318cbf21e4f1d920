//! Messages that come.

ghost use Rattle.std.specs.Prelude.{◌≡◌, ℕ, List, true, IfErr, OnErr, OnOk};
ghost use Rattle.am_replica.specs.Storing.{fault_in};
ghost use Rattle.am_site.specs.Arriving.{IsRejected, with_brought};
ghost use Rattle.am_instance.specs.Here.{circumstances};
ghost use Rattle.am_instance.specs.Instance.{ReadsOn, node_local_in, refused_in};
ghost use Rattle.am_instance.specs.Leaving.{LeavesShelf};
ghost use Rattle.am_instance.specs.Receiving.{Receives, StopsReceiving, brought_on};
ghost use Rattle.am_instance.specs.Shelves.{IsBacked, shelf_of};
ghost use Rattle.am_instance.specs.Whole.{IsWhole};

use crate::given::Occasion;
use crate::instance::Instance;
use crate::outputs::put_out;
use am_event::Output;
use am_item::Fault;
use am_rows::Rows;
use am_wire::Message;
use std::alloc::Global;

impl Instance {
    /// Takes a message that comes on an occasion, and puts out what it brings. An error puts nothing out.
    ///
    /// # Errors
    /// `CountsExhausted` where a count of the tenant here would pass 2^62, or a message is too long; `PatternNotBuilt`
    /// where a pattern that is in use gave no answer; `StoreRefused`; or out of memory. The rows are as before; or as
    /// committed, of a Put or a State that is taken.
    pub fn receive<R: Rows>(
        &mut self,
        alloc: Global,
        message: Message,
        occasion: &Occasion<'_>,
        outputs: &mut Vec<Output>,
        store: &mut R,
    ) -> Result<(), Fault>
        requires up { self.old.up ≡ true }
        requires whole { IsWhole (circumstances occasion.now) self.old }
        requires backed { IsBacked self.old (shelf_of R.Rows store.old) }
        ensures receives { OnOk result
            (Receives (circumstances occasion.now) message self.old self.new outputs.old.items outputs.new.items) }
        ensures silent { OnErr result (outputs.new.items ≡ outputs.old.items) }
        ensures cause { IfErr result
            (StopsReceiving (refused_in self.old) (refused_in self.new) (circumstances occasion.now) message self.old) }
        ensures stays { ReadsOn self.old self.new }
        ensures whole { OnOk result (IsWhole (circumstances occasion.now) self.new) }
        ensures clean { R.is_clean store.new ≡ true → R.is_clean store.old ≡ true }
        ensures backed { OnOk result (IsBacked self.new (shelf_of R.Rows store.new)) }
        ensures left { LeavesShelf (λ t. node_local_in t self.old)
            (with_brought (brought_on (circumstances occasion.now) self.old message)
            message.tenant occasion.now.moment (λ t. node_local_in t self.old))
            (IsRejected R.rejects message.tenant (brought_on (circumstances occasion.now) self.old message))
            (fault_in result) (shelf_of R.Rows store.old) (shelf_of R.Rows store.new) }
    {
        let tenant = message.tenant;
        let three = self.three(occasion, &tenant);
        let here = self.here(occasion, &tenant, &three);
        self.tenants.note(tenant)?;
        let mut said = Vec::new(alloc);
        let cache = &mut self.cache;
        self.site
            .arrive(alloc, &here, message, cache, store, &mut said)?;
        put_out(alloc, self.speaker(tenant), said, outputs)?;
        Ok(())
    }
}
