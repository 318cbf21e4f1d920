//! Outcomes of tries.

ghost use Rattle.std.specs.Prelude.{◌≡◌, ◌==◌, ◌&&◌, ℕ, List, IfErr, OnErr, OnOk};
ghost use Rattle.am_cluster.specs.Delivery.{is_awaited, outcome};
ghost use Rattle.am_rows.specs.Rows.{stored_in};
ghost use Rattle.am_site.specs.Reacting.{StopsReacting};
ghost use Rattle.am_instance.specs.Here.{circumstances, here_on};
ghost use Rattle.am_instance.specs.Instance.{ReadsOn, local_in, refused_in};
ghost use Rattle.am_instance.specs.Reacting.{Reacts};
ghost use Rattle.am_instance.specs.Whole.{IsWhole};

use crate::given::Occasion;
use crate::instance::Instance;
use crate::outputs::put_out;
use am_event::{AttemptName, Output};
use am_item::Fault;
use std::alloc::Global;

/// How a try came to an end.
#[derive(Clone, Copy)]
pub struct Ended {
    /// Which try of the attempt it is, 1 to 5.
    pub tries: u8,
    /// The status of the webhook's answer, or `None` where there was none.
    pub status: Option<u16>,
}

impl Instance {
    /// Whether the instance awaits the outcome of this try of an attempt.
    #[tactic(auto, unfolding(crate::specs::Instance::local_in))]
    pub fn is_awaiting(&self, attempt: &AttemptName, tries: u8) -> bool
        ensures { result ≡ ((self.now.incarnation == attempt.now.incarnation)
            && is_awaited attempt.now.number tries (local_in attempt.now.tenant self.now)) }
    {
        self.incarnation == attempt.incarnation
            && self.site.is_awaited(&attempt.tenant, attempt.number, tries)
    }

    /// Takes the end of a try of an attempt on an occasion: a notice that was delivered is recorded, which is put to
    /// the other two replicas. An error puts nothing out.
    ///
    /// # Errors
    /// `CountsExhausted` where a count of the tenant here would pass 2^62 or a message is too long, or out of memory.
    pub fn take_outcome(
        &mut self,
        alloc: Global,
        attempt: &AttemptName,
        ended: Ended,
        occasion: &Occasion<'_>,
        outputs: &mut Vec<Output>,
    ) -> Result<(), Fault>
        requires { IsWhole (circumstances occasion.now) self.old }
        ensures reacts { OnOk result (Reacts (circumstances occasion.now) attempt.now.tenant
            (λ here. outcome here attempt.now.number ended.tries ended.status)
            self.old self.new outputs.old.items outputs.new.items) }
        ensures silent { OnErr result (outputs.new.items ≡ outputs.old.items) }
        ensures cause { IfErr result (StopsReacting attempt.now.tenant
            (outcome (here_on (circumstances occasion.now) self.old attempt.now.tenant)
            attempt.now.number ended.tries ended.status)
            self.old.site) }
        ensures stays { ReadsOn self.old self.new }
        ensures refused { refused_in self.new ≡ refused_in self.old }
        ensures whole { OnOk result (IsWhole (circumstances occasion.now) self.new) }
        ensures stored { OnOk result ((t : List ℕ) →
            stored_in (local_in t self.new).held ≡ stored_in (local_in t self.old).held) }
    {
        let tenant = attempt.tenant;
        let three = self.three(occasion, &tenant);
        let here = self.here(occasion, &tenant, &three);
        let mut said = Vec::new(alloc);
        let (number, tries, status) = (attempt.number, ended.tries, ended.status);
        self.site
            .outcome(alloc, &here, number, tries, status, &mut said)?;
        put_out(alloc, self.speaker(tenant), said, outputs)?;
        Ok(())
    }
}
