//! Notices on their way.

ghost use Rattle.std.specs.Prelude.{◌≡◌, ◌++◌, true, IfErr, IfOk, OnOk};
ghost use Rattle.am_context.specs.Stopping.{StopsPast};
ghost use Rattle.am_notifier.specs.Delivery.{IsUntried, MayTell, notified, told, tried, with_outcome, with_retry};
ghost use Rattle.am_notifier.specs.Notifies.{Makes, notifies_of};
ghost use Rattle.am_notifier.specs.Steps.{Does};
ghost use Rattle.am_outlet.specs.Attempts.{next_of, outcome_of};

use crate::next::Next;
use crate::notifier::Notifier;
use crate::sets::no_sets;
use am_context::{Context, Receipt};
use am_item::Fault;
use am_outlet::{Notice, Outcome, Sending};
use am_telling::Telling;
use am_tenant::TenantName;
use am_text::Moment;
use std::alloc::{AllocError, Global};

impl Notifier {
    /// Tells a webhook of a tenant what a flush says, and adds what comes next: the first try of a notice, unless its
    /// minute has no notice left; or what is to be recorded, where there is nothing to tell. No attempt of the notice's
    /// key may be open.
    ///
    /// # Errors
    /// `CountsExhausted` where a count would pass 2^62, or out of memory.
    pub(crate) fn tell(
        &mut self,
        alloc: Global,
        tenant: &TenantName,
        context: &Context,
        telling: Telling,
        next: &mut Vec<Next>,
    ) -> Result<(), Fault>
        requires { MayTell telling (notifies_of tenant.now self.old) }
        ensures does { OnOk result (Does tenant.now (told context.now telling) self.old self.new) }
        ensures next { OnOk result (next.new.items
            ≡ next.old.items ++ (told context.now telling (notifies_of tenant.now self.old)).next) }
        ensures fits { OnOk result ((told context.now telling (notifies_of tenant.now self.old)).fits ≡ true) }
        ensures fault { IfErr result (StopsPast (told context.now telling (notifies_of tenant.now self.old)).fits) }
    {
        match telling {
            Telling::Notify(notice) => {
                let sending = self.notify(alloc, tenant, context, notice)?;
                add(next, sending)?;
            }
            Telling::Keep { key, span } => next.push(Next::Record(Receipt {
                key,
                firing: no_sets(alloc),
                resolved: no_sets(alloc),
                span,
            }))?,
        }
        Ok(())
    }

    // Sends a notice, where its minute has one left.
    fn notify(
        &mut self,
        alloc: Global,
        tenant: &TenantName,
        context: &Context,
        notice: Notice,
    ) -> Result<Option<Sending>, Fault>
        requires { IsUntried notice.key (notifies_of tenant.now self.old) }
        ensures does { OnOk result (Does tenant.now (notified context.now notice) self.old self.new) }
        ensures next { IfOk result (λ sending. tried sending
            ≡ (notified context.now notice (notifies_of tenant.now self.old)).next) }
        ensures fits { OnOk result ((notified context.now notice (notifies_of tenant.now self.old)).fits ≡ true) }
        ensures fault { IfErr result (StopsPast (notified context.now notice (notifies_of tenant.now self.old)).fits) }
    {
        let limit = context.limits.notices;
        if !self.allowances.take(alloc, tenant, limit, context.moment)? {
            self.held_back = self.held_back.saturating_add(1);
            return Ok(None);
        }
        match self.agenda.start(alloc, tenant, notice) {
            Ok(sending) => Ok(Some(sending)),
            Err(fault) => Err(fault),
        }
    }

    /// Takes the outcome of a try of a tenant's attempt: the status of the webhook's answer, or `None` where there was
    /// none.
    ///
    /// An error is out of memory.
    pub fn outcome(
        &mut self,
        alloc: Global,
        tenant: &TenantName,
        moment: Moment,
        number: u64,
        tries: u8,
        status: Option<u16>,
    ) -> Result<Outcome, AllocError>
        ensures does { OnOk result (Makes tenant.now (with_outcome number tries moment status) self.old self.new) }
        ensures outcome { IfOk result (λ outcome. outcome
            ≡ outcome_of number tries moment status (notifies_of tenant.now self.old).plan.desk.open_ones) }
    {
        self.agenda
            .outcome(alloc, tenant, number, tries, moment, status)
    }

    /// The next try of a tenant's attempt, where it is due: then it goes out, with the same bytes. An error is out of
    /// memory.
    pub fn retry(
        &mut self,
        alloc: Global,
        tenant: &TenantName,
        moment: Moment,
        number: u64,
    ) -> Result<Option<Sending>, AllocError>
        ensures does { OnOk result (Makes tenant.now (with_retry number moment) self.old self.new) }
        ensures sending { IfOk result (λ sending. sending
            ≡ next_of number moment (notifies_of tenant.now self.old).plan.desk) }
    {
        self.agenda.retry(alloc, tenant, number, moment)
    }
}

// Adds a try that goes out, where one does.
fn add(next: &mut Vec<Next>, sending: Option<Sending>) -> Result<(), AllocError>
    ensures { OnOk result (next.new.items ≡ next.old.items ++ tried sending) }
{
    if let Some(sending) = sending {
        next.push(Next::Try(sending))?;
    }
    Ok(())
}
