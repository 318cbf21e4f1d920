//! Notices on their way.

ghost use Rattle.std.specs.Prelude.{◌≡◌, ◌∷◌, [], true, IfErr, IfOk, OnOk, map};
ghost use Rattle.am_timer.specs.declared.key.TimerKey.TheVariants.{Group as GroupTimer};
ghost use Rattle.am_node.specs.Delivery.{obeyed, outcome, received, records, retried, tells};
ghost use Rattle.am_node.specs.Held.{Does, StopsFor, local_of};
ghost use Rattle.am_node.specs.Local.{Records, each, said_in};
ghost use Rattle.am_node.specs.Plans.{IsPlanned};
ghost use Rattle.am_node.specs.Ticking.{handled};
ghost use Rattle.am_node.specs.Ticks.{muted_for};

use crate::muted::Muted;
use crate::parts::Parts;
use crate::report::Report;
use am_context::{Context, Receipt};
use am_item::{Fault, SharedItem};
use am_notifier::{Basis, Next};
use am_outlet::{Notice, Outcome, Sending};
use am_tenant::TenantName;
use am_timer::FlushKey;
use std::alloc::{AllocError, Global};

impl Parts {
    /// Flushes a group of a tenant, where its flush is due, and gives what there is to say of it, in order.
    ///
    /// # Errors
    /// `CountsExhausted` where a count would pass 2^62, or out of memory.
    pub(crate) fn flush_due(
        &mut self,
        alloc: Global,
        tenant: &TenantName,
        context: &Context,
        key: &FlushKey,
        muted: &Muted,
    ) -> Result<Vec<Report>, Fault>
        requires planned { IsPlanned (local_of tenant.now self.old) }
        ensures does { OnOk result (Does tenant.now
            (handled context.now (muted_for tenant.now muted.now) (GroupTimer key.now)) self.old self.new) }
        ensures said { IfOk result (λ v. map said_in v.items
            ≡ (handled context.now (muted_for tenant.now muted.now) (GroupTimer key.now)
            (local_of tenant.now self.old)).said) }
        ensures fits { IfOk result (λ _.
            (handled context.now (muted_for tenant.now muted.now) (GroupTimer key.now)
            (local_of tenant.now self.old)).fits ≡ true) }
        ensures fault { IfErr result (StopsFor
            (handled context.now (muted_for tenant.now muted.now) (GroupTimer key.now) (local_of tenant.now self.old))) }
    {
        let (held, config) = self.replica.in_use(alloc, tenant)?;
        let basis = Basis {
            held,
            config,
            muted: muted.find(tenant),
        };
        let notifier = &mut self.notifier;
        let next = notifier.flush_due(alloc, tenant, context, key, &basis)?;
        self.obey_all(alloc, tenant, context, next)
    }

    // Does what comes next of a flush, one after the other, and gives what there is to say of it.
    fn obey_all(
        &mut self,
        alloc: Global,
        tenant: &TenantName,
        context: &Context,
        next: Vec<Next>,
    ) -> Result<Vec<Report>, Fault>
        ensures does { OnOk result (Does tenant.now (each (obeyed context.now) next.items) self.old self.new) }
        ensures said { IfOk result (λ v. map said_in v.items
            ≡ (each (obeyed context.now) next.items (local_of tenant.now self.old)).said) }
        ensures fits { OnOk result ((each (obeyed context.now) next.items (local_of tenant.now self.old)).fits ≡ true) }
        ensures fault { IfErr result (StopsFor (each (obeyed context.now) next.items (local_of tenant.now self.old))) }
    {
        let mut reports = Vec::new(alloc);
        for one in next {
            let report = self.obey(alloc, tenant, context, one)?;
            reports.push(report)?;
        }
        Ok(reports)
    }

    // Does what comes next of a flush, and gives what there is to say of it.
    fn obey(
        &mut self,
        alloc: Global,
        tenant: &TenantName,
        context: &Context,
        next: Next,
    ) -> Result<Report, Fault>
        ensures does { OnOk result (Does tenant.now (obeyed context.now next) self.old self.new) }
        ensures said { IfOk result (λ report. said_in report ∷ []
            ≡ (obeyed context.now next (local_of tenant.now self.old)).said) }
        ensures fits { OnOk result ((obeyed context.now next (local_of tenant.now self.old)).fits ≡ true) }
        ensures fault { IfErr result (StopsFor (obeyed context.now next (local_of tenant.now self.old))) }
    {
        match next {
            Next::Try(sending) => Ok(Report::Try(sending)),
            Next::Record(receipt) => {
                let entry = self.record(alloc, tenant, context, receipt)?;
                Ok(Report::Record(entry))
            }
        }
    }

    // Records that a webhook was told, and gives the item that does.
    fn record(
        &mut self,
        alloc: Global,
        tenant: &TenantName,
        context: &Context,
        receipt: Receipt,
    ) -> Result<SharedItem, Fault>
        ensures does { OnOk result (Does tenant.now (received context.now receipt) self.old self.new) }
        ensures said { IfOk result (λ entry. Records entry ∷ []
            ≡ (received context.now receipt (local_of tenant.now self.old)).said) }
        ensures fits { IfOk result (λ _. (received context.now receipt (local_of tenant.now self.old)).fits ≡ true) }
        ensures fault { IfErr result (StopsFor (received context.now receipt (local_of tenant.now self.old))) }
    {
        self.replica.record(alloc, tenant, context, receipt)
    }

    /// Takes the outcome of a try of a tenant's attempt: the status of the webhook's answer, or `None` where there was
    /// none. Gives the item that records a notice which was delivered. Nothing changes where no outcome of that try is
    /// awaited.
    ///
    /// # Errors
    /// `CountsExhausted` where the stamp of what is recorded would pass 2^62, or out of memory.
    pub(crate) fn outcome(
        &mut self,
        alloc: Global,
        tenant: &TenantName,
        context: &Context,
        number: u64,
        tries: u8,
        status: Option<u16>,
    ) -> Result<Option<SharedItem>, Fault>
        ensures does { OnOk result (Does tenant.now (outcome context.now number tries status) self.old self.new) }
        ensures said { IfOk result (λ entry. records entry
            ≡ (outcome context.now number tries status (local_of tenant.now self.old)).said) }
        ensures fits { IfOk result (λ _. (outcome context.now number tries status (local_of tenant.now self.old)).fits
            ≡ true) }
        ensures fault { IfErr result (StopsFor
            (outcome context.now number tries status (local_of tenant.now self.old))) }
    {
        let outcome = self
            .notifier
            .outcome(alloc, tenant, context.moment, number, tries, status)?;
        match outcome {
            Outcome::NotOpen => Ok(None),
            Outcome::Again(_) => Ok(None),
            Outcome::GivenUp => Ok(None),
            Outcome::Delivered(notice) => {
                match self.record(alloc, tenant, context, receipt_of(notice)) {
                    Ok(entry) => Ok(Some(entry)),
                    Err(fault) => Err(fault),
                }
            }
        }
    }

    /// The next try of a tenant's attempt, where it is due: then it goes out, with the same bytes. An error is out of
    /// memory.
    pub(crate) fn retry(
        &mut self,
        alloc: Global,
        tenant: &TenantName,
        context: &Context,
        number: u64,
    ) -> Result<Option<Sending>, AllocError>
        ensures does { OnOk result (Does tenant.now (retried context.now number) self.old self.new) }
        ensures said { IfOk result (λ sending. tells sending
            ≡ (retried context.now number (local_of tenant.now self.old)).said) }
    {
        self.notifier.retry(alloc, tenant, context.moment, number)
    }
}

// That the webhook of a notice was told.
fn receipt_of(notice: Notice) -> Receipt
    ensures { result ≡ record {
      key = notice.key;
      firing = notice.firing;
      resolved = notice.resolved;
      span = notice.span;
    } }
{
    let Notice {
        key,
        firing,
        resolved,
        span,
        ..
    } = notice;
    Receipt {
        key,
        firing,
        resolved,
        span,
    }
}
