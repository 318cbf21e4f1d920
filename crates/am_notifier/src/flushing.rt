//! The flush of a group.

ghost use Rattle.std.specs.Prelude.{◌≡◌, ◌<◌, ℕ, List, [], false, true, length, IfErr, IfOk, OnOk, if◌then◌else◌};
ghost use Rattle.am_agenda.specs.Plan.{flush_due, with_desk};
ghost use Rattle.am_agenda.specs.Planned.{plan_of};
ghost use Rattle.am_context.specs.Stopping.{StopsPast};
ghost use Rattle.am_members.specs.Grouped.{members};
ghost use Rattle.am_members.specs.Members.{is_bare};
ghost use Rattle.am_notifier.specs.Delivery.{told};
ghost use Rattle.am_notifier.specs.Flushing.{MayTellAll, Says, alerts_but, begun, flushed, flushed_due, sent_among};
ghost use Rattle.am_notifier.specs.Flushing.{without_keys};
ghost use Rattle.am_notifier.specs.Following.{paces_at};
ghost use Rattle.am_notifier.specs.Notifies.{Makes, notifies_of};
ghost use Rattle.am_notifier.specs.Steps.{Does, each};
ghost use Rattle.am_outlet.specs.Attempts.{is_due};
ghost use Rattle.am_telling.specs.Tellings.{tellings};
ghost use Rattle.am_tenant.specs.Names.{same};

use crate::next::Next;
use crate::notifier::Notifier;
use crate::unmuting::unmuted;
use am_agenda::Agenda;
use am_config::Config;
use am_context::Context;
use am_item::{EntryKey, Fault, Held, LabelSets};
use am_members::Group;
use am_telling::{Telling, tell, webhook_keys};
use am_tenant::TenantName;
use am_text::{Moment, Text};
use am_timer::FlushKey;
use std::alloc::{AllocError, Global};

/// What a flush of a tenant's group goes by.
#[derive(Clone, Copy)]
pub struct Basis<'a> {
    /// What is held of the tenant.
    pub held: &'a Held,
    /// The configuration in use.
    pub config: &'a Config,
    /// The label sets of the alerts that something mutes.
    pub muted: &'a LabelSets,
}

impl Notifier {
    /// Flushes a group of a tenant, where its flush is due: the flush is noted, and the webhooks of the group's
    /// receiver are
    /// told what they weren't told before. Gives what comes next, in the order of the webhooks.
    ///
    /// # Errors
    /// `CountsExhausted` where a count would pass 2^62, or out of memory.
    pub fn flush_due(
        &mut self,
        alloc: Global,
        tenant: &TenantName,
        context: &Context,
        key: &FlushKey,
        basis: &Basis,
    ) -> Result<Vec<Next>, Fault>
        requires planned { (notifies_of tenant.now self.old).plan.paces
            ≡ paces_at basis.now.config.now (notifies_of tenant.now self.old).position }
        ensures does { OnOk result (Does tenant.now
            (flushed_due context.now basis.now.config.now basis.now.held.now basis.now.muted.now key.now) self.old self.new) }
        ensures says { IfOk result (λ next. Says next.items
            (flushed_due context.now basis.now.config.now basis.now.held.now basis.now.muted.now key.now (notifies_of tenant.now self.old))) }
        ensures fault { IfErr result (StopsPast
            (flushed_due context.now basis.now.config.now basis.now.held.now basis.now.muted.now key.now (notifies_of tenant.now self.old)).fits) }
    {
        let group = Group {
            route: key.route,
            labels: key.labels.copy()?,
        };
        if !self.is_due(tenant, context.moment, &key.receiver, &group) {
            return Ok(Vec::new(alloc));
        }
        self.flush(alloc, tenant, context, &group, basis)
    }

    // The flush of a tenant's group to this receiver is due.
    #[tactic(auto, unfolding(crate::specs::Notifies::notifies_of))]
    fn is_due(&self, tenant: &TenantName, moment: Moment, receiver: &Text, group: &Group) -> bool
        ensures { result ≡ is_due moment
            (flush_due (notifies_of tenant.now self.now).plan.paces (notifies_of tenant.now self.now).plan.grouped
            (record { receiver = receiver.now; labels = group.now.labels; route = group.now.route })) }
    {
        match self.agenda.flush_due(tenant, receiver, group) {
            Some(due) => due <= moment,
            None => false,
        }
    }

    // Flushes a group of a tenant, which has members.
    fn flush(
        &mut self,
        alloc: Global,
        tenant: &TenantName,
        context: &Context,
        group: &Group,
        basis: &Basis,
    ) -> Result<Vec<Next>, Fault>
        requires members { is_bare (members group.now (notifies_of tenant.now self.old).plan.grouped.alerts) ≡ false }
        requires route { group.now.route < length basis.now.config.now.routes }
        ensures does { OnOk result (Does tenant.now
            (flushed context.now basis.now.config.now basis.now.held.now basis.now.muted.now group.now) self.old self.new) }
        ensures says { IfOk result (λ next. Says next.items
            (flushed context.now basis.now.config.now basis.now.held.now basis.now.muted.now group.now (notifies_of tenant.now self.old))) }
        ensures fault { IfErr result (StopsPast
            (flushed context.now basis.now.config.now basis.now.held.now basis.now.muted.now group.now (notifies_of tenant.now self.old)).fits) }
    {
        let tellings = self.tellings(alloc, tenant, context.moment, group, basis)?;
        self.begin(alloc, tenant, context.moment, group, basis.config)?;
        self.tell_all(alloc, tenant, context, tellings)
    }

    // What there is to tell the webhooks of a group's receiver.
    fn tellings(
        &self,
        alloc: Global,
        tenant: &TenantName,
        moment: Moment,
        group: &Group,
        basis: &Basis,
    ) -> Result<Vec<Telling>, AllocError>
        requires members { is_bare (members group.now (notifies_of tenant.now self.now).plan.grouped.alerts) ≡ false }
        requires route { group.now.route < length basis.now.config.now.routes }
        ensures { IfOk result (λ v. v.items ≡ tellings basis.now.config.now group.now (sent_among basis.now.held.now)
            (alerts_but basis.now.muted.now basis.now.held.now (members group.now (notifies_of tenant.now self.now).plan.grouped.alerts)) moment) }
    {
        let Some(members) = self.agenda.members(tenant, group) else {
            unreachable!()
        };
        let alerts = unmuted(alloc, members, basis.held, basis.muted)?;
        let sent = basis.held.sent_entries();
        let tellings = tell(alloc, basis.config, group, sent, &alerts, moment)?;
        Ok(tellings)
    }

    // Notes the flush of a group, and closes the attempts to tell of it.
    fn begin(
        &mut self,
        alloc: Global,
        tenant: &TenantName,
        moment: Moment,
        group: &Group,
        config: &Config,
    ) -> Result<(), AllocError>
        requires members { is_bare (members group.now (notifies_of tenant.now self.old).plan.grouped.alerts) ≡ false }
        requires route { group.now.route < length config.now.routes }
        ensures { OnOk result (Makes tenant.now (begun moment config.now group.now) self.old self.new) }
    {
        let keys = webhook_keys(alloc, config, group)?;
        self.agenda.flush_at(alloc, tenant, group, moment)?;
        drop_attempts(&mut self.agenda, tenant, keys);
        Ok(())
    }

    // Tells webhooks what there is to tell, one after the other.
    fn tell_all(
        &mut self,
        alloc: Global,
        tenant: &TenantName,
        context: &Context,
        tellings: Vec<Telling>,
    ) -> Result<Vec<Next>, Fault>
        requires { MayTellAll context.now tellings.items (notifies_of tenant.now self.old) }
        ensures does { OnOk result (Does tenant.now (each (told context.now) tellings.items) self.old self.new) }
        ensures says { IfOk result (λ next. Says next.items
            (each (told context.now) tellings.items (notifies_of tenant.now self.old))) }
        ensures fault { IfErr result (StopsPast
            (each (told context.now) tellings.items (notifies_of tenant.now self.old)).fits) }
    {
        let mut next = Vec::new(alloc);
        for telling in tellings {
            self.tell(alloc, tenant, context, telling, &mut next)?;
        }
        Ok(next)
    }
}

// Closes the attempts of these keys.
fn drop_attempts(agenda: &mut Agenda, tenant: &TenantName, keys: Vec<EntryKey>)
    ensures { (t : List ℕ) → plan_of t agenda.new
        ≡ (if same t tenant.now then with_desk (without_keys keys.items (plan_of t agenda.old).desk)
        (plan_of t agenda.old)
        else plan_of t agenda.old) }
{
    for key in keys {
        agenda.drop_attempt(tenant, &key);
    }
}
