//! What went from what is held.

ghost use Rattle.std.specs.Prelude.{◌≡◌, ℕ, List, OnOk, if◌then◌else◌};
ghost use Rattle.am_agenda.specs.Planned.{plan_of};
ghost use Rattle.am_agenda.specs.Plan.{with_living};
ghost use Rattle.am_notifier.specs.Forgetting.{forgotten, plan_left, plan_without};
ghost use Rattle.am_notifier.specs.Notifies.{notifies_of};
ghost use Rattle.am_tenant.specs.Names.{same};

use crate::notifier::Notifier;
use am_agenda::Agenda;
use am_item::ThingKey;
use am_tenant::TenantName;
use std::alloc::{AllocError, Global};

impl Notifier {
    /// Forgets what went from what is held, each key with whose it was: the alerts among it go from their groups, and
    /// the last
    /// flushes of groups that have no members go.
    ///
    /// An error is out of memory.
    pub fn forget(
        &mut self,
        alloc: Global,
        gone: Vec<(TenantName, ThingKey)>,
    ) -> Result<(), AllocError>
        ensures { OnOk result ((t : List ℕ)
            → notifies_of t self.new ≡ forgotten t gone.items (notifies_of t self.old)) }
    {
        take_out_all(alloc, &mut self.agenda, gone)?;
        self.agenda.sweep();
        Ok(())
    }
}

// Takes out of what is planned all that has one of these keys.
fn take_out_all(
    alloc: Global,
    agenda: &mut Agenda,
    gone: Vec<(TenantName, ThingKey)>,
) -> Result<(), AllocError>
    ensures { OnOk result ((t : List ℕ)
        → with_living (plan_of t agenda.new) ≡ plan_left t gone.items (plan_of t agenda.old)) }
{
    for thing in gone {
        let (tenant, key) = thing;
        take_out(alloc, agenda, &tenant, key)?;
    }
    Ok(())
}

// Takes what has this key out of what is planned of a tenant.
fn take_out(
    alloc: Global,
    agenda: &mut Agenda,
    tenant: &TenantName,
    key: ThingKey,
) -> Result<(), AllocError>
    ensures { OnOk result ((t : List ℕ) → plan_of t agenda.new
        ≡ (if same t tenant.now then plan_without key (plan_of t agenda.old) else plan_of t agenda.old)) }
{
    match key {
        ThingKey::Alert(labels) => agenda.remove(alloc, tenant, &labels),
        ThingKey::Configuration => Ok(()),
        ThingKey::Silence(_) => Ok(()),
        ThingKey::SentEntry(_) => Ok(()),
    }
}
