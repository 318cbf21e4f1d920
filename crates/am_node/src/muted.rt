//! What is muted at a tick.

ghost use Rattle.std.specs.Prelude.{◌≡◌, ◌&&◌, ℕ, List, [], Some, true, not, IfErr, IfOk, OnOk, if◌then◌else◌};
ghost use Rattle.std.specs.Map.{lookup};
ghost use Rattle.am_tenant.specs.Names.{same};
ghost use Rattle.am_pattern.specs.Asking.{Asked};
ghost use Rattle.am_replica.specs.Holds.{holds_of};
ghost use Rattle.am_node.specs.Ticks.{AreMuted, StopsMuting, has_muted, is_flush, is_flush_of, muted_at, muted_for};
ghost use Rattle.am_node.specs.Ticks.{some_flush};

use am_item::{Fault, LabelSets};
use am_muting::muted_sets;
use am_notifier::no_sets;
use am_pattern::PatternCache;
use am_replica::Replica;
use am_tenant::TenantName;
use am_text::{Failure, Moment};
use am_timer::{Timer, TimerKey};
use std::alloc::{AllocError, Global};
use std::collections::BTreeMap;
use std::marker::Model;

/// The label sets of the alerts that something mutes, of each tenant that has a group to flush.
#[derive(Drop)]
pub struct Muted {
    sets: BTreeMap<TenantName, LabelSets>,
    none: LabelSets,
}

impl Model for Muted {
    ghost use Rattle.std.specs.Prelude.{◌≡◌, ℕ, List, []};
    ghost use Rattle.am_labels.specs.declared.Label.{Label};

    ghost Value = { List (List ℕ × List (List Label)) };

    ghost view = { λ m. m.sets.entries };

    ghost invariant = { λ m. m.none ≡ [] };
}

impl Muted {
    /// Of the tenants of whom one of these timers is a group's flush, what is muted at the moment. Each is asked once.
    ///
    /// # Errors
    /// `PatternNotBuilt` where a pattern gave no answer, or out of memory.
    pub(crate) fn of(
        alloc: Global,
        replica: &mut Replica,
        due: &[Timer],
        moment: Moment,
        cache: &mut PatternCache,
    ) -> Result<Muted, Fault>
        ensures right { IfOk result (λ m. (t : List ℕ) → some_flush t due.now ≡ true → muted_for t m
            ≡ muted_at moment ((holds_of t replica.old).held)) }
        ensures stays { replica.new ≡ replica.old }
        ensures asked { Asked result cache.old cache.new }
        ensures fault { IfErr result (StopsMuting cache.new.refused moment (λ t. some_flush t due.now)
            (λ t. (holds_of t replica.old).held)) }
    {
        let mut muted = Muted::new(alloc);
        for timer in due {
            muted.add(alloc, replica, timer, moment, cache)?;
        }
        Ok(muted)
    }

    // Of no tenant.
    fn new(alloc: Global) -> Muted
        ensures { result ≡ [] }
    {
        Muted {
            sets: BTreeMap::new(alloc),
            none: no_sets(alloc),
        }
    }

    // Adds what is muted of a timer's tenant, where the timer is a group's flush and the tenant isn't there yet.
    fn add(
        &mut self,
        alloc: Global,
        replica: &mut Replica,
        timer: &Timer,
        moment: Moment,
        cache: &mut PatternCache,
    ) -> Result<(), Fault>
        requires right { AreMuted moment (λ t. (holds_of t replica.old).held) self.old }
        ensures right { OnOk result (AreMuted moment (λ t. (holds_of t replica.old).held) self.new) }
        ensures kept { OnOk result ((t : List ℕ) → has_muted t self.old ≡ true → has_muted t self.new ≡ true) }
        ensures found { OnOk result (is_flush timer.now.name.key ≡ true → has_muted timer.now.name.tenant self.new
            ≡ true) }
        ensures stays { replica.new ≡ replica.old }
        ensures asked { Asked result cache.old cache.new }
        ensures fault { IfErr result (StopsMuting cache.new.refused moment (λ t. is_flush_of t timer.now)
            (λ t. (holds_of t replica.old).held)) }
    {
        if self.is_needed(timer) {
            let tenant = &timer.name.tenant;
            let sets = sets_of(alloc, replica, tenant, moment, cache)?;
            self.put(tenant, sets)?;
        }
        Ok(())
    }

    // The timer is a group's flush, and its tenant isn't there yet.
    fn is_needed(&self, timer: &Timer) -> bool
        ensures { result ≡ (is_flush timer.now.name.key && not (has_muted timer.now.name.tenant self.now)) }
    {
        is_flush(&timer.name.key) && !self.sets.contains_key(&timer.name.tenant)
    }

    // Adds what is muted of a tenant.
    fn put(&mut self, tenant: &TenantName, sets: LabelSets) -> Result<(), AllocError>
        ensures { OnOk result ((t : List ℕ) → lookup (λ s. same t s) self.new
            ≡ (if same t tenant.now then Some sets else lookup (λ s. same t s) self.old)) }
    {
        self.sets.insert(*tenant, sets)?;
        Ok(())
    }

    /// What is muted of a tenant; nothing where that isn't known.
    pub(crate) fn find(&self, tenant: &TenantName) -> &LabelSets
        ensures { result.now ≡ muted_for tenant.now self.now }
    {
        match self.sets.get(tenant) {
            Some(sets) => sets,
            None => &self.none,
        }
    }
}

// The timer is a group's flush.
fn is_flush(key: &TimerKey) -> bool
    ensures { result ≡ is_flush key.now }
{
    match key {
        TimerKey::Group(_) => true,
        _ => false,
    }
}

// What is muted of a tenant at the moment.
fn sets_of(
    alloc: Global,
    replica: &mut Replica,
    tenant: &TenantName,
    moment: Moment,
    cache: &mut PatternCache,
) -> Result<LabelSets, Fault>
    ensures muted { IfOk result (λ sets. sets ≡ muted_at moment ((holds_of tenant.now replica.old).held)) }
    ensures stays { replica.new ≡ replica.old }
    ensures asked { Asked result cache.old cache.new }
    ensures fault { IfErr result (StopsMuting cache.new.refused moment (λ t. same t tenant.now)
        (λ t. (holds_of t replica.old).held)) }
{
    let (held, config) = replica.in_use(alloc, tenant)?;
    match muted_sets(alloc, held, config, moment, cache) {
        Ok(sets) => Ok(sets),
        Err(Failure::Refused(_)) => Err(Fault::PatternNotBuilt),
        Err(Failure::OutOfMemory) => Err(Fault::OutOfMemory),
    }
}
