//! What an instance notifies of, of all tenants.

ghost use Rattle.std.specs.List.Sorted.{IsStrictlySortedBy};
ghost use Rattle.std.specs.Prelude.{◌≡◌, ℕ, List, IfOk, option_map};
ghost use Rattle.am_notifier.specs.Notifies.{Makes, dropped, notifies_of, nothing};
ghost use Rattle.am_notifier.specs.Positions.{is_same_position, number_of};
ghost use Rattle.am_outlet.specs.Attempts.{attempt_at, awaits_outcome};
ghost use Rattle.am_timer.specs.Queue.{due_at, timers_of};
ghost use Rattle.am_timer.specs.Timer.{timer_cmp};
ghost use Rattle.am_agenda.specs.Plan.{timers_in};

use crate::position::Position;
use crate::positions::Positions;
use am_agenda::Agenda;
use am_limit::Allowances;
use am_tenant::TenantName;
use am_text::Moment;
use am_timer::Timer;
use std::alloc::{AllocError, Global};

/// What is planned of all tenants, how many notices each was given, and at which position among their replicas. It is
/// told what came and what went of what is held, and is shown what is held where it needs that. A call for one tenant
/// leaves what it has of the others as it was; after an error it is of use only to be cleared.
pub struct Notifier {
    pub(crate) agenda: Agenda,
    pub(crate) allowances: Allowances,
    pub(crate) positions: Positions,
    // How often an allowance held a notice back, at most 2^64 - 1.
    pub(crate) held_back: u64,
}

// Written out, so that a crate which owns a notifier has no need to prove anew how each of its parts is dropped.
impl Drop for Notifier {
    fn drop(self) {
        let Notifier {
            agenda,
            allowances,
            positions,
            held_back: _held_back,
        } = self;
        drop(agenda);
        drop(allowances);
        drop(positions);
    }
}

impl Notifier {
    /// Nothing planned of any tenant.
    ///
    /// An error is out of memory.
    #[tactic(auto, unfolding(crate::specs::Notifies::notifies_of))]
    pub fn new(alloc: Global) -> Result<Notifier, AllocError>
        ensures { IfOk result (λ notifier. (t : List ℕ) → notifies_of t notifier ≡ nothing) }
    {
        Ok(Notifier {
            agenda: Agenda::new(alloc)?,
            allowances: Allowances::new(alloc),
            positions: Positions::new(alloc),
            held_back: 0,
        })
    }

    /// Forgets all that is planned of all tenants, as a crash does. How often an allowance held a notice back is kept. It
    /// takes no memory.
    #[tactic(auto, unfolding(crate::specs::Notifies::notifies_of))]
    pub fn clear(&mut self, alloc: Global)
        ensures { (t : List ℕ) → notifies_of t self.new ≡ nothing }
    {
        self.agenda.clear(alloc);
        self.allowances.clear();
        self.positions.clear();
    }

    /// Forgets what is planned of a tenant, how many notices it was given and at which position its groups wait. The
    /// numbers that its attempts have used stay used, and all that it has of the other tenants stays. It takes no
    /// memory.
    pub fn drop_tenant(&mut self, tenant: &TenantName)
        ensures { Makes tenant.now dropped self.old self.new }
    {
        self.agenda.drop_tenant(tenant);
        self.allowances.drop_tenant(tenant);
        self.positions.drop_tenant(tenant);
    }

    /// How often an allowance held a notice back since there is the notifier, at most 2^64 - 1.
    pub fn held_back(&self) -> u64
        ensures { result ≡ self.now.held_back }
    {
        self.held_back
    }

    /// Whether the outcome of this try of a tenant's attempt is awaited.
    #[tactic(auto, unfolding(crate::specs::Notifies::notifies_of))]
    pub fn is_awaited(&self, tenant: &TenantName, number: u64, tries: u8) -> bool
        ensures { result ≡ awaits_outcome tries
            (attempt_at number (notifies_of tenant.now self.now).plan.desk.open_ones) }
    {
        self.agenda.is_awaited(tenant, number, tries)
    }

    /// Whether a tenant's groups wait by this position; without one none of them is flushed.
    #[tactic(auto, unfolding(crate::specs::Notifies::notifies_of))]
    pub fn is_at(&self, tenant: &TenantName, position: Option<Position>) -> bool
        ensures { result ≡ is_same_position (notifies_of tenant.now self.now).position (option_map number_of position) }
    {
        match (self.positions.of(tenant), position) {
            (Some(own), Some(position)) => own.number() == position.number(),
            (None, None) => true,
            _ => false,
        }
    }

    /// The timers that are due at a moment, in order: by when they are due, by tenant, groups before attempts.
    ///
    /// An error is out of memory.
    #[tactic(auto, unfolding(crate::specs::Notifies::notifies_of))]
    pub fn due(&mut self, alloc: Global, moment: Moment) -> Result<Vec<Timer>, AllocError>
        ensures due { IfOk result (λ due. (t : List ℕ)
            → timers_of t due.items ≡ due_at moment (timers_in t (notifies_of t self.old).plan)) }
        ensures order { IfOk result (λ due. IsStrictlySortedBy timer_cmp due.items) }
        ensures stays { self.new ≡ self.old }
    {
        self.agenda.due(alloc, moment)
    }
}
