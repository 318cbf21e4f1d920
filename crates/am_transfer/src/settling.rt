//! Settling, for all tenants.

ghost use Rattle.std.specs.Prelude.{◌≡◌, ℕ, ◌||◌, ◌&&◌, false, true, List, OnOk, IfOk, if◌then◌else◌, ⊤};
ghost use Rattle.std.specs.List.Sorted.{IsStrictlySortedBy};
ghost use Rattle.am_share.specs.Pairs.{Drops, LeavesOthers};
ghost use Rattle.am_tenant.specs.Names.{same};
ghost use Rattle.am_timer.specs.Queue.{due_at, is_due};
ghost use Rattle.am_timer.specs.Tied.{has_timer};
ghost use Rattle.am_timer.specs.Timer.{Timer as Timed, timer_cmp};
ghost use Rattle.am_transfer.specs.Pieces.{pieces_to_send};
ghost use Rattle.am_transfer.specs.Progress.{after_got, again_to, first_asked, is_got, nothing_yet, on, sent_again};
ghost use Rattle.am_transfer.specs.Progress.{to_ask};
ghost use Rattle.am_transfer.specs.Settling.{answered, goes_to, in_new_epoch, list_for, now_settled, place_behind};
ghost use Rattle.am_transfer.specs.Settling.{pushed, taken, to_push, without_push};
ghost use Rattle.am_transfer.specs.Tenants.{Becomes, progress_of, settling_of};
ghost use Rattle.am_transfer.specs.Timers.{AreTimed, is_told};

use crate::again::Again;
use crate::peer::Peer;
use crate::piece::Piece;
use crate::refresh::{refresh, refresh_all};
use crate::spans::Span;
use crate::tenants::Tenants;
use am_item::Held;
use am_ring::Instance;
use am_share::{ShareRefusal, Shared};
use am_tenant::TenantName;
use am_text::{Failure, Moment};
use am_timer::{Timer, TimerQueue};
use std::alloc::{AllocError, Global};
use std::marker::Model;

/// How an instance settles for all tenants: what came of the States of others, what it sends them, and when it sends
/// that again. A tenant for whom nothing came and nothing was sent needs no entry.
///
/// Every error is out of memory. It leaves what is kept of the other tenants; of this tenant nothing is known then, and
/// the timers may be others than those of what is kept: whoever owns it drops it.
pub struct Settling {
    tenants: Tenants,
    timers: TimerQueue,
}

// Written out, so that a crate which owns one need not prove anew how its parts are dropped.
impl Drop for Settling {
    fn drop(self) {
        let Settling { tenants, timers } = self;
        drop(tenants);
        drop(timers);
    }
}

impl Model for Settling {
    ghost use Rattle.am_transfer.specs.Timers.{Room};

    ghost Value = { Room };

    ghost view = { λ settling. record { progress = settling.tenants; timers = settling.timers.timers } };
}

impl Settling {
    /// Nothing is kept of any tenant.
    pub fn new(alloc: Global) -> Settling
        ensures each { (t : List ℕ) → progress_of t result.progress ≡ nothing_yet }
        ensures timed { AreTimed result }
    {
        Settling {
            tenants: Tenants::new(alloc),
            timers: TimerQueue::new(alloc),
        }
    }

    /// Whether the instance is settled for a tenant: it has stayed a replica since all was opened, or became settled.
    pub fn is_settled(&self, tenant: &TenantName, has_stayed: bool) -> bool
        ensures { result ≡ (has_stayed || (settling_of tenant.now self.now.progress).has_settled) }
    {
        self.tenants.is_settled(tenant, has_stayed)
    }

    /// To which incarnation of an instance a tenant's State now goes, whose present one is this: that of the push that
    /// runs, or else the present one.
    pub fn goes_to(&self, tenant: &TenantName, to: Instance, present: u32) -> u32
        ensures { result ≡ goes_to to present (settling_of tenant.now self.now.progress) }
    {
        self.tenants.goes_to(tenant, to, present)
    }

    /// A ring is learned of which the instance is a tenant's replica: what came of the others' States, what was sent
    /// and asked is forgotten. Answers to whom it begins to push the tenant's State, where it is settled and holds an
    /// item: to those of the others that weren't among the three before, and to those to whom a push ran that no Got
    /// had ended.
    pub fn changed(
        &mut self,
        alloc: Global,
        tenant: &TenantName,
        others: &[Instance],
        before: &[Instance],
    ) -> Result<Vec<Instance>, AllocError>
        ensures receivers { IfOk result (λ receivers. receivers.items
            ≡ to_push others.now before.now (settling_of tenant.now self.old.progress)) }
        ensures each { OnOk result (Becomes tenant.now (on in_new_epoch) self.old.progress self.new.progress) }
        ensures others { LeavesOthers tenant.now self.old.progress self.new.progress }
        ensures timed { AreTimed self.old → OnOk result (AreTimed self.new) }
    {
        self.tenants.cancel(&mut self.timers, tenant);
        let receivers = self.tenants.change(alloc, tenant, others, before)?;
        Ok(receivers)
    }

    /// A State is pushed to a receiver, now and again 10 seconds later. Answers the pieces that go out: of the list
    /// that was cut when it was first sent to this incarnation of the receiver in this epoch, from the greatest place
    /// on that a Got named; or else of what is held now.
    pub fn push(
        &mut self,
        alloc: Global,
        tenant: &TenantName,
        receiver: Peer,
        moment: Moment,
        held: &Held,
    ) -> Result<Vec<Piece>, AllocError>
        ensures pieces { IfOk result (λ pieces. pieces.items
            ≡ pieces_to_send false (list_for receiver held.now (settling_of tenant.now self.old.progress))) }
        ensures each { OnOk result (Becomes tenant.now (on (pushed receiver moment held.now))
            self.old.progress self.new.progress) }
        ensures others { LeavesOthers tenant.now self.old.progress self.new.progress }
        ensures timed { AreTimed self.old → OnOk result (AreTimed self.new) }
    {
        let to = receiver.instance;
        let pieces = self.tenants.push(alloc, tenant, receiver, moment, held)?;
        refresh(alloc, &mut self.timers, &self.tenants, tenant, to)?;
        Ok(pieces)
    }

    /// No State is pushed to an instance any more, as it was restarted.
    pub fn end_push(
        &mut self,
        alloc: Global,
        tenant: &TenantName,
        to: Instance,
    ) -> Result<(), AllocError>
        ensures each { OnOk result (Becomes tenant.now (on (without_push to)) self.old.progress self.new.progress) }
        ensures others { LeavesOthers tenant.now self.old.progress self.new.progress }
        ensures timed { AreTimed self.old → OnOk result (AreTimed self.new) }
    {
        self.tenants.end_push(tenant, to);
        refresh(alloc, &mut self.timers, &self.tenants, tenant, to)?;
        Ok(())
    }

    /// A settled replica answers an Ask. Answers the pieces that go out: as for a push, and where the end was named all
    /// again. That is no push.
    pub fn asked(
        &mut self,
        alloc: Global,
        tenant: &TenantName,
        asker: Peer,
        held: &Held,
    ) -> Result<Vec<Piece>, AllocError>
        ensures pieces { IfOk result (λ pieces. pieces.items
            ≡ pieces_to_send true (list_for asker held.now (settling_of tenant.now self.old.progress))) }
        ensures each { OnOk result (Becomes tenant.now (on (answered asker held.now))
            self.old.progress self.new.progress) }
        ensures others { LeavesOthers tenant.now self.old.progress self.new.progress }
        ensures timed { AreTimed self.old → OnOk result (AreTimed self.new) }
    {
        let pieces = self.tenants.answer(alloc, tenant, asker, held)?;
        Ok(pieces)
    }

    /// A Got came, that names a place of the State, from an instance whose present incarnation is this. It counts where
    /// it comes from the incarnation to which the State now goes; one that names the end ends the push. Answers whether
    /// it counts.
    pub fn got(
        &mut self,
        alloc: Global,
        tenant: &TenantName,
        from: Peer,
        present: u32,
        place: usize,
    ) -> Result<bool, AllocError>
        ensures counts { IfOk result (λ counts. counts
            ≡ is_got from present (settling_of tenant.now self.old.progress)) }
        ensures each { OnOk result (Becomes tenant.now (on (after_got from present place))
            self.old.progress self.new.progress) }
        ensures others { LeavesOthers tenant.now self.old.progress self.new.progress }
        ensures timed { AreTimed self.old → OnOk result (AreTimed self.new) }
    {
        let receiver = from.instance;
        let counts = self.tenants.got(tenant, from, present, place);
        refresh(alloc, &mut self.timers, &self.tenants, tenant, receiver)?;
        Ok(counts)
    }

    /// A piece of a State came. Answers the place behind all that came of it without a gap, which a Got tells. Where
    /// the complete States of all these others came, the instance is settled.
    pub fn state(
        &mut self,
        alloc: Global,
        tenant: &TenantName,
        sender: Peer,
        place: u32,
        span: Span,
        others: &[Instance],
    ) -> Result<u64, AllocError>
        ensures place { IfOk result (λ behind. behind
            ≡ place_behind sender place span (settling_of tenant.now self.old.progress)) }
        ensures each { OnOk result (Becomes tenant.now (on (taken sender place span others.now))
            self.old.progress self.new.progress) }
        ensures others { LeavesOthers tenant.now self.old.progress self.new.progress }
        ensures timed { AreTimed self.old → OnOk result (AreTimed self.new) }
    {
        let asked = self.tenants.asked(alloc, tenant)?;
        let behind = self
            .tenants
            .take(alloc, tenant, sender, place, span, others)?;
        refresh_all(alloc, &mut self.timers, &self.tenants, tenant, &asked)?;
        Ok(behind)
    }

    /// A tenant's replica that isn't settled becomes so, by force.
    pub fn forced(&mut self, alloc: Global, tenant: &TenantName) -> Result<(), AllocError>
        ensures each { OnOk result (Becomes tenant.now (on now_settled) self.old.progress self.new.progress) }
        ensures others { LeavesOthers tenant.now self.old.progress self.new.progress }
        ensures timed { AreTimed self.old → OnOk result (AreTimed self.new) }
    {
        let asked = self.tenants.asked(alloc, tenant)?;
        self.tenants.settle(alloc, tenant)?;
        refresh_all(alloc, &mut self.timers, &self.tenants, tenant, &asked)?;
        Ok(())
    }

    /// Whom a tenant's replica that isn't settled asks first: those of the others whose State is lacking, where it
    /// hasn't asked in this epoch. It asks them again 10 seconds later, as long as their State is lacking.
    pub fn ask(
        &mut self,
        alloc: Global,
        tenant: &TenantName,
        moment: Moment,
        others: &[Instance],
    ) -> Result<Vec<Instance>, AllocError>
        ensures receivers { IfOk result (λ receivers. receivers.items
            ≡ to_ask others.now (settling_of tenant.now self.old.progress)) }
        ensures each { OnOk result (Becomes tenant.now
            (first_asked moment others.now) self.old.progress self.new.progress) }
        ensures others { LeavesOthers tenant.now self.old.progress self.new.progress }
        ensures timed { AreTimed self.old → OnOk result (AreTimed self.new) }
    {
        let receivers = self.tenants.ask(alloc, tenant, moment, others)?;
        refresh_all(alloc, &mut self.timers, &self.tenants, tenant, others)?;
        Ok(receivers)
    }

    /// What is sent again at or before the moment, in order: by due, tenant, then the other instance. It looks at no
    /// other timer but the first that is due later, and changes nothing.
    pub fn due(&mut self, alloc: Global, now: Moment) -> Result<Vec<Timer>, AllocError>
        ensures due { IfOk result (λ due. due.items ≡ due_at now self.old.timers) }
        ensures told { AreTimed self.old
            → IfOk result (λ due. (x : Timed) → has_timer due.items x ≡ (is_due now x && is_told x self.old.progress)) }
        ensures order { IfOk result (λ due. IsStrictlySortedBy timer_cmp due.items) }
        ensures stays { self.new ≡ self.old }
    {
        let due = self.timers.due(alloc, now)?;
        Ok(due)
    }

    /// What is sent again to an instance for a tenant, now: a State that is pushed, or else an Ask, or nothing where
    /// that is over. It is due again 10 seconds later.
    pub fn tick(
        &mut self,
        alloc: Global,
        tenant: &TenantName,
        to: Instance,
        moment: Moment,
        held: &Held,
    ) -> Result<Again, AllocError>
        ensures again { IfOk result (λ again. again ≡ again_to to held.now (progress_of tenant.now self.old.progress)) }
        ensures each { OnOk result (Becomes tenant.now
            (sent_again to moment held.now) self.old.progress self.new.progress) }
        ensures others { LeavesOthers tenant.now self.old.progress self.new.progress }
        ensures timed { AreTimed self.old → OnOk result (AreTimed self.new) }
    {
        let mut instances = self.tenants.asked(alloc, tenant)?;
        instances.push(to)?;
        let again = self.tenants.tick(alloc, tenant, to, moment, held)?;
        refresh_all(alloc, &mut self.timers, &self.tenants, tenant, &instances)?;
        Ok(again)
    }

    /// Drops all that is kept of a tenant, and its timers. It takes no memory.
    pub fn drop_all_of(&mut self, tenant: &TenantName)
        ensures each { Becomes tenant.now (λ _. nothing_yet) self.old.progress self.new.progress }
        ensures dropped { Drops tenant.now self.old.progress self.new.progress }
        ensures timed { AreTimed self.old → AreTimed self.new }
    {
        self.tenants.cancel(&mut self.timers, tenant);
        self.tenants.drop_entry(tenant);
    }
}

impl Shared for Settling {
    ghost use Rattle.am_transfer.specs.Progress.{Progress};

    ghost Thing = { Progress };

    ghost pairs = { λ room. room.progress };

    ghost stands = { λ _. ⊤ };

    ghost refuses = { ⊥ };

    fn drop_tenant(&mut self, tenant: &TenantName) -> Result<(), Failure<ShareRefusal>> {
        self.drop_all_of(tenant);
        Ok(())
    }
}
