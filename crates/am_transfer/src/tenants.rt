//! How far an instance has come with every tenant.

ghost use Rattle.std.specs.Prelude.{◌≡◌, ℕ, ◌||◌, false, true, [], List, OnOk, IfOk, if◌then◌else◌};
ghost use Rattle.am_share.specs.Pairs.{Drops, LeavesOthers};
ghost use Rattle.am_tenant.specs.Names.{same};
ghost use Rattle.am_transfer.specs.Pieces.{pieces_to_send};
ghost use Rattle.am_transfer.specs.Progress.{after_got, again_to, due_of, first_asked, is_got, nothing_yet, on};
ghost use Rattle.am_transfer.specs.Progress.{sent_again, to_ask};
ghost use Rattle.am_transfer.specs.Settling.{answered, goes_to, in_new_epoch, list_for, now_settled, place_behind};
ghost use Rattle.am_transfer.specs.Settling.{pushed, taken, to_push, without_push};
ghost use Rattle.am_transfer.specs.Tenants.{Becomes, progress_of, settling_of};
ghost use Rattle.am_transfer.specs.Timers.{AreCancelled, told_to};

use crate::again::Again;
use crate::peer::Peer;
use crate::piece::Piece;
use crate::progress::Progress;
use crate::spans::Span;
use am_item::Held;
use am_ring::Instance;
use am_tenant::TenantName;
use am_text::Moment;
use am_timer::TimerQueue;
use std::alloc::{AllocError, Global};
use std::collections::BTreeMap;
use std::marker::Model;

/// How far an instance has come with every tenant. A tenant of whom nothing came and to whose replicas nothing was sent
/// needs no entry.
pub struct Tenants {
    by_name: BTreeMap<TenantName, Progress>,
}

// Written out, so that a crate which owns one need not prove anew how its parts are dropped.
impl Drop for Tenants {
    fn drop(self) {
        let Tenants { by_name } = self;
        drop(by_name);
    }
}

impl Model for Tenants {
    ghost use Rattle.std.specs.Prelude.{ℕ, List};
    ghost use Rattle.std.specs.BTreeMap.{IsOrdered};
    ghost use Rattle.std.specs.Cmp.Lexicographic.{slice_cmp};
    ghost use Rattle.std.specs.Ordering.{nat_cmp};
    ghost use Rattle.am_transfer.specs.Progress.{Progress};

    ghost Value = { List (List ℕ × Progress) };

    ghost view = { λ tenants. tenants.by_name.entries };

    ghost invariant = { λ tenants. IsOrdered (slice_cmp nat_cmp) tenants.by_name };
}

impl Tenants {
    /// Nothing is kept of any tenant.
    #[tactic(auto, unfolding(crate::specs::Tenants::progress_of))]
    pub fn new(alloc: Global) -> Tenants
        ensures each { (t : List ℕ) → progress_of t result ≡ nothing_yet }
        ensures none { result ≡ [] }
    {
        Tenants {
            by_name: BTreeMap::new(alloc),
        }
    }

    /// Whether an instance is settled for a tenant: it has stayed a replica, or became settled.
    pub fn is_settled(&self, tenant: &TenantName, has_stayed: bool) -> bool
        ensures { result ≡ (has_stayed || (settling_of tenant.now self.now).has_settled) }
    {
        has_stayed
            || match self.by_name.get(tenant) {
                Some(progress) => progress.has_settled(),
                None => false,
            }
    }

    /// To which incarnation of an instance a tenant's State now goes, whose present one is this.
    pub fn goes_to(&self, tenant: &TenantName, to: Instance, present: u32) -> u32
        ensures { result ≡ goes_to to present (settling_of tenant.now self.now) }
    {
        match self.by_name.get(tenant) {
            Some(progress) => progress.goes_to(to, present),
            None => present,
        }
    }

    /// Drops all that is kept of a tenant. It takes no memory.
    pub fn drop_entry(&mut self, tenant: &TenantName)
        ensures each { Becomes tenant.now (λ _. nothing_yet) self.old self.new }
        ensures dropped { Drops tenant.now self.old self.new }
    {
        self.by_name.remove(tenant);
    }

    /// When a tenant's State, or an Ask for one, is sent again to an instance, if it is.
    pub fn due_of(&self, tenant: &TenantName, instance: Instance) -> Option<Moment>
        ensures { result ≡ due_of instance (progress_of tenant.now self.now) }
    {
        self.by_name.get(tenant)?.due_of(instance)
    }

    /// Cancels the timers of all that may be sent again for a tenant. It takes no memory.
    pub fn cancel(&self, timers: &mut TimerQueue, tenant: &TenantName)
        ensures { AreCancelled tenant.now (told_to
            (progress_of tenant.now self.now)) timers.old.timers timers.new.timers }
    {
        let Some(progress) = self.by_name.get(tenant) else {
            return;
        };
        progress.cancel(timers, tenant);
    }

    /// Whom the instance asked for a tenant's State when it last asked.
    pub fn asked(&self, alloc: Global, tenant: &TenantName) -> Result<Vec<Instance>, AllocError>
        ensures { IfOk result (λ asked. asked.items ≡ (progress_of tenant.now self.now).asked) }
    {
        match self.by_name.get(tenant) {
            Some(progress) => progress.asked(alloc),
            None => Ok(Vec::new(alloc)),
        }
    }

    /// Whom a tenant's replica, which isn't settled, asks first: those of the others whose State is lacking, where it
    /// hasn't asked in this epoch. Of them it keeps that they were asked at the moment.
    ///
    /// An error is out of memory. What is kept of other tenants stays.
    pub fn ask(
        &mut self,
        alloc: Global,
        tenant: &TenantName,
        moment: Moment,
        others: &[Instance],
    ) -> Result<Vec<Instance>, AllocError>
        ensures receivers { IfOk result (λ receivers. receivers.items
            ≡ to_ask others.now (settling_of tenant.now self.old)) }
        ensures each { OnOk result (Becomes tenant.now (first_asked moment others.now) self.old self.new) }
        ensures others { LeavesOthers tenant.now self.old self.new }
    {
        let progress = self.by_name.entry(*tenant)?.or_insert(Progress::new(alloc));
        progress.ask_first(alloc, moment, others)
    }

    /// What is sent again to an instance for a tenant, now: a State that is pushed, or else an Ask, or nothing.
    ///
    /// An error is out of memory. What is kept of other tenants stays.
    pub fn tick(
        &mut self,
        alloc: Global,
        tenant: &TenantName,
        to: Instance,
        moment: Moment,
        held: &Held,
    ) -> Result<Again, AllocError>
        ensures again { IfOk result (λ again. again ≡ again_to to held.now (progress_of tenant.now self.old)) }
        ensures each { OnOk result (Becomes tenant.now (sent_again to moment held.now) self.old self.new) }
        ensures others { LeavesOthers tenant.now self.old self.new }
    {
        let progress = self.by_name.entry(*tenant)?.or_insert(Progress::new(alloc));
        progress.tick(alloc, to, moment, held)
    }

    /// It has become settled for a tenant.
    ///
    /// An error is out of memory. What is kept of other tenants stays.
    pub fn settle(&mut self, alloc: Global, tenant: &TenantName) -> Result<(), AllocError>
        ensures each { OnOk result (Becomes tenant.now (on now_settled) self.old self.new) }
        ensures others { LeavesOthers tenant.now self.old self.new }
    {
        let progress = self.by_name.entry(*tenant)?.or_insert(Progress::new(alloc));
        progress.settle();
        Ok(())
    }

    /// The instance goes on in a new epoch. Answers to whom it begins to push the tenant's State, if it is settled and
    /// holds an item: to those of the others that weren't among the three before, and those to whom a push ran that no
    /// Got had ended.
    ///
    /// An error is out of memory. Nothing changes.
    pub fn change(
        &mut self,
        alloc: Global,
        tenant: &TenantName,
        others: &[Instance],
        before: &[Instance],
    ) -> Result<Vec<Instance>, AllocError>
        ensures receivers { IfOk result (λ receivers. receivers.items
            ≡ to_push others.now before.now (settling_of tenant.now self.old)) }
        ensures each { OnOk result (Becomes tenant.now (on in_new_epoch) self.old self.new) }
        ensures others { LeavesOthers tenant.now self.old self.new }
    {
        let Some(progress) = self.by_name.get_mut(tenant) else {
            let receivers = Progress::new(alloc).to_push(alloc, others, before)?;
            return Ok(receivers);
        };
        let receivers = progress.to_push(alloc, others, before)?;
        progress.turn();
        Ok(receivers)
    }

    /// No State of a tenant is pushed to the instance any more. It takes no memory.
    pub fn end_push(&mut self, tenant: &TenantName, to: Instance)
        ensures each { Becomes tenant.now (on (without_push to)) self.old self.new }
        ensures others { LeavesOthers tenant.now self.old self.new }
    {
        let Some(progress) = self.by_name.get_mut(tenant) else {
            return;
        };
        progress.end_push(to);
    }

    /// A tenant's State is pushed, now. Answers the pieces that go out: of the list that was cut when it was first sent
    /// to this incarnation of its receiver in this epoch, or else of what is held now.
    ///
    /// An error is out of memory. What is kept of other tenants stays.
    pub fn push(
        &mut self,
        alloc: Global,
        tenant: &TenantName,
        receiver: Peer,
        moment: Moment,
        held: &Held,
    ) -> Result<Vec<Piece>, AllocError>
        ensures pieces { IfOk result (λ pieces. pieces.items
            ≡ pieces_to_send false (list_for receiver held.now (settling_of tenant.now self.old))) }
        ensures each { OnOk result (Becomes tenant.now (on (pushed receiver moment held.now)) self.old self.new) }
        ensures others { LeavesOthers tenant.now self.old self.new }
    {
        let progress = self.by_name.entry(*tenant)?.or_insert(Progress::new(alloc));
        progress.push(alloc, receiver, moment, held)
    }

    /// A tenant's State goes out in answer to an Ask: the pieces of the same list. That is no push.
    ///
    /// An error is out of memory. What is kept of other tenants stays.
    pub fn answer(
        &mut self,
        alloc: Global,
        tenant: &TenantName,
        asker: Peer,
        held: &Held,
    ) -> Result<Vec<Piece>, AllocError>
        ensures pieces { IfOk result (λ pieces. pieces.items
            ≡ pieces_to_send true (list_for asker held.now (settling_of tenant.now self.old))) }
        ensures each { OnOk result (Becomes tenant.now (on (answered asker held.now)) self.old self.new) }
        ensures others { LeavesOthers tenant.now self.old self.new }
    {
        let progress = self.by_name.entry(*tenant)?.or_insert(Progress::new(alloc));
        progress.answer(alloc, asker, held)
    }

    /// A Got came, that names a place of a tenant's State, from an instance whose present incarnation is this. It
    /// counts where it comes from the incarnation to which the State now goes; one that names the end ends the push.
    /// Answers whether it counts. It takes no memory.
    pub fn got(&mut self, tenant: &TenantName, from: Peer, present: u32, place: usize) -> bool
        ensures counts { result ≡ is_got from present (settling_of tenant.now self.old) }
        ensures each { Becomes tenant.now (on (after_got from present place)) self.old self.new }
        ensures others { LeavesOthers tenant.now self.old self.new }
    {
        let Some(progress) = self.by_name.get_mut(tenant) else {
            return from.incarnation == present;
        };
        progress.got(from, present, place)
    }

    /// A piece of a tenant's State came. Answers the place behind all that came of it without a gap. Where the complete
    /// States of all these others came, the instance is settled.
    ///
    /// An error is out of memory. What is kept of other tenants stays.
    pub fn take(
        &mut self,
        alloc: Global,
        tenant: &TenantName,
        sender: Peer,
        place: u32,
        span: Span,
        others: &[Instance],
    ) -> Result<u64, AllocError>
        ensures place { IfOk result (λ behind. behind
            ≡ place_behind sender place span (settling_of tenant.now self.old)) }
        ensures each { OnOk result (Becomes tenant.now (on (taken sender place span others.now)) self.old self.new) }
        ensures others { LeavesOthers tenant.now self.old self.new }
    {
        let progress = self.by_name.entry(*tenant)?.or_insert(Progress::new(alloc));
        progress.take(alloc, sender, place, span, others)
    }
}
