//! What happened, and was not told yet.

ghost use Rattle.std.specs.Prelude.{◌≡◌, ◌++◌, ◌∷◌, [], ℕ, List, None, Some, IfNone, OnErr, OnOk, if◌then◌else◌};
ghost use Rattle.am_tenant.specs.Names.{same};
ghost use Rattle.am_log.specs.Incidents.{told_with};
ghost use Rattle.am_log.specs.Releases.{added, due, none_let_go, once_told, release_of, with_release};
ghost use Rattle.am_log.specs.Throttling.{after_one, once_forgotten, recent_of, told_at};
ghost use Rattle.am_log.specs.declared.entry.Change.{Change};
ghost use Rattle.am_log.specs.declared.entry.Entry.TheVariants.{Changed, ConnectionsLetGo, WebhookFailed};
ghost use Rattle.am_log.specs.declared.entry.LetGo.{LetGo};
ghost use Rattle.am_log.specs.declared.entry.ToldFailure.{ToldFailure};

use crate::entry::{Change, Entry, LetGo, ToldFailure, WebhookFailure};
use crate::releases::Releases;
use crate::throttle::Throttle;
use std::alloc::{AllocError, Global};
use std::collections::VecDeque;

/// What happened, and is to be told: calls of webhooks that failed, of each tenant at most one a second with how many
/// were left out, what was done by hand, and connections that were let go, each reason at most once a second with how
/// many there were.
#[derive(Drop)]
pub struct Incidents {
    throttle: Throttle,
    failures: VecDeque<ToldFailure>,
    changes: VecDeque<Change>,
    releases: Releases,
}

impl Incidents {
    /// Nothing happened.
    pub fn new(alloc: Global) -> Incidents
        ensures failures { result.failures.items ≡ [] }
        ensures changes { result.changes.items ≡ [] }
        ensures recent { (t : List ℕ) → recent_of t result.throttle ≡ None }
        ensures releases { (reason : LetGo) → release_of reason result.releases ≡ none_let_go }
    {
        Incidents {
            throttle: Throttle::new(alloc),
            failures: VecDeque::new(alloc),
            changes: VecDeque::new(alloc),
            releases: Releases::new(),
        }
    }

    /// A call of a webhook failed at a moment, in milliseconds since 1970.
    ///
    /// # Errors
    /// Out of memory: the failure may be neither told nor counted.
    pub fn note_failure(&mut self, failure: WebhookFailure, moment: u64) -> Result<(), AllocError>
        ensures told { OnOk result (self.new.failures.items ≡ self.old.failures.items ++ told_with failure
            (told_at moment (recent_of failure.tenant self.old.throttle))) }
        ensures recent { OnOk result ((t : List ℕ) → recent_of t self.new.throttle ≡ (if same t failure.tenant
            then Some (after_one moment (recent_of t self.old.throttle)) else recent_of t self.old.throttle)) }
        ensures changes { self.new.changes ≡ self.old.changes }
        ensures releases { self.new.releases ≡ self.old.releases }
    {
        if let Some(left_out) = self.throttle.note(&failure.tenant, moment)? {
            self.failures.push_back(ToldFailure { failure, left_out })?;
        }
        Ok(())
    }

    /// This was done by hand.
    ///
    /// # Errors
    /// Out of memory: it isn't told.
    pub fn note_change(&mut self, change: Change) -> Result<(), AllocError>
        ensures told { OnOk result (self.new.changes.items ≡ self.old.changes.items ++ change ∷ []) }
        ensures err { OnErr result (self.new.changes.items ≡ self.old.changes.items) }
        ensures rest { self.new ≡ record self.old { changes = self.new.changes } }
    {
        self.changes.push_back(change)?;
        Ok(())
    }

    /// So many connections were let go for a reason.
    pub fn count_let_go(&mut self, reason: LetGo, connections: u64)
        ensures { self.new ≡ record self.old {
          releases =
              with_release reason (added connections (release_of reason self.old.releases)) self.old.releases;
        } }
    {
        self.releases.count(reason, connections);
    }

    /// What is to be told next at a moment, in milliseconds since 1970: the calls that failed, in their order, then what
    /// was done by hand, in its order, and then each reason for which connections were let go.
    pub fn next(&mut self, moment: u64) -> Option<Entry>
        ensures failure { (told : ToldFailure) (later : List ToldFailure) → self.old.failures.items ≡ told ∷ later
            → (result ≡ Some (WebhookFailed told)) × (self.new.failures.items ≡ later)
            × (self.new.changes ≡ self.old.changes) × (self.new.releases ≡ self.old.releases) }
        ensures change { (change : Change) (later : List Change) → self.old.failures.items ≡ []
            → self.old.changes.items ≡ change ∷ later → (result ≡ Some (Changed change))
            × (self.new.changes.items ≡ later) × (self.new.releases ≡ self.old.releases) }
        ensures let_go { (reason : LetGo) (count : ℕ) → result ≡ Some (ConnectionsLetGo reason count)
            → (due moment (release_of reason self.old.releases) ≡ Some count) × (self.new.releases
            ≡ with_release reason (once_told moment (release_of reason self.old.releases)) self.old.releases) }
        ensures none { IfNone result ((self.old.failures.items ≡ []) × (self.old.changes.items ≡ [])) }
        ensures none_due { IfNone result ((reason : LetGo) → due moment (release_of reason self.old.releases) ≡ None) }
        ensures stay { IfNone result (self.new.releases ≡ self.old.releases) }
        ensures throttle { self.new.throttle ≡ self.old.throttle }
    {
        if let Some(told) = self.failures.pop_front() {
            return Some(Entry::WebhookFailed(told));
        }
        if let Some(change) = self.changes.pop_front() {
            return Some(Entry::Changed(change));
        }
        let (reason, count) = self.releases.next(moment)?;
        Some(Entry::ConnectionsLetGo(reason, count))
    }

    /// Forgets, of the tenants of whom nothing is left out, those of whom nothing was told within the second before a
    /// moment: what is kept is of those alone of whom something was told or left out. It takes no memory.
    pub fn forget(&mut self, moment: u64)
        ensures recent { (t : List ℕ) → recent_of t self.new.throttle
            ≡ once_forgotten moment (recent_of t self.old.throttle) }
        ensures rest { self.new ≡ record self.old { throttle = self.new.throttle } }
    {
        self.throttle.forget(moment);
    }
}
