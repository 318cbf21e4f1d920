//! What an instance has of all tenants.

ghost use Rattle.std.specs.Prelude.{false, ◌≡◌, ◌+◌, ◌<◌, ◌≤◌, ℕ, List, true, IfErr, IfOk, OnErr, OnOk, length, map};
ghost use Rattle.std.specs.Prelude.{option_map, if◌then◌else◌};
ghost use Rattle.std.specs.Borrow.{sem};
ghost use Rattle.std.specs.Io.BufRead.{Rests};
ghost use Rattle.std.specs.List.Sorted.{IsStrictlySortedBy};
ghost use Rattle.am_notifier.specs.Planned.{timers_in};
ghost use Rattle.am_alert.specs.Made.{greatest_count};
ghost use Rattle.am_current.specs.Current.{configuration_in};
ghost use Rattle.am_item.specs.Best.{IsRising};
ghost use Rattle.am_notifier.specs.Positions.{is_same_position, number_of};
ghost use Rattle.am_pattern.specs.Asking.{Asked};
ghost use Rattle.am_rows.specs.Refusing.{IsCaused, IsJudged, MayRefuse, Wears};
ghost use Rattle.am_rows.specs.Rows.{Keeps, has_stored, rows_of, stored_in};
ghost use Rattle.am_node.specs.Retiring.{retired};
ghost use Rattle.am_node.specs.Storing.{AreStillStored, AreStored, LeavesStore};
ghost use Rattle.am_replica.specs.Retiring.{StopsRetiring};
ghost use Rattle.am_replica.specs.Storing.{fault_in};
ghost use Rattle.am_tenant.specs.Names.{same};
ghost use Rattle.am_timer.specs.Queue.{due_at, timers_of};
ghost use Rattle.am_timer.specs.Timer.{timer_cmp};
ghost use Rattle.am_node.specs.Accepting.{StopsCommitting, StopsPositioning, accepted, accepted_for, counted};
ghost use Rattle.am_node.specs.Accepting.{positioned};
ghost use Rattle.am_node.specs.Delivery.{is_awaited, outcome, records};
ghost use Rattle.am_node.specs.Held.{Does, Makes, StopsFor, local_of};
ghost use Rattle.am_node.specs.Holding.{BeginsWith};
ghost use Rattle.am_node.specs.Local.{blank, dropped, said_in};
ghost use Rattle.am_node.specs.Plans.{IsPlanned};
ghost use Rattle.am_node.specs.Ticking.{handled};
ghost use Rattle.am_node.specs.Ticks.{StopsMuting, StopsTicking, TicksAll, context_for, has_flush};
ghost use Rattle.am_node.specs.Ticks.{muted_at, muted_for, some_flush};

use crate::dispatch::Dispatch;
use crate::muted::Muted;
use crate::parts::Parts;
use crate::report::Report;
use am_config::Config;
use am_context::{Context, Start};
use am_item::{Fault, Held, SharedItem};
use am_limit::LimitBook;
use am_notifier::Position;
use am_pattern::PatternCache;
use am_rows::{Rows, StoreRefusal};
use am_tenant::TenantName;
use am_text::{Failure, Moment};
use am_timer::{Timer, TimerKey};
use am_words::Place;
use std::alloc::{AllocError, Global};
use std::marker::Model;

/// What an instance has of all tenants: what it holds, what it has planned for that, which notices are on their way, and
/// what it counts. A call for one tenant leaves what it has of the others as it was. After a call that failed it is of
/// use only to be cleared.
pub struct Node {
    parts: Parts,
}

impl Model for Node {
    ghost use Rattle.std.specs.Prelude.{ℕ, List};
    ghost use Rattle.am_node.specs.Held.{local_of};
    ghost use Rattle.am_node.specs.Plans.{IsPlanned};
    ghost use Rattle.am_node.specs.declared.parts.Parts.{Parts};

    ghost Value = { Parts };

    ghost view = { λ node. node.parts };

    ghost invariant = { λ node. (t : List ℕ) → IsPlanned (local_of t node.parts) };
}

// Written out, so that a crate which owns a node has no need to prove anew how each of its parts is dropped.
impl Drop for Node {
    fn drop(self) {
        let Node { parts } = self;
        drop(parts);
    }
}

impl Node {
    ghost use Rattle.am_node.specs.contracts.node.Node.{the_row};

    /// Nothing of any tenant.
    ///
    /// An error is out of memory.
    pub fn new(alloc: Global) -> Result<Node, AllocError>
        ensures { IfOk result (λ node. (t : List ℕ) → local_of t node ≡ blank) }
    {
        let parts = Parts::new(alloc)?;
        Ok(Node { parts })
    }

    /// Forgets all that it has of all tenants, as a crash does. It takes no memory.
    pub fn clear(&mut self, alloc: Global)
        ensures { (t : List ℕ) → local_of t self.new ≡ blank }
    {
        self.parts.clear(alloc);
    }

    /// Forgets all that it has of a tenant, as an instance does that is no replica of the tenant any more, but what was
    /// counted: the tenant's stamps, the numbers that its attempts have used, and the place of its next word. What it
    /// has of the other tenants stays, and no row of a store is touched. It takes no memory.
    pub fn drop_tenant(&mut self, tenant: &TenantName)
        ensures { Makes tenant.now dropped self.old self.new }
    {
        self.parts.drop_tenant(tenant);
    }

    /// How many stamps of a tenant it has counted.
    #[tactic(auto, unfolding(crate::specs::Held::local_of))]
    pub fn stamps(&self, tenant: &TenantName) -> u64
        ensures { result ≡ (local_of tenant.now self.now).ledger.stamps }
    {
        self.parts.replica.stamps(tenant)
    }

    /// The place of a tenant's next word.
    #[tactic(auto, unfolding(crate::specs::Held::local_of))]
    pub fn place(&self, tenant: &TenantName) -> Place
        ensures { result ≡ (local_of tenant.now self.now).ledger.drawn }
    {
        self.parts.places.place(tenant)
    }

    /// How often an allowance held a notice back since there is the node, at most 2^64 - 1.
    pub fn held_back(&self) -> u64
        ensures { result ≡ self.now.notifier.held_back }
    {
        self.parts.notifier.held_back()
    }

    /// What is held of a tenant, in the order of keys.
    #[tactic(auto, unfolding(crate::specs::Held::local_of))]
    pub fn held(&self, tenant: &TenantName) -> &Held
        ensures held { result.now ≡ (local_of tenant.now self.now).held }
        ensures rising { IsRising result.now }
    {
        self.parts.replica.held(tenant)
    }

    /// What is held of a tenant, and the configuration in use for it.
    ///
    /// An error is out of memory; nothing changes then.
    #[tactic(auto, unfolding(crate::specs::Held::local_of))]
    pub fn in_use(
        &mut self,
        alloc: Global,
        tenant: &TenantName,
    ) -> Result<(&Held, &Config), AllocError>
        ensures* stays { sem 𝓛 (Rests the_row self.entry (λ new. (t : List ℕ) → local_of t new ≡ local_of t self.old)) }
        ensures held { IfOk result (λ used. used.0.now ≡ (local_of tenant.now self.old).held) }
        ensures rising { IfOk result (λ used. IsRising used.0.now) }
        ensures configuration { IfOk result (λ used. used.1.now
            ≡ configuration_in (local_of tenant.now self.old).held) }
    {
        self.parts.replica.in_use(alloc, tenant)
    }

    /// Opens a store, and accepts at a moment what it has of all tenants, where nothing is had of any.
    ///
    /// # Errors
    /// `F2` where a call of the database was refused, `F3` where it is no store, or out of memory. No row is lost, and
    /// nothing is had of any tenant.
    pub fn hold<R: Rows>(
        &mut self,
        alloc: Global,
        moment: Moment,
        cache: &mut PatternCache,
        store: &mut R,
    ) -> Result<(), Failure<StoreRefusal>>
        requires { (t : List ℕ) → local_of t self.old ≡ blank }
        ensures asked { Asked result cache.old cache.new }
        ensures clean { R.is_clean store.new ≡ true → R.is_clean store.old ≡ true }
        ensures open { OnOk result (R.is_open store.new ≡ true) }
        ensures keeps { R.is_clean store.new ≡ true → OnOk result (Keeps (R.pairs store.old) (R.pairs store.new)) }
        ensures held { R.is_clean store.new ≡ true → OnOk result ((t : List ℕ) →
            local_of t self.new ≡ accepted moment (rows_of t (R.pairs store.old)) blank) }
        ensures stores { R.is_clean store.new ≡ true → OnOk result (AreStored self.new (R.pairs store.new)) }
        ensures fails { R.is_clean store.new ≡ true
            → IfErr result (IsJudged (R.is_foreign store.old) (MayRefuse (R.medium store.old) (R.medium store.new))) }
    {
        store.open(alloc)?;
        self.hold_open(alloc, moment, cache, store)?;
        Ok(())
    }

    /// Accepts at a moment what a store that is open has of all tenants, where nothing is had of any. No alert is held
    /// then, whatever the disk returned: none is a row. Gives the tenants of whom it has something then.
    ///
    /// # Errors
    /// `F2` where a call of the database was refused, or out of memory. No row is lost, and nothing is had of any
    /// tenant. (`F3` only where the disk did not return what was written.)
    pub fn hold_open<R: Rows>(
        &mut self,
        alloc: Global,
        moment: Moment,
        cache: &mut PatternCache,
        store: &mut R,
    ) -> Result<Vec<TenantName>, Failure<StoreRefusal>>
        requires blank { (t : List ℕ) → local_of t self.old ≡ blank }
        requires open { R.is_open store.old ≡ true }
        ensures asked { Asked result cache.old cache.new }
        ensures clean { R.is_clean store.new ≡ true → R.is_clean store.old ≡ true }
        ensures open { OnOk result (R.is_open store.new ≡ true) }
        ensures held { R.is_clean store.new ≡ true → OnOk result ((t : List ℕ) →
            local_of t self.new ≡ accepted moment (rows_of t (R.pairs store.old)) blank) }
        ensures begins { IfOk result (λ names. BeginsWith names.items self.new) }
        ensures stores { R.is_clean store.new ≡ true
            → OnOk result (AreStillStored self.new (R.pairs store.old) (R.pairs store.new)) }
        ensures left { R.is_clean store.new ≡ true → (R.medium store.new).is_shut ≡ false
            → Keeps (R.pairs store.old) (R.pairs store.new) }
        ensures fails { R.is_clean store.new ≡ true
            → IfErr result (IsCaused (MayRefuse (R.medium store.old) (R.medium store.new))) }
        ensures wears { R.is_clean store.new ≡ true → Wears (R.medium store.old) (R.medium store.new) }
    {
        let parts = &mut self.parts;
        match parts.hold_open(alloc, moment, cache, store) {
            Ok(names) => Ok(names),
            Err(failure) => {
                self.parts.clear(alloc);
                Err(failure)
            }
        }
    }

    /// Has the groups of a tenant wait by the position of the instance among the tenant's replicas from now on; without
    /// one, the instance flushes none of them.
    ///
    /// # Errors
    /// `PatternNotBuilt` where there are alerts, and a pattern of the routes that are in use gives no answer; or out of
    /// memory.
    pub fn set_position(
        &mut self,
        alloc: Global,
        tenant: &TenantName,
        position: Option<Position>,
        cache: &mut PatternCache,
    ) -> Result<(), Fault>
        ensures does { OnOk result (Makes tenant.now (positioned (option_map number_of position)) self.old self.new) }
        ensures asked { Asked result cache.old cache.new }
        ensures fault { IfErr result (StopsPositioning cache.new.refused (local_of tenant.now self.old)) }
    {
        let parts = &mut self.parts;
        match parts.set_position(alloc, tenant, position, cache) {
            Ok(()) => Ok(()),
            Err(fault) => {
                self.parts.clear(alloc);
                Err(fault)
            }
        }
    }

    /// Whether the groups of a tenant wait by this position; without one the instance flushes none of them.
    #[tactic(auto, unfolding(crate::specs::Held::local_of))]
    pub fn is_at(&self, tenant: &TenantName, position: Option<Position>) -> bool
        ensures { result ≡ is_same_position (local_of tenant.now self.now).position (option_map number_of position) }
    {
        self.parts.notifier.is_at(tenant, position)
    }

    /// Counts the stamps of so many more items of a tenant that the instance made; where words were drawn for them, the
    /// place of the next one is kept. The count may not pass 2^62.
    ///
    /// An error is out of memory.
    pub fn count(
        &mut self,
        alloc: Global,
        tenant: &TenantName,
        more: u64,
        drawn: Option<Place>,
    ) -> Result<(), AllocError>
        requires { 0 < more → (local_of tenant.now self.old).ledger.stamps + more ≤ greatest_count }
        ensures { OnOk result (Makes tenant.now (counted more drawn) self.old self.new) }
    {
        let parts = &mut self.parts;
        match parts.count(alloc, tenant, more, drawn) {
            Ok(()) => Ok(()),
            Err(error) => {
                self.parts.clear(alloc);
                Err(error)
            }
        }
    }

    /// Commits items of a tenant at a moment, and accepts them: the best are held, and what is planned goes by these.
    ///
    /// # Errors
    /// `PatternNotBuilt` where there are alerts to plan, and a pattern of the routes that are in use then gave no
    /// answer; `StoreRefused` where one of the items is stored; or out of memory. The rows are as before, or as
    /// committed.
    pub fn accept<R: Rows>(
        &mut self,
        alloc: Global,
        tenant: &TenantName,
        moment: Moment,
        items: Vec<SharedItem>,
        cache: &mut PatternCache,
        store: &mut R,
    ) -> Result<(), Fault>
        requires { R.is_open store.old ≡ true }
        ensures does { OnOk result (Makes tenant.now (accepted moment items.items) self.old self.new) }
        ensures asked { Asked result cache.old cache.new }
        ensures fault { IfErr result (StopsCommitting cache.new.refused items.items (local_of tenant.now self.old)) }
        ensures clean { R.is_clean store.new ≡ true → R.is_clean store.old ≡ true }
        ensures open { OnOk result (R.is_open store.new ≡ true) }
        ensures stores { R.is_clean store.new ≡ true → AreStored self.old (R.pairs store.old)
            → OnOk result (AreStored self.new (R.pairs store.new)) }
        ensures left { R.is_clean store.new ≡ true → AreStored self.old (R.pairs store.old) → LeavesStore
            (λ t. local_of t self.old) (λ t. accepted_for tenant.now moment items.items t (local_of t self.old))
            (R.rejects tenant.now items.items) (fault_in result) (R.medium store.old) (R.medium store.new) (R.pairs store.new) }
        ensures untouched { has_stored items.items ≡ false → store.new ≡ store.old }
    {
        let parts = &mut self.parts;
        match parts.commit(alloc, tenant, moment, items, cache, store) {
            Ok(()) => Ok(()),
            Err(fault) => {
                self.parts.clear(alloc);
                Err(fault)
            }
        }
    }

    /// Drops what is retired at a moment, of all tenants: items, and the last flushes of groups that then have no
    /// members. It is the first step of a tick, and costs what goes.
    ///
    /// # Errors
    /// `StoreRefused` where silences retire, or out of memory. The rows are as before, or without the silences that
    /// retire.
    pub fn retire<R: Rows>(
        &mut self,
        alloc: Global,
        moment: Moment,
        store: &mut R,
    ) -> Result<(), Fault>
        requires { R.is_open store.old ≡ true }
        ensures retired { OnOk result ((t : List ℕ) → local_of t self.new ≡ retired moment (local_of t self.old)) }
        ensures planned { OnOk result ((t : List ℕ) → IsPlanned (local_of t self.new)) }
        ensures fault { IfErr result (StopsRetiring moment (λ t. (local_of t self.old).held)) }
        ensures clean { R.is_clean store.new ≡ true → R.is_clean store.old ≡ true }
        ensures open { OnOk result (R.is_open store.new ≡ true) }
        ensures stores { R.is_clean store.new ≡ true → AreStored self.old (R.pairs store.old)
            → OnOk result (AreStored self.new (R.pairs store.new)) }
        ensures left { R.is_clean store.new ≡ true → AreStored self.old (R.pairs store.old) → LeavesStore
            (λ t. local_of t self.old) (λ t. retired moment (local_of t self.old))
            ⊥ (fault_in result) (R.medium store.old) (R.medium store.new) (R.pairs store.new) }
    {
        let parts = &mut self.parts;
        match parts.retire(alloc, moment, store) {
            Ok(()) => Ok(()),
            Err(fault) => {
                self.parts.clear(alloc);
                Err(fault)
            }
        }
    }

    /// The timers of flushes and tries that are due at a moment, in order, and what is muted of the tenants that have a
    /// group to flush: the second step of a tick. It costs what is due.
    ///
    /// # Errors
    /// `PatternNotBuilt` where a pattern that may mute alerts of such a tenant gave no answer, or out of memory.
    pub fn due(
        &mut self,
        alloc: Global,
        moment: Moment,
        cache: &mut PatternCache,
    ) -> Result<(Vec<Timer>, Muted), Fault>
        ensures due { IfOk result (λ found. (t : List ℕ)
            → timers_of t found.0.items ≡ due_at moment (timers_in t (local_of t self.old).plan)) }
        ensures order { IfOk result (λ found. IsStrictlySortedBy timer_cmp found.0.items) }
        ensures muted { IfOk result (λ found. (t : List ℕ) → some_flush t found.0.items ≡ true
            → muted_for t found.1 ≡ muted_at moment (local_of t self.old).held) }
        ensures stays { self.new ≡ self.old }
        ensures asked { Asked result cache.old cache.new }
        ensures fault { IfErr result (StopsMuting cache.new.refused moment
            (λ t. has_flush t moment (local_of t self.old).plan) (λ t. (local_of t self.old).held)) }
    {
        self.parts.due(alloc, moment, cache)
    }

    /// Does what a timer of a tenant is for, where it is still due, and gives what there is to say, in order: the third
    /// step of a tick. Deadlines of operations, pushes and Asks are nothing to a node.
    ///
    /// # Errors
    /// `CountsExhausted` where a count would pass 2^62, or out of memory.
    pub fn handle(
        &mut self,
        alloc: Global,
        tenant: &TenantName,
        context: &Context,
        key: &TimerKey,
        muted: &Muted,
    ) -> Result<Vec<Report>, Fault>
        ensures does { OnOk result (Does tenant.now
            (handled context.now (muted_for tenant.now muted.now) key.now) self.old self.new) }
        ensures said { IfOk result (λ v. map said_in v.items ≡
            (handled context.now (muted_for tenant.now muted.now) key.now (local_of tenant.now self.old)).said) }
        ensures fits { IfOk result (λ _.
            (handled context.now (muted_for tenant.now muted.now) key.now (local_of tenant.now self.old)).fits ≡ true) }
        ensures planned { IsPlanned (local_of tenant.now self.old) }
        ensures stored { OnOk result ((t : List ℕ) →
            stored_in (local_of t self.new).held ≡ stored_in (local_of t self.old).held) }
        ensures fault { IfErr result (StopsFor
            (handled context.now (muted_for tenant.now muted.now) key.now (local_of tenant.now self.old))) }
    {
        let parts = &mut self.parts;
        match parts.handle(alloc, tenant, context, key, muted) {
            Ok(reports) => Ok(reports),
            Err(fault) => {
                self.parts.clear(alloc);
                Err(fault)
            }
        }
    }

    /// A tick, of all tenants: what is retired at the moment goes, and then what is due is done once, in order: by when
    /// it is due, by tenant, groups before attempts. Gives what there is to say. It costs what is due and what goes.
    ///
    /// # Errors
    /// `CountsExhausted` where a count of a tenant would pass 2^62, `PatternNotBuilt` where a pattern that may mute
    /// alerts of a group gave no answer, `StoreRefused` where silences retire, or out of memory. The rows are as before,
    /// or without the silences that retire.
    pub fn tick<R: Rows>(
        &mut self,
        alloc: Global,
        start: Start,
        moment: Moment,
        limits: &LimitBook,
        cache: &mut PatternCache,
        store: &mut R,
    ) -> Result<Vec<Dispatch>, Fault>
        requires { R.is_open store.old ≡ true }
        ensures ticks { IfOk result (λ all. TicksAll (context_for start.instance start.incarnation moment limits.now)
            (λ t. local_of t self.old) (λ t. local_of t self.new) all.items) }
        ensures asked { Asked result cache.old cache.new }
        ensures fault { IfErr result (StopsTicking (context_for start.instance start.incarnation moment limits.now)
            (λ t. local_of t self.old) cache.new.refused) }
        ensures clean { R.is_clean store.new ≡ true → R.is_clean store.old ≡ true }
        ensures open { OnOk result (R.is_open store.new ≡ true) }
        ensures stores { R.is_clean store.new ≡ true → AreStored self.old (R.pairs store.old)
            → OnOk result (AreStored self.new (R.pairs store.new)) }
        ensures left { R.is_clean store.new ≡ true → AreStored self.old (R.pairs store.old) → LeavesStore
            (λ t. local_of t self.old) (λ t. retired moment (local_of t self.old))
            ⊥ (fault_in result) (R.medium store.old) (R.medium store.new) (R.pairs store.new) }
    {
        let parts = &mut self.parts;
        match parts.tick(alloc, start, moment, limits, cache, store) {
            Ok(all) => Ok(all),
            Err(fault) => {
                self.parts.clear(alloc);
                Err(fault)
            }
        }
    }

    /// Whether the outcome of this try of a tenant's attempt is awaited.
    #[tactic(auto, unfolding(crate::specs::Held::local_of, crate::specs::Delivery::is_awaited))]
    pub fn is_awaited(&self, tenant: &TenantName, number: u64, tries: u8) -> bool
        ensures { result ≡ is_awaited number tries (local_of tenant.now self.now) }
    {
        self.parts.notifier.is_awaited(tenant, number, tries)
    }

    /// Takes the outcome of a try of a tenant's attempt: the status of the webhook's answer, or `None` where there was
    /// none. Gives the item that records a notice which was delivered. Nothing changes where no outcome of that try is
    /// awaited.
    ///
    /// # Errors
    /// `CountsExhausted` where the stamp of what is recorded would pass 2^62, or out of memory.
    pub fn outcome(
        &mut self,
        alloc: Global,
        tenant: &TenantName,
        context: &Context,
        number: u64,
        tries: u8,
        status: Option<u16>,
    ) -> Result<Option<SharedItem>, Fault>
        ensures does { OnOk result (Does tenant.now (outcome context.now number tries status) self.old self.new) }
        ensures said { IfOk result (λ entry. records entry
            ≡ (outcome context.now number tries status (local_of tenant.now self.old)).said) }
        ensures fits { IfOk result (λ _. (outcome context.now number tries status (local_of tenant.now self.old)).fits
            ≡ true) }
        ensures stored { OnOk result ((t : List ℕ) → stored_in (local_of t self.new).held
            ≡ stored_in (local_of t self.old).held) }
        ensures fault { IfErr result (StopsFor
            (outcome context.now number tries status (local_of tenant.now self.old))) }
    {
        let parts = &mut self.parts;
        match parts.outcome(alloc, tenant, context, number, tries, status) {
            Ok(entry) => Ok(entry),
            Err(fault) => {
                self.parts.clear(alloc);
                Err(fault)
            }
        }
    }
}
