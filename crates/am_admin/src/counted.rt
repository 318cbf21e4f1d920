//! A gateway of which is counted what it does.

ghost use Rattle.std.specs.Prelude.{◌≡◌, ◌∷◌, ℕ, List, [], false, true, min, IfNone, IfSome, IsOk};
ghost use Rattle.am_admin.specs.Calls.{given_notice};
ghost use Rattle.am_admin.specs.Changes.{change_by};
ghost use Rattle.am_event.specs.declared.event.Event.TheVariants as event;
ghost use Rattle.am_serve.specs.Lanes.{is_ready};
ghost use Rattle.am_serve.specs.Weights.{WaitsWithin};
ghost use Rattle.am_world.specs.Consistent.{last_moment};

use crate::called::{Called, name_call};
use am_gateway::{Gateway, Try};
use am_limit::Limits;
use am_log::{Change, Entry, Incidents, LetGo, WebhookFailure};
use am_serve::{Host, Verdict};
use am_server::{Notice, Service};
use am_tally::{Load, Parting, Tally};
use am_tenant::TenantName;
use am_text::Text;
use am_world::{AnyWorld, Event, Refused};
use std::alloc::{AllocError, Global};
use std::mem;

/// For which connections that are let go it is told why.
const TOLD: [(Parting, LetGo); 3] = [
    (Parting::Crowded, LetGo::Crowded),
    (Parting::Unread, LetGo::Unread),
    (Parting::Late, LetGo::Late),
];

/// A gateway, how often it did what, and what happened and is to be told.
pub struct Counted<'w, W: AnyWorld> {
    alloc: Global,
    gateway: Gateway<'w, W>,
    tally: Tally,
    incidents: Incidents,
    // What the server had open and held when it last said so.
    load: Load,
    // The moment of what happens now, in milliseconds since 1970.
    moment: u64,
    // Whether the world was told the time since that was last asked.
    has_ticked: bool,
    // Whether the file of limits was refused when it was last read.
    are_limits_refused: bool,
}

// Written out, so that a crate which owns one has no need to prove anew how each of its parts is dropped.
impl<W: AnyWorld> Drop for Counted<'_, W> {
    fn drop(self) {
        let Counted {
            alloc: _alloc,
            gateway,
            tally,
            incidents,
            load: _load,
            moment: _moment,
            has_ticked: _has_ticked,
            are_limits_refused: _are_limits_refused,
        } = self;
        drop(gateway);
        drop(tally);
        drop(incidents);
    }
}

impl<'w, W: AnyWorld> Counted<'w, W> {
    /// A gateway of which nothing was counted. What becomes of notices is counted tenant by tenant, where that is asked
    /// for.
    pub fn new(alloc: Global, gateway: Gateway<'w, W>, by_tenant: bool) -> Counted<'w, W>
        ensures { result.gateway ≡ gateway.entry }
    {
        Counted {
            alloc,
            gateway,
            tally: Tally::new(alloc, by_tenant),
            incidents: Incidents::new(alloc),
            load: Load::none(),
            moment: 0,
            has_ticked: false,
            are_limits_refused: false,
        }
    }

    /// The gateway.
    pub fn gateway(&self) -> &Gateway<'w, W> {
        &self.gateway
    }

    /// How often it did what.
    pub(crate) fn tally(&self) -> &Tally {
        &self.tally
    }

    /// What the server had open and held when it last said so.
    pub(crate) fn load(&self) -> &Load {
        &self.load
    }

    /// The server has this open and holds this. Whom it let go of its own accord since it last said so is to be told.
    pub fn note_load(&mut self, load: Load) {
        for (parting, reason) in TOLD {
            let connections = load.partings.since(&self.load.partings, parting);
            self.incidents.count_let_go(reason, connections);
        }
        self.load = load;
    }

    /// What is to be told next of what happened.
    pub fn next_entry(&mut self) -> Option<Entry> {
        self.incidents.next(self.moment)
    }

    /// The moment of what happens now, in milliseconds since 1970.
    pub fn moment(&self) -> u64
        ensures { result ≡ self.now.moment }
    {
        self.moment
    }

    /// Whether the world was told the time since this was last asked.
    pub fn take_tick(&mut self) -> bool
        ensures value { result ≡ self.old.has_ticked }
        ensures taken { self.new ≡ record self.old { has_ticked = false } }
    {
        mem::replace(&mut self.has_ticked, false)
    }

    /// The file of limits was read, and was refused or not.
    pub fn note_limits(&mut self, are_refused: bool)
        ensures { self.new ≡ record self.old { are_limits_refused = are_refused } }
    {
        self.are_limits_refused = are_refused;
    }

    /// Whether the file of limits was refused when it was last read.
    pub(crate) fn are_limits_refused(&self) -> bool
        ensures { result ≡ self.now.are_limits_refused }
    {
        self.are_limits_refused
    }

    /// Gives a tenant its limits.
    ///
    /// # Errors
    /// Out of memory: the limits hold, and of what was put out all but a first part is lost.
    pub fn set_limits(&mut self, tenant: TenantName, limits: Limits) -> Result<(), AllocError> {
        let event = Event::Limits { tenant, limits };
        self.gateway.operate(&event)?;
        Ok(())
    }

    /// Has an event happen that those who run the service ask for, which is to be told then, unless memory is refused
    /// for that. Gives why it is refused, where it is; nothing changed then.
    ///
    /// # Errors
    /// Out of memory: the event happened, it isn't told, and of what was put out all but a first part is lost.
    pub(crate) fn operate(&mut self, event: &Event) -> Result<Option<Refused>, AllocError> {
        let refused = self.gateway.operate(event)?;
        if refused.is_none() {
            if let Some(change) = change_by(event) {
                let _ = self.incidents.note_change(change);
            }
        }
        Ok(refused)
    }

    // A try failed. It isn't told where memory is refused.
    fn note_failure(&mut self, failed: &Try, receiver: Option<Text>, status: Option<u16>)
        ensures { self.new ≡ record self.old { incidents = self.new.incidents } }
    {
        let Some(receiver) = receiver else {
            return;
        };
        let failure = WebhookFailure {
            tenant: failed.attempt.tenant,
            receiver,
            status,
            tries: failed.tries,
            instance: failed.attempt.instance,
        };
        let _ = self.incidents.note_failure(failure, self.moment);
    }
}

impl<W: AnyWorld> Host for Counted<'_, W> {
    ghost use Rattle.am_gateway.specs.Gateway.{ClosesConnection, OpensConnection, TakesPiece};

    ghost opens = { λ old c result new. OpensConnection W.contents old.gateway c result new.gateway };

    ghost takes = { λ old c piece verdict new. TakesPiece W.contents old.gateway c piece verdict new.gateway };

    ghost closes = { λ old c new. ClosesConnection W.contents old.gateway c new.gateway };

    fn open(&mut self, connection: u64) -> bool {
        self.gateway.open(connection)
    }

    fn take(&mut self, connection: u64, piece: &[u8]) -> Verdict {
        let verdict = self.gateway.take(connection, piece);
        if let Verdict::Reply(reply) = &verdict {
            self.tally.count_reply(reply);
        }
        verdict
    }

    fn close(&mut self, connection: u64) {
        self.gateway.close(connection);
    }
}

impl<W: AnyWorld> Service for Counted<'_, W> {
    ghost use Rattle.am_gateway.specs.Gateway.{BeginsCall, EndsCall, GivesUpCall, GoesOn, IsSameGateway};
    ghost use Rattle.am_gateway.specs.Gateway.{SameUnderWay, TellsWorld, WaitsTooMuch, notice_bytes};
    ghost use Rattle.am_gateway.specs.Serving.{has_quorum as has_quorum_in};

    type Name = Called;

    // As long as the gateway is.
    fn is_up(&self) -> bool
        ensures { result ≡ has_quorum_in (W.contents self.now.gateway.world.now).state }
    {
        self.gateway.is_up()
    }

    // What is counted is of this moment as it is, and the gateway's is none that the world wouldn't take.
    fn set_moment(&mut self, moment: u64)
        ensures gateway { self.new.gateway ≡ record self.old.gateway { moment = min moment last_moment } }
        ensures rest { self.new ≡ record self.old { gateway = self.new.gateway; moment = moment } }
    {
        self.moment = moment;
        self.gateway.set_moment(moment);
    }

    // An error is the gateway's, since to count takes no memory: the tick is counted then too.
    fn tick(&mut self) -> Result<(), AllocError>
        ensures not_due { self.old.gateway.is_tick_due ≡ false → IsOk result × (self.new ≡ self.old) }
        ensures told { self.old.gateway.is_tick_due ≡ true →
            GoesOn W.contents result (record self.old.gateway { is_tick_due = false }) self.new.gateway }
        ensures is_tick_due { self.new.gateway.is_tick_due ≡ false }
        ensures under_way { SameUnderWay self.old.gateway self.new.gateway }
        ensures same { IsSameGateway self.old.gateway self.new.gateway }
        ensures has_ticked { self.old.gateway.is_tick_due ≡ true → self.new.has_ticked ≡ true }
        ensures rest { self.new ≡ record self.old {
          gateway = self.new.gateway;
          tally = self.new.tally;
          incidents = self.new.incidents;
          has_ticked = self.new.has_ticked;
        } }
    {
        if self.gateway.is_tick_due() {
            self.tally.count_tick(self.moment);
            self.incidents.forget(self.moment);
            self.has_ticked = true;
        }
        self.gateway.tick()
    }

    fn next_reply(&mut self) -> Option<(u64, Vec<u8>)>
        ensures gives { IfSome result (λ given. self.old.gateway.replies.items
            ≡ record { connection = given.0; bytes = given.1.items } ∷ self.new.gateway.replies.items) }
        ensures none { IfNone result (self.old.gateway.replies.items ≡ []) }
        ensures stays { IfNone result (self.new.gateway.replies.items ≡ []) }
        ensures gateway { self.new.gateway ≡ record self.old.gateway { replies = self.new.gateway.replies } }
        ensures rest { self.new ≡ record self.old { gateway = self.new.gateway; tally = self.new.tally } }
    {
        let (connection, reply) = self.gateway.next_reply()?;
        self.tally.count_reply(&reply);
        Some((connection, reply))
    }

    // Where memory is refused, the call isn't known by its receiver.
    fn next_notice(&mut self, free: usize) -> Option<Notice<Called>>
        ensures begins { IfSome result (λ notice.
            BeginsCall free (given_notice notice) self.old.gateway self.new.gateway) }
        ensures none { IfNone result ((t : List ℕ) → is_ready free t self.old.gateway.notices.lanes ≡ false) }
        ensures stays { IfNone result (self.new ≡ self.old) }
        ensures gateway { self.new.gateway ≡ record self.old.gateway { notices = self.new.gateway.notices } }
        ensures rest { self.new ≡ record self.old { gateway = self.new.gateway; tally = self.new.tally } }
    {
        let notice = self.gateway.next_notice(free)?;
        self.tally.count_call(&notice.name.attempt.tenant);
        Some(name_call(self.alloc, notice))
    }

    // Where memory is refused, the call isn't known by its receiver.
    fn next_given_up(&mut self) -> Option<Notice<Called>>
        ensures over { IfSome result (λ notice. WaitsTooMuch (given_notice notice) self.old.gateway) }
        ensures gives_up { IfSome result (λ notice.
            GivesUpCall (given_notice notice) self.old.gateway self.new.gateway) }
        ensures none { IfNone result (WaitsWithin notice_bytes self.old.gateway.notices.lanes) }
        ensures stays { IfNone result (self.new ≡ self.old) }
        ensures gateway { self.new.gateway ≡ record self.old.gateway { notices = self.new.gateway.notices } }
        ensures rest { self.new ≡ record self.old { gateway = self.new.gateway; tally = self.new.tally } }
    {
        let notice = self.gateway.next_given_up()?;
        self.tally.count_given_up(&notice.name.attempt.tenant);
        Some(name_call(self.alloc, notice))
    }

    // An error is the gateway's: where memory is refused to tell of a failure, that alone is lacking.
    fn end_call(&mut self, name: Called, status: Option<u16>) -> Result<(), AllocError>
        ensures told { TellsWorld W.contents result (event.Outcome name.attempted.attempt name.attempted.tries
            self.old.gateway.moment status) self.old.gateway self.new.gateway }
        ensures under_way { EndsCall name.attempted.attempt.tenant self.old.gateway self.new.gateway }
        ensures is_tick_due { self.new.gateway.is_tick_due ≡ self.old.gateway.is_tick_due }
        ensures same { IsSameGateway self.old.gateway self.new.gateway }
        ensures rest { self.new ≡ record self.old {
          gateway = self.new.gateway;
          tally = self.new.tally;
          incidents = self.new.incidents;
        } }
    {
        let Called {
            attempted,
            receiver,
        } = name;
        if self.tally.count_end(&attempted.attempt.tenant, status) {
            self.note_failure(&attempted, receiver, status);
        }
        self.gateway.end_call(attempted, status)
    }
}

// What is told of an event once it was asked for; none where nobody asks for such a one.
fn change_by(event: &Event) -> Option<Change>
    ensures { result ≡ change_by event.now }
{
    match event {
        Event::Join { instance } => Some(Change::Joined(*instance)),
        Event::Leave { instance } => Some(Change::Left(*instance)),
        Event::Crash { instance } => Some(Change::Crashed(*instance)),
        Event::Restart { instance } => Some(Change::Restarted(*instance)),
        Event::Force { tenant } => Some(Change::Forced(*tenant)),
        _ => None,
    }
}
