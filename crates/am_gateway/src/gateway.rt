//! What stands between a server and its world.
ghost use Rattle.std.specs.Prelude.{◌≡◌, ◌∷◌, ℕ, List, [], Some, false, true, min};
ghost use Rattle.std.specs.Prelude.{IfOk, IfSome, IfNone, IsOk, MatchOption, OnErr, OnOk};
ghost use Rattle.am_http.specs.Replies.{ready_reply as the_ready_reply};
ghost use Rattle.am_serve.specs.Lanes.{is_ready, under_way_of, waiting_of};
ghost use Rattle.am_serve.specs.Weights.{WaitsWithin, all_bytes};
ghost use Rattle.am_event.specs.declared.event.Event.TheVariants as event;
ghost use Rattle.am_serve.specs.declared.host.Verdict.TheVariants as verdict;
ghost use Rattle.am_world.specs.Consistent.{last_moment};
ghost use Rattle.am_world.specs.Runs.{ForgetsOver};
ghost use Rattle.am_world.specs.Simulation.{put_out};

use crate::learning::behind;
use crate::passing::{asked_tenant, pass_all};
use crate::restarting::{fallen, forget_up, note};
use crate::serving::{has_quorum, serving};
use crate::sorting::{LateReply, sort};
use am_http::{ConnectionId, ready_reply};
use am_serve::{Host, Lanes, Verdict};
use am_server::{Notice, Service};
use am_tenant::TenantName;
use am_text::Octets;
use am_world::{AnyWorld, AttemptName, Event, LAST_MOMENT, Refused};
use std::alloc::{AllocError, Global};
use std::collections::VecDeque;

/// A try that went out of the world, of which no outcome came yet.
#[derive(Drop)]
pub struct Try {
    /// The attempt.
    pub attempt: AttemptName,
    /// Which try of the attempt it is, 1 to 5.
    pub tries: u8,
}

/// A world, with what it put out and the server hasn't taken yet: notices whose calls weren't begun, and replies that
/// came later than their requests.
pub struct Gateway<'w, W: AnyWorld> {
    alloc: Global,
    world: &'w mut W,
    // The moment of what happens now, in milliseconds since 1970.
    moment: u64,
    // The reply to `GET /ready`, after which the clock is told.
    ready: Octets,
    is_tick_due: bool,
    notices: Lanes<Notice<Try>>,
    replies: VecDeque<LateReply>,
    // For each restart that was in vain since its instance was last up, the instance's number.
    vain: Vec<u8>,
}

// Written out, so that a crate which owns a gateway has no need to prove anew how each of its parts is dropped.
impl<W: AnyWorld> Drop for Gateway<'_, W> {
    fn drop(self) {
        let Gateway {
            alloc: _alloc,
            world: _world,
            moment: _moment,
            ready,
            is_tick_due: _is_tick_due,
            notices,
            replies,
            vain,
        } = self;
        drop(ready);
        drop(notices);
        drop(replies);
        drop(vain);
    }
}

impl<'w, W: AnyWorld> Gateway<'w, W> {
    ghost use Rattle.am_gateway.specs.Gateway.{IsSameGateway, IsVerdictOn, LearnsNext, LetsTick, LosesEvent};
    ghost use Rattle.am_gateway.specs.Gateway.{MakesReady, Operates, RestartsNext, SameUnderWay, Settles};
    ghost use Rattle.am_gateway.specs.Gateway.{SettlesInTime, Sorts, SortsSome, TakesPiece, TellsWorld, notice_bytes};
    ghost use Rattle.am_gateway.specs.Gateway.{piece_event};
    ghost use Rattle.am_gateway.specs.Sorting.{reply_on};

    /// A gateway to a world that was just opened.
    ///
    /// # Errors
    /// Out of memory.
    pub fn new(alloc: Global, world: &'w mut W) -> Result<Gateway<'w, W>, AllocError>
        ensures world { IfOk result (λ gateway. gateway.world.now ≡ world.old) }
        ensures moment { IfOk result (λ gateway. gateway.moment ≡ 0) }
        ensures ready { IfOk result (λ gateway. gateway.ready ≡ the_ready_reply) }
        ensures is_tick_due { IfOk result (λ gateway. gateway.is_tick_due ≡ false) }
        ensures waiting { IfOk result (λ gateway. (t : List ℕ) → waiting_of t gateway.notices.lanes ≡ []) }
        ensures under_way { IfOk result (λ gateway. (t : List ℕ) → under_way_of t gateway.notices.lanes ≡ 0) }
        ensures replies { IfOk result (λ gateway. gateway.replies.items ≡ []) }
        ensures vain { IfOk result (λ gateway. gateway.vain.items ≡ []) }
    {
        let ready = ready_reply(alloc)?;
        Ok(Gateway {
            alloc,
            world,
            moment: 0,
            ready,
            is_tick_due: false,
            notices: Lanes::new(alloc),
            replies: VecDeque::new(alloc),
            vain: Vec::new(alloc),
        })
    }

    /// The world behind it.
    pub fn world(&self) -> &W
        ensures { result.now ≡ self.now.world.now }
    {
        self.world
    }

    /// Whether the world is told the moment at the next tick.
    pub fn is_tick_due(&self) -> bool
        ensures { result ≡ self.now.is_tick_due }
    {
        self.is_tick_due
    }

    /// How many bytes the requests of the notices hold that wait for their calls.
    pub fn waiting_bytes(&self) -> usize
        ensures { result ≡ all_bytes notice_bytes self.now.notices.lanes }
    {
        self.notices.bytes()
    }

    // Takes away what the world has put out: its notices wait behind those of their tenants, the first reply on a
    // connection is given, where one is named, and those on others wait. Out of memory: the reply is lost, and of the
    // others and of the notices all but a first part.
    fn sort(&mut self, connection: Option<u64>) -> Result<Option<Octets>, AllocError>
        ensures reply { IfOk result (λ reply.
            reply ≡ reply_on connection (put_out (W.contents self.old.world.now).state)) }
        ensures sorted { OnOk result
            (Sorts connection (put_out (W.contents self.old.world.now).state) self.old self.new) }
        ensures err { OnErr result
            (SortsSome connection (put_out (W.contents self.old.world.now).state) self.old self.new) }
        ensures forgets { ForgetsOver (W.contents self.old.world.now) (W.contents self.new.world.now) }
        ensures is_tick_due { self.new.is_tick_due ≡ self.old.is_tick_due }
        ensures under_way { SameUnderWay self.old self.new }
        ensures same { IsSameGateway self.old self.new }
        ensures vain { self.new.vain ≡ self.old.vain }
    {
        let outputs = self.world.take_outputs(self.alloc);
        sort(&mut self.notices, &mut self.replies, outputs, connection)
    }

    // Hands the world an event of no connection, and the messages that come of it.
    fn tell(&mut self, event: &Event) -> Result<(), AllocError>
        ensures told { TellsWorld W.contents result event.now self.old self.new }
        ensures is_tick_due { self.new.is_tick_due ≡ self.old.is_tick_due }
        ensures under_way { SameUnderWay self.old self.new }
        ensures same { IsSameGateway self.old self.new }
    {
        let _ = self.world.step(self.alloc, event);
        pass_all(self.world, self.alloc, self.moment);
        match self.sort(None) {
            Ok(_) => Ok(()),
            Err(error) => Err(error),
        }
    }

    // What the world makes of a piece of a connection.
    fn take_piece(&mut self, connection: ConnectionId, piece: &[u8]) -> Result<Verdict, AllocError>
        ensures takes { IfOk result (λ verdict. TakesPiece W.contents self.old connection piece.now verdict self.new) }
        ensures err { OnErr result (LosesEvent W.contents connection (piece_event self.old connection piece.now)
            self.old self.new) }
    {
        let event = Event::Bytes {
            connection,
            moment: self.moment,
            piece: Octets::read(self.alloc, piece)?,
        };
        self.answer(connection.number(), &event)
    }

    // What the world makes of an event of a connection, and of the messages that come of it.
    fn answer(&mut self, connection: u64, event: &Event) -> Result<Verdict, AllocError>
        ensures verdict { IfOk result (λ verdict.
            IsVerdictOn W.contents connection event.now self.old verdict self.new) }
        ensures err { OnErr result (LosesEvent W.contents connection event.now self.old self.new) }
    {
        if self.world.step(self.alloc, event).is_err() {
            return Ok(Verdict::Gone);
        }
        pass_all(self.world, self.alloc, self.moment);
        let asked = asked_tenant(self.world.outputs());
        match self.sort(Some(connection)) {
            Ok(Some(reply)) => {
                self.note(&reply);
                Ok(Verdict::Reply(reply.into_vec()))
            }
            Ok(None) => Ok(self.unreplied(asked)),
            Err(error) => Err(error),
        }
    }

    // The verdict on a request that got no reply yet, of a tenant where it is whole.
    fn unreplied(&mut self, asked: Option<TenantName>) -> Verdict
        ensures { MatchOption asked ((result ≡ verdict.Undecided) × (self.new ≡ self.old))
            (λ t. (result ≡ verdict.Later) × SettlesInTime W.contents t self.old self.new) }
    {
        let Some(tenant) = asked else {
            return Verdict::Undecided;
        };
        self.settle_in_time(tenant);
        Verdict::Later
    }

    // Settles a tenant by force, once all instances know the newest ring.
    fn settle_in_time(&mut self, tenant: TenantName)
        ensures { SettlesInTime W.contents tenant self.old self.new }
    {
        if behind(self.world).is_none() {
            self.settle(tenant);
        }
    }

    // Settles a tenant by force.
    fn settle(&mut self, tenant: TenantName)
        ensures { Settles W.contents tenant self.old self.new }
    {
        let event = Event::Force { tenant };
        let _ = self.tell(&event);
    }

    // Restarts the instance that is next, and has one go on to the next ring, where there is one.
    fn make_ready(&mut self) -> Result<(), AllocError>
        ensures ready { MakesReady W.contents result self.old self.new }
        ensures is_tick_due { self.new.is_tick_due ≡ self.old.is_tick_due }
        ensures under_way { SameUnderWay self.old self.new }
        ensures same { IsSameGateway self.old self.new }
    {
        self.restart_next()?;
        self.learn_next()
    }

    // Restarts the instance that is next, where one is.
    fn restart_next(&mut self) -> Result<(), AllocError>
        ensures restarts { RestartsNext W.contents result self.old self.new }
        ensures is_tick_due { self.new.is_tick_due ≡ self.old.is_tick_due }
        ensures under_way { SameUnderWay self.old self.new }
        ensures same { IsSameGateway self.old self.new }
    {
        let Some(instance) = fallen(self.world, &self.vain) else {
            return Ok(());
        };
        let event = Event::Restart { instance };
        self.tell(&event)?;
        let is_vain = self.world.cause(instance).is_some();
        note(&mut self.vain, instance, is_vain)
    }

    // The lowest instance that is behind goes on to the next ring, where one is behind.
    fn learn_next(&mut self) -> Result<(), AllocError>
        ensures learns { LearnsNext W.contents result self.old self.new }
        ensures is_tick_due { self.new.is_tick_due ≡ self.old.is_tick_due }
        ensures under_way { SameUnderWay self.old self.new }
        ensures same { IsSameGateway self.old self.new }
    {
        let Some(instance) = behind(self.world) else {
            return Ok(());
        };
        self.tell(&Event::Learn { instance })
    }

    /// Has an event happen that an operator asks for: an instance joins the ring or leaves it, goes down or is
    /// restarted, or a tenant is settled by force. Of instances that are up then no restart counts as in vain any
    /// more. Gives why it is refused, where it is; nothing changed then.
    ///
    /// # Errors
    /// Out of memory: the event happened, and of what was put out all but a first part is lost.
    pub fn operate(&mut self, event: &Event) -> Result<Option<Refused>, AllocError>
        ensures operates { Operates W.contents result event.now self.old self.new }
        ensures is_tick_due { self.new.is_tick_due ≡ self.old.is_tick_due }
        ensures under_way { SameUnderWay self.old self.new }
        ensures same { IsSameGateway self.old self.new }
    {
        if let Err(refused) = self.world.step(self.alloc, event) {
            return Ok(Some(refused));
        }
        pass_all(self.world, self.alloc, self.moment);
        let sorted = self.sort(None);
        forget_up(&mut self.vain, self.world);
        match sorted {
            Ok(_) => Ok(None),
            Err(error) => Err(error),
        }
    }

    // A reply to `GET /ready` lets the clock be told.
    fn note(&mut self, reply: &Octets)
        ensures is_tick_due { LetsTick self.old reply.now self.new }
        ensures rest { self.new ≡ record self.old { is_tick_due = self.new.is_tick_due } }
    {
        if *reply == self.ready {
            self.is_tick_due = true;
        }
    }
}

impl<W: AnyWorld> Host for Gateway<'_, W> {
    ghost use Rattle.am_gateway.specs.Gateway.{ClosesConnection, OpensConnection, TakesPiece};

    ghost opens = { OpensConnection W.contents };

    ghost takes = { TakesPiece W.contents };

    ghost closes = { ClosesConnection W.contents };

    // A connection is opened to the lowest instance that is up.
    fn open(&mut self, connection: u64) -> bool {
        let Some(instance) = serving(self.world) else {
            return false;
        };
        let event = Event::Open {
            connection: ConnectionId::new(connection),
            instance,
        };
        self.world.step(self.alloc, &event).is_ok()
    }

    // Where memory is refused, the connection is let go.
    fn take(&mut self, connection: u64, piece: &[u8]) -> Verdict {
        match self.take_piece(ConnectionId::new(connection), piece) {
            Ok(verdict) => verdict,
            Err(AllocError) => {
                self.close(connection);
                Verdict::Gone
            }
        }
    }

    fn close(&mut self, connection: u64) {
        let event = Event::Close {
            connection: ConnectionId::new(connection),
        };
        let _ = self.world.step(self.alloc, &event);
    }
}

impl<W: AnyWorld> Service for Gateway<'_, W> {
    ghost use Rattle.am_gateway.specs.Gateway.{BeginsCall, EndsCall, GivesUpCall, IsSameGateway, SameUnderWay};
    ghost use Rattle.am_gateway.specs.Gateway.{GoesOn, TellsWorld, WaitsTooMuch, notice_bytes};
    ghost use Rattle.am_gateway.specs.Serving.{has_quorum as has_quorum_in};

    type Name = Try;

    // As long as two instances are up.
    fn is_up(&self) -> bool
        ensures { result ≡ has_quorum_in (W.contents self.now.world.now).state }
    {
        has_quorum(self.world)
    }

    // The world takes no later moment than its last.
    fn set_moment(&mut self, moment: u64)
        ensures { self.new ≡ record self.old { moment = min moment last_moment } }
    {
        self.moment = moment.min(LAST_MOMENT);
    }

    // The world is told the moment where `GET /ready` was answered since it was last told. Before that an instance is
    // restarted that a fault stopped, and one goes on to the next ring, where there is one.
    fn tick(&mut self) -> Result<(), AllocError>
        ensures not_due { self.old.is_tick_due ≡ false → IsOk result × (self.new ≡ self.old) }
        ensures told { self.old.is_tick_due ≡ true →
            GoesOn W.contents result (record self.old { is_tick_due = false }) self.new }
        ensures is_tick_due { self.new.is_tick_due ≡ false }
        ensures under_way { SameUnderWay self.old self.new }
        ensures same { IsSameGateway self.old self.new }
    {
        if !self.is_tick_due {
            return Ok(());
        }
        self.is_tick_due = false;
        self.make_ready()?;
        let event = Event::Tick {
            moment: self.moment,
        };
        self.tell(&event)
    }

    fn next_reply(&mut self) -> Option<(u64, Vec<u8>)>
        ensures gives { IfSome result (λ given. self.old.replies.items
            ≡ record { connection = given.0; bytes = given.1.items } ∷ self.new.replies.items) }
        ensures none { IfNone result (self.old.replies.items ≡ []) }
        ensures stays { IfNone result (self.new.replies.items ≡ []) }
        ensures rest { self.new ≡ record self.old { replies = self.new.replies } }
    {
        let late = self.replies.pop_front()?;
        Some((late.connection.number(), late.bytes.into_vec()))
    }

    // Tenants take turns.
    fn next_notice(&mut self, free: usize) -> Option<Notice<Try>>
        ensures begins { IfSome result (λ notice. BeginsCall free notice self.old self.new) }
        ensures none { IfNone result ((t : List ℕ) → is_ready free t self.old.notices.lanes ≡ false) }
        ensures stays { IfNone result (self.new ≡ self.old) }
        ensures rest { self.new ≡ record self.old { notices = self.new.notices } }
    {
        let (_, notice) = self.notices.pop(free)?;
        Some(notice)
    }

    // Of the tenant of whom most bytes wait, the notice that waited longest.
    fn next_given_up(&mut self) -> Option<Notice<Try>>
        ensures over { IfSome result (λ notice. WaitsTooMuch notice self.old) }
        ensures gives_up { IfSome result (λ notice. GivesUpCall notice self.old self.new) }
        ensures none { IfNone result (WaitsWithin notice_bytes self.old.notices.lanes) }
        ensures stays { IfNone result (self.new ≡ self.old) }
        ensures rest { self.new ≡ record self.old { notices = self.new.notices } }
    {
        let (_, notice) = self.notices.give_up()?;
        Some(notice)
    }

    fn end_call(&mut self, name: Try, status: Option<u16>) -> Result<(), AllocError>
        ensures told { TellsWorld W.contents result (event.Outcome name.attempt name.tries self.old.moment status)
            self.old self.new }
        ensures under_way { EndsCall name.attempt.tenant self.old self.new }
        ensures is_tick_due { self.new.is_tick_due ≡ self.old.is_tick_due }
        ensures same { IsSameGateway self.old self.new }
    {
        self.notices.end(&name.attempt.tenant);
        let event = Event::Outcome {
            attempt: name.attempt,
            tries: name.tries,
            moment: self.moment,
            status,
        };
        self.tell(&event)
    }
}
