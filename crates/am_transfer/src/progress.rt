//! How far an instance has come with one tenant.

ghost use Rattle.std.specs.Prelude.{◌≡◌, true, false, [], IfOk, OnOk, unwrap_or, option_map, if◌then◌else◌};
ghost use Rattle.std.specs.BTreeMap.{IsOrdered};
ghost use Rattle.std.specs.List.{list_all};
ghost use Rattle.std.specs.Option.{option_map_or};
ghost use Rattle.am_ring.specs.Instances.{is_among};
ghost use Rattle.am_transfer.specs.Timers.{AreCancelled, told_to};
ghost use Rattle.am_transfer.specs.Peers.{at_number, at_peer, peer_cmp, with_number, with_peer};
ghost use Rattle.am_transfer.specs.Pieces.{SentList as List_sent, first_sent, named_at, pieces_to_send, reach_of};
ghost use Rattle.am_transfer.specs.Progress.{after_got, again_to, ask_due, due_of, first_asked, is_asking, is_got};
ghost use Rattle.am_transfer.specs.Progress.{nothing_yet, on, sent_again, to_ask};
ghost use Rattle.am_transfer.specs.Settling.{Push as Pushed, answered, goes_to, has_push, in_new_epoch, is_merged};
ghost use Rattle.am_transfer.specs.Settling.{lacking, list_for, named_in, now_settled, place_behind, pushed};
ghost use Rattle.am_transfer.specs.Settling.{spans_from, taken, to_push, with_span, without_push};

use crate::again::Again;
use crate::peer::Peer;
use crate::piece::Piece;
use crate::refresh::{cancel, cancel_all};
use crate::sent_list::SentList;
use crate::spans::{Span, Spans};
use am_item::Held;
use am_ring::Instance;
use am_tenant::TenantName;
use am_text::{Listed, Moment};
use am_timer::TimerQueue;
use std::alloc::{AllocError, Global};
use std::collections::BTreeMap;
use std::marker::Model;

/// A State that is pushed and an Ask are sent again so many milliseconds after they were last sent.
pub const AGAIN_AFTER: u64 = 10_000;

/// A State that is sent again and again.
#[derive(Clone, Copy)]
pub struct Push {
    /// The incarnation of its receiver.
    pub incarnation: u32,
    /// When it was last sent.
    pub last: Moment,
}

/// How far an instance has come in holding what a tenant's other replicas hold, and what it sends them so that they do.
#[derive(Drop)]
pub struct Progress {
    has_settled: bool,
    came: BTreeMap<Peer, Spans>,
    lists: BTreeMap<Peer, SentList>,
    pushes: BTreeMap<Instance, Push>,
    asked_at: Option<Moment>,
    asked: Vec<Instance>,
}

impl Model for Progress {
    ghost use Rattle.std.specs.BTreeMap.{IsOrdered};
    ghost use Rattle.std.specs.Ordering.{nat_cmp};
    ghost use Rattle.am_transfer.specs.Peers.{peer_cmp};
    ghost use Rattle.am_transfer.specs.Progress.{Progress};

    ghost Value = { Progress };

    ghost view = { λ p. record {
      settling = record {
        has_settled = p.has_settled;
        came = p.came.entries;
        lists = p.lists.entries;
        pushes = p.pushes.entries;
        asked_at = p.asked_at;
      };
      asked = p.asked.items;
    } };

    ghost invariant = { λ p. IsOrdered peer_cmp p.came × IsOrdered peer_cmp p.lists × IsOrdered nat_cmp p.pushes };
}

impl Progress {
    /// Nothing came and nothing was sent.
    pub fn new(alloc: Global) -> Progress
        ensures { result ≡ nothing_yet }
    {
        Progress {
            has_settled: false,
            came: BTreeMap::new(alloc),
            lists: BTreeMap::new(alloc),
            pushes: BTreeMap::new(alloc),
            asked_at: None,
            asked: Vec::new(alloc),
        }
    }

    /// Whether the instance became settled in its incarnation.
    pub fn has_settled(&self) -> bool
        ensures { result ≡ self.now.settling.has_settled }
    {
        self.has_settled
    }

    /// It has become settled.
    pub fn settle(&mut self)
        ensures { self.new ≡ on now_settled self.old }
    {
        self.has_settled = true;
        self.asked_at = None;
    }

    /// In a new epoch what came, what was sent and what was asked is forgotten.
    pub fn turn(&mut self)
        ensures { self.new ≡ on in_new_epoch self.old }
    {
        self.came.clear();
        self.lists.clear();
        self.pushes.clear();
        self.asked_at = None;
    }

    /// To which incarnation of an instance the State now goes, whose present one is this.
    pub fn goes_to(&self, to: Instance, present: u32) -> u32
        ensures { result ≡ goes_to to present self.now.settling }
    {
        match self.pushes.get(&to) {
            Some(push) => push.incarnation,
            None => present,
        }
    }

    // Whether a State is pushed to an instance.
    #[tactic(auto, using(crate::proofs::Maps::number_found))]
    fn has_push(&self, to: Instance) -> bool
        ensures { result ≡ has_push to self.now.settling }
    {
        self.pushes.contains_key(&to)
    }

    /// No State is pushed to the instance any more.
    pub fn end_push(&mut self, to: Instance)
        ensures { self.new ≡ on (without_push to) self.old }
    {
        self.pushes.remove(&to);
    }

    /// A State is pushed: what goes out now, of the list that was cut when it was first sent.
    pub fn push(
        &mut self,
        alloc: Global,
        receiver: Peer,
        moment: Moment,
        held: &Held,
    ) -> Result<Vec<Piece>, AllocError>
        ensures settling { OnOk result (self.new ≡ on (pushed receiver moment held.now) self.old) }
        ensures pieces { IfOk result (λ pieces. pieces.items
            ≡ pieces_to_send false (list_for receiver held.now self.old.settling)) }
    {
        let to = receiver.instance;
        let push = Push {
            incarnation: receiver.incarnation,
            last: moment,
        };
        let pieces = send(alloc, receiver, &mut self.lists, false, held)?;
        self.pushes.insert(to, push)?;
        Ok(pieces)
    }

    /// One who asked is answered: what goes out now, of the list that was cut when it was first sent.
    pub fn answer(
        &mut self,
        alloc: Global,
        asker: Peer,
        held: &Held,
    ) -> Result<Vec<Piece>, AllocError>
        ensures settling { OnOk result (self.new ≡ on (answered asker held.now) self.old) }
        ensures pieces { IfOk result (λ pieces. pieces.items
            ≡ pieces_to_send true (list_for asker held.now self.old.settling)) }
    {
        send(alloc, asker, &mut self.lists, true, held)
    }

    /// A Got named a place of the list that was sent to a receiver; the end ends the push. It takes no memory.
    pub fn name(&mut self, receiver: Peer, place: usize)
        ensures { self.new ≡ on (named_in receiver place) self.old }
    {
        let to = receiver.instance;
        if name_in(&mut self.lists, receiver, place) {
            self.end_push(to);
        }
    }

    /// A Got came, that names a place, from an instance whose present incarnation is this. Answers whether it counts:
    /// it does where it comes from the incarnation to which the State now goes. It takes no memory.
    pub fn got(&mut self, from: Peer, present: u32, place: usize) -> bool
        ensures counts { result ≡ is_got from present self.old.settling }
        ensures named { self.new ≡ on (after_got from present place) self.old }
    {
        let counts = from.incarnation == self.goes_to(from.instance, present);
        if counts {
            self.name(from, place);
        }
        counts
    }

    /// A piece of a State came: the place behind all that came of it without a gap. Where the States of all these
    /// others came, the instance is settled.
    pub fn take(
        &mut self,
        alloc: Global,
        sender: Peer,
        place: u32,
        span: Span,
        others: &[Instance],
    ) -> Result<u64, AllocError>
        ensures settling { OnOk result (self.new ≡ on (taken sender place span others.now) self.old) }
        ensures place { IfOk result (λ behind. behind ≡ place_behind sender place span self.old.settling) }
    {
        let behind = self.add(alloc, sender, place, span)?;
        if self.has_all(others) {
            self.settle();
        }
        Ok(behind)
    }

    // A piece of a State came: the place behind all that came of it without a gap.
    fn add(
        &mut self,
        alloc: Global,
        sender: Peer,
        place: u32,
        span: Span,
    ) -> Result<u64, AllocError>
        ensures settling { OnOk result (self.new ≡ on (with_span sender place span) self.old) }
        ensures place { IfOk result (λ behind. behind
            ≡ (reach_of (with_number place span (spans_from sender self.old.settling))).place) }
    {
        let behind = put_span(alloc, &mut self.came, sender, place, span)?;
        Ok(behind)
    }

    // Whether the States of all these instances came.
    fn has_all(&self, others: &[Instance]) -> bool
        ensures { result ≡ list_all (is_merged self.now.settling) others.now }
    {
        others.iter().all(|other| self.is_merged(*other))
    }

    /// Whether the complete State of an instance was merged, in whichever incarnation it sent that.
    pub fn is_merged(&self, instance: Instance) -> bool
        ensures { result ≡ is_merged self.now.settling instance }
    {
        self.came.iter().any(|(sender, spans)| sender.instance == instance
            && spans.reach().is_complete)
    }

    /// The instances of these whose State is lacking.
    pub fn lacking(&self, alloc: Global, others: &[Instance]) -> Result<Vec<Instance>, AllocError>
        ensures { IfOk result (λ left. left.items ≡ lacking others.now self.now.settling) }
    {
        let mut left = Vec::new(alloc);
        for other in others {
            if !self.is_merged(*other) {
                left.push(*other)?;
            }
        }
        Ok(left)
    }

    /// Whom it asks first: those of the others whose State is lacking, where it hasn't asked in this epoch.
    pub fn ask_first(
        &mut self,
        alloc: Global,
        moment: Moment,
        others: &[Instance],
    ) -> Result<Vec<Instance>, AllocError>
        ensures receivers { IfOk result (λ receivers. receivers.items ≡ to_ask others.now self.old.settling) }
        ensures asked { OnOk result (self.new ≡ first_asked moment others.now self.old) }
    {
        if self.asked_at.is_some() {
            return Ok(Vec::new(alloc));
        }
        let receivers = self.lacking(alloc, others)?;
        if receivers.is_empty() {
            return Ok(receivers);
        }
        self.asked = Vec::from_slice(alloc, others)?;
        self.asked_at = Some(moment);
        Ok(receivers)
    }

    /// What is sent again to an instance, now: a State that is pushed, or else an Ask, or nothing.
    pub fn tick(
        &mut self,
        alloc: Global,
        to: Instance,
        moment: Moment,
        held: &Held,
    ) -> Result<Again, AllocError>
        ensures again { IfOk result (λ again. again ≡ again_to to held.now self.old) }
        ensures sent { OnOk result (self.new ≡ sent_again to moment held.now self.old) }
    {
        if let Some(incarnation) = self.pushed_to(to) {
            let receiver = Peer {
                instance: to,
                incarnation,
            };
            let pieces = self.push(alloc, receiver, moment, held)?;
            return Ok(Again::State(incarnation, Listed::from_vec(pieces)));
        }
        if !self.is_asking(to) {
            return Ok(Again::Nothing);
        }
        self.asked_at = Some(moment);
        Ok(Again::Ask)
    }

    // To which incarnation of an instance a State is pushed.
    #[tactic(auto, using(crate::proofs::Maps::number_found))]
    fn pushed_to(&self, to: Instance) -> Option<u32>
        ensures { result ≡ option_map (λ (push : Pushed). push.incarnation) (at_number to self.now.settling.pushes) }
    {
        let push = self.pushes.get(&to)?;
        Some(push.incarnation)
    }

    // Whether an Ask is sent again to an instance.
    fn is_asking(&self, to: Instance) -> bool
        ensures { result ≡ is_asking to self.now }
    {
        self.asked_at.is_some() && is_among(to, &self.asked) && !self.is_merged(to)
    }

    /// Whom it asked when it last asked.
    pub fn asked(&self, alloc: Global) -> Result<Vec<Instance>, AllocError>
        ensures { IfOk result (λ asked. asked.items ≡ self.now.asked) }
    {
        let asked = Vec::from_slice(alloc, &self.asked)?;
        Ok(asked)
    }

    /// Cancels the timers of all that may be sent again for the tenant. It takes no memory.
    pub fn cancel(&self, timers: &mut TimerQueue, tenant: &TenantName)
        ensures { AreCancelled tenant.now (told_to self.now) timers.old.timers timers.new.timers }
    {
        cancel_all(timers, tenant, &self.asked);
        for instance in self.pushes.keys() {
            cancel(timers, tenant, *instance);
        }
    }

    /// When a State, or an Ask, is sent again to an instance, if it is.
    #[tactic(auto, using(crate::proofs::Maps::number_found), unfolding(crate::specs::Progress::due_of))]
    pub fn due_of(&self, instance: Instance) -> Option<Moment>
        ensures { result ≡ due_of instance self.now }
    {
        match self.pushes.get(&instance) {
            Some(push) => Some(push.last.plus(AGAIN_AFTER)),
            None => self.ask_due(instance),
        }
    }

    // When an Ask is sent again to an instance, as long as its State is lacking.
    fn ask_due(&self, instance: Instance) -> Option<Moment>
        ensures { result ≡ ask_due self.now.settling.asked_at (is_among instance self.now.asked)
            (is_merged self.now.settling instance) }
    {
        let last = self.asked_at?;
        if is_among(instance, &self.asked) && !self.is_merged(instance) {
            Some(last.plus(AGAIN_AFTER))
        } else {
            None
        }
    }

    /// To whom a settled replica that holds an item begins a push in a new epoch: those of the others that weren't
    /// among the three before, and those to whom a push ran that no Got had ended.
    pub fn to_push(
        &self,
        alloc: Global,
        others: &[Instance],
        before: &[Instance],
    ) -> Result<Vec<Instance>, AllocError>
        ensures { IfOk result (λ receivers. receivers.items ≡ to_push others.now before.now self.now.settling) }
    {
        let mut receivers = Vec::new(alloc);
        for other in others {
            if !is_among(*other, before) || self.has_push(*other) {
                receivers.push(*other)?;
            }
        }
        Ok(receivers)
    }
}

// Whether the instance is one of these.
fn is_among(instance: Instance, others: &[Instance]) -> bool
    ensures { result ≡ is_among instance others.now }
{
    others.iter().any(|other| instance == *other)
}

// What goes out to a receiver of the list that was sent to it, or else of what is held now.
fn send(
    alloc: Global,
    receiver: Peer,
    lists: &mut BTreeMap<Peer, SentList>,
    is_asked: bool,
    held: &Held,
) -> Result<Vec<Piece>, AllocError>
    requires { IsOrdered peer_cmp lists.old }
    ensures pieces { IfOk result (λ pieces. pieces.items
        ≡ pieces_to_send is_asked (unwrap_or (at_peer receiver lists.old.entries) (first_sent held.now))) }
    ensures lists { OnOk result (lists.new.entries
        ≡ with_peer receiver (unwrap_or (at_peer receiver lists.old.entries) (first_sent held.now)) lists.old.entries) }
    ensures ordered { IsOrdered peer_cmp lists.new }
{
    if let Some(list) = lists.get(&receiver) {
        let pieces = list.to_send(alloc, is_asked)?;
        return Ok(pieces);
    }
    let list = SentList::new(alloc, held)?;
    let pieces = list.to_send(alloc, is_asked)?;
    lists.insert(receiver, list)?;
    Ok(pieces)
}

// A Got names a place of the list that was sent to a receiver. Answers whether its end was named.
fn name_in(lists: &mut BTreeMap<Peer, SentList>, receiver: Peer, place: usize) -> bool
    ensures lists { lists.new.entries
        ≡ unwrap_or (option_map (λ (list : List_sent). with_peer receiver (named_at place list) lists.old.entries)
        (at_peer receiver lists.old.entries)) lists.old.entries }
    ensures ended { result
        ≡ option_map_or (λ (list : List_sent). (named_at place list).is_ended)
        (at_peer receiver lists.old.entries) false }
    ensures ordered { IsOrdered peer_cmp lists.new }
{
    let Some(list) = lists.get_mut(&receiver) else {
        return false;
    };
    list.name(place);
    list.is_ended()
}

// One more piece came from a sender: the place behind all that came without a gap.
fn put_span(
    alloc: Global,
    came: &mut BTreeMap<Peer, Spans>,
    sender: Peer,
    place: u32,
    span: Span,
) -> Result<u64, AllocError>
    ensures came { OnOk result (came.new.entries
        ≡ with_peer sender (with_number place span (unwrap_or (at_peer sender came.old.entries) [])) came.old.entries) }
    ensures place { IfOk result (λ behind. behind
        ≡ (reach_of (with_number place span (unwrap_or (at_peer sender came.old.entries) []))).place) }
    ensures ordered { IsOrdered peer_cmp came.new }
{
    let spans = came.entry(sender)?.or_insert(Spans::new(alloc));
    spans.put(place, span)?;
    Ok(spans.reach().place)
}
