//! Messages that were sent.

ghost use Rattle.std.specs.Prelude.{◌≡◌, ◌+◌, [], true, false, nat_le, not, filter, ⊤};
ghost use Rattle.std.specs.Prelude.{IfNone, IfSome, OnErr, OnOk, if◌then◌else◌};
ghost use Rattle.std.specs.Ordering.{is_eq};
ghost use Rattle.std.specs.BTreeSet.{btree_set_len};
ghost use Rattle.std.specs.Option.{option_copied, option_map};
ghost use Rattle.am_messages.specs.Posted.{AreTimed, Forgets, Loses, Sends, has_lapse, is_over, lapse_cmp};
ghost use Rattle.am_messages.specs.Posted.{lost_at, pairs_of, posted_at, unlost};
ghost use Rattle.am_tenant.specs.Names.{same};
ghost use Rattle.am_messages.specs.declared.messages.Lapse.{Lapse};
ghost use Rattle.am_messages.specs.declared.name.MessageName.{MessageName};

use crate::name::MessageName;
use am_share::{ShareRefusal, Shared};
use am_tenant::TenantName;
use am_text::{Failure, Moment};
use am_wire::Message;
use std::alloc::{AllocError, Global};
use std::collections::{BTreeMap, BTreeSet};
use std::marker::Model;

/// How long a message is there to be delivered, in milliseconds.
pub const MESSAGE_LIFE: u64 = 60_000;

// A message that was sent, and when.
#[derive(Drop)]
pub struct Posted {
    pub message: Message,
    pub sent_at: Moment,
}

// When the message of a name is lost.
#[derive(Clone, Copy, PartialEq, Eq, PartialOrd, Ord)]
pub struct Lapse {
    pub at: Moment,
    pub name: MessageName,
}

/// The messages of all tenants that were sent and aren't lost, by their names.
pub struct Messages {
    sent: BTreeMap<MessageName, Posted>,
    lapses: BTreeSet<Lapse>,
}

// Written out, so that a crate which owns one need not prove anew how its parts are dropped.
impl Drop for Messages {
    fn drop(self) {
        let Messages { sent, lapses } = self;
        drop(sent);
        drop(lapses);
    }
}

impl Model for Messages {
    ghost use Rattle.std.specs.Prelude.{List};
    ghost use Rattle.am_messages.specs.declared.messages.Posted.{Posted};
    ghost use Rattle.am_messages.specs.declared.name.MessageName.{MessageName};

    ghost Value = { List (MessageName × Posted) };

    ghost use Rattle.am_messages.specs.Posted.{AreTimed};

    ghost view = { λ messages. messages.sent.entries };

    ghost invariant = { λ messages. AreTimed messages.sent.entries messages.lapses };
}

impl Messages {
    /// No message was sent.
    pub fn new(alloc: Global) -> Messages
        ensures { result ≡ [] }
    {
        Messages {
            sent: BTreeMap::new(alloc),
            lapses: BTreeSet::new(alloc),
        }
    }

    /// A message was sent at this moment. One of its name that was sent before is lost.
    ///
    /// # Errors
    /// Out of memory. Nothing changes.
    pub fn send(&mut self, message: Message, sent_at: Moment) -> Result<(), AllocError>
        ensures sent { OnOk result (Sends message sent_at self.old self.new) }
        ensures err { OnErr result ((name : MessageName) → posted_at name self.new ≡ posted_at name self.old) }
    {
        let at = sent_at.plus(MESSAGE_LIFE);
        let name = MessageName::of(&message);
        self.lapses.insert(Lapse { at, name })?;
        put(&mut self.sent, message, sent_at)
    }

    /// The message of a name, where it was sent and isn't lost.
    pub fn find(&self, name: &MessageName) -> Option<&Message>
        ensures { option_copied result ≡ option_map (λ posted. posted.message) (posted_at name.now self.now) }
    {
        match self.sent.get(name) {
            Some(posted) => Some(&posted.message),
            None => None,
        }
    }

    /// Loses the message of a name.
    pub fn lose(&mut self, name: &MessageName)
        ensures { Loses name.now self.old self.new }
    {
        if let Some(at) = take(&mut self.sent, name) {
            self.lapses.remove(&Lapse { at, name: *name });
        }
    }

    /// Loses the messages that were sent [`MESSAGE_LIFE`] or more before the moment. It takes no memory, and looks at
    /// no more than what it loses and what is lost next.
    pub fn lose_before(&mut self, now: Moment)
        ensures { (name : MessageName) → posted_at name self.new ≡ unlost now (posted_at name self.old) }
    {
        while let Some(lapse) = pop_lapse(&mut self.lapses, now) {
            forget(&mut self.sent, &lapse);
        }
    }
}

impl Shared for Messages {
    ghost use Rattle.am_messages.specs.declared.messages.Posted.{Posted};

    ghost Thing = { Posted };

    ghost pairs = { pairs_of };

    ghost stands = { λ _. ⊤ };

    ghost refuses = { ⊥ };

    fn drop_tenant(&mut self, tenant: &TenantName) -> Result<(), Failure<ShareRefusal>> {
        leave(&mut self.sent, &mut self.lapses, tenant);
        Ok(())
    }
}

// Loses the messages of a tenant.
fn leave(
    sent: &mut BTreeMap<MessageName, Posted>,
    lapses: &mut BTreeSet<Lapse>,
    tenant: &TenantName,
)
    requires { AreTimed sent.old.entries lapses.old }
    ensures left { sent.new.entries ≡ filter (λ e. not (same e.0.tenant tenant.now)) sent.old.entries }
    ensures timed { AreTimed sent.new.entries lapses.new }
{
    lapses.retain(|lapse| lapse.name.tenant != *tenant);
    sent.retain(|name, _| name.tenant != *tenant);
}

// Takes the first lapse, where it has come.
fn pop_lapse(lapses: &mut BTreeSet<Lapse>, now: Moment) -> Option<Lapse>
    ensures none { IfNone result ((lapse : Lapse) → has_lapse lapses.old lapse ≡ true → nat_le lapse.at now ≡ false) }
    ensures stay { IfNone result (lapses.new.keys ≡ lapses.old.keys) }
    ensures due { IfSome result (λ first. nat_le first.at now ≡ true) }
    ensures others { IfSome result (λ first. (lapse : Lapse) → has_lapse lapses.new lapse
        ≡ (if is_eq (lapse_cmp first lapse) then false else has_lapse lapses.old lapse)) }
    ensures fewer { IfSome result (λ _. btree_set_len lapses.new + 1 ≡ btree_set_len lapses.old) }
{
    match lapses.first() {
        None => None,
        Some(first) => {
            if first.at <= now {
                lapses.pop_first()
            } else {
                None
            }
        }
    }
}

// Loses the message of a lapse's name, where that is when it is lost.
fn forget(sent: &mut BTreeMap<MessageName, Posted>, lapse: &Lapse)
    ensures { Forgets lapse.now sent.old.entries sent.new.entries }
{
    if is_over(sent, lapse) {
        sent.remove(&lapse.name);
    }
}

// Whether there is a message of a lapse's name, and that is when it is lost.
fn is_over(sent: &BTreeMap<MessageName, Posted>, lapse: &Lapse) -> bool
    ensures { result ≡ is_over lapse.now.at (posted_at lapse.now.name sent.now.entries) }
{
    match sent.get(&lapse.name) {
        Some(posted) => posted.sent_at.plus(MESSAGE_LIFE) == lapse.at,
        None => false,
    }
}

// Puts a message in the place of that of its name, if there is one.
fn put(
    sent: &mut BTreeMap<MessageName, Posted>,
    message: Message,
    sent_at: Moment,
) -> Result<(), AllocError>
    ensures put { OnOk result (Sends message sent_at sent.old.entries sent.new.entries) }
    ensures err { OnErr result (sent.new.entries ≡ sent.old.entries) }
{
    let name = MessageName::of(&message);
    sent.insert(name, Posted { message, sent_at })?;
    Ok(())
}

// Takes the message of a name out, and gives when it would be lost.
fn take(sent: &mut BTreeMap<MessageName, Posted>, name: &MessageName) -> Option<Moment>
    ensures at { result ≡ option_map lost_at (posted_at name.now sent.old.entries) }
    ensures taken { Loses name.now sent.old.entries sent.new.entries }
{
    match sent.remove(name) {
        Some(posted) => Some(posted.sent_at.plus(MESSAGE_LIFE)),
        None => None,
    }
}
