//! The open attempts of one tenant.
ghost use Rattle.std.specs.Prelude.{◌≡◌, ◌⊎◌, ◌↔◌, ◌+◌, ◌^◌, ◌<◌, ◌≤◌, ℕ, None, IfOk, IfSome, IfNone, IsErrOf, OnOk, OnErr, if◌then◌else◌};
ghost use Rattle.std.specs.BTreeMap.{keys};
ghost use Rattle.std.specs.List.Sorted.{IsStrictlySortedBy};
ghost use Rattle.std.specs.Option.{option_map};
ghost use Rattle.std.specs.Ordering.{is_eq, nat_cmp};
ghost use Rattle.am_outlet.specs.Attempts.{AreTries, added, after_outcome, after_tick, attempt_at, awaits_outcome, cleared, is_due, next_of, no_attempts, number_with, outcome_of, sending_of, started, tried, with_tries, without, without_key, without_number};

use crate::attempt::{Attempt, Notice, Sending};
use crate::outcome::{Outcome, awaits, is_delivered, next_due};
use am_item::{EntryKey, Fault, GREATEST_COUNT};
use am_text::Moment;
use std::alloc::{AllocError, Global};
use std::collections::BTreeMap;
use std::marker::Model;

/// A tenant's open attempts, and how many it has had.
#[derive(Drop)]
pub struct Desk {
    used: u64,
    attempts: BTreeMap<u64, Attempt>,
    numbers: BTreeMap<EntryKey, u64>,
}

impl Model for Desk {
    ghost use Rattle.am_outlet.specs.Attempts.{Desk, IsKept};

    ghost Value = { Desk };

    ghost view = { λ desk. record { used = desk.used; open_ones = desk.attempts.entries } };

    ghost invariant = { λ desk. IsKept desk.used desk.attempts.entries desk.numbers.entries };
}

impl Desk {
    // A desk of a tenant that has had no attempt.
    pub fn new(alloc: Global) -> Desk
        ensures { result ≡ no_attempts }
    {
        Desk {
            used: 0,
            attempts: BTreeMap::new(alloc),
            numbers: BTreeMap::new(alloc),
        }
    }

    // Closes all attempts. Their numbers stay used.
    pub fn clear(&mut self)
        ensures { self.new ≡ cleared self.old }
    {
        self.attempts.clear();
        self.numbers.clear();
    }

    // Whether the outcome of this try of an attempt is awaited.
    pub fn is_awaited(&self, number: u64, tries: u8) -> bool
        ensures { result ≡ awaits_outcome tries (attempt_at number self.now.open_ones) }
    {
        match self.attempts.get(&number) {
            Some(attempt) => awaits(tries, attempt),
            None => false,
        }
    }

    // Closes the attempt of this number.
    fn remove(&mut self, number: u64) -> Option<Attempt>
        ensures attempt { result ≡ attempt_at number self.old.open_ones }
        ensures attempts { self.new.open_ones ≡ without_number number self.old.open_ones }
        ensures used { self.new.used ≡ self.old.used }
    {
        let attempt = self.attempts.remove(&number)?;
        self.numbers.remove(&attempt.notice.key);
        Some(attempt)
    }

    // The number of the attempt of this key.
    fn number_of(&self, key: &EntryKey) -> Option<u64>
        ensures number { result ≡ number_with key.now self.now.open_ones }
        ensures some { IfSome result (λ number. without_key key.now self.now.open_ones ≡ without_number number self.now.open_ones) }
        ensures none { IfNone result (without_key key.now self.now.open_ones ≡ self.now.open_ones) }
    {
        self.numbers.get(key).copied()
    }

    // Sets how many tries the attempt of this number has had, and when it is tried again.
    fn change(&mut self, number: u64, tries: u8, again: Option<Moment>)
        requires { AreTries tries again }
        ensures attempts { self.new.open_ones ≡ with_tries number tries again self.old.open_ones }
        ensures used { self.new.used ≡ self.old.used }
    {
        set_tries(&mut self.attempts, number, tries, again);
    }

    // Opens an attempt with the next number, where none has its key.
    fn add(&mut self, key: EntryKey, notice: Notice) -> Result<(), AllocError>
        requires key { key ≡ notice.key }
        requires absent { number_with key self.old.open_ones ≡ None }
        requires room { self.old.used < 2 ^ 62 }
        ensures added { OnOk result (self.new ≡ added notice self.old) }
        ensures err { OnErr result (self.new ≡ self.old) }
    {
        let number = self.used + 1;
        self.numbers.insert(key, number)?;
        let attempt = Attempt {
            notice,
            tries: 1,
            again: None,
        };
        if let Err(refused) = self.attempts.insert(number, attempt) {
            self.numbers.remove(&refused.value.1.notice.key);
            return Err(AllocError);
        }
        self.used = number;
        Ok(())
    }

    // Closes the attempt of this key, if there is one, and gives its number.
    pub fn drop_key(&mut self, key: &EntryKey) -> Option<u64>
        ensures number { result ≡ number_with key.now self.old.open_ones }
        ensures one { IfSome result (λ number. without_key key.now self.old.open_ones ≡ without_number number self.old.open_ones) }
        ensures none { IfNone result (without_key key.now self.old.open_ones ≡ self.old.open_ones) }
        ensures desk { self.new ≡ without key.now self.old }
    {
        let number = self.number_of(key)?;
        self.remove(number);
        Some(number)
    }

    // Opens an attempt in the place of that of its key, and gives its first try.
    pub fn start(&mut self, alloc: Global, notice: Notice) -> Result<Sending, Fault>
        ensures started { OnOk result (self.new ≡ started notice self.old) }
        ensures sending { IfOk result (λ sending. sending ≡ sending_of (self.old.used + 1) 1 notice) }
        ensures fault { IsErrOf result Fault.CountsExhausted ↔ (2 ^ 62 ≤ self.old.used) }
        ensures no_pattern { IsErrOf result Fault.PatternNotBuilt → ⊥ }
        ensures no_store { IsErrOf result Fault.StoreRefused → ⊥ }
        ensures err { OnErr result ((self.new ≡ self.old) ⊎ (self.new ≡ without notice.key self.old)) }
    {
        if self.used >= GREATEST_COUNT {
            return Err(Fault::CountsExhausted);
        }
        let sending = Sending::new(alloc, self.used + 1, 1, &notice)?;
        let key = copy_key(alloc, &notice.key)?;
        self.drop_key(&key);
        self.add(key, notice)?;
        Ok(sending)
    }

    // Takes the outcome of a try.
    pub fn outcome(
        &mut self,
        number: u64,
        tries: u8,
        moment: Moment,
        status: Option<u16>,
    ) -> Outcome
        ensures outcome { result ≡ outcome_of number tries moment status self.old.open_ones }
        ensures desk { self.new ≡ after_outcome number tries moment status self.old }
    {
        let awaited = self
            .attempts
            .get(&number)
            .filter(|attempt| awaits(tries, attempt))
            .is_some();
        if !awaited {
            return Outcome::NotOpen;
        }
        if is_delivered(status) {
            return match self.remove(number) {
                Some(attempt) => Outcome::Delivered(attempt.notice),
                None => Outcome::NotOpen,
            };
        }
        match next_due(tries, moment, status) {
            Some(due) => {
                self.change(number, tries, Some(due));
                Outcome::Again(due)
            }
            None => {
                self.remove(number);
                Outcome::GivenUp
            }
        }
    }

    // The next try of an attempt, where it is due.
    pub fn tick(
        &mut self,
        alloc: Global,
        number: u64,
        now: Moment,
    ) -> Result<Option<Sending>, AllocError>
        ensures sending { IfOk result (λ sending. sending ≡ next_of number now self.old) }
        ensures desk { OnOk result (self.new ≡ after_tick number now self.old) }
        ensures err { OnErr result (self.new ≡ self.old) }
    {
        let Some(attempt) = self.attempts.get(&number) else {
            return Ok(None);
        };
        if !is_due(attempt, now) {
            return Ok(None);
        }
        let tries = attempt.tries + 1;
        let sending = Sending::new(alloc, number, tries, &attempt.notice)?;
        self.change(number, tries, None);
        Ok(Some(sending))
    }
}

// Sets how many tries the attempt of this number has had, and when it is tried again.
fn set_tries(attempts: &mut BTreeMap<u64, Attempt>, number: u64, tries: u8, again: Option<Moment>)
    requires { IsStrictlySortedBy nat_cmp (keys attempts.old) }
    ensures attempts { attempts.new.entries ≡ with_tries number tries again attempts.old.entries }
    ensures each { (q : ℕ) → attempt_at q attempts.new.entries ≡
        (if is_eq (nat_cmp number q) then option_map (tried tries again) (attempt_at number attempts.old.entries) else attempt_at q attempts.old.entries) }
    ensures rising { IsStrictlySortedBy nat_cmp (keys attempts.new) }
{
    if let Some(attempt) = attempts.get_mut(&number) {
        attempt.tries = tries;
        attempt.again = again;
    }
}

// Whether the next try of the attempt is due.
fn is_due(attempt: &Attempt, now: Moment) -> bool
    ensures { result ≡ is_due now attempt.now.again }
{
    match attempt.again {
        None => false,
        Some(due) => due <= now,
    }
}

fn copy_key(alloc: Global, key: &EntryKey) -> Result<EntryKey, AllocError>
    ensures { IfOk result (λ copy. copy ≡ key.now) }
{
    Ok(EntryKey {
        receiver: key.receiver.copy(alloc)?,
        group: key.group.copy(alloc)?,
        webhook: key.webhook,
    })
}
