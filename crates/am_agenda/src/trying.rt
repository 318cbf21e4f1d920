//! The timers of attempts' next tries.

ghost use Rattle.std.specs.Prelude.{◌≡◌, ℕ, List, Some, None, IfNone, IfOk, IfSome, OnErr, OnOk, is_some};
ghost use Rattle.std.specs.Prelude.{if◌then◌else◌};
ghost use Rattle.am_tenant.specs.Names.{same};
ghost use Rattle.am_outlet.specs.Attempts.{after_outcome, after_tick, next_of, outcome_of, without, without_key};
ghost use Rattle.am_outlet.specs.Attempts.{without_number};
ghost use Rattle.am_outlet.specs.Desks.{desk_of};
ghost use Rattle.am_agenda.specs.Planned.{due_after, with_retry, without_retry};

use crate::naming::retry_name;
use am_item::EntryKey;
use am_outlet::{Attempts, Outcome, Sending};
use am_tenant::TenantName;
use am_text::Moment;
use am_timer::{Timer, TimerQueue};
use std::alloc::{AllocError, Global};

/// Closes the attempt of a key, if the tenant has one open, and gives its number.
pub fn drop_attempt(
    attempts: &mut Attempts,
    timers: &mut TimerQueue,
    tenant: &TenantName,
    key: &EntryKey,
) -> Option<u64>
    ensures each { (t : List ℕ) → desk_of t attempts.new
        ≡ (if same t tenant.now then without key.now (desk_of t attempts.old) else desk_of t attempts.old) }
    ensures one { IfSome result (λ number. without_key key.now (desk_of tenant.now attempts.old).open_ones
        ≡ without_number number (desk_of tenant.now attempts.old).open_ones) }
    ensures none { IfNone result (without_key key.now (desk_of tenant.now attempts.old).open_ones
        ≡ (desk_of tenant.now attempts.old).open_ones) }
    ensures timers { timers.new.timers ≡ without_retry tenant.now result timers.old.timers }
{
    let number = attempts.drop_key(tenant, key)?;
    timers.cancel(&retry_name(tenant, number));
    Some(number)
}

/// Takes the outcome of a try.
pub fn take_outcome(
    alloc: Global,
    attempts: &mut Attempts,
    timers: &mut TimerQueue,
    tenant: &TenantName,
    number: u64,
    tries: u8,
    moment: Moment,
    status: Option<u16>,
) -> Result<Outcome, AllocError>
    ensures outcome { IfOk result (λ outcome. outcome
        ≡ outcome_of number tries moment status (desk_of tenant.now attempts.old).open_ones) }
    ensures each { (t : List ℕ) → desk_of t attempts.new
        ≡ (if same t tenant.now then after_outcome number tries moment status (desk_of t attempts.old)
        else desk_of t attempts.old) }
    ensures timers { IfOk result (λ outcome. timers.new.timers
        ≡ with_retry tenant.now number (due_after outcome) timers.old.timers) }
{
    let outcome = attempts.outcome(tenant, number, tries, moment, status);
    if let Outcome::Again(due) = &outcome {
        let name = retry_name(tenant, number);
        timers.set(alloc, Timer { due: *due, name })?;
    }
    Ok(outcome)
}

/// The next try of an attempt, where it is due. An error changes nothing.
pub fn try_again(
    alloc: Global,
    attempts: &mut Attempts,
    timers: &mut TimerQueue,
    tenant: &TenantName,
    number: u64,
    now: Moment,
) -> Result<Option<Sending>, AllocError>
    ensures sending { IfOk result (λ sending. sending ≡ next_of number now (desk_of tenant.now attempts.old)) }
    ensures each { OnOk result ((t : List ℕ) → desk_of t attempts.new
        ≡ (if same t tenant.now then after_tick number now (desk_of t attempts.old) else desk_of t attempts.old)) }
    ensures timers { IfOk result (λ sending. timers.new.timers
        ≡ without_retry tenant.now (if is_some sending then Some number else None) timers.old.timers) }
    ensures err { OnErr result ((t : List ℕ) → desk_of t attempts.new ≡ desk_of t attempts.old) }
    ensures err_timers { OnErr result (timers.new.timers ≡ timers.old.timers) }
{
    let sending = attempts.tick(alloc, tenant, number, now)?;
    if sending.is_some() {
        timers.cancel(&retry_name(tenant, number));
    }
    Ok(sending)
}
