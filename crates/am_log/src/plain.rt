//! An entry as a sentence.

ghost use Rattle.std.specs.Prelude.{◌≡◌, IfOk, string_bytes};
ghost use Rattle.json.specs.Print.{quoted};
ghost use Rattle.am_log.specs.Lines.{change_text, failure_text, left_out_text, plain_text, reason_text, status_text};

use crate::entry::{Change, Entry, LetGo, ToldFailure};
use serde_json::Value;
use std::alloc::{AllocError, Global};

/// The sentence that tells an entry, without the end of its line.
pub(crate) fn plain_text(alloc: Global, entry: &Entry) -> Result<String, AllocError>
    ensures { IfOk result (λ text. string_bytes text ≡ plain_text entry.now) }
{
    match entry {
        Entry::Listening(address) => {
            let address = address.as_str();
            format!(in alloc;
                "amring: serves http://{address}; GET /ready tells it the time, once a second or so"
            )
        }
        Entry::AdminListening(address) => {
            let address = address.as_str();
            format!(in alloc; "amring: http://{address}/ring shows and changes the ring")
        }
        Entry::LimitsRead(tenants) => {
            format!(in alloc; "amring: limits read; tenants with new ones: {tenants}")
        }
        Entry::LimitsRefused(cause) => {
            let cause = cause.as_str();
            format!(in alloc; "amring: {cause}")
        }
        Entry::WebhookFailed(told) => failure_text(alloc, told),
        Entry::ConnectionsLetGo(reason, count) => {
            let reason = reason_text(*reason);
            format!(in alloc; "amring: connections let go {reason}: {count}")
        }
        Entry::Clock(news) => {
            let news = news.as_str();
            format!(in alloc; "amring: {news}")
        }
        Entry::InstanceStopped(number, cause) => {
            let cause = cause.as_str();
            format!(in alloc; "instance {number} stopped: {cause}")
        }
        Entry::InstanceUp(number) => format!(in alloc; "instance {number} is up again"),
        Entry::Changed(change) => change_text(alloc, change),
    }
}

// The sentence that tells what was done by hand.
fn change_text(alloc: Global, change: &Change) -> Result<String, AllocError>
    ensures { IfOk result (λ text. string_bytes text ≡ change_text change.now) }
{
    match change {
        Change::Joined(number) => {
            format!(in alloc; "instance {number} was taken into the ring by hand")
        }
        Change::Left(number) => {
            format!(in alloc; "instance {number} was taken out of the ring by hand")
        }
        Change::Crashed(number) => format!(in alloc; "instance {number} was shut down by hand"),
        Change::Restarted(number) => format!(in alloc; "instance {number} was restarted by hand"),
        Change::Forced(tenant) => {
            let tenant = tenant.as_str();
            format!(in alloc; "amring: the replicas of {tenant} were settled by force")
        }
    }
}

// The sentence that tells a call of a webhook that failed.
fn failure_text(alloc: Global, told: &ToldFailure) -> Result<String, AllocError>
    ensures { IfOk result (λ text. string_bytes text ≡ failure_text told.now) }
{
    let tenant = told.failure.tenant.as_str();
    let receiver = quoted(alloc, told.failure.receiver.as_str())?;
    let status = status_text(alloc, told.failure.status)?;
    let tries = told.failure.tries;
    let instance = told.failure.instance;
    let left_out = left_out_text(alloc, told.left_out)?;
    format!(in alloc;
        "amring: a webhook of {tenant} failed: \
        receiver {receiver}, {status}, try {tries} of instance {instance}{left_out}"
    )
}

// A text in quotes, as JSON has it: a receiver's name may hold whatever its tenant likes, the end of a line too.
fn quoted(alloc: Global, text: &str) -> Result<String, AllocError>
    ensures { IfOk result (λ quote. string_bytes quote ≡ quoted text.now) }
{
    Value::String(String::from_str(alloc, text)?).to_string(alloc)
}

fn status_text(alloc: Global, status: Option<u16>) -> Result<String, AllocError>
    ensures { IfOk result (λ text. string_bytes text ≡ status_text status) }
{
    match status {
        Some(status) => format!(in alloc; "status {status}"),
        None => String::from_str(alloc, "no answer"),
    }
}

// How many were left out, behind the rest of a sentence.
fn left_out_text(alloc: Global, left_out: u64) -> Result<String, AllocError>
    ensures { IfOk result (λ text. string_bytes text ≡ left_out_text left_out) }
{
    if left_out == 0 {
        Ok(String::new(alloc))
    } else {
        format!(in alloc; "; {left_out} more were left out")
    }
}

fn reason_text(reason: LetGo) -> &'static str
    ensures { result.now ≡ reason_text reason }
{
    match reason {
        LetGo::Crowded => "for others that waited",
        LetGo::Unread => "whose replies weren't read",
        LetGo::Late => "that were too slow",
    }
}
