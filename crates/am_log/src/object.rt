//! An entry as a JSON object.

ghost use Rattle.std.specs.Prelude.{◌≡◌, ◌++◌, IfOk, OnOk};
ghost use Rattle.serde_json.specs.Data.{member, no_members, number, string, unsigned};
ghost use Rattle.serde_json.specs.Written.{compact_text};
ghost use Rattle.am_json.specs.Written.{data_tokens, member_tokens, members_tokens};
ghost use Rattle.am_log.specs.Lines.{change_event, change_members, entry_data, event_of, failure_members};
ghost use Rattle.am_log.specs.Lines.{let_go_members, level_of, members_of, reason_word, status_data, status_name};
ghost use Rattle.am_log.specs.Lines.{stopped_members};

use crate::entry::{Change, Entry, LetGo, ToldFailure};
use am_json::JsonWriter;
use am_text::{Moment, Octets, Text};
use std::alloc::{AllocError, Global};

/// The object that tells an entry, without the end of its line.
pub(crate) fn object_text(
    alloc: Global,
    moment: Moment,
    entry: &Entry,
) -> Result<Octets, AllocError>
    ensures { IfOk result (λ text. text ≡ compact_text (entry_data moment entry.now)) }
{
    let mut text = JsonWriter::new(alloc);
    put_entry(&mut text, moment, entry)?;
    Ok(text.finish())
}

fn put_entry(text: &mut JsonWriter, moment: Moment, entry: &Entry) -> Result<(), AllocError>
    ensures { OnOk result (text.new ≡ text.old ++ data_tokens (entry_data moment entry.now)) }
{
    text.begin_object()?;
    text.moment_member("time", moment)?;
    word_member(text, "level", level_of(entry))?;
    word_member(text, "event", event_of(entry))?;
    put_members(text, entry)
}

// Writes what is told besides, and ends the object.
fn put_members(text: &mut JsonWriter, entry: &Entry) -> Result<(), AllocError>
    ensures { OnOk result (text.new ≡ text.old ++ members_tokens (members_of entry.now)) }
{
    match entry {
        Entry::Listening(address) => end_with_text(text, "address", address),
        Entry::AdminListening(address) => end_with_text(text, "address", address),
        Entry::LimitsRead(tenants) => end_with_number(text, "tenants", *tenants),
        Entry::LimitsRefused(cause) => end_with_text(text, "cause", cause),
        Entry::WebhookFailed(told) => put_failure(text, told),
        Entry::ConnectionsLetGo(reason, count) => put_let_go(text, *reason, *count),
        Entry::Clock(news) => end_with_text(text, "news", news),
        Entry::InstanceStopped(number, cause) => put_stopped(text, *number, cause),
        Entry::InstanceUp(number) => end_with_number(text, "instance", u64::from(*number)),
        Entry::Changed(change) => put_change(text, change),
    }
}

fn put_failure(text: &mut JsonWriter, told: &ToldFailure) -> Result<(), AllocError>
    ensures { OnOk result (text.new ≡ text.old ++ members_tokens (failure_members told.now)) }
{
    word_member(text, "tenant", told.failure.tenant.as_str())?;
    text.text_member("receiver", &told.failure.receiver)?;
    status_member(text, told.failure.status)?;
    number_member(text, "try", u64::from(told.failure.tries))?;
    number_member(text, "instance", u64::from(told.failure.instance))?;
    end_with_number(text, "left_out", told.left_out)
}

fn put_let_go(text: &mut JsonWriter, reason: LetGo, count: u64) -> Result<(), AllocError>
    ensures { OnOk result (text.new ≡ text.old ++ members_tokens (let_go_members reason count)) }
{
    word_member(text, "reason", reason_word(reason))?;
    end_with_number(text, "connections", count)
}

fn put_stopped(text: &mut JsonWriter, number: u8, cause: &Text) -> Result<(), AllocError>
    ensures { OnOk result (text.new ≡ text.old ++ members_tokens (stopped_members number cause.now)) }
{
    number_member(text, "instance", u64::from(number))?;
    end_with_text(text, "cause", cause)
}

fn put_change(text: &mut JsonWriter, change: &Change) -> Result<(), AllocError>
    ensures { OnOk result (text.new ≡ text.old ++ members_tokens (change_members change.now)) }
{
    match change {
        Change::Joined(number)
        | Change::Left(number)
        | Change::Crashed(number)
        | Change::Restarted(number) => end_with_number(text, "instance", u64::from(*number)),
        Change::Forced(tenant) => end_with_word(text, "tenant", tenant.as_str()),
    }
}

// The last member of the object, and its end.
fn end_with_text(text: &mut JsonWriter, name: &str, value: &Text) -> Result<(), AllocError>
    ensures { OnOk result (text.new ≡ text.old ++ members_tokens (member name.now (string value.now) no_members)) }
{
    text.text_member(name, value)?;
    text.end_object()
}

// The last member of the object, and its end.
fn end_with_word(text: &mut JsonWriter, name: &str, word: &str) -> Result<(), AllocError>
    ensures { OnOk result (text.new ≡ text.old ++ members_tokens (member name.now (string word.now) no_members)) }
{
    word_member(text, name, word)?;
    text.end_object()
}

// The last member of the object, and its end.
fn end_with_number(text: &mut JsonWriter, name: &str, count: u64) -> Result<(), AllocError>
    ensures { OnOk result (text.new
        ≡ text.old ++ members_tokens (member name.now (number (unsigned count)) no_members)) }
{
    number_member(text, name, count)?;
    text.end_object()
}

fn word_member(text: &mut JsonWriter, name: &str, word: &str) -> Result<(), AllocError>
    ensures { OnOk result (text.new ≡ text.old ++ member_tokens name.now (string word.now)) }
{
    text.key(name)?;
    text.string(word)
}

fn number_member(text: &mut JsonWriter, name: &str, value: u64) -> Result<(), AllocError>
    ensures { OnOk result (text.new ≡ text.old ++ member_tokens name.now (number (unsigned value))) }
{
    text.key(name)?;
    text.number(value)
}

// The status of an answer, or why there is none.
fn status_member(text: &mut JsonWriter, status: Option<u16>) -> Result<(), AllocError>
    ensures { OnOk result (text.new ≡ text.old ++ member_tokens (status_name status) (status_data status)) }
{
    match status {
        Some(status) => number_member(text, "status", u64::from(status)),
        None => word_member(text, "cause", "no answer"),
    }
}

fn level_of(entry: &Entry) -> &'static str
    ensures { result.now ≡ level_of entry.now }
{
    match entry {
        Entry::Listening(_)
        | Entry::AdminListening(_)
        | Entry::LimitsRead(_)
        | Entry::InstanceUp(_)
        | Entry::Changed(_) => "info",
        Entry::WebhookFailed(_) | Entry::ConnectionsLetGo(..) | Entry::Clock(_) => "warn",
        Entry::LimitsRefused(_) | Entry::InstanceStopped(..) => "error",
    }
}

fn event_of(entry: &Entry) -> &'static str
    ensures { result.now ≡ event_of entry.now }
{
    match entry {
        Entry::Listening(_) => "listening",
        Entry::AdminListening(_) => "admin_listening",
        Entry::LimitsRead(_) => "limits_read",
        Entry::LimitsRefused(_) => "limits_refused",
        Entry::WebhookFailed(_) => "webhook_failed",
        Entry::ConnectionsLetGo(..) => "connections_let_go",
        Entry::Clock(_) => "clock",
        Entry::InstanceStopped(..) => "instance_stopped",
        Entry::InstanceUp(_) => "instance_up",
        Entry::Changed(change) => change_event(change),
    }
}

fn change_event(change: &Change) -> &'static str
    ensures { result.now ≡ change_event change.now }
{
    match change {
        Change::Joined(_) => "instance_joined",
        Change::Left(_) => "instance_left",
        Change::Crashed(_) => "instance_crashed",
        Change::Restarted(_) => "instance_restarted",
        Change::Forced(_) => "tenant_forced",
    }
}

fn reason_word(reason: LetGo) -> &'static str
    ensures { result.now ≡ reason_word reason }
{
    match reason {
        LetGo::Crowded => "crowded",
        LetGo::Unread => "unread",
        LetGo::Late => "late",
    }
}
