ghost use Rattle.std.specs.Prelude.{◌≡◌, option_map};
ghost use Rattle.serde_json.specs.Find.{as_str};
ghost use Rattle.serde_json.specs.View.{view};
ghost use Rattle.am_scenario.specs.Number.{number_of};
ghost use Rattle.am_scenario.specs.Line.{Reads, split, both, word_of, word_then, string_of, number_then, tenant_named};
ghost use Rattle.am_scenario.specs.Line.{command_of, text_command, lone_command, named_command, at_of, open_of, bytes_of};
ghost use Rattle.am_scenario.specs.Line.{call_of, request_of, target_of, limits_of, drop_of, deliver_of, hook_of};
ghost use Rattle.am_scenario.specs.Line.{last_numbers, status_in, learn_of, force_of, change_of, change_at};

use crate::command::{ClusterChange, Command, Request, SaidName, Way};
use crate::numbers::number;
use am_limit::Limits;
use am_tenant::TenantName;
use am_text::Text;
use serde_json::Value;
use std::alloc::{AllocError, Global};

/// Why a line gives no command.
#[derive(Clone, Copy, PartialEq, Eq)]
pub enum LineFault {
    /// The line isn't of the scenario language.
    NotACommand,
    /// Memory ran out. The line may be a command.
    OutOfMemory,
}

impl From<AllocError> for LineFault {
    ghost use Rattle.am_scenario.specs.declared.line.LineFault.TheVariants.{OutOfMemory};

    ghost from_gives = { λ _ e. e ≡ OutOfMemory };

    fn from(_error: AllocError) -> LineFault {
        LineFault::OutOfMemory
    }
}

/// Reads one line of a scenario, given without its line end.
#[tactic(auto, unfolding(crate::specs::Line::command_of))]
pub fn read_command(alloc: Global, line: &[u8]) -> Result<Command, LineFault>
    ensures { Reads (λ c. c) result (command_of line.now) }
{
    if line.is_empty() || line[0] == b'#' {
        return Ok(Command::Skip);
    }
    match std::str::from_utf8(line) {
        Ok(text) => read_text(alloc, text),
        Err(_) => Err(LineFault::NotACommand),
    }
}

/// Reads a line that is text and no comment.
#[tactic(auto, unfolding(crate::specs::Line::text_command))]
fn read_text(alloc: Global, text: &str) -> Result<Command, LineFault>
    ensures { Reads (λ c. c) result (text_command text.now) }
{
    match split(text) {
        None => lone_command(text),
        Some((name, rest)) => named_command(alloc, name, rest),
    }
}

/// A command of one word.
#[tactic(auto, unfolding(crate::specs::Line::lone_command))]
fn lone_command(name: &str) -> Result<Command, LineFault>
    ensures { Reads (λ c. c) result (lone_command name.now) }
{
    if name == "tick" {
        Ok(Command::Tick)
    } else if name == "pump" {
        Ok(Command::Pump)
    } else {
        Err(LineFault::NotACommand)
    }
}

/// A command whose name has more behind it.
#[tactic(auto, unfolding(crate::specs::Line::named_command))]
fn named_command(alloc: Global, name: &str, rest: &str) -> Result<Command, LineFault>
    ensures { Reads (λ c. c) result (named_command name.now rest.now) }
{
    if name == "at" {
        read_at(rest)
    } else if name == "open" {
        read_open(alloc, rest)
    } else if name == "bytes" {
        read_bytes(alloc, rest)
    } else if name == "call" {
        read_call(alloc, rest)
    } else if name == "limits" {
        read_limits(rest)
    } else if name == "drop" {
        read_drop(rest)
    } else if name == "deliver" {
        read_deliver(rest)
    } else if name == "hook" {
        read_hook(rest)
    } else if name == "learn" {
        read_learn(rest)
    } else if name == "force" {
        read_force(rest)
    } else {
        read_change(name, rest)
    }
}

#[tactic(auto, unfolding(crate::specs::Line::at_of))]
fn read_at(rest: &str) -> Result<Command, LineFault>
    ensures { Reads (λ c. c) result (at_of rest.now) }
{
    let moment = read_number(rest)?;
    Ok(Command::At(moment))
}

#[tactic(auto, unfolding(crate::specs::Line::open_of))]
fn read_open(alloc: Global, rest: &str) -> Result<Command, LineFault>
    ensures { Reads (λ c. c) result (open_of rest.now) }
{
    let (connection, rest) = word_then(rest)?;
    let instance = read_number(rest)?;
    let connection = Text::read(alloc, connection)?;
    Ok(Command::Open {
        connection,
        instance,
    })
}

#[tactic(auto, unfolding(crate::specs::Line::bytes_of))]
fn read_bytes(alloc: Global, rest: &str) -> Result<Command, LineFault>
    ensures { Reads (λ c. c) result (bytes_of rest.now) }
{
    let (connection, rest) = word_then(rest)?;
    let text = json_string(alloc, rest)?;
    let connection = Text::read(alloc, connection)?;
    Ok(Command::Bytes { connection, text })
}

#[tactic(auto, unfolding(crate::specs::Line::call_of))]
fn read_call(alloc: Global, rest: &str) -> Result<Command, LineFault>
    ensures { Reads (λ c. c) result (call_of rest.now) }
{
    let (connection, rest) = word_then(rest)?;
    let (instance, rest) = word_then(rest)?;
    let instance = read_number(instance)?;
    let request = read_request(alloc, rest)?;
    let connection = Text::read(alloc, connection)?;
    Ok(Command::Call {
        connection,
        instance,
        request,
    })
}

/// A tenant, and its limits: alerts, silences, bytes of a configuration and of a silence, notices in a minute, and the
/// bytes of its alerts together, where these are limited.
#[tactic(auto, unfolding(crate::specs::Line::limits_of))]
fn read_limits(rest: &str) -> Result<Command, LineFault>
    ensures { Reads (λ c. c) result (limits_of rest.now) }
{
    let (tenant, rest) = word_then(rest)?;
    let tenant = read_tenant(tenant)?;
    let (alerts, rest) = number_then(rest)?;
    let (silences, rest) = number_then(rest)?;
    let (configuration, rest) = number_then(rest)?;
    let (silence, rest) = number_then(rest)?;
    let (notices, alert_bytes) = last_numbers(rest)?;
    let limits = Limits {
        alerts,
        silences,
        configuration,
        silence,
        notices,
        alert_bytes,
    };
    Ok(Command::Limits { tenant, limits })
}

/// A tenant, the kind of a message, its sender and its receiver.
#[tactic(auto, unfolding(crate::specs::Line::drop_of))]
fn read_drop(rest: &str) -> Result<Command, LineFault>
    ensures { Reads (λ c. c) result (drop_of rest.now) }
{
    let (tenant, rest) = word_then(rest)?;
    let tenant = read_tenant(tenant)?;
    let (kind, rest) = number_then(rest)?;
    let (from, rest) = number_then(rest)?;
    let to = read_number(rest)?;
    Ok(Command::Drop(Way {
        tenant,
        kind,
        from,
        to,
    }))
}

/// A tenant, and the name of a message: its sender and that one's incarnation, its receiver, and its count.
#[tactic(auto, unfolding(crate::specs::Line::deliver_of))]
fn read_deliver(rest: &str) -> Result<Command, LineFault>
    ensures { Reads (λ c. c) result (deliver_of rest.now) }
{
    let (tenant, rest) = word_then(rest)?;
    let tenant = read_tenant(tenant)?;
    let (from, rest) = number_then(rest)?;
    let (incarnation, rest) = number_then(rest)?;
    let (to, rest) = number_then(rest)?;
    let count = read_number(rest)?;
    Ok(Command::Deliver(SaidName {
        tenant,
        from,
        incarnation,
        to,
        count,
    }))
}

/// A status, or `none`.
#[tactic(auto, unfolding(crate::specs::Line::hook_of))]
fn read_hook(rest: &str) -> Result<Command, LineFault>
    ensures { Reads (λ c. c) result (hook_of rest.now) }
{
    if rest == "none" {
        return Ok(Command::Hook(None));
    }
    let number = read_number(rest)?;
    Ok(Command::Hook(status_in(number)))
}

/// `all`, or an instance.
#[tactic(auto, unfolding(crate::specs::Line::learn_of))]
fn read_learn(rest: &str) -> Result<Command, LineFault>
    ensures { Reads (λ c. c) result (learn_of rest.now) }
{
    if rest == "all" {
        return Ok(Command::LearnAll);
    }
    let instance = read_number(rest)?;
    Ok(Command::Change(ClusterChange::Learn(instance)))
}

#[tactic(auto, unfolding(crate::specs::Line::force_of))]
fn read_force(rest: &str) -> Result<Command, LineFault>
    ensures { Reads (λ c. c) result (force_of rest.now) }
{
    let tenant = read_tenant(rest)?;
    Ok(Command::Change(ClusterChange::Force(tenant)))
}

/// The name of a change, and the instance at which it is.
#[tactic(auto, unfolding(crate::specs::Line::change_of))]
fn read_change(name: &str, rest: &str) -> Result<Command, LineFault>
    ensures { Reads (λ c. c) result (change_of name.now rest.now) }
{
    let instance = read_number(rest)?;
    let change = change_at(name, instance)?;
    Ok(Command::Change(change))
}

/// The change of this name at an instance.
#[tactic(auto, unfolding(crate::specs::Line::change_at))]
fn change_at(name: &str, instance: u64) -> Result<ClusterChange, LineFault>
    ensures { Reads (λ c. c) result (change_at name.now instance) }
{
    if name == "join" {
        Ok(ClusterChange::Join(instance))
    } else if name == "leave" {
        Ok(ClusterChange::Leave(instance))
    } else if name == "crash" {
        Ok(ClusterChange::Crash(instance))
    } else if name == "restart" {
        Ok(ClusterChange::Restart(instance))
    } else {
        Err(LineFault::NotACommand)
    }
}

/// The status of an answer that has this number: none where it isn't of three digits (RFC 9110 section 15).
fn status_in(number: u64) -> Option<u16>
    ensures { result ≡ status_in number }
{
    if 100 <= number && number <= 999 {
        Some(number as u16)
    } else {
        None
    }
}

/// The name of a tenant.
#[tactic(auto, unfolding(crate::specs::Line::tenant_named))]
fn read_tenant(name: &str) -> Result<TenantName, LineFault>
    ensures { Reads (λ t. t) result (tenant_named name.now) }
{
    match TenantName::read(name.as_bytes()) {
        Ok(tenant) => Ok(tenant),
        Err(_) => Err(LineFault::NotACommand),
    }
}

/// Tenant, method, path, and the body where there is one.
#[tactic(auto, unfolding(crate::specs::Line::request_of))]
fn read_request(alloc: Global, text: &str) -> Result<Request, LineFault>
    ensures { Reads (λ r. r) result (request_of text.now) }
{
    let (tenant, rest) = word_then(text)?;
    let (method, rest) = word_then(rest)?;
    let (path, body) = read_target(alloc, rest)?;
    let tenant = if tenant == "-" {
        None
    } else {
        Some(Text::read(alloc, tenant)?)
    };
    let method = Text::read(alloc, method)?;
    Ok(Request {
        tenant,
        method,
        path,
        body,
    })
}

/// A path alone, with an empty body, or a path and a body.
#[tactic(auto, unfolding(crate::specs::Line::target_of))]
fn read_target(alloc: Global, text: &str) -> Result<(Text, Text), LineFault>
    ensures { Reads (λ p. p) result (target_of text.now) }
{
    match split(text) {
        None => {
            let path = Text::read(alloc, word(text)?)?;
            Ok((path, Text::from_string(String::new(alloc))))
        }
        Some((path, rest)) => {
            let path = Text::read(alloc, word(path)?)?;
            let body = json_string(alloc, rest)?;
            Ok((path, body))
        }
    }
}

/// What stands before the first space and what stands behind it; `None` without a space.
#[tactic(auto, unfolding(crate::specs::Line::split))]
fn split(text: &str) -> Option<(&str, &str)>
    ensures { option_map both result ≡ split text.now }
{
    text.split_once(' ')
}

/// A word, which isn't empty.
#[tactic(auto, unfolding(crate::specs::Line::word_of))]
fn word(text: &str) -> Result<&str, LineFault>
    ensures { Reads (λ w. w.now) result (word_of text.now) }
{
    if text.is_empty() {
        Err(LineFault::NotACommand)
    } else {
        Ok(text)
    }
}

/// A word with a space behind it, and what stands behind the space.
#[tactic(auto, unfolding(crate::specs::Line::word_then))]
fn word_then(text: &str) -> Result<(&str, &str), LineFault>
    ensures { Reads both result (word_then text.now) }
{
    match split(text) {
        Some((front, rest)) => Ok((word(front)?, rest)),
        None => Err(LineFault::NotACommand),
    }
}

/// A number with a space behind it, and what stands behind the space.
#[tactic(auto, unfolding(crate::specs::Line::number_then))]
fn number_then(text: &str) -> Result<(u64, &str), LineFault>
    ensures { Reads (λ p. (p.0, p.1.now)) result (number_then text.now) }
{
    let (word, rest) = word_then(text)?;
    let number = read_number(word)?;
    Ok((number, rest))
}

/// A number alone, or a number, a space and another one.
#[tactic(auto, unfolding(crate::specs::Line::last_numbers))]
fn last_numbers(text: &str) -> Result<(u64, Option<u64>), LineFault>
    ensures { Reads (λ p. p) result (last_numbers text.now) }
{
    match split(text) {
        None => Ok((read_number(text)?, None)),
        Some((first, second)) => {
            let first = read_number(first)?;
            let second = read_number(second)?;
            Ok((first, Some(second)))
        }
    }
}

/// A number.
fn read_number(word: &str) -> Result<u64, LineFault>
    ensures { Reads (λ n. n) result (number_of word.now) }
{
    match number(word) {
        Some(number) => Ok(number),
        None => Err(LineFault::NotACommand),
    }
}

/// A JSON text that is a string (RFC 8259), with white space round it perhaps.
#[tactic(auto, unfolding(crate::specs::Line::string_of))]
fn json_string(alloc: Global, text: &str) -> Result<Text, LineFault>
    ensures { Reads (λ t. t) result (string_of text.now) }
{
    match Value::from_str(alloc, text) {
        Ok(value) => string_in(value),
        Err(error) if error.is_memory() => Err(LineFault::OutOfMemory),
        Err(_error) => Err(LineFault::NotACommand),
    }
}

/// The string that a JSON value is.
fn string_in(value: Value) -> Result<Text, LineFault>
    ensures { Reads (λ t. t) result (as_str (view value)) }
{
    match value {
        Value::String(string) => Ok(Text::from_string(string)),
        _other => Err(LineFault::NotACommand),
    }
}
