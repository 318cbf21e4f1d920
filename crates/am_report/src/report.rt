//! What is reported of the events of a line: what is to be written of them, and the tries that went out.
ghost use Rattle.std.specs.Prelude.{◌≡◌, ◌++◌, ◌∷◌, [], Some, IfOk, OnOk, string_bytes};
ghost use Rattle.am_event.specs.declared.event.Event.TheVariants as event;
ghost use Rattle.am_report.specs.Output.{is_answered, json_text, notice_line, refusal_line, reply_line, try_name};

use am_event::{AttemptName, Event, Output, Refused};
use am_http::ConnectionId;
use am_text::Octets;
use serde_json::Value;
use std::alloc::{AllocError, Global};

/// A try that went out, of which no outcome came yet.
#[derive(Drop)]
pub struct Try {
    /// Of which attempt it is.
    pub attempt: AttemptName,
    /// Which try of the attempt it is.
    pub tries: u8,
    /// The bytes of its request.
    pub request: Octets,
}

impl Try {
    /// The try's outcome at a moment in milliseconds since 1970: with the status of an answer, or without an answer.
    pub fn outcome(&self, moment: u64, status: Option<u16>) -> Event
        ensures { result ≡ event.Outcome self.now.attempt self.now.tries moment status }
    {
        Event::Outcome {
            attempt: same_name(&self.attempt),
            tries: self.tries,
            moment,
            status,
        }
    }
}

/// What is reported of the events of a line so far.
#[derive(Drop)]
pub struct Report {
    /// The lines that are to be written.
    pub text: String,
    /// The tries that went out, in order.
    pub tries: Vec<Try>,
}

impl Report {
    /// A report of nothing, which takes no memory.
    pub fn new(alloc: Global) -> Report
        ensures text { string_bytes result.text ≡ [] }
        ensures tries { result.tries.items ≡ [] }
    {
        Report {
            text: String::new(alloc),
            tries: Vec::new(alloc),
        }
    }

    /// Adds a reply on the connection of this name.
    pub fn push_reply(&mut self, alloc: Global, name: &str, bytes: &[u8]) -> Result<(), AllocError>
        ensures text { OnOk result (string_bytes self.new.text ≡ string_bytes self.old.text ++
            reply_line name.now bytes.now) }
        ensures tries { self.new.tries ≡ self.old.tries }
    {
        let line = reply_line(alloc, name, bytes)?;
        self.text.push_str(line.as_str())
    }

    /// Adds a notice: its line, and the try that went out by it.
    pub fn push_notice(
        &mut self,
        alloc: Global,
        attempt: &AttemptName,
        tries: u8,
        url: &str,
        bytes: &[u8],
    ) -> Result<(), AllocError>
        ensures text { OnOk result (string_bytes self.new.text ≡ string_bytes self.old.text ++
            notice_line attempt.now tries url.now bytes.now) }
        ensures tries { OnOk result (self.new.tries.items ≡ self.old.tries.items ++
            (record { attempt = attempt.now; tries = tries; request = bytes.now }) ∷ []) }
    {
        let line = notice_line(alloc, attempt, tries, url, bytes)?;
        self.text.push_str(line.as_str())?;
        self.tries.push(Try {
            attempt: same_name(attempt),
            tries,
            request: Octets::read(alloc, bytes)?,
        })?;
        Ok(())
    }

    /// Adds the line of a refusal.
    pub fn push_refusal(&mut self, refused: Refused) -> Result<(), AllocError>
        ensures text { OnOk result (string_bytes self.new.text ≡ string_bytes self.old.text ++
            refusal_line (Some refused)) }
        ensures tries { self.new.tries ≡ self.old.tries }
    {
        self.text.push_str("refused ")?;
        self.text.push_str(refused.code())?;
        self.text.push_str("\n")
    }
}

/// The same name.
fn same_name(name: &AttemptName) -> AttemptName
    ensures { result ≡ name.now }
{
    AttemptName {
        tenant: name.tenant,
        instance: name.instance,
        incarnation: name.incarnation,
        number: name.number,
    }
}

/// The line of a reply, with its bytes as [`quoted`] gives them.
fn reply_line(alloc: Global, name: &str, bytes: &[u8]) -> Result<String, AllocError>
    ensures { IfOk result (λ line. string_bytes line ≡ reply_line name.now bytes.now) }
{
    let text = quoted(alloc, bytes)?;
    format!(in alloc; "reply {name} {text}\n")
}

/// The line of a notice, with the bytes of its request as [`quoted`] gives them.
fn notice_line(
    alloc: Global,
    attempt: &AttemptName,
    tries: u8,
    url: &str,
    bytes: &[u8],
) -> Result<String, AllocError>
    ensures { IfOk result (λ line. string_bytes line ≡ notice_line attempt.now tries url.now bytes.now) }
{
    let name = try_name(alloc, attempt, tries)?;
    let text = quoted(alloc, bytes)?;
    format!(in alloc; "notice {name} {url} {text}\n")
}

/// A try, as it is named in a line.
fn try_name(alloc: Global, attempt: &AttemptName, tries: u8) -> Result<String, AllocError>
    ensures { IfOk result (λ name. string_bytes name ≡ try_name attempt.now tries) }
{
    let tenant = attempt.tenant.as_str();
    let instance = attempt.instance;
    let number = attempt.number;
    format!(in alloc; "{tenant} {instance} {number} {tries}")
}

/// Bytes as a JSON text (RFC 8259 section 7). Bytes that are no UTF-8 stand as U+FFFD.
fn quoted(alloc: Global, bytes: &[u8]) -> Result<String, AllocError>
    ensures { IfOk result (λ text. string_bytes text ≡ json_text bytes.now) }
{
    Value::String(String::from_utf8_lossy(alloc, bytes)?).to_string(alloc)
}

/// Whether the outputs have a reply on the connection.
pub fn is_answered(outputs: &[Output], connection: ConnectionId) -> bool
    ensures { result ≡ is_answered connection outputs.now }
{
    outputs.iter().any(|output| match output {
        Output::Reply {
            connection: answered,
            ..
        } => *answered == connection,
        Output::Notice { .. } | Output::Send(_) => false,
    })
}
