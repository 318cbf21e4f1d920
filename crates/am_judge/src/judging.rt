//! The judgement on a file.

ghost use Rattle.std.specs.Prelude.{◌≡◌, ◌++◌, IfErr, IfOk, OnOk};
ghost use Rattle.serde_json.specs.View.{view};
ghost use Rattle.am_json.specs.Reading.{json};
ghost use Rattle.am_json.specs.Written.{data_tokens};
ghost use Rattle.am_draft.specs.Drafts.{posted};
ghost use Rattle.am_config.specs.Judging.{IsFailureOf};
ghost use Rattle.am_judge.specs.Search.{checked_document};
ghost use Rattle.am_judge.specs.Judging.{IsAccepted, IsFindingOf, Judges, document_around, document_data, document_of};
ghost use Rattle.am_judge.specs.Judging.{document_text, finding_in, finding_of_check, is_document, whole, wrapped};

use crate::cause::{Cause, Finding};
use crate::facts::{Facts, facts_of};
use crate::reason::Reason;
use crate::remedy::remedy_of;
use crate::search::check_document;
use am_config::{Config, ConfigRefusal};
use am_json::{JsonWriter, read_json};
use am_limit::Limits;
use am_pattern::PatternCache;
use am_text::{Failure, Octets, Text};
use serde_json::Value;
use std::alloc::{AllocError, Global};
use std::{fmt, str};

/// Why a configuration is refused, and where.
#[derive(Drop)]
pub struct Refusal {
    pub reason: Reason,
    /// The place of a value that by itself has this refusal, as `route.routes[2].matchers[0]`; empty for the whole, and
    /// where there is none.
    pub place: Text,
    /// What stands at that place.
    pub(crate) cause: Cause,
}

impl Refusal {
    /// What to do, by what stands at the place.
    pub fn remedy(&self) -> &'static str {
        remedy_of(self.reason, self.cause)
    }
}

/// The code, the place where there is one, and what to do; of a document that is too long also how long it may be.
impl fmt::Display for Refusal {
    fn fmt<W: fmt::Write>(&self, f: &mut fmt::Formatter<W>) -> fmt::Result {
        let code = self.reason.code();
        let remedy = self.remedy();
        if let Reason::TooLong(most) = self.reason {
            return write!(
                f,
                "{code}: {remedy} It may have {most} bytes as posted; `--limits`, unread here, may set others."
            );
        }
        if self.place.is_empty() {
            write!(f, "{code}: {remedy}")
        } else {
            write!(f, "{code} {}: {remedy}", self.place.as_str())
        }
    }
}

/// What becomes of a configuration that would be posted.
#[derive(Drop)]
pub enum Verdict {
    /// It is accepted.
    Accepted,
    /// It is refused.
    Refused(Refusal),
}

/// What becomes of a file that would be posted by a tenant of these limits. A JSON object with `alertmanager_config` is
/// the posted document; any other file is taken for the configuration's text, which is judged in the shortest document
/// with this text.
///
/// The reason is the one with which the document is refused, patterns being built in the cache. The place is that of
/// the first value that by itself has this refusal, where the text is gone through with each object's keys in the order
/// of their bytes, and then the document around it. It need not be the one that decided: of two bad texts of matchers
/// either may be told. That there always is such a value isn't proved; where none is found the place is empty.
///
/// # Errors
/// Out of memory, which says nothing of the file.
pub fn judge(
    alloc: Global,
    file: &[u8],
    limits: Limits,
    cache: &mut PatternCache,
) -> Result<Verdict, AllocError>
    ensures { IfOk result (Judges (document_of file.now) limits cache.old) }
{
    match wrapped(alloc, file)? {
        None => judge_document(alloc, file, limits, cache),
        Some(document) => judge_document(alloc, document.as_slice(), limits, cache),
    }
}

// What becomes of a posted document.
fn judge_document(
    alloc: Global,
    document: &[u8],
    limits: Limits,
    cache: &mut PatternCache,
) -> Result<Verdict, AllocError>
    ensures { IfOk result (Judges document.now limits cache.old) }
{
    if limits.configuration < document.len() as u64 {
        let finding = whole(alloc)?;
        let Finding { place, cause } = finding;
        let reason = Reason::TooLong(limits.configuration);
        return Ok(Verdict::Refused(Refusal {
            reason,
            place,
            cause,
        }));
    }
    match read_document(alloc, document, cache) {
        Ok(()) => Ok(Verdict::Accepted),
        Err(Failure::OutOfMemory) => Err(AllocError),
        Err(Failure::Refused(refusal)) => {
            let finding = finding_of(alloc, document, refusal, cache)?;
            let Finding { place, cause } = finding;
            let reason = Reason::Config(refusal);
            Ok(Verdict::Refused(Refusal {
                reason,
                place,
                cause,
            }))
        }
    }
}

// Refused where the configuration of a document is.
fn read_document(
    alloc: Global,
    document: &[u8],
    cache: &mut PatternCache,
) -> Result<(), Failure<ConfigRefusal>>
    ensures accepted { OnOk result (IsAccepted document.now) }
    ensures failure { IfErr result (IsFailureOf (posted document.now) cache.old cache.new) }
{
    match Config::read(alloc, document, cache) {
        Ok(_) => Ok(()),
        Err(failure) => Err(failure),
    }
}

fn whole(alloc: Global) -> Result<Finding, AllocError>
    ensures { IfOk result (λ finding. finding ≡ whole) }
{
    let place = Text::read(alloc, "")?;
    let cause = Cause::Whole;
    Ok(Finding { place, cause })
}

// The place of a document that is refused for this reason, and what stands there.
fn finding_of(
    alloc: Global,
    document: &[u8],
    reason: ConfigRefusal,
    cache: &mut PatternCache,
) -> Result<Finding, AllocError>
    ensures { IfOk result (IsFindingOf document.now reason) }
{
    let facts = facts_of(alloc, document, reason, cache)?;
    finding_in(alloc, &facts, document)
}

fn finding_in(alloc: Global, facts: &Facts, document: &[u8]) -> Result<Finding, AllocError>
    ensures { IfOk result (λ finding. finding ≡ finding_in facts.now (json document.now)) }
{
    match read_json(alloc, document) {
        Ok(value) => finding_within(alloc, facts, &value),
        Err(Failure::OutOfMemory) => Err(AllocError),
        Err(Failure::Refused(_)) => whole(alloc),
    }
}

fn finding_within(alloc: Global, facts: &Facts, document: &Value) -> Result<Finding, AllocError>
    ensures { IfOk result (λ finding. finding ≡ finding_of_check (checked_document facts.now (view document.now))) }
{
    match check_document(alloc, facts, document) {
        Ok(()) => whole(alloc),
        Err(Failure::Refused(finding)) => Ok(finding),
        Err(Failure::OutOfMemory) => Err(AllocError),
    }
}

// The shortest document with the text that a file is; none where the file isn't JSON, or is a document itself.
fn wrapped(alloc: Global, file: &[u8]) -> Result<Option<Octets>, AllocError>
    ensures { IfOk result (λ document. document ≡ wrapped file.now) }
{
    match read_json(alloc, file) {
        Err(Failure::OutOfMemory) => Err(AllocError),
        Err(Failure::Refused(_)) => Ok(None),
        Ok(value) => {
            if is_document(&value) {
                Ok(None)
            } else {
                document_around(alloc, file)
            }
        }
    }
}

// The shortest document with the text that these bytes are; none where they are no text.
fn document_around(alloc: Global, bytes: &[u8]) -> Result<Option<Octets>, AllocError>
    ensures { IfOk result (λ document. document ≡ document_around bytes.now) }
{
    match str::from_utf8(bytes) {
        Err(_) => Ok(None),
        Ok(text) => {
            let text = Text::read(alloc, text)?;
            Ok(Some(document_json(alloc, &text)?))
        }
    }
}

fn is_document(value: &Value) -> bool
    ensures { result ≡ is_document (view value.now) }
{
    value.get("alertmanager_config").is_some()
}

// The shortest document with a text.
#[tactic(auto, unfolding(crate::specs::Judging::document_text))]
fn document_json(alloc: Global, text: &Text) -> Result<Octets, AllocError>
    ensures { IfOk result (λ document. document ≡ document_text text.now) }
{
    let mut writer = JsonWriter::new(alloc);
    put_document(&mut writer, text)?;
    Ok(writer.finish())
}

fn put_document(writer: &mut JsonWriter, text: &Text) -> Result<(), AllocError>
    ensures { OnOk result (writer.new ≡ writer.old ++ data_tokens (document_data text.now)) }
{
    writer.begin_object()?;
    writer.text_member("alertmanager_config", text)?;
    writer.end_object()
}
