//! What a whole head asks for.
ghost use Rattle.std.specs.Prelude.{◌≡◌, ◌≤◌, All, IsUtf8, length, map, None, IfOk, IfSome, IfNone};
ghost use Rattle.httparse.specs.Grammar.{RequestHead};
ghost use Rattle.httparse.specs.Spans.{IsWithin, IsHeaderWithin, header_bytes, span_bytes};
ghost use Rattle.am_http.specs.Checks.{path_in, query_in, method_of, taken, longest_body};
ghost use Rattle.am_http.specs.Checks.{asked, asks_ready, body_stated, called, checked, judged};
ghost use Rattle.am_http.specs.Paths.{path_at};
ghost use Rattle.am_http.specs.Plans.{asked_at, wanted_at, IsActionAt, IsPlanAt, IsHeadAt};
ghost use Rattle.am_http.specs.Reading.{most_fields, read_head};
ghost use Rattle.am_http.specs.Values.{seen, number_at, IsNumberAt};

use crate::fields::{body_len, content_length, has_field, tenant};
use crate::paths::{Path, Paths, READY};
use crate::refusal::FrontRefusal;
use crate::request::Method;
use am_tenant::TenantName;
use httparse::Status;
use httparse::spans::{EMPTY_HEADER_SPAN, HeaderSpan, RequestSpans, Span, parse_request};
use std::str;

/// The greatest length of a body in bytes.
pub(crate) const BODY_LIMIT: u32 = 1_048_576;

// How many field lines a head has at most.
const FIELD_LIMIT: usize = 64;

/// What a head that passes every check asks for. It borrows nothing of the head.
#[derive(Clone, Copy)]
pub(crate) enum Action {
    /// Whether the program is ready.
    Ready,
    /// Something of a tenant: what stands at the target's path, by a method that it takes.
    Call(TenantName, Method, Path, Span),
}

/// What a head that passes every check asks for, and the length in bytes of the body that follows it.
#[derive(Clone, Copy)]
pub(crate) struct Plan {
    pub action: Action,
    pub body_len: u32,
}

/// The text that a span covers.
pub(crate) fn text_at(head: &[u8], span: Span) -> &str
    requires within { IsWithin (length head.now) span }
    requires text { IsUtf8 (span_bytes head.now span) }
    ensures { result.now ≡ span_bytes head.now span }
{
    match str::from_utf8(span.of(head)) {
        Ok(text) => text,
        Err(_) => unreachable!(),
    }
}

/// The path and the query of a target.
pub(crate) fn split_target(target: &str) -> (&str, &str)
    ensures path { result.0.now ≡ path_in target.now }
    ensures query { result.1.now ≡ query_in target.now }
{
    match target.split_once('?') {
        Some((path, query)) => (path, query),
        None => (target, ""),
    }
}

// The method of this name, if some path takes it.
fn method_named(name: &[u8]) -> Option<Method>
    ensures { result ≡ method_of name.now }
{
    if name == b"GET".as_slice() {
        Some(Method::Get)
    } else if name == b"POST".as_slice() {
        Some(Method::Post)
    } else if name == b"DELETE".as_slice() {
        Some(Method::Delete)
    } else {
        None
    }
}

// The length of the body that follows a head, in bytes.
#[tactic(auto, unfolding(crate::specs::Checks::body_stated))]
fn stated_body(method: &[u8], head: &[u8], fields: &[HeaderSpan]) -> Result<u32, FrontRefusal>
    requires { All (IsHeaderWithin (length head.now)) fields.now }
    ensures length { result ≡ body_stated method.now (map (header_bytes head.now) fields.now) }
    ensures short { IfOk result (λ length. length ≤ longest_body) }
{
    let stated = content_length(head, fields)?;
    if method == b"POST".as_slice() && stated.is_none() {
        return Err(FrontRefusal::MissingLength);
    }
    if has_field(head, fields, b"Transfer-Encoding") {
        return Err(FrontRefusal::TransferCoding);
    }
    let length = body_len(head, stated, BODY_LIMIT + 1);
    if length > BODY_LIMIT {
        return Err(FrontRefusal::LongBody);
    }
    Ok(length)
}

// The method, where the path takes it.
fn take(path: Path, method: Option<Method>) -> Option<Method>
    ensures { result ≡ taken path method }
{
    match method {
        Some(method) if path.takes(method) => Some(method),
        _ => None,
    }
}

// What a tenant's request with this method and this target asks for.
#[tactic(auto, unfolding(crate::specs::Checks::called))]
fn call(
    paths: &Paths,
    tenant: TenantName,
    method: &[u8],
    head: &[u8],
    target: Span,
) -> Result<Action, FrontRefusal>
    requires target { IsWithin (length head.now) target }
    requires text { IsUtf8 (span_bytes head.now target) }
    ensures asked { seen (asked_at head.now) result ≡
        called tenant method.now (path_in (span_bytes head.now target)) (query_in (span_bytes head.now target)) }
    ensures action { IfOk result (IsActionAt head.now) }
{
    let (path, _) = split_target(text_at(head, target));
    if path == READY {
        return Err(FrontRefusal::WrongMethod);
    }
    let there = paths.find(path).ok_or(FrontRefusal::NoSuchPath)?;
    let method = take(there, method_named(method)).ok_or(FrontRefusal::WrongMethod)?;
    Ok(Action::Call(tenant, method, there, target))
}

// Whether a request asks if the program is ready.
fn is_ready_asked(method: &[u8], target: &str) -> bool
    ensures { result ≡ asks_ready method.now (path_in target.now) }
{
    let (path, _) = split_target(target);
    path == READY && method == b"GET".as_slice()
}

// What a head asks for whose parts these spans cover.
#[tactic(auto, unfolding(crate::specs::Checks::asked))]
fn action_of(
    paths: &Paths,
    head: &[u8],
    spans: RequestSpans,
    fields: &[HeaderSpan],
) -> Result<Action, FrontRefusal>
    requires method { IsWithin (length head.now) spans.method }
    requires target { IsWithin (length head.now) spans.path }
    requires text { IsUtf8 (span_bytes head.now spans.path) }
    requires fields { All (IsHeaderWithin (length head.now)) fields.now }
    ensures asked { seen (asked_at head.now) result ≡
        asked (span_bytes head.now spans.method) (span_bytes head.now spans.path)
        (map (header_bytes head.now) fields.now) }
    ensures action { IfOk result (IsActionAt head.now) }
{
    let method = spans.method.of(head);
    if is_ready_asked(method, text_at(head, spans.path)) {
        return Ok(Action::Ready);
    }
    let tenant = tenant(head, fields)?;
    call(paths, tenant, method, head, spans.path)
}

// The checks of a head whose parts these spans cover, in their order.
#[tactic(auto, unfolding(crate::specs::Checks::checked))]
fn check(
    paths: &Paths,
    head: &[u8],
    spans: RequestSpans,
    fields: &[HeaderSpan],
) -> Result<Plan, FrontRefusal>
    requires method { IsWithin (length head.now) spans.method }
    requires target { IsWithin (length head.now) spans.path }
    requires text { IsUtf8 (span_bytes head.now spans.path) }
    requires fields { All (IsHeaderWithin (length head.now)) fields.now }
    ensures wanted { seen (wanted_at head.now) result ≡
        checked (span_bytes head.now spans.method) (span_bytes head.now spans.path)
        (map (header_bytes head.now) fields.now) }
    ensures plan { IfOk result (IsPlanAt head.now) }
{
    let body_len = stated_body(spans.method.of(head), head, fields)?;
    let action = action_of(paths, head, spans, fields)?;
    Ok(Plan { action, body_len })
}

// The parts of the head that the text is, as a whole.
fn parse_head(text: &[u8], headers: &mut [HeaderSpan]) -> Option<RequestSpans>
    requires { length headers.old ≡ most_fields }
    ensures found { IfSome result (λ spans. (h : RequestHead) × IsHeadAt text.now headers.new spans h) }
    ensures none { IfNone result (read_head text.now ≡ None) }
{
    match parse_request(text, headers) {
        Ok(Status::Complete(spans)) => {
            if spans.len == text.len() {
                Some(spans)
            } else {
                None
            }
        }
        Ok(Status::Partial) => None,
        Err(_) => None,
    }
}

/// What a text asks for, if it is a head that passes every check.
pub(crate) fn read_plan(paths: &Paths, head: &[u8]) -> Result<Plan, FrontRefusal>
    ensures wanted { seen (wanted_at head.now) result ≡ judged (read_head head.now) }
    ensures plan { IfOk result (IsPlanAt head.now) }
{
    let mut headers = [EMPTY_HEADER_SPAN; FIELD_LIMIT];
    let Some(spans) = parse_head(head, &mut headers) else {
        return Err(FrontRefusal::BadHead);
    };
    check(paths, head, spans, &headers[..spans.headers])
}
