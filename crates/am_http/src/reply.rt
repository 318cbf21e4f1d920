//! Replies as bytes.
ghost use Rattle.std.specs.Prelude.{◌≡◌, IfOk, string_bytes};
ghost use Rattle.am_http.specs.Replies.{phrase_of, status_line_of, fields_of, reply, ready_reply as the_ready_reply, refusal};

use am_text::Octets;
use http::StatusCode;
use std::alloc::{AllocError, Global};

// The phrase of a status code, empty where it has none.
#[tactic(auto, unfolding(crate::specs::Replies::phrase_of))]
fn phrase(status: u16) -> &'static str
    ensures { result.now ≡ phrase_of status }
{
    match StatusCode::from_u16(status) {
        Ok(code) => match code.canonical_reason() {
            Some(phrase) => phrase,
            None => "",
        },
        Err(_) => "",
    }
}

// The status line of a reply.
fn status_line(alloc: Global, status: u16) -> Result<String, AllocError>
    ensures { IfOk result (λ text. string_bytes text ≡ status_line_of status) }
{
    let mut line = format!(in alloc; "HTTP/1.1 {status} ")?;
    line.push_str(phrase(status))?;
    line.push_str("\r\n")?;
    Ok(line)
}

// The fields of a reply whose body has this length in bytes, with the empty line after them.
fn fields(alloc: Global, length: usize) -> Result<String, AllocError>
    ensures { IfOk result (λ text. string_bytes text ≡ fields_of length) }
{
    format!(in alloc;
        "Content-Type: application/json\r\nContent-Length: {length}\r\nConnection: close\r\n\r\n"
    )
}

/// The bytes of a reply with this status code and this body, which is JSON or empty: a message of
/// RFC 9112 after which the connection is closed. A status code has three digits (RFC 9110 section 15); one
/// that has no name gets an empty phrase. Fails only where memory is refused.
pub fn reply_bytes(alloc: Global, status: u16, body: &[u8]) -> Result<Octets, AllocError>
    ensures { IfOk result (λ bytes. bytes ≡ reply status body.now) }
{
    let mut bytes = status_line(alloc, status)?.into_bytes();
    bytes.extend_from_slice(fields(alloc, body.len())?.as_bytes())?;
    bytes.extend_from_slice(body)?;
    Ok(Octets::from_vec(bytes))
}

/// The body of a refusal with this code: `{"code":"H1"}`. The code has letters and digits alone.
/// Fails only where memory is refused.
pub fn refusal_body(alloc: Global, code: &str) -> Result<Octets, AllocError>
    ensures { IfOk result (λ bytes. bytes ≡ refusal code.now) }
{
    let text = format!(in alloc; "{{\"code\":\"{code}\"}}")?;
    Ok(Octets::from_vec(text.into_bytes()))
}

/// The reply to the question whether the program is ready: 200 with the body `ready`. Fails only where memory is
/// refused.
pub fn ready_reply(alloc: Global) -> Result<Octets, AllocError>
    ensures { IfOk result (λ bytes. bytes ≡ the_ready_reply) }
{
    reply_bytes(alloc, 200, b"ready")
}
