//! Requests to webhooks as bytes.
ghost use Rattle.std.specs.Prelude.{◌≡◌, IfOk, string_bytes};
ghost use Rattle.am_outlet.specs.Requests.{body_fields_of, host_field_of, request, request_line_of};

use am_text::Octets;
use am_url::WebhookUrl;
use std::alloc::{AllocError, Global};

fn request_line(alloc: Global, target: &str) -> Result<String, AllocError>
    ensures { IfOk result (λ text. string_bytes text ≡ request_line_of target.now) }
{
    format!(in alloc; "POST {target} HTTP/1.1\r\n")
}

fn host_field(alloc: Global, host: &str) -> Result<String, AllocError>
    ensures { IfOk result (λ text. string_bytes text ≡ host_field_of host.now) }
{
    format!(in alloc; "Host: {host}\r\n")
}

// The fields that tell of a body of this length in bytes, with the empty line after them.
fn body_fields(alloc: Global, length: usize) -> Result<String, AllocError>
    ensures { IfOk result (λ text. string_bytes text ≡ body_fields_of length) }
{
    format!(in alloc;
        "Content-Type: application/json\r\nContent-Length: {length}\r\nConnection: close\r\n\r\n"
    )
}

/// The bytes of the request that brings a JSON body to a webhook: `POST` of the URL's target, with `Host` as it is
/// written in the URL, after which the connection is closed (RFC 9112).
///
/// # Errors
/// Out of memory alone.
#[tactic(auto, unfolding(crate::specs::Requests::request))]
pub fn request_bytes(alloc: Global, url: &WebhookUrl, body: &[u8]) -> Result<Octets, AllocError>
    ensures { IfOk result (λ bytes. bytes ≡ request url.now body.now) }
{
    let mut bytes = request_line(alloc, url.target())?.into_bytes();
    bytes.extend_from_slice(host_field(alloc, url.host())?.as_bytes())?;
    bytes.extend_from_slice(body_fields(alloc, body.len())?.as_bytes())?;
    bytes.extend_from_slice(body)?;
    Ok(Octets::from_vec(bytes))
}
