//! A webhook's URL and its parts.

ghost use Rattle.std.specs.Prelude.{◌≡◌, ◌∷◌, IfOk, Some};
ghost use Rattle.std.specs.List.{list_all, before_first, after_first};
ghost use Rattle.am_url.specs.Urls.{is_in_path, is_slash, url_of};

use crate::authority::port_of;
use am_text::Text;
use std::alloc::{AllocError, Global};
use std::marker::Model;

/// The URL of a webhook: `http://`, then `localhost` or four numbers from 0 to 255 with dots between, perhaps `:` and
/// a port from 1 to 65535 (without one it is 80), then nothing, or `/` and visible ASCII without `#`.
#[derive(PartialEq, Eq)]
pub struct WebhookUrl {
    text: Text,
    host: Text,
    port: u16,
    target: Text,
}

// Written out, so that a crate which owns one need not prove anew how its parts are dropped.
impl Drop for WebhookUrl {
    fn drop(self) {
        let WebhookUrl {
            text,
            host,
            port: _port,
            target,
        } = self;
        drop(text);
        drop(host);
        drop(target);
    }
}

impl Model for WebhookUrl {
    ghost use Rattle.std.specs.Prelude.{◌≡◌, Some};
    ghost use Rattle.am_url.specs.Urls.{Url, url_of};

    ghost Value = { Url };

    ghost view = { λ u. record { text = u.text; host = u.host; port = u.port; target = u.target } };

    ghost invariant = { λ u. url_of u.text
        ≡ Some (record { text = u.text; host = u.host; port = u.port; target = u.target }) };

    ghost inverse = { λ u. record { text = u.text; host = u.host; port = u.port; target = u.target } };
}

impl WebhookUrl {
    /// The URL that a text is, by its bytes, or none.
    ///
    /// # Errors
    /// Out of memory alone.
    #[tactic(auto, unfolding(crate::specs::Urls::url_of))]
    pub fn read(alloc: Global, text: &str) -> Result<Option<WebhookUrl>, AllocError>
        ensures { IfOk result (λ url. url ≡ url_of text.now) }
    {
        let Some(rest) = text.strip_prefix("http://") else {
            return Ok(None);
        };
        let (host, path) = split_path(rest);
        let Some(port) = port_of(host) else {
            return Ok(None);
        };
        if !is_path(path) {
            return Ok(None);
        }
        Ok(Some(WebhookUrl {
            text: Text::read(alloc, text)?,
            host: Text::read(alloc, host)?,
            port,
            target: target_of(alloc, path)?,
        }))
    }

    /// The URL as it is written: the text that reads as this URL.
    pub fn as_str(&self) -> &str
        ensures text { result.now ≡ self.now.text }
        ensures parts { url_of result.now ≡ Some self.now }
    {
        self.text.as_str()
    }

    /// The host, with the port where one is written: what the field `Host` of a request says (RFC 9112 section 3.2).
    pub fn host(&self) -> &str
        ensures { result.now ≡ self.now.host }
    {
        self.host.as_str()
    }

    /// The number of the port, 1 to 65535: 80 where none is written.
    pub fn port(&self) -> u16
        ensures { result ≡ self.now.port }
    {
        self.port
    }

    /// The target of a request in its origin form (RFC 9112 section 3.2.1): the path as it is written, `/` for none.
    pub fn target(&self) -> &str
        ensures { result.now ≡ self.now.target }
    {
        self.target.as_str()
    }
}

// What stands before the first slash, and what stands behind it.
fn split_path(text: &str) -> (&str, &str)
    ensures host { result.0.now ≡ before_first is_slash text.now }
    ensures path { result.1.now ≡ after_first is_slash text.now }
{
    text.split_once('/').unwrap_or((text, ""))
}

// Whether each byte is visible ASCII other than `#`.
fn is_path(text: &str) -> bool
    ensures { result ≡ list_all is_in_path text.now }
{
    text.bytes()
        .all(|byte| byte.is_ascii_graphic() && byte != b'#')
}

fn target_of(alloc: Global, path: &str) -> Result<Text, AllocError>
    ensures { IfOk result (λ target. target ≡ 47 ∷ path.now) }
{
    let target = format!(in alloc; "/{path}")?;
    Ok(Text::from_string(target))
}
