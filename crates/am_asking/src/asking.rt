//! What a request asks for: the head of an HTTP/1.x message (RFC 9112), without a body.

ghost use Rattle.std.specs.Prelude.{◌≡◌};
ghost use Rattle.am_asking.specs.Changes.{change_named, forced, happens, instance_named};

use am_event::Event;
use am_tenant::TenantName;
use httparse::{EMPTY_HEADER, Header, Request, Status};

/// How many bytes a head has at most.
const MOST_BYTES: usize = 8_192;

/// How many field lines a head has at most.
const MOST_FIELDS: usize = 64;

/// What is asked for.
#[derive(Drop)]
pub enum Asked {
    /// How the ring and its instances stand.
    Ring,
    /// What was counted, for Prometheus.
    Metrics,
    /// Whether the program lives.
    Healthy,
    /// Whether tenants are served.
    Ready,
    /// That this happens.
    Change(Event),
}

/// Why a request isn't answered.
#[derive(Clone, Copy)]
pub enum Unasked {
    /// It is no head of HTTP/1.x.
    Malformed,
    /// A page in a browser sent it.
    FromPage,
    /// It has a body, as what a webhook is sent.
    HasBody,
    /// Nothing stands at its path.
    NoSuchPath,
    /// Its method isn't the one that the path takes.
    WrongMethod,
    /// Its head is too long.
    LongHead,
}

impl Unasked {
    /// The status code of its reply (RFC 9110 section 15; RFC 6585 section 5).
    pub fn status(self) -> u16 {
        match self {
            Unasked::Malformed => 400,
            Unasked::FromPage | Unasked::HasBody => 403,
            Unasked::NoSuchPath => 404,
            Unasked::WrongMethod => 405,
            Unasked::LongHead => 431,
        }
    }
}

/// What a head asks for, once it is whole.
pub fn read(head: &[u8]) -> Option<Result<Asked, Unasked>> {
    let mut fields = [EMPTY_HEADER; MOST_FIELDS];
    let mut request = Request::new(&mut fields);
    match request.parse(head) {
        Ok(Status::Complete(_)) => Some(asked_by(&request)),
        Ok(Status::Partial) if head.len() < MOST_BYTES => None,
        Ok(Status::Partial) => Some(Err(Unasked::LongHead)),
        Err(_) => Some(Err(Unasked::Malformed)),
    }
}

// What a whole head asks for.
fn asked_by(request: &Request<'_, '_>) -> Result<Asked, Unasked> {
    let (Some(method), Some(path)) = (request.method, request.path) else {
        return Err(Unasked::Malformed);
    };
    if request.headers.iter().any(is_of_page) {
        return Err(Unasked::FromPage);
    }
    if request.headers.iter().any(is_of_body) {
        return Err(Unasked::HasBody);
    }
    asked_at(method, path)
}

// Whether a field tells that a page in a browser sent the request: the browser names the page's origin then (RFC 6454
// section 7). Pages of any site reach the port by a browser on this machine, and none has business here.
fn is_of_page(field: &Header<'_>) -> bool {
    field.name.eq_ignore_ascii_case("Origin")
}

// Whether a field tells that a body follows. What is asked for has none, and what a webhook is sent always has one: so
// a tenant whose webhook's URL names this port has nothing happen.
fn is_of_body(field: &Header<'_>) -> bool {
    field.name.eq_ignore_ascii_case("Transfer-Encoding")
        || field.name.eq_ignore_ascii_case("Content-Length") && field.value != b"0".as_slice()
}

// What a method asks for at a path.
fn asked_at(method: &str, path: &str) -> Result<Asked, Unasked> {
    let (asked, by) = match path {
        "/ring" => (Asked::Ring, "GET"),
        "/metrics" => (Asked::Metrics, "GET"),
        "/-/healthy" => (Asked::Healthy, "GET"),
        "/-/ready" => (Asked::Ready, "GET"),
        _ => match change_at(path) {
            Some(change) => (Asked::Change(change), "POST"),
            None => return Err(Unasked::NoSuchPath),
        },
    };
    if method == by {
        Ok(asked)
    } else {
        Err(Unasked::WrongMethod)
    }
}

// The event that stands at a path, as `/ring/join/4`.
fn change_at(path: &str) -> Option<Event> {
    let (verb, name) = path.strip_prefix("/ring/")?.split_once('/')?;
    change_named(verb, name)
}

// The event of this verb, of the instance or the tenant of this name.
fn change_named(verb: &str, name: &str) -> Option<Event>
    ensures { result ≡ change_named verb.now name.now }
{
    if verb == "force" {
        forced(name)
    } else {
        happens(verb, instance_named(name)?)
    }
}

// What happens to an instance by this verb.
fn happens(verb: &str, instance: u8) -> Option<Event>
    ensures { result ≡ happens verb.now instance }
{
    match verb {
        "join" => Some(Event::Join { instance }),
        "leave" => Some(Event::Leave { instance }),
        "crash" => Some(Event::Crash { instance }),
        "restart" => Some(Event::Restart { instance }),
        _ => None,
    }
}

// That the tenant of this name is settled by force.
fn forced(name: &str) -> Option<Event>
    ensures { result ≡ forced name.now }
{
    match TenantName::read(name.as_bytes()) {
        Ok(tenant) => Some(Event::Force { tenant }),
        Err(_) => None,
    }
}

// The number of an instance that is named by one digit.
fn instance_named(name: &str) -> Option<u8>
    ensures { result ≡ instance_named name.now }
{
    match name.as_bytes() {
        [digit] if digit.is_ascii_digit() => Some(*digit - b'0'),
        _ => None,
    }
}
