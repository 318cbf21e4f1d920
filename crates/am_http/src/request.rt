//! Connections' names, and what a connection asks for.
ghost use Rattle.std.specs.Prelude.{◌≡◌, ◌<◌, ◌^◌};

use crate::refusal::FrontRefusal;
use am_tenant::TenantName;
use am_text::{Octets, Text};
use std::marker::Model;

/// The name of a connection.
#[derive(Clone, Copy, PartialEq, Eq, PartialOrd, Ord)]
pub struct ConnectionId {
    number: u64,
}

impl Model for ConnectionId {
    ghost use Rattle.std.specs.Prelude.{ℕ, ◌<◌, ◌^◌};

    ghost Value = { ℕ };

    ghost view = { λ c. c.number };

    ghost invariant = { λ c. c.number < 2 ^ 64 };

    ghost inverse = { λ n. record { number = n } };
}

impl ConnectionId {
    /// The connection with this number.
    pub fn new(number: u64) -> ConnectionId
        ensures { result ≡ number }
    {
        ConnectionId { number }
    }

    /// The number of the connection.
    pub fn number(self) -> u64
        ensures value { result ≡ self }
        ensures bound { result < 2 ^ 64 }
    {
        self.number
    }
}

/// What a request does.
#[derive(Clone, Copy, PartialEq, Eq)]
pub enum Method {
    /// `GET`, it reads.
    Get,
    /// `POST`, it brings something.
    Post,
    /// `DELETE`, it takes something away.
    Delete,
}

/// What a request speaks of, by its path.
#[derive(Drop)]
pub enum Endpoint {
    /// `/alertmanager/api/v2/alerts`, by GET and POST: the alerts.
    Alerts,
    /// `/alertmanager/api/v2/alerts/groups`, by GET: the alerts in their groups.
    AlertGroups,
    /// `/alertmanager/api/v2/silences`, by GET and POST: the silences.
    Silences,
    /// `/alertmanager/api/v2/silence/{id}`, by GET and DELETE: the silence with this identifier, undecoded.
    Silence(Text),
    /// `/alertmanager/api/v2/receivers`, by GET: the receivers of the configuration.
    Receivers,
    /// `/api/v1/alerts`, by GET, POST and DELETE: the configuration.
    Configuration,
}

/// A whole request of a tenant.
#[derive(Drop)]
pub struct Request {
    /// The tenant that the header `X-Scope-OrgID` names.
    pub tenant: TenantName,
    /// The method, which the endpoint takes.
    pub method: Method,
    /// What the path names.
    pub endpoint: Endpoint,
    /// What follows the first `?` of the target, undecoded; empty where there is none.
    pub query: Text,
    /// The body, at most 1,048,576 bytes.
    pub body: Octets,
}

/// What a connection's bytes say so far.
#[derive(Drop)]
pub enum Fed {
    /// More bytes are needed.
    Waits,
    /// The request is refused.
    Refused(FrontRefusal),
    /// `GET /ready` came whole, with or without a tenant: whether the program is ready is asked.
    Ready,
    /// A whole request of a tenant came.
    Request(Request),
}
