ghost use Rattle.std.specs.Prelude.{◌≡◌, IfOk, string_bytes};
ghost use Rattle.am_scenario.specs.Request.{request_text, tenant_line};

use am_limit::Limits;
use am_tenant::TenantName;
use am_text::Text;
use std::alloc::{AllocError, Global};

/// What one line of a scenario asks for.
#[derive(Drop)]
pub enum Command {
    /// An empty line or a comment.
    Skip,
    /// The own moment of the events that follow, in milliseconds since 1970-01-01T00:00:00Z.
    At(u64),
    /// A tick at that moment.
    Tick,
    /// A connection is opened to an instance.
    Open {
        connection: Text,
        instance: u64,
    },
    /// The bytes of a text come on a connection.
    Bytes {
        connection: Text,
        text: Text,
    },
    /// A connection is opened to an instance, and a whole request comes on it.
    Call {
        connection: Text,
        instance: u64,
        request: Request,
    },
    /// A tenant has these limits from now on.
    Limits {
        tenant: TenantName,
        limits: Limits,
    },
    /// Every message that waits is delivered.
    Pump,
    /// The oldest message that waits and goes this way isn't delivered by `pump`.
    Drop(Way),
    /// The message of this name is delivered, again too.
    Deliver(SaidName),
    /// The program's own receiver answers notices with this status from now on, or not at all.
    Hook(Option<u16>),
    /// The cluster changes.
    Change(ClusterChange),
    /// Every instance that is behind learns the rings that it lacks.
    LearnAll,
}

/// How the cluster changes, each an event of its own. Instances are named by number.
#[derive(Drop)]
pub enum ClusterChange {
    /// The instance comes into the ring.
    Join(u64),
    /// The instance leaves the ring.
    Leave(u64),
    /// The instance goes down.
    Crash(u64),
    /// The instance comes up again.
    Restart(u64),
    /// The instance learns the next ring.
    Learn(u64),
    /// The tenant's replicas count as settled.
    Force(TenantName),
}

/// Which messages a `drop` line means: those about a tenant, of a kind, from one instance to another.
#[derive(Drop)]
pub struct Way {
    pub tenant: TenantName,
    pub kind: u64,
    pub from: u64,
    pub to: u64,
}

/// The name of a message, as a `deliver` line says it.
#[derive(Drop)]
pub struct SaidName {
    pub tenant: TenantName,
    pub from: u64,
    pub incarnation: u64,
    pub to: u64,
    pub count: u64,
}

/// The request of a `call` line.
#[derive(Drop)]
pub struct Request {
    pub tenant: Option<Text>,
    pub method: Text,
    pub path: Text,
    pub body: Text,
}

impl Request {
    /// The request as it is sent: head and body by RFC 9112, with a `Content-Length` always.
    pub fn to_text(&self, alloc: Global) -> Result<String, AllocError>
        ensures { IfOk result (λ text. string_bytes text ≡ request_text self.now) }
    {
        let tenant = self.tenant_line(alloc)?;
        let method = self.method.as_str();
        let path = self.path.as_str();
        let body = self.body.as_str();
        let length = body.len();
        format!(in alloc;
            "{method} {path} HTTP/1.1\r\nHost: amring\r\n{tenant}Content-Length: {length}\r\n\r\n{body}"
        )
    }

    /// The header line that names the tenant, empty where there is none.
    fn tenant_line(&self, alloc: Global) -> Result<String, AllocError>
        ensures { IfOk result (λ line. string_bytes line ≡ tenant_line self.now.tenant) }
    {
        match &self.tenant {
            Some(tenant) => {
                let name = tenant.as_str();
                format!(in alloc; "X-Scope-OrgID: {name}\r\n")
            }
            None => Ok(String::new(alloc)),
        }
    }
}
