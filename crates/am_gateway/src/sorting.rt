//! What a world puts out, sorted.
ghost use Rattle.std.specs.Prelude.{◌≡◌, ◌++◌, ◌∷◌, ℕ, List, [], Some, None, IfOk, OnErr, OnOk, if◌then◌else◌};
ghost use Rattle.am_serve.specs.Lanes.{under_way_of, waiting_of};
ghost use Rattle.am_tenant.specs.Names.{same};
ghost use Rattle.am_gateway.specs.Sorting.{Keeps, KeepsSome, Queues, QueuesSome, is_on, or_else, reply_on};

use crate::gateway::Try;
use am_http::ConnectionId;
use am_serve::Lanes;
use am_server::Notice;
use am_tenant::TenantName;
use am_text::Octets;
use am_world::Output;
use std::alloc::AllocError;
use std::collections::VecDeque;

/// A reply to a connection whose request came before.
#[derive(Drop)]
pub struct LateReply {
    pub connection: ConnectionId,
    pub bytes: Octets,
}

/// Puts the notices among outputs behind those of their tenants that wait, gives the first reply on a connection, if
/// one is named, and puts those on other connections behind the late ones that wait.
///
/// # Errors
/// Out of memory: the reply is lost, and of the notices and of the late replies all but a first part.
pub fn sort(
    notices: &mut Lanes<Notice<Try>>,
    replies: &mut VecDeque<LateReply>,
    outputs: Vec<Output>,
    connection: Option<u64>,
) -> Result<Option<Octets>, AllocError>
    ensures reply { IfOk result (λ reply. reply ≡ reply_on connection outputs.items) }
    ensures queued { OnOk result (Queues notices.old.lanes outputs.items notices.new.lanes) }
    ensures kept { OnOk result (Keeps connection replies.old.items outputs.items replies.new.items) }
    ensures err { OnErr result (QueuesSome notices.old.lanes outputs.items notices.new.lanes) }
    ensures err_kept { OnErr result (KeepsSome connection replies.old.items outputs.items replies.new.items) }
    ensures under_way { (t : List ℕ) → under_way_of t notices.new.lanes ≡ under_way_of t notices.old.lanes }
{
    let mut reply = None;
    for output in outputs {
        match output {
            Output::Reply {
                connection: answered,
                bytes,
            } => {
                let late = LateReply {
                    connection: answered,
                    bytes,
                };
                reply = keep(reply, replies, connection, late)?;
            }
            Output::Notice {
                attempt,
                tries,
                url,
                bytes,
            } => line_up(
                notices,
                Notice {
                    name: Try { attempt, tries },
                    url,
                    request: bytes,
                },
            )?,
            Output::Send(message) => drop(message),
        }
    }
    Ok(reply)
}

// Puts a notice behind those of its tenant that wait. Out of memory: it is lost.
fn line_up(notices: &mut Lanes<Notice<Try>>, notice: Notice<Try>) -> Result<(), AllocError>
    ensures queued { OnOk result ((t : List ℕ) → waiting_of t notices.new.lanes
        ≡ (if same t notice.name.attempt.tenant then waiting_of t notices.old.lanes ++ notice ∷ []
        else waiting_of t notices.old.lanes)) }
    ensures err { OnErr result ((t : List ℕ) → waiting_of t notices.new.lanes ≡ waiting_of t notices.old.lanes) }
    ensures under_way { (t : List ℕ) → under_way_of t notices.new.lanes ≡ under_way_of t notices.old.lanes }
{
    let tenant = tenant_of(&notice);
    notices.push(tenant, notice)
}

// Whose notice it is.
fn tenant_of(notice: &Notice<Try>) -> TenantName
    ensures { result ≡ notice.now.name.attempt.tenant }
{
    notice.name.attempt.tenant
}

// The reply so far, or this one, where it is on the connection that is named; one on another waits behind the late
// ones. Out of memory: it is lost.
fn keep(
    so_far: Option<Octets>,
    replies: &mut VecDeque<LateReply>,
    connection: Option<u64>,
    late: LateReply,
) -> Result<Option<Octets>, AllocError>
    ensures reply { IfOk result (λ reply.
        reply ≡ or_else so_far (if is_on connection late.connection then Some late.bytes else None)) }
    ensures kept { OnOk result (replies.new.items
        ≡ (if is_on connection late.connection then replies.old.items else replies.old.items ++ late ∷ [])) }
    ensures err { OnErr result (replies.new.items ≡ replies.old.items) }
{
    if is_on(connection, late.connection) {
        return Ok(first_reply(so_far, late.bytes));
    }
    replies.push_back(late)?;
    Ok(so_far)
}

// The reply so far, or this one.
fn first_reply(so_far: Option<Octets>, bytes: Octets) -> Option<Octets>
    ensures { result ≡ or_else so_far (Some bytes) }
{
    match so_far {
        Some(reply) => Some(reply),
        None => Some(bytes),
    }
}

// Whether a connection is the one that is named, if one is.
fn is_on(connection: Option<u64>, answered: ConnectionId) -> bool
    ensures { result ≡ is_on connection answered }
{
    match connection {
        Some(named) => named == answered.number(),
        None => false,
    }
}
