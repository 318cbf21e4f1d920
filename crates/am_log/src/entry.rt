//! What is told.

use am_tenant::TenantName;
use am_text::Text;

/// What a service tells of itself.
#[derive(Drop)]
pub enum Entry {
    /// Connections are taken at this address.
    Listening(Text),
    /// Those who run the service ask at this address.
    AdminListening(Text),
    /// The file of limits was read, and so many tenants have new ones.
    LimitsRead(u64),
    /// The file of limits can't be read or is refused, for this reason.
    LimitsRefused(Text),
    /// A call of a webhook failed.
    WebhookFailed(ToldFailure),
    /// So many connections were let go, for this reason.
    ConnectionsLetGo(LetGo, u64),
    /// This is so of the wall clock.
    Clock(Text),
    /// The instance of this number stopped, for this cause.
    InstanceStopped(u8, Text),
    /// The instance of this number, which stopped before, is up again.
    InstanceUp(u8),
    /// This was done by hand.
    Changed(Change),
}

/// What those who run a service have it do.
#[derive(Drop)]
pub enum Change {
    /// The instance of this number was taken into the ring.
    Joined(u8),
    /// The instance of this number was taken out of the ring.
    Left(u8),
    /// The instance of this number was shut down.
    Crashed(u8),
    /// The instance of this number was restarted.
    Restarted(u8),
    /// The replicas of this tenant were settled by force.
    Forced(TenantName),
}

/// A call of a webhook that failed.
#[derive(Drop)]
pub struct WebhookFailure {
    pub tenant: TenantName,
    /// The name of the receiver whose webhook it is.
    pub receiver: Text,
    /// The status of the webhook's answer, where it gave one.
    pub status: Option<u16>,
    /// Which try of its notice it was, from 1 on.
    pub tries: u8,
    /// The instance that tried, 1 to 8.
    pub instance: u8,
}

/// A call of a webhook that failed, as it is told.
#[derive(Drop)]
pub struct ToldFailure {
    pub failure: WebhookFailure,
    /// How many of the tenant's failures were left out since one was last told.
    pub left_out: u64,
}

/// Why a connection was let go.
#[derive(Clone, Copy, PartialEq, Eq)]
pub enum LetGo {
    /// It gave its place to one that waited.
    Crowded,
    /// Its reply wasn't read, and the replies that weren't read yet held too much.
    Unread,
    /// It made no progress, or was there, for too long.
    Late,
}
