//! What an instance is given where something happens.

use am_http::ConnectionId;
use am_limit::LimitBook;
use am_ring::Ring;
use am_text::Moment;

/// When it happens, and what is so of all tenants then.
#[derive(Drop)]
pub struct Occasion<'a> {
    /// The moment at which it happens.
    pub moment: Moment,
    /// The key of the service, of which the words of all tenants are made.
    pub service_key: &'a [u8; 32],
    /// The limits of all tenants.
    pub limits: &'a LimitBook,
    /// The rings so far, by epoch.
    pub rings: &'a [Ring],
    /// The first incarnation, which is that of every instance until it is joined or restarted.
    pub first: u32,
    /// The present incarnations of the instances 1 to 8, in their order.
    pub incarnations: &'a [u32],
}

/// Bytes that came on a connection.
#[derive(Drop)]
pub struct Piece<'a> {
    /// The connection.
    pub connection: ConnectionId,
    /// The bytes.
    pub bytes: &'a [u8],
}
