//! HTTP clients and calls of webhooks over sockets that never wait. It has no handle, no clock and no poll: whoever
//! has these gives each client and each call its turns.
#![tactic(auto)]

mod call;
mod calls;
mod client;
mod clients;
mod clock;
mod dialed;
mod giving;
mod host;
mod lanes;
mod outgoing;
mod socket;
mod status;
mod weight;

pub use calls::{Calls, Progress, REQUEST_BYTES};
pub use client::{OWN_BYTES, Turn};
pub use clients::{Clients, POOL_BYTES};
pub use clock::{ClockNews, SteadyClock};
pub use dialed::Dialed;
pub use host::{Host, Verdict};
pub use lanes::{Lanes, WAITING_BYTES};
pub use socket::{Moved, PIECE_BYTES, Socket, read_from, write_to};
pub use weight::Weighs;
