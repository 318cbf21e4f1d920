//! `am_admin`: what those who run a service ask of it on a port of their own: how its ring stands, what was counted,
//! and changes of the ring.
#![tactic(auto)]

mod called;
mod calm;
mod counted;
mod desk;
mod metrics;
mod port;
mod telling;

pub use called::Called;
pub use counted::Counted;
pub use port::AdminPort;
