//! `am_gateway`: a world behind a server's port. Pieces of connections go to the world as events, and the messages of
//! its instances to and fro; what it puts out comes back as replies and notices.
#![tactic(auto)]

mod gateway;
mod learning;
mod passing;
mod restarting;
mod serving;
mod sorting;

pub use gateway::{Gateway, Try};
pub use serving::has_quorum;
