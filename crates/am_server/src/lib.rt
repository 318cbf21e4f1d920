//! `am_server`: one thread that serves the clients of a service and calls its webhooks, over sockets that never wait.
#![tactic(auto)]

mod hall;
mod server;
mod service;
mod side;
mod stream;

pub use server::{Server, listen};
pub use service::{Notice, Service};
pub use side::SidePort;
