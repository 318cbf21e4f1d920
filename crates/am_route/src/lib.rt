//! The routes of alerts: the places of the route tree at which they end up.
#![tactic(auto)]

mod answers;
mod id;
mod routing;

pub use id::RouteId;
pub use routing::{routes_of, routes_of_each};
