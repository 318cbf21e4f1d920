//! What is held of all tenants, and the configuration that is in use for each.
//!
//! A configuration's text is read when it is first used, and what was read is kept until a newer one is put.
#![tactic(auto)]

mod elsewhere;
mod holdings;
pub mod laws;
mod reading;
mod replacing;

pub use elsewhere::Elsewhere;
pub use holdings::Holdings;
pub use replacing::is_replaced;
