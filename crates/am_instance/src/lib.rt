//! One instance of several by itself: the bytes of its connections, what it has of all tenants, and what each thing
//! that happens does there. A program that carries its messages could drive it alone.
#![tactic(auto)]

mod connections;
mod feeding;
mod forcing;
mod given;
mod here;
mod instance;
mod learning;
mod leaving;
mod notices;
mod outputs;
mod receiving;
mod restarting;
mod standing;
mod tenants;
mod ticking;

pub use given::{Occasion, Piece};
pub use instance::{Begin, Instance};
pub use notices::Ended;
pub use outputs::Speaker;
pub use standing::Standing;
