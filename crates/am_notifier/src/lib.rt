//! What an instance notifies of, of all tenants: groups and their timers, flushes, attempts and allowances.
#![tactic(auto)]

mod delivery;
mod flushing;
mod following;
mod forgetting;
mod next;
mod notifier;
mod position;
mod positions;
mod sets;
mod unmuting;

pub use flushing::Basis;
pub use next::Next;
pub use notifier::Notifier;
pub use position::Position;
pub use sets::no_sets;
