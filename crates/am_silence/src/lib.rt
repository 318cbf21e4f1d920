//! Silences: from the body of a post to what is to be stored, and which of those that are held silence an alert.
#![tactic(auto)]

mod book;
mod change;
mod fields;
mod held;
mod posted;
mod refusal;
mod silenced;
mod silencing;
mod state;
mod written;

pub use book::SilenceBook;
pub use change::{Change, SilenceWrite};
pub use held::HeldSilence;
pub use posted::{PostedSilence, read_silence};
pub use refusal::SilenceRefusal;
pub use silenced::Silenced;
pub use state::SilenceState;
