//! What is stored of the tenants: items of four kinds, each with a key and a stamp, and the best of a list of them.
#![tactic(auto)]

mod counts;
mod edits;
mod entry;
mod fault;
mod held;
mod held_item;
mod item;
mod kept;
mod key;
mod label_sets;
pub mod laws;
mod map;
mod matchers;
mod retirement;
mod shared_item;
mod silence;
mod spelled;
mod stamp;

pub use counts::{Counts, GREATEST_COUNT};
pub use entry::{EntryDetails, EntryKey, SentEntry};
pub use fault::Fault;
pub use held::{Held, Put, Standing};
pub use item::{Alert, AlertDetails, Item, Thing};
pub use kept::Kept;
pub use key::ThingKey;
pub use label_sets::LabelSets;
pub use map::SharedMap;
pub use matchers::Matchers;
pub use shared_item::{Part, SharedItem, share_all, to_shared};
pub use silence::{Silence, SilenceDetails, SilenceId};
pub use stamp::{Stamp, Stamped};
