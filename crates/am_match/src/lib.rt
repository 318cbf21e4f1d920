//! Matchers of labels: what they take, their text and their bytes.
//!
//! The text of matchers is one or more of them with commas between, perhaps within `{` and `}`: spaces, a label name,
//! spaces, an operator (`=`, `!=`, `=~`, `!~`), spaces, a value, spaces. A value stands in quotation marks, with `\"`,
//! `\\` and `\n`, or is a run of characters without `,`, `"`, `{`, `}`, its end spaces removed; it may be empty.
#![tactic(auto)]

mod checking;
pub mod laws;
mod matcher;
mod printing;
mod reading;
mod refusal;
mod spelling;
mod taking;

pub use checking::{check_pattern, check_patterns, read_matchers, reread_matchers};
pub use matcher::{Matcher, Operator};
pub use printing::print_matchers;
pub use refusal::{MatcherRefusal, SpellRefusal, TakeRefusal};
pub use spelling::spell_matchers;
pub use taking::take_matchers;
