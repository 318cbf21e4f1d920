use crate::group::Group;
use am_text::{Listed, Moment};

/// What is kept of an alert.
#[derive(Drop)]
pub struct Known {
    /// The moment since which it is held.
    pub since: Moment,
    /// The groups that it is in, each once.
    pub groups: Listed<Group>,
}
