use am_text::Text;

/// Whom the groups of a route tell, and how long they wait.
#[derive(Drop)]
pub struct Pace {
    /// The name of the route's receiver.
    pub receiver: Text,
    /// How many milliseconds after its first member came a group is flushed for the first time.
    pub group_wait: u64,
    /// How many milliseconds after a flush of a group its next one comes.
    pub group_interval: u64,
}
