use am_labels::LabelSet;

/// What came with items that were accepted.
#[derive(Drop)]
pub struct Came {
    /// The label sets of the alerts, each with whether none of it was held.
    pub sets: Vec<(LabelSet, bool)>,
    /// Whether a configuration came that takes the place of the one that was held.
    pub is_configured: bool,
}
