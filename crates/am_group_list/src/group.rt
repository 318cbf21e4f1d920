use am_labels::LabelSet;
use am_text::Text;

/// A group of alerts, as it is listed.
///
/// Groups are ordered by the names of their receivers, then by their labels, then by their routes.
#[derive(PartialEq, Eq, PartialOrd, Ord, Drop)]
pub struct ListedGroup {
    /// The name of the receiver of its route.
    pub receiver: Text,
    /// The labels that its alerts are grouped by.
    pub labels: LabelSet,
    /// The number of its route.
    pub route: usize,
}
