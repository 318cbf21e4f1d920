//! What one object of a posted list says, before anything that is absent is filled in.

use am_labels::{Annotations, LabelSet};
use am_text::{Moment, Text};

/// What an object says of an alert. A moment that is absent is `None`.
#[derive(Drop)]
pub struct Written {
    pub labels: LabelSet,
    pub annotations: Annotations,
    pub starts_at: Option<Moment>,
    pub ends_at: Option<Moment>,
    pub generator_url: Text,
}
