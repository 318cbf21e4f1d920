ghost use Rattle.std.specs.Prelude.{◌≡◌};

use crate::entry::SentEntry;
use crate::silence::Silence;
use crate::stamp::Stamp;
use am_labels::{Annotations, LabelSet};
use am_text::{Moment, Text};

/// What is stored of a tenant: a thing, and when and where it was written. Of two items of one key the one with
/// the greater stamp stays.
#[derive(Drop)]
pub struct Item {
    /// When and where it was written.
    pub stamp: Stamp,
    /// What was written.
    pub thing: Thing,
}

/// A thing that is stored. Its kind and what names it within the kind are its key.
#[derive(Drop)]
pub enum Thing {
    /// The tenant's configuration as it was posted; without a text it was deleted. A tenant has one.
    Configuration(Option<Text>),
    /// A silence, named by its identifier.
    Silence(Silence),
    /// An alert, named by its label set.
    Alert(Alert),
    /// What a webhook was last told of a group, named by receiver, group and webhook.
    SentEntry(SentEntry),
}

/// An alert as it was posted.
#[derive(Drop)]
pub struct Alert {
    /// What identifies the alert.
    pub labels: LabelSet,
    /// What is told of the alert beside its labels.
    pub annotations: Annotations,
    /// Since when it fires.
    pub starts_at: Moment,
    /// From when on it fires no more.
    pub ends_at: Moment,
    /// Where it comes from: a URL, or empty.
    pub generator_url: Text,
}

/// What an alert is beside its label set.
#[derive(Drop)]
pub struct AlertDetails {
    /// What is told of the alert beside its labels.
    pub annotations: Annotations,
    /// Since when it fires.
    pub starts_at: Moment,
    /// From when on it fires no more.
    pub ends_at: Moment,
    /// Where it comes from: a URL, or empty.
    pub generator_url: Text,
}

impl Alert {
    ghost use Rattle.am_item.specs.Details.{alert_details};

    // The label set, and what the alert is beside it.
    pub(crate) fn into_parts(self) -> (LabelSet, AlertDetails)
        ensures { result ≡ (self.labels, alert_details self) }
    {
        let Alert {
            labels,
            annotations,
            starts_at,
            ends_at,
            generator_url,
        } = self;
        let details = AlertDetails {
            annotations,
            starts_at,
            ends_at,
            generator_url,
        };
        (labels, details)
    }
}
