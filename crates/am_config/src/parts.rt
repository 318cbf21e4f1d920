//! The parts of a configuration.

use am_draft::Grouping;
use am_match::Matcher;
use am_text::{Listed, Text};
use am_url::WebhookUrl;

/// What holds for a route: what it says itself, for the rest what the nearest route around it says, else the default.
#[derive(Clone, Copy, PartialEq, Eq)]
pub struct Settings {
    /// The place of its receiver in the configuration's list.
    pub receiver: usize,
    /// The number of the route whose `group_by` holds; without one alerts are grouped by no label.
    pub grouping: Option<usize>,
    /// How long a new group waits for its first notice, in milliseconds.
    pub group_wait: u64,
    /// How long a group waits between two notices, in milliseconds, at least 1,000.
    pub group_interval: u64,
    /// How long it is until a notice that says nothing new, in milliseconds, at least 1,000.
    pub repeat_interval: u64,
}

/// A route, apart from the routes within it.
#[derive(Drop)]
pub struct Route {
    /// What holds for it.
    pub settings: Settings,
    /// Its own `group_by`.
    pub grouping: Option<Grouping>,
    /// Its matchers, which all must take an alert; the root has none.
    pub matchers: Listed<Matcher>,
    /// `continue`: an alert that it takes goes on to the routes that follow it in the same list.
    pub goes_on: bool,
}

/// A webhook of a receiver.
#[derive(Drop)]
pub struct Webhook {
    /// Where notices are sent to.
    pub url: WebhookUrl,
    /// Whether resolved alerts are told too.
    pub send_resolved: bool,
    /// The most alerts of a notice, 0 for any number.
    pub max_alerts: u64,
}

/// A receiver of notices.
#[derive(Drop)]
pub struct Receiver {
    /// Its name, which may be empty; no two receivers have one name.
    pub name: Text,
    /// Its webhooks in the order in which they are written, at most 16.
    pub webhooks: Listed<Webhook>,
}

/// An inhibit rule.
#[derive(Drop)]
pub struct Rule {
    /// The matchers that all take an alert which inhibits.
    pub source: Listed<Matcher>,
    /// The matchers that all take an alert which is inhibited.
    pub target: Listed<Matcher>,
    /// The names of the labels in which both must be equal.
    pub equal: Listed<Text>,
}
