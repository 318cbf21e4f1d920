//! What the object of a posted body says, before it is judged.

use am_match::Operator;
use am_text::{Listed, Moment, Text};

/// What an object says of a matcher; its name may be no label name.
#[derive(Drop)]
pub struct WrittenMatcher {
    pub operator: Operator,
    pub name: Text,
    pub value: Text,
}

/// What an object says of a silence.
#[derive(Drop)]
pub struct Written {
    /// The identifier of the silence that it replaces: none, or a text that isn't empty.
    pub id: Option<Text>,
    pub matchers: Listed<WrittenMatcher>,
    pub starts_at: Moment,
    pub ends_at: Moment,
    pub created_by: Text,
    pub comment: Text,
}
