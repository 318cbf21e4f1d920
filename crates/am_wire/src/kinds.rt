//! The version of messages, and the kinds of things and of messages, by their numbers.

ghost use Rattle.std.specs.Prelude.{◌≡◌};
ghost use Rattle.am_item.specs.Shared.{thing_in};
ghost use Rattle.am_wire.specs.ItemFields.{kind_of_thing, thing_number};
ghost use Rattle.am_wire.specs.Messages.{body_number, kind_of_body};

use crate::message::Body;
use am_item::Part;

/// The version of all messages. It changes with how any of them is spelled.
pub(crate) const VERSION: u8 = 2;

/// The kind of a thing that an item holds.
#[derive(Drop)]
pub(crate) enum ThingKind {
    Configuration,
    Silence,
    Alert,
    SentEntry,
}

/// The number of the kind that an item is of, 1 to 4.
pub(crate) fn thing_number(part: &Part<'_>) -> u8
    ensures { result ≡ thing_number (kind_of_thing (thing_in part.now)) }
{
    match part {
        Part::Configuration(_) => 1,
        Part::Silence(..) => 2,
        Part::Alert(..) => 3,
        Part::SentEntry(..) => 4,
    }
}

/// The kind of a message.
#[derive(Drop)]
pub(crate) enum BodyKind {
    Get,
    Answer,
    Put,
    Ack,
    Ask,
    State,
    Got,
}

/// The number of a body's kind, 1 to 7, which its message begins with behind the version.
pub fn body_number(body: &Body) -> u8
    ensures { result ≡ body_number (kind_of_body body.now) }
{
    match body {
        Body::Get { .. } => 1,
        Body::Answer { .. } => 2,
        Body::Put { .. } => 3,
        Body::Ack { .. } => 4,
        Body::Ask { .. } => 5,
        Body::State { .. } => 6,
        Body::Got { .. } => 7,
    }
}
