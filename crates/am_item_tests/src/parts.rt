//! Moments, texts, label sets and what is held, of which the examples are made. Where memory runs out a part is empty or
//! absent, and no example that has it holds.

use am_alert::read_posted;
use am_item::{Held, Item, SharedItem, Stamp, Thing};
use am_labels::{Label, LabelRefusal, LabelSet};
use am_text::{Failure, Moment, Text};
use std::alloc::{AllocError, Global};
use std::test::Fail;

/// 2025-06-15T15:06:40Z, when all is posted.
pub const POSTED_AT: u64 = 1_750_000_000_000;

pub fn at(milliseconds: u64) -> Moment {
    Moment::from_milliseconds(milliseconds).unwrap_or(Moment::greatest())
}

pub fn text(alloc: Global, text: &str) -> Text {
    match Text::read(alloc, text) {
        Ok(text) => text,
        Err(_) => Text::from_string(String::new(alloc)),
    }
}

/// The label set of one label, `a` with this value, or of none where the value is empty.
pub fn label_set(alloc: Global, value: &str) -> Result<LabelSet, Failure<LabelRefusal>> {
    let label = Label {
        name: text(alloc, "a"),
        value: text(alloc, value),
    };
    let labels = Vec::from_array(alloc, [label])?;
    LabelSet::from_pairs(alloc, labels)
}

/// Puts a thing that was written at so many milliseconds, whatever it replaces.
pub fn hold(
    alloc: Global,
    held: &mut Held,
    thing: Thing,
    milliseconds: u64,
) -> Result<(), AllocError> {
    let stamp = Stamp {
        moment: at(milliseconds),
        instance: 1,
        incarnation: 1,
        count: 1,
    };
    let item = SharedItem::new(alloc, Item { stamp, thing })?;
    match held.put(item) {
        Ok(_) => Ok(()),
        Err(refused) => Err(refused),
    }
}

/// Puts the alerts of a posted body.
pub fn hold_posted(
    alloc: Global,
    held: &mut Held,
    body: &str,
    milliseconds: u64,
) -> Result<(), Fail> {
    for alert in read_posted(alloc, body.as_bytes(), at(POSTED_AT), 300_000)? {
        hold(alloc, held, Thing::Alert(alert), milliseconds)?;
    }
    Ok(())
}
