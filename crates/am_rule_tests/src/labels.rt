//! Label sets of one label.

use am_labels::{Label, LabelSet};
use am_text::Text;
use std::alloc::Global;
use std::test::Fail;

pub(crate) fn label_set(alloc: Global, name: &str, value: &str) -> Result<LabelSet, Fail> {
    let mut labels = Vec::new(alloc);
    labels.push(Label {
        name: Text::read(alloc, name)?,
        value: Text::read(alloc, value)?,
    })?;
    Ok(LabelSet::from_pairs(alloc, labels)?)
}
