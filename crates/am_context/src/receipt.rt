use am_item::{EntryKey, LabelSets};

/// That a webhook was told of a group, which is to be recorded.
#[derive(Drop)]
pub struct Receipt {
    /// Who was told of what.
    pub key: EntryKey,
    /// The alerts of which it was told that they fire.
    pub firing: LabelSets,
    /// The alerts of which it was told that they are resolved.
    pub resolved: LabelSets,
    /// How many milliseconds after its stamp the record is of use.
    pub span: u64,
}
