use am_context::Receipt;
use am_outlet::Sending;

/// What comes next of a flush.
#[derive(Drop)]
pub enum Next {
    /// A try goes out.
    Try(Sending),
    /// It is recorded that a webhook was told.
    Record(Receipt),
}
