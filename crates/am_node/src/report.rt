use am_item::SharedItem;
use am_outlet::Sending;

/// What there is to say of a tenant once something was done.
#[derive(Drop)]
pub enum Report {
    /// A try of an attempt at a notice goes out.
    Try(Sending),
    /// This item records that a webhook was told.
    Record(SharedItem),
}
