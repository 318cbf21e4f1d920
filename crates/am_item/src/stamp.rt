ghost use Rattle.std.specs.Prelude.{◌≡◌};
ghost use Rattle.std.specs.Ordering.{is_gt};

use am_text::Moment;

/// When and where an item was written. Stamps are ordered by moment, then instance, then incarnation, then
/// count.
#[derive(Clone, Copy, PartialEq, Eq, PartialOrd, Ord)]
pub struct Stamp {
    /// The moment of the write.
    pub moment: Moment,
    /// The number of the instance that wrote, 1 to 8.
    pub instance: u8,
    /// Which start of the instance it was, from 1 on.
    pub incarnation: u32,
    /// Which of the tenant's writes it was at that instance and incarnation: 1 to [`crate::GREATEST_COUNT`].
    pub count: u64,
}

impl Stamp {
    ghost use Rattle.am_item.specs.Stamp.{stamp_cmp};

    /// Whether this stamp is the greater.
    #[tactic(auto, unfolding(crate::specs::Stamp::stamp_cmp))]
    pub fn exceeds(&self, other: &Stamp) -> bool
        ensures { result ≡ is_gt (stamp_cmp self.now other.now) }
    {
        self > other
    }
}

/// A value with the stamp of its write.
#[derive(Drop)]
pub struct Stamped<V> {
    /// When and where it was written.
    pub stamp: Stamp,
    /// What was written.
    pub value: V,
}
