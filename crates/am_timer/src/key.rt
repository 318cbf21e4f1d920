ghost use Rattle.std.specs.Prelude.{◌≡◌, IfOk, Some, refl};
ghost use Rattle.std.specs.Cmp.{partial_equiv_from_equiv, eq_by_cmp_equiv, po};
ghost use Rattle.std.specs.Ordering.{eq_by_cmp};

use am_labels::LabelSet;
use am_ring::Instance;
use am_text::Text;
use std::alloc::{AllocError, Global};
use std::cmp::Ordering;

/// What names the flush of a group of alerts within its tenant. Flushes are ordered by receiver, then labels, then route.
#[derive(PartialEq, Eq, PartialOrd, Ord, Drop)]
pub struct FlushKey {
    /// The name of the receiver of the group's route.
    pub receiver: Text,
    /// The labels by which the route groups, with the values that the group's alerts share.
    pub labels: LabelSet,
    /// The number of the route.
    pub route: usize,
}

impl FlushKey {
    /// A copy of the key.
    pub fn copy(&self, alloc: Global) -> Result<FlushKey, AllocError>
        ensures { IfOk result (λ key. key ≡ self.now) }
    {
        Ok(FlushKey {
            receiver: self.receiver.copy(alloc)?,
            labels: self.labels.copy()?,
            route: self.route,
        })
    }
}

/// What a timer is for. Of each a tenant has one timer at most.
#[derive(Drop)]
pub enum TimerKey {
    /// The deadline of the operation with this number.
    Operation(u64),
    /// The flush of this group.
    Group(FlushKey),
    /// The next try of the attempt with this number.
    Retry(u64),
    /// The next message to this instance, to which a state is pushed or which is asked for one.
    Push(Instance),
}

impl TimerKey {
    ghost use Rattle.am_timer.specs.Timer.{kind_of};

    // The place of the kind in the order of kinds.
    fn kind(&self) -> u8
        ensures { result ≡ kind_of self.now }
    {
        match self {
            TimerKey::Operation(_) => 0,
            TimerKey::Group(_) => 1,
            TimerKey::Retry(_) => 2,
            TimerKey::Push(_) => 3,
        }
    }

    /// A copy of the key.
    pub fn copy(&self, alloc: Global) -> Result<TimerKey, AllocError>
        ensures { IfOk result (λ key. key ≡ self.now) }
    {
        Ok(match self {
            TimerKey::Operation(number) => TimerKey::Operation(*number),
            TimerKey::Group(group) => TimerKey::Group(group.copy(alloc)?),
            TimerKey::Retry(number) => TimerKey::Retry(*number),
            TimerKey::Push(instance) => TimerKey::Push(*instance),
        })
    }
}

impl PartialEq for TimerKey {
    ghost use Rattle.am_timer.specs.Timer.{key_cmp};
    ghost use Rattle.am_timer.specs.KeyTotal.{keys_total};

    ghost eq = { eq_by_cmp key_cmp };

    ghost laws = { partial_equiv_from_equiv (eq_by_cmp_equiv keys_total) };

    fn eq(&self, other: &TimerKey) -> bool {
        self.cmp(other).is_eq()
    }
}

impl Eq for TimerKey {
    ghost use Rattle.am_timer.specs.KeyTotal.{keys_total};

    ghost laws = { eq_by_cmp_equiv keys_total };
}

impl PartialOrd for TimerKey {
    ghost use Rattle.am_timer.specs.Timer.{key_cmp};
    ghost use Rattle.am_timer.specs.KeyTotal.{keys_total};

    ghost partial_cmp = { λ a b. Some (key_cmp a b) };

    ghost laws = { po keys_total (λ _ _. refl) };

    fn partial_cmp(&self, other: &TimerKey) -> Option<Ordering> {
        Some(self.cmp(other))
    }
}

/// By kind: operations, then groups, retries, pushes; within a kind by what names them.
impl Ord for TimerKey {
    ghost use Rattle.am_timer.specs.Timer.{key_cmp};
    ghost use Rattle.am_timer.specs.KeyTotal.{keys_total};

    ghost cmp = { key_cmp };

    ghost total = { keys_total };

    ghost matches_partial_cmp = { λ a b. refl };

    ghost matches_eq = { λ a b. refl };

    #[tactic(auto, unfolding(crate::specs::Timer::key_cmp))]
    fn cmp(&self, other: &TimerKey) -> Ordering {
        match (self, other) {
            (TimerKey::Operation(own), TimerKey::Operation(number)) => own.cmp(number),
            (TimerKey::Group(own), TimerKey::Group(group)) => own.cmp(group),
            (TimerKey::Retry(own), TimerKey::Retry(number)) => own.cmp(number),
            (TimerKey::Push(own), TimerKey::Push(instance)) => {
                own.number().cmp(&instance.number())
            }
            _ => self.kind().cmp(&other.kind()),
        }
    }
}
