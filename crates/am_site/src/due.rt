//! What is due at a tick.

ghost use Rattle.std.specs.Prelude.{◌≡◌, ℕ, List, true, IfErr, IfOk, OnOk};
ghost use Rattle.std.specs.List.Sorted.{IsStrictlySortedBy};
ghost use Rattle.am_node.specs.Held.{local_of as local_in_node};
ghost use Rattle.am_node.specs.Ticks.{StopsMuting, has_flush, muted_at, muted_for, some_flush};
ghost use Rattle.am_pattern.specs.Asking.{Asked};
ghost use Rattle.am_timer.specs.Timer.{timer_cmp};
ghost use Rattle.am_transfer.specs.Timers.{AreTimed};
ghost use Rattle.am_site.specs.Due.{AreDue};
ghost use Rattle.am_site.specs.Locals.{local_of};

use crate::site::Site;
use am_item::Fault;
use am_node::Muted;
use am_pattern::PatternCache;
use am_text::Moment;
use am_timer::Timer;
use std::alloc::Global;

impl Site {
    /// The timers of all tenants that are due at a moment, in order: by when they are due, then by tenant, then by key;
    /// and what is muted of the tenants that have a group to flush. It costs what is due, and to sort that.
    ///
    /// # Errors
    /// `PatternNotBuilt` where a pattern that may mute alerts of such a tenant gave no answer, or out of memory.
    pub fn due(
        &mut self,
        alloc: Global,
        moment: Moment,
        cache: &mut PatternCache,
    ) -> Result<(Vec<Timer>, Muted), Fault>
        requires { AreTimed self.old.settling }
        ensures due { IfOk result (λ found. AreDue moment self.old found.0.items) }
        ensures order { IfOk result (λ found. IsStrictlySortedBy timer_cmp found.0.items) }
        ensures muted { IfOk result (λ found. (t : List ℕ) → some_flush t found.0.items ≡ true
            → muted_for t found.1 ≡ muted_at moment (local_of t self.old).held) }
        ensures stays { self.new ≡ self.old }
        ensures asked { Asked result cache.old cache.new }
        ensures fault { IfErr result (StopsMuting cache.new.refused moment
            (λ t. has_flush t moment (local_in_node t self.old.node).plan) (λ t. (local_of t self.old).held)) }
    {
        let (mut due, muted) = self.node.due(alloc, moment, cache)?;
        let mut deadlines = self.operations.due(alloc, moment)?;
        let mut again = self.settling.due(alloc, moment)?;
        due.append(&mut deadlines)?;
        due.append(&mut again)?;
        due.sort()?;
        Ok((due, muted))
    }
}
