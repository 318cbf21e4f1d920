//! A world, whatever its stores: one way in, one way out.

ghost use Rattle.std.specs.Prelude.{◌≡◌, ℕ, List, IfOk, IsOk, MatchOption, OnErr, Err, is_none};
ghost use Rattle.std.specs.Option.{option_copied};
ghost use Rattle.am_event.specs.declared.event.Event.{Event};
ghost use Rattle.am_item.specs.declared.item.Item.{Item};
ghost use Rattle.am_world.specs.Consistent.{Contents, newest_in};
ghost use Rattle.am_world.specs.Leaving.{LeavesShelves};
ghost use Rattle.am_world.specs.Places.{cause_at, incarnation_at, known_at, up_at};
ghost use Rattle.am_world.specs.Refusal.{refusal};
ghost use Rattle.am_world.specs.Runs.{Forgets};
ghost use Rattle.am_world.specs.Simulation.{fault_count, message_named, put_out};
ghost use Rattle.am_world.specs.Standing.{StandsAt, newest_epoch};
ghost use Rattle.am_world.specs.Stopping.{Step};

use am_event::{Event, Output, Refused};
use am_instance::Standing;
use am_item::Fault;
use am_messages::MessageName;
use am_ring::Ring;
use am_wire::Message;
use std::alloc::{AllocError, Global};

/// A world, for whoever hands it events and takes what it puts out. What its stores are only its owner knows: who goes
/// by this trait proves nothing anew about them.
pub trait AnyWorld {
    // What it is, with what is seen of its stores.
    ghost contents: { Self → Contents };

    // Its stores take no such items of a tenant.
    ghost rejects: { List ℕ → List Item → Type 0 };

    /// What was put out so far, in order.
    fn outputs(&self) -> &[Output]
        ensures { result.now ≡ put_out (contents self.now).state };

    /// Forgets what was put out so far.
    fn clear_outputs(&mut self)
        ensures forgets { Forgets (contents self.old).state (contents self.new).state }
        ensures shelves { (contents self.new).shelves ≡ (contents self.old).shelves };

    /// Hands over what was put out so far, in order, and forgets it.
    fn take_outputs(&mut self, alloc: Global) -> Vec<Output>
        ensures taken { result.items ≡ put_out (contents self.old).state }
        ensures forgets { Forgets (contents self.old).state (contents self.new).state }
        ensures shelves { (contents self.new).shelves ≡ (contents self.old).shelves };

    /// How many faults came so far, at most 2^64 - 1.
    fn faults(&self) -> u64
        ensures { result ≡ fault_count (contents self.now).state };

    /// Whether an instance is up.
    fn is_up(&self, instance: u8) -> bool
        ensures { result ≡ up_at instance (contents self.now).state.instances };

    /// The fault that stopped an instance, where one did.
    fn cause(&self, instance: u8) -> Option<Fault>
        ensures { result ≡ cause_at instance (contents self.now).state.instances };

    /// The message of a name, where it was sent and isn't lost.
    fn message(&self, name: &MessageName) -> Option<&Message>
        ensures { option_copied result ≡ message_named name.now (contents self.now).state };

    /// Whether an instance is up, and knows a ring that isn't the newest.
    fn is_behind(&self, instance: u8) -> bool
        ensures { result ≡ is_none (refusal (contents self.now).state (Event.Learn instance)) };

    /// The newest ring.
    fn ring(&self) -> Ring
        ensures { result.instances ≡ newest_in (contents self.now).state.common };

    /// The epoch of the newest ring: 0, and one more for each change.
    fn epoch(&self) -> u64
        ensures { result ≡ newest_epoch (contents self.now).state.common };

    /// The epoch of the ring that an instance knows; 0 where there is none of that number.
    fn known(&self, instance: u8) -> u64
        ensures { result ≡ known_at instance (contents self.now).state.instances };

    /// In which incarnation an instance is; 0 where there is none of that number.
    fn incarnation(&self, instance: u8) -> u32
        ensures { result ≡ incarnation_at instance (contents self.now).state.instances };

    /// Of how many tenants an instance may have something as one of their replicas, for which of these it isn't
    /// settled, how many alerts it holds of those whose first replica it is, and how often it held a notice back. It
    /// looks at each of these tenants.
    ///
    /// # Errors
    /// Out of memory.
    fn standing(&self, alloc: Global, instance: u8) -> Result<Standing, AllocError>
        ensures { IfOk result (StandsAt instance (contents self.now).state) };

    /// Handles one event. A refused one changes nothing. Where the system refuses memory, a store refuses a call, a
    /// count passes its greatest number, a message its greatest length, or a pattern that is in use gives no answer,
    /// each instance that met this stops, puts nothing out, and is counted as a fault, while the others that handle the
    /// event go on; its store stays at its last commit, which may have been the event's own. Where there is no memory
    /// for a tenant's limits or for a ring, nothing changes but the count.
    fn step(&mut self, alloc: Global, event: &Event) -> Result<(), Refused>
        ensures step { Step (contents self.old) event.now (contents self.new) }
        ensures refused { MatchOption (refusal (contents self.old).state event.now) (IsOk result)
            (λ r. result ≡ Err r) }
        ensures err { OnErr result (self.new ≡ self.old) }
        ensures left { LeavesShelves rejects (contents self.old).state event.now (contents self.new).state
            (contents self.old).shelves (contents self.new).shelves };
}
