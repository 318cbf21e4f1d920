//! What one of the instances does where the ring or one of them changes.

ghost use Rattle.std.specs.Prelude.{◌≡◌, ◌⊎◌, ◌+◌, ◌<◌, ℕ, List, [], true, false, IfErr, OnOk};
ghost use Rattle.std.specs.Prelude.{length};
ghost use Rattle.am_cluster.specs.RingChanges.{other_restarted};
ghost use Rattle.am_cluster.specs.Rings.{newest_ring};
ghost use Rattle.am_cluster.specs.Roster.{last_incarnation};
ghost use Rattle.am_cluster.specs.Transfers.{forced};
ghost use Rattle.am_instance.specs.Node.{fault_in};
ghost use Rattle.am_rows.specs.Refusing.{MayRefuse};

use crate::instances::{Instances, place};
use am_event::Output;
use am_instance::Occasion;
use am_item::Fault;
use am_ring::Instance as Number;
use am_rows::Rows;
use am_tenant::TenantName;
use std::alloc::Global;

impl Instances {
    ghost use Rattle.am_instance.specs.Changing.{IsOut, ReactsAll, Restarts, StopsForcing, StopsLearning};
    ghost use Rattle.am_instance.specs.Changing.{StopsLeaving, StopsOpening, StopsReactingAll};
    ghost use Rattle.am_instance.specs.Changing.{learned, learning, renewed, rows_held, rows_learned};
    ghost use Rattle.am_instance.specs.Here.{Circumstances, circumstances, rings_on};
    ghost use Rattle.am_instance.specs.Instance.{IsDown, IsSameNode, ReadsOn, refused_in};
    ghost use Rattle.am_instance.specs.Leaving.{LeavesEachShelf, LeavesOwn, no_rows_of};
    ghost use Rattle.am_instance.specs.Reacting.{Reacts};
    ghost use Rattle.am_instance.specs.Shelves.{IsBacked, shelf_of};
    ghost use Rattle.am_instance.specs.Tenants.{AreNoted};
    ghost use Rattle.am_instance.specs.Whole.{IsWhole};
    ghost use Rattle.am_world.specs.Changing.{IsBehind, incarnations_with};
    ghost use Rattle.am_world.specs.Places.{At, ChangesAt, Turns, incarnation_at, known_at};
    ghost use Rattle.am_world.specs.Shelves.{StaysBacked};

    /// In which incarnation an instance is; 0 where there is none of that number.
    #[tactic(auto, unfolding(crate::specs::Places::incarnation_at))]
    pub fn incarnation(&self, number: u8) -> u32
        ensures { result ≡ incarnation_at number self.now }
    {
        match self.at(number) {
            Some(instance) => instance.incarnation(),
            None => 0,
        }
    }

    /// The epoch of the ring that an instance knows; 0 where there is none of that number.
    #[tactic(auto, unfolding(crate::specs::Places::known_at))]
    pub fn known(&self, number: u8) -> u64
        ensures { result ≡ known_at number self.now }
    {
        match self.at(number) {
            Some(instance) => instance.known(),
            None => 0,
        }
    }

    /// The incarnations of all instances, in order of number, where one of them is in its next.
    pub fn next_incarnations(&self, number: Number) -> [u32; 8]
        requires { At number (λ x. x.incarnation < last_incarnation) self.now }
        ensures { result ≡ incarnations_with number self.now }
    {
        let _ = &self.list;
        let mut incarnations = self.incarnations();
        incarnations[place(number)] += 1;
        incarnations
    }

    /// Starts an instance that is down in its next incarnation on an occasion, by the newest ring.
    ///
    /// # Errors
    /// As of [`Instance::restart`].
    pub fn restart<R: Rows>(
        &mut self,
        alloc: Global,
        number: Number,
        occasion: &Occasion<'_>,
        outputs: &mut Vec<Output>,
        store: &mut R,
    ) -> Result<(), Fault>
        requires down { At number IsDown self.old }
        requires whole { At number (IsWhole (circumstances occasion.now)) self.old }
        requires next { At number (λ x. x.incarnation < last_incarnation) self.old }
        ensures restarts { OnOk result (Turns number (λ x x'. Restarts (circumstances occasion.now)
            (R.is_clean store.new) (R.pairs store.old) x x' outputs.old.items outputs.new.items) self.old self.new) }
        ensures cause { R.is_clean store.new ≡ true → IfErr result (λ fault. At number (λ x. StopsOpening
            (circumstances occasion.now) (R.pairs store.old)
            (R.is_foreign store.old ⊎ MayRefuse (R.medium store.old) (R.medium store.new))
            (renewed (circumstances occasion.now) x) fault) self.old) }
        ensures stays { Turns number (λ x x'. IsSameNode (renewed (circumstances occasion.now) x) x')
            self.old self.new }
        ensures at { ChangesAt number self.old self.new }
        ensures whole { OnOk result (At number (IsWhole (circumstances occasion.now)) self.new) }
        ensures clean { R.is_clean store.new ≡ true → R.is_clean store.old ≡ true }
        ensures backed { OnOk result (At number (λ x. IsBacked x (shelf_of R.Rows store.new)) self.new) }
        ensures left { LeavesOwn (newest_ring (rings_on (circumstances occasion.now))) number (fault_in result)
            (shelf_of R.Rows store.old) (shelf_of R.Rows store.new) }
    {
        self.list[place(number)].restart(alloc, occasion, outputs, store)
    }

    /// Another instance was started in its next incarnation, without being joined: this one does what is to be done for
    /// that, on an occasion.
    ///
    /// # Errors
    /// As of [`Instance::other_restarted`].
    pub fn follow_restart(
        &mut self,
        alloc: Global,
        number: Number,
        occasion: &Occasion<'_>,
        restarted: Number,
        outputs: &mut Vec<Output>,
    ) -> Result<(), Fault>
        requires { At number (IsWhole (circumstances occasion.now)) self.old }
        ensures reacts { OnOk result (Turns number (λ x x'. ReactsAll (circumstances occasion.now)
            (λ t here. other_restarted here restarted) x x' outputs.old.items outputs.new.items) self.old self.new) }
        ensures cause { IfErr result (λ fault. At number (λ x. StopsReactingAll (circumstances occasion.now)
            (λ t here. other_restarted here restarted) x fault) self.old) }
        ensures stays { Turns number ReadsOn self.old self.new }
        ensures at { ChangesAt number self.old self.new }
        ensures whole { OnOk result (At number (IsWhole (circumstances occasion.now)) self.new) }
        ensures backed { Turns number StaysBacked self.old self.new }
    {
        self.list[place(number)].other_restarted(alloc, occasion, restarted, outputs)
    }

    /// Lets an instance that is up go on to the next ring, on an occasion.
    ///
    /// # Errors
    /// As of [`Instance::learn`].
    pub fn learn<R: Rows>(
        &mut self,
        alloc: Global,
        number: Number,
        occasion: &Occasion<'_>,
        outputs: &mut Vec<Output>,
        store: &mut R,
    ) -> Result<(), Fault>
        requires may { At number (IsBehind occasion.now.rings.now) self.old }
        requires whole { At number (IsWhole (circumstances occasion.now)) self.old }
        requires backed { At number (λ x. IsBacked x (shelf_of R.Rows store.old)) self.old }
        ensures learns { OnOk result (Turns number (λ x x'. ReactsAll (circumstances occasion.now)
            (learning (circumstances occasion.now) x) (learned x) x' outputs.old.items outputs.new.items)
            self.old self.new) }
        ensures cause { IfErr result (λ fault. Turns number (λ x x'. StopsLearning (circumstances occasion.now) x
            (refused_in x') fault) self.old self.new) }
        ensures stays { Turns number (λ x x'. ReadsOn (learned x) x') self.old self.new }
        ensures at { ChangesAt number self.old self.new }
        ensures whole { OnOk result (At number (IsWhole (circumstances occasion.now)) self.new) }
        ensures clean { R.is_clean store.new ≡ true → R.is_clean store.old ≡ true }
        ensures backed { OnOk result (At number (λ x. IsBacked x (shelf_of R.Rows store.new)) self.new) }
        ensures left { At number (λ x. LeavesEachShelf (rows_held x) (rows_learned (circumstances occasion.now) x)
            (fault_in result) (shelf_of R.Rows store.old) (shelf_of R.Rows store.new)) self.old }
    {
        self.list[place(number)].learn(alloc, occasion, outputs, store)
    }

    /// Settles an instance that is up for a tenant by force, on an occasion.
    ///
    /// # Errors
    /// As of [`Instance::force`].
    pub fn force(
        &mut self,
        alloc: Global,
        number: Number,
        occasion: &Occasion<'_>,
        tenant: &TenantName,
    ) -> Result<(), Fault>
        requires up { At number (λ x. x.up ≡ true) self.old }
        requires whole { At number (IsWhole (circumstances occasion.now)) self.old }
        ensures forces { OnOk result (Turns number (λ x x'. Reacts (circumstances occasion.now) tenant.now forced
            x x' [] [] × (refused_in x' ≡ refused_in x)) self.old self.new) }
        ensures cause { IfErr result (λ fault. Turns number (λ x x'. StopsForcing (circumstances occasion.now)
            tenant.now x (refused_in x') fault) self.old self.new) }
        ensures stays { Turns number ReadsOn self.old self.new }
        ensures at { ChangesAt number self.old self.new }
        ensures whole { OnOk result (At number (IsWhole (circumstances occasion.now)) self.new) }
        ensures backed { OnOk result (Turns number StaysBacked self.old self.new) }
    {
        self.list[place(number)].force(alloc, occasion, tenant)
    }

    /// Shuts an instance down for no fault, as a crash does: it has lost all but its patterns.
    pub fn shut(&mut self, alloc: Global, number: Number)
        ensures leaves { Turns number IsOut self.old self.new }
        ensures stays { Turns number IsSameNode self.old self.new }
        ensures at { ChangesAt number self.old self.new }
        ensures whole { (around : Circumstances) → Turns number (λ x x'. x.known < length around.rings →
            IsWhole around x') self.old self.new }
    {
        self.list[place(number)].shut(alloc);
    }

    /// Lets an instance leave the ring: it is down, and has lost all but its patterns. Where it was up, its store loses
    /// all rows too; where it was down, they stay.
    ///
    /// # Errors
    /// As of [`Instance::leave`].
    pub fn leave<R: Rows>(
        &mut self,
        alloc: Global,
        number: Number,
        store: &mut R,
    ) -> Result<(), Fault>
        requires noted { At number AreNoted self.old }
        requires backed { At number (λ x. IsBacked x (shelf_of R.Rows store.old)) self.old }
        ensures leaves { OnOk result (Turns number IsOut self.old self.new) }
        ensures cause { IfErr result (λ fault. At number (λ x. StopsLeaving x fault) self.old) }
        ensures stays { Turns number IsSameNode self.old self.new }
        ensures at { ChangesAt number self.old self.new }
        ensures whole { OnOk result ((around : Circumstances) → Turns number (λ x x'. x.known < length around.rings →
            IsWhole around x') self.old self.new) }
        ensures clean { R.is_clean store.new ≡ true → R.is_clean store.old ≡ true }
        ensures left { At number (λ x. x.up ≡ true → LeavesEachShelf (rows_held x) no_rows_of (fault_in result)
            (shelf_of R.Rows store.old) (shelf_of R.Rows store.new)) self.old }
        ensures idle { At number (λ x. x.up ≡ false → store.new ≡ store.old) self.old }
    {
        self.list[place(number)].leave(alloc, store)
    }
}
