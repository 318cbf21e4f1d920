//! The theorem in closed statements: each tenant is as if alone, equal views give equal outputs, and which events are
//! refused is told by the events before them.

ghost use Rattle.std.specs.Prelude.{◌≡◌, ◌⊎◌, ℕ, List, IfErr, IfOk, length};
ghost use Rattle.am_cluster.specs.Outputs.{outputs_of};
ghost use Rattle.am_cluster.specs.PrivateCluster.{PrivateCluster};
ghost use Rattle.am_cluster.specs.View.{Watch, first_watch, names_once, view, watch_all};
ghost use Rattle.am_event.specs.declared.event.Event.{Event};
ghost use Rattle.am_world.specs.Consistent.{IsConsistent};
ghost use Rattle.am_world.specs.Opening.{FailsToOpen};
ghost use Rattle.am_world.specs.Places.{AreBuilt};
ghost use Rattle.am_world.specs.Refusal.{StandsFor, refusal, refusal_seen};
ghost use Rattle.am_world.specs.Runs.{Alone, RunsFrom, patterns_asked};
ghost use Rattle.am_world.specs.Shelves.{AreClean, rows_in, shelves_of};
ghost use Rattle.am_world.specs.Simulation.{Follows, fault_count, put_out, refused_by};
ghost use Rattle.am_world.specs.declared.state.State.{State};

use crate::opening::OpenRefusal;
use crate::world::World;
use am_event::Event;
use am_rows::Rows;
use am_setup::Setup;
use std::alloc::Global;

/// Opens a world over the stores of its instances and runs a list of events in it. Whatever the other tenants do, what
/// the world puts out for a tenant, messages among it, is, byte for byte and in order, what a private cluster puts out
/// that has this tenant alone, begins with the tenant's rows and sees what the events are to it; provided that no fault
/// came, each store is in memory or its disk has returned what was written, no connection's name is used twice, and no
/// pattern that the tenant brings was refused its build.
pub fn run_alone<R: Rows + Drop>(
    alloc: Global,
    setup: Setup,
    stores: Vec<R>,
    events: &[Event],
) -> Result<World<R>, OpenRefusal>
    requires { length stores.items ≡ 8 }
    ensures steps { IfOk result (λ world. AreClean world.shelves →
        RunsFrom setup.origin (rows_in (shelves_of R.Rows stores.items)) events.now world) }
    ensures alone { IfOk result (λ world. fault_count world.state ≡ 0 → AreClean world.shelves →
        names_once (first_watch setup.origin) events.now →
        Alone setup.origin (rows_in (shelves_of R.Rows stores.items)) events.now
        (refused_by world.state) (put_out world.state)) }
    ensures refused { IfErr result (FailsToOpen R.Rows setup.origin.ring stores.items) }
{
    let mut world = World::open(alloc, setup, stores)?;
    world.run(alloc, events);
    Ok(world)
}

/// Opens two worlds over their stores and runs a list of events in each. A tenant to whom both lists are the same, and
/// of whom both stores have the same rows, gets the same outputs of both, whatever the lists are to others and the
/// stores have of them, and whatever the capacities of the caches; provided that both start from the same, no fault
/// came, each store is in memory or its disk has returned what was written, no connection's name is used twice in a
/// list, and no pattern that the tenant brings was refused its build.
pub fn run_both<R: Rows + Drop>(
    alloc: Global,
    setup: Setup,
    stores: Vec<R>,
    events: &[Event],
    other_setup: Setup,
    other_stores: Vec<R>,
    other_events: &[Event],
) -> Result<(World<R>, World<R>), OpenRefusal>
    requires one { length stores.items ≡ 8 }
    requires two { length other_stores.items ≡ 8 }
    ensures steps { IfOk result (λ worlds. AreClean worlds.0.shelves →
        RunsFrom setup.origin (rows_in (shelves_of R.Rows stores.items)) events.now worlds.0) }
    ensures other_steps { IfOk result (λ worlds. AreClean worlds.1.shelves →
        RunsFrom other_setup.origin (rows_in (shelves_of R.Rows other_stores.items)) other_events.now
        worlds.1) }
    ensures equal { IfOk result (λ worlds. fault_count worlds.0.state ≡ 0 → fault_count worlds.1.state ≡ 0 →
        AreClean worlds.0.shelves → AreClean worlds.1.shelves → setup.origin ≡ other_setup.origin →
        names_once (first_watch setup.origin) events.now →
        names_once (first_watch other_setup.origin) other_events.now →
        (t : List ℕ) →
        rows_in (shelves_of R.Rows stores.items) t
        ≡ rows_in (shelves_of R.Rows other_stores.items) t →
        view t (first_watch setup.origin) events.now
        ≡ view t (first_watch other_setup.origin) other_events.now →
        AreBuilt (refused_by worlds.0.state)
        (patterns_asked (view t (first_watch setup.origin) events.now)) →
        AreBuilt (refused_by worlds.1.state)
        (patterns_asked (view t (first_watch other_setup.origin) other_events.now)) →
        outputs_of t (watch_all (first_watch setup.origin) events.now) (put_out worlds.0.state)
        ≡ outputs_of t (watch_all (first_watch other_setup.origin) other_events.now)
        (put_out worlds.1.state)) }
    ensures refused { IfErr result (λ why. FailsToOpen R.Rows setup.origin.ring stores.items why
        ⊎ FailsToOpen R.Rows other_setup.origin.ring other_stores.items why) }
{
    let world = run_alone(alloc, setup, stores, events)?;
    let other = run_alone(alloc, other_setup, other_stores, other_events)?;
    Ok((world, other))
}

/// In a world of which what is known is so, and which has of the tenant that an event names what the tenant's private
/// cluster has, the event is refused as the events before it say.
pub fn refusals_are_seen()
    ensures { (v : Watch) (w : State) (alone : List ℕ → PrivateCluster) (e : Event) →
        IsConsistent w → Follows v w → StandsFor e w alone → refusal w e ≡ refusal_seen v w.clock alone e }
{}
