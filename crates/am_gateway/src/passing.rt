//! The messages of a world, in one process: none gets lost on its way.
ghost use Rattle.std.specs.Option.{option_copied};
ghost use Rattle.std.specs.Prelude.{◌≡◌, Some, find};
ghost use Rattle.am_gateway.specs.Passing.{AddsTo, asked_in, deliveries_at, is_message, losses, message_at};
ghost use Rattle.am_gateway.specs.Passing.{passes, passes_at};
ghost use Rattle.am_world.specs.Runs.{Run};
ghost use Rattle.am_world.specs.Simulation.{put_out};

use am_messages::MessageName;
use am_tenant::TenantName;
use am_world::{AnyWorld, Event, Output};
use std::alloc::Global;

/// Of how many outputs the messages are delivered, at most.
const MOST_OUTPUTS: usize = 1_000_000;

/// Delivers each message that the world has put out, in order, those too that this puts out, and has it lost then, so
/// that the world holds none of them. Those behind a million outputs are only lost.
pub fn pass_all<W: AnyWorld>(world: &mut W, alloc: Global, moment: u64)
    ensures { Run (W.contents world.old) (passes moment (put_out (W.contents world.new).state)) (W.contents world.new) }
{
    let mut place = 0;
    while place < world.outputs().len() {
        pass(world, alloc, place, moment);
        place += 1;
    }
}

/// The tenant that messages among outputs are about, where one is.
pub fn asked_tenant(outputs: &[Output]) -> Option<TenantName>
    ensures { result ≡ asked_in outputs.now }
{
    match first_message(outputs) {
        Some(Output::Send(message)) => Some(message.tenant),
        _ => None,
    }
}

// The first message among outputs.
fn first_message(outputs: &[Output]) -> Option<&Output>
    ensures { option_copied result ≡ find is_message outputs.now }
{
    outputs
        .iter()
        .find(|output| matches!(output, Output::Send(_)))
}

// Delivers the message at a place among the outputs, where it is one, and has it lost then.
fn pass<W: AnyWorld>(world: &mut W, alloc: Global, place: usize, moment: u64)
    ensures passed { Run (W.contents world.old)
        (passes_at place moment (message_at place (put_out (W.contents world.old).state))) (W.contents world.new) }
    ensures stay { AddsTo (put_out (W.contents world.old).state) (put_out (W.contents world.new).state) }
{
    if let Some(name) = message_at(world.outputs(), place) {
        deliver(world, alloc, &name, place, moment);
        lose(world, alloc, &name);
    }
}

// Delivers the message at a place, unless a million outputs come before it.
fn deliver<W: AnyWorld>(
    world: &mut W,
    alloc: Global,
    message: &MessageName,
    place: usize,
    moment: u64,
)
    ensures delivered { Run (W.contents world.old) (deliveries_at place moment (Some message.now))
        (W.contents world.new) }
    ensures stay { AddsTo (put_out (W.contents world.old).state) (put_out (W.contents world.new).state) }
{
    if place < MOST_OUTPUTS {
        let event = Event::Deliver {
            message: *message,
            moment,
        };
        let _ = world.step(alloc, &event);
    }
}

// The world loses a message.
fn lose<W: AnyWorld>(world: &mut W, alloc: Global, message: &MessageName)
    ensures lost { Run (W.contents world.old) (losses (Some message.now)) (W.contents world.new) }
    ensures stay { AddsTo (put_out (W.contents world.old).state) (put_out (W.contents world.new).state) }
{
    let event = Event::Lose { message: *message };
    let _ = world.step(alloc, &event);
}

// The name of the message at a place among outputs, where it is one.
fn message_at(outputs: &[Output], place: usize) -> Option<MessageName>
    ensures { result ≡ message_at place outputs.now }
{
    match outputs.get(place)? {
        Output::Send(message) => Some(MessageName::of(message)),
        Output::Reply { .. } | Output::Notice { .. } => None,
    }
}
