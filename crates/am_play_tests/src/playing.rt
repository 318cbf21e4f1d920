//! Scenarios that are played as the program plays them.

use am_expect::holds;
use am_play::play::play;
use am_play::{OpenRefusal, World};
use am_report::ending::Played;
use am_setup::Setup;
use am_stream::{LineReader, Link, StreamFailure, WholeWriter};
use am_test_store::TestStore;
use std::alloc::{AllocError, Global};
use std::io;
use std::test::Fail;

/// The stores of the eight instances, without rows.
pub fn stores(alloc: Global) -> Result<Vec<TestStore>, AllocError> {
    let mut stores = Vec::with_capacity(alloc, 8)?;
    for _ in 0..8u8 {
        stores.push(TestStore::new(alloc))?;
    }
    Ok(stores)
}

/// The world of a command line without options but the first incarnation, over these stores.
pub fn opened(
    alloc: Global,
    start: u32,
    stores: Vec<TestStore>,
) -> Result<World<TestStore>, OpenRefusal> {
    match Setup::new([0; 32], &[1, 2, 3], 512, start) {
        Some(setup) if stores.len() == 8 => World::open(alloc, setup, stores),
        _ => Err(OpenRefusal::OutOfMemory),
    }
}

/// What a scenario came to, or the error with which it broke off.
fn ended<T>(played: Result<T, StreamFailure>) -> io::Result<T> {
    match played {
        Ok(end) => Ok(end),
        Err(failure) => Err(failure.into()),
    }
}

/// Plays a scenario over a link, and gives what it wrote and the stores that it left.
pub fn played_over<L: Link>(
    alloc: Global,
    world: World<TestStore>,
    link: &mut L,
    scenario: &str,
) -> Result<(Vec<u8>, Vec<TestStore>), Fail> {
    let mut written = Vec::new(alloc);
    let (played, world) = ended(play(
        alloc,
        world,
        link,
        LineReader::new(alloc, scenario.as_bytes()),
        &mut WholeWriter(&mut written),
        &mut WholeWriter(Vec::new(alloc)),
    ))?;
    holds(played == Played::All, scenario)?;
    Ok((written, world.into_stores()))
}
