//! `am_scene`: plays the scenario on standard input as `amring run` does without options, over stores in memory that
//! need no database. `bin/amring` tries it where `amring` isn't built, since it is compiled in less time.
#![tactic(auto)]

ghost use Rattle.std.specs.Prelude.{◌≡◌, IfOk, length};

use am_play::{OpenRefusal, World, play};
use am_report::ending;
use am_setup::Setup;
use am_stream::{LineReader, Loopback, Sink, WholeWriter};
use am_test_store::TestStore;
use std::alloc::{AllocError, Global};
use std::io;
use std::io::{BufReader, BufWriter, Write};
use std::net::Net;
use std::process::ExitCode;

/// The exit status where the program itself is out of memory.
const OUT_OF_MEMORY: u8 = 3;

/// The numbers of the instances.
const NUMBERS: [u8; 8] = [1, 2, 3, 4, 5, 6, 7, 8];

/// The service key of a command line without options, as `am_options` has it; and so with the three below.
const KEY: [u8; 32] = [0; 32];

/// The instances of the ring.
const RING: [u8; 3] = [1, 2, 3];

/// How many patterns an instance keeps built.
const CACHE: u32 = 512;

/// The first incarnation.
const START: u32 = 1;

fn main(rt: HostRuntime) -> io::Result<ExitCode> {
    let stderr = rt.stderr();
    let mut errors = io::writer(&stderr);
    match run(&rt, &mut WholeWriter(&mut errors)) {
        Ok(status) => Ok(status),
        Err(error) if error.kind() == io::ErrorKind::OutOfMemory => {
            writeln!(errors, "memory")?;
            Ok(ExitCode::from(OUT_OF_MEMORY))
        }
        Err(error) => {
            writeln!(errors, "amring: {error}")?;
            Ok(ExitCode::FAILURE)
        }
    }
}

/// Plays the scenario on standard input over loopback sockets.
fn run<R: Input + Print + AllocGlobal + Net, E: Sink>(
    rt: &R,
    errors: &mut E,
) -> io::Result<ExitCode> {
    let world = match empty_world(rt.alloc()) {
        Ok(world) => world,
        // No call of these stores is refused.
        Err(_refusal) => return Err(io::Error::from(AllocError)),
    };
    let mut link = Loopback::open(rt)?;
    let source = LineReader::new(rt.alloc(), BufReader::new(rt.alloc(), rt.reader())?);
    let mut writer = WholeWriter(BufWriter::new(rt.alloc(), io::writer(rt))?);
    let (played, _world) = play::play(rt.alloc(), world, &mut link, source, &mut writer, errors)?;
    ending::tell(errors, played)
}

/// A world over stores in memory, which holds nothing yet.
fn empty_world(alloc: Global) -> Result<World<TestStore>, OpenRefusal> {
    let stores = in_memory(alloc)?;
    let setup = Setup::new(KEY, &RING, CACHE, START).unwrap();
    World::open(alloc, setup, stores)
}

/// Stores in memory, which are gone when the program ends.
fn in_memory(alloc: Global) -> Result<Vec<TestStore>, AllocError>
    ensures { IfOk result (λ stores. length stores.items ≡ 8) }
{
    let mut stores = Vec::with_capacity(alloc, NUMBERS.len())?;
    for _number in NUMBERS {
        stores.push(TestStore::new(alloc))?;
    }
    Ok(stores)
}
