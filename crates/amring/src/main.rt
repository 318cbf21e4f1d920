//! `amring`: plays a scenario of events against a world, serves connections, or judges a configuration's file, as its
//! command line says.
//!
//! It ends with the status
//! - 0 where all was played or served, a configuration would be accepted, or help or the version was asked for;
//! - 1 where a stream, a socket or the clock failed, or fewer than two instances are left that serve;
//! - 2 where the command line, a store, a line of a scenario or a configuration was refused, or a port or the
//!   configuration's file can't be had;
//! - 3 where it is out of memory.
#![tactic(auto)]

mod check;
mod serve;
mod stores;

ghost use Rattle.std.specs.Prelude.{◌≡◌, length};

use am_options::{CommandLine, Running, options};
use am_play::play;
use am_report::ending;
use am_rows::Rows;
use am_setup::Setup;
use am_stream::{LineReader, Link, Loopback, Sink, WholeWriter};
use am_world::{AnyWorld, World};
use std::io::{BufReader, BufWriter, Write};
use std::net::Net;
use std::process::ExitCode;
use std::{env, io};

/// The exit status where the program itself is out of memory.
const OUT_OF_MEMORY: u8 = 3;

fn main(rt: HostRuntime) -> io::Result<ExitCode> {
    let stderr = rt.stderr();
    let mut errors = io::writer(&stderr);
    match start(&rt, &mut WholeWriter(&mut errors)) {
        Ok(status) => Ok(status),
        Err(error) if error.kind() == io::ErrorKind::OutOfMemory => {
            writeln!(errors, "memory")?;
            Ok(ExitCode::from(OUT_OF_MEMORY))
        }
        Err(error) => {
            writeln!(errors, "amring: {error}")?;
            Ok(ExitCode::FAILURE)
        }
    }
}

/// Reads the command line and does what it asks for.
///
/// # Errors
/// Those of what it asks for, of the words of the command line and of what is printed; out of memory.
fn start<E: Sink>(rt: &HostRuntime, errors: &mut E) -> io::Result<ExitCode> {
    let words: Vec<String> = match env::args(rt) {
        Ok(words) => words.collect(rt.alloc())?,
        Err(error) if error.kind() == io::ErrorKind::InvalidData => {
            return ending::refuse(errors, "a word of the command line isn't UTF-8");
        }
        Err(error) => return Err(error),
    };
    match options(rt.alloc(), words.as_slice())? {
        CommandLine::Run(running) => run(rt, running, errors),
        CommandLine::Serve(serving) => serve::serve(rt, serving, errors),
        CommandLine::Check(file) => check::check(rt, file.as_str(), errors),
        CommandLine::Help(text) => {
            print!(rt; "{text}")?;
            Ok(ExitCode::SUCCESS)
        }
        CommandLine::Bad(text) => ending::refuse(errors, text.as_str()),
    }
}

/// Plays the scenario on standard input over the stores that the command line says.
///
/// # Errors
/// Those of the sockets and of what is read and printed; out of memory.
fn run<E: Sink>(rt: &HostRuntime, running: Running, errors: &mut E) -> io::Result<ExitCode> {
    let Running { setup, store } = running;
    match store {
        None => run_over(rt, setup, stores::in_memory(rt.alloc())?, errors),
        Some(folder) => match stores::in_folder(rt, folder.as_str()) {
            Ok(stores) => run_over(rt, setup, stores, errors),
            Err(refusal) => stores::refuse(rt.alloc(), errors, refusal),
        },
    }
}

/// Plays the scenario on standard input over loopback sockets, against a world over these stores.
///
/// # Errors
/// Those of the sockets and of what is read and printed; out of memory.
fn run_over<S: Rows + Drop, R: Input + Print + AllocGlobal + Net, E: Sink>(
    rt: &R,
    setup: Setup,
    stores: Vec<S>,
    errors: &mut E,
) -> io::Result<ExitCode>
    requires { length stores.items ≡ 8 }
{
    let world = match World::open(rt.alloc(), setup, stores) {
        Ok(world) => world,
        Err(refusal) => return stores::refuse(rt.alloc(), errors, refusal),
    };
    let mut link = Loopback::open(rt)?;
    play_world(rt, world, &mut link, errors)
}

/// Plays the scenario on standard input against a world, over a link.
///
/// # Errors
/// Those of what is read and printed; out of memory.
fn play_world<W: AnyWorld + Drop, R: Input + Print + AllocGlobal, L: Link, E: Sink>(
    rt: &R,
    world: W,
    link: &mut L,
    errors: &mut E,
) -> io::Result<ExitCode> {
    let source = LineReader::new(rt.alloc(), BufReader::new(rt.alloc(), rt.reader())?);
    let mut writer = WholeWriter(BufWriter::new(rt.alloc(), io::writer(rt))?);
    let (played, _world) = play::play(rt.alloc(), world, link, source, &mut writer, errors)?;
    ending::tell(errors, played)
}
