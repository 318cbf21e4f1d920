//! Command lines.

use am_expect::{equal, holds};
use am_options::{CommandLine, options};
use std::alloc::Global;
use std::test::Fail;

// What a command line asks for, and its words.
const COMMAND_LINES: &str = "\
run bin/amring run
run amring run --cache 1
run amring run --cache=065536
bad amring run --cache 0
bad amring run --cache 65537
bad amring run --cache +1
bad amring run --cache=-1
bad amring run --cache 1 --cache 1
bad amring run --cache
run amring run --key 000102030405060708090a0b0c0d0e0f101112131415161718191a1b1c1d1e1f
run amring run --key 000102030405060708090A0B0C0D0E0F101112131415161718191A1B1C1D1E1F --cache=1
bad amring run --key 000102030405060708090a0b0c0d0e0f101112131415161718191a1b1c1d1e1
bad amring run --key 000102030405060708090a0b0c0d0e0f101112131415161718191a1b1c1d1e1f20
bad amring run --key 000102030405060708090a0b0c0d0e0f101112131415161718191a1b1c1d1e1g
bad amring run --key=
bad amring run --key
bad amring run --key 000102030405060708090a0b0c0d0e0f101112131415161718191a1b1c1d1e1f --key 000102030405060708090a0b0c0d0e0f101112131415161718191a1b1c1d1e1f
bad amring --key 000102030405060708090a0b0c0d0e0f101112131415161718191a1b1c1d1e1f run
run amring run --start 1 --store=data
run amring run --start=4294967295
bad amring run --start 0
bad amring run --start 4294967296
bad amring run --start one
bad amring run --start
bad amring run --start 1 --start 1
bad amring run --store
bad amring run --store a --store a
bad amring run x
bad amring --cache 1 run
serve amring serve --port 65535
serve amring serve --port=1 --count=1
serve amring serve --port=1 --start 7 --store a/b
serve amring serve --port=1 --admin=65535
serve amring serve --port=1 --address 0.0.0.0
serve amring serve --address=255.255.255.255 --port=1
serve amring serve --port=1 --limits=limits.json
serve amring serve --port=1 --log json
serve amring serve --port=1 --log=plain --metrics-by-tenant
bad amring serve --port=1 --address 0.0.0.256
bad amring serve --port=1 --address 0.0.0
bad amring serve --port=1 --address 127.0.0.01
bad amring serve --port=1 --address ::1
bad amring serve --port=1 --address localhost
bad amring serve --port=1 --address 127.0.0.1:80
bad amring serve --port=1 --address=
bad amring serve --port=1 --address
bad amring serve --port=1 --address 0.0.0.0 --address 0.0.0.0
bad amring serve --address 0.0.0.0
bad amring run --address 127.0.0.1
bad amring serve --port=1 --limits
bad amring serve --port=1 --log=JSON
bad amring serve --port=1 --log
bad amring serve --port=1 --metrics-by-tenant=true
bad amring run --limits limits.json
bad amring run --metrics-by-tenant
bad amring serve --port=1 --start 0
bad amring serve --port=1 --store
bad amring serve
bad amring serve --port 0
bad amring serve --port 65536
bad amring serve --port=1 --count=0
bad amring serve --port=1 --admin=0
bad amring serve --port=1 --admin=65536
bad amring serve --port=1 --admin
bad amring serve --admin=1
bad amring run --admin=1
bad amring run --port 1
check amring check a.json
check amring check -- -a
bad amring check
bad amring check a b
bad amring check a --port 1
bad amring 
bad amring
bad
help amring --help
help amring help run
help amring run -h
help amring -V";

// Command lines, and the text that is told of them.
const TEXTS: [(&str, &str); 8] = [
    ("amring --version", "amring 0.1.0\n"),
    (
        "amring run --cache 0",
        "--cache takes a number from 1 to 65536",
    ),
    ("amring run --key 0g", "--key takes 64 hexadecimal digits"),
    (
        "amring serve --port 1 --start 0",
        "--start takes a number from 1 to 4294967295",
    ),
    (
        "amring serve --port 1 --address ::1",
        "--address takes an IPv4 address, as 127.0.0.1",
    ),
    (
        "amring serve --port 1 --log xml",
        "--log takes plain or json",
    ),
    (
        "amring serve",
        "serve needs --port, a number from 1 to 65535",
    ),
    (
        "amring run x",
        "unexpected argument 'x' found\n\nUsage: amring run [OPTIONS]\n\nFor more information, try '--help'.",
    ),
];

const COUNTED: [u8; 16] = [0, 1, 2, 3, 4, 5, 6, 7, 8, 9, 10, 11, 12, 13, 14, 15];

// Command lines, and the first half of their keys.
const KEYS: [(&str, [u8; 16]); 3] = [
    ("amring run", [0; 16]),
    (
        "amring run --key 000102030405060708090a0b0c0d0e0f101112131415161718191a1b1c1d1e1f",
        COUNTED,
    ),
    (
        "amring run --key 000102030405060708090A0B0C0D0E0F101112131415161718191A1B1C1D1E1F",
        COUNTED,
    ),
];

// Command lines of `serve`, the first incarnation, whether it is given, and the folder of stores.
const STARTS: [(&str, u32, bool, &str); 4] = [
    ("amring serve --port 1", 1, false, ""),
    ("amring serve --port 1 --start 1", 1, true, ""),
    (
        "amring serve --port 1 --store=data --start 4294967295",
        4_294_967_295,
        true,
        "data",
    ),
    ("amring serve --port 1 --store a/b", 1, false, "a/b"),
];

// Command lines of `serve`, and the address to listen on.
const ADDRESSES: [(&str, [u8; 4]); 3] = [
    ("amring serve --port 1", [127, 0, 0, 1]),
    ("amring serve --port 1 --address 0.0.0.0", [0, 0, 0, 0]),
    (
        "amring serve --address=10.200.3.255 --port 1",
        [10, 200, 3, 255],
    ),
];

/// What the words of a line ask for.
fn asked(alloc: Global, line: &str) -> Result<CommandLine, Fail> {
    let words: Vec<&str> = line.split(' ').collect(alloc)?;
    Ok(options(alloc, words.as_slice())?)
}

fn kind(asked: &CommandLine) -> &'static str {
    match asked {
        CommandLine::Run(_) => "run",
        CommandLine::Serve(_) => "serve",
        CommandLine::Check(_) => "check",
        CommandLine::Help(_) => "help",
        CommandLine::Bad(_) => "bad",
    }
}

/// What the words behind the first of a line ask for is told by the first.
fn asks_for(alloc: Global, line: &str) -> Result<(), Fail> {
    let words: Vec<&str> = line.split(' ').collect(alloc)?;
    let (wanted, words) = words.split_first().ok_or("no words")?;
    let asked = options(alloc, words)?;
    equal(kind(&asked), *wanted, line)
}

#[test]
fn command_lines(rt: HostRuntime) -> Result<(), Fail> {
    for line in COMMAND_LINES.split('\n') {
        asks_for(rt.alloc(), line)?;
    }
    Ok(())
}

fn tells(alloc: Global, line: &str, wanted: &str) -> Result<(), Fail> {
    match asked(alloc, line)? {
        CommandLine::Help(text) | CommandLine::Bad(text) => equal(text.as_str(), wanted, line),
        CommandLine::Run(_) | CommandLine::Serve(_) | CommandLine::Check(_) => {
            Err(Fail::new(line))
        }
    }
}

#[test]
fn texts(rt: HostRuntime) -> Result<(), Fail> {
    for (line, wanted) in TEXTS {
        tells(rt.alloc(), line, wanted)?;
    }
    Ok(())
}

fn has_key(alloc: Global, line: &str, wanted: [u8; 16]) -> Result<(), Fail> {
    let CommandLine::Run(running) = asked(alloc, line)? else {
        return Err(Fail::new(line));
    };
    holds(running.setup.hash_key() == wanted, line)
}

#[test]
fn keys(rt: HostRuntime) -> Result<(), Fail> {
    for (line, wanted) in KEYS {
        has_key(rt.alloc(), line, wanted)?;
    }
    Ok(())
}

fn has_start(
    alloc: Global,
    line: &str,
    start: u32,
    is_given: bool,
    folder: &str,
) -> Result<(), Fail> {
    let CommandLine::Serve(serving) = asked(alloc, line)? else {
        return Err(Fail::new(line));
    };
    holds(serving.setup.start() == start, line)?;
    holds(serving.has_start == is_given, line)?;
    match &serving.store {
        Some(store) => equal(store.as_str(), folder, line),
        None => holds(folder.is_empty(), line),
    }
}

#[test]
fn starts(rt: HostRuntime) -> Result<(), Fail> {
    for (line, start, is_given, folder) in STARTS {
        has_start(rt.alloc(), line, start, is_given, folder)?;
    }
    Ok(())
}

fn has_address(alloc: Global, line: &str, wanted: [u8; 4]) -> Result<(), Fail> {
    let CommandLine::Serve(serving) = asked(alloc, line)? else {
        return Err(Fail::new(line));
    };
    holds(serving.address.octets() == wanted, line)
}

#[test]
fn addresses(rt: HostRuntime) -> Result<(), Fail> {
    for (line, wanted) in ADDRESSES {
        has_address(rt.alloc(), line, wanted)?;
    }
    Ok(())
}

#[test]
fn run_has_start_and_store(rt: HostRuntime) -> Result<(), Fail> {
    let line = "amring run --start 4294967295 --store data";
    let CommandLine::Run(running) = asked(rt.alloc(), line)? else {
        return Err(Fail::new(line));
    };
    holds(running.setup.start() == 4_294_967_295, line)?;
    match &running.store {
        Some(store) => equal(store.as_str(), "data", line),
        None => Err(Fail::new(line)),
    }
}
