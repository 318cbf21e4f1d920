//! What is wrong with an option.

use std::fmt;

/// The most patterns that an instance may keep built.
pub(crate) const MOST_CACHED: u64 = 65_536;

/// The greatest port.
pub(crate) const MOST_PORT: u64 = 65_535;

/// The greatest incarnation.
pub(crate) const MOST_START: u64 = 4_294_967_295;

/// An option whose value isn't one that it takes.
#[derive(Clone, Copy, PartialEq, Eq)]
pub(crate) enum BadOption {
    Cache,
    Key,
    Ring,
    Start,
    Address,
    Port,
    Admin,
    Count,
    Log,
    File,
}

impl fmt::Display for BadOption {
    fn fmt<W: fmt::Write>(&self, f: &mut fmt::Formatter<W>) -> fmt::Result {
        match self {
            BadOption::Cache => write!(f, "--cache takes a number from 1 to {MOST_CACHED}"),
            BadOption::Key => write!(f, "--key takes 64 hexadecimal digits"),
            BadOption::Ring => write!(
                f,
                "--ring takes 3 to 8 different numbers of 1 to 8, with commas between"
            ),
            BadOption::Start => write!(f, "--start takes a number from 1 to {MOST_START}"),
            BadOption::Address => write!(f, "--address takes an IPv4 address, as 127.0.0.1"),
            BadOption::Port => write!(f, "serve needs --port, a number from 1 to 65535"),
            BadOption::Admin => write!(f, "--admin takes a number from 1 to {MOST_PORT}"),
            BadOption::Count => write!(f, "--count takes a number from 1 on"),
            BadOption::Log => write!(f, "--log takes plain or json"),
            BadOption::File => write!(f, "check needs FILE"),
        }
    }
}
