//! `check`: whether a configuration would be accepted.

use am_judge::{Verdict, judge};
use am_limit::Limits;
use am_pattern::PatternCache;
use am_report::ending;
use am_stream::Sink;
use std::process::ExitCode;
use std::{fs, io};

/// How many patterns are kept built: as many as an instance keeps where it isn't told otherwise.
const CACHED: usize = 512;

/// The exit status where the configuration is refused, or its file can't be read.
const REFUSED: u8 = 2;

/// Judges the configuration in a file as that of a tenant for which no limits were set. Prints `accepted`, or the code
/// of the refusal, its place and what to do.
///
/// # Errors
/// Those of what is printed; out of memory.
pub fn check<E: Sink>(rt: &HostRuntime, path: &str, errors: &mut E) -> io::Result<ExitCode> {
    let file = match fs::read(rt, path) {
        Ok(file) => file,
        Err(error) if error.kind() == io::ErrorKind::OutOfMemory => return Err(error),
        Err(error) => {
            let text = format!(in rt.alloc(); "{path}: {error}")?;
            return ending::refuse(errors, text.as_str());
        }
    };
    // Nobody else's patterns are in this cache, so its hashes need no secret.
    let mut cache = PatternCache::new(rt.alloc(), CACHED, [0; 16])?;
    match judge(rt.alloc(), file.as_slice(), Limits::default(), &mut cache)? {
        Verdict::Accepted => {
            print!(rt; "accepted\n")?;
            Ok(ExitCode::SUCCESS)
        }
        Verdict::Refused(refusal) => {
            print!(rt; "{refusal}\n")?;
            Ok(ExitCode::from(REFUSED))
        }
    }
}
