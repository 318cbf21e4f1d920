//! Configurations with the codes of their refusals.

mod greatest;

use am_config::{Config, ConfigRefusal};
use am_pattern::PatternCache;
use am_text::Failure;
use std::alloc::Global;

type Read = Result<Config, Failure<ConfigRefusal>>;

// What a text gives, and what it gives by the grammars alone.
fn read_text(alloc: Global, text: &str) -> Read {
    let mut cache = PatternCache::new(alloc, 16, [7; 16])?;
    Config::read_text(alloc, text.as_bytes(), &mut cache)
}

fn reread(alloc: Global, text: &str) -> Read {
    Config::reread(alloc, text.as_bytes())
}

fn code_of(read: Read) -> &'static str {
    match read {
        Ok(_) => "ok",
        Err(Failure::Refused(refusal)) => refusal.code(),
        Err(Failure::OutOfMemory) => "out of memory",
    }
}

// The code of a text, where it is read again with the same code.
fn code_of_text(alloc: Global, text: &str) -> &'static str {
    let code = code_of(read_text(alloc, text));
    if code_of(reread(alloc, text)) != code {
        return "read again with another code";
    }
    code
}
