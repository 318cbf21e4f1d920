//! Refusals, by their codes.

use std::alloc::{AllocError, Global};
use std::collections::BTreeMap;
use std::str;

/// The greatest length of a code that is counted, in bytes.
const LONGEST: usize = 8;

/// How many codes are told apart, at most.
const MOST: usize = 256;

/// How many replies refused a request with which code. Each count stops at 2^64 - 1.
#[derive(Drop)]
pub struct Refusals {
    alloc: Global,
    counts: BTreeMap<String, u64>,
}

impl Refusals {
    /// None so far.
    pub fn new(alloc: Global) -> Refusals {
        Refusals {
            alloc,
            counts: BTreeMap::new(alloc),
        }
    }

    /// Counts a reply where it has a code. One that wasn't seen before isn't counted where there are 256 already.
    ///
    /// # Errors
    /// Out of memory: it isn't counted.
    pub fn count(&mut self, reply: &[u8]) -> Result<(), AllocError> {
        let Some(code) = code_of(reply) else {
            return Ok(());
        };
        if let Some(count) = self.counts.get_mut(code) {
            *count = count.saturating_add(1);
        } else if self.counts.len() < MOST {
            let code = String::from_str(self.alloc, code)?;
            self.counts.insert(code, 1)?;
        }
        Ok(())
    }

    /// The codes, in order of their bytes, and how many replies had each.
    pub fn counts(&self) -> &BTreeMap<String, u64> {
        &self.counts
    }
}

// The code of a reply whose body is `{"code":"H1"}`, or the like: letters and digits alone.
fn code_of(reply: &[u8]) -> Option<&str> {
    let (_, body) = str::from_utf8(reply).ok()?.split_once("\r\n\r\n")?;
    let code = body.strip_prefix("{\"code\":\"")?.strip_suffix("\"}")?;
    if is_code(code) { Some(code) } else { None }
}

// Whether it has 1 to 8 letters and digits.
fn is_code(text: &str) -> bool {
    let length = text.len();
    1 <= length && length <= LONGEST && text.bytes().all(|byte| byte.is_ascii_alphanumeric())
}
