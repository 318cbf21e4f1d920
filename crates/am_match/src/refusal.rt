//! Why matchers are refused.

ghost use Rattle.std.specs.Prelude.{◌≡◌, Some};
ghost use Rattle.am_match.specs.Refusals.{matcher_code, spelling_code, taking_code};

use std::error::Error;
use std::fmt;

/// Why a text gives no matchers, or a pattern can't be used.
#[derive(Clone, Copy, Debug, PartialEq, Eq)]
pub enum MatcherRefusal {
    /// The text isn't one or more matchers.
    NoMatchers,
    /// A pattern of at most 256 bytes isn't read, or nests too deep.
    BadPattern,
    /// A pattern has more than 256 bytes.
    LongPattern,
    /// The build of a pattern was refused for its size.
    BuildRefused,
}

impl MatcherRefusal {
    /// The code of the refusal, `M1` to `M3` or `B2`.
    pub fn code(self) -> &'static str
        ensures { result.now ≡ matcher_code self }
    {
        match self {
            MatcherRefusal::NoMatchers => "M1",
            MatcherRefusal::BadPattern => "M2",
            MatcherRefusal::LongPattern => "M3",
            MatcherRefusal::BuildRefused => "B2",
        }
    }
}

impl fmt::Display for MatcherRefusal {
    ghost output = { λ refusal. Some (matcher_code refusal) };

    fn fmt<W: fmt::Write>(&self, f: &mut fmt::Formatter<W>) -> fmt::Result {
        f.pad(self.code())
    }
}

impl Error for MatcherRefusal {}

/// Why matchers aren't written as bytes.
#[derive(Clone, Copy, Debug, PartialEq, Eq)]
pub enum SpellRefusal {
    /// There are more than 65,535 matchers, or a name or value has 2^32 bytes or more.
    TooLong,
}

impl SpellRefusal {
    /// The code of the refusal, `Mb1`.
    pub fn code(self) -> &'static str
        ensures { result.now ≡ spelling_code self }
    {
        match self {
            SpellRefusal::TooLong => "Mb1",
        }
    }
}

impl fmt::Display for SpellRefusal {
    ghost output = { λ refusal. Some (spelling_code refusal) };

    fn fmt<W: fmt::Write>(&self, f: &mut fmt::Formatter<W>) -> fmt::Result {
        f.pad(self.code())
    }
}

impl Error for SpellRefusal {}

/// Why bytes give no matchers.
#[derive(Clone, Copy, Debug, PartialEq, Eq)]
pub enum TakeRefusal {
    /// A field runs past the end of the bytes.
    Short,
    /// A field has a value that isn't allowed: an operator above 3, a name that is no label name, or text that isn't
    /// UTF-8.
    Bad,
}

impl TakeRefusal {
    /// The code of the refusal, `Mb2` or `Mb3`.
    pub fn code(self) -> &'static str
        ensures { result.now ≡ taking_code self }
    {
        match self {
            TakeRefusal::Short => "Mb2",
            TakeRefusal::Bad => "Mb3",
        }
    }
}

impl fmt::Display for TakeRefusal {
    ghost output = { λ refusal. Some (taking_code refusal) };

    fn fmt<W: fmt::Write>(&self, f: &mut fmt::Formatter<W>) -> fmt::Result {
        f.pad(self.code())
    }
}

impl Error for TakeRefusal {}
