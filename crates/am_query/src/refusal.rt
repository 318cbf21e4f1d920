//! Why a query is refused.

ghost use Rattle.std.specs.Prelude.{◌≡◌, Some};
ghost use Rattle.am_query.specs.Queries.{code_of, matcher_status, status_of};

use am_match::MatcherRefusal;
use std::error::Error;
use std::fmt;

/// Why a query is refused.
#[derive(Clone, Copy, Debug, PartialEq, Eq)]
pub enum QueryRefusal {
    /// A flag is neither `true` nor `false`.
    BadFlag,
    /// A `filter` or a `receiver` is refused.
    BadMatcher(MatcherRefusal),
}

impl QueryRefusal {
    /// The code of the refusal: `P1`, `M1` to `M3`, or `B2`.
    pub fn code(self) -> &'static str
        ensures { result.now ≡ code_of self }
    {
        match self {
            QueryRefusal::BadFlag => "P1",
            QueryRefusal::BadMatcher(refusal) => refusal.code(),
        }
    }

    /// The status code of the refusal's reply.
    pub fn status(self) -> u16
        ensures { result ≡ status_of self }
    {
        match self {
            QueryRefusal::BadFlag => 400,
            QueryRefusal::BadMatcher(refusal) => matcher_status(refusal),
        }
    }
}

// The status code of a matcher that is refused.
fn matcher_status(refusal: MatcherRefusal) -> u16
    ensures { result ≡ matcher_status refusal }
{
    match refusal {
        MatcherRefusal::NoMatchers | MatcherRefusal::BadPattern | MatcherRefusal::LongPattern =>
            400,
        MatcherRefusal::BuildRefused => 503,
    }
}

impl fmt::Display for QueryRefusal {
    ghost output = { λ refusal. Some (code_of refusal) };

    fn fmt<W: fmt::Write>(&self, f: &mut fmt::Formatter<W>) -> fmt::Result {
        f.pad(self.code())
    }
}

impl Error for QueryRefusal {}
