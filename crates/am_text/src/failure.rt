//! Why a call gives nothing.

ghost use Rattle.std.specs.Prelude.{◌≡◌, Ok, Err, IsErrAnd, MatchResult};
ghost use Rattle.std.specs.Result.{ForErr};
ghost use Rattle.am_text.specs.Outcome.{ForRefused, IsRefusedAnd, MatchFailure, refused_as, result_refused_as};
ghost use Rattle.am_text.specs.declared.failure.Failure.TheVariants.{OutOfMemory};

use std::alloc::{AllocError, AllocFailed};
use std::error::Error;
use std::fmt;

/// Why a call gives nothing.
#[derive(Clone, Copy, Debug, PartialEq, Eq, Drop)]
pub enum Failure<R> {
    /// Somebody's input is refused, for this reason.
    Refused(R),
    /// The system refused memory, which says nothing of the input.
    OutOfMemory,
}

impl<R> Failure<R> {
    /// The failure with the refusal that `map` makes of its refusal.
    pub fn map<S, F: FnOnce(R) -> S>(self, map: F) -> Failure<S>
        requires { ForRefused self (F.pre map) }
        ensures { MatchFailure self (λ refusal. IsRefusedAnd result (F.post map refusal)) (result ≡ Failure.OutOfMemory) }
    {
        match self {
            Failure::Refused(refusal) => Failure::Refused(map(refusal)),
            Failure::OutOfMemory => Failure::OutOfMemory,
        }
    }
}

impl<R: Drop> Failure<R> {
    /// The failure with another refusal, whatever the refusal was.
    pub fn refuse_as<S: Drop>(self, refusal: S) -> Failure<S>
        ensures { result ≡ refused_as refusal self }
    {
        self.map(|_| refusal)
    }
}

impl<R: fmt::Display> fmt::Display for Failure<R> {
    ghost use Rattle.am_text.specs.Outcome.{shown_by};

    ghost output = { shown_by R.output };

    fn fmt<W: fmt::Write>(&self, f: &mut fmt::Formatter<W>) -> fmt::Result {
        match self {
            Failure::Refused(refusal) => refusal.fmt(f),
            Failure::OutOfMemory => f.write_str("out of memory"),
        }
    }
}

impl<R: Error> Error for Failure<R> {}

impl<R> From<AllocError> for Failure<R> {
    ghost from_gives = { λ _ failure. failure ≡ OutOfMemory };

    fn from(_error: AllocError) -> Failure<R> {
        Failure::OutOfMemory
    }
}

impl<R, T: Drop> From<AllocFailed<T>> for Failure<R> {
    ghost from_gives = { λ _ failure. failure ≡ OutOfMemory };

    fn from(_error: AllocFailed<T>) -> Failure<R> {
        Failure::OutOfMemory
    }
}

/// What a call returned, with the refusal that `map` makes of its refusal.
pub fn map_refusal<T, R, S, F: FnOnce(R) -> S>(
    returned: Result<T, Failure<R>>,
    map: F,
) -> Result<T, Failure<S>>
    requires { ForErr returned (λ failure. ForRefused failure (F.pre map)) }
    ensures { MatchResult returned (λ value. result ≡ Ok value) (λ failure. MatchFailure failure
        (λ refusal. IsErrAnd result (λ other. IsRefusedAnd other (F.post map refusal))) (result ≡ Err Failure.OutOfMemory)) }
{
    match returned {
        Ok(value) => Ok(value),
        Err(failure) => Err(failure.map(map)),
    }
}

/// What a call returned, with another refusal, whatever the refusal was.
pub fn refuse_as<T, R: Drop, S: Drop>(
    returned: Result<T, Failure<R>>,
    refusal: S,
) -> Result<T, Failure<S>>
    ensures { result ≡ result_refused_as refusal returned }
{
    match returned {
        Ok(value) => Ok(value),
        Err(failure) => Err(failure.refuse_as(refusal)),
    }
}
