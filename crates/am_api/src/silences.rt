//! Requests to the silences.

ghost use Rattle.std.specs.Prelude.{◌≡◌, ◌∷◌, [], IfOk};
ghost use Rattle.am_pattern.specs.Asking.{Grows};
ghost use Rattle.am_muting.specs.Failing.{AddsAmong};
ghost use Rattle.am_silence.specs.Changing.{write_of};
ghost use Rattle.am_silence.specs.Having.{having};
ghost use Rattle.am_silence.specs.Posted.{patterns_in_body};
ghost use Rattle.am_query.specs.Patterns.{patterns_of_filters};
ghost use Rattle.am_query.specs.Queries.{filters_among, filters_in, parameters_in};
ghost use Rattle.am_payload.specs.Silences.{silences_text};
ghost use Rattle.am_api.specs.Deciding.{AcceptsBuilt, Decides, DecidesBy};
ghost use Rattle.am_api.specs.Patterns.{patterns_of_silences};
ghost use Rattle.am_api.specs.Refusing.{QueryRefuses, SilenceRefuses, SilencesRefuse};
ghost use Rattle.am_api.specs.Replied.{replied, stored};
ghost use Rattle.am_api.specs.Silences.{read_or_unknown, refused_for, silence_decided, silence_items, silence_named};
ghost use Rattle.am_api.specs.Silences.{silence_posted, silences_decided, silences_or_refused, status_of};

use crate::decision::{Decided, refuse, reply, store};
use crate::silencing::{items_of, store_posted};
use am_alert::Maker;
use am_http::{Method, Request};
use am_item::{Fault, Held};
use am_limit::Limits;
use am_match::Matcher;
use am_pattern::PatternCache;
use am_payload::{silence_json, silences_json};
use am_query::{QueryRefusal, read_filters};
use am_silence::{SilenceBook, SilenceRefusal, SilenceWrite, read_silence};
use am_text::{Failure, Moment, Octets};
use am_words::{Words, read_id};
use std::alloc::Global;

/// The decision on a request to the silences.
pub(crate) fn decide_silences(
    alloc: Global,
    request: &Request,
    held: &Held,
    limits: Limits,
    moment: Moment,
    maker: Maker,
    words: Words,
    cache: &mut PatternCache,
) -> Result<Decided, Fault>
    ensures decides { DecidesBy (SilencesRefuse request.now.method request.now limits cache.old cache.new)
        cache.old.refused cache.new.refused
        (patterns_of_silences request.now.method request.now) [] result
        (silences_decided request.now request.now.method held.now limits moment maker words) }
    ensures built { IfOk result (AcceptsBuilt (patterns_of_silences request.now.method request.now)) }
    ensures asked { Grows cache.old cache.new }
    ensures adds { AddsAmong (patterns_of_silences request.now.method request.now)
        cache.old.refused cache.new.refused }
{
    match request.method {
        Method::Get => list_silences(alloc, request.query.as_str(), held, moment, cache),
        Method::Post => {
            let body = request.body.as_slice();
            post_silence(alloc, body, held, limits, moment, maker, words, cache)
        }
        Method::Delete => refuse(alloc, 405, "H6"),
    }
}

/// The decision on a request to the silence that a text identifies.
pub(crate) fn decide_silence(
    alloc: Global,
    method: Method,
    text: &str,
    held: &Held,
    moment: Moment,
    maker: Maker,
) -> Result<Decided, Fault>
    ensures { Decides result (silence_decided text.now method held.now moment maker) }
{
    match method {
        Method::Get => read_silence_named(alloc, text, held, moment),
        Method::Post => refuse(alloc, 405, "H6"),
        Method::Delete => delete_silence(alloc, text, held, moment, maker),
    }
}

// The silences that have what the filters of a query want, or its refusal.
fn list_silences(
    alloc: Global,
    query: &str,
    held: &Held,
    moment: Moment,
    cache: &mut PatternCache,
) -> Result<Decided, Fault>
    ensures decides { DecidesBy (QueryRefuses (filters_among (parameters_in query.now)) cache.old cache.new)
        cache.old.refused cache.new.refused
        (patterns_of_filters query.now) [] result (silences_or_refused held.now moment (filters_in query.now)) }
    ensures built { IfOk result (AcceptsBuilt (patterns_of_filters query.now)) }
    ensures asked { Grows cache.old cache.new }
    ensures adds { AddsAmong (patterns_of_filters query.now)
        cache.old.refused cache.new.refused }
{
    match read_filters(alloc, query, cache) {
        Ok(wanted) => list_having(alloc, &wanted, held, moment),
        Err(Failure::Refused(reason)) => refuse(alloc, reason.status(), reason.code()),
        Err(Failure::OutOfMemory) => Err(Fault::OutOfMemory),
    }
}

fn list_having(
    alloc: Global,
    wanted: &[Matcher],
    held: &Held,
    moment: Moment,
) -> Result<Decided, Fault>
    ensures { Decides result (replied 200 (silences_text moment (having wanted.now held.now))) }
{
    let found = SilenceBook::new(held).having(alloc, wanted)?;
    let body = silences_json(alloc, &found, moment)?;
    Ok(reply(alloc, 200, body))
}

// The silence that a text identifies, as JSON.
#[tactic(auto, unfolding(crate::specs::Silences::silence_named))]
fn read_silence_named(
    alloc: Global,
    text: &str,
    held: &Held,
    moment: Moment,
) -> Result<Decided, Fault>
    ensures { Decides result (read_or_unknown moment (silence_named text.now held.now)) }
{
    let Some(id) = read_id(text) else {
        return refuse_for(alloc, SilenceRefusal::Unknown);
    };
    let Some(silence) = SilenceBook::new(held).find(&id) else {
        return refuse_for(alloc, SilenceRefusal::Unknown);
    };
    let body = silence_json(alloc, &silence, moment)?;
    Ok(reply(alloc, 200, body))
}

// The expiry of the silence that a text identifies is stored.
fn delete_silence(
    alloc: Global,
    text: &str,
    held: &Held,
    moment: Moment,
    maker: Maker,
) -> Result<Decided, Fault>
    ensures { Decides result (silence_decided text.now Method.Delete held.now moment maker) }
{
    let Some(id) = read_id(text) else {
        return refuse_for(alloc, SilenceRefusal::Unknown);
    };
    match SilenceBook::new(held).delete(alloc, &id, moment) {
        Ok(write) => store_expiry(alloc, write, maker),
        Err(Failure::Refused(reason)) => refuse_for(alloc, reason),
        Err(Failure::OutOfMemory) => Err(Fault::OutOfMemory),
    }
}

fn store_expiry(alloc: Global, write: SilenceWrite, maker: Maker) -> Result<Decided, Fault>
    ensures { Decides result (stored (silence_items maker (write_of write ∷ [])) 200 []) }
{
    let mut writes = Vec::new(alloc);
    writes.push(write)?;
    let items = items_of(alloc, writes, maker)?;
    Ok(store(items, 200, Octets::from_vec(Vec::new(alloc))))
}

// The silence of a posted body, or its change, is stored, where the body is no longer than its limit and passes every
// check.
fn post_silence(
    alloc: Global,
    body: &[u8],
    held: &Held,
    limits: Limits,
    moment: Moment,
    maker: Maker,
    words: Words,
    cache: &mut PatternCache,
) -> Result<Decided, Fault>
    ensures decides { DecidesBy (SilenceRefuses body.now limits cache.old cache.new) cache.old.refused cache.new.refused
        (patterns_in_body body.now) [] result (silence_posted limits held.now moment maker words body.now) }
    ensures built { IfOk result (AcceptsBuilt (patterns_in_body body.now)) }
    ensures asked { Grows cache.old cache.new }
    ensures adds { AddsAmong (patterns_in_body body.now)
        cache.old.refused cache.new.refused }
{
    if limits.silence < body.len() as u64 {
        return refuse(alloc, 400, "Li4");
    }
    match read_silence(alloc, body, moment, cache) {
        Ok(posted) => store_posted(alloc, posted, held, limits.silences, moment, maker, words),
        Err(Failure::Refused(reason)) => refuse_for(alloc, reason),
        Err(Failure::OutOfMemory) => Err(Fault::OutOfMemory),
    }
}

/// The reply to a silence that is refused.
pub(crate) fn refuse_for(alloc: Global, reason: SilenceRefusal) -> Result<Decided, Fault>
    ensures { Decides result (refused_for reason) }
{
    refuse(alloc, status_of(reason), reason.code())
}

// The status code of a silence that is refused.
fn status_of(reason: SilenceRefusal) -> u16
    ensures { result ≡ status_of reason }
{
    match reason {
        SilenceRefusal::Unknown => 404,
        SilenceRefusal::BadMatcher(matcher) => QueryRefusal::BadMatcher(matcher).status(),
        _ => 400,
    }
}
