//! The lists of alerts and of their groups that requests ask for.

ghost use Rattle.std.specs.Prelude.{◌≡◌, ◌++◌, ℕ, List, IfErr, IfOk, true};
ghost use Rattle.std.specs.List.{list_all};
ghost use Rattle.am_text.specs.Outcome.{ForRefused};
ghost use Rattle.am_pattern.specs.Asking.{Grows};
ghost use Rattle.am_query.specs.Patterns.{IsAsked, patterns_of_group_query, patterns_of_query};
ghost use Rattle.am_query.specs.declared.query.Parameter.{Parameter};
ghost use Rattle.am_query.specs.Queries.{group_query_in, parameters_in, processed_among, query_in};
ghost use Rattle.am_query.specs.Stopping.{is_fine};
ghost use Rattle.am_muting.specs.Failing.{AddsAmong};
ghost use Rattle.am_listing.specs.Failing.{IsUnanswered, patterns_in_use};
ghost use Rattle.am_listing.specs.Written.{alerts_text};
ghost use Rattle.am_group_list.specs.Written.{groups_text};
ghost use Rattle.am_api.specs.Deciding.{AcceptsBuilt, DecidesBy};
ghost use Rattle.am_api.specs.Decision.{groups_decided, listed_or_refused};
ghost use Rattle.am_api.specs.Patterns.{patterns_of_groups};
ghost use Rattle.am_api.specs.Refusing.{GroupsRefuse, IsNotAnswered, ListRefuses, asked_by_method};
ghost use Rattle.am_api.specs.Replied.{replied};

use crate::decision::{Decided, refuse, reply};
use am_config::Config;
use am_group_list::list_groups;
use am_http::{Method, Request};
use am_item::{Fault, Held};
use am_listing::{Unanswered, list_alerts};
use am_pattern::PatternCache;
use am_query::{Query, read_group_query, read_query};
use am_text::{Failure, Moment, Octets};
use std::alloc::Global;

/// The alerts that fire and that a query asks for, or its refusal.
pub(crate) fn decide_list(
    alloc: Global,
    query: &str,
    held: &Held,
    config: &Config,
    moment: Moment,
    cache: &mut PatternCache,
) -> Result<Decided, Fault>
    ensures decides { DecidesBy (ListRefuses (parameters_in query.now) cache.old cache.new) cache.old.refused
        cache.new.refused
        (patterns_of_query query.now) (patterns_in_use config.now moment held.now) result
        (listed_or_refused (λ asked. alerts_text config.now asked moment held.now) (query_in query.now)) }
    ensures built { IfOk result (AcceptsBuilt (patterns_of_query query.now)) }
    ensures asked { Grows cache.old cache.new }
    ensures adds { AddsAmong (patterns_of_query query.now ++ patterns_in_use config.now moment held.now)
        cache.old.refused cache.new.refused }
{
    match read_query(alloc, query, cache) {
        Ok(asked) => list_asked(alloc, query, &asked, held, config, moment, cache),
        Err(Failure::Refused(reason)) => refuse(alloc, reason.status(), reason.code()),
        Err(Failure::OutOfMemory) => Err(Fault::OutOfMemory),
    }
}

// .. once the query is read.
fn list_asked(
    alloc: Global,
    query: &str,
    asked: &Query,
    held: &Held,
    config: &Config,
    moment: Moment,
    cache: &mut PatternCache,
) -> Result<Decided, Fault>
    requires asked { IsAsked asked.now (patterns_of_query query.now) }
    requires fine { list_all is_fine (parameters_in query.now) ≡ true }
    ensures decides { DecidesBy (IsNotAnswered (parameters_in query.now)) cache.old.refused cache.new.refused
        (patterns_of_query query.now)
        (patterns_in_use config.now moment held.now) result (replied 200 (alerts_text config.now asked.now moment held.now)) }
    ensures asked { Grows cache.old cache.new }
    ensures adds { AddsAmong (patterns_of_query query.now ++ patterns_in_use config.now moment held.now)
        cache.old.refused cache.new.refused }
{
    let listed = list_alerts(alloc, asked, held, config, moment, cache);
    reply_listed(alloc, listed)
}

/// The decision on a request to the groups of alerts.
pub(crate) fn decide_groups(
    alloc: Global,
    request: &Request,
    held: &Held,
    config: &Config,
    moment: Moment,
    cache: &mut PatternCache,
) -> Result<Decided, Fault>
    ensures decides { DecidesBy (GroupsRefuse request.now.method request.now cache.old cache.new) cache.old.refused
        cache.new.refused
        (patterns_of_groups request.now.method request.now)
        (asked_by_method request.now.method (patterns_in_use config.now moment held.now)) result
        (groups_decided config.now request.now request.now.method held.now moment) }
    ensures built { IfOk result (AcceptsBuilt (patterns_of_groups request.now.method request.now)) }
    ensures asked { Grows cache.old cache.new }
    ensures adds { AddsAmong (patterns_of_groups request.now.method request.now
        ++ asked_by_method request.now.method (patterns_in_use config.now moment held.now))
        cache.old.refused cache.new.refused }
{
    match request.method {
        Method::Get => {
            decide_group_list(alloc, request.query.as_str(), held, config, moment, cache)
        }
        Method::Post | Method::Delete => refuse(alloc, 405, "H6"),
    }
}

// The groups of the alerts that fire and that a query asks for, or its refusal.
fn decide_group_list(
    alloc: Global,
    query: &str,
    held: &Held,
    config: &Config,
    moment: Moment,
    cache: &mut PatternCache,
) -> Result<Decided, Fault>
    ensures decides { DecidesBy (ListRefuses (processed_among (parameters_in query.now)) cache.old cache.new)
        cache.old.refused cache.new.refused
        (patterns_of_group_query query.now) (patterns_in_use config.now moment held.now) result
        (listed_or_refused (λ asked. groups_text config.now asked moment held.now) (group_query_in query.now)) }
    ensures built { IfOk result (AcceptsBuilt (patterns_of_group_query query.now)) }
    ensures asked { Grows cache.old cache.new }
    ensures adds { AddsAmong (patterns_of_group_query query.now ++ patterns_in_use config.now moment held.now)
        cache.old.refused cache.new.refused }
{
    match read_group_query(alloc, query, cache) {
        Ok(asked) => list_grouped(alloc, query, &asked, held, config, moment, cache),
        Err(Failure::Refused(reason)) => refuse(alloc, reason.status(), reason.code()),
        Err(Failure::OutOfMemory) => Err(Fault::OutOfMemory),
    }
}

// .. once the query is read.
fn list_grouped(
    alloc: Global,
    query: &str,
    asked: &Query,
    held: &Held,
    config: &Config,
    moment: Moment,
    cache: &mut PatternCache,
) -> Result<Decided, Fault>
    requires asked { IsAsked asked.now (patterns_of_group_query query.now) }
    requires fine { list_all is_fine (processed_among (parameters_in query.now)) ≡ true }
    ensures decides { DecidesBy (IsNotAnswered (processed_among (parameters_in query.now))) cache.old.refused
        cache.new.refused
        (patterns_of_group_query query.now) (patterns_in_use config.now moment held.now) result (replied 200 (groups_text config.now asked.now moment held.now)) }
    ensures asked { Grows cache.old cache.new }
    ensures adds { AddsAmong (patterns_of_group_query query.now ++ patterns_in_use config.now moment held.now)
        cache.old.refused cache.new.refused }
{
    let listed = list_groups(alloc, asked, held, config, moment, cache);
    reply_listed(alloc, listed)
}

// The reply with a list. Where a pattern of the query gave no answer, the request is refused.
fn reply_listed(
    alloc: Global,
    listed: Result<Octets, Failure<Unanswered>>,
) -> Result<Decided, Fault>
    ensures { (parameters : List Parameter) (had refused own stored : List (List ℕ)) (text : List ℕ) →
        list_all is_fine parameters ≡ true → IfOk listed (λ o. (o ≡ text) × (refused ≡ had)) →
        IfErr listed (λ failure. ForRefused failure (IsUnanswered refused own stored)) →
        DecidesBy (IsNotAnswered parameters) had refused own stored result (replied 200 text) }
{
    match listed {
        Ok(body) => Ok(reply(alloc, 200, body)),
        Err(Failure::Refused(Unanswered::Asked)) => refuse(alloc, 503, "B2"),
        Err(Failure::Refused(Unanswered::Stored)) => Err(Fault::PatternNotBuilt),
        Err(Failure::OutOfMemory) => Err(Fault::OutOfMemory),
    }
}
