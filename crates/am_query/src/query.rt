//! What a query asks.

ghost use Rattle.std.specs.Prelude.{◌≡◌, All, IfErr, IfOk, OnOk, find, reverse, bytes_eq, true};
ghost use Rattle.std.specs.List.{list_all};
ghost use Rattle.std.specs.Option.{option_copied};
ghost use Rattle.am_text.specs.Outcome.{Gives};
ghost use Rattle.am_pattern.specs.Asking.{Asked};
ghost use Rattle.am_pattern.specs.Kept.{HasRegex};
ghost use Rattle.am_query.specs.Stopping.{IsParameterFailure, IsStopOf, is_fine, passes};
ghost use Rattle.am_query.specs.Unbuilt.{GivesUnless, IsUnbuiltRefusal};
ghost use Rattle.am_query.specs.Patterns.{IsAsked, patterns_as, patterns_of_filters, patterns_of_group_query, patterns_of_parameters, patterns_of_query};
ghost use Rattle.am_query.specs.Queries.{asks_for, filters_among, filters_in, flag_judged, group_query_in, judged, kind_of, last_value, matchers_in, parameters_in, processed_among, query_in, query_of};

use crate::refusal::QueryRefusal;
use am_match::{Matcher, MatcherRefusal, check_pattern, read_matchers};
use am_pattern::PatternCache;
use am_text::{Failure, Listed, Text, map_refusal};
use form_urlencoded::parse;
use std::alloc::{AllocError, Global};

/// What a parameter of a query is, by its name.
#[derive(Clone, Copy, PartialEq, Eq)]
pub enum Kind {
    /// `filter`: matchers, which must all take an alert.
    Filter,
    /// `receiver`: a pattern, which must take the name of a receiver of an alert.
    Receiver,
    /// `active`, `silenced`, `inhibited` or `unprocessed`: `true` or `false`.
    Flag,
    /// Any other name, which says nothing.
    Unknown,
}

/// A parameter of a query, decoded.
#[derive(Drop)]
pub struct Parameter {
    pub name: Text,
    pub value: Text,
}

/// What a query asks of the alerts.
#[derive(Drop)]
pub struct Query {
    /// The matchers of all its filters.
    pub matchers: Listed<Matcher>,
    /// The pattern of receivers, where one is given.
    pub receiver: Option<Text>,
    /// Whether alerts are asked for that nothing mutes.
    pub active: bool,
    /// Whether alerts are asked for that a silence silences.
    pub silenced: bool,
    /// Whether alerts are asked for that an alert inhibits.
    pub inhibited: bool,
}

/// What a query asks of the alerts. Each parameter is judged, also one that a later one replaces.
///
/// # Errors
/// The first parameter that is refused, in the query's order.
#[tactic(auto, unfolding(crate::specs::Queries::query_in, crate::specs::Patterns::patterns_of_query))]
pub fn read_query(
    alloc: Global,
    query: &str,
    cache: &mut PatternCache,
) -> Result<Query, Failure<QueryRefusal>>
    ensures read { GivesUnless (IsUnbuiltRefusal cache.new.refused (patterns_of_query query.now)) (λ q. q) result (query_in query.now) }
    ensures asked { Asked result cache.old cache.new }
    ensures passes { OnOk result (list_all is_fine (parameters_in query.now) ≡ true) }
    ensures built { OnOk result (All HasRegex (patterns_of_query query.now)) }
    ensures stop { IfErr result (IsStopOf (parameters_in query.now) cache.old cache.new) }

    // What alerts are asked by are patterns, and those of the query.
    ensures patterns { IfOk result (λ q. IsAsked q (patterns_of_query query.now)) }
{
    let parameters = parameters_in(alloc, query)?;
    query_of(alloc, parameters, cache)
}

/// What a query asks of the alerts in their groups: that of [`read_query`], but that `unprocessed` says nothing.
///
/// # Errors
/// The first parameter that is refused, in the query's order.
#[tactic(auto, unfolding(crate::specs::Queries::group_query_in, crate::specs::Patterns::patterns_of_group_query))]
pub fn read_group_query(
    alloc: Global,
    query: &str,
    cache: &mut PatternCache,
) -> Result<Query, Failure<QueryRefusal>>
    ensures read { GivesUnless (IsUnbuiltRefusal cache.new.refused (patterns_of_group_query query.now)) (λ q. q) result (group_query_in query.now) }
    ensures asked { Asked result cache.old cache.new }
    ensures passes { OnOk result (list_all is_fine (processed_among (parameters_in query.now)) ≡ true) }
    ensures built { OnOk result (All HasRegex (patterns_of_group_query query.now)) }
    ensures stop { IfErr result (IsStopOf (processed_among (parameters_in query.now)) cache.old cache.new) }

    // What alerts are asked by are patterns, and those of the query.
    ensures patterns { IfOk result (λ q. IsAsked q (patterns_of_group_query query.now)) }
{
    let mut parameters = parameters_in(alloc, query)?;
    drop_unprocessed(&mut parameters);
    query_of(alloc, parameters, cache)
}

// What parameters say together.
fn query_of(
    alloc: Global,
    parameters: Vec<Parameter>,
    cache: &mut PatternCache,
) -> Result<Query, Failure<QueryRefusal>>
    ensures read { GivesUnless (IsUnbuiltRefusal cache.new.refused (patterns_of_parameters parameters.items)) (λ q. q) result
        (query_of parameters.items) }
    ensures asked { Asked result cache.old cache.new }
    ensures passes { OnOk result (list_all is_fine parameters.items ≡ true) }
    ensures built { OnOk result (All HasRegex (patterns_of_parameters parameters.items)) }
    ensures stop { IfErr result (IsStopOf parameters.items cache.old cache.new) }
{
    let matchers = matchers_in(alloc, &parameters, cache)?;
    let receiver = last_value(alloc, &parameters, "receiver")?;
    Ok(Query {
        matchers: Listed::from_vec(matchers),
        receiver,
        active: asks_for(&parameters, "active"),
        silenced: asks_for(&parameters, "silenced"),
        inhibited: asks_for(&parameters, "inhibited"),
    })
}

// Drops the flags of processing among parameters.
fn drop_unprocessed(parameters: &mut Vec<Parameter>)
    ensures { parameters.new.items ≡ processed_among parameters.old.items }
{
    parameters.retain(|parameter| parameter.name.as_str() != "unprocessed");
}

/// The matchers of all filters of a query of the silences. No other parameter is judged.
///
/// # Errors
/// The first filter that is refused, in the query's order.
#[tactic(auto, unfolding(crate::specs::Queries::filters_in, crate::specs::Patterns::patterns_of_filters))]
pub fn read_filters(
    alloc: Global,
    query: &str,
    cache: &mut PatternCache,
) -> Result<Vec<Matcher>, Failure<QueryRefusal>>
    ensures read { GivesUnless (IsUnbuiltRefusal cache.new.refused (patterns_of_filters query.now)) (λ v. v.items) result (filters_in query.now) }
    ensures asked { Asked result cache.old cache.new }
    ensures built { OnOk result (All HasRegex (patterns_of_filters query.now)) }
    ensures stop { IfErr result (IsStopOf (filters_among (parameters_in query.now)) cache.old cache.new) }
{
    let mut parameters = parameters_in(alloc, query)?;
    keep_filters(&mut parameters);
    matchers_in(alloc, &parameters, cache)
}

// Keeps the filters among parameters.
fn keep_filters(parameters: &mut Vec<Parameter>)
    ensures { parameters.new.items ≡ filters_among parameters.old.items }
{
    parameters.retain(|parameter| parameter.name.as_str() == "filter");
}

// The parameters of a query, in its order.
#[tactic(auto, unfolding(crate::specs::Queries::parameters_in))]
fn parameters_in(alloc: Global, query: &str) -> Result<Vec<Parameter>, AllocError>
    ensures { IfOk result (λ v. v.items ≡ parameters_in query.now) }
{
    let mut parameters = Vec::new(alloc);
    for pair in parse(alloc, query.as_bytes()).into_owned() {
        let (name, value) = pair?;
        parameters.push(Parameter {
            name: Text::from_string(name),
            value: Text::from_string(value),
        })?;
    }
    Ok(parameters)
}

// The matchers of all filters, where no parameter is refused.
fn matchers_in(
    alloc: Global,
    parameters: &[Parameter],
    cache: &mut PatternCache,
) -> Result<Vec<Matcher>, Failure<QueryRefusal>>
    ensures read { GivesUnless (IsUnbuiltRefusal cache.new.refused (patterns_of_parameters parameters.now)) (λ v. v.items)
        result (matchers_in parameters.now) }
    ensures asked { Asked result cache.old cache.new }
    ensures passes { OnOk result (list_all is_fine parameters.now ≡ true) }
    ensures built { OnOk result (All HasRegex (patterns_of_parameters parameters.now)) }
    ensures stop { IfErr result (IsStopOf parameters.now cache.old cache.new) }
{
    let mut matchers = Vec::new(alloc);
    for parameter in parameters {
        let mut own = parameter_judged(alloc, parameter, cache)?;
        matchers.append(&mut own)?;
    }
    Ok(matchers)
}

// The matchers that a parameter brings, where it isn't refused.
fn parameter_judged(
    alloc: Global,
    parameter: &Parameter,
    cache: &mut PatternCache,
) -> Result<Vec<Matcher>, Failure<QueryRefusal>>
    ensures read { GivesUnless
        (IsUnbuiltRefusal cache.new.refused (patterns_as (kind_of parameter.now.name) parameter.now.value)) (λ v. v.items)
        result (judged (kind_of parameter.now.name) parameter.now.value) }
    ensures asked { Asked result cache.old cache.new }
    ensures passes { OnOk result (is_fine parameter.now ≡ true) }
    ensures built { OnOk result (All HasRegex (patterns_as (kind_of parameter.now.name) parameter.now.value)) }
    ensures failure { IfErr result (IsParameterFailure (kind_of parameter.now.name) parameter.now.value cache.old cache.new) }
{
    let kind = kind_of(parameter.name.as_str());
    judged(alloc, kind, parameter.value.as_str(), cache)
}

#[tactic(auto, unfolding(crate::specs::Queries::kind_of))]
fn kind_of(name: &str) -> Kind
    ensures { result ≡ kind_of name.now }
{
    match name {
        "filter" => Kind::Filter,
        "receiver" => Kind::Receiver,
        "active" | "silenced" | "inhibited" | "unprocessed" => Kind::Flag,
        _ => Kind::Unknown,
    }
}

// The same by the kind and the value of the parameter.
#[tactic(auto, unfolding(crate::specs::Queries::judged))]
fn judged(
    alloc: Global,
    kind: Kind,
    value: &str,
    cache: &mut PatternCache,
) -> Result<Vec<Matcher>, Failure<QueryRefusal>>
    ensures read { GivesUnless (IsUnbuiltRefusal cache.new.refused (patterns_as kind value.now)) (λ v. v.items)
        result (judged kind value.now) }
    ensures asked { Asked result cache.old cache.new }
    ensures passes { OnOk result (passes kind value.now ≡ true) }
    ensures built { OnOk result (All HasRegex (patterns_as kind value.now)) }
    ensures failure { IfErr result (IsParameterFailure kind value.now cache.old cache.new) }
{
    match kind {
        Kind::Filter => filter_judged(alloc, value, cache),
        Kind::Receiver => receiver_judged(alloc, value, cache),
        Kind::Flag => flag_judged(alloc, value),
        Kind::Unknown => Ok(Vec::new(alloc)),
    }
}

#[tactic(auto, unfolding(crate::specs::Queries::judged))]
fn filter_judged(
    alloc: Global,
    value: &str,
    cache: &mut PatternCache,
) -> Result<Vec<Matcher>, Failure<QueryRefusal>>
    ensures read { GivesUnless (IsUnbuiltRefusal cache.new.refused (patterns_as Kind.Filter value.now)) (λ v. v.items)
        result (judged Kind.Filter value.now) }
    ensures asked { Asked result cache.old cache.new }
    ensures passes { OnOk result (passes Kind.Filter value.now ≡ true) }
    ensures built { OnOk result (All HasRegex (patterns_as Kind.Filter value.now)) }
    ensures failure { IfErr result (IsParameterFailure Kind.Filter value.now cache.old cache.new) }
{
    match read_matchers(alloc, value, cache) {
        Ok(matchers) => Ok(matchers),
        Err(Failure::Refused(refusal)) => Err(Failure::Refused(QueryRefusal::BadMatcher(refusal))),
        Err(Failure::OutOfMemory) => Err(Failure::OutOfMemory),
    }
}

#[tactic(auto, unfolding(crate::specs::Queries::judged))]
fn receiver_judged(
    alloc: Global,
    value: &str,
    cache: &mut PatternCache,
) -> Result<Vec<Matcher>, Failure<QueryRefusal>>
    ensures read { GivesUnless (IsUnbuiltRefusal cache.new.refused (patterns_as Kind.Receiver value.now)) (λ v. v.items)
        result (judged Kind.Receiver value.now) }
    ensures asked { Asked result cache.old cache.new }
    ensures passes { OnOk result (passes Kind.Receiver value.now ≡ true) }
    ensures built { OnOk result (All HasRegex (patterns_as Kind.Receiver value.now)) }
    ensures failure { IfErr result (IsParameterFailure Kind.Receiver value.now cache.old cache.new) }
{
    match check_pattern(alloc, value, cache) {
        Ok(()) => Ok(Vec::new(alloc)),
        Err(Failure::Refused(refusal)) => Err(Failure::Refused(QueryRefusal::BadMatcher(refusal))),
        Err(Failure::OutOfMemory) => Err(Failure::OutOfMemory),
    }
}

fn flag_judged(alloc: Global, value: &str) -> Result<Vec<Matcher>, Failure<QueryRefusal>>
    ensures { Gives (λ v. v.items) result (flag_judged value.now) }
{
    match value {
        "true" | "false" => Ok(Vec::new(alloc)),
        _ => Err(Failure::Refused(QueryRefusal::BadFlag)),
    }
}

// The value of the last parameter of this name.
fn last_value(
    alloc: Global,
    parameters: &[Parameter],
    name: &str,
) -> Result<Option<Text>, AllocError>
    ensures { IfOk result (λ value. value ≡ last_value name.now parameters.now) }
{
    match last_of(parameters, name) {
        None => Ok(None),
        Some(parameter) => Ok(Some(parameter.value.copy(alloc)?)),
    }
}

// The last parameter of this name.
fn last_of<'a>(parameters: &'a [Parameter], name: &str) -> Option<&'a Parameter>
    ensures { option_copied result ≡ find (λ (p : Parameter). bytes_eq p.name name.now) (reverse parameters.now) }
{
    parameters
        .iter()
        .rev()
        .find(|parameter| parameter.name.as_str() == name)
}

// Whether alerts of a kind are asked for, by the flag of this name.
fn asks_for(parameters: &[Parameter], name: &str) -> bool
    ensures { result ≡ asks_for name.now parameters.now }
{
    match last_of(parameters, name) {
        None => true,
        Some(parameter) => parameter.value.as_str() == "true",
    }
}
