//! The decision on a request of a tenant.

ghost use Rattle.std.specs.Prelude.{◌≡◌, ◌++◌, [], All, IfOk};
ghost use Rattle.am_pattern.specs.Asking.{Grows};
ghost use Rattle.am_match.specs.Checking.{AreRefusedRightly};
ghost use Rattle.am_pattern.specs.Taking.{IsPattern};
ghost use Rattle.am_current.specs.Current.{configuration_in};
ghost use Rattle.am_muting.specs.Failing.{AddsAmong};
ghost use Rattle.am_listing.specs.Failing.{patterns_in_use};
ghost use Rattle.am_api.specs.Deciding.{AcceptsBuilt, Decides, DecidesBy, DecidesUnless, decision_of};
ghost use Rattle.am_api.specs.Decision.{alerts_decided, configuration_decided, decided, decided_by, receivers_decided};
ghost use Rattle.am_api.specs.Patterns.{patterns_by, patterns_of_alerts, patterns_of_document, patterns_of_request};
ghost use Rattle.am_api.specs.Refusing.{AlertsRefuse, DocumentRefuses, Refuses, RefusesBy, asked_by, asked_by_method};
ghost use Rattle.am_api.specs.Refusing.{stored_asked};
ghost use Rattle.am_api.specs.Replied.{refused, replied, stored};

use crate::configuration::{delete_configuration, post_configuration, read_configuration};
use crate::listing::{decide_groups, decide_list};
use crate::posting::post_alerts;
use crate::silences::{decide_silence, decide_silences};
use am_alert::Maker;
use am_config::Config;
use am_http::{Endpoint, Method, Request, refusal_body};
use am_item::{Fault, Held, Item};
use am_limit::Limits;
use am_pattern::PatternCache;
use am_payload::receivers_json;
use am_text::{Moment, Octets};
use am_words::{Place, Words};
use std::alloc::{AllocError, Global};

/// What is decided on a request.
#[derive(Drop)]
pub struct Decided {
    /// The items to store, in order.
    pub items: Vec<Item>,
    /// The status code of the reply.
    pub status: u16,
    /// The body of the reply.
    pub body: Octets,
    /// Where words of the tenant were drawn, the place of the next one.
    pub drawn: Option<Place>,
}

/// Decides a request of a tenant at a moment, where `held` is held of the tenant, `config` is its configuration in use,
/// `limits` are its limits and `words` its words from the next one on. A refusal is a decision too. Patterns are asked by
/// lists: each is built at most once for its check and once for its answers, however few patterns the cache keeps.
///
/// # Errors
/// A count of `maker` would pass 2^62; a pattern of `config` or of an active silence gave no answer, as its build was
/// refused; or out of memory. A pattern of the request itself that was refused its build is a decision, the refusal `B2`.
#[tactic(auto, unfolding(crate::specs::Decision::decided, crate::specs::Patterns::patterns_of_request, crate::specs::Refusing::Refuses, crate::specs::Refusing::stored_asked))]
pub fn decide(
    alloc: Global,
    request: &Request,
    held: &Held,
    config: &Config,
    limits: Limits,
    moment: Moment,
    maker: Maker,
    words: Words,
    cache: &mut PatternCache,
) -> Result<Decided, Fault>
    requires { config.now ≡ configuration_in held.now }
    ensures decides { DecidesUnless cache.new.refused (patterns_of_request request.now)
        (patterns_in_use config.now moment held.now) result (decided request.now held.now limits moment maker words) }

    // Where a pattern of the request is refused its build, the request's own check that meets it refuses the request, and
    // none before it did; the fault comes of a stored pattern where the request asks such.
    ensures refuses { DecidesBy (Refuses request.now limits cache.old cache.new) cache.old.refused cache.new.refused
        (patterns_of_request request.now)
        (stored_asked request.now (patterns_in_use config.now moment held.now)) result
        (decided request.now held.now limits moment maker words) }
    ensures asked { Grows cache.old cache.new }
    ensures adds { AddsAmong (patterns_of_request request.now ++ stored_asked request.now
        (patterns_in_use config.now moment held.now))
        cache.old.refused cache.new.refused }

    // No request is accepted before each pattern that it brings was built, in the size that one may have.
    ensures built { IfOk result (AcceptsBuilt (patterns_of_request request.now)) }

    // Where no build of a pattern of the request or of one in use was refused, it is the decision.
    ensures meaning { AreRefusedRightly cache.new.refused (patterns_of_request request.now) →
        AreRefusedRightly cache.new.refused (patterns_in_use config.now moment held.now) →
        All IsPattern (patterns_in_use config.now moment held.now) →
        Decides result (decided request.now held.now limits moment maker words) }
{
    decide_by(
        alloc, request, held, config, limits, moment, maker, words, cache,
    )
}

// The same by what the request speaks of.
fn decide_by(
    alloc: Global,
    request: &Request,
    held: &Held,
    config: &Config,
    limits: Limits,
    moment: Moment,
    maker: Maker,
    words: Words,
    cache: &mut PatternCache,
) -> Result<Decided, Fault>
    ensures decides { DecidesBy (RefusesBy request.now.endpoint request.now limits cache.old cache.new)
        cache.old.refused cache.new.refused
        (patterns_by request.now.endpoint request.now)
        (asked_by request.now.endpoint request.now.method (patterns_in_use config.now moment held.now)) result
        (decided_by config.now request.now request.now.endpoint held.now limits moment maker words) }
    ensures built { IfOk result (AcceptsBuilt (patterns_by request.now.endpoint request.now)) }
    ensures asked { Grows cache.old cache.new }
    ensures adds { AddsAmong (patterns_by request.now.endpoint request.now
        ++ asked_by request.now.endpoint request.now.method (patterns_in_use config.now moment held.now))
        cache.old.refused cache.new.refused }
{
    match &request.endpoint {
        Endpoint::Alerts => {
            decide_alerts(alloc, request, held, config, limits, moment, maker, cache)
        }
        Endpoint::AlertGroups => decide_groups(alloc, request, held, config, moment, cache),
        Endpoint::Silences => {
            decide_silences(alloc, request, held, limits, moment, maker, words, cache)
        }
        Endpoint::Silence(text) => {
            decide_silence(alloc, request.method, text.as_str(), held, moment, maker)
        }
        Endpoint::Receivers => list_receivers(alloc, request.method, config),
        Endpoint::Configuration => {
            decide_configuration(alloc, request, held, limits, moment, maker, cache)
        }
    }
}

// The decision on a request to the alerts.
fn decide_alerts(
    alloc: Global,
    request: &Request,
    held: &Held,
    config: &Config,
    limits: Limits,
    moment: Moment,
    maker: Maker,
    cache: &mut PatternCache,
) -> Result<Decided, Fault>
    ensures decides { DecidesBy (AlertsRefuse request.now.method request.now cache.old cache.new) cache.old.refused
        cache.new.refused
        (patterns_of_alerts request.now.method request.now)
        (asked_by_method request.now.method (patterns_in_use config.now moment held.now)) result
        (alerts_decided config.now request.now request.now.method held.now limits moment maker) }
    ensures built { IfOk result (AcceptsBuilt (patterns_of_alerts request.now.method request.now)) }
    ensures asked { Grows cache.old cache.new }
    ensures adds { AddsAmong (patterns_of_alerts request.now.method request.now
        ++ asked_by_method request.now.method (patterns_in_use config.now moment held.now))
        cache.old.refused cache.new.refused }
{
    match request.method {
        Method::Get => decide_list(alloc, request.query.as_str(), held, config, moment, cache),
        Method::Post => {
            let timeout = config.resolve_timeout();
            post_alerts(
                alloc,
                request.body.as_slice(),
                timeout,
                held,
                limits.alerts,
                moment,
                maker,
            )
        }
        Method::Delete => refuse(alloc, 405, "H6"),
    }
}

// The decision on a request to the configuration.
fn decide_configuration(
    alloc: Global,
    request: &Request,
    held: &Held,
    limits: Limits,
    moment: Moment,
    maker: Maker,
    cache: &mut PatternCache,
) -> Result<Decided, Fault>
    ensures decides { DecidesBy (DocumentRefuses request.now.method request.now limits cache.old cache.new)
        cache.old.refused cache.new.refused
        (patterns_of_document request.now.method request.now) [] result
        (configuration_decided request.now request.now.method held.now limits moment maker) }
    ensures built { IfOk result (AcceptsBuilt (patterns_of_document request.now.method request.now)) }
    ensures asked { Grows cache.old cache.new }
    ensures adds { AddsAmong (patterns_of_document request.now.method request.now)
        cache.old.refused cache.new.refused }
{
    match request.method {
        Method::Get => read_configuration(alloc, held),
        Method::Post => {
            post_configuration(
                alloc,
                request.body.as_slice(),
                held,
                limits,
                moment,
                maker,
                cache,
            )
        }
        Method::Delete => delete_configuration(alloc, held, moment, maker),
    }
}

// The decision on a request to the receivers.
fn list_receivers(alloc: Global, method: Method, config: &Config) -> Result<Decided, Fault>
    ensures { Decides result (receivers_decided config.now method) }
{
    match method {
        Method::Get => {
            let body = receivers_json(alloc, config)?;
            Ok(reply(alloc, 200, body))
        }
        Method::Post | Method::Delete => refuse(alloc, 405, "H6"),
    }
}

/// A refusal, by its code: nothing is stored.
pub(crate) fn refuse(alloc: Global, status: u16, code: &str) -> Result<Decided, Fault>
    ensures { Decides result (refused status code.now) }
{
    let body = refusal_body(alloc, code)?;
    Ok(reply(alloc, status, body))
}

/// A reply, and nothing is stored.
pub(crate) fn reply(alloc: Global, status: u16, body: Octets) -> Decided
    ensures { decision_of result ≡ replied status body }
{
    store(Vec::new(alloc), status, body)
}

/// Items are stored, and no word is drawn.
pub(crate) fn store(items: Vec<Item>, status: u16, body: Octets) -> Decided
    ensures { decision_of result ≡ stored items.items status body }
{
    Decided {
        items,
        status,
        body,
        drawn: None,
    }
}
