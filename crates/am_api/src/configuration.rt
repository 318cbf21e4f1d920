//! The configuration that a tenant has stored.

ghost use Rattle.std.specs.Prelude.{◌≡◌, [], None, IfOk};
ghost use Rattle.am_pattern.specs.Asking.{Grows};
ghost use Rattle.am_draft.specs.Drafts.{posted};
ghost use Rattle.am_config.specs.Matching.{patterns_of_draft};
ghost use Rattle.am_item.specs.Best.{item_at};
ghost use Rattle.am_item.specs.Key.{ConfigurationKey};
ghost use Rattle.am_alert.specs.declared.maker.Maker.{Maker};
ghost use Rattle.am_muting.specs.Failing.{AddsAmong};
ghost use Rattle.am_api.specs.Deciding.{AcceptsBuilt, Decides, DecidesBy};
ghost use Rattle.am_api.specs.Decision.{configuration_posted, configuration_stored, read_or_none, seen, status_of};
ghost use Rattle.am_api.specs.Decision.{text_at};
ghost use Rattle.am_api.specs.Refusing.{ConfigurationRefuses};

use crate::decision::{self, Decided, refuse, reply};
use am_alert::{Maker, stamp_moment};
use am_config::{Config, ConfigRefusal};
use am_item::{Fault, GREATEST_COUNT, Held, Item, Stamp, Thing};
use am_limit::Limits;
use am_pattern::PatternCache;
use am_payload::document_json;
use am_text::{Failure, Moment, Octets, Text};
use std::alloc::Global;

/// The text that is held, as it is posted and read; `K1` where there is none.
pub(crate) fn read_configuration(alloc: Global, held: &Held) -> Result<Decided, Fault>
    ensures { Decides result (read_or_none (text_at (item_at ConfigurationKey held.now))) }
{
    let Some(stored) = held.configuration() else {
        return refuse(alloc, 404, "K1");
    };
    let Some(text) = &stored.value else {
        return refuse(alloc, 404, "K1");
    };
    let body = document_json(alloc, text)?;
    Ok(reply(alloc, 200, body))
}

/// The text of a posted document is stored, where the document is no longer than its limit and passes every check.
pub(crate) fn post_configuration(
    alloc: Global,
    document: &[u8],
    held: &Held,
    limits: Limits,
    moment: Moment,
    maker: Maker,
    cache: &mut PatternCache,
) -> Result<Decided, Fault>
    ensures decides { DecidesBy (ConfigurationRefuses document.now limits cache.old cache.new) cache.old.refused
        cache.new.refused
        (patterns_of_draft (posted document.now)) [] result (configuration_posted limits held.now moment maker document.now) }
    ensures built { IfOk result (AcceptsBuilt (patterns_of_draft (posted document.now))) }
    ensures asked { Grows cache.old cache.new }
    ensures adds { AddsAmong (patterns_of_draft (posted document.now))
        cache.old.refused cache.new.refused }
{
    if limits.configuration < document.len() as u64 {
        return refuse(alloc, 400, "Li3");
    }
    match Config::read(alloc, document, cache) {
        Ok(config) => {
            let text = Text::read(alloc, config.text())?;
            store(alloc, 201, Some(text), held, moment, maker)
        }
        Err(Failure::Refused(refusal)) => refuse(alloc, status_of(refusal), refusal.code()),
        Err(Failure::OutOfMemory) => Err(Fault::OutOfMemory),
    }
}

/// That there is none is stored, whether or not there was one.
pub(crate) fn delete_configuration(
    alloc: Global,
    held: &Held,
    moment: Moment,
    maker: Maker,
) -> Result<Decided, Fault>
    ensures { Decides result (configuration_stored 200 held.now moment maker None) }
{
    store(alloc, 200, None, held, moment, maker)
}

// A text, or that there is none, as one item.
fn store(
    alloc: Global,
    status: u16,
    text: Option<Text>,
    held: &Held,
    moment: Moment,
    maker: Maker,
) -> Result<Decided, Fault>
    ensures { Decides result (configuration_stored status held.now moment maker text) }
{
    if maker.used >= GREATEST_COUNT {
        return Err(Fault::CountsExhausted);
    }
    let stamp = Stamp {
        moment: stamp_moment(moment, seen(held)),
        instance: maker.instance,
        incarnation: maker.incarnation,
        count: maker.used + 1,
    };
    let mut items = Vec::new(alloc);
    items.push(Item {
        stamp,
        thing: Thing::Configuration(text),
    })?;
    Ok(decision::store(items, status, Octets::from_vec(Vec::new(alloc))))
}

// The stamp moment of the configuration that is held.
fn seen(held: &Held) -> Option<Moment>
    ensures { result ≡ seen held.now }
{
    held.configuration().map(|stored| stored.stamp.moment)
}

// The status code of a configuration that is refused.
fn status_of(refusal: ConfigRefusal) -> u16
    ensures { result ≡ status_of refusal }
{
    match refusal {
        ConfigRefusal::BuildRefused => 503,
        _ => 400,
    }
}
