//! What is known of a configuration before the place of its refusal is looked for.

ghost use Rattle.std.specs.Prelude.{◌≡◌, IfOk, Ok};
ghost use Rattle.std.specs.Option.{ForSome};
ghost use Rattle.am_draft.specs.Drafts.{posted};
ghost use Rattle.am_judge.specs.Judging.{IsUnbuilt, facts_of};

use am_config::ConfigRefusal;
use am_draft::{Draft, ReceiverDraft, RouteDraft, RuleDraft};
use am_match::{MatcherRefusal, read_matchers};
use am_pattern::PatternCache;
use am_text::{Failure, Listed, Node, Text};
use std::alloc::{AllocError, Global};

/// What is looked for in a configuration, and what of it says whether a value is refused for that.
#[derive(Drop)]
pub(crate) struct Facts {
    /// The refusal that is looked for.
    pub reason: ConfigRefusal,
    /// The routes, each before those within it.
    pub routes: Listed<Node<RouteDraft>>,
    /// The receivers in the order in which they are written.
    pub receivers: Listed<ReceiverDraft>,
    /// The first text of matchers of which a pattern isn't built, where that is looked for.
    pub unbuilt: Option<Text>,
}

/// The facts of a document that is refused for this reason.
pub(crate) fn facts_of(
    alloc: Global,
    document: &[u8],
    reason: ConfigRefusal,
    cache: &mut PatternCache,
) -> Result<Facts, AllocError>
    ensures facts { IfOk result (λ facts. facts ≡ facts_of reason facts.unbuilt (posted document.now)) }
    ensures unbuilt { IfOk result (λ facts. ForSome facts.unbuilt IsUnbuilt) }
{
    match Draft::read(alloc, document) {
        Ok(draft) => facts_in(alloc, draft, reason, cache),
        Err(Failure::OutOfMemory) => Err(AllocError),
        Err(Failure::Refused(_)) => Ok(Facts {
            reason,
            routes: Listed::from_vec(Vec::new(alloc)),
            receivers: Listed::from_vec(Vec::new(alloc)),
            unbuilt: None,
        }),
    }
}

fn facts_in(
    alloc: Global,
    draft: Draft,
    reason: ConfigRefusal,
    cache: &mut PatternCache,
) -> Result<Facts, AllocError>
    ensures facts { IfOk result (λ facts. facts ≡ facts_of reason facts.unbuilt (Ok draft)) }
    ensures unbuilt { IfOk result (λ facts. ForSome facts.unbuilt IsUnbuilt) }
{
    let unbuilt = match reason {
        ConfigRefusal::BuildRefused => unbuilt_in(alloc, &draft, cache)?,
        _ => None,
    };
    let Draft {
        routes,
        receivers,
        ..
    } = draft;
    Ok(Facts {
        reason,
        routes,
        receivers,
        unbuilt,
    })
}

// The first text of matchers of which a pattern isn't built: those of routes come first.
fn unbuilt_in(
    alloc: Global,
    draft: &Draft,
    cache: &mut PatternCache,
) -> Result<Option<Text>, AllocError>
    ensures { IfOk result (λ found. ForSome found IsUnbuilt) }
{
    for node in draft.routes.as_slice() {
        let found = unbuilt_among(alloc, node.item.matchers.as_slice(), cache)?;
        if found.is_some() {
            return Ok(found);
        }
    }
    unbuilt_in_rules(alloc, draft.rules.as_slice(), cache)
}

fn unbuilt_in_rules(
    alloc: Global,
    rules: &[RuleDraft],
    cache: &mut PatternCache,
) -> Result<Option<Text>, AllocError>
    ensures { IfOk result (λ found. ForSome found IsUnbuilt) }
{
    for rule in rules {
        let source = unbuilt_among(alloc, rule.source.as_slice(), cache)?;
        if source.is_some() {
            return Ok(source);
        }
        let target = unbuilt_among(alloc, rule.target.as_slice(), cache)?;
        if target.is_some() {
            return Ok(target);
        }
    }
    Ok(None)
}

fn unbuilt_among(
    alloc: Global,
    texts: &[Text],
    cache: &mut PatternCache,
) -> Result<Option<Text>, AllocError>
    ensures { IfOk result (λ found. ForSome found IsUnbuilt) }
{
    for text in texts {
        match read_matchers(alloc, text.as_str(), cache) {
            Err(Failure::Refused(MatcherRefusal::BuildRefused)) => {
                return Ok(Some(text.copy(alloc)?));
            }
            Err(Failure::OutOfMemory) => return Err(AllocError),
            _ => {}
        }
    }
    Ok(None)
}
