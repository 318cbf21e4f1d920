//! The matchers of a draft, read in their order.

ghost use Rattle.std.specs.Prelude.{◌≡◌, ◌++◌, ◌∷◌, [], false, true, map, All, IfOk, IfErr, OnOk};
ghost use Rattle.std.specs.List.{flat_map, list_all};
ghost use Rattle.am_text.specs.Outcome.{ForRefused};
ghost use Rattle.am_pattern.specs.Asking.{Asked};
ghost use Rattle.am_pattern.specs.Kept.{HasRegex};
ghost use Rattle.am_config.specs.declared.refusal.ConfigRefusal.TheVariants.{BadMatcher};
ghost use Rattle.am_config.specs.Matching.{given, matcher_lists, matchers_in, meaning, patterns_of_texts, reads_matchers, route_lists, rule_lists};
ghost use Rattle.am_config.specs.Stopping.{IsStopOf};

use crate::refusal::ConfigRefusal;
use am_draft::{Draft, RouteDraft, RuleDraft};
use am_match::{Matcher, read_matchers, reread_matchers};
use am_pattern::PatternCache;
use am_text::{Failure, Listed, Node, Text, refuse_as};
use std::alloc::{AllocError, Global};

/// The lists of matchers' texts, in the order of reading: that of each route, then of each inhibit rule the source's and
/// the target's.
pub(crate) fn matcher_lists(alloc: Global, draft: &Draft) -> Result<Vec<&[Text]>, AllocError>
    ensures { IfOk result (λ v. map (λ list. list.now) v.items ≡ matcher_lists draft.now) }
{
    let mut lists = Vec::new(alloc);
    push_route_lists(draft.routes.as_slice(), &mut lists)?;
    push_rule_lists(draft.rules.as_slice(), &mut lists)?;
    Ok(lists)
}

fn push_route_lists<'a>(
    routes: &'a [Node<RouteDraft>],
    lists: &mut Vec<&'a [Text]>,
) -> Result<(), AllocError>
    ensures { OnOk result (map (λ list. list.now) lists.new.items ≡ map (λ list. list.now) lists.old.items ++ route_lists routes.now) }
{
    for node in routes {
        lists.push(node.item.matchers.as_slice())?;
    }
    Ok(())
}

fn push_rule_lists<'a>(
    rules: &'a [RuleDraft],
    lists: &mut Vec<&'a [Text]>,
) -> Result<(), AllocError>
    ensures { OnOk result (map (λ list. list.now) lists.new.items ≡ map (λ list. list.now) lists.old.items ++ rule_lists rules.now) }
{
    for rule in rules {
        lists.push(rule.source.as_slice())?;
        lists.push(rule.target.as_slice())?;
    }
    Ok(())
}

/// The matchers of each list, their patterns built.
///
/// # Errors
/// The first text that can't be read decides between [`ConfigRefusal::BadMatcher`] and [`ConfigRefusal::BuildRefused`].
pub(crate) fn read_lists(
    alloc: Global,
    lists: &[&[Text]],
    cache: &mut PatternCache,
) -> Result<Vec<Listed<Matcher>>, Failure<ConfigRefusal>>
    ensures matchers { IfOk result (λ v. v.items ≡ map (λ list. matchers_in list.now) lists.now) }
    ensures read { OnOk result (list_all reads_matchers (flat_map (λ list. list.now) lists.now) ≡ true) }
    ensures built { OnOk result (All HasRegex (patterns_of_texts (flat_map (λ list. list.now) lists.now))) }
    ensures asked { Asked result cache.old cache.new }
    ensures stop { IfErr result (IsStopOf (flat_map (λ list. list.now) lists.now) cache.old cache.new) }
{
    let mut read = Vec::with_capacity(alloc, lists.len())?;
    for list in lists {
        let matchers = read_list(alloc, list, cache)?;
        read.push(matchers)?;
    }
    Ok(read)
}

#[tactic(auto, unfolding(crate::specs::Matching::matchers_in))]
fn read_list(
    alloc: Global,
    texts: &[Text],
    cache: &mut PatternCache,
) -> Result<Listed<Matcher>, Failure<ConfigRefusal>>
    ensures matchers { IfOk result (λ l. l ≡ matchers_in texts.now) }
    ensures read { OnOk result (list_all reads_matchers texts.now ≡ true) }
    ensures built { OnOk result (All HasRegex (patterns_of_texts texts.now)) }
    ensures asked { Asked result cache.old cache.new }
    ensures stop { IfErr result (IsStopOf texts.now cache.old cache.new) }
{
    let mut matchers = Vec::new(alloc);
    for text in texts {
        let mut found = read_text(alloc, text.as_str(), cache)?;
        matchers.append(&mut found)?;
    }
    Ok(Listed::from_vec(matchers))
}

fn read_text(
    alloc: Global,
    text: &str,
    cache: &mut PatternCache,
) -> Result<Vec<Matcher>, Failure<ConfigRefusal>>
    ensures matchers { IfOk result (λ v. v.items ≡ given (meaning text.now)) }
    ensures read { OnOk result (reads_matchers text.now ≡ true) }
    ensures built { OnOk result (All HasRegex (patterns_of_texts (text.now ∷ []))) }
    ensures asked { Asked result cache.old cache.new }
    ensures stop { IfErr result (IsStopOf (text.now ∷ []) cache.old cache.new) }
{
    match read_matchers(alloc, text, cache) {
        Ok(matchers) => Ok(matchers),
        Err(Failure::Refused(refusal)) => Err(Failure::Refused(ConfigRefusal::of_matcher(refusal))),
        Err(Failure::OutOfMemory) => Err(Failure::OutOfMemory),
    }
}

/// The matchers of each list by the grammars alone, as [`read_lists`] reads them where no build is refused.
///
/// # Errors
/// [`ConfigRefusal::BadMatcher`] where a text can't be read.
pub(crate) fn reread_lists(
    alloc: Global,
    lists: &[&[Text]],
) -> Result<Vec<Listed<Matcher>>, Failure<ConfigRefusal>>
    ensures matchers { IfOk result (λ v. v.items ≡ map (λ list. matchers_in list.now) lists.now) }
    ensures read { OnOk result (list_all reads_matchers (flat_map (λ list. list.now) lists.now) ≡ true) }
    ensures refusal { IfErr result (λ failure. ForRefused failure (λ refusal.
        (refusal ≡ BadMatcher) × (list_all reads_matchers (flat_map (λ list. list.now) lists.now) ≡ false))) }
{
    let mut read = Vec::with_capacity(alloc, lists.len())?;
    for list in lists {
        let matchers = reread_list(alloc, list)?;
        read.push(matchers)?;
    }
    Ok(read)
}

#[tactic(auto, unfolding(crate::specs::Matching::matchers_in))]
fn reread_list(alloc: Global, texts: &[Text]) -> Result<Listed<Matcher>, Failure<ConfigRefusal>>
    ensures matchers { IfOk result (λ l. l ≡ matchers_in texts.now) }
    ensures read { OnOk result (list_all reads_matchers texts.now ≡ true) }
    ensures refusal { IfErr result (λ failure. ForRefused failure (λ refusal.
        (refusal ≡ BadMatcher) × (list_all reads_matchers texts.now ≡ false))) }
{
    let mut matchers = Vec::new(alloc);
    for text in texts {
        let mut found = reread_text(alloc, text.as_str())?;
        matchers.append(&mut found)?;
    }
    Ok(Listed::from_vec(matchers))
}

fn reread_text(alloc: Global, text: &str) -> Result<Vec<Matcher>, Failure<ConfigRefusal>>
    ensures matchers { IfOk result (λ v. v.items ≡ given (meaning text.now)) }
    ensures read { OnOk result (reads_matchers text.now ≡ true) }
    ensures refusal { IfErr result (λ failure. ForRefused failure (λ refusal.
        (refusal ≡ BadMatcher) × (reads_matchers text.now ≡ false))) }
{
    refuse_as(reread_matchers(alloc, text), ConfigRefusal::BadMatcher)
}
