//! A configuration, from a document or a text.

ghost use Rattle.std.specs.Prelude.{◌≡◌, false, true, map, length, All, Ok, IfOk, IfErr, OnOk};
ghost use Rattle.std.specs.List.{list_all};
ghost use Rattle.am_text.specs.Outcome.{ForRefused, Gives};
ghost use Rattle.am_text.specs.Trees.{IsTree};
ghost use Rattle.am_pattern.specs.Asking.{Asked};
ghost use Rattle.am_pattern.specs.Kept.{HasRegex};
ghost use Rattle.am_match.specs.Checking.{AreRefusedRightly};
ghost use Rattle.am_draft.specs.Drafts.{draft_in, has_left_out, posted};
ghost use Rattle.am_config.specs.Checks.{is_repeated};
ghost use Rattle.am_config.specs.Judging.{IsFailureOf, IsLate, after_matchers, before_matchers, configuration, judged_by, reading};
ghost use Rattle.am_config.specs.Matching.{matcher_lists, matcher_texts, matchers_in, patterns_of_draft, patterns_of_texts, reads_matchers};

use crate::checks::{are_listed, counts_fit, is_root_bare};
use crate::completing::{receivers_of, routes_with, rules_with};
use crate::config::Config;
use crate::inheriting::settings_of;
use crate::matching::{matcher_lists, read_lists, reread_lists};
use crate::named::NamedReceivers;
use crate::refusal::ConfigRefusal;
use crate::terms::{Terms, terms_in};
use am_draft::Draft;
use am_match::Matcher;
use am_pattern::PatternCache;
use am_text::{Failure, Listed, map_refusal, refuse_as};
use std::alloc::Global;

impl Config {
    /// The configuration that a posted document gives: a JSON object with `alertmanager_config`, the text.
    ///
    /// # Errors
    /// The first of `C1` to `C9` whose check fails over the whole text. Of its matchers, in the order of routes, each
    /// before those within it, and then of inhibit rules, each source's before its target's, the first that can't be
    /// read decides between `C7` and [`ConfigRefusal::BuildRefused`]; patterns are built only where `C1` to `C6` pass.
    /// Out of memory can come at any step and says nothing of the text.
    pub fn read(
        alloc: Global,
        document: &[u8],
        cache: &mut PatternCache,
    ) -> Result<Config, Failure<ConfigRefusal>>
        ensures ok { IfOk result (λ c. configuration (posted document.now) ≡ Ok c) }
        ensures text { IfOk result (λ c. configuration (draft_in c.text) ≡ Ok c) }
        ensures again { IfOk result (λ c. reading (draft_in c.text) ≡ Ok c) }
        ensures built { OnOk result (All HasRegex (patterns_of_draft (posted document.now))) }
        ensures asked { Asked result cache.old cache.new }
        ensures failure { IfErr result (IsFailureOf (posted document.now) cache.old cache.new) }

        // Where no build of these patterns was refused, the answer is the meaning of the document.
        ensures meaning { AreRefusedRightly cache.new.refused (patterns_of_draft (posted document.now)) →
            Gives (λ c. c) result (configuration (posted document.now)) }
    {
        let draft = map_refusal(Draft::read(alloc, document), ConfigRefusal::of_draft)?;
        judged(alloc, &draft, cache)
    }

    /// The configuration that a text gives, as [`Config::text`] gives it back.
    ///
    /// # Errors
    /// As [`Config::read`].
    pub fn read_text(
        alloc: Global,
        text: &[u8],
        cache: &mut PatternCache,
    ) -> Result<Config, Failure<ConfigRefusal>>
        ensures ok { IfOk result (λ c. configuration (draft_in text.now) ≡ Ok c) }
        ensures text { IfOk result (λ c. c.text ≡ text.now) }
        ensures again { IfOk result (λ c. reading (draft_in text.now) ≡ Ok c) }
        ensures built { OnOk result (All HasRegex (patterns_of_draft (draft_in text.now))) }
        ensures asked { Asked result cache.old cache.new }
        ensures failure { IfErr result (IsFailureOf (draft_in text.now) cache.old cache.new) }

        // Where no build of these patterns was refused, the answer is the meaning of the text.
        ensures meaning { AreRefusedRightly cache.new.refused (patterns_of_draft (draft_in text.now)) →
            Gives (λ c. c) result (configuration (draft_in text.now)) }
    {
        let draft = map_refusal(Draft::read_text(alloc, text), ConfigRefusal::of_draft)?;
        judged(alloc, &draft, cache)
    }

    /// The configuration that a text gives, by the grammars alone: no pattern is built and no cache is asked. A text that
    /// [`Config::read`] or [`Config::read_text`] accepted gives the same configuration again.
    ///
    /// # Errors
    /// The first of `C1` to `C9` whose check fails over the whole text, where a pattern that nests too deep to be built is
    /// none; never [`ConfigRefusal::BuildRefused`]. Out of memory says nothing of the text.
    pub fn reread(alloc: Global, text: &[u8]) -> Result<Config, Failure<ConfigRefusal>>
        ensures read { Gives (λ c. c) result (reading (draft_in text.now)) }
        ensures ok { IfOk result (λ c. configuration (draft_in text.now) ≡ Ok c) }
        ensures text { IfOk result (λ c. c.text ≡ text.now) }
    {
        let draft = map_refusal(Draft::read_text(alloc, text), ConfigRefusal::of_draft)?;
        rejudged(alloc, &draft)
    }
}

// The configuration of a draft, where every check passes.
fn judged(
    alloc: Global,
    draft: &Draft,
    cache: &mut PatternCache,
) -> Result<Config, Failure<ConfigRefusal>>
    requires tree { IsTree draft.now.routes }
    requires again { has_left_out draft.now ≡ false → draft_in draft.now.text ≡ Ok draft.now }
    ensures ok { IfOk result (λ c. judged_by reads_matchers draft.now ≡ Ok c) }
    ensures built { OnOk result (All HasRegex (patterns_of_texts (matcher_texts draft.now))) }
    ensures asked { Asked result cache.old cache.new }
    ensures failure { IfErr result (IsFailureOf (Ok draft.now) cache.old cache.new) }
{
    let terms = terms_of(alloc, draft)?;
    let lists = matcher_lists(alloc, draft)?;
    let matchers = read_lists(alloc, &lists, cache)?;
    completed(alloc, draft, &terms, matchers)
}

// The same by the grammars alone.
fn rejudged(alloc: Global, draft: &Draft) -> Result<Config, Failure<ConfigRefusal>>
    requires tree { IsTree draft.now.routes }
    requires again { has_left_out draft.now ≡ false → draft_in draft.now.text ≡ Ok draft.now }
    ensures { Gives (λ c. c) result (judged_by reads_matchers draft.now) }
{
    let terms = terms_of(alloc, draft)?;
    let lists = matcher_lists(alloc, draft)?;
    let matchers = reread_lists(alloc, &lists)?;
    completed(alloc, draft, &terms, matchers)
}

// What is read of a draft before its matchers.
#[tactic(auto, using(crate::proofs::Judgements::repeated_refused))]
fn terms_of(alloc: Global, draft: &Draft) -> Result<Terms, Failure<ConfigRefusal>>
    ensures { Gives (λ terms. terms) result (before_matchers draft.now) }
{
    let Some(receivers) = NamedReceivers::new(alloc, draft.receivers.as_slice())? else {
        return Err(Failure::Refused(ConfigRefusal::BadReceiver));
    };
    terms_by(alloc, draft, &receivers)
}

// The same, where these are the draft's receivers, each of a name of its own.
#[tactic(auto, unfolding(crate::specs::Judging::before_matchers, crate::specs::Checks::receivers_fit))]
fn terms_by(
    alloc: Global,
    draft: &Draft,
    receivers: &NamedReceivers,
) -> Result<Terms, Failure<ConfigRefusal>>
    requires apart { is_repeated draft.now.receivers ≡ false }
    requires receivers { receivers.now ≡ draft.now.receivers }
    ensures { Gives (λ terms. terms) result (before_matchers draft.now) }
{
    if !are_listed(receivers, draft.routes.as_slice()) {
        return Err(Failure::Refused(ConfigRefusal::BadReceiver));
    }
    if !is_root_bare(draft.routes.as_slice()) {
        return Err(Failure::Refused(ConfigRefusal::RootMatchers));
    }
    let terms = refuse_as(
        terms_in(alloc, draft, receivers),
        ConfigRefusal::BadDuration,
    )?;
    if draft.has_left_out() {
        return Err(Failure::Refused(ConfigRefusal::LeftOut));
    }
    Ok(terms)
}

// The configuration, once all matchers were read.
#[tactic(auto, unfolding(crate::specs::Completing::completed))]
fn completed(
    alloc: Global,
    draft: &Draft,
    terms: &Terms,
    mut matchers: Vec<Listed<Matcher>>,
) -> Result<Config, Failure<ConfigRefusal>>
    requires tree { IsTree draft.now.routes }
    requires again { has_left_out draft.now ≡ false → draft_in draft.now.text ≡ Ok draft.now }
    requires passed { before_matchers draft.now ≡ Ok terms.now }
    requires read { list_all reads_matchers (matcher_texts draft.now) ≡ true }
    requires matchers { matchers.items ≡ map matchers_in (matcher_lists draft.now) }
    ensures value { Gives (λ c. c) result (after_matchers draft.now terms.now) }
    ensures late { IfErr result (λ failure. ForRefused failure IsLate) }
{
    if !counts_fit(draft) {
        return Err(Failure::Refused(ConfigRefusal::TooMany));
    }
    let receivers = receivers_of(alloc, draft.receivers.as_slice())?;
    let settings = settings_of(alloc, terms.owns.as_slice())?;
    let of_rules = matchers.split_off(draft.routes.as_slice().len())?;
    let routes = routes_with(alloc, &settings, draft.routes.as_slice(), matchers)?;
    let rules = rules_with(alloc, draft.rules.as_slice(), of_rules)?;
    Ok(Config {
        text: draft.text.copy(alloc)?,
        resolve_timeout: terms.resolve_timeout,
        routes: Listed::from_vec(routes),
        receivers: Listed::from_vec(receivers),
        rules: Listed::from_vec(rules),
    })
}
