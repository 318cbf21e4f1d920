//! A posted silence.

ghost use Rattle.std.specs.Prelude.{◌≡◌, [], All, IfErr, IfOk, OnOk, Ok, true};
ghost use Rattle.am_text.specs.Outcome.{ForRefused, Gives};
ghost use Rattle.am_pattern.specs.Asking.{Asked};
ghost use Rattle.am_pattern.specs.Kept.{HasRegex};
ghost use Rattle.am_pattern.specs.Taking.{IsPattern};
ghost use Rattle.am_match.specs.Checking.{AreRefusedRightly, IsFine};
ghost use Rattle.am_match.specs.Matchers.{patterns_of};
ghost use Rattle.am_match.specs.Meaning.{all_take};
ghost use Rattle.am_silence.specs.Deciding.{FailsFirst, IsOfNoPattern};
ghost use Rattle.am_silence.specs.Posted.{each_named, judged, matchers_judged, named, patterns_in_body, patterns_named, posted, posted_of, some_named, times_judged, with_patterns, written_in};
ghost use Rattle.am_silence.specs.Unbuilt.{GivesUnless, IsUnbuilt};

use crate::fields::written_of;
use crate::refusal::SilenceRefusal;
use crate::written::{Written, WrittenMatcher};
use am_json::read_json;
use am_labels::LabelSet;
use am_match::{Matcher, MatcherRefusal, check_patterns};
use am_pattern::PatternCache;
use am_table::taken_by_all;
use am_text::{Failure, Listed, Moment, Text, refuse_as};
use std::alloc::Global;

/// A silence as it was posted.
#[derive(Drop)]
pub struct PostedSilence {
    /// The identifier of the silence that it changes or replaces, as it was written: none, or a text that isn't empty.
    pub id: Option<Text>,
    /// Since when it is to mute.
    pub starts_at: Moment,
    /// From when on it is to mute no more: after its start, and after the moment of the post.
    pub ends_at: Moment,
    /// Who made it.
    pub created_by: Text,
    /// Why it was made.
    pub comment: Text,
    /// What it mutes: at least one matcher, of which one doesn't take the empty text.
    pub matchers: Vec<Matcher>,
}

/// The silence that a posted body gives at a moment.
///
/// # Errors
/// The first that is met, in this order: `BadForm`; `WithoutMatchers`; `BadMatcher` for a name that is no label name, then
/// for the first pattern of at most 256 bytes that is refused, where a build that is refused is an outcome of its own,
/// then for one that is longer; `TakesEmpty`; `EndsByStart`; `Ended`. The identifier is not judged. Out of memory can come
/// at any step and says nothing of the body.
#[tactic(auto, unfolding(crate::specs::Posted::posted, crate::specs::Posted::patterns_in_body))]
pub fn read_silence(
    alloc: Global,
    body: &[u8],
    moment: Moment,
    cache: &mut PatternCache,
) -> Result<PostedSilence, Failure<SilenceRefusal>>
    ensures read { GivesUnless (IsUnbuilt cache.new.refused (patterns_in_body body.now)) posted_of result (posted moment body.now) }
    ensures patterns { IfOk result (λ p. All IsPattern (patterns_of p.matchers.items)) }
    ensures built { OnOk result (All HasRegex (patterns_in_body body.now)) }
    ensures asked { Asked result cache.old cache.new }
    ensures first { IfErr result (FailsFirst (patterns_in_body body.now) cache.old cache.new) }

    // Where no build of these patterns was refused, the answer is the meaning of the body.
    ensures meaning { AreRefusedRightly cache.new.refused (patterns_in_body body.now) →
        Gives posted_of result (posted moment body.now) }
{
    let written = written_in(alloc, body)?;
    judged(alloc, written, moment, cache)
}

fn written_in(alloc: Global, body: &[u8]) -> Result<Written, Failure<SilenceRefusal>>
    ensures read { Gives (λ w. w) result (written_in body.now) }
    ensures other { IfErr result (λ failure. ForRefused failure IsOfNoPattern) }
{
    let value = refuse_as(read_json(alloc, body), SilenceRefusal::BadForm)?;
    refuse_as(written_of(alloc, &value), SilenceRefusal::BadForm)
}

#[tactic(auto, unfolding(crate::specs::Posted::judged))]
fn judged(
    alloc: Global,
    written: Written,
    moment: Moment,
    cache: &mut PatternCache,
) -> Result<PostedSilence, Failure<SilenceRefusal>>
    ensures read { GivesUnless (IsUnbuilt cache.new.refused (patterns_named (some_named written.matchers))) posted_of result (judged moment written) }
    ensures patterns { IfOk result (λ p. All IsPattern (patterns_of p.matchers.items)) }
    ensures built { OnOk result (All HasRegex (patterns_named (some_named written.matchers))) }
    ensures asked { Asked result cache.old cache.new }
    ensures first { IfErr result (FailsFirst (patterns_named (some_named written.matchers)) cache.old cache.new) }
{
    let matchers = matchers_judged(alloc, written.matchers.as_slice(), cache)?;
    times_judged(
        PostedSilence {
            id: written.id,
            starts_at: written.starts_at,
            ends_at: written.ends_at,
            created_by: written.created_by,
            comment: written.comment,
            matchers,
        },
        moment,
    )
}

#[tactic(auto, unfolding(crate::specs::Posted::matchers_judged))]
fn matchers_judged(
    alloc: Global,
    written: &[WrittenMatcher],
    cache: &mut PatternCache,
) -> Result<Vec<Matcher>, Failure<SilenceRefusal>>
    ensures read { GivesUnless (IsUnbuilt cache.new.refused (patterns_named (some_named written.now))) (λ v. v.items) result (matchers_judged written.now) }
    ensures patterns { IfOk result (λ v. All IsPattern (patterns_of v.items)) }
    ensures built { OnOk result (All HasRegex (patterns_named (some_named written.now))) }
    ensures asked { Asked result cache.old cache.new }
    ensures first { IfErr result (FailsFirst (patterns_named (some_named written.now)) cache.old cache.new) }
{
    let matchers = some_named(alloc, written)?;
    check(alloc, &matchers, cache)?;
    if takes_empty(alloc, &matchers, cache)? {
        return Err(Failure::Refused(SilenceRefusal::TakesEmpty));
    }
    Ok(matchers)
}

// The matchers, where there is one and each is on a label name.
fn some_named(
    alloc: Global,
    written: &[WrittenMatcher],
) -> Result<Vec<Matcher>, Failure<SilenceRefusal>>
    ensures read { Gives (λ v. v.items) result (some_named written.now) }
    ensures other { IfErr result (λ failure. ForRefused failure IsOfNoPattern) }
{
    if written.is_empty() {
        return Err(Failure::Refused(SilenceRefusal::WithoutMatchers));
    }
    each_named(alloc, written)
}

#[tactic(auto, unfolding(crate::specs::Posted::each_named))]
fn each_named(
    alloc: Global,
    written: &[WrittenMatcher],
) -> Result<Vec<Matcher>, Failure<SilenceRefusal>>
    ensures read { Gives (λ v. v.items) result (each_named written.now) }
    ensures other { IfErr result (λ failure. ForRefused failure IsOfNoPattern) }
{
    let mut matchers = Vec::with_capacity(alloc, written.len())?;
    for matcher in written {
        matchers.push(named(alloc, matcher)?)?;
    }
    Ok(matchers)
}

#[tactic(auto, unfolding(crate::specs::Posted::named))]
fn named(alloc: Global, written: &WrittenMatcher) -> Result<Matcher, Failure<SilenceRefusal>>
    ensures read { Gives (λ m. m) result (named written.now) }
    ensures other { IfErr result (λ failure. ForRefused failure IsOfNoPattern) }
{
    let name = written.name.copy(alloc)?;
    let value = written.value.copy(alloc)?;
    match Matcher::new(written.operator, name, value) {
        None => Err(Failure::Refused(SilenceRefusal::BadMatcher(MatcherRefusal::NoMatchers))),
        Some(matcher) => Ok(matcher),
    }
}

// Checks that the patterns of the matchers are patterns and are built.
fn check(
    alloc: Global,
    matchers: &[Matcher],
    cache: &mut PatternCache,
) -> Result<(), Failure<SilenceRefusal>>
    ensures read { GivesUnless (IsUnbuilt cache.new.refused (patterns_of matchers.now)) (λ done. matchers.now) result (with_patterns matchers.now) }
    ensures patterns { OnOk result (All IsPattern (patterns_of matchers.now)) }
    ensures built { OnOk result (All HasRegex (patterns_of matchers.now)) }
    ensures fine { OnOk result (All IsFine (patterns_of matchers.now)) }
    ensures asked { Asked result cache.old cache.new }
    ensures first { IfErr result (FailsFirst (patterns_of matchers.now) cache.old cache.new) }
{
    match check_patterns(alloc, matchers, cache) {
        Ok(()) => Ok(()),
        Err(Failure::Refused(refusal)) => Err(Failure::Refused(SilenceRefusal::BadMatcher(
            refusal,
        ))),
        Err(Failure::OutOfMemory) => Err(Failure::OutOfMemory),
    }
}

// Whether all of the matchers take the empty text, as they do of an alert without labels.
fn takes_empty(
    alloc: Global,
    matchers: &[Matcher],
    cache: &mut PatternCache,
) -> Result<bool, Failure<SilenceRefusal>>
    requires patterns { All IsPattern (patterns_of matchers.now) }
    requires fine { All IsFine (patterns_of matchers.now) }
    ensures value { IfOk result (λ all. all ≡ all_take matchers.now []) }
    ensures unbuilt { IfErr result (λ failure. ForRefused failure (IsUnbuilt cache.new.refused (patterns_of matchers.now))) }
    ensures asked { Asked result cache.old cache.new }
    ensures first { IfErr result (FailsFirst (patterns_of matchers.now) cache.old cache.new) }
{
    let none = no_labels(alloc)?;
    match taken_by_all(alloc, matchers, &[&none], cache) {
        Ok(taken) => Ok(taken.iter().all(|taken| *taken)),
        Err(Failure::Refused(_)) => Err(Failure::Refused(SilenceRefusal::BadMatcher(
            MatcherRefusal::BuildRefused,
        ))),
        Err(Failure::OutOfMemory) => Err(Failure::OutOfMemory),
    }
}

#[tactic(auto, unfolding(am_labels::specs::Sets::label_set))]
fn no_labels(alloc: Global) -> Result<LabelSet, Failure<SilenceRefusal>>
    ensures { Gives (λ labels. labels) result (Ok []) }
{
    refuse_as(
        LabelSet::from_pairs(alloc, Vec::new(alloc)),
        SilenceRefusal::BadForm,
    )
}

fn times_judged(
    posted: PostedSilence,
    moment: Moment,
) -> Result<PostedSilence, Failure<SilenceRefusal>>
    ensures read { Gives posted_of result (times_judged moment (posted_of posted)) }
    ensures matchers { IfOk result (λ p. p.matchers.items ≡ posted.matchers.items) }
    ensures other { IfErr result (λ failure. ForRefused failure IsOfNoPattern) }
{
    if posted.ends_at <= posted.starts_at {
        return Err(Failure::Refused(SilenceRefusal::EndsByStart));
    }
    if posted.ends_at <= moment {
        return Err(Failure::Refused(SilenceRefusal::Ended));
    }
    Ok(posted)
}
