//! The silences that are held of one tenant.

ghost use Rattle.std.specs.Prelude.{◌≡◌, ◌+◌, ◌≤◌, All, IfErr, IfOk, length, map, option_map};
ghost use Rattle.am_text.specs.Outcome.{Gives};
ghost use Rattle.am_pattern.specs.Asking.{Asked};
ghost use Rattle.am_pattern.specs.Taking.{IsPattern};
ghost use Rattle.am_match.specs.Asking.{IsFailureAmong};
ghost use Rattle.am_match.specs.Checking.{AreRefusedRightly};
ghost use Rattle.am_match.specs.Matchers.{patterns_of};
ghost use Rattle.am_silence.specs.Changing.{changed, changed_of, deleted, known_at, write_of};
ghost use Rattle.am_silence.specs.Having.{having};
ghost use Rattle.am_silence.specs.Held.{active_among, held_silence, matchers_in, silence_at, silences_among, silencing, unexpired};
ghost use Rattle.am_silence.specs.Posted.{posted_of};

use crate::change::{Change, SilenceWrite, expiry_of, make_change};
use crate::held::{HeldSilence, active_among, all_of, having, unexpired_of};
use crate::posted::PostedSilence;
use crate::refusal::SilenceRefusal;
use crate::silenced::Silenced;
use crate::silencing::silencing;
use am_item::{Held, SilenceId};
use am_labels::LabelSet;
use am_match::Matcher;
use am_pattern::{PatternCache, PatternRefusal};
use am_text::{Failure, Moment};
use std::alloc::{AllocError, Global};
use std::marker::Model;

/// The silences that are held of one tenant.
#[derive(Drop)]
pub struct SilenceBook<'a> {
    held: &'a Held,
}

impl<'a> Model for SilenceBook<'a> {
    ghost use Rattle.std.specs.Prelude.{List};
    ghost use Rattle.am_item.specs.declared.item.Item.{Item};

    ghost Value = { List Item };

    ghost view = { λ b. b.held.now };
}

impl<'a> SilenceBook<'a> {
    /// Reads the silences of what is held.
    pub fn new(held: &'a Held) -> SilenceBook<'a>
        ensures { result ≡ held.now }
    {
        SilenceBook { held }
    }

    /// The silence of this identifier, where one is held.
    pub fn find<'b>(&self, id: &'b SilenceId) -> Option<HeldSilence<'b>>
    where
        'a: 'b,
        ensures { option_map held_silence result ≡ silence_at id.now self.now }
    {
        self.held
            .silences()
            .get(id)
            .map(|held| HeldSilence { id, held })
    }

    /// All silences, in order of identifier.
    pub fn all(&self, alloc: Global) -> Result<Vec<HeldSilence<'a>>, AllocError>
        ensures { IfOk result (λ v. map held_silence v.items ≡ silences_among self.now) }
    {
        all_of(alloc, self.held.silences())
    }

    /// The silences that have, for each of the wanted matchers, one with the same name, operator and value, in order of
    /// identifier.
    pub fn having(
        &self,
        alloc: Global,
        wanted: &[Matcher],
    ) -> Result<Vec<HeldSilence<'a>>, AllocError>
        ensures { IfOk result (λ v. map held_silence v.items ≡ having wanted.now self.now) }
    {
        having(alloc, self.held.silences(), wanted)
    }

    /// How many silences have not expired at the moment.
    pub fn unexpired(&self, moment: Moment) -> usize
        ensures { result ≡ unexpired moment self.now }
    {
        unexpired_of(self.held.silences(), moment)
    }

    /// What a posted silence changes at a moment, where `id` is the identifier that it gives.
    ///
    /// # Errors
    /// `Unknown` where no silence of that identifier is held, or out of memory.
    #[tactic(auto, unfolding(crate::specs::Changing::changed))]
    pub fn change(
        &self,
        alloc: Global,
        id: Option<SilenceId>,
        posted: PostedSilence,
        moment: Moment,
    ) -> Result<Change, Failure<SilenceRefusal>>
        ensures { Gives changed_of result (changed self.now id moment (posted_of posted)) }
    {
        let old = self.known(&id)?;
        Ok(make_change(alloc, old, posted, moment)?)
    }

    // The silence of an identifier, where one is given.
    fn known<'b>(
        &self,
        id: &'b Option<SilenceId>,
    ) -> Result<Option<HeldSilence<'b>>, Failure<SilenceRefusal>>
    where
        'a: 'b,
        ensures { Gives (option_map held_silence) result (known_at self.now id.now) }
    {
        match id {
            None => Ok(None),
            Some(id) => match self.find(id) {
                None => Err(Failure::Refused(SilenceRefusal::Unknown)),
                Some(old) => Ok(Some(old)),
            },
        }
    }

    /// What the deletion of a silence at a moment stores: its expiry.
    ///
    /// # Errors
    /// `Unknown` where no silence of that identifier is held, `Ended` where it has expired, or out of memory.
    #[tactic(auto, unfolding(crate::specs::Changing::deleted))]
    pub fn delete(
        &self,
        alloc: Global,
        id: &SilenceId,
        moment: Moment,
    ) -> Result<SilenceWrite, Failure<SilenceRefusal>>
        ensures { Gives write_of result (deleted self.now id.now moment) }
    {
        let Some(old) = self.find(id) else {
            return Err(Failure::Refused(SilenceRefusal::Unknown));
        };
        match expiry_of(alloc, &old, moment)? {
            None => Err(Failure::Refused(SilenceRefusal::Ended)),
            Some(write) => Ok(write),
        }
    }

    /// For each of the label sets, in their order, the silences that are active at the moment and whose matchers all take
    /// it.
    ///
    /// The matchers of all these silences are asked together, label by label. So a pattern is built at most once in the
    /// call for each label that it is asked of, however few patterns the cache keeps.
    ///
    /// # Errors
    /// Those of [`am_match::Matcher::matches`] for a matcher of an active silence.
    pub fn silencing(
        &self,
        alloc: Global,
        sets: &[&LabelSet],
        moment: Moment,
        cache: &mut PatternCache,
    ) -> Result<Silenced, Failure<PatternRefusal>>
        ensures silencing { IfOk result (λ s. s ≡ map (λ set. silencing moment self.now set.now) sets.now) }
        ensures asked { Asked result cache.old cache.new }
        ensures misses { cache.new.misses ≤ cache.old.misses + length (patterns_of (matchers_in (active_among moment self.now))) }
        ensures failure { IfErr result (IsFailureAmong (matchers_in (active_among moment self.now)) cache.old cache.new) }

        // Where these are patterns of which no build was refused, nothing but memory can fail.
        ensures meaning { All IsPattern (patterns_of (matchers_in (active_among moment self.now))) →
            AreRefusedRightly cache.new.refused (patterns_of (matchers_in (active_among moment self.now))) →
            IfErr result (λ failure. failure ≡ Failure.OutOfMemory) }
    {
        let active = active_among(alloc, self.held.silences(), moment)?;
        silencing(alloc, &active, sets, cache)
    }
}
