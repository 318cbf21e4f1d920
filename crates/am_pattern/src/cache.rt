ghost use Rattle.std.specs.Prelude.{◌≡◌, ◌<◌, ◌≤◌, ◌*◌, [], true, false, is_some, map, string_bytes, IfOk, IfErr, IfSome, IfNone, OnOk, OnErr};
ghost use Rattle.std.specs.Str.{bytes_eq};
ghost use Rattle.lru.specs.LruCache.{lru_cache, promoted};
ghost use Rattle.am_text.specs.Outcome.{ForRefused};
ghost use Rattle.am_pattern.specs.Taking.{IsPattern, is_shallow, anchored, takes};
ghost use Rattle.am_pattern.specs.Refused.{IsCauseOf, IsPatternCause, IsReasonOf, has_text, held_after, noted, refused_after, with_text, IsHeldAfter, IsRefusedRightly, IsMeaningOf};
ghost use Rattle.am_pattern.specs.Kept.{HasRegex, kept_after, largest, asked_first, counted_on, misses_after};
ghost use Rattle.am_pattern.specs.Asking.{Asked, Grows, IsRefused};

use crate::building::{Built, build_pattern};
use crate::hashing::KeyedHashing;
use crate::reading::Cause;
use crate::refusal::PatternRefusal;
use am_text::Failure;
use indexmap::IndexSet;
use lru::LruCache;
use std::alloc::{AllocError, Global};
use std::marker::Model;
use std::num::NonZeroUsize;

/// Answers whether patterns take texts. It keeps the patterns that were asked last as they were built, and the texts of
/// those whose build was refused.
pub struct PatternCache {
    // by the whole text of the pattern
    built: LruCache<String, Built, KeyedHashing>,
    // texts whose build was refused for another cause than memory; among those that nest too deep some may be no pattern
    refused: IndexSet<String, KeyedHashing>,
    // questions whose pattern was not kept; it stops at the greatest number
    misses: u64,
}

// Written out, so that a crate which owns one need not prove anew how its parts are dropped.
impl Drop for PatternCache {
    fn drop(self) {
        let PatternCache {
            built,
            refused,
            misses: _misses,
        } = self;
        drop(built);
        drop(refused);
    }
}

impl Model for PatternCache {
    ghost use Rattle.std.specs.Prelude.{map, string_bytes};
    ghost use Rattle.std.specs.List.{sum_by};
    ghost use Rattle.am_pattern.specs.Cache.{Cache};
    ghost use Rattle.am_pattern.specs.Refused.{patterns_among};
    ghost use Rattle.am_pattern.specs.Kept.{texts_of, size_of, IsSound};

    ghost Value = { Cache };

    ghost view = { λ c. record {
      refused = patterns_among (map string_bytes c.refused.keys);
      held = map string_bytes c.refused.keys;
      kept = texts_of string_bytes c.built.entries;
      capacity = c.built.cap;
      size = size_of c.built.entries;
      misses = c.misses;
    } };

    ghost invariant = { λ c. IsSound string_bytes c.built.entries c.built.cap };
}

impl PatternCache {
    /// A cache that keeps at most `capacity` patterns built. `hash_key` are secret bytes, so that nobody can choose
    /// patterns that collide in it.
    pub fn new(
        alloc: Global,
        capacity: usize,
        hash_key: [u8; 16],
    ) -> Result<PatternCache, AllocError>
        requires { 0 < capacity }
        ensures refused { IfOk result (λ c. c.refused ≡ []) }
        ensures held { IfOk result (λ c. c.held ≡ []) }
        ensures kept { IfOk result (λ c. c.kept ≡ []) }
        ensures misses { IfOk result (λ c. c.misses ≡ 0) }
        ensures capacity { IfOk result (λ c. c.capacity ≡ capacity) }
    {
        let Some(most) = NonZeroUsize::new(capacity) else {
            unreachable!()
        };
        let hashing = KeyedHashing::new(hash_key);
        Ok(PatternCache {
            built: LruCache::with_hasher(alloc, most, hashing)?,
            refused: IndexSet::with_hasher(alloc, hashing),
            misses: 0,
        })
    }

    /// Whether the pattern takes the value, that is whether `^(?:pattern)$` matches in it. The pattern is then kept
    /// built, and is the last to be pushed out.
    ///
    /// # Errors
    /// `BadPattern` where the text is no pattern of at most 256 bytes or nests too deep, `BuildRefused` where it is a
    /// pattern whose build was refused otherwise, as for a size over [`MAX_SIZE`](crate::MAX_SIZE), and out of memory.
    /// The first two keep the text among those refused where it is a pattern. None changes which patterns are kept built.
    pub fn answer(
        &mut self,
        alloc: Global,
        pattern: &str,
        value: &str,
    ) -> Result<bool, Failure<PatternRefusal>>
        ensures is_pattern { IfOk result (λ _. IsPattern pattern.now) }
        ensures value { IfOk result (λ taken. taken ≡ takes pattern.now value.now) }
        ensures cause { IfErr result (IsCauseOf pattern.now) }
        ensures kept { self.new.kept ≡ kept_after self.old.capacity self.old.kept pattern.now result }
        ensures refused { self.new.refused ≡ refused_after self.old.refused pattern.now result }
        ensures held { IsHeldAfter self.old.held self.new.held pattern.now result }
        ensures capacity { self.new.capacity ≡ self.old.capacity }
        ensures misses { self.new.misses ≡ misses_after self.old pattern.now }

        // Where no build of this pattern was refused, the answer is its meaning.
        ensures meaning { IsRefusedRightly self.new.refused pattern.now → IsMeaningOf pattern.now value.now result }

        // The same for callers that ask for many: by the grammar alone, and what the cache then has as refused.
        ensures shallow { IfOk result (λ _. is_shallow pattern.now ≡ true) }

        // A regex of it was built, and is no larger than one may be.
        ensures regex { IfOk result (λ _. HasRegex pattern.now) }

        ensures asked { Asked result self.old self.new }
        ensures refusal { IfErr result (λ failure. ForRefused failure (IsRefused self.new pattern.now)) }

        // What it keeps is bounded.
        ensures size { self.new.size ≤ self.new.capacity * largest }
    {
        let taken = self.answer_each(alloc, pattern, &[value])?;
        Ok(taken[0])
    }

    /// For each of the values, in their order, whether the pattern takes it: what [`answer`](PatternCache::answer) says,
    /// as one question. The pattern is looked for once and built at most once, and so is what searches the values. Also
    /// where there are no values the pattern is asked for, and is kept then.
    ///
    /// # Errors
    /// Those of [`answer`](PatternCache::answer), which leave the same.
    pub fn answer_each(
        &mut self,
        alloc: Global,
        pattern: &str,
        values: &[&str],
    ) -> Result<Vec<bool>, Failure<PatternRefusal>>
        ensures is_pattern { IfOk result (λ _. IsPattern pattern.now) }
        ensures values { IfOk result (λ v. v.items ≡ map (λ value. takes pattern.now value.now) values.now) }
        ensures cause { IfErr result (IsCauseOf pattern.now) }
        ensures kept { self.new.kept ≡ kept_after self.old.capacity self.old.kept pattern.now result }
        ensures refused { self.new.refused ≡ refused_after self.old.refused pattern.now result }
        ensures held { IsHeldAfter self.old.held self.new.held pattern.now result }
        ensures capacity { self.new.capacity ≡ self.old.capacity }
        ensures misses { self.new.misses ≡ misses_after self.old pattern.now }

        // Where no build of this pattern was refused, it fails only as no pattern, memory aside.
        ensures meaning { IsRefusedRightly self.new.refused pattern.now → IfErr result (λ failure. ForRefused failure
            (λ refusal. (refusal ≡ PatternRefusal.BadPattern) × ¬ IsPattern pattern.now)) }

        ensures shallow { IfOk result (λ _. is_shallow pattern.now ≡ true) }
        ensures regex { IfOk result (λ _. HasRegex pattern.now) }
        ensures asked { Asked result self.old self.new }
        ensures refusal { IfErr result (λ failure. ForRefused failure (IsRefused self.new pattern.now)) }
        ensures size { self.new.size ≤ self.new.capacity * largest }
    {
        if let Some(taken) = self.recall(alloc, pattern, values)? {
            return Ok(taken);
        }
        self.count_miss();
        match build_pattern(alloc, pattern) {
            Ok(built) => {
                let taken = built.have_matches(alloc, values)?;
                self.keep(alloc, pattern, built)?;
                Ok(taken)
            }
            Err(Failure::Refused(cause)) => {
                let refusal = self.refuse(alloc, pattern, cause)?;
                Err(Failure::Refused(refusal))
            }
            Err(Failure::OutOfMemory) => Err(Failure::OutOfMemory),
        }
    }

    /// Whether the cache keeps the pattern built.
    pub fn holds(&self, pattern: &str) -> bool
        ensures { result ≡ has_text self.now.kept pattern.now }
    {
        self.built.contains(pattern)
    }

    /// How many questions found their pattern not kept, so that it had to be built. It stops at the greatest number.
    pub fn misses(&self) -> u64
        ensures { result ≡ self.now.misses }
    {
        self.misses
    }

    // The answers of a pattern that is kept, which is then the last that was asked.
    fn recall(
        &mut self,
        alloc: Global,
        pattern: &str,
        values: &[&str],
    ) -> Result<Option<Vec<bool>>, AllocError>
        ensures is_pattern { IfOk result (λ found. IfSome found (λ _. IsPattern pattern.now)) }
        ensures shallow { IfOk result (λ found. IfSome found (λ _. is_shallow pattern.now ≡ true)) }
        ensures regex { IfOk result (λ found. IfSome found (λ _. HasRegex pattern.now)) }
        ensures values { IfOk result (λ found. IfSome found (λ v.
            v.items ≡ map (λ value. takes pattern.now value.now) values.now)) }
        ensures kept { IfOk result (λ found. IfSome found (λ _.
            self.new.kept ≡ asked_first self.old.capacity self.old.kept pattern.now)) }
        ensures hit { IfOk result (λ found. has_text self.old.kept pattern.now ≡ is_some found) }
        ensures none { IfOk result (λ found. IfNone found (self.new ≡ self.old)) }
        ensures err { OnErr result (self.new ≡ self.old) }
        ensures err_hit { OnErr result (has_text self.old.kept pattern.now ≡ true) }
        ensures refused { self.new.refused ≡ self.old.refused }
        ensures held { self.new.held ≡ self.old.held }
        ensures capacity { self.new.capacity ≡ self.old.capacity }
        ensures misses { self.new.misses ≡ self.old.misses }
        ensures size { self.new.size ≤ self.new.capacity * largest }
    {
        let Some(built) = self.built.peek(pattern) else {
            return Ok(None);
        };
        let taken = built.have_matches(alloc, values)?;
        make_first(&mut self.built, pattern);
        Ok(Some(taken))
    }

    // Counts a question whose pattern is not kept.
    fn count_miss(&mut self)
        ensures { self.new ≡ record self.old { misses = counted_on self.old.misses } }
    {
        self.misses = self.misses.saturating_add(1);
    }

    // Keeps a pattern that was built and asked.
    fn keep(&mut self, alloc: Global, pattern: &str, built: Built) -> Result<(), AllocError>
        requires missing { has_text self.old.kept pattern.now ≡ false }
        requires shallow { is_shallow pattern.now ≡ true }
        requires source { built.source ≡ anchored pattern.now }
        requires small { built.size ≤ largest }
        requires regex { HasRegex pattern.now }
        ensures kept { OnOk result (self.new.kept ≡ asked_first self.old.capacity self.old.kept pattern.now) }
        ensures err { OnErr result (self.new ≡ self.old) }
        ensures refused { self.new.refused ≡ self.old.refused }
        ensures held { self.new.held ≡ self.old.held }
        ensures capacity { self.new.capacity ≡ self.old.capacity }
        ensures misses { self.new.misses ≡ self.old.misses }
        ensures size { OnOk result (self.new.size ≤ self.new.capacity * largest) }
    {
        let key = String::from_str(alloc, pattern)?;
        self.built.put(key, built)?;
        Ok(())
    }

    // The refusal of a text that gave no regex, which is kept as refused where it may be a pattern.
    fn refuse(
        &mut self,
        alloc: Global,
        pattern: &str,
        cause: Cause,
    ) -> Result<PatternRefusal, AllocError>
        requires { IsPatternCause pattern.now cause }
        ensures reason { IfOk result (IsReasonOf pattern.now) }
        ensures refused { OnOk result (self.new.refused ≡ noted self.old.refused pattern.now) }
        ensures held { OnOk result (self.new.held ≡ held_after self.old.held pattern.now cause) }
        ensures refusal { IfOk result (IsRefused self.new pattern.now) }
        ensures meaning { IfOk result (λ refusal. IsRefusedRightly self.new.refused pattern.now →
            (refusal ≡ PatternRefusal.BadPattern) × ¬ IsPattern pattern.now) }
        ensures asked { Grows self.old self.new }
        ensures err { OnErr result (self.new ≡ self.old) }
        ensures kept { self.new.kept ≡ self.old.kept }
        ensures capacity { self.new.capacity ≡ self.old.capacity }
        ensures misses { self.new.misses ≡ self.old.misses }
        ensures size { self.new.size ≡ self.old.size }
    {
        self.hold(alloc, pattern, cause)?;
        match cause {
            Cause::NotRead => Ok(PatternRefusal::BadPattern),
            Cause::TooDeep => Ok(PatternRefusal::BadPattern),
            Cause::TooBig => Ok(PatternRefusal::BuildRefused),
        }
    }

    // Keeps a text that gave no regex as refused, unless the grammar didn't read it.
    fn hold(&mut self, alloc: Global, pattern: &str, cause: Cause) -> Result<(), AllocError>
        requires { IsPatternCause pattern.now cause }
        ensures ok { OnOk result (self.new.refused ≡ noted self.old.refused pattern.now) }
        ensures held { OnOk result (self.new.held ≡ held_after self.old.held pattern.now cause) }
        ensures err { OnErr result (self.new ≡ self.old) }
        ensures kept { self.new.kept ≡ self.old.kept }
        ensures capacity { self.new.capacity ≡ self.old.capacity }
        ensures misses { self.new.misses ≡ self.old.misses }
        ensures size { self.new.size ≡ self.old.size }
    {
        match cause {
            Cause::NotRead => Ok(()),
            Cause::TooDeep | Cause::TooBig => self.note(alloc, pattern),
        }
    }

    // Keeps a text as refused.
    fn note(&mut self, alloc: Global, pattern: &str) -> Result<(), AllocError>
        ensures ok { OnOk result (self.new.refused ≡ noted self.old.refused pattern.now) }
        ensures held { OnOk result (self.new.held ≡ with_text self.old.held pattern.now) }
        ensures err { OnErr result (self.new ≡ self.old) }
        ensures kept { self.new.kept ≡ self.old.kept }
        ensures capacity { self.new.capacity ≡ self.old.capacity }
        ensures misses { self.new.misses ≡ self.old.misses }
        ensures size { self.new.size ≡ self.old.size }
    {
        if self.refused.contains(pattern) {
            return Ok(());
        }
        let text = String::from_str(alloc, pattern)?;
        self.refused.insert(text)?;
        Ok(())
    }
}

// Makes an entry the one that was used last.
fn make_first(built: &mut LruCache<String, Built, KeyedHashing>, pattern: &str)
    ensures { built.new ≡ lru_cache (promoted (λ key. bytes_eq pattern.now (string_bytes key)) built.old.entries) built.old.cap }
{
    built.promote(pattern);
}
