//! What decisions are: laws, which no program needs to call.

ghost use Rattle.std.specs.Prelude.{◌≡◌, ◌+◌, ◌<◌, ◌≤◌, ℕ, List, All, true, length};
ghost use Rattle.am_pattern.specs.Asking.{Grows};
ghost use Rattle.am_pattern.specs.Cache.{Cache};
ghost use Rattle.am_pattern.specs.Kept.{HasRegex};
ghost use Rattle.am_match.specs.Checking.{AreRefusedRightly};
ghost use Rattle.am_http.specs.declared.request.Request.{Request};
ghost use Rattle.am_limit.specs.declared.limits.Limits.{Limits};
ghost use Rattle.am_item.specs.declared.item.Item.{Item};
ghost use Rattle.am_alert.specs.Made.{counts_fit, greatest_count};
ghost use Rattle.am_alert.specs.declared.maker.Maker.{Maker};
ghost use Rattle.am_api.specs.Deciding.{AreCounted};
ghost use Rattle.am_current.specs.Current.{configuration_in};
ghost use Rattle.am_api.specs.Decision.{decided};
ghost use Rattle.rand_chacha.specs.ChaCha.{ChaCha};
ghost use Rattle.am_query.specs.Patterns.{HasRefused};
ghost use Rattle.am_listing.specs.Failing.{patterns_in_use};
ghost use Rattle.am_api.specs.Patterns.{patterns_of_items, patterns_of_request};

/// The items of a decision are stamped with one count after another, and where none is past the greatest, there was room
/// for as many.
pub fn items_are_counted()
    ensures counted { (request : Request) (held : List Item) (limits : Limits) (moment : ℕ) (maker : Maker)
        (words : ChaCha) →
        AreCounted maker.used (decided request held limits moment maker words).items }
    ensures room { (request : Request) (held : List Item) (limits : Limits) (moment : ℕ) (maker : Maker)
        (words : ChaCha) →
        counts_fit (decided request held limits moment maker words).items ≡ true
        → 0 < length (decided request held limits moment maker words).items →
        maker.used + length (decided request held limits moment maker words).items ≤ greatest_count }
{}

/// The patterns of what a decision stores are those of its request or of what is held, and those in use are of what is
/// held. So where no build of these was refused, none of those was, and where a regex was built of each of these, one was of
/// each of those.
pub fn stored_patterns_were_asked()
    ensures stored { (request : Request) (held : List Item) (limits : Limits) (moment : ℕ) (maker : Maker)
        (words : ChaCha)
        (refused : List (List ℕ)) →
        AreRefusedRightly refused (patterns_of_request request) → AreRefusedRightly refused (patterns_of_items held) →
        AreRefusedRightly refused (patterns_of_items (decided request held limits moment maker words).items) }
    ensures built { (request : Request) (held : List Item) (limits : Limits) (moment : ℕ) (maker : Maker)
        (words : ChaCha) →
        All HasRegex (patterns_of_request request) → All HasRegex (patterns_of_items held) →
        All HasRegex (patterns_of_items (decided request held limits moment maker words).items) }
    ensures in_use { (held : List Item) (moment : ℕ) (refused : List (List ℕ))
        → AreRefusedRightly refused (patterns_of_items held) →
        AreRefusedRightly refused (patterns_in_use (configuration_in held) moment held) }
    ensures built_in_use { (held : List Item) (moment : ℕ) → All HasRegex (patterns_of_items held) →
        All HasRegex (patterns_in_use (configuration_in held) moment held) }
{}

/// A refused build stays one: where no build of these texts was refused at last, none was before.
pub fn refused_builds_stay()
    ensures before { (old new : Cache) (texts : List (List ℕ)) → Grows old new → AreRefusedRightly new.refused texts →
        AreRefusedRightly old.refused texts }
    ensures never { (refused texts : List (List ℕ)) → AreRefusedRightly refused texts → HasRefused refused texts → ⊥ }
{}
