//! Which configuration is in use: laws, which no program needs to call.

ghost use Rattle.std.specs.Prelude.{◌≡◌, ℕ, List, None, Ok, Some, false, true};
ghost use Rattle.am_draft.specs.Drafts.{draft_in};
ghost use Rattle.am_config.specs.Configuration.{Configuration};
ghost use Rattle.am_config.specs.Default.{default_configuration};
ghost use Rattle.am_config.specs.Judging.{reading};
ghost use Rattle.am_item.specs.Best.{IsRising, item_at, joined};
ghost use Rattle.am_item.specs.declared.key.ThingKey.TheVariants.{Configuration as ConfigurationKey};
ghost use Rattle.am_item.specs.declared.item.Item.{Item};
ghost use Rattle.am_item.specs.declared.item.Thing.TheVariants as thing;
ghost use Rattle.am_current.specs.Current.{configuration_in};
ghost use Rattle.am_current.specs.Replacing.{replaces};

/// A configuration newer than the one that is held is in use once it is put: what its text is read as, and the default
/// one where it says that it was deleted. No other item changes the one in use.
pub fn the_newest_is_in_use()
    ensures text { (held : List Item) (item : Item) (text : List ℕ) (c : Configuration) → IsRising held
        → replaces (item_at ConfigurationKey held) item ≡ true → item.thing ≡ thing.Configuration (Some text)
        → reading (draft_in text) ≡ Ok c → configuration_in (joined held item) ≡ c }
    ensures deleted { (held : List Item) (item : Item) → IsRising held
        → replaces (item_at ConfigurationKey held) item ≡ true → item.thing ≡ thing.Configuration None
        → configuration_in (joined held item) ≡ default_configuration }
    ensures others { (held : List Item) (item : Item) → IsRising held
        → replaces (item_at ConfigurationKey held) item ≡ false
        → configuration_in (joined held item) ≡ configuration_in held }
{}
