//! Whether a configuration that comes takes the place of the one that is held.

ghost use Rattle.std.specs.Prelude.{◌≡◌};
ghost use Rattle.std.specs.List.{list_any};
ghost use Rattle.std.specs.Option.{option_copied, option_map};
ghost use Rattle.am_item.specs.Best.{item_at};
ghost use Rattle.am_item.specs.Held.{configuration_item};
ghost use Rattle.am_item.specs.declared.key.ThingKey.TheVariants.{Configuration as ConfigurationKey};
ghost use Rattle.am_current.specs.Replacing.{replaces};

use am_item::{Held, Part, SharedItem, Stamped};
use am_text::Text;

/// Whether one of these items is a configuration newer than the one that is held.
pub fn is_replaced(held: &Held, items: &[SharedItem]) -> bool
    ensures { result ≡ list_any (replaces (item_at ConfigurationKey held.now)) items.now }
{
    let configuration = held.configuration();
    items.iter().any(|item| replaces(configuration, item))
}

// Whether this item is.
fn replaces(configuration: Option<&Stamped<Option<Text>>>, item: &SharedItem) -> bool
    ensures { result ≡ replaces (option_map configuration_item (option_copied configuration.entry)) item.now }
{
    match (item.part(), configuration) {
        (Part::Configuration(_), Some(held)) => item.stamp().exceeds(&held.stamp),
        (Part::Configuration(_), None) => true,
        _ => false,
    }
}
