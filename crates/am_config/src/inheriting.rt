//! What holds for each route.

ghost use Rattle.std.specs.Prelude.{◌≡◌, ◌+◌, ◌++◌, ◌≤◌, ◌^◌, length, IfOk, OnOk};
ghost use Rattle.am_draft.specs.Forests.{IsForest, forest_of};
ghost use Rattle.am_config.specs.Inheriting.{inherited, settings_of, with_own};

use crate::parts::Settings;
use crate::terms::Own;
use am_text::Node;
use std::alloc::{AllocError, Global};

/// What holds where no route says anything.
pub(crate) const DEFAULTS: Settings = Settings {
    receiver: 0,
    grouping: None,
    group_wait: 30_000,
    group_interval: 300_000,
    repeat_interval: 14_400_000,
};

/// What holds for each route, in their order.
pub(crate) fn settings_of(alloc: Global, owns: &[Node<Own>]) -> Result<Vec<Settings>, AllocError>
    requires forest { IsForest owns.now }
    requires few { length owns.now ≤ 2 ^ 62 }
    ensures { IfOk result (λ v. v.items ≡ settings_of owns.now) }
{
    let mut settings = Vec::with_capacity(alloc, owns.len())?;
    inherit(owns, 0, DEFAULTS, &mut settings)?;
    Ok(settings)
}

// Adds what holds for the routes of a list and for those within them, the first of which has this number, where this
// holds around them.
fn inherit(
    owns: &[Node<Own>],
    first: usize,
    around: Settings,
    settings: &mut Vec<Settings>,
) -> Result<(), AllocError>
    requires forest { IsForest owns.now }
    requires few { first + length owns.now ≤ 2 ^ 62 }
    ensures { OnOk result (settings.new.items ≡ settings.old.items ++ inherited first around (forest_of owns.now)) }
{
    let mut rest = owns;
    let mut number = first;
    'sibling: while let Some((node, behind)) = rest.split_first() {
        let (within, after) = behind.split_at(node.within);
        let own = with_own(number, around, &node.item);
        settings.push(own)?;
        inherit(within, number + 1, own, settings)?;
        number += 1 + node.within;
        rest = after;
    }
    Ok(())
}

// What holds for the route of this number: what it says, and for the rest what holds around it.
#[tactic(auto, unfolding(crate::specs::Inheriting::with_own))]
fn with_own(number: usize, around: Settings, own: &Own) -> Settings
    ensures { result ≡ with_own number around own.now }
{
    Settings {
        receiver: own.receiver.unwrap_or(around.receiver),
        grouping: if own.is_grouped {
            Some(number)
        } else {
            around.grouping
        },
        group_wait: own.group_wait.unwrap_or(around.group_wait),
        group_interval: own.group_interval.unwrap_or(around.group_interval),
        repeat_interval: own.repeat_interval.unwrap_or(around.repeat_interval),
    }
}
