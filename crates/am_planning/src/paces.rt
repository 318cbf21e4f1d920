//! How the routes of a configuration wait.

ghost use Rattle.std.specs.Prelude.{◌≡◌, ◌<◌, ◌≤◌, IfOk, length};
ghost use Rattle.am_config.specs.Configured.{HasSpans};
ghost use Rattle.am_planning.specs.Planning.{default_paces, pace_of, paces_of};
ghost use Rattle.am_config.specs.Configuration.{Configuration};

use crate::pace::Pace;
use am_config::{Config, Receiver, Settings};
use am_text::Listed;
use std::alloc::{AllocError, Global};

// How many milliseconds longer each further replica of a tenant waits before the first notice of a group.
const POSITION_WAIT: u64 = 15_000;

/// Whom the groups of each route tell and how long they wait, by the numbers of the routes, at the replica of a tenant that
/// has this position among all of them, 0 to 2: the first notice of a group waits 15 seconds longer for each position.
///
/// An error is out of memory.
#[tactic(auto, unfolding(crate::specs::Planning::paces_of))]
pub fn paces_of(alloc: Global, config: &Config, position: u8) -> Result<Listed<Pace>, AllocError>
    requires { position ≤ 2 }
    ensures { IfOk result (λ paces. paces ≡ paces_of config.now position) }
{
    let routes = config.routes();
    let receivers = config.receivers();
    let mut paces = Vec::with_capacity(alloc, routes.len())?;
    for node in routes {
        paces.push(pace_of(alloc, receivers, &node.item.settings, position)?)?;
    }
    Ok(Listed::from_vec(paces))
}

/// The paces of a tenant without a configuration.
///
/// An error is out of memory.
#[tactic(auto, unfolding(crate::specs::Planning::default_paces))]
pub fn default_paces(alloc: Global) -> Result<Listed<Pace>, AllocError>
    ensures { IfOk result (λ paces. paces ≡ default_paces) }
{
    let config = Config::default_config(alloc)?;
    paces_of(alloc, &config, 0)
}

// Whom the groups of a route tell and how long they wait.
fn pace_of(
    alloc: Global,
    receivers: &[Receiver],
    settings: &Settings,
    position: u8,
) -> Result<Pace, AllocError>
    requires place { settings.now.receiver < length receivers.now }
    requires spans { HasSpans settings.now }
    requires position { position ≤ 2 }
    ensures { IfOk result (λ pace. (c : Configuration) → c.receivers ≡ receivers.now → pace ≡ pace_of c position settings.now) }
{
    Ok(Pace {
        receiver: receivers[settings.receiver].name.copy(alloc)?,
        group_wait: settings.group_wait + u64::from(position) * POSITION_WAIT,
        group_interval: settings.group_interval,
    })
}
