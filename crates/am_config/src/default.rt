//! The configuration that holds where none is stored.

ghost use Rattle.std.specs.Prelude.{◌≡◌, ◌∷◌, [], IfOk};
ghost use Rattle.am_config.specs.Default.{default_route, default_receiver, default_configuration};

use crate::config::Config;
use crate::inheriting::DEFAULTS;
use crate::parts::{Receiver, Route};
use crate::terms::DEFAULT_RESOLVE_TIMEOUT;
use am_text::{Listed, Node, Text};
use std::alloc::{AllocError, Global};

/// The text that says it.
const DEFAULT_TEXT: &str = r#"{"route":{"receiver":"default"},"receivers":[{"name":"default"}]}"#;

impl Config {
    /// The configuration that holds where none is stored, or a stored text would be refused with one of `C1` to `C9`: its
    /// one route goes to its one receiver `default`, which has no webhook.
    ///
    /// # Errors
    /// Out of memory alone.
    #[tactic(auto, using(crate::proofs::DefaultRead::default_is_read))]
    pub fn default_config(alloc: Global) -> Result<Config, AllocError>
        ensures { IfOk result (λ c. c ≡ default_configuration) }
    {
        Ok(Config {
            text: Text::read(alloc, DEFAULT_TEXT)?,
            resolve_timeout: DEFAULT_RESOLVE_TIMEOUT,
            routes: default_routes(alloc)?,
            receivers: default_receivers(alloc)?,
            rules: Listed::from_vec(Vec::new(alloc)),
        })
    }
}

fn default_routes(alloc: Global) -> Result<Listed<Node<Route>>, AllocError>
    ensures { IfOk result (λ routes. routes ≡ default_route ∷ []) }
{
    let item = Route {
        settings: DEFAULTS,
        grouping: None,
        matchers: Listed::from_vec(Vec::new(alloc)),
        goes_on: false,
    };
    let mut routes = Vec::new(alloc);
    routes.push(Node { item, within: 0 })?;
    Ok(Listed::from_vec(routes))
}

fn default_receivers(alloc: Global) -> Result<Listed<Receiver>, AllocError>
    ensures { IfOk result (λ receivers. receivers ≡ default_receiver ∷ []) }
{
    let receiver = Receiver {
        name: Text::read(alloc, "default")?,
        webhooks: Listed::from_vec(Vec::new(alloc)),
    };
    let mut receivers = Vec::new(alloc);
    receivers.push(receiver)?;
    Ok(Listed::from_vec(receivers))
}
