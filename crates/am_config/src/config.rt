//! A configuration that was read.

ghost use Rattle.std.specs.Prelude.{◌≡◌, ◌<◌, ◌≤◌, Some, length, option_map, slice_get};
ghost use Rattle.am_text.specs.Trees.{IsTree};
ghost use Rattle.am_config.specs.Checks.{most_routes};
ghost use Rattle.am_config.specs.Configuration.{grouping_of, receiver_of};
ghost use Rattle.am_config.specs.Configured.{IsConfiguration};
ghost use Rattle.am_config.specs.Judging.{IsMeant, IsRead};

use crate::parts::{Receiver, Route, Rule};
use am_draft::Grouping;
use am_text::{Listed, Node, Text};
use std::marker::Model;

/// A configuration that passed every check, with everything that its text says.
pub struct Config {
    pub(crate) text: Text,
    pub(crate) resolve_timeout: u64,
    pub(crate) routes: Listed<Node<Route>>,
    pub(crate) receivers: Listed<Receiver>,
    pub(crate) rules: Listed<Rule>,
}

// Written out, so that a crate which owns one need not prove anew how its parts are dropped.
impl Drop for Config {
    fn drop(self) {
        let Config {
            text,
            resolve_timeout: _resolve_timeout,
            routes,
            receivers,
            rules,
        } = self;
        drop(text);
        drop(routes);
        drop(receivers);
        drop(rules);
    }
}

impl Model for Config {
    ghost use Rattle.am_config.specs.Configuration.{Configuration};
    ghost use Rattle.am_config.specs.Judging.{IsRead};

    ghost Value = { Configuration };

    ghost view = { λ c. record { text = c.text; resolve_timeout = c.resolve_timeout; routes = c.routes; receivers = c.receivers; rules = c.rules } };

    ghost invariant = { λ c. IsRead
        (record { text = c.text; resolve_timeout = c.resolve_timeout; routes = c.routes; receivers = c.receivers; rules = c.rules }) };
}

impl Config {
    /// The configuration's text, as it was posted: [`Config::reread`] gives the same configuration of it.
    pub fn text(&self) -> &str
        ensures text { result.now ≡ self.now.text }
        ensures meant { IsMeant self.now }
        ensures read { IsRead self.now }
    {
        self.text.as_str()
    }

    /// How long an alert without an end fires, in milliseconds: `resolve_timeout`, 5 minutes where it isn't written.
    pub fn resolve_timeout(&self) -> u64
        ensures timeout { result ≡ self.now.resolve_timeout }
        ensures configured { IsConfiguration self.now }
    {
        self.resolve_timeout
    }

    /// The routes, each before those within it, the root first; a route's number is its place here.
    pub fn routes(&self) -> &[Node<Route>]
        ensures routes { result.now ≡ self.now.routes }
        ensures tree { IsTree self.now.routes }
        ensures few { length self.now.routes ≤ most_routes }
        ensures configured { IsConfiguration self.now }
    {
        self.routes.as_slice()
    }

    /// The receiver of the route of this number.
    pub fn receiver_of(&self, number: usize) -> &Receiver
        requires { number < length self.now.routes }
        ensures { receiver_of self.now number ≡ Some result.now }
    {
        let node = element(self.routes.as_slice(), number);
        element(self.receivers.as_slice(), node.item.settings.receiver)
    }

    /// The grouping that holds for the route of this number, `None` where it groups by no label.
    pub fn grouping_of(&self, number: usize) -> Option<&Grouping>
        requires { number < length self.now.routes }
        ensures { option_map (λ grouping. grouping.now) result ≡ grouping_of self.now number }
    {
        let routes = self.routes.as_slice();
        let node = element(routes, number);
        match node.item.settings.grouping {
            None => None,
            Some(place) => element(routes, place).item.grouping.as_ref(),
        }
    }

    /// The receivers in the order in which they are written.
    pub fn receivers(&self) -> &[Receiver]
        ensures receivers { result.now ≡ self.now.receivers }
        ensures configured { IsConfiguration self.now }
    {
        self.receivers.as_slice()
    }

    /// The inhibit rules in the order in which they are written.
    pub fn rules(&self) -> &[Rule]
        ensures rules { result.now ≡ self.now.rules }
        ensures configured { IsConfiguration self.now }
    {
        self.rules.as_slice()
    }
}

fn element<T>(items: &[T], place: usize) -> &T
    requires { place < length items.now }
    ensures { slice_get items.now place ≡ Some result.now }
{
    &items[place]
}
