//! A configuration as it is written.

ghost use Rattle.std.specs.Prelude.{◌≡◌, false, true, IfOk, Ok, codes};
ghost use Rattle.std.specs.List.{list_any};
ghost use Rattle.serde_json.specs.Find.{get};
ghost use Rattle.serde_json.specs.View.{view};
ghost use Rattle.am_text.specs.Outcome.{Gives};
ghost use Rattle.am_text.specs.Trees.{IsTree};
ghost use Rattle.am_json.specs.Reading.{optional, required};
ghost use Rattle.am_draft.specs.Drafts.{draft_of, global_in, has_left_out, no_global, receiver_leaves_out, root_has_receiver, root_in, rooted, route_leaves_out, rule_leaves_out, said_by_document, said_by_text, webhook_leaves_out, within_document};

use crate::keys::{Place, leaves_out};
use crate::receiver::{ReceiverDraft, WebhookDraft, receivers_at};
use crate::refusal::DraftRefusal;
use crate::route::RouteDraft;
use crate::routes::push_tree;
use crate::rule::{RuleDraft, rules_at};
use am_json::{JsonRefusal, optional_text_at, read_json, text_at};
use am_text::{Failure, Listed, Node, Text, map_refusal};
use serde_json::Value;
use std::alloc::Global;
use std::str;

/// What `global` says.
#[derive(Drop)]
pub struct GlobalDraft {
    /// How long an alert without an end fires, as it is written.
    pub resolve_timeout: Option<Text>,
    /// Whether one of its keys is left out.
    pub left_out: bool,
}

/// A configuration as it is written. Nothing that it says is judged: names, durations, matchers and URLs are the
/// texts that stand there.
#[derive(Drop)]
pub struct Draft {
    /// The configuration's text, from which all else was read.
    pub text: Text,
    /// What `global` says; nothing where the key is absent.
    pub global: GlobalDraft,
    /// The routes, each before those within it, the root first. The root has a receiver.
    pub routes: Listed<Node<RouteDraft>>,
    /// The receivers in the order in which they are written.
    pub receivers: Listed<ReceiverDraft>,
    /// The inhibit rules in the order in which they are written.
    pub rules: Listed<RuleDraft>,
    /// Whether a key of the text's object, or of the document around the text, is left out.
    pub left_out: bool,
}

impl Draft {
    ghost use Rattle.std.specs.Prelude.{false, true, Ok};
    ghost use Rattle.am_text.specs.Trees.{IsTree};
    ghost use Rattle.am_draft.specs.Drafts.{draft_in, has_left_out, posted, root_has_receiver};

    /// What a posted document says: a JSON object with `alertmanager_config`, the configuration's text.
    ///
    /// # Errors
    /// [`DraftRefusal::NotJson`] where the document or its text is not JSON; else [`DraftRefusal::BadForm`] where one
    /// of them is not of its form, also a document without a text; out of memory says nothing of the document.
    #[tactic(auto, unfolding(crate::specs::Drafts::posted, crate::specs::Drafts::draft_in))]
    pub fn read(alloc: Global, document: &[u8]) -> Result<Draft, Failure<DraftRefusal>>
        ensures draft { Gives (λ d. d) result (posted document.now) }
        ensures tree { IfOk result (λ d. IsTree d.routes) }
        ensures root { IfOk result (λ d. root_has_receiver d.routes ≡ true) }

        // Where no key is left out, the text alone says the same.
        ensures text { IfOk result (λ d. has_left_out d ≡ false → draft_in d.text ≡ Ok d) }
    {
        map_refusal(said_by_document(alloc, document), DraftRefusal::of_json)
    }

    /// What the text of a configuration says, as [`Draft::text`] holds it.
    ///
    /// # Errors
    /// [`DraftRefusal::NotJson`] where the text is not JSON; else [`DraftRefusal::BadForm`] where it is not of its
    /// form; out of memory says nothing of the text.
    #[tactic(auto, unfolding(crate::specs::Drafts::draft_in))]
    pub fn read_text(alloc: Global, text: &[u8]) -> Result<Draft, Failure<DraftRefusal>>
        ensures draft { Gives (λ d. d) result (draft_in text.now) }
        ensures tree { IfOk result (λ d. IsTree d.routes) }
        ensures root { IfOk result (λ d. root_has_receiver d.routes ≡ true) }
        ensures text { IfOk result (λ d. d.text ≡ text.now) }
    {
        match str::from_utf8(text) {
            Ok(text) => {
                let text = Text::read(alloc, text)?;
                map_refusal(said_by_text(alloc, text), DraftRefusal::of_json)
            }
            Err(_) => Err(Failure::Refused(DraftRefusal::NotJson)),
        }
    }

    /// Whether a key that amring leaves out stands at some place.
    pub fn has_left_out(&self) -> bool
        ensures { result ≡ has_left_out self.now }
    {
        self.left_out
            || self.global.left_out
            || routes_leave_out(self.routes.as_slice())
            || receivers_leave_out(self.receivers.as_slice())
            || rules_leave_out(self.rules.as_slice())
    }
}

fn routes_leave_out(nodes: &[Node<RouteDraft>]) -> bool
    ensures { result ≡ list_any route_leaves_out nodes.now }
{
    nodes.iter().any(|node| node.item.left_out)
}

fn receivers_leave_out(receivers: &[ReceiverDraft]) -> bool
    ensures { result ≡ list_any receiver_leaves_out receivers.now }
{
    receivers.iter().any(|receiver| receiver.left_out
        || webhooks_leave_out(receiver.webhooks.as_slice()))
}

fn webhooks_leave_out(webhooks: &[WebhookDraft]) -> bool
    ensures { result ≡ list_any webhook_leaves_out webhooks.now }
{
    webhooks.iter().any(|webhook| webhook.left_out)
}

fn rules_leave_out(rules: &[RuleDraft]) -> bool
    ensures { result ≡ list_any rule_leaves_out rules.now }
{
    rules.iter().any(|rule| rule.left_out)
}

// The draft, where a key of its document is left out or none is.
fn within_document(draft: Draft, left_out: bool) -> Draft
    ensures { result ≡ within_document draft left_out }
{
    Draft {
        left_out: draft.left_out || left_out,
        ..draft
    }
}

#[tactic(auto, unfolding(crate::specs::Drafts::said_by_document))]
fn said_by_document(alloc: Global, document: &[u8]) -> Result<Draft, Failure<JsonRefusal>>
    ensures draft { Gives (λ d. d) result (said_by_document document.now) }
    ensures tree { IfOk result (λ d. IsTree d.routes) }
    ensures root { IfOk result (λ d. root_has_receiver d.routes ≡ true) }
    ensures text { IfOk result (λ d. has_left_out d ≡ false → said_by_text d.text ≡ Ok d) }
{
    let value = read_json(alloc, document)?;
    let text = text_at(alloc, &value, "alertmanager_config")?;
    let draft = said_by_text(alloc, text)?;
    let left_out = leaves_out(&value, Place::Document)?;
    Ok(within_document(draft, left_out))
}

#[tactic(auto, unfolding(crate::specs::Drafts::said_by_text))]
fn said_by_text(alloc: Global, text: Text) -> Result<Draft, Failure<JsonRefusal>>
    ensures draft { Gives (λ d. d) result (said_by_text text) }
    ensures tree { IfOk result (λ d. IsTree d.routes) }
    ensures root { IfOk result (λ d. root_has_receiver d.routes ≡ true) }
    ensures text { IfOk result (λ d. d.text ≡ text) }
{
    let value = read_json(alloc, text.as_str().as_bytes())?;
    draft_of(alloc, text, &value)
}

#[tactic(auto, unfolding(crate::specs::Drafts::draft_of))]
fn draft_of(alloc: Global, text: Text, value: &Value) -> Result<Draft, Failure<JsonRefusal>>
    ensures draft { Gives (λ d. d) result (draft_of text (view value.now)) }
    ensures tree { IfOk result (λ d. IsTree d.routes) }
    ensures root { IfOk result (λ d. root_has_receiver d.routes ≡ true) }
    ensures text { IfOk result (λ d. d.text ≡ text) }
{
    let left_out = leaves_out(value, Place::Top)?;
    let global = global_at(alloc, value)?;
    let routes = routes_at(alloc, value)?;
    let receivers = receivers_at(alloc, value, "receivers")?;
    let rules = rules_at(alloc, value, "inhibit_rules")?;
    Ok(Draft {
        text,
        global,
        routes,
        receivers,
        rules,
        left_out,
    })
}

fn global_at(alloc: Global, value: &Value) -> Result<GlobalDraft, Failure<JsonRefusal>>
    ensures { Gives (λ g. g) result (optional no_global global_in (get (codes "global") (view value.now))) }
{
    match value.get("global") {
        None => Ok(GlobalDraft {
            resolve_timeout: None,
            left_out: false,
        }),
        Some(found) => global_in(alloc, found),
    }
}

#[tactic(auto, unfolding(crate::specs::Drafts::global_in))]
fn global_in(alloc: Global, value: &Value) -> Result<GlobalDraft, Failure<JsonRefusal>>
    ensures { Gives (λ g. g) result (global_in (view value.now)) }
{
    let left_out = leaves_out(value, Place::Global)?;
    let resolve_timeout = optional_text_at(alloc, value, "resolve_timeout")?;
    Ok(GlobalDraft {
        resolve_timeout,
        left_out,
    })
}

fn routes_at(alloc: Global, value: &Value) -> Result<Listed<Node<RouteDraft>>, Failure<JsonRefusal>>
    ensures routes { Gives (λ l. l) result (required root_in (get (codes "route") (view value.now))) }
    ensures tree { IfOk result IsTree }
    ensures root { IfOk result (λ l. root_has_receiver l ≡ true) }
{
    match value.get("route") {
        None => Err(Failure::Refused(JsonRefusal::BadForm)),
        Some(found) => root_in(alloc, found),
    }
}

fn root_in(alloc: Global, value: &Value) -> Result<Listed<Node<RouteDraft>>, Failure<JsonRefusal>>
    ensures routes { Gives (λ l. l) result (root_in (view value.now)) }
    ensures tree { IfOk result IsTree }
    ensures root { IfOk result (λ l. root_has_receiver l ≡ true) }
{
    let mut routes = Vec::new(alloc);
    push_tree(alloc, value, 1, &mut routes)?;
    rooted(routes)
}

// The routes, of which the first one has a receiver.
fn rooted(routes: Vec<Node<RouteDraft>>) -> Result<Listed<Node<RouteDraft>>, Failure<JsonRefusal>>
    ensures routes { Gives (λ l. l) result (rooted routes.items) }
    ensures root { IfOk result (λ l. root_has_receiver l ≡ true) }
{
    match routes.first() {
        None => Err(Failure::Refused(JsonRefusal::BadForm)),
        Some(root) => match &root.item.receiver {
            None => Err(Failure::Refused(JsonRefusal::BadForm)),
            Some(_) => Ok(Listed::from_vec(routes)),
        },
    }
}
