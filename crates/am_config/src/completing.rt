//! What a draft says, made a configuration once every check has passed.

ghost use Rattle.std.specs.Prelude.{◌≡◌, length, map, IfOk, IfErr};
ghost use Rattle.am_text.specs.Outcome.{ForRefused, Gives};
ghost use Rattle.am_text.specs.declared.tree.Node.{Node};
ghost use Rattle.am_draft.specs.declared.route.RouteDraft.{RouteDraft};
ghost use Rattle.am_config.specs.Completing.{receiver_of, receivers_of, routes_with, rule_of, webhook_of, webhooks_of};
ghost use Rattle.am_config.specs.Judging.{IsLate};
ghost use Rattle.am_config.specs.Matching.{matchers_in, route_lists, rule_lists};

use crate::parts::{Receiver, Route, Rule, Settings, Webhook};
use crate::refusal::ConfigRefusal;
use am_draft::{Grouping, ReceiverDraft, RouteDraft, RuleDraft, WebhookDraft};
use am_match::Matcher;
use am_text::{Failure, Listed, Node, Text};
use am_url::WebhookUrl;
use std::alloc::{AllocError, Global};

/// The routes, with the settings that hold for them and the matchers that were read of their lists.
#[tactic(auto, unfolding(crate::specs::Completing::routes_with))]
pub(crate) fn routes_with(
    alloc: Global,
    settings: &[Settings],
    routes: &[Node<RouteDraft>],
    matchers: Vec<Listed<Matcher>>,
) -> Result<Vec<Node<Route>>, AllocError>
    requires settings { length settings.now ≡ length routes.now }
    requires matchers { matchers.items ≡ map matchers_in (route_lists routes.now) }
    ensures { IfOk result (λ v. v.items ≡ routes_with settings.now routes.now) }
{
    let mut read = Vec::with_capacity(alloc, routes.len())?;
    for matchers in matchers {
        let number = read.len();
        let node = &routes[number];
        let item = Route {
            settings: settings[number],
            grouping: copy_grouping(alloc, &node.item.grouping)?,
            matchers,
            goes_on: node.item.goes_on,
        };
        read.push(Node {
            item,
            within: node.within,
        })?;
    }
    Ok(read)
}

/// The inhibit rules, with the matchers that were read of their lists.
pub(crate) fn rules_with(
    alloc: Global,
    rules: &[RuleDraft],
    matchers: Vec<Listed<Matcher>>,
) -> Result<Vec<Rule>, AllocError>
    requires { matchers.items ≡ map matchers_in (rule_lists rules.now) }
    ensures { IfOk result (λ v. v.items ≡ map rule_of rules.now) }
{
    let mut read = Vec::with_capacity(alloc, rules.len())?;
    let mut sides = matchers.into_iter();
    for rule in rules {
        let (Some(source), Some(target)) = (sides.next(), sides.next()) else {
            unreachable!();
        };
        let equal = Listed::from_vec(copy_texts(alloc, rule.equal.as_slice())?);
        read.push(Rule {
            source,
            target,
            equal,
        })?;
    }
    Ok(read)
}

fn copy_grouping(alloc: Global, grouping: &Option<Grouping>) -> Result<Option<Grouping>, AllocError>
    ensures { IfOk result (λ g. g ≡ grouping.now) }
{
    match grouping {
        None => Ok(None),
        Some(Grouping::All) => Ok(Some(Grouping::All)),
        Some(Grouping::Names(names)) => {
            let copies = copy_texts(alloc, names.as_slice())?;
            Ok(Some(Grouping::Names(Listed::from_vec(copies))))
        }
    }
}

/// The receivers.
///
/// # Errors
/// [`ConfigRefusal::BadUrl`] where a webhook has no URL.
#[tactic(auto, unfolding(crate::specs::Completing::receivers_of))]
pub(crate) fn receivers_of(
    alloc: Global,
    drafts: &[ReceiverDraft],
) -> Result<Vec<Receiver>, Failure<ConfigRefusal>>
    ensures value { Gives (λ v. v.items) result (receivers_of drafts.now) }
    ensures late { IfErr result (λ failure. ForRefused failure IsLate) }
{
    let mut receivers = Vec::with_capacity(alloc, drafts.len())?;
    for draft in drafts {
        receivers.push(receiver_of(alloc, draft)?)?;
    }
    Ok(receivers)
}

#[tactic(auto, unfolding(crate::specs::Completing::receiver_of))]
fn receiver_of(alloc: Global, draft: &ReceiverDraft) -> Result<Receiver, Failure<ConfigRefusal>>
    ensures value { Gives (λ r. r) result (receiver_of draft.now) }
    ensures late { IfErr result (λ failure. ForRefused failure IsLate) }
{
    let webhooks = webhooks_of(alloc, draft.webhooks.as_slice())?;
    let name = draft.name.copy(alloc)?;
    Ok(Receiver {
        name,
        webhooks: Listed::from_vec(webhooks),
    })
}

#[tactic(auto, unfolding(crate::specs::Completing::webhooks_of))]
fn webhooks_of(
    alloc: Global,
    drafts: &[WebhookDraft],
) -> Result<Vec<Webhook>, Failure<ConfigRefusal>>
    ensures value { Gives (λ v. v.items) result (webhooks_of drafts.now) }
    ensures late { IfErr result (λ failure. ForRefused failure IsLate) }
{
    let mut webhooks = Vec::with_capacity(alloc, drafts.len())?;
    for draft in drafts {
        webhooks.push(webhook_of(alloc, draft)?)?;
    }
    Ok(webhooks)
}

fn webhook_of(alloc: Global, draft: &WebhookDraft) -> Result<Webhook, Failure<ConfigRefusal>>
    ensures value { Gives (λ w. w) result (webhook_of draft.now) }
    ensures late { IfErr result (λ failure. ForRefused failure IsLate) }
{
    match WebhookUrl::read(alloc, draft.url.as_str())? {
        None => Err(Failure::Refused(ConfigRefusal::BadUrl)),
        Some(url) => Ok(Webhook {
            url,
            send_resolved: draft.send_resolved,
            max_alerts: draft.max_alerts,
        }),
    }
}

// Equal texts.
fn copy_texts(alloc: Global, texts: &[Text]) -> Result<Vec<Text>, AllocError>
    ensures { IfOk result (λ v. v.items ≡ texts.now) }
{
    let mut copies = Vec::with_capacity(alloc, texts.len())?;
    for text in texts {
        copies.push(text.copy(alloc)?)?;
    }
    Ok(copies)
}
