//! The notices of a flush.

ghost use Rattle.std.specs.Prelude.{◌≡◌, ◌<◌, ◌≤◌, IfOk, length, map};
ghost use Rattle.std.specs.List.{filter_map};
ghost use Rattle.am_alert.specs.Held.{AreRising};
ghost use Rattle.am_alert.specs.HeldAlert.{held_alert};
ghost use Rattle.am_config.specs.Checks.{most_webhooks};
ghost use Rattle.am_config.specs.Configured.{HasSpans};
ghost use Rattle.am_group.specs.Deeds.{deed};
ghost use Rattle.am_group.specs.Notices.{deeds_from};
ghost use Rattle.am_payload.specs.Told.{told_alerts};
ghost use Rattle.am_payload.specs.Webhook.{group_key as key_of_group};
ghost use Rattle.am_telling.specs.Tellings.{body_for, key_for, notice_for, shown, span_of, telling_of, tellings};
ghost use Rattle.am_telling.specs.Tellings.{webhook_keys, with_state};

use am_alert::HeldAlert;
use am_config::{Config, Receiver, Settings, Webhook};
use am_group::{Act, Notice as Told, flush};
use am_item::{EntryDetails, EntryKey, SharedMap};
use am_members::Group;
use am_outlet::Notice;
use am_payload::{ToldAlert, WebhookBody, group_key, webhook_json};
use am_text::{Listed, Moment, Octets, Text};
use am_url::WebhookUrl;
use std::alloc::{AllocError, Global};

/// What is done for a webhook at a flush.
#[derive(Drop)]
pub enum Telling {
    /// The notice goes out.
    Notify(Notice),
    /// There is nothing left to tell: that no alert fires and none is resolved is recorded at once.
    Keep {
        /// Under which key it is recorded.
        key: EntryKey,
        /// For how many milliseconds after its stamp the record is of use.
        span: u64,
    },
}

// A group that is flushed at a moment, with its receiver and what holds for its route.
#[derive(Drop)]
struct Flushed<'a> {
    group: &'a Group,
    receiver: &'a Receiver,
    settings: Settings,
    moment: Moment,
}

/// What is done at a flush of a group for the webhooks of its route's receiver, in their order; a webhook that has nothing to
/// be told is left out.
///
/// `alerts` are the members that aren't muted, resolved ones too, `sent` is what was told before; [`flush`] says when a
/// webhook is told. Of the alerts of a notice the first `max_alerts` stand in its body, all of them where that is 0.
///
/// An error is out of memory.
#[tactic(auto, unfolding(crate::specs::Tellings::tellings))]
pub fn tell<'a>(
    alloc: Global,
    config: &'a Config,
    group: &'a Group,
    sent: &SharedMap<EntryKey, EntryDetails>,
    alerts: &[HeldAlert<'a>],
    moment: Moment,
) -> Result<Vec<Telling>, AllocError>
    requires route { group.now.route < length config.now.routes }
    requires rising { AreRising (map held_alert alerts.now) }
    ensures { IfOk result (λ v. v.items ≡ tellings config.now group.now sent.now (map held_alert alerts.now) moment) }
{
    let flushed = Flushed {
        group,
        receiver: config.receiver_of(group.route),
        settings: config.routes()[group.route].item.settings,
        moment,
    };
    tell_webhooks(alloc, &flushed, sent, alerts)
}

/// The keys under which it is recorded what the webhooks of a group's receiver were told, in the order of the webhooks.
///
/// An error is out of memory.
#[tactic(auto, unfolding(crate::specs::Tellings::webhook_keys))]
pub fn webhook_keys(
    alloc: Global,
    config: &Config,
    group: &Group,
) -> Result<Vec<EntryKey>, AllocError>
    requires route { group.now.route < length config.now.routes }
    ensures { IfOk result (λ v. v.items ≡ webhook_keys config.now group.now) }
{
    // a receiver of a route has few webhooks
    let routes = config.routes();
    prove!(group.route < routes.len());
    let receiver = config.receiver_of(group.route);
    let webhooks = receiver.webhooks.as_slice();
    let mut keys = Vec::with_capacity(alloc, webhooks.len())?;
    for (place, _) in webhooks.iter().enumerate() {
        keys.push(key_for(alloc, &receiver.name, group, place as u8)?)?;
    }
    Ok(keys)
}

// What is done for the webhooks of the receiver.
fn tell_webhooks<'a>(
    alloc: Global,
    flushed: &Flushed<'a>,
    sent: &SharedMap<EntryKey, EntryDetails>,
    alerts: &[HeldAlert<'a>],
) -> Result<Vec<Telling>, AllocError>
    requires rising { AreRising (map held_alert alerts.now) }
    requires few { length flushed.now.receiver.now.webhooks ≤ most_webhooks }
    requires spans { HasSpans flushed.now.settings }
    ensures { IfOk result (λ v. v.items
        ≡ filter_map (telling_of flushed.now.receiver.now flushed.now.group.now flushed.now.settings flushed.now.moment)
        (deeds_from 0 flushed.now.receiver.now.name (key_of_group flushed.now.group.now.route flushed.now.group.now.labels)
        flushed.now.receiver.now.webhooks sent.now (map held_alert alerts.now) flushed.now.settings.repeat_interval
        flushed.now.moment)) }
{
    let key = group_key(alloc, flushed.group.route, &flushed.group.labels)?;
    let repeat_interval = flushed.settings.repeat_interval;
    let acts = flush(
        alloc,
        flushed.receiver,
        &key,
        sent,
        alerts,
        repeat_interval,
        flushed.moment,
    )?;
    let mut tellings = Vec::new(alloc);
    for act in acts {
        if let Some(telling) = telling_of(alloc, flushed, act)? {
            tellings.push(telling)?;
        }
    }
    Ok(tellings)
}

// What is done for one webhook.
fn telling_of<'a>(
    alloc: Global,
    flushed: &Flushed<'a>,
    act: Act<'a>,
) -> Result<Option<Telling>, AllocError>
    requires spans { HasSpans flushed.now.settings }
    ensures { IfOk result (λ telling. telling
        ≡ telling_of flushed.now.receiver.now flushed.now.group.now flushed.now.settings flushed.now.moment
        (deed act.entry)) }
{
    match act {
        Act::Keep(webhook) => Ok(Some(Telling::Keep {
            key: key_for(alloc, &flushed.receiver.name, flushed.group, webhook)?,
            span: span_of(&flushed.settings),
        })),
        Act::Notify(told) => {
            let webhooks = flushed.receiver.webhooks.as_slice();
            let Some(webhook) = webhooks.get(usize::from(told.webhook)) else {
                return Ok(None);
            };
            let notice = notice_for(alloc, flushed, webhook, told)?;
            Ok(Some(Telling::Notify(notice)))
        }
    }
}

// The notice to a webhook.
fn notice_for<'a>(
    alloc: Global,
    flushed: &Flushed<'a>,
    webhook: &Webhook,
    told: Told<'a>,
) -> Result<Notice, AllocError>
    requires spans { HasSpans flushed.now.settings }
    ensures { IfOk result (λ notice. notice
        ≡ notice_for flushed.now.receiver.now.name flushed.now.group.now flushed.now.settings told.entry.webhook
        webhook.now
        flushed.now.moment (map held_alert told.entry.alerts) told.entry.firing told.entry.resolved) }
{
    let body = body_for(alloc, flushed, webhook, told.alerts.as_slice())?;
    let key = key_for(alloc, &flushed.receiver.name, flushed.group, told.webhook)?;
    let url = copy_of(alloc, &webhook.url)?;
    Ok(Notice {
        key,
        url,
        body,
        firing: told.firing,
        resolved: told.resolved,
        span: span_of(&flushed.settings),
    })
}

// The key under which it is recorded what a webhook was told.
fn key_for(
    alloc: Global,
    receiver: &Text,
    group: &Group,
    webhook: u8,
) -> Result<EntryKey, AllocError>
    ensures { IfOk result (λ key. key ≡ key_for receiver.now group.now webhook) }
{
    Ok(EntryKey {
        receiver: receiver.copy(alloc)?,
        group: group_key(alloc, group.route, &group.labels)?,
        webhook,
    })
}

// For how many milliseconds a record is of use.
fn span_of(settings: &Settings) -> u64
    requires { HasSpans settings.now }
    ensures { result ≡ span_of settings.now }
{
    settings.group_interval + settings.repeat_interval
}

// The same URL.
fn copy_of(alloc: Global, url: &WebhookUrl) -> Result<WebhookUrl, AllocError>
    ensures { IfOk result (λ copy. copy ≡ url.now) }
{
    match WebhookUrl::read(alloc, url.as_str())? {
        Some(copy) => Ok(copy),
        None => unreachable!(),
    }
}

// The body of a notice of these alerts.
fn body_for<'a>(
    alloc: Global,
    flushed: &Flushed<'a>,
    webhook: &Webhook,
    alerts: &[HeldAlert<'a>],
) -> Result<Octets, AllocError>
    ensures { IfOk result (λ body. body
        ≡ body_for flushed.now.receiver.now.name flushed.now.group.now webhook.now flushed.now.moment
        (map held_alert alerts.now)) }
{
    let shown = shown(alerts, webhook.max_alerts);
    let told = with_state(alloc, shown, flushed.moment)?;
    let body = WebhookBody {
        receiver: &flushed.receiver.name,
        route: flushed.group.route,
        labels: &flushed.group.labels,
        alerts: told,
        truncated: (alerts.len() - shown.len()) as u64,
    };
    webhook_json(alloc, &body)
}

// The alerts that stand in a body.
fn shown<'s, 'a>(alerts: &'s [HeldAlert<'a>], most: u64) -> &'s [HeldAlert<'a>]
    ensures shown { map held_alert result.now ≡ shown most (map held_alert alerts.now) }
    ensures fewer { length result.now ≤ length alerts.now }
{
    let most = most as usize;
    if most == 0 || alerts.len() <= most {
        return alerts;
    }
    &alerts[..most]
}

// The alerts, each with whether it fires at the moment.
fn with_state<'a>(
    alloc: Global,
    alerts: &[HeldAlert<'a>],
    moment: Moment,
) -> Result<Listed<ToldAlert<'a>>, AllocError>
    ensures { IfOk result (λ told. told_alerts told ≡ with_state moment (map held_alert alerts.now)) }
{
    let mut told = Vec::with_capacity(alloc, alerts.len())?;
    for alert in alerts {
        told.push(ToldAlert {
            alert: HeldAlert {
                labels: alert.labels,
                details: alert.details,
            },
            fires: moment < alert.details.value.ends_at,
        })?;
    }
    Ok(Listed::from_vec(told))
}
