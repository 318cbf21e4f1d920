//! What was counted, as text.

use crate::load::Load;
use crate::metric::{Metric, add, add_head, add_value};
use crate::notices::Fate;
use crate::parting::Parting;
use crate::tally::{LEAST_STATUS, STATUSES, Tally};
use std::alloc::{AllocError, Global};

const REPLIES: Metric = Metric {
    name: "alertmanager_http_requests_total",
    kind: "counter",
    help: "Replies to clients, by status code.",
};

const REFUSALS: Metric = Metric {
    name: "amring_refusals_total",
    kind: "counter",
    help: "Replies that refused a request, by the code in their body.",
};

const CALLS: Metric = Metric {
    name: "alertmanager_notifications_total",
    kind: "counter",
    help: "Tries of notices that were begun.",
};

const FAILED: Metric = Metric {
    name: "alertmanager_notifications_failed_total",
    kind: "counter",
    help: "Tries of notices that ended without an answer of success.",
};

const GIVEN_UP: Metric = Metric {
    name: "amring_notifications_given_up_total",
    kind: "counter",
    help: "Tries of notices that gave way to others before they were begun.",
};

const FAULTS: Metric = Metric {
    name: "amring_faults_total",
    kind: "counter",
    help: "Faults that stopped an instance.",
};

const TICKS: Metric = Metric {
    name: "amring_ticks_total",
    kind: "counter",
    help: "How often GET /ready told the time.",
};

const TICKED: Metric = Metric {
    name: "amring_last_tick_timestamp_seconds",
    kind: "gauge",
    help: "When GET /ready last told the time.",
};

const OPEN: Metric = Metric {
    name: "amring_connections_open",
    kind: "gauge",
    help: "Connections of clients that are open.",
};

const CAME: Metric = Metric {
    name: "amring_connections_total",
    kind: "counter",
    help: "Connections of clients that came.",
};

const LET_GO: Metric = Metric {
    name: "amring_connections_let_go_total",
    kind: "counter",
    help: "Connections of clients that were let go without the whole reply, by reason.",
};

const UNDER_WAY: Metric = Metric {
    name: "amring_webhook_calls",
    kind: "gauge",
    help: "Calls of webhooks that are under way.",
};

const HELD: Metric = Metric {
    name: "amring_held_bytes",
    kind: "gauge",
    help: "Bytes of replies that clients haven't taken, and of requests that webhooks haven't.",
};

/// Adds all that was counted, and how many faults came.
///
/// # Errors
/// Out of memory.
pub fn add_counts(
    alloc: Global,
    text: &mut String,
    tally: &Tally,
    faults: u64,
) -> Result<(), AllocError> {
    add_replies(alloc, text, tally)?;
    add_refusals(alloc, text, tally)?;
    add_notices(alloc, text, tally, CALLS, Fate::Begun)?;
    add_notices(alloc, text, tally, FAILED, Fate::Failed)?;
    add_notices(alloc, text, tally, GIVEN_UP, Fate::GivenUp)?;
    add_clock(alloc, text, tally, faults)
}

/// Adds what a server has open and holds, and whom it let go; and how many bytes the requests of notices hold that
/// wait for their call.
///
/// # Errors
/// Out of memory.
pub fn add_load(
    alloc: Global,
    text: &mut String,
    load: &Load,
    waiting_bytes: u64,
) -> Result<(), AllocError> {
    add(alloc, text, OPEN, "", load.open as u64)?;
    add(alloc, text, CAME, "", load.came)?;
    add_partings(alloc, text, load)?;
    add(alloc, text, UNDER_WAY, "", load.calls as u64)?;
    add_head(alloc, text, HELD)?;
    add_value(alloc, text, HELD, "{kind=\"replies\"}", load.reply_bytes)?;
    add_value(alloc, text, HELD, "{kind=\"calls\"}", load.call_bytes)?;
    add_value(alloc, text, HELD, "{kind=\"waiting_calls\"}", waiting_bytes)
}

// How many replies had which status code.
fn add_replies(alloc: Global, text: &mut String, tally: &Tally) -> Result<(), AllocError> {
    add_head(alloc, text, REPLIES)?;
    for status in LEAST_STATUS..LEAST_STATUS + STATUSES {
        let count = tally.replies(status);
        if count > 0 {
            let labels = format!(in alloc; "{{code=\"{status}\"}}")?;
            add_value(alloc, text, REPLIES, &labels, count)?;
        }
    }
    Ok(())
}

// How many replies refused a request with which code.
fn add_refusals(alloc: Global, text: &mut String, tally: &Tally) -> Result<(), AllocError> {
    add_head(alloc, text, REFUSALS)?;
    for (code, count) in tally.refusals().counts() {
        let labels = format!(in alloc; "{{code=\"{code}\"}}")?;
        add_value(alloc, text, REFUSALS, &labels, *count)?;
    }
    Ok(())
}

// How many tries of notices came to this: tenant by tenant, where tenants are told apart.
fn add_notices(
    alloc: Global,
    text: &mut String,
    tally: &Tally,
    metric: Metric,
    fate: Fate,
) -> Result<(), AllocError> {
    let Some(tenants) = tally.tenants() else {
        let webhook = "{integration=\"webhook\"}";
        return add(alloc, text, metric, webhook, tally.notices().of(fate));
    };
    add_head(alloc, text, metric)?;
    for (tenant, notices) in tenants.seen() {
        let name = tenant.as_str();
        let labels = format!(in alloc; "{{integration=\"webhook\",tenant=\"{name}\"}}")?;
        add_value(alloc, text, metric, &labels, notices.of(fate))?;
    }
    Ok(())
}

// How the clock goes, and how many faults came.
fn add_clock(
    alloc: Global,
    text: &mut String,
    tally: &Tally,
    faults: u64,
) -> Result<(), AllocError> {
    add(alloc, text, FAULTS, "", faults)?;
    add(alloc, text, TICKS, "", tally.ticks())?;
    add(alloc, text, TICKED, "", tally.ticked() / 1_000)
}

// How many connections were let go, by why.
fn add_partings(alloc: Global, text: &mut String, load: &Load) -> Result<(), AllocError> {
    add_head(alloc, text, LET_GO)?;
    for parting in Parting::ALL {
        let reason = parting.name();
        let labels = format!(in alloc; "{{reason=\"{reason}\"}}")?;
        add_value(alloc, text, LET_GO, &labels, load.partings.of(parting))?;
    }
    Ok(())
}
