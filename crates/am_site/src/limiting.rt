//! The limit on the bytes of a tenant's alerts.

ghost use Rattle.std.specs.Prelude.{◌≡◌, IfOk, OnOk, codes, true};
ghost use Rattle.am_alert.specs.Made.{counts_fit};
ghost use Rattle.am_api.specs.Deciding.{decision_of};
ghost use Rattle.am_api.specs.Replied.{refused};
ghost use Rattle.am_cluster.specs.Operating.{alert_bytes_in, goes_past, posts, posts_to_alerts, within_bytes};
ghost use Rattle.am_item.specs.Best.{all_joined, joined};
ghost use Rattle.am_site.specs.Deciding.{shared_as};

use am_api::Decided;
use am_http::{Endpoint, Method, Request, refusal_body};
use am_item::{Held, Put, SharedItem, to_shared};
use am_text::Octets;
use am_words::Place;
use std::alloc::{AllocError, Global};

/// What is decided on a request, with items that several lists can share.
#[derive(Drop)]
pub(crate) struct SharedDecision {
    /// The items to store, in order.
    pub(crate) items: Vec<SharedItem>,
    /// The status code of the reply.
    pub(crate) status: u16,
    /// The body of the reply.
    pub(crate) body: Octets,
    /// Where words of the tenant were drawn, the place of the next one.
    pub(crate) drawn: Option<Place>,
}

// What was decided where this list is held, unless it posts alerts with which those of the list would take more bytes
// than the limit. Without a limit nothing is counted. Else each posted alert is put into the list, and no other one is
// looked at: a list that shares its entries with no other, as one that was merged for this, isn't copied.
pub(crate) fn within_bytes(
    alloc: Global,
    limit: Option<u64>,
    request: &Request,
    list: Held,
    decided: Decided,
) -> Result<SharedDecision, AllocError>
    requires { counts_fit decided.items.items ≡ true }
    ensures { IfOk result (λ d. shared_as d ≡ within_bytes limit request.now list (decision_of decided)) }
{
    let Decided {
        items,
        status,
        body,
        drawn,
    } = decided;
    let items = to_shared(alloc, items)?;
    if is_past(limit, request, list, status, items.as_slice())? {
        return refuse(alloc);
    }
    Ok(SharedDecision {
        items,
        status,
        body,
        drawn,
    })
}

// Whether the request posts alerts with which those of the list would take more bytes than the limit, where this status
// and these items are decided.
fn is_past(
    limit: Option<u64>,
    request: &Request,
    list: Held,
    status: u16,
    items: &[SharedItem],
) -> Result<bool, AllocError>
    requires { counts_fit items.now ≡ true }
    ensures { IfOk result (λ past. past ≡ goes_past limit request.now list status items.now) }
{
    let Some(most) = limit else {
        return Ok(false);
    };
    if !posts_to_alerts(request) {
        return Ok(false);
    }
    if status != 200 {
        return Ok(false);
    }
    let bytes = bytes_with(list, items)?;
    Ok(most < bytes)
}

// How many bytes the alerts of the list take once these items have come.
fn bytes_with(list: Held, items: &[SharedItem]) -> Result<u64, AllocError>
    ensures { IfOk result (λ bytes. bytes ≡ alert_bytes_in (all_joined list items.now)) }
{
    let mut with = list;
    for item in items {
        let item = item.share()?;
        put(&mut with, item)?;
    }
    Ok(with.alert_bytes())
}

// Puts an item, whatever that does.
fn put(list: &mut Held, item: SharedItem) -> Result<(), AllocError>
    ensures { OnOk result (list.new ≡ joined list.old item) }
{
    match list.put(item) {
        Ok(Put::New) => Ok(()),
        Ok(Put::Replaced(_standing)) => Ok(()),
        Ok(Put::Older) => Ok(()),
        Err(refused) => Err(refused),
    }
}

// Whether it posts alerts.
fn posts_to_alerts(request: &Request) -> bool
    ensures { result ≡ posts_to_alerts request.now.endpoint request.now.method }
{
    match &request.endpoint {
        Endpoint::Alerts => is_post(request.method),
        Endpoint::AlertGroups => false,
        Endpoint::Silences => false,
        Endpoint::Silence(_) => false,
        Endpoint::Receivers => false,
        Endpoint::Configuration => false,
    }
}

fn is_post(method: Method) -> bool
    ensures { result ≡ posts method }
{
    match method {
        Method::Post => true,
        Method::Get => false,
        Method::Delete => false,
    }
}

// The refusal: nothing is stored.
fn refuse(alloc: Global) -> Result<SharedDecision, AllocError>
    ensures { IfOk result (λ d. shared_as d ≡ refused 429 (codes "Li5")) }
{
    let body = refusal_body(alloc, "Li5")?;
    Ok(SharedDecision {
        items: Vec::new(alloc),
        status: 429,
        body,
        drawn: None,
    })
}
