//! What is counted.
ghost use Rattle.std.specs.Prelude.{◌≡◌, if◌then◌else◌, not};
ghost use Rattle.am_tally.specs.Counts.{counted, is_success};
ghost use Rattle.am_tally.specs.declared.notices.Fate.TheVariants as fate_;

use crate::notices::{Fate, Notices};
use crate::refusals::Refusals;
use crate::tenants::Tenants;
use am_tenant::TenantName;
use std::alloc::Global;
use std::str;

/// The least status code of a reply.
pub(crate) const LEAST_STATUS: usize = 100;

/// How many status codes are told apart, from the least on.
pub(crate) const STATUSES: usize = 500;

/// The least status code of a refusal.
const REFUSED: usize = 400;

/// How often what happened since the program started. Each count stops at 2^64 - 1.
#[derive(Drop)]
pub struct Tally {
    replies: [u64; STATUSES],
    refusals: Refusals,
    notices: Notices,
    // What became of each tenant's notices, where tenants are told apart.
    tenants: Option<Tenants>,
    ticks: u64,
    ticked: u64,
}

impl Tally {
    /// Nothing so far. What becomes of notices is counted tenant by tenant too, where that is asked for.
    pub fn new(alloc: Global, by_tenant: bool) -> Tally {
        Tally {
            replies: [0; STATUSES],
            refusals: Refusals::new(alloc),
            notices: Notices::new(),
            tenants: if by_tenant {
                Some(Tenants::new(alloc))
            } else {
                None
            },
            ticks: 0,
            ticked: 0,
        }
    }

    /// A client is given a reply. The code of a refusal isn't counted where memory is refused.
    pub fn count_reply(&mut self, reply: &[u8]) {
        let Some(status) = status_of(reply) else {
            return;
        };
        if let Some(count) = self.replies.get_mut(status.saturating_sub(LEAST_STATUS)) {
            *count = count.saturating_add(1);
        }
        if status >= REFUSED {
            let _ = self.refusals.count(reply);
        }
    }

    /// A webhook of a tenant is called.
    pub fn count_call(&mut self, tenant: &TenantName)
        ensures { self.new.notices ≡ counted fate_.Begun self.old.notices }
    {
        self.count_notice(tenant, Fate::Begun);
    }

    /// A notice of a tenant gives way before its webhook is called.
    pub fn count_given_up(&mut self, tenant: &TenantName)
        ensures { self.new.notices ≡ counted fate_.GivenUp self.old.notices }
    {
        self.count_notice(tenant, Fate::GivenUp);
    }

    /// A try of a tenant's notice ended, with the status of the webhook's answer or without one. Gives whether it
    /// failed: that is no status of success, 200 to 299.
    pub fn count_end(&mut self, tenant: &TenantName, status: Option<u16>) -> bool
        ensures fails { result ≡ not (is_success status) }
        ensures counts { self.new.notices
            ≡ (if is_success status then self.old.notices else counted fate_.Failed self.old.notices) }
    {
        let fails = !status.is_some_and(|status| 200 <= status && status <= 299);
        if fails {
            self.count_notice(tenant, Fate::Failed);
        }
        fails
    }

    // A try of a tenant's notice comes to this. Where memory is refused, it is counted of all tenants together alone.
    fn count_notice(&mut self, tenant: &TenantName, fate: Fate)
        ensures { self.new.notices ≡ counted fate self.old.notices }
    {
        self.notices.count(fate);
        if let Some(tenants) = &mut self.tenants {
            let _ = tenants.count(tenant, fate);
        }
    }

    /// The world is told a moment, in milliseconds since 1970.
    pub fn count_tick(&mut self, moment: u64) {
        self.ticks = self.ticks.saturating_add(1);
        self.ticked = moment;
    }

    /// How many replies had this status code, 100 to 599.
    pub(crate) fn replies(&self, status: usize) -> u64 {
        let place = status.saturating_sub(LEAST_STATUS);
        self.replies.get(place).copied().unwrap_or(0)
    }

    /// How many replies refused a request with which code.
    pub(crate) fn refusals(&self) -> &Refusals {
        &self.refusals
    }

    /// What became of all tenants' notices.
    pub(crate) fn notices(&self) -> &Notices {
        &self.notices
    }

    /// What became of each tenant's notices, where tenants are told apart.
    pub(crate) fn tenants(&self) -> Option<&Tenants> {
        self.tenants.as_ref()
    }

    /// How often the world was told a moment.
    pub(crate) fn ticks(&self) -> u64 {
        self.ticks
    }

    /// The last of these moments, in milliseconds since 1970; 0 before any.
    pub(crate) fn ticked(&self) -> u64 {
        self.ticked
    }
}

// The status code of a reply, from the three digits behind `HTTP/1.1 ` (RFC 9112 section 4).
fn status_of(reply: &[u8]) -> Option<usize> {
    if reply.len() < 12 {
        return None;
    }
    str::from_utf8(&reply[9..12]).ok()?.parse().ok()
}
