//! The file of tenants' limits: a JSON object with `default`, the numbers of a tenant that says none of its own, and
//! `tenants`, an object of each tenant's numbers. It is read again while a program serves.
#![tactic(auto)]

mod changes;
mod reading;
mod refusal;
mod watch;

pub use reading::{LimitsFile, TenantLimits, read_limits};
pub use refusal::{LimitsFault, LimitsRefusal};
pub use watch::{LimitsWatch, Renewal};
