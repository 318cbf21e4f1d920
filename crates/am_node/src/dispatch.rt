use crate::report::Report;
use am_tenant::TenantName;

/// What there is to say, and of whom.
#[derive(Drop)]
pub struct Dispatch {
    /// Of whom.
    pub tenant: TenantName,
    /// What there is to say.
    pub report: Report,
}
