use am_limit::Limits;
use am_text::Moment;

/// What an instance goes by where something happens to a tenant.
#[derive(Clone, Copy)]
pub struct Context {
    /// The number of the instance, 1 to 8.
    pub instance: u8,
    /// Which start of the instance it is, from 1 on.
    pub incarnation: u32,
    /// The moment at which it happens.
    pub moment: Moment,
    /// The tenant's limits.
    pub limits: Limits,
}
