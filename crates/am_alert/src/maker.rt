/// The instance that makes items, and how many counts of the tenant it has used so far.
#[derive(Clone, Copy, PartialEq, Eq)]
pub struct Maker {
    pub instance: u8,
    pub incarnation: u32,
    pub used: u64,
}
