/// One start of an instance.
#[derive(Clone, Copy)]
pub struct Start {
    /// The number of the instance, 1 to 8.
    pub instance: u8,
    /// Which of its starts it is, from 1 on.
    pub incarnation: u32,
}
