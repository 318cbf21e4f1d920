//! Why alerts aren't listed.

/// Whose pattern gave no answer, so that no alert is listed.
#[derive(Clone, Copy, PartialEq, Eq)]
pub enum Unanswered {
    /// One of the query.
    Asked,
    /// One of the configuration in use or of an active silence.
    Stored,
}
