//! How a line is written.

/// How a line is written.
#[derive(Clone, Copy, Debug, PartialEq, Eq)]
pub enum Form {
    /// As a sentence.
    Plain,
    /// As a JSON object (RFC 8259).
    Json,
}
