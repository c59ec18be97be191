// Why no difference is built.
use thiserror::Error;

/// Why the RRsets that came and went make no difference, tested in this order.
#[derive(Clone, Copy, Debug, PartialEq, Eq, Drop, Error)]
pub enum ZoneDiffError {
    /// No SOA RRset was removed.
    #[error("MissingStartSoa")]
    MissingStartSoa,
    /// No SOA RRset was added.
    #[error("MissingEndSoa")]
    MissingEndSoa,
    /// The added serial is the removed one, or before it (RFC 1982, 3.2).
    #[error("InvalidSerialRange")]
    InvalidSerialRange,
}
