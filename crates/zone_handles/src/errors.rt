// Why a question isn't answered.

use thiserror::Error;

/// Why a question has no answer of its own.
#[derive(Clone, Copy, Debug, PartialEq, Eq, Drop, Error)]
pub enum QueryError {
    /// The name is neither the zone's apex nor below it.
    #[error("Out of zone")]
    OutOfZone,
    #[error("out of memory")]
    Memory,
}

/// Why a handle isn't asked or has no answer.
#[derive(Clone, Copy, Debug, PartialEq, Eq, Drop, Error)]
pub enum HandleError {
    /// There is no handle at that place.
    #[error("no handle")]
    NoHandle,
    /// The name is neither the zone's apex nor below it.
    #[error("Out of zone")]
    OutOfZone,
}
