// Why an edit is refused.

use std::alloc::AllocError;
use thiserror::Error;

/// Why an edit is refused. The session is then as before.
#[derive(Clone, Copy, Debug, PartialEq, Eq, Drop, Error)]
pub enum EditError {
    /// The owner is neither the apex nor below it.
    #[error("the owner isn't in the zone")]
    OutOfZone,
    /// The RRset has data equal to those that are added, or lacks those that are deleted.
    #[error("the data don't fit what the zone holds")]
    Incompatible,
    /// A second CNAME record of one name (RFC 2181, 10.1).
    #[error("the name may not hold these data")]
    InvalidData,
    #[error("out of memory")]
    Memory,
}

impl From<AllocError> for EditError {
    ghost use Rattle.std.specs.Prelude.{◌≡◌};
    ghost use Rattle.zone_versions.specs.declared.errors.EditError.{EditError};

    ghost from_gives = { λ e f. f ≡ EditError.Memory };

    fn from(_error: AllocError) -> EditError {
        EditError::Memory
    }
}
