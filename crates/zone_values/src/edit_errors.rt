// Why a record, a zone cut or an alias isn't put into a zone that opens, why a commit is refused, and why a node isn't edited.

use std::alloc::AllocError;
use thiserror::Error;

/// Why a record isn't put into a zone that opens. The zone is then as before.
#[derive(Clone, Copy, Debug, PartialEq, Eq, Drop, Error)]
pub enum InsertError {
    /// The owner is neither the apex nor below it.
    #[error("the owner isn't in the zone")]
    OutOfZone,
    /// A second CNAME record of one name (RFC 2181, 10.1).
    #[error("the name may not hold these data")]
    InvalidData,
    #[error("out of memory")]
    Memory,
}

impl From<AllocError> for InsertError {
    ghost use Rattle.std.specs.Prelude.{◌≡◌};
    ghost use Rattle.zone_values.specs.declared.edit_errors.InsertError.{InsertError};

    ghost from_gives = { λ e f. f ≡ InsertError.Memory };

    fn from(_error: AllocError) -> InsertError {
        InsertError::Memory
    }
}

/// Why a zone cut isn't put into a zone that opens. The zone is then as before.
#[derive(Clone, Copy, Debug, PartialEq, Eq, Drop, Error)]
pub enum InsertCutError {
    /// The name is neither the apex nor below it.
    #[error("Out of zone")]
    OutOfZone,
    /// The name is the apex.
    #[error("Zone cut at apex")]
    ZoneCutAtApex,
    #[error("out of memory")]
    Memory,
}

impl From<AllocError> for InsertCutError {
    ghost use Rattle.std.specs.Prelude.{◌≡◌};
    ghost use Rattle.zone_values.specs.declared.edit_errors.InsertCutError.{InsertCutError};

    ghost from_gives = { λ e f. f ≡ InsertCutError.Memory };

    fn from(_error: AllocError) -> InsertCutError {
        InsertCutError::Memory
    }
}

/// Why an alias isn't put into a zone that opens. The zone is then as before.
#[derive(Clone, Copy, Debug, PartialEq, Eq, Drop, Error)]
pub enum InsertCnameError {
    /// The name is neither the apex nor below it.
    #[error("Out of zone")]
    OutOfZone,
    /// The name is the apex (RFC 1034, 3.6.2).
    #[error("CNAME at apex")]
    CnameAtApex,
    #[error("out of memory")]
    Memory,
}

impl From<AllocError> for InsertCnameError {
    ghost use Rattle.std.specs.Prelude.{◌≡◌};
    ghost use Rattle.zone_values.specs.declared.edit_errors.InsertCnameError.{InsertCnameError};

    ghost from_gives = { λ e f. f ≡ InsertCnameError.Memory };

    fn from(_error: AllocError) -> InsertCnameError {
        InsertCnameError::Memory
    }
}

/// Why a commit is refused. Nothing is published then, and the session stays as it was.
#[derive(Clone, Copy, Debug, PartialEq, Eq, Drop, Error)]
pub enum CommitError {
    /// The current version has the greatest number.
    #[error("there is no further version number")]
    VersionsExhausted,
    #[error("out of memory")]
    Memory,
}

impl From<AllocError> for CommitError {
    ghost use Rattle.std.specs.Prelude.{◌≡◌};
    ghost use Rattle.zone_values.specs.declared.edit_errors.CommitError.{CommitError};

    ghost from_gives = { λ e f. f ≡ CommitError.Memory };

    fn from(_error: AllocError) -> CommitError {
        CommitError::Memory
    }
}

/// Why a node isn't reached.
#[derive(Clone, Copy, Debug, PartialEq, Eq, Drop, Error)]
pub enum UpdateError {
    /// The name would have more than 255 octets (RFC 1035, 2.3.4).
    #[error("the name has more than 255 octets")]
    LongName,
}

/// Why a node is made no alias and no zone cut. The session is then as before.
#[derive(Clone, Copy, Debug, PartialEq, Eq, Drop, Error)]
pub enum NodeError {
    /// The node is the apex.
    #[error("operation not allowed")]
    NotAllowed,
    #[error("out of memory")]
    Memory,
}

impl From<AllocError> for NodeError {
    ghost use Rattle.std.specs.Prelude.{◌≡◌};
    ghost use Rattle.zone_values.specs.declared.edit_errors.NodeError.{NodeError};

    ghost from_gives = { λ e f. f ≡ NodeError.Memory };

    fn from(_error: AllocError) -> NodeError {
        NodeError::Memory
    }
}
