// Why something is not done to a zone or to the zones of a server.
ghost use Rattle.std.specs.Prelude.{◌≡◌};

use thiserror::Error;

/// A name is neither the zone's apex nor below it.
#[derive(Clone, Copy, Debug, PartialEq, Eq, Drop, Error)]
#[error("Out of zone")]
pub struct OutOfZone;

/// Why a name can be no zone cut.
#[derive(Clone, Copy, Debug, PartialEq, Eq, Drop, Error)]
pub enum ZoneCutError {
    /// The name is neither the apex nor below it.
    #[error("Out of zone")]
    OutOfZone,
    /// The name is the apex.
    #[error("Zone cut at apex")]
    ZoneCutAtApex,
}

impl From<OutOfZone> for ZoneCutError {
    ghost use Rattle.std.specs.Prelude.{◌≡◌};
    ghost use Rattle.zone_values.specs.declared.errors.ZoneCutError.{ZoneCutError};

    ghost from_gives = { λ e f. f ≡ ZoneCutError.OutOfZone };

    fn from(_error: OutOfZone) -> ZoneCutError {
        ZoneCutError::OutOfZone
    }
}

/// Why a name can hold no CNAME.
#[derive(Clone, Copy, Debug, PartialEq, Eq, Drop, Error)]
pub enum CnameError {
    /// The name is neither the apex nor below it.
    #[error("Out of zone")]
    OutOfZone,
    /// The name is the apex (RFC 1034, 3.6.2).
    #[error("CNAME at apex")]
    CnameAtApex,
}

impl From<OutOfZone> for CnameError {
    ghost use Rattle.std.specs.Prelude.{◌≡◌};
    ghost use Rattle.zone_values.specs.declared.errors.CnameError.{CnameError};

    ghost from_gives = { λ e f. f ≡ CnameError.OutOfZone };

    fn from(_error: OutOfZone) -> CnameError {
        CnameError::OutOfZone
    }
}

/// Why a zone is not put into or taken out of the zones of a server.
#[derive(Clone, Copy, Debug, PartialEq, Eq, Drop, Error)]
pub enum ZoneTreeModificationError {
    /// There is a zone of that apex and class.
    #[error("Zone already exists")]
    ZoneExists,
    /// There is no zone of that apex and class.
    #[error("Zone does not exist")]
    ZoneDoesNotExist,
}

/// Why something is not written at a zone's apex.
#[derive(Clone, Copy, Debug, PartialEq, Eq, Drop, Error)]
pub enum WriteApexError {
    /// The apex can be no zone cut and hold no CNAME.
    #[error("operation not allowed")]
    NotAllowed,
}
