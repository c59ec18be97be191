//! How a transfer ends.
ghost use Rattle.std.specs.Prelude.{◌≡◌};

use crate::{protocol, update};
use dns_wire::{PushError, ShortMessage};
use std::alloc::AllocError;
use thiserror::Error;
use tsig_port::ValidationError;
use xfr_services::ServiceError;
use zone_devices::links::LinkError;

/// A transfer that ended well.
#[derive(Clone, Copy, Debug, PartialEq, Eq)]
pub enum SyncOk {
    /// A new version was committed.
    Updated,
    /// The primary has nothing newer.
    UpToDate,
}

/// Why a transfer didn't end well. Nothing is pending then, and what was committed stays.
#[derive(Clone, Copy, Debug, PartialEq, Eq, Error)]
pub enum SyncError {
    /// The zone has no SOA to ask with.
    #[error("the zone has no SOA")]
    NoSoa,
    /// The request is longer than the link, or a message, allows.
    #[error("the request is too long")]
    Request(PushError),
    /// A call of the link failed.
    #[error("the link failed")]
    LinkFault,
    /// The link had no further message before the transfer's end.
    #[error("the link ended before the transfer")]
    Ended,
    /// A message has fewer than 12 octets.
    #[error("a message is too short")]
    Short(ShortMessage),
    /// The primary couldn't reply.
    #[error("the primary failed")]
    Primary(ServiceError),
    /// 65,536 replies were taken, and the end didn't come.
    #[error("too many messages")]
    TooManyMessages,
    /// The signature of a reply was refused (RFC 8945, 5.3 and 5.4).
    #[error("the signature was refused")]
    Tsig(ValidationError),
    /// A reply has another id or question than the request.
    #[error("the reply answers another question")]
    OtherAnswer,
    /// A reply isn't one of a transfer (RFC 5936, 2.2).
    #[error("the reply isn't one of a transfer")]
    Xfr(protocol::Error),
    /// A record of a reply can't be read, or stands after the end.
    #[error("a record can't be read where it stands")]
    Iteration(protocol::IterationError),
    /// An update doesn't fit the zone.
    #[error("an update doesn't fit the zone")]
    Update(update::Error),
    /// The current version has the greatest number.
    #[error("there is no further version number")]
    VersionsExhausted,
    /// Memory ran out.
    #[error("out of memory")]
    Memory,
}

impl From<AllocError> for SyncError {
    ghost use Rattle.std.specs.Prelude.{◌≡◌};
    ghost use Rattle.xfr_outcomes.specs.declared.outcome.SyncError.{SyncError};

    ghost from_gives = { λ _ e. e ≡ SyncError.Memory };

    fn from(_error: AllocError) -> SyncError {
        SyncError::Memory
    }
}

impl From<LinkError> for SyncError {
    ghost use Rattle.std.specs.Prelude.{◌≡◌};
    ghost use Rattle.xfr_outcomes.specs.Refusals.{of_link};

    ghost from_gives = { λ l e. e ≡ of_link l };

    fn from(error: LinkError) -> SyncError {
        match error {
            LinkError::Failed => SyncError::LinkFault,
            LinkError::Memory => SyncError::Memory,
        }
    }
}

impl From<ShortMessage> for SyncError {
    ghost use Rattle.std.specs.Prelude.{◌≡◌};
    ghost use Rattle.xfr_outcomes.specs.declared.outcome.SyncError.{SyncError};

    ghost from_gives = { λ s e. e ≡ SyncError.Short s };

    fn from(error: ShortMessage) -> SyncError {
        SyncError::Short(error)
    }
}

impl From<ServiceError> for SyncError {
    ghost use Rattle.std.specs.Prelude.{◌≡◌};
    ghost use Rattle.xfr_outcomes.specs.Refusals.{of_service};

    ghost from_gives = { λ s e. e ≡ of_service s };

    fn from(error: ServiceError) -> SyncError {
        match error {
            ServiceError::Memory => SyncError::Memory,
            ServiceError::InternalError => SyncError::Primary(error),
        }
    }
}

impl From<PushError> for SyncError {
    ghost use Rattle.std.specs.Prelude.{◌≡◌};
    ghost use Rattle.xfr_outcomes.specs.Refusals.{of_push};

    ghost from_gives = { λ s e. e ≡ of_push s };

    fn from(error: PushError) -> SyncError {
        match error {
            PushError::Memory => SyncError::Memory,
            PushError::ShortBuf | PushError::CountOverflow => SyncError::Request(error),
        }
    }
}

impl From<ValidationError> for SyncError {
    ghost use Rattle.std.specs.Prelude.{◌≡◌};
    ghost use Rattle.xfr_outcomes.specs.declared.outcome.SyncError.{SyncError};

    ghost from_gives = { λ s e. e ≡ SyncError.Tsig s };

    fn from(error: ValidationError) -> SyncError {
        SyncError::Tsig(error)
    }
}

impl From<protocol::Error> for SyncError {
    ghost use Rattle.std.specs.Prelude.{◌≡◌};
    ghost use Rattle.xfr_outcomes.specs.declared.outcome.SyncError.{SyncError};

    ghost from_gives = { λ s e. e ≡ SyncError.Xfr s };

    fn from(error: protocol::Error) -> SyncError {
        SyncError::Xfr(error)
    }
}

impl From<protocol::IterationError> for SyncError {
    ghost use Rattle.std.specs.Prelude.{◌≡◌};
    ghost use Rattle.xfr_outcomes.specs.declared.outcome.SyncError.{SyncError};

    ghost from_gives = { λ s e. e ≡ SyncError.Iteration s };

    fn from(error: protocol::IterationError) -> SyncError {
        SyncError::Iteration(error)
    }
}

impl From<update::Error> for SyncError {
    ghost use Rattle.std.specs.Prelude.{◌≡◌};
    ghost use Rattle.xfr_outcomes.specs.Refusals.{of_update};

    ghost from_gives = { λ s e. e ≡ of_update s };

    fn from(error: update::Error) -> SyncError {
        match error {
            update::Error::Memory => SyncError::Memory,
            update::Error::VersionsExhausted => SyncError::VersionsExhausted,
            _ => SyncError::Update(error),
        }
    }
}
