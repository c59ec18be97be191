//! How an exchange over streams ends.
ghost use Rattle.std.specs.Prelude.{◌≡◌};
ghost use Rattle.zone_asking.specs.Answers.{sync_error, sync_answer, told_by};

use crate::limits::Limit;
use dns_numbers::Rcode;
use message_frames::reading::FrameError;
use message_frames::writing::WriteFrameError;
use thiserror::Error;
use xfr_outcomes::{SyncError, SyncOk, protocol};

/// Why an exchange didn't end well. Nothing is pending then, and what was committed stays.
#[derive(Clone, Copy, Debug, PartialEq, Eq, Error)]
pub enum AskError {
    /// The transfer was refused, or memory ran out; `Ended` where the source ended behind a frame, before the transfer's end. Of these
    /// `LinkFault` and `Primary` never come.
    #[error("the transfer was refused")]
    Transfer(SyncError),
    /// A reply whose signature was accepted is none of a transfer, and has this response code, which isn't NOERROR (RFC 1035, 4.1.1).
    #[error("the primary refused the request")]
    Response(Rcode),
    /// The source ended within a frame.
    #[error("the stream ended within a message")]
    Cut,
    /// A further reply would pass a limit. It was read, and nothing of it was taken.
    #[error("the replies pass a limit")]
    Limit(Limit),
    /// A reply adds a record to a set that has as many as the limits allow. It wasn't added; what the updates before it committed stays.
    #[error("a set has too many records")]
    FullSet,
    /// The source failed, and its count of faults rose.
    #[error("reading failed")]
    SourceFault,
    /// The sink failed, and its count of faults rose. It may have taken a first part of the request's frame.
    #[error("writing failed")]
    SinkFault,
}

impl AskError {
    /// The error of a transfer over a link that this is.
    pub fn to_sync_error(self) -> SyncError
        ensures { result ≡ sync_error self }
    {
        match self {
            AskError::Transfer(error) => error,
            AskError::Response(_) => SyncError::Xfr(protocol::Error::NotValidXfrResponse),
            AskError::Cut | AskError::Limit(_) => SyncError::Ended,
            AskError::FullSet => SyncError::Memory,
            AskError::SourceFault | AskError::SinkFault => SyncError::LinkFault,
        }
    }
}

impl From<SyncError> for AskError {
    ghost use Rattle.std.specs.Prelude.{◌≡◌};
    ghost use Rattle.zone_asking.specs.declared.errors.AskError.{AskError};

    ghost from_gives = { λ s e. e ≡ AskError.Transfer s };

    fn from(error: SyncError) -> AskError {
        AskError::Transfer(error)
    }
}

impl From<FrameError> for AskError {
    ghost use Rattle.std.specs.Prelude.{◌≡◌};
    ghost use Rattle.zone_asking.specs.Failures.{of_frame};

    ghost from_gives = { λ f e. e ≡ of_frame f };

    fn from(error: FrameError) -> AskError {
        match error {
            FrameError::Cut => AskError::Cut,
            FrameError::Fault => AskError::SourceFault,
            FrameError::Memory => AskError::Transfer(SyncError::Memory),
        }
    }
}

impl From<Limit> for AskError {
    ghost use Rattle.std.specs.Prelude.{◌≡◌};
    ghost use Rattle.zone_asking.specs.declared.errors.AskError.{AskError};

    ghost from_gives = { λ l e. e ≡ AskError.Limit l };

    fn from(limit: Limit) -> AskError {
        AskError::Limit(limit)
    }
}

/// The error of a reply that was refused: one that is none of a transfer is told by its response code, where it has one.
pub(crate) fn refusal(error: SyncError, code: Rcode) -> AskError
    ensures { result ≡ told_by error code }
{
    match error {
        SyncError::Xfr(protocol::Error::NotValidXfrResponse) => {
            if code == Rcode::NOERROR {
                AskError::Transfer(error)
            } else {
                AskError::Response(code)
            }
        }
        _ => AskError::Transfer(error),
    }
}
