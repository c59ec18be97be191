//! Why a stream isn't served to its end.
ghost use Rattle.std.specs.Prelude.{◌≡◌};

use dns_wire::ShortMessage;
use message_frames::reading::FrameError;
use message_frames::writing::WriteFrameError;
use thiserror::Error;
use xfr_services::ServiceError;

/// Why a stream of requests wasn't served to its end. Each request before the one at hand was answered whole.
#[derive(Clone, Copy, Debug, PartialEq, Eq, Error)]
pub enum ServeError {
    /// The stream ended within a frame. Nothing answers the beginning of a request.
    #[error("the stream ends within a request")]
    Cut,
    /// The source failed, and its count of faults rose.
    #[error("reading failed")]
    SourceFault,
    /// The sink failed, and its count of faults rose. It may have taken a first part of the replies to the last request.
    #[error("writing failed")]
    SinkFault,
    /// A request has fewer than 12 octets, so no id that a reply could have (RFC 1035, 4.1.1). What sends that speaks no DNS, and the stream isn't
    /// read on (RFC 7766, 6.2.4).
    #[error("a request is too short")]
    Short,
    /// The service can't make a further reply to the last request, since none of at most 65,535 octets says it. Those before it were written.
    #[error("the reply can't be made")]
    NoReply,
    /// 18,446,744,073,709,551,615 requests were answered, and the end didn't come.
    #[error("too many requests")]
    TooMany,
    /// Memory ran out.
    #[error("out of memory")]
    Memory,
}

impl From<FrameError> for ServeError {
    ghost use Rattle.std.specs.Prelude.{◌≡◌};
    ghost use Rattle.zone_serving.specs.Refusals.{of_frame};

    ghost from_gives = { λ f e. e ≡ of_frame f };

    fn from(error: FrameError) -> ServeError {
        match error {
            FrameError::Cut => ServeError::Cut,
            FrameError::Fault => ServeError::SourceFault,
            FrameError::Memory => ServeError::Memory,
        }
    }
}

impl From<WriteFrameError> for ServeError {
    ghost use Rattle.std.specs.Prelude.{◌≡◌};
    ghost use Rattle.zone_serving.specs.Refusals.{of_written};

    ghost from_gives = { λ w e. e ≡ of_written w };

    fn from(error: WriteFrameError) -> ServeError {
        match error {
            WriteFrameError::TooLong => ServeError::NoReply,
            WriteFrameError::Fault => ServeError::SinkFault,
        }
    }
}

impl From<ServiceError> for ServeError {
    ghost use Rattle.std.specs.Prelude.{◌≡◌};
    ghost use Rattle.zone_serving.specs.Refusals.{of_service};

    ghost from_gives = { λ s e. e ≡ of_service s };

    fn from(error: ServiceError) -> ServeError {
        match error {
            ServiceError::InternalError => ServeError::NoReply,
            ServiceError::Memory => ServeError::Memory,
        }
    }
}

impl From<ShortMessage> for ServeError {
    ghost use Rattle.std.specs.Prelude.{◌≡◌};
    ghost use Rattle.zone_serving.specs.declared.errors.ServeError.{ServeError};

    ghost from_gives = { λ _ e. e ≡ ServeError.Short };

    fn from(_error: ShortMessage) -> ServeError {
        ServeError::Short
    }
}
