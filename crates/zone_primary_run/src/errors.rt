//! Why a primary's run doesn't end well, and its exit status.
ghost use Rattle.std.specs.Prelude.{◌≡◌};
ghost use Rattle.zone_primary_run.specs.PrimaryStatuses.{exit_status, stream_status};

use std::alloc::AllocError;
use thiserror::Error;
use zone_devices::read_to_end::ReadError;
use zone_script::script::ScriptError;
use zone_serving::{ServeError, Served};

/// Why a primary's run didn't end well.
#[derive(Clone, Copy, Debug, PartialEq, Eq, Error)]
pub enum PrimaryError {
    /// The words aren't one, the name of the script's file. Nothing was read or served, as with the next two.
    #[error("usage: zone_peer primary SCRIPT")]
    Words,
    /// The script's file can't be opened.
    #[error("the script can't be opened")]
    NotOpened,
    /// The moment isn't known.
    #[error("the clock can't be read")]
    Clock,
    /// The script's source failed, and its count of faults rose. Nothing was served.
    #[error("reading the script failed")]
    ScriptFault,
    /// The script has more than 16,777,216 octets. Nothing was served.
    #[error("the script is too long")]
    ScriptTooLong,
    /// The script's line of this number, counted from 1, isn't read or is refused. Nothing was served.
    #[error("line {0}")]
    Line(u64),
    /// The stream wasn't served to its end.
    #[error("{0}")]
    Stream(ServeError),
    /// Memory ran out.
    #[error("out of memory")]
    Memory,
}

impl From<AllocError> for PrimaryError {
    ghost use Rattle.std.specs.Prelude.{◌≡◌};
    ghost use Rattle.zone_primary_run.specs.declared.errors.PrimaryError.{PrimaryError};

    ghost from_gives = { λ _ e. e ≡ PrimaryError.Memory };

    fn from(_error: AllocError) -> PrimaryError {
        PrimaryError::Memory
    }
}

impl From<ReadError> for PrimaryError {
    ghost use Rattle.std.specs.Prelude.{◌≡◌};
    ghost use Rattle.zone_primary_run.specs.PrimaryStatuses.{of_read};

    ghost from_gives = { λ r e. e ≡ of_read r };

    fn from(error: ReadError) -> PrimaryError {
        match error {
            ReadError::Failed => PrimaryError::ScriptFault,
            ReadError::TooLong => PrimaryError::ScriptTooLong,
            ReadError::Memory => PrimaryError::Memory,
        }
    }
}

impl From<ScriptError> for PrimaryError {
    ghost use Rattle.std.specs.Prelude.{◌≡◌};
    ghost use Rattle.zone_primary_run.specs.PrimaryStatuses.{of_script};

    ghost from_gives = { λ s e. e ≡ of_script s };

    fn from(error: ScriptError) -> PrimaryError {
        match error {
            ScriptError::Line(number) => PrimaryError::Line(number),
            ScriptError::Memory => PrimaryError::Memory,
        }
    }
}

impl From<ServeError> for PrimaryError {
    ghost use Rattle.std.specs.Prelude.{◌≡◌};
    ghost use Rattle.zone_primary_run.specs.PrimaryStatuses.{of_serve};

    ghost from_gives = { λ s e. e ≡ of_serve s };

    fn from(error: ServeError) -> PrimaryError {
        match error {
            ServeError::Memory => PrimaryError::Memory,
            ServeError::Cut => PrimaryError::Stream(ServeError::Cut),
            ServeError::SourceFault => PrimaryError::Stream(ServeError::SourceFault),
            ServeError::SinkFault => PrimaryError::Stream(ServeError::SinkFault),
            ServeError::Short => PrimaryError::Stream(ServeError::Short),
            ServeError::NoReply => PrimaryError::Stream(ServeError::NoReply),
            ServeError::TooMany => PrimaryError::Stream(ServeError::TooMany),
        }
    }
}

/// The exit status of a run: 0 where the stream was served to its end, 1 where it is cut, has a request that is too short or can't be answered, or too
/// many; 2 for words that aren't one, 3 for a line of the script, 4 and 8 where the script can't be opened or read or is too long, 5 and 7 where the sink
/// or the source failed, 6 where memory ran out, 9 where the moment isn't known.
pub fn exit_status(ended: &Result<Served, PrimaryError>) -> u8
    ensures { result ≡ exit_status ended.now }
{
    match ended {
        Ok(_) => 0,
        Err(PrimaryError::Stream(error)) => stream_status(*error),
        Err(PrimaryError::Words) => 2,
        Err(PrimaryError::Line(_)) => 3,
        Err(PrimaryError::NotOpened | PrimaryError::ScriptFault) => 4,
        Err(PrimaryError::Memory) => 6,
        Err(PrimaryError::ScriptTooLong) => 8,
        Err(PrimaryError::Clock) => 9,
    }
}

/// The exit status where the stream wasn't served to its end.
fn stream_status(error: ServeError) -> u8
    ensures { result ≡ stream_status error }
{
    match error {
        ServeError::SinkFault => 5,
        ServeError::Memory => 6,
        ServeError::SourceFault => 7,
        ServeError::Cut | ServeError::Short | ServeError::NoReply | ServeError::TooMany => 1,
    }
}
