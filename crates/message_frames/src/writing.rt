//! Messages into a sink.
ghost use Rattle.std.specs.Prelude.{◌≡◌, ◌≢◌, ◌<◌, ◌↔◌, ℕ, length, take, OnOk, Err};
ghost use Rattle.zone_devices.specs.Calls.{Rose};
ghost use Rattle.zone_devices.specs.Streams.{with_more};
ghost use Rattle.message_frames.specs.Frames.{frame_of};

use thiserror::Error;
use zone_devices::sinks::{Sink, write_all};
use zone_devices::sources::Failed;

/// How many octets a message has at most: as many as two octets can say.
pub const MOST_OCTETS: usize = 65_535;

/// Why a message wasn't written.
#[derive(Clone, Copy, Debug, PartialEq, Eq, Error)]
pub enum WriteFrameError {
    /// It has more than 65,535 octets. Nothing was written.
    #[error("the message has more than 65535 octets")]
    TooLong,
    /// The sink failed, and its count of faults rose. A first part of the frame may have been written.
    #[error("writing failed")]
    Fault,
}

impl From<Failed> for WriteFrameError {
    ghost use Rattle.std.specs.Prelude.{◌≡◌};
    ghost use Rattle.message_frames.specs.declared.writing.WriteFrameError.{WriteFrameError};

    ghost from_gives = { λ _ e. e ≡ WriteFrameError.Fault };

    fn from(_error: Failed) -> WriteFrameError {
        WriteFrameError::Fault
    }
}

/// Writes a message as a frame: its length in two octets, the high one first, and then the message (RFC 1035, 4.2.2). After a fault
/// some first part of the frame was taken.
pub fn write_frame<K: Sink>(out: &mut K, message: &[u8]) -> Result<(), WriteFrameError>
    ensures ok { OnOk result (K.taken out.new ≡ with_more (frame_of message.now) (K.taken out.old)) }
    ensures part { (n : ℕ) × (K.taken out.new ≡ with_more (take n (frame_of message.now)) (K.taken out.old)) }
    ensures long { MOST_OCTETS < length message.now ↔ result ≡ Err WriteFrameError.TooLong }
    ensures untouched { result ≡ Err WriteFrameError.TooLong → out.new ≡ out.old }
    ensures failed { result ≡ Err WriteFrameError.Fault → Rose (K.faults out.old) (K.faults out.new) }
    ensures steady { result ≢ Err WriteFrameError.Fault → K.faults out.new ≡ K.faults out.old }
{
    if message.len() > MOST_OCTETS {
        return Err(WriteFrameError::TooLong);
    }
    let head = (message.len() as u16).to_be_bytes();
    write_all(out, &head)?;
    write_all(out, message)?;
    Ok(())
}
