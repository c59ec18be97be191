//! The messages of a source.
ghost use Rattle.std.specs.Prelude.{◌≡◌, ◌≢◌, ◌<◌, ◌≤◌, [], length, take, IfOk, IfSome, OnOk, OnErr, Ok, Err, Some, None};
ghost use Rattle.std.specs.Int.{w16, from_be_bytes};
ghost use Rattle.zone_devices.specs.Calls.{Rose};
ghost use Rattle.zone_devices.specs.Streams.{with_first};
ghost use Rattle.message_frames.specs.Passing.{Gives, IsCutOff, TakesAtMost, TakesWithinFrame};

use std::alloc::{AllocError, Global};
use thiserror::Error;
use zone_devices::sources::{Failed, Source};

/// Why there is no further message.
#[derive(Clone, Copy, Debug, PartialEq, Eq, Error)]
pub enum FrameError {
    /// The source ended within a frame: after one octet of a length, or before all octets of a message.
    #[error("the octets end within a message")]
    Cut,
    /// The source failed, and its count of faults rose.
    #[error("reading failed")]
    Fault,
    /// There was no memory for the message.
    #[error("out of memory")]
    Memory,
}

impl From<Failed> for FrameError {
    ghost use Rattle.std.specs.Prelude.{◌≡◌};
    ghost use Rattle.message_frames.specs.declared.reading.FrameError.{FrameError};

    ghost from_gives = { λ _ e. e ≡ FrameError.Fault };

    fn from(_error: Failed) -> FrameError {
        FrameError::Fault
    }
}

impl From<AllocError> for FrameError {
    ghost use Rattle.std.specs.Prelude.{◌≡◌};
    ghost use Rattle.message_frames.specs.declared.reading.FrameError.{FrameError};

    ghost from_gives = { λ _ e. e ≡ FrameError.Memory };

    fn from(_error: AllocError) -> FrameError {
        FrameError::Memory
    }
}

/// Reads until the buffer is full or the source at its end, and says how many octets were read.
fn fill<S: Source>(src: &mut S, buf: &mut [u8]) -> Result<usize, Failed>
    ensures size { length buf.new ≡ length buf.old }
    ensures within { IfOk result (λ n. n ≤ length buf.old) }
    ensures octets { IfOk result (λ n. with_first (take n buf.new) (S.remaining src.new) ≡ S.remaining src.old) }
    ensures end { IfOk result (λ n. n < length buf.old → IfSome (S.remaining src.new) (λ left. left ≡ [])) }
    ensures most { TakesAtMost (length buf.old) (S.remaining src.old) (S.remaining src.new) }
    ensures failed { OnErr result (Rose (S.faults src.old) (S.faults src.new)) }
    ensures steady { OnOk result (S.faults src.new ≡ S.faults src.old) }
{
    let mut done = 0;
    'filling: while done < buf.len() {
        let count = src.read(&mut buf[done..])?;
        if count == 0 {
            return Ok(done);
        }
        done += count;
    }
    Ok(done)
}

/// The number that two octets spell, the high one first.
fn length_in(head: [u8; 2]) -> usize
    ensures number { result ≡ from_be_bytes w16 head }
    ensures most { result ≤ 65535 }
{
    usize::from(u16::from_be_bytes(head))
}

/// Just so many octets.
fn read_octets<S: Source>(alloc: Global, src: &mut S, count: usize) -> Result<Vec<u8>, FrameError>
    ensures size { IfOk result (λ v. length v.items ≡ count) }
    ensures octets { IfOk result (λ v. with_first v.items (S.remaining src.new) ≡ S.remaining src.old) }
    ensures cut { result ≡ Err FrameError.Cut → IfSome (S.remaining src.old) (λ left. length left < count) }
    ensures ended { result ≡ Err FrameError.Cut → IfSome (S.remaining src.new) (λ left. left ≡ []) }
    ensures most { TakesAtMost count (S.remaining src.old) (S.remaining src.new) }
    ensures failed { result ≡ Err FrameError.Fault → Rose (S.faults src.old) (S.faults src.new) }
    ensures steady { result ≢ Err FrameError.Fault → S.faults src.new ≡ S.faults src.old }
{
    let mut octets = Vec::new(alloc);
    octets.resize(count, 0)?;
    let read = fill(src, octets.as_mut_slice())?;
    if read < count {
        return Err(FrameError::Cut);
    }
    Ok(octets)
}

/// The next message of a source, whose length stands before it in two octets, the high one first (RFC 1035, 4.2.2). None where the
/// source is at its end. Just the frame is taken of the source, at most 65,537 octets, and nothing behind it where there is an error.
pub fn read_frame<S: Source>(alloc: Global, src: &mut S) -> Result<Option<Vec<u8>>, FrameError>
    ensures message { IfOk result (λ found. IfSome found (λ m. Gives m.items (S.remaining src.old) (S.remaining src.new))) }
    ensures none { result ≡ Ok None → IfSome (S.remaining src.old) (λ left. left ≡ []) }
    ensures cut { result ≡ Err FrameError.Cut → IfSome (S.remaining src.old) IsCutOff }
    ensures ended { result ≡ Err FrameError.Cut → IfSome (S.remaining src.new) (λ left. left ≡ []) }
    ensures most { TakesAtMost 65537 (S.remaining src.old) (S.remaining src.new) }
    ensures within { TakesWithinFrame (S.remaining src.old) (S.remaining src.new) }
    ensures failed { result ≡ Err FrameError.Fault → Rose (S.faults src.old) (S.faults src.new) }
    ensures steady { result ≢ Err FrameError.Fault → S.faults src.new ≡ S.faults src.old }
    // Want of memory hides neither the end nor one within a length; a message's octets may be cut off, or fail, behind it.
    ensures memory { result ≡ Err FrameError.Memory → IfSome (S.remaining src.old) (λ left. 2 ≤ length left) }
{
    let mut head = [0u8; 2];
    let read = fill(src, &mut head)?;
    if read == 0 {
        return Ok(None);
    }
    if read < 2 {
        return Err(FrameError::Cut);
    }
    let count = length_in(head);
    let message = read_octets(alloc, src, count)?;
    Ok(Some(message))
}
