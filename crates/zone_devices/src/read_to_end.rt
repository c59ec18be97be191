//! All octets of a source, up to a bound.
ghost use Rattle.std.specs.Prelude.{◌≡◌, ◌≢◌, ◌<◌, ◌≤◌, length, IfOk, IfSome, OnOk, Some, None};
ghost use Rattle.zone_devices.specs.Calls.{Rose};
ghost use Rattle.zone_devices.specs.Streams.{with_first, emptied};

use crate::sources::{Failed, Source};
use std::alloc::{AllocError, Global};

/// How many octets are read at most.
pub const MOST_OCTETS: usize = 16_777_216;

/// Why a source wasn't read to its end.
#[derive(Clone, Copy, Debug, PartialEq, Eq)]
pub enum ReadError {
    /// The source failed, and its count of faults rose.
    Failed,
    /// It has more than 16,777,216 octets.
    TooLong,
    /// There was no memory for its octets.
    Memory,
}

impl From<Failed> for ReadError {
    ghost use Rattle.std.specs.Prelude.{◌≡◌};
    ghost use Rattle.zone_devices.specs.declared.read_to_end.ReadError.{ReadError};

    ghost from_gives = { λ _ e. e ≡ ReadError.Failed };

    fn from(_error: Failed) -> ReadError {
        ReadError::Failed
    }
}

impl From<AllocError> for ReadError {
    ghost use Rattle.std.specs.Prelude.{◌≡◌};
    ghost use Rattle.zone_devices.specs.declared.read_to_end.ReadError.{ReadError};

    ghost from_gives = { λ _ e. e ≡ ReadError.Memory };

    fn from(_error: AllocError) -> ReadError {
        ReadError::Memory
    }
}

/// Reads a source to its end.
pub fn read_whole<S: Source>(alloc: Global, src: &mut S) -> Result<Vec<u8>, ReadError>
    ensures all { IfOk result (λ v. IfSome (S.remaining src.old) (λ left. v.items ≡ left)) }
    ensures none_left { OnOk result (S.remaining src.new ≡ emptied (S.remaining src.old)) }
    ensures bounded { IfOk result (λ v. length v.items ≤ MOST_OCTETS) }
    ensures long { result ≡ Err ReadError.TooLong → IfSome (S.remaining src.old) (λ left. MOST_OCTETS < length left) }
    ensures failed { result ≡ Err ReadError.Failed → Rose (S.faults src.old) (S.faults src.new) }
    ensures steady { result ≢ Err ReadError.Failed → S.faults src.new ≡ S.faults src.old }
{
    let mut octets = Vec::new(alloc);
    let mut piece = [0u8; 4096];
    'reading: while octets.len() <= MOST_OCTETS {
        let count = src.read(&mut piece)?;
        if count == 0 {
            return Ok(octets);
        }
        octets.extend_from_slice(&piece[..count])?;
    }
    Err(ReadError::TooLong)
}
