// The refusals of keys, algorithms and sources of keys.
use std::alloc::AllocError;
use thiserror::Error;

/// Lengths that a key may not have (RFC 8945, 5.2.2.1).
#[derive(Clone, Copy, Debug, PartialEq, Eq, Error)]
pub enum NewKeyError {
    #[error("minimum signature length out of bounds")]
    BadMinMacLen,
    #[error("created signature length out of bounds")]
    BadSigningLen,
}

/// A text that names no algorithm (RFC 8945, 6).
#[derive(Clone, Copy, Debug, PartialEq, Eq, Error)]
#[error("invalid algorithm")]
pub struct AlgorithmError;

/// A call of a source of octets that failed; its count of faults rose.
#[derive(Clone, Copy, Debug, PartialEq, Eq)]
pub struct FillError;

/// Why no key was made of a source's octets: a length that a key may not have (RFC 8945, 5.2.2.1), the source, or want of memory.
#[derive(Clone, Copy, Debug, PartialEq, Eq, Error)]
pub enum GenerateKeyError {
    #[error("minimum signature length out of bounds")]
    BadMinMacLen,
    #[error("created signature length out of bounds")]
    BadSigningLen,
    #[error("generating key failed")]
    GenerationFailed,
    #[error("out of memory")]
    Memory,
}

impl From<NewKeyError> for GenerateKeyError {
    ghost use Rattle.std.specs.Prelude.{◌≡◌};
    ghost use Rattle.tsig_keys.specs.KeySources.{length_refusal};

    ghost from_gives = { λ e f. f ≡ length_refusal e };

    fn from(error: NewKeyError) -> GenerateKeyError {
        match error {
            NewKeyError::BadMinMacLen => GenerateKeyError::BadMinMacLen,
            NewKeyError::BadSigningLen => GenerateKeyError::BadSigningLen,
        }
    }
}

impl From<FillError> for GenerateKeyError {
    ghost use Rattle.std.specs.Prelude.{◌≡◌};
    ghost use Rattle.tsig_keys.specs.declared.errors.GenerateKeyError.{GenerateKeyError};

    ghost from_gives = { λ e f. f ≡ GenerateKeyError.GenerationFailed };

    fn from(_error: FillError) -> GenerateKeyError {
        GenerateKeyError::GenerationFailed
    }
}

impl From<AllocError> for GenerateKeyError {
    ghost use Rattle.std.specs.Prelude.{◌≡◌};
    ghost use Rattle.tsig_keys.specs.declared.errors.GenerateKeyError.{GenerateKeyError};

    ghost from_gives = { λ e f. f ≡ GenerateKeyError.Memory };

    fn from(_error: AllocError) -> GenerateKeyError {
        GenerateKeyError::Memory
    }
}
