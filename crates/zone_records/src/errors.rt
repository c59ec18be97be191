// Why records make no zone file.
use std::alloc::AllocError;
use std::fmt;
use thiserror::Error;
use zone_values::ZoneErrors;

/// Why records make no zone file.
#[derive(Drop, Error)]
#[error_bound(T: fmt::Display)]
pub enum FileError<T: Drop> {
    /// All that is refused of them, in order.
    #[error("{0}")]
    Errors(ZoneErrors<T>),
    #[error("out of memory")]
    Memory,
}

impl<T: Drop> From<AllocError> for FileError<T> {
    ghost use Rattle.std.specs.Prelude.{◌≡◌};
    ghost use Rattle.zone_records.specs.declared.errors.FileError.{FileError};

    ghost from_gives = { λ e f. f ≡ FileError.Memory };

    fn from(_error: AllocError) -> FileError<T> {
        FileError::Memory
    }
}

impl<T: fmt::Display + Drop> fmt::Debug for FileError<T> {
    /// `FileError(TEXT)`, the text as printed.
    fn fmt<W: fmt::Write>(&self, f: &mut fmt::Formatter<W>) -> fmt::Result {
        write!(f, "FileError({self})")
    }
}
