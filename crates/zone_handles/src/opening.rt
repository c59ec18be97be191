// A zone of a zone file's records.
ghost use Rattle.std.specs.Prelude.{◌≡◌, IfSome, IsSomeAnd};
ghost use Rattle.zone_values.specs.Invalid.{invalid_records};
ghost use Rattle.zone_records.specs.Causes.{errors_in};

use crate::zones::Zone;
use zone_records::{FileError, Zonefile};
use zone_sessions::{ZoneApex, ZoneBuilder};
use zone_values::{ContextError, RecordError};

/// A zone opens with the records of a zone file, its version numbered 0. Where they make no zone, what keeps them from it is told in the order of
/// `faults`, each as `InvalidRecord`. The file is gone either way.
impl TryFrom<Zonefile> for Zone<ZoneApex> {
    ghost use Rattle.std.specs.Prelude.{◌≡◌, ◌<◌, [], length, IfOk, IfErr, IfSome};
    ghost use Rattle.zone_model.specs.Edits.{close};
    ghost use Rattle.zone_values.specs.Invalid.{invalid_records};
    ghost use Rattle.zone_records.specs.Parsed.{version_of};
    ghost use Rattle.zone_records.specs.Faults.{faults};
    ghost use Rattle.zone_records.specs.Causes.{errors_in};

    type Error = FileError<RecordError>;

    ghost try_from_gives = { λ p r. IfOk r (λ z. (faults p ≡ []) × (z ≡ record { number = 0; version = close (version_of p) }))
        × IfErr r (λ e. IfSome (errors_in e) (λ errors. (errors ≡ invalid_records (faults p)) × (0 < length errors))) };

    fn try_from(file: Zonefile) -> Result<Zone<ZoneApex>, FileError<RecordError>> {
        match ZoneBuilder::try_from(file) {
            Ok(builder) => Ok(Zone::new(builder.build()?)),
            Err(error) => Err(invalid_file(error)),
        }
    }
}

/// What keeps records from making a zone, as refusals of records.
fn invalid_file(error: FileError<ContextError>) -> FileError<RecordError>
    ensures { IfSome (errors_in result) (λ errors. IsSomeAnd (errors_in error) (λ found. errors ≡ invalid_records found)) }
{
    match error {
        FileError::Errors(found) => match found.into_record_errors() {
            Ok(errors) => FileError::Errors(errors),
            Err(_) => FileError::Memory,
        },
        FileError::Memory => FileError::Memory,
    }
}
