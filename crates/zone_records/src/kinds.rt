// The kinds of records, and what is in the way of one.
ghost use Rattle.std.specs.Prelude.{◌≡◌};
ghost use Rattle.zone_records.specs.Seen.{why_seen};
ghost use Rattle.zone_records.specs.Refusals.{error_of};

use dns_numbers::{Class, Rtype};
use dns_rdata::StoredRecord;
use zone_values::RecordError;

/// What a record is by its owner and type (RFC 1034, 4.2.1).
#[derive(Clone, Copy, Debug, Drop)]
pub(crate) enum RecordKind {
    Normal,
    Cut,
    Alias,
    Outside,
}

/// Why a record is refused, with the type that is in its way.
#[derive(Clone, Copy, Debug, Drop)]
pub(crate) enum Obstacle {
    ClassMismatch,
    IllegalZoneCut(Rtype),
    IllegalRecord(Rtype),
    IllegalCname(Rtype),
    MultipleCnames,
}

impl Obstacle {
    /// The refusal of a record by a zone file of this class.
    pub(crate) fn refusal(self, found: StoredRecord, class: Class) -> RecordError
        ensures { result ≡ error_of (why_seen self) found class }
    {
        match self {
            Obstacle::ClassMismatch => RecordError::ClassMismatch(found, class),
            Obstacle::IllegalZoneCut(rtype) => RecordError::IllegalZoneCut(found, rtype),
            Obstacle::IllegalRecord(rtype) => RecordError::IllegalRecord(found, rtype),
            Obstacle::IllegalCname(rtype) => RecordError::IllegalCname(found, rtype),
            Obstacle::MultipleCnames => RecordError::MultipleCnames(found),
        }
    }
}
