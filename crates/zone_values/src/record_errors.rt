// Why a record, or a zone of records, is refused.
ghost use Rattle.std.specs.Prelude.{◌≡◌, option_copied};
ghost use Rattle.zone_values.specs.Owners.{owner_in};
ghost use Rattle.zone_values.specs.Texts.{soa_text};

use crate::errors::{CnameError, ZoneCutError};
use dns_name::StoredName;
use dns_numbers::{Class, Rtype};
use dns_rdata::StoredRecord;
use std::alloc::AllocError;
use std::fmt;
use thiserror::Error;

/// What is wrong with a zone of records, each of which was taken.
#[derive(Clone, Copy, Debug, PartialEq, Eq, Drop, Error)]
pub enum ContextError {
    /// A name below the apex has DS records and no NS records (RFC 4035, 2.4).
    #[error("Missing NS")]
    MissingNs,
    /// There is a zone cut where none can be.
    #[error("Invalid zone cut: {0}")]
    InvalidZonecut(ZoneCutError),
    /// There is a CNAME where none can be (RFC 1034, 3.6.2).
    #[error("Invalid CNAME: {0}")]
    InvalidCname(CnameError),
    /// A record of this type has an owner that is neither the apex nor below it.
    #[error("Out of zone: {0}")]
    OutOfZone(Rtype),
}

/// Why a record is refused beside those that were taken.
#[derive(Drop, Error)]
pub enum RecordError {
    /// The record's class isn't this one of the zone.
    #[error("The class of the record does not match the class {1} of the zone")]
    ClassMismatch(StoredRecord, Class),
    /// NS or DS below the apex, beside records of this type, which can't stand at a zone cut (RFC 1034, 4.2.1).
    #[error("Attempted to add zone cut records where non-zone cut records ({1}) already exist")]
    IllegalZoneCut(StoredRecord, Rtype),
    /// A record that can't stand beside records of this type: at a zone cut, or beside a CNAME.
    #[error("Attempted to add a normal record where a {1} record already exists")]
    IllegalRecord(StoredRecord, Rtype),
    /// A CNAME beside records of this type (RFC 1034, 3.6.2).
    #[error("Attempted to add a CNAME record where a {1} record already exists")]
    IllegalCname(StoredRecord, Rtype),
    /// A second CNAME of one name (RFC 2181, 10.1).
    #[error("Attempted to add a CNAME record a CNAME record already exists")]
    MultipleCnames(StoredRecord),
    /// The records were taken, and make no zone.
    #[error("The record is parseable but not valid: {0}")]
    InvalidRecord(ContextError),
    /// The first record isn't an SOA record, but this one; None where there is no record.
    #[error("{}", soa_text(.0))]
    MissingSoa(Option<StoredRecord>),
    /// The record would be taken if there were memory for it.
    #[error("out of memory")]
    Memory,
}

impl RecordError {
    /// The owner of the record that was refused, where it is known.
    pub fn owner(&self) -> Option<&StoredName>
        ensures { option_copied result ≡ owner_in self.now }
    {
        match self {
            RecordError::ClassMismatch(found, _) => Some(found.owner()),
            RecordError::IllegalZoneCut(found, _) => Some(found.owner()),
            RecordError::IllegalRecord(found, _) => Some(found.owner()),
            RecordError::IllegalCname(found, _) => Some(found.owner()),
            RecordError::MultipleCnames(found) => Some(found.owner()),
            RecordError::InvalidRecord(_) => None,
            RecordError::MissingSoa(found) => match found {
                Some(found) => Some(found.owner()),
                None => None,
            },
            RecordError::Memory => None,
        }
    }
}

impl From<AllocError> for RecordError {
    ghost use Rattle.std.specs.Prelude.{◌≡◌};
    ghost use Rattle.zone_values.specs.declared.record_errors.RecordError.{RecordError};

    ghost from_gives = { λ e f. f ≡ RecordError.Memory };

    fn from(_error: AllocError) -> RecordError {
        RecordError::Memory
    }
}

impl fmt::Debug for RecordError {
    /// `RecordError(TEXT)`, the text as printed.
    fn fmt<W: fmt::Write>(&self, f: &mut fmt::Formatter<W>) -> fmt::Result {
        write!(f, "RecordError({self})")
    }
}

/// What is said of a missing SOA record.
fn soa_text(found: &Option<StoredRecord>) -> &'static str
    ensures { result.now ≡ soa_text found.now }
{
    match found {
        Some(_) => "The SOA record was not found, found this record instead",
        None => "The SOA record was not found.",
    }
}
