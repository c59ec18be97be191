//! A zone as its opening records are read.
ghost use Rattle.std.specs.Prelude.{◌≡◌, Ok, Err, IfOk, IfErr, IfSome, OnOk, Some, None};
ghost use Rattle.zone_script.specs.Keeping as keeping;
ghost use Rattle.zone_script.specs.Causes.{line_in, cause_of};

use crate::script::ScriptError;
use dns_name::StoredName;
use dns_numbers::Class;
use dns_rdata::StoredRecord;
use std::alloc::Global;
use zone_reads::ReadZone;
use zone_records::{FileError, Zonefile};
use zone_sessions::ZoneBuilder;
use zone_values::RecordError;

/// A zone as its opening records are read.
#[derive(Drop)]
pub(crate) struct OpeningZone {
    file: Zonefile,
    last_line: u64,
}

impl OpeningZone {
    /// A zone without records.
    pub(crate) fn new(alloc: Global, apex: StoredName, class: Class) -> OpeningZone
        ensures { result ≡ keeping.empty_zone apex class }
    {
        OpeningZone {
            file: Zonefile::new(alloc, apex, class),
            last_line: 0,
        }
    }

    /// Takes the record of a line, unless it is of another class or can't stand beside those before it (RFC 1034, 4.2.1; RFC 2181, 10.1).
    pub(crate) fn take(&mut self, found: StoredRecord, number: u64) -> Result<(), ScriptError>
        ensures ok { OnOk result (keeping.take_record self.old number found ≡ Ok self.new) }
        ensures bad { IfErr result (λ e. IfSome (line_in e) (λ n. keeping.take_record self.old number found ≡ Err n)) }
    {
        match self.file.insert(found) {
            Ok(()) => {
                self.last_line = number;
                Ok(())
            }
            Err(refused) => {
                let cause = cause_of(number, &refused);
                drop(refused);
                Err(cause)
            }
        }
    }

    /// The class.
    pub(crate) fn class(&self) -> Class
        ensures { result ≡ self.now.file.class }
    {
        self.file.class()
    }

    /// The version of these records, numbered 0; the line of the last one, where they make no zone.
    pub(crate) fn build(self) -> Result<ReadZone, ScriptError>
        ensures ok { IfOk result (λ z. (z ≡ keeping.commit_of self) × (keeping.refusal self ≡ None)) }
        ensures bad { IfErr result (λ e. IfSome (line_in e) (λ n. keeping.refusal self ≡ Some n)) }
    {
        let number = self.last_line;
        match ZoneBuilder::try_from(self.file) {
            Ok(builder) => Ok(builder.into_read(0)?),
            Err(FileError::Memory) => Err(ScriptError::Memory),
            Err(FileError::Errors(faults)) => {
                drop(faults);
                Err(ScriptError::Line(number))
            }
        }
    }
}

/// What the refusal of a line's record says of the script: its line, but want of memory stays that.
fn cause_of(number: u64, refused: &RecordError) -> ScriptError
    ensures { result ≡ cause_of number refused.now }
{
    match refused {
        RecordError::Memory => ScriptError::Memory,
        _ => ScriptError::Line(number),
    }
}
