// A zone file from a list of records.
ghost use Rattle.std.specs.Prelude.{◌≡◌, [], ◌∷◌, Ok, Err, IfOk, IfErr, IfSome, OnOk};
ghost use Rattle.zone_records.specs.Parsed.{kept};
ghost use Rattle.zone_records.specs.Refusals.{read_one, read_all, unless_refused, opening_file, missing_soa, file_of};
ghost use Rattle.zone_records.specs.Causes.{errors_in};

use crate::errors::FileError;
use crate::zonefile::Zonefile;
use dns_name::{KeyName, Labelled, ToName};
use dns_numbers::Rtype;
use dns_rdata::StoredRecord;
use std::alloc::{AllocError, Global};
use zone_values::{RecordError, ZoneErrors};

impl Zonefile {
    /// The zone file of some records, the first of which is the SOA record of its apex: that gives the origin and the class. Where it is another, or
    /// there is none, `MissingSoa` is all that is told, under its owner or the root. Else each record that is refused is told in order under its
    /// owner, as `insert` refuses it.
    #[tactic(auto, using(crate::proofs::ReadRecords::begun_ok, crate::proofs::ReadRecords::begun_refused, crate::proofs::ReadRecords::begun_kept, crate::proofs::ReadRecords::not_begun))]
    pub fn from_records(
        alloc: Global,
        records: Vec<StoredRecord>,
    ) -> Result<Zonefile, FileError<RecordError>>
        ensures ok { IfOk result (λ z. file_of records.items ≡ Ok z) }
        ensures refused { IfErr result (λ e. IfSome (errors_in e) (λ errors. file_of records.items ≡ Err errors)) }
        ensures kept { IfOk result (λ z. z ≡ kept (record { apex = z.origin; class = z.class; accepted = records.items })) }
    {
        match opening_file(alloc, &records)? {
            Some(file) => file.read(alloc, records),
            None => Err(FileError::Errors(missing_soa(alloc, &records)?)),
        }
    }

    /// The zone file with some records, unless one of them is refused.
    fn read(
        mut self,
        alloc: Global,
        records: Vec<StoredRecord>,
    ) -> Result<Zonefile, FileError<RecordError>>
        ensures ok { IfOk result (λ z. unless_refused (read_all (self, []) records.items) ≡ Ok z) }
        ensures refused { IfErr result (λ e. IfSome (errors_in e) (λ errors. unless_refused (read_all (self, []) records.items) ≡ Err errors)) }
    {
        let mut errors = ZoneErrors::new(alloc);
        match self.insert_all(records, &mut errors) {
            Ok(()) => self.unless_refused(errors),
            Err(error) => {
                drop(self);
                drop(errors);
                Err(FileError::from(error))
            }
        }
    }

    /// The zone file, unless records were refused.
    #[tactic(auto, using(crate::proofs::ReadRecords::all_taken, crate::proofs::ReadRecords::some_refused))]
    fn unless_refused(
        self,
        errors: ZoneErrors<RecordError>,
    ) -> Result<Zonefile, FileError<RecordError>>
        ensures ok { IfOk result (λ z. unless_refused (self, errors) ≡ Ok z) }
        ensures refused { IfErr result (λ e. IfSome (errors_in e) (λ found. unless_refused (self, errors) ≡ Err found)) }
    {
        match errors.unwrap() {
            Ok(()) => Ok(self),
            Err(refused) => {
                drop(self);
                Err(FileError::Errors(refused))
            }
        }
    }

    /// Takes records in turn, and adds the refusals of the others.
    fn insert_all(
        &mut self,
        records: Vec<StoredRecord>,
        errors: &mut ZoneErrors<RecordError>,
    ) -> Result<(), AllocError>
        ensures { OnOk result ((self.new, errors.new) ≡ read_all (self.old, errors.old) records.items) }
    {
        for found in records {
            self.insert_or_note(found, errors)?;
        }
        Ok(())
    }

    /// Takes a record, or adds its refusal.
    #[tactic(auto, using(crate::proofs::ReadRecords::read_taken, crate::proofs::ReadRecords::read_refused))]
    fn insert_or_note(
        &mut self,
        found: StoredRecord,
        errors: &mut ZoneErrors<RecordError>,
    ) -> Result<(), AllocError>
        ensures { OnOk result ((self.new, errors.new) ≡ read_one (self.old, errors.old) found) }
    {
        let class = self.class();
        match self.verdict(&found) {
            Ok(kind) => {
                self.put(kind, found)?;
                Ok(())
            }
            Err(obstacle) => {
                let owner = found.owner().to_key_name();
                errors.add_error(&owner, obstacle.refusal(found, class))?;
                Ok(())
            }
        }
    }
}

/// The zone file that the first of some records begins, if it is an SOA record.
fn opening_file(alloc: Global, records: &[StoredRecord]) -> Result<Option<Zonefile>, AllocError>
    ensures { IfOk result (λ o. o ≡ opening_file records.now) }
{
    match records.first() {
        Some(first) => {
            if first.rtype() != Rtype::SOA {
                return Ok(None);
            }
            let origin = first.owner().clone()?;
            Ok(Some(Zonefile::new(alloc, origin, first.class())))
        }
        None => Ok(None),
    }
}

/// The refusal of records that begin with no SOA record.
fn missing_soa(
    alloc: Global,
    records: &[StoredRecord],
) -> Result<ZoneErrors<RecordError>, AllocError>
    ensures { IfOk result (λ errors. errors ≡ missing_soa records.now) }
{
    match records.first() {
        Some(first) => {
            let found = first.clone()?;
            one_error(alloc, first.owner(), RecordError::MissingSoa(Some(found)))
        }
        None => one_error(alloc, &KeyName::root(), RecordError::MissingSoa(None)),
    }
}

/// A list of one refusal.
fn one_error<N: ToName>(
    alloc: Global,
    name: &N,
    error: RecordError,
) -> Result<ZoneErrors<RecordError>, AllocError>
    ensures { IfOk result (λ errors. errors ≡ (N.labels name.now, error) ∷ []) }
{
    let mut errors = ZoneErrors::new(alloc);
    errors.add_error(name, error)?;
    Ok(errors)
}
