// Records of a section with memory of their own.
ghost use Rattle.std.specs.Prelude.{◌≡◌, IfOk, option_copied};

use crate::records::AnswerRecord;
use crate::sections::AnswerRecords;
use dns_name::Labelled;
use dns_rdata::{Record, StoredRecord};
use std::alloc::{AllocError, Global};
use zone_values::{Rrset, SharedRrset};

/// The records that are left of a section.
pub fn own_records(
    alloc: Global,
    records: &mut AnswerRecords<'_>,
) -> Result<Vec<StoredRecord>, AllocError>
    ensures { IfOk result (λ kept. kept.items ≡ records.old) }
{
    let mut kept = Vec::new(alloc);
    'records: while let Some(record) = records.next_record() {
        kept.push(own_record(alloc, &record)?)?;
    }
    Ok(kept)
}

/// The record with an owner and data of its own.
pub fn own_record(alloc: Global, lent: &AnswerRecord<'_>) -> Result<StoredRecord, AllocError>
    ensures { IfOk result (λ r. r ≡ lent.now) }
{
    let owner = lent.owner().to_stored(alloc)?;
    match (*lent.data()).clone() {
        Ok(rdata) => Ok(Record::new(owner, lent.class(), lent.ttl(), rdata)),
        Err(error) => {
            drop(owner);
            Err(error)
        }
    }
}

/// The set with records of its own, where there is a set.
pub fn own_option(alloc: Global, set: Option<&Rrset>) -> Result<Option<SharedRrset>, AllocError>
    ensures { IfOk result (λ s. s ≡ option_copied set.entry) }
{
    match set {
        Some(set) => Ok(Some(own_set(alloc, set)?)),
        None => Ok(None),
    }
}

/// The set with records of its own.
pub fn own_set(alloc: Global, set: &Rrset) -> Result<SharedRrset, AllocError>
    ensures { IfOk result (λ s. s ≡ set.now) }
{
    set.clone()?.into_shared(alloc)
}
