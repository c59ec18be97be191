// Zone cuts with records of their own.
ghost use Rattle.std.specs.Prelude.{◌≡◌, IfOk, Some, option_copied, flat_map};
ghost use Rattle.dns_name.specs.Names.{fold};
ghost use Rattle.zone_model.specs.Answer.{addresses_of};
ghost use Rattle.zone_reads.specs.Parts.{cut_of_sets, parts_of_cut};

use crate::owning::{own_option, own_records, own_set};
use crate::sections::AnswerRecords;
use dns_name::{KeyName, Labelled};
use dns_rdata::StoredRecord;
use std::alloc::{AllocError, Global};
use zone_values::{Rrset, SharedRrset, ZoneCut};
use zone_versions::ZoneVersion;

/// The zone cut of these RRsets, with the addresses of its servers that are in the zone.
pub(crate) fn own_cut(
    alloc: Global,
    version: &ZoneVersion,
    name: &KeyName,
    ns: &Rrset,
    ds: Option<&Rrset>,
) -> Result<ZoneCut, AllocError>
    ensures { IfOk result (λ c. parts_of_cut c ≡ cut_of_sets version.now name.now ns.now (option_copied ds.entry)) }
{
    let mut addresses = AnswerRecords::of_servers(version, ns.data());
    let glue = own_records(alloc, &mut addresses)?;
    match own_set(alloc, ns) {
        Ok(ns) => cut_with_signer(alloc, name, ns, ds, glue),
        Err(error) => {
            drop(glue);
            Err(error)
        }
    }
}

/// The zone cut of an NS RRset and glue of its own, and a DS RRset.
fn cut_with_signer(
    alloc: Global,
    name: &KeyName,
    ns: SharedRrset,
    ds: Option<&Rrset>,
    glue: Vec<StoredRecord>,
) -> Result<ZoneCut, AllocError>
    ensures { IfOk result (λ c. parts_of_cut c ≡ record { name = fold name.now; ns = ns; ds = option_copied ds.entry; glue = glue.items }) }
{
    match own_option(alloc, ds) {
        Ok(ds) => cut_at_name(alloc, name, ns, ds, glue),
        Err(error) => {
            drop(glue);
            drop(ns);
            Err(error)
        }
    }
}

/// The zone cut of RRsets and glue of its own.
fn cut_at_name(
    alloc: Global,
    name: &KeyName,
    ns: SharedRrset,
    ds: Option<SharedRrset>,
    glue: Vec<StoredRecord>,
) -> Result<ZoneCut, AllocError>
    ensures { IfOk result (λ c. parts_of_cut c ≡ record { name = fold name.now; ns = ns; ds = ds; glue = glue.items }) }
{
    match name.to_canonical().store(alloc) {
        Ok(name) => Ok(ZoneCut { name, ns, ds, glue }),
        Err(error) => {
            drop(glue);
            drop(ds);
            drop(ns);
            Err(error)
        }
    }
}
