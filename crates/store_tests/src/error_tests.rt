// What each error of zones says, the owners of refused records, and lists of refusals.

use crate::common::{HOST, address, is, name, says, shows};
use dns_numbers::{Class, Rtype};
use dns_rdata::StoredRecord;
use std::alloc::Global;
use std::process::Abort;
use zone_file::FileError;
use zone_store::{
    CommitError, EditError, HandleError, InsertError, NodeError, QueryError, UpdateError,
};
use zone_types::{
    CnameError, ContextError, OutOfZone, RecordError, WriteApexError, ZoneCutError, ZoneDiffError,
    ZoneErrors, ZoneTreeModificationError,
};

#[test]
fn texts_of_refused_edits(rt: HostRuntime) {
    let alloc = rt.alloc();
    let outside = "the owner isn't in the zone";
    let alias = "the name may not hold these data";
    let memory = "out of memory";
    says(&rt, alloc, &InsertError::OutOfZone, outside);
    says(&rt, alloc, &InsertError::InvalidData, alias);
    says(&rt, alloc, &InsertError::Memory, memory);
    says(&rt, alloc, &EditError::OutOfZone, outside);
    let unfit = "the data don't fit what the zone holds";
    says(&rt, alloc, &EditError::Incompatible, unfit);
    says(&rt, alloc, &EditError::InvalidData, alias);
    says(&rt, alloc, &EditError::Memory, memory);
    let last = "there is no further version number";
    says(&rt, alloc, &CommitError::VersionsExhausted, last);
    says(&rt, alloc, &CommitError::Memory, memory);
    let long = "the name has more than 255 octets";
    says(&rt, alloc, &UpdateError::LongName, long);
    says(&rt, alloc, &NodeError::NotAllowed, "operation not allowed");
    says(&rt, alloc, &NodeError::Memory, memory);
    says(&rt, alloc, &QueryError::OutOfZone, "Out of zone");
    says(&rt, alloc, &QueryError::Memory, memory);
    says(&rt, alloc, &HandleError::NoHandle, "no handle");
    says(&rt, alloc, &HandleError::OutOfZone, "Out of zone");
}

#[test]
fn texts_of_zones_that_are_none(rt: HostRuntime) {
    let alloc = rt.alloc();
    says(&rt, alloc, &OutOfZone, "Out of zone");
    let at_apex = ZoneCutError::ZoneCutAtApex;
    for (cut, wanted, within) in [
        (
            ZoneCutError::from(OutOfZone),
            "Out of zone",
            "Invalid zone cut: Out of zone",
        ),
        (
            at_apex,
            "Zone cut at apex",
            "Invalid zone cut: Zone cut at apex",
        ),
    ] {
        says(&rt, alloc, &cut, wanted);
        says(&rt, alloc, &ContextError::InvalidZonecut(cut), within);
    }
    let at_apex = CnameError::CnameAtApex;
    for (cname, wanted, within) in [
        (
            CnameError::from(OutOfZone),
            "Out of zone",
            "Invalid CNAME: Out of zone",
        ),
        (at_apex, "CNAME at apex", "Invalid CNAME: CNAME at apex"),
    ] {
        says(&rt, alloc, &cname, wanted);
        says(&rt, alloc, &ContextError::InvalidCname(cname), within);
    }
    says(&rt, alloc, &ContextError::MissingNs, "Missing NS");
    let outside = ContextError::OutOfZone(Rtype::MX);
    says(&rt, alloc, &outside, "Out of zone: MX");
    let denied = WriteApexError::NotAllowed;
    says(&rt, alloc, &denied, "operation not allowed");
    let there = ZoneTreeModificationError::ZoneExists;
    says(&rt, alloc, &there, "Zone already exists");
    let lacking = ZoneTreeModificationError::ZoneDoesNotExist;
    says(&rt, alloc, &lacking, "Zone does not exist");
    let start = ZoneDiffError::MissingStartSoa;
    says(&rt, alloc, &start, "MissingStartSoa");
    says(&rt, alloc, &ZoneDiffError::MissingEndSoa, "MissingEndSoa");
    let order = ZoneDiffError::InvalidSerialRange;
    says(&rt, alloc, &order, "InvalidSerialRange");
}

/// Asserts a refusal's text, and whether it is about a record.
fn refuses<R: Abort>(rt: &R, alloc: Global, refusal: RecordError, wanted: &str, owned: bool) {
    says(rt, alloc, &refusal, wanted);
    is(rt, refusal.owner().is_some(), owned);
    drop(refusal);
}

/// The record of an address at t.
fn host<R: Abort>(rt: &R, alloc: Global) -> StoredRecord {
    address(rt, alloc, HOST, 60, 1)
}

#[test]
fn texts_of_refused_records(rt: HostRuntime) {
    let alloc = rt.alloc();
    let refusal = RecordError::ClassMismatch(host(&rt, alloc), Class::IN);
    let text = "The class of the record does not match the class IN of the zone";
    refuses(&rt, alloc, refusal, text, true);
    let refusal = RecordError::IllegalZoneCut(host(&rt, alloc), Rtype::TXT);
    let text = "Attempted to add zone cut records where non-zone cut records (TXT) already exist";
    refuses(&rt, alloc, refusal, text, true);
    let refusal = RecordError::IllegalRecord(host(&rt, alloc), Rtype::DS);
    let text = "Attempted to add a normal record where a DS record already exists";
    refuses(&rt, alloc, refusal, text, true);
    let refusal = RecordError::IllegalCname(host(&rt, alloc), Rtype::A);
    let text = "Attempted to add a CNAME record where a A record already exists";
    refuses(&rt, alloc, refusal, text, true);
    let refusal = RecordError::MultipleCnames(host(&rt, alloc));
    let text = "Attempted to add a CNAME record a CNAME record already exists";
    refuses(&rt, alloc, refusal, text, true);
    let refusal = RecordError::MissingSoa(Some(host(&rt, alloc)));
    let text = "The SOA record was not found, found this record instead";
    refuses(&rt, alloc, refusal, text, true);
    let refusal = RecordError::MissingSoa(None);
    refuses(&rt, alloc, refusal, "The SOA record was not found.", false);
    refuses(&rt, alloc, RecordError::Memory, "out of memory", false);
    let invalid = ContextError::InvalidCname(CnameError::CnameAtApex);
    let refusal = RecordError::InvalidRecord(invalid);
    let text = "The record is parseable but not valid: Invalid CNAME: CNAME at apex";
    refuses(&rt, alloc, refusal, text, false);
}

/// Adds a refusal that is about this name.
fn add<R: Abort>(
    rt: &R,
    alloc: Global,
    list: &mut ZoneErrors<ContextError>,
    octets: &[u8],
    refusal: ContextError,
) {
    let name = name(rt, alloc, octets);
    list.add_error(&name, refusal).expect(rt, "memory");
    drop(name);
}

#[test]
fn a_list_in_order(rt: HostRuntime) {
    let alloc = rt.alloc();
    let mut list = ZoneErrors::new(alloc);
    assert!(rt; list.is_empty());
    says(&rt, alloc, &list, "Zone file errors: []");
    add(&rt, alloc, &mut list, b"\x01b\x00", ContextError::MissingNs);
    let outside = ContextError::OutOfZone(Rtype::A);
    add(&rt, alloc, &mut list, b"\x01a\x00", outside);
    is(&rt, list.len(), 2);
    let wanted = "Zone file errors: ['b': Missing NS,'a': Out of zone: A,]";
    says(&rt, alloc, &list, wanted);
    let list = list.unwrap().err().expect(&rt, "refusals");
    let mut refusals = list.into_iter();
    let first = refusals.next().expect(&rt, "a refusal");
    is(&rt, first.1, ContextError::MissingNs);
    drop(first);
    drop(refusals);
}

#[test]
fn texts_for_debugging(rt: HostRuntime) {
    let alloc = rt.alloc();
    let refused = RecordError::MissingSoa(None);
    let wanted = "RecordError(The SOA record was not found.)";
    shows(&rt, alloc, &refused, wanted);
    drop(refused);
    let mut list = ZoneErrors::new(alloc);
    add(&rt, alloc, &mut list, b"\x01b\x00", ContextError::MissingNs);
    let wanted = "ZoneErrors(Zone file errors: ['b': Missing NS,])";
    shows(&rt, alloc, &list, wanted);
    let refused = FileError::Errors(list);
    let wanted = "FileError(Zone file errors: ['b': Missing NS,])";
    shows(&rt, alloc, &refused, wanted);
    drop(refused);
}
