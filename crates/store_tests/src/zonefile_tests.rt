// Zone files: which records are taken, and what is told of the others and of files that make no zone.

use crate::common::{APEX, HOST, SERVER, address, alias, is, name, says, server, signer, soa};
use dns_name::ToName;
use dns_numbers::{Class, Rtype, Ttl};
use dns_rdata::{Record, StoredRecord, StoredRecordData, Txt, ZoneRecordData};
use std::alloc::Global;
use std::process::Abort;
use zone_file::Zonefile;

pub(crate) const CUT: &[u8] = b"\x01c\x07example\x00";

pub(crate) const OTHER: &[u8] = b"\x01d\x07EXAMPLE\x00";

pub(crate) fn of_class<R: Abort>(
    rt: &R,
    alloc: Global,
    owner: &[u8],
    class: u16,
    data: StoredRecordData,
) -> StoredRecord {
    let owner = name(rt, alloc, owner);
    Record::new(owner, Class::from_int(class), Ttl::from_int(60), data)
}

/// A TXT record of a class.
pub(crate) fn text<R: Abort>(rt: &R, alloc: Global, owner: &[u8], class: u16) -> StoredRecord {
    let data = Txt::build_from_slice(alloc, b"text").ok();
    let data = ZoneRecordData::Txt(data.expect(rt, "short data"));
    of_class(rt, alloc, owner, class, data)
}

/// A file of the zone `example.` without records.
pub(crate) fn file<R: Abort>(rt: &R, alloc: Global) -> Zonefile {
    Zonefile::new(alloc, name(rt, alloc, APEX), Class::IN)
}

pub(crate) fn takes<R: Abort>(rt: &R, file: &mut Zonefile, found: StoredRecord) {
    file.insert(found).expect(rt, "a record that is taken");
}

fn refuses<R: Abort>(
    rt: &R,
    alloc: Global,
    file: &mut Zonefile,
    found: StoredRecord,
    wanted: &str,
) {
    let error = file.insert(found).err().expect(rt, "a refusal");
    says(rt, alloc, &error, wanted);
    drop(error);
}

fn has_faults<R: Abort>(rt: &R, alloc: Global, file: &Zonefile, wanted: &str) {
    let found = file.faults(alloc).expect(rt, "memory");
    says(rt, alloc, &found, wanted);
    drop(found);
}

#[test]
fn opens_with_an_soa_record(rt: HostRuntime) {
    let alloc = rt.alloc();
    let mut records = Vec::new(alloc);
    let first = ZoneRecordData::Soa(soa(&rt, alloc, 1));
    let first = of_class(&rt, alloc, b"\x07Example\x00", 1, first);
    records.push(first).ok().expect(&rt, "memory");
    let second = address(&rt, alloc, HOST, 60, 1);
    records.push(second).ok().expect(&rt, "memory");
    let file = Zonefile::from_records(alloc, records);
    let mut file = file.ok().expect(&rt, "a zone file");
    let apex = name(&rt, alloc, APEX);
    is(&rt, file.origin().name_eq(&apex), true);
    is(&rt, file.class(), Class::IN);
    is(&rt, file.normal().sample_rtype(&apex), Some(Rtype::SOA));
    let host = name(&rt, alloc, HOST);
    is(&rt, file.normal().contains(&host), true);
    is(&rt, file.normal().first_non_glue(&host), None);
    is(&rt, file.out_of_zone().contains(&host), false);
    has_faults(&rt, alloc, &file, "Zone file errors: []");
    file.set_origin(host);
    let outside = "Zone file errors: ['example': Out of zone: SOA,]";
    has_faults(&rt, alloc, &file, outside);
    drop(apex);
    drop(file);
}

#[test]
fn opens_with_no_other_record(rt: HostRuntime) {
    let alloc = rt.alloc();
    let error = Zonefile::from_records(alloc, Vec::new(alloc)).err();
    let error = error.expect(&rt, "a refusal");
    let none = "Zone file errors: ['.': The SOA record was not found.,]";
    says(&rt, alloc, &error, none);
    drop(error);
    let mut records = Vec::new(alloc);
    let first = address(&rt, alloc, HOST, 60, 1);
    records.push(first).ok().expect(&rt, "memory");
    let error = Zonefile::from_records(alloc, records).err();
    let error = error.expect(&rt, "a refusal");
    let other =
        "Zone file errors: ['t.example': The SOA record was not found, found this record instead,]";
    says(&rt, alloc, &error, other);
    drop(error);
}

#[test]
fn refusals_at_a_zone_cut(rt: HostRuntime) {
    let alloc = rt.alloc();
    let mut file = file(&rt, alloc);
    takes(&rt, &mut file, server(&rt, alloc, CUT, 60, SERVER));
    takes(&rt, &mut file, signer(&rt, alloc, CUT));
    let normal = text(&rt, alloc, CUT, 1);
    let beside = "Attempted to add a normal record where a DS record already exists";
    refuses(&rt, alloc, &mut file, normal, beside);
    takes(&rt, &mut file, address(&rt, alloc, CUT, 60, 1));
    let second = alias(&rt, alloc, CUT, HOST);
    let beside = "Attempted to add a CNAME record where a A record already exists";
    refuses(&rt, alloc, &mut file, second, beside);
    let chaos = text(&rt, alloc, CUT, 3);
    let class = "The class of the record does not match the class IN of the zone";
    refuses(&rt, alloc, &mut file, chaos, class);
    has_faults(&rt, alloc, &file, "Zone file errors: []");
    takes(&rt, &mut file, signer(&rt, alloc, OTHER));
    let lacking = "Zone file errors: ['d.example': Missing NS,]";
    has_faults(&rt, alloc, &file, lacking);
    drop(file);
}

#[test]
fn refusals_at_other_names(rt: HostRuntime) {
    let alloc = rt.alloc();
    let mut file = file(&rt, alloc);
    takes(&rt, &mut file, text(&rt, alloc, HOST, 1));
    let cut = server(&rt, alloc, HOST, 60, SERVER);
    let beside = "Attempted to add zone cut records where non-zone cut records (TXT) already exist";
    refuses(&rt, alloc, &mut file, cut, beside);
    takes(&rt, &mut file, alias(&rt, alloc, OTHER, HOST));
    let again = alias(&rt, alloc, OTHER, HOST);
    let twice = "Attempted to add a CNAME record a CNAME record already exists";
    refuses(&rt, alloc, &mut file, again, twice);
    let glue = address(&rt, alloc, OTHER, 60, 1);
    let beside = "Attempted to add a normal record where a CNAME record already exists";
    refuses(&rt, alloc, &mut file, glue, beside);
    takes(&rt, &mut file, address(&rt, alloc, b"\x05other\x00", 60, 1));
    file.set_origin(name(&rt, alloc, OTHER));
    let none =
        "Zone file errors: ['d.example': Invalid CNAME: CNAME at apex,'t.example': Out of zone: TXT,'other': Out of zone: A,]";
    has_faults(&rt, alloc, &file, none);
    drop(file);
}
