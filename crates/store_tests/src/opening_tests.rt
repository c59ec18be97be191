// Zones that open from zone files, and what keeps files from opening.

use crate::common::{
    APEX, HOST, SERVER, address, alias, count_records, is, name, says, server, signer, soa,
};
use crate::zonefile_tests::{CUT, OTHER, file, of_class, takes, text};
use dns_name::{NameRef, ToName};
use dns_numbers::{Class, Rcode, Rtype, Ttl};
use dns_rdata::ZoneRecordData;
use std::alloc::Global;
use std::process::Abort;
use zone_file::{FileError, ZoneBuilder, Zonefile};
use zone_store::{Close, ReadZone, ReadableZone, Zone, ZoneApex, ZoneStore};
use zone_types::{CnameError, ContextError, ZoneCutError};

const GLUE: &[u8] = b"\x02ns\x01c\x07example\x00";

/// A file of SOA and NS at the apex, a cut at c with DS and glue, three data of two addresses at t beside a text, and an alias at d.
fn whole<R: Abort>(rt: &R, alloc: Global) -> Zonefile {
    let mut file = file(rt, alloc);
    takes(rt, &mut file, address(rt, alloc, HOST, 3600, 1));
    takes(rt, &mut file, signer(rt, alloc, CUT));
    takes(rt, &mut file, server(rt, alloc, CUT, 60, GLUE));
    takes(rt, &mut file, address(rt, alloc, GLUE, 60, 5));
    takes(rt, &mut file, alias(rt, alloc, OTHER, HOST));
    takes(rt, &mut file, address(rt, alloc, HOST, 300, 2));
    takes(rt, &mut file, text(rt, alloc, HOST, 1));
    takes(rt, &mut file, address(rt, alloc, HOST, 600, 1));
    let first = ZoneRecordData::Soa(soa(rt, alloc, 1));
    takes(rt, &mut file, of_class(rt, alloc, APEX, 1, first));
    takes(rt, &mut file, server(rt, alloc, APEX, 3600, SERVER));
    file
}

/// The sets of `whole` in order, with their TTLs and how many data they have.
const SETS: [(&[u8], Rtype, u32, usize); 8] = [
    (APEX, Rtype::NS, 3600, 1),
    (APEX, Rtype::SOA, 60, 1),
    (CUT, Rtype::NS, 60, 1),
    (CUT, Rtype::DS, 60, 1),
    (GLUE, Rtype::A, 60, 1),
    (b"\x01d\x07example\x00", Rtype::CNAME, 60, 1),
    (HOST, Rtype::A, 300, 2),
    (HOST, Rtype::TXT, 60, 1),
];

/// Asserts that a version has the sets of `whole`.
fn has_sets<R: Abort>(rt: &R, read: &ReadZone) {
    let mut stops = read.iter_rrsets();
    for (owner, rtype, ttl, len) in SETS {
        let stop = stops.next().expect(rt, "a set");
        is(rt, stop.owner().as_slice(), owner);
        is(rt, stop.rtype(), rtype);
        is(rt, stop.ttl(), Ttl::from_int(ttl));
        is(rt, stop.items().len(), len);
        drop(stop);
    }
    let after = stops.next();
    assert!(rt; after.is_none());
    drop(after);
    drop(stops);
}

#[test]
fn a_whole_file_opens_as_a_zone(rt: HostRuntime) {
    let alloc = rt.alloc();
    let zone = Zone::try_from(whole(&rt, alloc)).expect(&rt, "a zone");
    is(&rt, zone.class(), Class::IN);
    let read = zone.read(&rt).expect(&rt, "memory");
    is(&rt, read.version_number(), 0);
    has_sets(&rt, &read);
    let host = NameRef::from_octets(HOST).expect(&rt, "a name");
    let found = read.look_up(&host, Rtype::A).expect(&rt, "an answer");
    is(&rt, found.authoritative(), true);
    is(&rt, count_records(found.answer(&host)), 2);
    drop(found);
    let glue = NameRef::from_octets(GLUE).expect(&rt, "a name");
    let found = read.look_up(&glue, Rtype::A).expect(&rt, "an answer");
    is(&rt, found.authoritative(), false);
    is(&rt, count_records(found.authority()), 2);
    is(&rt, count_records(found.glue()), 1);
    drop(found);
    let alias = NameRef::from_octets(OTHER).expect(&rt, "a name");
    let found = read.look_up(&alias, Rtype::A).expect(&rt, "an answer");
    is(&rt, found.rcode(), Rcode::NOERROR);
    is(&rt, found.found_type(), Some(Rtype::CNAME));
    drop(found);
    drop(read);
    zone.close(&rt);
}

#[test]
fn a_whole_file_opens_as_a_builder(rt: HostRuntime) {
    let alloc = rt.alloc();
    let builder = ZoneBuilder::try_from(whole(&rt, alloc));
    let mut builder = builder.expect(&rt, "a builder");
    let apex = name(&rt, alloc, APEX);
    is(&rt, builder.apex().name_eq(&apex), true);
    is(&rt, builder.class(), Class::IN);
    drop(apex);
    let again = builder.insert(address(&rt, alloc, HOST, 900, 2));
    is(&rt, again, Ok(()));
    let zone = builder.build().expect(&rt, "memory");
    let read = zone.read(&rt).expect(&rt, "memory");
    has_sets(&rt, &read);
    drop(read);
    zone.close(&rt);
}

#[test]
fn a_file_without_records_opens(rt: HostRuntime) {
    let alloc = rt.alloc();
    let zone = Zone::try_from(file(&rt, alloc)).expect(&rt, "a zone");
    let read = zone.read(&rt).expect(&rt, "memory");
    assert!(rt; read.first_rrset().is_none());
    drop(read);
    zone.close(&rt);
}

/// Asserts what is told of a file that makes no zone.
fn opens_not<R: Abort>(rt: &R, alloc: Global, file: Zonefile, wanted: &str) {
    let refused = ZoneBuilder::try_from(file).err();
    let refused = refused.expect(rt, "a refusal");
    says(rt, alloc, &refused, wanted);
    drop(refused);
}

#[test]
fn ds_alone_opens_not(rt: HostRuntime) {
    let alloc = rt.alloc();
    let mut lacking = file(&rt, alloc);
    takes(&rt, &mut lacking, signer(&rt, alloc, OTHER));
    let told = "Zone file errors: ['d.example': Missing NS,]";
    opens_not(&rt, alloc, lacking, told);
    let mut lacking = file(&rt, alloc);
    takes(&rt, &mut lacking, signer(&rt, alloc, OTHER));
    let refused = match Zone::try_from(lacking) {
        Ok(zone) => {
            zone.close(&rt);
            None
        }
        Err(refused) => Some(refused),
    };
    let refused = refused.expect(&rt, "a refusal");
    let told =
        "Zone file errors: ['d.example': The record is parseable but not valid: Missing NS,]";
    says(&rt, alloc, &refused, told);
    drop(refused);
}

#[test]
fn an_alias_at_the_apex_opens_not(rt: HostRuntime) {
    let alloc = rt.alloc();
    let mut file = file(&rt, alloc);
    takes(&rt, &mut file, alias(&rt, alloc, b"\x07EXAMPLE\x00", HOST));
    let told = "Zone file errors: ['example': Invalid CNAME: CNAME at apex,]";
    opens_not(&rt, alloc, file, told);
}

#[test]
fn what_is_outside_opens_not(rt: HostRuntime) {
    let alloc = rt.alloc();
    let mut file = file(&rt, alloc);
    takes(&rt, &mut file, text(&rt, alloc, b"\x01a\x05other\x00", 1));
    takes(&rt, &mut file, address(&rt, alloc, b"\x05other\x00", 60, 1));
    takes(&rt, &mut file, address(&rt, alloc, b"\x05OTHER\x00", 60, 2));
    takes(&rt, &mut file, address(&rt, alloc, HOST, 60, 1));
    let told = "Zone file errors: ['other': Out of zone: A,'a.other': Out of zone: TXT,]";
    opens_not(&rt, alloc, file, told);
}

/// A file of a cut at c, DS alone at d, an alias at t, a text at b.c, and an address outside.
fn mixed<R: Abort>(rt: &R, alloc: Global) -> Zonefile {
    let mut file = file(rt, alloc);
    takes(rt, &mut file, address(rt, alloc, b"\x05other\x00", 60, 1));
    takes(
        rt,
        &mut file,
        text(rt, alloc, b"\x01b\x01c\x07example\x00", 1),
    );
    takes(rt, &mut file, alias(rt, alloc, HOST, SERVER));
    takes(rt, &mut file, signer(rt, alloc, OTHER));
    takes(rt, &mut file, signer(rt, alloc, CUT));
    takes(rt, &mut file, server(rt, alloc, CUT, 60, SERVER));
    file
}

#[test]
fn another_origin_makes_cuts_and_aliases_invalid(rt: HostRuntime) {
    let alloc = rt.alloc();
    let mut below = mixed(&rt, alloc);
    below.set_origin(name(&rt, alloc, CUT));
    let told =
        "Zone file errors: ['c.example': Invalid zone cut: Zone cut at apex,'d.example': Missing NS,'t.example': Invalid CNAME: Out of zone,'other': Out of zone: A,]";
    opens_not(&rt, alloc, below, told);
    let mut beside = mixed(&rt, alloc);
    beside.set_origin(name(&rt, alloc, HOST));
    let told =
        "Zone file errors: ['c.example': Invalid zone cut: Out of zone,'d.example': Missing NS,'t.example': Invalid CNAME: CNAME at apex,'b.c.example': Out of zone: TXT,'other': Out of zone: A,]";
    opens_not(&rt, alloc, beside, told);
}

/// The faults of a builder's refusal in order.
fn faults_of<R: Abort>(rt: &R, alloc: Global, file: Zonefile) -> Vec<ContextError> {
    let mut found = Vec::new(alloc);
    match ZoneBuilder::try_from(file) {
        Err(FileError::Errors(errors)) => {
            for (owner, error) in errors {
                drop(owner);
                found.push(error).expect(rt, "memory");
            }
        }
        Err(FileError::Memory) => {}
        Ok(builder) => drop(builder),
    }
    found
}

#[test]
fn faults_come_by_kind(rt: HostRuntime) {
    let alloc = rt.alloc();
    let mut file = mixed(&rt, alloc);
    file.set_origin(name(&rt, alloc, HOST));
    let found = faults_of(&rt, alloc, file);
    let wanted = [
        ContextError::InvalidZonecut(ZoneCutError::OutOfZone),
        ContextError::MissingNs,
        ContextError::InvalidCname(CnameError::CnameAtApex),
        ContextError::OutOfZone(Rtype::TXT),
        ContextError::OutOfZone(Rtype::A),
    ];
    is(&rt, found.as_slice(), wanted.as_slice());
    drop(found);
}
