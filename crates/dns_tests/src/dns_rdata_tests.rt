// Octets of records, composed and read back; octets that aren't records; records compared.

use crate::common::{data_are_read, hash_of, is, is_record, name, read, reads_back};
use dns_name::{Name, NameRef};
use dns_numbers::{Class, Rtype, Serial, Ttl};
use dns_rdata::{A, ComposeRecord, Ns, Record, Soa, ZoneRecordData, record_from_octets};
use std::alloc::Global;
use std::cmp::Ordering;
use std::process::Abort;

const EXAMPLE: [u8; 9] = *b"\x07example\x00";

const NS_EXAMPLE: [u8; 12] = *b"\x02ns\x07example\x00";

const SOA: [u8; 41] =
    *b"\x07example\x00\x00\x06\x00\x01\x00\x00\x0e\x10\x00\x16\x00\x00\x00\x00\x00\x01\x00\x00\x00\x00\x00\x00\x00\x00\x00\x00\x00\x00\x00\x00\x00\x00";

const NS: [u8; 31] =
    *b"\x07example\x00\x00\x02\x00\x01\x00\x00\x0e\x10\x00\x0c\x02ns\x07example\x00";

const ADDRESS: [u8; 26] =
    *b"\x02ns\x07example\x00\x00\x01\x00\x01\x00\x00\x0e\x10\x00\x04\xc0\x00\x02\x01";

const POINTER: [u8; 21] = *b"\x07example\x00\x00\x02\x00\x01\x00\x00\x0e\x10\x00\x02\xc0\x00";

/// The record in `NS` with its names in other case, and with another TTL.
const NS_IN_CAPITALS: [u8; 31] =
    *b"\x07EXAMPLE\x00\x00\x02\x00\x01\x00\x00\x00\x3c\x00\x0c\x02NS\x07eXample\x00";

const DS: [u8; 28] =
    *b"\x07example\x00\x00\x2b\x00\x01\x00\x00\x0e\x10\x00\x09\xec\x45\x05\x01Abcde";

type LentData<'a> = ZoneRecordData<&'a [u8], NameRef<'a>>;

fn soa<'a, R: Abort>(rt: &R) -> LentData<'a> {
    let zero = Ttl::from_int(0);
    let root = name(rt, b"\x00".as_slice());
    let mailbox = name(rt, b"\x00".as_slice());
    ZoneRecordData::Soa(Soa::new(root, mailbox, Serial::from(1), zero, zero, zero, zero))
}

/// Asserts the octets of the record of these data, in class IN with the TTL 3600.
fn composes<R: Abort>(rt: &R, alloc: Global, owner: &[u8], data: LentData<'_>, wanted: &[u8]) {
    let record = Record::new(name(rt, owner), Class::IN, Ttl::from_int(3600), data);
    let mut out = Vec::new(alloc);
    record.compose_record(&mut out).expect(rt, "memory");
    is(rt, out.as_slice(), wanted);
    drop(record);
}

/// Asserts whether the data of the record that the octets spell are equal to these.
fn are_equal<R: Abort>(rt: &R, octets: &[u8], data: LentData<'_>, wanted: bool) {
    let read = read(rt, octets);
    let equal = read.data().data_eq(&data);
    is(rt, equal, wanted);
    drop(read);
    drop(data);
}

/// The hash of the record that the octets spell.
fn hash_of_record<R: Abort>(rt: &R, octets: &[u8]) -> u64 {
    let read = read(rt, octets);
    let hash = hash_of(&read);
    drop(read);
    hash
}

#[test]
fn records_are_composed(rt: HostRuntime) {
    composes(&rt, rt.alloc(), &EXAMPLE, soa(&rt), &SOA);
    let server = ZoneRecordData::Ns(Ns::new(name(&rt, &NS_EXAMPLE)));
    composes(&rt, rt.alloc(), &EXAMPLE, server, &NS);
    let address = ZoneRecordData::A(A::new([192, 0, 2, 1]));
    composes(&rt, rt.alloc(), &NS_EXAMPLE, address, &ADDRESS);
}

#[test]
fn records_are_read_back(rt: HostRuntime) {
    reads_back(&rt, rt.alloc(), &SOA);
    reads_back(&rt, rt.alloc(), &NS);
    let mut unknown = POINTER;
    unknown[10] = 99;
    reads_back(&rt, rt.alloc(), &unknown);
}

#[test]
fn parts_are_read(rt: HostRuntime) {
    let read = read(&rt, &ADDRESS);
    let found = (read.rtype(), read.ttl().to_int(), read.compose_len());
    is(&rt, found, (Rtype::A, 3600, 26));
    drop(read);
}

#[test]
fn data_are_equal_in_any_case(rt: HostRuntime) {
    let server = ZoneRecordData::Ns(Ns::new(name(&rt, b"\x02NS\x07eXample\x00".as_slice())));
    are_equal(&rt, &NS, server, true);
    are_equal(&rt, &SOA, soa(&rt), true);
    are_equal(&rt, &ADDRESS, soa(&rt), false);
}

#[test]
fn data_fill_rdlength(rt: HostRuntime) {
    let mut octets = [0; 27];
    octets[..26].copy_from_slice(&ADDRESS);
    let inside = data_are_read(&rt, &octets);
    let with_octet_behind = is_record(&octets);
    octets[21] = 5;
    let of_five_octets = data_are_read(&rt, &octets);
    let found = [inside, with_octet_behind, of_five_octets];
    is(&rt, found, [true, false, false]);
}

#[test]
fn pointers_are_for_messages(rt: HostRuntime) {
    let found = [data_are_read(&rt, &POINTER), is_record(&POINTER)];
    is(&rt, found, [true, false]);
}

#[test]
fn records_are_equal_in_any_case(rt: HostRuntime) {
    let lower = read(&rt, &NS);
    let upper = read(&rt, &NS_IN_CAPITALS);
    let stored = upper.flatten(rt.alloc()).expect(&rt, "memory");
    let hash = hash_of(&lower);
    let truths = [
        lower == upper,
        lower.cmp(&upper) == Ordering::Equal,
        hash == hash_of(&upper),
        lower.record_eq(&stored),
        hash == hash_of(&stored),
        hash_of(lower.data()) == hash_of(upper.data()),
    ];
    is(&rt, truths, [true; 6]);
    drop(stored);
    drop(upper);
    drop(lower);
}

#[test]
fn hashes_differ(rt: HostRuntime) {
    let digest = hash_of_record(&rt, &DS);
    let mut octets = DS;
    octets[23] = b'a';
    let other_digest = hash_of_record(&rt, &octets);
    octets = DS;
    octets[19] = 0;
    let other_key_tag = hash_of_record(&rt, &octets);
    octets = DS;
    octets[10] = 99;
    let other_type = hash_of_record(&rt, &octets);
    let truths = [
        digest != other_digest,
        digest != other_key_tag,
        digest != other_type,
    ];
    is(&rt, truths, [true; 3]);
}

/// The example of the crate's documentation.
#[test]
fn documentation_example(rt: HostRuntime) {
    // ns.example. 3600 IN A 192.0.2.1
    let octets = b"\x02ns\x07example\x00\x00\x01\x00\x01\x00\x00\x0e\x10\x00\x04\xc0\x00\x02\x01";
    let read = record_from_octets(octets).expect(&rt, "a record");
    assert_eq!(rt; read.rtype(), Rtype::A);
    assert_eq!(rt; read.ttl().to_int(), 3600);

    let address = ZoneRecordData::<&[u8], NameRef>::A(A::new([192, 0, 2, 1]));
    let owner = Name::from_octets(b"\x02NS\x07example\x00".as_slice()).expect(&rt, "a name");
    let record = Record::new(owner, Class::IN, Ttl::from_int(60), address);
    let equal = record.record_eq(&read);
    assert!(rt; equal);

    let mut out = Vec::new(rt.alloc());
    read.compose_record(&mut out).expect(&rt, "memory");
    assert_eq!(rt; out.as_slice(), octets.as_slice());
    drop(record);
    drop(read);
}
