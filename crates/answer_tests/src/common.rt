// Octets, names, records and sets that several modules of tests use.

use dns_name::{NameRef, StoredName};
use dns_numbers::{Class, Ttl};
use dns_rdata::{A, Record, StoredRecord, ZoneRecordData, record_from_octets};
use std::alloc::Global;
use std::fmt::Debug;
use std::process::Abort;
use zone_types::{Rrset, SharedRrset};

/// Asserts that a value is the one that is wanted. A call of this is proved sooner than an `assert_eq!`.
pub(crate) fn is<R: Abort, T: PartialEq + Debug + Drop>(rt: &R, found: T, wanted: T) {
    assert_eq!(rt; found, wanted);
    drop(wanted);
    drop(found);
}

/// The octets that words of hexadecimal digits say.
pub(crate) fn octets<R: Abort>(rt: &R, alloc: Global, words: &str) -> Vec<u8> {
    let mut out = Vec::new(alloc);
    for word in words.split(' ') {
        let part = hex::decode(alloc, word).expect(rt, "hexadecimal digits");
        out.extend_from_slice(part.as_slice()).expect(rt, "memory");
        drop(part);
    }
    out
}

pub(crate) fn name<R: Abort>(rt: &R, alloc: Global, octets: &[u8]) -> StoredName {
    let found = NameRef::from_octets(octets).expect(rt, "a name");
    found.store(alloc).expect(rt, "memory")
}

/// The record that words of hexadecimal digits say.
pub(crate) fn record<R: Abort>(rt: &R, alloc: Global, words: &str) -> StoredRecord {
    let octets = octets(rt, alloc, words);
    let read = record_from_octets(octets.as_slice()).expect(rt, "a record");
    let record = read.flatten(alloc).expect(rt, "memory");
    drop(octets);
    record
}

/// The record of the address 192.0.2.`last`, with the TTL 60.
pub(crate) fn address<R: Abort>(rt: &R, alloc: Global, owner: &[u8], last: u8) -> StoredRecord {
    let owner = name(rt, alloc, owner);
    let data = ZoneRecordData::A(A::new([192, 0, 2, last]));
    Record::new(owner, Class::IN, Ttl::from_int(60), data)
}

/// The RRset of one record.
pub(crate) fn set_of<R: Abort>(rt: &R, alloc: Global, first: StoredRecord) -> SharedRrset {
    let set = Rrset::from_record(alloc, first).expect(rt, "memory");
    set.into_shared(alloc).expect(rt, "memory")
}
