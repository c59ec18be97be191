// What the tests of this crate share.

use bytes::Bytes;
use dns_name::{Labelled, Name, NameRef, StoredName};
use dns_rdata::{ComposeRecord, ParsedRecord, ReadRecord, record_from_octets};
use std::alloc::Global;
use std::fmt::{self, Debug};
use std::hash::{DefaultHasher, Hash, Hasher};
use std::process::Abort;

/// Asserts that a value is the one that is wanted. A call of this is proved sooner than an `assert_eq!`.
pub(crate) fn is<R: Abort, T: PartialEq + Debug + Drop>(rt: &R, found: T, wanted: T) {
    assert_eq!(rt; found, wanted);
    drop(wanted);
    drop(found);
}

/// The octets that pairs of hexadecimal digits say.
pub fn octets<R: Abort>(rt: &R, alloc: Global, digits: &str) -> Vec<u8> {
    hex::decode(alloc, digits).expect(rt, "pairs of digits")
}

/// The octets in hexadecimal digits.
pub fn digits<R: Abort>(rt: &R, alloc: Global, octets: &[u8]) -> String {
    hex::encode(alloc, octets).expect(rt, "memory")
}

pub fn hash_of<T: Hash>(value: &T) -> u64 {
    let mut state = DefaultHasher::new();
    value.hash(&mut state);
    state.finish()
}

/// Asserts what a value prints.
pub fn prints<R: Abort, T: fmt::Display>(rt: &R, alloc: Global, value: &T, wanted: &str) {
    let text = value.to_string(alloc).expect(rt, "memory");
    is(rt, text.as_str(), wanted);
    drop(text);
}

pub fn name<'o, R: Abort>(rt: &R, octets: &'o [u8]) -> NameRef<'o> {
    Name::from_octets(octets).expect(rt, "a name")
}

/// A name in memory of its own.
pub fn stored<R: Abort>(rt: &R, alloc: Global, octets: &[u8]) -> StoredName {
    let octets = Bytes::copy_from_slice(alloc, octets).expect(rt, "memory");
    Name::from_octets(octets).expect(rt, "a name")
}

/// The wire form of a name.
pub fn composed<R: Abort, N: Labelled>(rt: &R, alloc: Global, name: &N) -> Vec<u8> {
    let mut out = Vec::new(alloc);
    name.compose(&mut out).expect(rt, "memory");
    out
}

/// The record that the octets spell.
pub fn read<'o, R: Abort>(rt: &R, octets: &'o [u8]) -> ReadRecord<'o> {
    record_from_octets(octets).expect(rt, "a record")
}

/// Whether the octets are a record.
pub fn is_record(octets: &[u8]) -> bool {
    match record_from_octets(octets) {
        Ok(record) => {
            drop(record);
            true
        }
        Err(_) => false,
    }
}

/// Whether the data of the record at the beginning of a message are read.
pub fn data_are_read<R: Abort>(rt: &R, message: &[u8]) -> bool {
    let (head, _) = ParsedRecord::parse(message, 0).expect(rt, "a head");
    match head.to_record() {
        Ok(record) => {
            drop(record);
            true
        }
        Err(_) => false,
    }
}

/// Asserts that the record that the octets spell, kept in memory of its own and cloned, is written as they are.
pub fn reads_back<R: Abort>(rt: &R, alloc: Global, octets: &[u8]) {
    let read = read(rt, octets);
    let stored = read.flatten(alloc).expect(rt, "memory");
    let again = stored.clone().expect(rt, "memory");
    let mut out = Vec::new(alloc);
    again.compose_record(&mut out).expect(rt, "memory");
    is(rt, out.as_slice(), octets);
    drop(out);
    drop(again);
    drop(stored);
    drop(read);
}

/// Asserts that the values stand in ascending order, each equal to itself alone.
pub fn are_ascending<R: Abort, T: Ord + Drop>(rt: &R, values: Vec<T>) {
    for (i, a) in values.iter().enumerate() {
        for (j, b) in values.iter().enumerate() {
            assert!(rt; a.cmp(b) == i.cmp(&j), "at {i} and {j}");
        }
    }
    drop(values);
}
