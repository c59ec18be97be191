//! What these tests share: octets, keys and zones.

use dns_name::{Labelled, NameRef};
use dns_numbers::Class;
use dns_rdata::{ComposeRecord, Record, RecordData, StoredRecordData};
use std::alloc::Global;
use std::fmt::Debug;
use std::process::Abort;
use tsig_port::{Algorithm, Key};
use zone_store::{WalkItem, ZoneApex};

/// Asserts that a value is the one that is wanted. A call of this is proved sooner than an `assert_eq!`.
pub(crate) fn is<R: Abort, T: PartialEq + Debug + Drop>(rt: &R, found: T, wanted: T) {
    assert_eq!(rt; found, wanted);
    drop(wanted);
    drop(found);
}

/// The octets that hexadecimal digits spell.
pub(crate) fn octets_of<R: Abort>(rt: &R, alloc: Global, digits: &str) -> Vec<u8> {
    hex::decode(alloc, digits.as_bytes()).expect(rt, "memory, or hexadecimal digits")
}

/// What stands behind a word in the line that begins with it.
pub(crate) fn line_of(lines: &'static str, word: &str) -> Option<&'static str> {
    for line in lines.split('\n') {
        let (name, rest) = line.split_once(' ')?;
        if name == word {
            return Some(rest);
        }
    }
    None
}

/// The key `key.` for HMAC-SHA256 whose secret is 0, 1, 2; its MACs have so many octets, all of them where none is given.
fn key_of<R: Abort>(rt: &R, len: Option<usize>) -> Key {
    let name = NameRef::from_octets(b"\x03key\0").expect(rt, "a name");
    let made = Key::new(Algorithm::Sha256, &[0, 1, 2], name.to_key_name(), len, len);
    made.expect(rt, "a key")
}

/// The key whose MACs are whole.
pub(crate) fn shared_key<R: Abort>(rt: &R) -> Key {
    key_of(rt, None)
}

/// The key whose MACs have 16 octets.
pub(crate) fn short_key<R: Abort>(rt: &R) -> Key {
    key_of(rt, Some(16))
}

/// The zone `example.` in class IN without records.
pub(crate) fn empty_zone<R: Abort>(rt: &R, alloc: Global) -> ZoneApex {
    let apex = NameRef::from_octets(b"\x07example\0").expect(rt, "a name");
    let apex = apex.store(alloc).expect(rt, "memory");
    ZoneApex::new(alloc, apex, Class::IN).expect(rt, "memory")
}

/// The records of a set in wire form, whose type each of them has.
pub(crate) fn append_set<R: Abort>(rt: &R, all: &mut Vec<u8>, class: Class, stop: &WalkItem<'_>) {
    for item in stop.items() {
        is(rt, item.rtype(), stop.rtype());
        append_item(rt, all, class, stop, item);
    }
}

/// One of them.
fn append_item<R: Abort>(
    rt: &R,
    all: &mut Vec<u8>,
    class: Class,
    stop: &WalkItem<'_>,
    item: &StoredRecordData,
) {
    let record = Record::new(stop.owner().borrowed(), class, stop.ttl(), item);
    record.compose_record(all).expect(rt, "memory");
}
