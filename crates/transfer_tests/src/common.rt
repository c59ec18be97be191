//! What these tests share: octets, names, keys, zones and printed texts.

use bytes::Bytes;
use dns_name::{Labelled, Name, NameRef, StoredName};
use dns_numbers::Class;
use dns_rdata::RecordData;
use std::alloc::Global;
use std::fmt::{self, Debug};
use std::process::Abort;
use tsig_port::{Algorithm, Key};
use zone_store::{WalkItem, ZoneApex};

/// Asserts that a value is the one that is wanted. A call of this is proved sooner than an `assert_eq!`.
pub(crate) fn is<R: Abort, T: PartialEq + Debug + Drop>(rt: &R, found: T, wanted: T) {
    assert_eq!(rt; found, wanted);
    drop(wanted);
    drop(found);
}

/// `example.`
pub(crate) const EXAMPLE: &[u8] = b"\x07example\0";

/// `ns.example.`
pub(crate) const NS_EXAMPLE: &[u8] = b"\x02ns\x07example\0";

/// `key.`
pub(crate) const KEY: &[u8] = b"\x03key\0";

/// The octets that hexadecimal digits spell.
pub(crate) fn octets_of<R: Abort>(rt: &R, alloc: Global, digits: &str) -> Vec<u8> {
    hex::decode(alloc, digits.as_bytes()).expect(rt, "memory, or hexadecimal digits")
}

/// The hexadecimal digits that spell octets.
pub(crate) fn digits_of<R: Abort>(rt: &R, alloc: Global, octets: &[u8]) -> String {
    hex::encode(alloc, octets).expect(rt, "memory")
}

/// A name in wire form, stored.
pub(crate) fn stored_name<R: Abort>(rt: &R, alloc: Global, octets: &[u8]) -> StoredName {
    let octets = Bytes::copy_from_slice(alloc, octets).expect(rt, "memory");
    Name::from_octets(octets).expect(rt, "a name")
}

/// The key of this name for HMAC-SHA256 whose secret is 0, 1, 2.
pub(crate) fn shared_key<R: Abort>(rt: &R, name: &[u8]) -> Key {
    let name = NameRef::from_octets(name).expect(rt, "a name");
    let name = name.to_key_name();
    Key::new(Algorithm::Sha256, &[0, 1, 2], name, None, None).expect(rt, "a key")
}

/// The zone `example.` in class IN without records.
pub(crate) fn empty_zone<R: Abort>(rt: &R, alloc: Global) -> ZoneApex {
    let apex = stored_name(rt, alloc, EXAMPLE);
    ZoneApex::new(alloc, apex, Class::IN).expect(rt, "memory")
}

/// Asserts what values print, each with a line's end after it.
pub(crate) fn assert_texts<R: Abort, T: fmt::Display>(
    rt: &R,
    alloc: Global,
    values: &[T],
    texts: &str,
) {
    let mut all = String::new(alloc);
    for value in values {
        push_text(rt, alloc, &mut all, value);
    }
    let printed = all.as_str();
    assert_eq!(rt; printed, texts);
    drop(all);
}

/// Appends what a value prints, and a line's end.
fn push_text<R: Abort, T: fmt::Display>(rt: &R, alloc: Global, all: &mut String, value: &T) {
    let text = format!(in alloc; "{value}\n").expect(rt, "memory");
    let pushed = all.push_str(text.as_str());
    drop(text);
    pushed.expect(rt, "memory");
}

/// The records of a set in wire form.
pub(crate) fn append_set<R: Abort>(rt: &R, all: &mut Vec<u8>, class: Class, stop: &WalkItem<'_>) {
    for item in stop.items() {
        stop.owner().compose(all).expect(rt, "memory");
        append_u16(rt, all, stop.rtype().to_int());
        append_u16(rt, all, class.to_int());
        let ttl = stop.ttl().to_int().to_be_bytes();
        all.extend_from_slice(&ttl).expect(rt, "memory");
        append_u16(rt, all, item.rdlen());
        item.compose_rdata(all).expect(rt, "memory");
    }
}

fn append_u16<R: Abort>(rt: &R, all: &mut Vec<u8>, number: u16) {
    all.extend_from_slice(&number.to_be_bytes())
        .expect(rt, "memory");
}
