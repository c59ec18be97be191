// Vectors from outside, and each kind of call once.

use crate::common::{are_ascending, composed, hash_of, is, prints, stored};
use dns_name::{KeyName, Labelled, NameRef, ParsedName, StoredName, ToName};
use std::alloc::Global;
use std::process::Abort;

const EXAMPLE: &[u8] = b"\x07example\0";

const NS_EXAMPLE: &[u8] = b"\x02ns\x07example\0";

/// `ns.example` composes, and is kept, copied and spelled in its own case.
#[test]
fn names_in_wire_form(rt: HostRuntime) {
    let name = stored(&rt, rt.alloc(), NS_EXAMPLE);
    let out = composed(&rt, rt.alloc(), &name);
    is(&rt, out.as_slice(), NS_EXAMPLE);
    let copy = name.clone().expect(&rt, "memory");
    let again = copy.to_stored(rt.alloc()).expect(&rt, "memory");
    let found = (
        name.compose_len(),
        name.iter_labels().count(),
        again == name,
    );
    is(&rt, found, (12, 2, true));
    drop(again);
    drop(copy);
    drop(name);
}

#[test]
fn names_without_case(rt: HostRuntime) {
    let name = stored(&rt, rt.alloc(), NS_EXAMPLE);
    let apex = stored(&rt, rt.alloc(), b"\x07EXAMPLE\0");
    let lower = apex.to_canonical();
    let truths = [
        name.ends_with(&apex),
        !apex.ends_with(&name),
        lower.as_slice() == EXAMPLE,
        hash_of(&apex) == hash_of(&lower),
    ];
    is(&rt, truths, [true; 4]);
    drop(apex);
    drop(name);
}

#[test]
fn roots(rt: HostRuntime) {
    assert!(rt; KeyName::root().duplicate().name_eq(&&StoredName::root()));
}

#[test]
fn octets_that_are_no_name(rt: HostRuntime) {
    for octets in [
        b"".as_slice(),
        b"\x07example".as_slice(),
        b"\x07example\0\0".as_slice(),
        b"\x00\x01a\xc0\x01".as_slice(),
        b"\x40aaaaaaaa".as_slice(),
    ] {
        let refused = NameRef::from_octets(octets).is_err();
        assert!(rt; refused, "at {octets:?}");
    }
}

/// A question's name at 12, then a pointer to it at 25, then a label before such a pointer at 27.
const MESSAGE: &[u8] = b"\0\0\0\0\0\0\0\0\0\0\0\0\x07example\0\0\x06\0\x01\xc0\x0c\x02ns\xc0\x0c\0";

/// The name at a place of `MESSAGE`.
fn name_at<R: Abort>(rt: &R, place: usize) -> ParsedName<'static> {
    let (name, _) = ParsedName::parse(MESSAGE, place).expect(rt, "a name");
    name
}

/// Asserts which name stands at a place of `MESSAGE`, and where it ends.
fn stands_at<R: Abort>(rt: &R, place: usize, want: &[u8], end: usize) {
    let (name, after) = ParsedName::parse(MESSAGE, place).expect(rt, "a name");
    let key = name.duplicate().to_key_name();
    is(rt, key.as_slice(), want);
    is(rt, after, end);
}

#[test]
fn pointers(rt: HostRuntime) {
    stands_at(&rt, 12, EXAMPLE, 21);
    stands_at(&rt, 25, EXAMPLE, 27);
    stands_at(&rt, 27, NS_EXAMPLE, 32);
}

#[test]
fn pointers_that_lead_nowhere(rt: HostRuntime) {
    let mut past_the_end = [0; 60];
    past_the_end[12] = 0xc0;
    past_the_end[13] = 0xff;
    let to_itself = b"\0\0\0\0\0\0\0\0\0\0\0\0\xc0\x0c";
    let refused = [
        ParsedName::parse(&past_the_end, 12).is_err(),
        ParsedName::parse(to_itself, 12).is_err(),
        ParsedName::parse(to_itself, usize::MAX).is_err(),
    ];
    is(&rt, refused, [true; 3]);
}

#[test]
fn flattened(rt: HostRuntime) {
    let question = name_at(&rt, 12);
    let server = name_at(&rt, 27);
    let flat = server.flatten(rt.alloc()).expect(&rt, "memory");
    let truths = [
        question < server,
        hash_of(&question) == hash_of(&question.to_canonical()),
        flat.as_slice() == NS_EXAMPLE,
    ];
    is(&rt, truths, [true; 3]);
    drop(flat);
}

/// The labels of `ns.example`, the second one after a pointer.
#[test]
fn labels_in_a_message(rt: HostRuntime) {
    let server = name_at(&rt, 27);
    let mut labels = server.iter_labels();
    let first = labels.next().expect(&rt, "a label");
    let second = labels.next().expect(&rt, "a label");
    let truths = [
        first.as_slice() == b"ns".as_slice(),
        second.as_slice() == b"example".as_slice(),
        labels.next().is_none(),
    ];
    is(&rt, truths, [true; 3]);
}

/// The order of RFC 4034, 6.1.
#[test]
fn canonical_order(rt: HostRuntime) {
    let mut names = Vec::new(rt.alloc());
    for octets in [
        b"\x07example\0".as_slice(),
        b"\x01a\x07example\0".as_slice(),
        b"\x08yljkjljk\x01a\x07example\0".as_slice(),
        b"\x01Z\x01a\x07example\0".as_slice(),
        b"\x04zABC\x01a\x07EXAMPLE\0".as_slice(),
        b"\x01z\x07example\0".as_slice(),
        b"\x01\x01\x01z\x07example\0".as_slice(),
        b"\x01*\x01z\x07example\0".as_slice(),
        b"\x01\xc8\x01z\x07example\0".as_slice(),
    ] {
        let name = stored(&rt, rt.alloc(), octets);
        names.push(name).expect(&rt, "memory");
    }
    are_ascending(&rt, names);
}

/// Asserts what a name of these octets prints.
fn name_prints<R: Abort>(rt: &R, alloc: Global, octets: &[u8], wanted: &str) {
    let name = stored(rt, alloc, octets);
    prints(rt, alloc, &name, wanted);
    drop(name);
}

#[test]
fn texts(rt: HostRuntime) {
    name_prints(&rt, rt.alloc(), b"\0", ".");
    name_prints(&rt, rt.alloc(), NS_EXAMPLE, "ns.example");
    name_prints(
        &rt,
        rt.alloc(),
        b"\x05a.b c\x03d\\e\x03\x07z\xff\0",
        "a\\.b\\ c.d\\\\e.\\007z\\255",
    );
}

#[test]
fn texts_for_debugging(rt: HostRuntime) {
    let name = stored(&rt, rt.alloc(), NS_EXAMPLE);
    let read = name_at(&rt, 27);
    let text = format!(in rt.alloc(); "{name:?} {read:?}").expect(&rt, "memory");
    is(
        &rt,
        text.as_str(),
        "Name(ns.example) ParsedName(ns.example)",
    );
    drop(text);
    drop(name);
}

/// The example of the crate's documentation.
#[test]
fn documentation_example(rt: HostRuntime) {
    // A header, a question about `example.`, and the name `ns.example.`, which ends in a pointer to the question's.
    let message = b"\0\0\0\0\0\0\0\0\0\0\0\0\x07example\0\0\x06\0\x01\x02ns\xc0\x0c";
    let (server, after) = ParsedName::parse(message, 25).expect(&rt, "a name");
    assert_eq!(rt; after, 30);
    let zone = NameRef::from_octets(b"\x07EXAMPLE\0").expect(&rt, "a name");
    assert!(rt; server.ends_with(&zone) && !server.name_eq(&zone));
    let text = server.to_string(rt.alloc()).expect(&rt, "memory");
    assert_eq!(rt; text.as_str(), "ns.example");
}
