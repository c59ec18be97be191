// Each type once.

use crate::common::{APEX, address, is, name, server, set_of};
use dns_name::StoredName;
use dns_numbers::{Rtype, Ttl};
use dns_rdata::StoredRecord;
use std::alloc::Global;
use std::process::Abort;
use zone_types::{
    OutOfZone, Rrset, SharedRr, SharedRrset, Version, Versioned, ZoneCut, rel_name_rev_iter,
};

const OWNER: &[u8] = b"\x01a\x07example\x00";

fn push_record<R: Abort>(rt: &R, set: &mut Rrset, added: StoredRecord) {
    assert!(rt; added.rtype() == set.rtype());
    set.push_record(added).expect(rt, "memory");
}

fn write<R: Abort>(rt: &R, values: &mut Versioned<u8>, version: Version, value: u8) {
    assert!(rt; values.may_write(version));
    values.update(version, value).expect(rt, "memory");
}

fn servers<R: Abort>(rt: &R, alloc: Global, target: &[u8]) -> SharedRrset {
    set_of(rt, alloc, server(rt, alloc, OWNER, 60, target))
}

#[test]
fn a_set_takes_the_lower_ttl(rt: HostRuntime) {
    let alloc = rt.alloc();
    let first = address(&rt, alloc, OWNER, 3600, 1);
    let mut set = Rrset::from_record(alloc, first).expect(&rt, "memory");
    push_record(&rt, &mut set, address(&rt, alloc, OWNER, 60, 2));
    push_record(&rt, &mut set, address(&rt, alloc, OWNER, 7200, 3));
    is(&rt, set.ttl(), Ttl::from_int(60));
    is(&rt, set.rtype(), Rtype::A);
    is(&rt, set.data().len(), 3);
    set.limit_ttl(Ttl::from_int(61));
    is(&rt, set.ttl(), Ttl::from_int(60));
    set.set_ttl(Ttl::from_int(90));
    is(&rt, set.ttl(), Ttl::from_int(90));
    drop(set);
}

#[test]
fn the_first_record_of_a_set(rt: HostRuntime) {
    let alloc = rt.alloc();
    let mut set = Rrset::new(alloc, Rtype::A, Ttl::from_int(60));
    assert!(rt; set.is_empty());
    let none = set.first().expect(&rt, "memory");
    assert!(rt; none.is_none());
    drop(none);
    push_record(&rt, &mut set, address(&rt, alloc, OWNER, 60, 1));
    push_record(&rt, &mut set, address(&rt, alloc, OWNER, 60, 2));
    assert!(rt; !set.is_empty());
    let first = set.first().expect(&rt, "memory").expect(&rt, "a record");
    let same = SharedRr::from(address(&rt, alloc, OWNER, 60, 1));
    let other = SharedRr::from(address(&rt, alloc, OWNER, 61, 1));
    assert!(rt; first == same);
    let copy = first.clone().expect(&rt, "memory");
    assert!(rt; copy != other);
    drop(copy);
    drop(other);
    is(&rt, first.rtype(), Rtype::A);
    is(&rt, first.ttl(), Ttl::from_int(60));
    assert!(rt; first.data() == same.data());
    drop(first);
    drop(same);
    drop(set);
}

#[test]
fn shared_sets_are_compared_by_fields(rt: HostRuntime) {
    let alloc = rt.alloc();
    let set = servers(&rt, alloc, b"\x02ns\x07example\x00");
    let same = servers(&rt, alloc, b"\x02NS\x07Example\x00");
    let other = servers(&rt, alloc, OWNER);
    assert!(rt; set == same);
    assert!(rt; set != other);
    drop(same);
    drop(other);
    let copy = set.clone().expect(&rt, "memory");
    assert!(rt; copy == set);
    is(&rt, copy.ttl(), Ttl::from_int(60));
    let lent: &Rrset = copy.as_ref();
    let owned = lent.clone().expect(&rt, "memory");
    assert!(rt; *set.as_rrset() == owned);
    drop(owned);
    drop(copy);
    drop(set);
}

#[test]
fn a_cut_is_copied(rt: HostRuntime) {
    let alloc = rt.alloc();
    let mut glue = Vec::new(alloc);
    let first = address(&rt, alloc, OWNER, 60, 1);
    glue.push(first).expect(&rt, "memory");
    let cut = ZoneCut {
        name: name(&rt, alloc, b"\x01b\x07example\x00"),
        ns: servers(&rt, alloc, OWNER),
        ds: None,
        glue,
    };
    let copy = cut.clone().expect(&rt, "memory");
    assert!(rt; copy.ns == cut.ns);
    assert!(rt; copy.ds.is_none());
    is(&rt, copy.glue.len(), 1);
    drop(copy);
    drop(cut);
}

#[test]
fn a_history_of_three(rt: HostRuntime) {
    let alloc = rt.alloc();
    let mut value = Versioned::new(alloc);
    let first = Version::default().next().expect(&rt, "a version");
    let second = first.next().expect(&rt, "a version");
    let third = second.next().expect(&rt, "a version");
    write(&rt, &mut value, first, 10);
    write(&rt, &mut value, second, 20);
    assert!(rt; value.may_write(third));
    value.remove(third).expect(&rt, "memory");
    is(&rt, value.get(Version::default()), None);
    is(&rt, value.get(first), Some(&10));
    is(&rt, value.get(second), Some(&20));
    is(&rt, value.get(third), None);
    assert!(rt; !value.may_write(second));
    write(&rt, &mut value, third, 30);
    is(&rt, value.get(third), Some(&30));
    assert!(rt; value.may_write(third));
    value.rollback(third);
    is(&rt, value.get(third), Some(&20));
    drop(value);
}

#[test]
fn versions_end(rt: HostRuntime) {
    let last = Version::from_int(u64::MAX);
    is(&rt, last.next(), None);
    assert!(rt; Version::default() < last);
    is(&rt, last.into_int(), u64::MAX);
}

/// The first octets of a name's labels below the base, from the right.
fn first_octets<R: Abort>(rt: &R, alloc: Global, base: &StoredName, name: &StoredName) -> Vec<u8> {
    let labels = rel_name_rev_iter(base, name).ok().expect(rt, "labels");
    let mut found = Vec::new(alloc);
    for label in labels {
        let octet = label.as_slice().first().expect(rt, "an octet");
        found.push(*octet).expect(rt, "memory");
    }
    found
}

#[test]
fn labels_from_the_right(rt: HostRuntime) {
    let alloc = rt.alloc();
    let base = name(&rt, alloc, b"\x07Example\x00");
    let below = name(&rt, alloc, b"\x01a\x02bc\x01d\x07exAMPle\x00");
    let found = first_octets(&rt, alloc, &base, &below);
    is(&rt, found.as_slice(), b"dba".as_slice());
    drop(found);
    drop(below);
    let apex = name(&rt, alloc, APEX);
    let none = first_octets(&rt, alloc, &base, &apex);
    assert!(rt; none.is_empty());
    drop(none);
    drop(apex);
    let above = name(&rt, alloc, b"\x00");
    let refused = rel_name_rev_iter(&base, &above).err();
    is(&rt, refused, Some(OutOfZone));
    drop(above);
    drop(base);
}

#[test]
fn a_record_is_shown_by_its_fields(rt: HostRuntime) {
    let alloc = rt.alloc();
    let first = SharedRr::from(address(&rt, alloc, OWNER, 60, 1));
    let text = format!(in alloc; "{first:?}").expect(&rt, "memory");
    is(
        &rt,
        text.as_str(),
        "SharedRr { ttl: Ttl { seconds: 60 }, data: A(A { octets: [192, 0, 2, 1] }) }",
    );
    drop(text);
    drop(first);
}
