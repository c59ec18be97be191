// A zone of two versions: its walk, its answers, and what the versions have in common.

use crate::common::{address, is, name};
use dns_name::{Labelled, ToName};
use dns_numbers::{Class, Rcode, Rtype};
use dns_rdata::RecordData;
use std::alloc::Global;
use std::process::Abort;
use std::sync::Wait;
use zone_store::{Close, QueryError, ReadZone, ReadableZone, Zone, ZoneApex, ZoneStore, is_same};

pub(crate) fn zone<R: Abort>(rt: &R, alloc: Global) -> Zone<ZoneApex> {
    let apex = name(rt, alloc, b"\x01c\0");
    Zone::new(ZoneApex::new(alloc, apex, Class::IN).expect(rt, "memory"))
}

/// Commits this address beside what the zone has.
fn commit<R: Abort + Wait>(
    rt: &R,
    alloc: Global,
    zone: &mut Zone<ZoneApex>,
    owner: &[u8],
    last: u8,
) {
    let mut session = zone.write(alloc);
    session
        .add_record(address(rt, alloc, owner, last))
        .expect(rt, "a new record");
    let told = session.commit(rt, false).expect(rt, "a version");
    drop(told);
    drop(session);
}

/// Commits these two addresses together.
fn commit_two<R: Abort + Wait>(
    rt: &R,
    alloc: Global,
    zone: &mut Zone<ZoneApex>,
    first: (&[u8], u8),
    second: (&[u8], u8),
) {
    let mut session = zone.write(alloc);
    session
        .add_record(address(rt, alloc, first.0, first.1))
        .expect(rt, "a new record");
    session
        .add_record(address(rt, alloc, second.0, second.1))
        .expect(rt, "a new record");
    let told = session.commit(rt, false).expect(rt, "a version");
    drop(told);
    drop(session);
}

/// The owners that a walk visits, one after the other.
fn owners<R: Abort>(rt: &R, alloc: Global, zone: &ReadZone) -> Vec<u8> {
    let mut owners = Vec::new(alloc);
    zone.walk(&mut |stop| {
        stop.owner().compose(&mut owners).expect(rt, "memory");
    });
    owners
}

// A name between two that have records is not visited.
#[test]
fn walks_each_set_once(rt: HostRuntime) {
    let alloc = rt.alloc();
    let mut zone = zone(&rt, alloc);
    let below = b"\x01a\x01B\x01c\0".as_slice();
    let apex = b"\x01C\0".as_slice();
    commit_two(&rt, alloc, &mut zone, (below, 1), (apex, 2));
    commit(&rt, alloc, &mut zone, b"\x01c\0", 3);
    let read = zone.read(&rt).expect(&rt, "memory");
    let wanted = b"\x01c\0\x01a\x01b\x01c\0";
    let visited = owners(&rt, alloc, &read);
    is(&rt, visited.as_slice(), wanted.as_slice());
    drop(visited);
    is(&rt, zone.class(), Class::IN);
    assert!(rt; zone.apex_name().name_eq(read.apex_name()));
    let found = read.look_up(read.apex_name(), Rtype::A);
    assert!(rt; found.is_ok());
    drop(found);
    drop(read);
    zone.close(&rt);
}

#[test]
fn versions_are_the_same_but_for_order(rt: HostRuntime) {
    let alloc = rt.alloc();
    let owner = b"\x01a\x01c\0".as_slice();
    let mut one = zone(&rt, alloc);
    commit_two(&rt, alloc, &mut one, (owner, 1), (owner, 2));
    let mut other = zone(&rt, alloc);
    commit(&rt, alloc, &mut other, b"\x01A\x01c\0", 2);
    let first = one.read(&rt).expect(&rt, "memory");
    let less = other.read(&rt).expect(&rt, "memory");
    assert!(rt; !is_same(&first, &less));
    commit(&rt, alloc, &mut other, b"\x01a\x01C\0", 1);
    let second = other.read(&rt).expect(&rt, "memory");
    assert!(rt; is_same(&first, &second));
    assert!(rt; !is_same(&less, &second));
    drop(second);
    drop(less);
    drop(first);
    other.close(&rt);
    one.close(&rt);
}

/// Asserts that a query of A is answered with authority, with this rcode and the data of this first record, none where it is empty.
fn answers<R: Abort>(
    rt: &R,
    alloc: Global,
    zone: &ReadZone,
    qname: &[u8],
    rcode: Rcode,
    wanted: &[u8],
) {
    let qname = name(rt, alloc, qname);
    let reply = zone.query(alloc, &qname, Rtype::A).expect(rt, "an answer");
    is(rt, reply.rcode(), rcode);
    assert!(rt; reply.authoritative());
    let mut octets = Vec::new(alloc);
    if let Some(first) = reply.content().first().expect(rt, "memory") {
        first.data().compose_rdata(&mut octets).expect(rt, "memory");
        drop(first);
    }
    is(rt, octets.as_slice(), wanted);
    drop(octets);
    drop(reply);
    drop(qname);
}

#[test]
fn queries_are_answered(rt: HostRuntime) {
    let alloc = rt.alloc();
    let mut zone = zone(&rt, alloc);
    commit(&rt, alloc, &mut zone, b"\x01a\x01c\0", 1);
    let read = zone.read(&rt).expect(&rt, "memory");
    let data = [192, 0, 2, 1];
    answers(&rt, alloc, &read, b"\x01A\x01C\0", Rcode::NOERROR, &data);
    answers(&rt, alloc, &read, b"\x01b\x01c\0", Rcode::NXDOMAIN, &[]);
    let outside = name(&rt, alloc, b"\x01d\0");
    let refused = read.query(alloc, &outside, Rtype::A).err();
    is(&rt, refused, Some(QueryError::OutOfZone));
    drop(outside);
    drop(read);
    zone.close(&rt);
}
