// What commits tell of their differences.

use crate::common::{HOST, add, address, commit, is, name, put_soa, three, zone};
use dns_name::{Label, NameRef};
use dns_numbers::{Rtype, Serial};
use dns_rdata::ZoneRecordData;
use std::alloc::Global;
use std::process::Abort;
use std::sync::Wait;
use zone_store::{ReadZone, WriteZone, ZoneApex};
use zone_types::{InMemoryZoneDiff, ZoneDiff};

/// Puts the three addresses at t.
fn put<R: Abort>(rt: &R, alloc: Global, session: &mut WriteZone<'_>, ttl: u32) {
    let label = Label::from_slice(b"t").expect(rt, "a label");
    assert!(rt; !label.is_root());
    let mut node = session.open(false);
    node.update_child(&label).ok().expect(rt, "a node");
    node.update_rrset(three(rt, alloc, ttl))
        .expect(rt, "memory");
    drop(node);
}

/// A zone of an SOA with this serial and the three addresses.
fn opened<R: Abort + Wait>(rt: &R, alloc: Global, serial: u32) -> ZoneApex {
    let mut zone = zone(rt, alloc);
    let mut session = zone.write(alloc);
    put_soa(rt, alloc, &mut session, serial);
    put(rt, alloc, &mut session, 3600);
    commit(rt, &mut session);
    drop(session);
    zone
}

/// How many records a difference removes and adds.
fn counts(diff: &InMemoryZoneDiff) -> (usize, usize) {
    let mut removed = 0_usize;
    for index in 0..diff.removed_len() {
        if let Some((_, set)) = diff.removed_at(index) {
            removed = removed.saturating_add(set.as_rrset().data().len());
        }
    }
    let mut added = 0_usize;
    for index in 0..diff.added_len() {
        if let Some((_, set)) = diff.added_at(index) {
            added = added.saturating_add(set.as_rrset().data().len());
        }
    }
    (removed, added)
}

/// The difference that a commit tells.
fn told<R: Abort + Wait>(rt: &R, session: &mut WriteZone<'_>, bumps: bool) -> InMemoryZoneDiff {
    let told = session.commit(rt, bumps).expect(rt, "a version");
    told.expect(rt, "a difference")
}

/// Asserts that a commit tells nothing.
fn tells_nothing<R: Abort + Wait>(rt: &R, session: &mut WriteZone<'_>) {
    let told = session.commit(rt, false).expect(rt, "a version");
    assert!(rt; told.is_none());
    drop(told);
}

// A TTL that changes takes the whole set away and puts it back (RFC 1995, 4).
#[test]
fn tells_a_changed_ttl(rt: HostRuntime) {
    let alloc = rt.alloc();
    let mut zone = opened(&rt, alloc, 1);
    let mut session = zone.write(alloc);
    session.want_difference(true);
    put(&rt, alloc, &mut session, 60);
    put_soa(&rt, alloc, &mut session, 2);
    let diff = told(&rt, &mut session, false);
    is(&rt, diff.start_serial, Serial::from(1));
    is(&rt, diff.end_serial, Serial::from(2));
    is(&rt, counts(&diff), (4, 4));
    drop(diff);
    tells_nothing(&rt, &mut session);
    drop(session);
    zone.close(&rt);
}

#[test]
fn counts_the_serial_on(rt: HostRuntime) {
    let alloc = rt.alloc();
    let mut zone = opened(&rt, alloc, 4_294_967_295);
    let mut session = zone.write(alloc);
    session.want_difference(true);
    let diff = told(&rt, &mut session, true);
    is(&rt, diff.start_serial, Serial::from(4_294_967_295));
    is(&rt, diff.end_serial, Serial::from(0));
    is(&rt, counts(&diff), (1, 1));
    drop(diff);
    let read = session.handle().expect(&rt, "memory");
    is(&rt, read.version(), 2);
    drop(read);
    drop(session);
    zone.close(&rt);
}

// What comes and goes, before the difference is asked for too, isn't told.
#[test]
fn tells_what_is_left_of_edits(rt: HostRuntime) {
    let alloc = rt.alloc();
    let mut zone = opened(&rt, alloc, 1);
    let mut session = zone.write(alloc);
    add(&rt, &mut session, address(&rt, alloc, HOST, 60, 9));
    session.want_difference(true);
    session.clear_all().expect(&rt, "memory");
    put_soa(&rt, alloc, &mut session, 7);
    put(&rt, alloc, &mut session, 3600);
    let diff = told(&rt, &mut session, false);
    is(&rt, counts(&diff), (1, 1));
    drop(diff);
    drop(session);
    zone.close(&rt);
}

// Edits that are dropped leave every handle's sets.
#[test]
fn drops_edits_without_a_trace(rt: HostRuntime) {
    let alloc = rt.alloc();
    let mut zone = opened(&rt, alloc, 1);
    let handle = zone.read(&rt).expect(&rt, "memory");
    let mut session = zone.write(alloc);
    session.want_difference(true);
    session.clear_all().expect(&rt, "memory");
    drop(session);
    let owner = NameRef::from_octets(HOST).expect(&rt, "a name");
    assert!(rt; handle.rrset_at(&owner, Rtype::A).is_some());
    let mut session = zone.write(alloc);
    put_soa(&rt, alloc, &mut session, 2);
    tells_nothing(&rt, &mut session);
    let later = session.handle().expect(&rt, "memory");
    assert!(rt; later.rrset_at(&owner, Rtype::A).is_some());
    is(&rt, session.into_desk().current().version_number(), 2);
    drop(later);
    drop(handle);
    zone.close(&rt);
}

// The SOA is the one of the version that is read, whatever was committed since.
#[test]
fn gives_the_soa_of_a_version(rt: HostRuntime) {
    let alloc = rt.alloc();
    let mut zone = opened(&rt, alloc, 7);
    let before = zone.read(&rt).expect(&rt, "memory");
    let mut session = zone.write(alloc);
    put_soa(&rt, alloc, &mut session, 8);
    commit(&rt, &mut session);
    drop(session);
    let now = zone.read(&rt).expect(&rt, "memory");
    is(&rt, serial_in(&zone, &before), Some(Serial::from(7)));
    is(&rt, serial_in(&zone, &now), Some(Serial::from(8)));
    drop(now);
    drop(before);
    zone.close(&rt);
}

/// The serial of a version's first SOA record.
fn serial_in(zone: &ZoneApex, read: &ReadZone) -> Option<Serial> {
    match zone.get_soa(read)?.data().first()? {
        ZoneRecordData::Soa(soa) => Some(soa.serial),
        _ => None,
    }
}

#[test]
fn prepares_names_of_the_zone(rt: HostRuntime) {
    let alloc = rt.alloc();
    let zone = zone(&rt, alloc);
    let below = name(&rt, alloc, b"\x01b\x01T\x07EXAMPLE\x00");
    let mut labels = zone.prepare_name(&below).ok().expect(&rt, "labels");
    let first = labels.next().expect(&rt, "a label");
    is(&rt, first.as_slice(), b"T".as_slice());
    let second = labels.next().expect(&rt, "a label");
    is(&rt, second.as_slice(), b"b".as_slice());
    assert!(rt; labels.next().is_none());
    let outside = name(&rt, alloc, b"\x01b\x00");
    assert!(rt; zone.prepare_name(&outside).is_err());
    drop(outside);
    drop(below);
    zone.close(&rt);
}
