// The keys of edits, and what two versions differ in at them.
ghost use Rattle.zone_model.specs.Version.{IsValid};

use crate::common::{APEX, HOST, address, changes_the_ttl, is, name, soa};
use dns_numbers::{Class, Rtype, Ttl};
use dns_rdata::StoredRecord;
use std::alloc::Global;
use std::process::Abort;
use std::sync::{Arc, Wait};
use zone_changes::{Draft, TouchedKeys};
use zone_types::InMemoryZoneDiff;
use zone_versions::{NodeCount, SetKey, ZoneVersion};

fn add<R: Abort>(rt: &R, alloc: Global, draft: &mut Draft, added: StoredRecord) {
    assert!(rt; draft.shown().refusal(&added).is_none());
    let key = SetKey::new(added.owner(), added.rtype());
    let ttl = added.ttl();
    let mut steps = NodeCount::new();
    draft
        .add(alloc, key, ttl, added.into_data(), &mut steps)
        .expect(rt, "no refusal");
}

fn delete<R: Abort>(rt: &R, draft: &mut Draft, deleted: StoredRecord) {
    assert!(rt; draft.shown().deletion_refusal(&deleted).is_none());
    let mut steps = NodeCount::new();
    draft.remove(&deleted, &mut steps).expect(rt, "memory");
    drop(deleted);
}

/// Makes the apex SOA set one of this serial.
fn set_serial<R: Abort>(rt: &R, alloc: Global, draft: &mut Draft, serial: u32) {
    let soa = soa(rt, alloc, serial);
    draft
        .set_soa(alloc, Ttl::from_int(3600), soa)
        .expect(rt, "memory");
}

/// A zone without records.
fn empty<R: Abort>(rt: &R, alloc: Global) -> Arc<ZoneVersion>
    ensures { IsValid result.value }
{
    let empty = ZoneVersion::empty(alloc, &name(rt, alloc, APEX), Class::IN);
    Arc::new(alloc, empty.expect(rt, "memory")).expect(rt, "memory")
}

/// The zone of serial 1 with three addresses of the TTL 3600.
fn zone<R: Abort>(rt: &R, alloc: Global) -> Arc<ZoneVersion>
    ensures { IsValid result.value }
{
    let base = empty(rt, alloc);
    let mut draft = Draft::of(alloc, base).expect(rt, "memory");
    set_serial(rt, alloc, &mut draft, 1);
    add(rt, alloc, &mut draft, address(rt, alloc, HOST, 3600, 1));
    add(rt, alloc, &mut draft, address(rt, alloc, HOST, 3600, 2));
    add(rt, alloc, &mut draft, address(rt, alloc, HOST, 3600, 3));
    let closed = draft.into_closed(false).ok().expect(rt, "memory");
    let version = closed.share().expect(rt, "memory");
    drop(closed);
    version
}

/// The difference that a commit of a draft tells.
fn told_of<R: Abort>(rt: &R, alloc: Global, draft: Draft) -> Option<InMemoryZoneDiff> {
    let closed = draft.into_closed(false).ok().expect(rt, "memory");
    let told = closed.difference(alloc).expect(rt, "memory");
    drop(closed);
    told
}

/// The difference from the zone to the one of a serial in which the addresses have the TTL 60.
fn told<R: Abort>(rt: &R, alloc: Global, serial: u32) -> Option<InMemoryZoneDiff> {
    let mut draft = Draft::of(alloc, zone(rt, alloc)).expect(rt, "memory");
    delete(rt, &mut draft, address(rt, alloc, HOST, 60, 3));
    add(rt, alloc, &mut draft, address(rt, alloc, HOST, 60, 3));
    set_serial(rt, alloc, &mut draft, serial);
    told_of(rt, alloc, draft)
}

#[test]
fn three_addresses_change_their_ttl(rt: HostRuntime) {
    let alloc = rt.alloc();
    let diff = told(&rt, alloc, 2).expect(&rt, "a difference");
    changes_the_ttl(&rt, alloc, &diff);
    drop(diff);
}

#[test]
fn a_whole_zone_in_place_of_the_old_one(rt: HostRuntime) {
    let alloc = rt.alloc();
    let mut draft = Draft::of(alloc, zone(&rt, alloc)).expect(&rt, "memory");
    draft.clear_all(alloc).expect(&rt, "memory");
    set_serial(&rt, alloc, &mut draft, 2);
    add(&rt, alloc, &mut draft, address(&rt, alloc, HOST, 60, 1));
    add(&rt, alloc, &mut draft, address(&rt, alloc, HOST, 60, 2));
    add(&rt, alloc, &mut draft, address(&rt, alloc, HOST, 60, 3));
    let diff = told_of(&rt, alloc, draft).expect(&rt, "a difference");
    changes_the_ttl(&rt, alloc, &diff);
    drop(diff);
}

/// Asserts that nothing is told of a change from the serial 1 to this one.
fn tells_nothing<R: Abort + Wait>(rt: &R, alloc: Global, serial: u32) {
    let told = told(rt, alloc, serial);
    assert!(rt; told.is_none());
    drop(told);
}

#[test]
fn no_later_serial_no_difference(rt: HostRuntime) {
    let alloc = rt.alloc();
    tells_nothing(&rt, alloc, 1);
    tells_nothing(&rt, alloc, 0);
    tells_nothing(&rt, alloc, 0x8000_0002);
}

#[test]
fn keys_at_and_below_a_name(rt: HostRuntime) {
    let alloc = rt.alloc();
    let zone = zone(&rt, alloc);
    let mut touched = TouchedKeys::new(alloc);
    assert!(rt; touched.is_empty());
    touched.note_strays(&zone).expect(&rt, "memory");
    is(&rt, touched.len(), 0);
    let owner = name(&rt, alloc, HOST);
    touched.note_below(&zone, &owner).expect(&rt, "memory");
    drop(owner);
    is(&rt, touched.len(), 1);
    let first = touched.iter().next().expect(&rt, "a key").rtype();
    is(&rt, first, Rtype::A);
    touched.note_below(&zone, zone.apex()).expect(&rt, "memory");
    is(&rt, touched.len(), 2);
    touched.clear();
    assert!(rt; touched.is_empty());
    drop(touched);
    drop(zone);
}
