// A zone of four records, from its session to its walk.

use crate::common::{APEX, SERVER, add, address, alias, commit, filled, is, name, server, zone};
use crate::zonefile_tests::text;
use dns_name::NameRef;
use dns_numbers::{Class, Rtype, Ttl};
use dns_rdata::{StoredRecord, record_from_octets};
use std::alloc::Global;
use std::process::Abort;
use std::sync::Wait;
use zone_store::{EditError, InsertError, NodeCount, ReadZone, WriteZone, ZoneBuilder};

const A: &[u8] = b"\x01a\x07example\x00";

const B: &[u8] = b"\x01b\x07example\x00";

/// An address record of b, as it is sent.
const SENT: &[u8] = b"\x01B\x07example\x00\x00\x01\x00\x01\x00\x00\x00\x3c\x00\x04\xc0\x00\x02\x07";

/// Whether a version has a set.
fn has_set<R: Abort>(rt: &R, zone: &ReadZone, owner: &[u8], rtype: Rtype) -> bool {
    let owner = NameRef::from_octets(owner).expect(rt, "a name");
    zone.rrset_at(&owner, rtype).is_some()
}

#[test]
fn walks_in_order(rt: HostRuntime) {
    let apex = filled(&rt, rt.alloc());
    let zone = apex.read(&rt).expect(&rt, "memory");
    is(&rt, zone.version_number(), 1);
    let first = zone.first_rrset().expect(&rt, "a set");
    is(&rt, first.rtype(), Rtype::NS);
    is(&rt, first.owner().as_slice(), b"\x07Example\x00".as_slice());
    assert!(rt; !first.below_cut());
    let owner = NameRef::from_octets(APEX).expect(&rt, "a name");
    let second = zone.next_rrset(&owner, Rtype::NS).expect(&rt, "a set");
    is(&rt, second.rtype(), Rtype::SOA);
    drop(second);
    let third = zone
        .next_rrset(first.owner(), Rtype::SOA)
        .expect(&rt, "a third set");
    is(&rt, third.rtype(), Rtype::A);
    is(&rt, third.owner().as_slice(), A);
    is(&rt, third.ttl(), Ttl::from_int(60));
    is(&rt, third.items().len(), 1);
    let fourth = zone
        .next_rrset(third.owner(), third.rtype())
        .expect(&rt, "a fourth set");
    is(&rt, fourth.owner().as_slice(), SERVER);
    let last = zone.next_rrset(fourth.owner(), fourth.rtype());
    assert!(rt; last.is_none());
    drop(last);
    drop(fourth);
    drop(third);
    drop(first);
    drop(zone);
    apex.close(&rt);
}

#[test]
fn flags_what_is_below_a_cut(rt: HostRuntime) {
    let alloc = rt.alloc();
    let mut zone = filled(&rt, alloc);
    let mut session = zone.write(alloc);
    let below = b"\x02ns\x01a\x07example\x00";
    let cut = server(&rt, alloc, b"\x01A\x07example\x00", 3600, below);
    add(&rt, &mut session, cut);
    add(&rt, &mut session, address(&rt, alloc, below, 60, 3));
    commit(&rt, &mut session);
    let read = session.handle().expect(&rt, "memory");
    let mut flags = Vec::new(alloc);
    for stop in read.iter_rrsets() {
        flags.push(stop.below_cut()).expect(&rt, "memory");
        drop(stop);
    }
    // NS and SOA of the apex; A and NS of a, A of ns.a; A of ns.
    is(
        &rt,
        flags.as_slice(),
        [false, false, true, true, true, false].as_slice(),
    );
    drop(flags);
    let upper = b"\x02NS\x07example\x00";
    assert!(rt; has_set(&rt, &read, upper, Rtype::A));
    assert!(rt; !has_set(&rt, &read, upper, Rtype::NS));
    drop(read);
    drop(session);
    zone.close(&rt);
}

/// The number of a session's current version.
fn number_in<R: Abort>(rt: &R, session: &mut WriteZone<'_>) -> u64 {
    let read = session.handle().expect(rt, "memory");
    let number = read.version_number();
    drop(read);
    number
}

#[test]
fn counts_commits(rt: HostRuntime) {
    let mut zone = filled(&rt, rt.alloc());
    let mut session = zone.write(rt.alloc());
    commit(&rt, &mut session);
    commit(&rt, &mut session);
    is(&rt, number_in(&rt, &mut session), 3);
    is(&rt, number_in(&rt, &mut session), 3);
    drop(session);
    let read = zone.read(&rt).expect(&rt, "memory");
    is(&rt, read.version_number(), 3);
    drop(read);
    zone.close(&rt);
}

#[test]
fn drops_what_is_pending(rt: HostRuntime) {
    let alloc = rt.alloc();
    let mut zone = zone(&rt, alloc);
    let mut session = zone.write(alloc);
    let same = server(&rt, alloc, APEX, 3600, SERVER);
    add(&rt, &mut session, server(&rt, alloc, APEX, 3600, SERVER));
    assert!(rt; session.has_data(&same));
    session.rollback();
    assert!(rt; !session.has_data(&same));
    add(&rt, &mut session, same);
    drop(session);
    let read = zone.read(&rt).expect(&rt, "memory");
    assert!(rt; read.first_rrset().is_none());
    drop(read);
    zone.close(&rt);
}

#[test]
fn keeps_a_handles_version(rt: HostRuntime) {
    let mut zone = filled(&rt, rt.alloc());
    let before = zone.read(&rt).expect(&rt, "memory");
    let mut session = zone.write(rt.alloc());
    session.clear_all().expect(&rt, "memory");
    commit(&rt, &mut session);
    let after = session.handle().expect(&rt, "memory");
    assert!(rt; after.first_rrset().is_none());
    assert!(rt; before.first_rrset().is_some());
    is(&rt, before.version_number(), 1);
    drop(after);
    drop(session);
    drop(before);
    zone.close(&rt);
}

#[test]
fn refuses_what_does_not_fit(rt: HostRuntime) {
    let alloc = rt.alloc();
    let mut zone = filled(&rt, alloc);
    let mut session = zone.write(alloc);
    let outside = session.add_record(address(&rt, alloc, b"\x03com\x00", 60, 1));
    is(&rt, outside, Err(EditError::OutOfZone));
    let again = session.add_record(address(&rt, alloc, b"\x02NS\x07example\x00", 60, 2));
    is(&rt, again, Err(EditError::Incompatible));
    commit(&rt, &mut session);
    drop(session);
    zone.close(&rt);
}

#[test]
fn opens_with_what_was_inserted(rt: HostRuntime) {
    let alloc = rt.alloc();
    let apex = name(&rt, alloc, b"\x07Example\x00");
    let mut builder = ZoneBuilder::new(alloc, apex, Class::IN);
    let first = address(&rt, alloc, A, 60, 1);
    builder.insert(first).expect(&rt, "an address");
    let same = address(&rt, alloc, b"\x01A\x07example\x00", 60, 1);
    builder.insert(same).expect(&rt, "an address");
    let outside = builder.insert(address(&rt, alloc, b"\x03com\x00", 60, 1));
    is(&rt, outside, Err(InsertError::OutOfZone));
    let zone = builder.build().expect(&rt, "memory");
    let read = zone.read(&rt).expect(&rt, "memory");
    is(&rt, read.version_number(), 0);
    let first = read.first_rrset().expect(&rt, "a set");
    is(&rt, first.items().len(), 1);
    drop(first);
    drop(read);
    zone.close(&rt);
}

#[test]
fn opens_with_one_alias_of_a_name(rt: HostRuntime) {
    let alloc = rt.alloc();
    let mut builder = ZoneBuilder::new(alloc, name(&rt, alloc, APEX), Class::IN);
    let first = alias(&rt, alloc, A, B);
    builder.insert(first).expect(&rt, "an alias");
    let same = alias(&rt, alloc, b"\x01A\x07example\x00", b"\x01B\x07example\x00");
    builder.insert(same).expect(&rt, "the same alias");
    let other = builder.insert(alias(&rt, alloc, A, b"\x01c\x07example\x00"));
    is(&rt, other, Err(InsertError::InvalidData));
    drop(builder);
}

#[test]
fn a_session_refuses_a_second_alias(rt: HostRuntime) {
    let alloc = rt.alloc();
    let mut zone = filled(&rt, alloc);
    let mut session = zone.write(alloc);
    add(&rt, &mut session, alias(&rt, alloc, B, A));
    let other = alias(&rt, alloc, b"\x01B\x07example\x00", b"\x01c\x07example\x00");
    let refused = session.add_record(other);
    is(&rt, refused, Err(EditError::InvalidData));
    commit(&rt, &mut session);
    drop(session);
    zone.close(&rt);
}

/// What the deletion of a record gives.
fn deleted(session: &mut WriteZone<'_>, record: StoredRecord) -> Result<(), EditError> {
    let told = session.delete_record(&record);
    drop(record);
    told
}

#[test]
fn takes_a_record_as_it_is_sent(rt: HostRuntime) {
    let alloc = rt.alloc();
    let mut zone = filled(&rt, alloc);
    let mut session = zone.write(alloc);
    let sent = record_from_octets(SENT).expect(&rt, "a record");
    let lacking = session.delete_any(&sent);
    is(&rt, lacking, Err(EditError::Incompatible));
    is(&rt, session.add_any(&sent), Ok(()));
    let again = session.add_record(address(&rt, alloc, B, 60, 7));
    is(&rt, again, Err(EditError::Incompatible));
    let there = session.add_any(&sent);
    is(&rt, there, Err(EditError::Incompatible));
    commit(&rt, &mut session);
    let first = session.add_any(&sent);
    is(&rt, first, Err(EditError::Incompatible));
    is(&rt, session.delete_any(&sent), Ok(()));
    drop(sent);
    drop(session);
    zone.close(&rt);
}

#[test]
fn deletes_the_last_data_of_a_set(rt: HostRuntime) {
    let alloc = rt.alloc();
    let mut zone = filled(&rt, alloc);
    let mut session = zone.write(alloc);
    let lacking = deleted(&mut session, address(&rt, alloc, A, 60, 9));
    is(&rt, lacking, Err(EditError::Incompatible));
    let last = address(&rt, alloc, b"\x01A\x07example\x00", 60, 1);
    is(&rt, deleted(&mut session, last), Ok(()));
    commit(&rt, &mut session);
    let read = session.handle().expect(&rt, "memory");
    assert!(rt; !has_set(&rt, &read, A, Rtype::A));
    drop(read);
    drop(session);
    zone.close(&rt);
}

/// A server of the apex, named by one letter below it.
fn lettered<R: Abort>(rt: &R, alloc: Global, letter: u8) -> StoredRecord {
    let target = [1, letter, 7, b'e', b'x', b'a', b'm', b'p', b'l', b'e', 0];
    server(rt, alloc, APEX, 3600, &target)
}

/// Adds the servers from a to t, and counts those that are refused.
fn add_servers<R: Abort>(rt: &R, alloc: Global, session: &mut WriteZone<'_>) -> usize {
    let mut refused = 0_usize;
    for letter in b'a'..b'u' {
        if session.add_record(lettered(rt, alloc, letter)).is_err() {
            refused = refused.saturating_add(1);
        }
    }
    refused
}

#[test]
fn finds_equal_data_among_many(rt: HostRuntime) {
    let alloc = rt.alloc();
    let mut zone = filled(&rt, alloc);
    let mut session = zone.write(alloc);
    is(&rt, add_servers(&rt, alloc, &mut session), 0);
    is(&rt, add_servers(&rt, alloc, &mut session), 20);
    let again = session.add_record(lettered(&rt, alloc, b'T'));
    is(&rt, again, Err(EditError::Incompatible));
    let there = deleted(&mut session, lettered(&rt, alloc, b'C'));
    is(&rt, there, Ok(()));
    let lacking = deleted(&mut session, lettered(&rt, alloc, b'c'));
    is(&rt, lacking, Err(EditError::Incompatible));
    commit(&rt, &mut session);
    is(&rt, add_servers(&rt, alloc, &mut session), 19);
    drop(session);
    zone.close(&rt);
}

/// Whether a record is added, and how many nodes were built so far.
fn add_counted(
    session: &mut WriteZone<'_>,
    record: StoredRecord,
    steps: &mut NodeCount,
) -> (bool, u64) {
    let is_added = session.add_record_counted(record, steps).is_ok();
    (is_added, steps.get())
}

/// The same of a deletion.
fn delete_counted(
    session: &mut WriteZone<'_>,
    record: StoredRecord,
    steps: &mut NodeCount,
) -> (bool, u64) {
    let is_deleted = session.delete_record_counted(&record, steps).is_ok();
    drop(record);
    (is_deleted, steps.get())
}

#[test]
fn counts_the_nodes_of_edits(rt: HostRuntime) {
    let alloc = rt.alloc();
    let first = b"\x01a\x01b\x07example\x00";
    let second = b"\x01c\x01B\x07example\x00";
    let mut steps = NodeCount::new();
    let mut zone = zone(&rt, alloc);
    let mut session = zone.write(alloc);
    let added = address(&rt, alloc, first, 60, 1);
    let told = add_counted(&mut session, added, &mut steps);
    is(&rt, told, (true, 2));
    let added = address(&rt, alloc, second, 60, 1);
    let told = add_counted(&mut session, added, &mut steps);
    is(&rt, told, (true, 3));
    let told = add_counted(&mut session, text(&rt, alloc, second, 1), &mut steps);
    is(&rt, told, (true, 4));
    let again = add_counted(&mut session, text(&rt, alloc, second, 1), &mut steps);
    is(&rt, again, (false, 4));
    let there = delete_counted(&mut session, text(&rt, alloc, second, 1), &mut steps);
    is(&rt, there, (true, 5));
    let lacking = delete_counted(&mut session, text(&rt, alloc, second, 1), &mut steps);
    is(&rt, lacking, (false, 5));
    let deleted = address(&rt, alloc, second, 60, 1);
    let there = delete_counted(&mut session, deleted, &mut steps);
    is(&rt, there, (true, 5));
    let deleted = address(&rt, alloc, first, 60, 1);
    let there = delete_counted(&mut session, deleted, &mut steps);
    is(&rt, there, (true, 5));
    drop(session);
    zone.close(&rt);
}

/// The number of the session's current version, and whether it has addresses of a and of b.
fn current_of<R: Abort>(rt: &R, session: &mut WriteZone<'_>) -> (u64, bool, bool) {
    let read = session.handle().expect(rt, "memory");
    let (a, b) = (
        has_set(rt, &read, A, Rtype::A),
        has_set(rt, &read, B, Rtype::A),
    );
    let current = (read.version_number(), a, b);
    drop(read);
    current
}

/// Whether a commit is made.
fn commits<R: Wait>(rt: &R, session: &mut WriteZone<'_>) -> bool {
    let told = session.commit(rt, false);
    let is_made = told.is_ok();
    drop(told);
    is_made
}

/// With memory a record is added and committed, and then all are removed. An edit or a commit that is refused an allocation
/// (`tools/refused-memory`) leaves what is pending and what is current as they were.
#[test]
fn stays_as_it_was_in_want_of_memory(rt: HostRuntime) {
    let alloc = rt.alloc();
    let same = address(&rt, alloc, B, 60, 3);
    let added = address(&rt, alloc, B, 60, 3);
    let mut zone = filled(&rt, alloc);
    let mut session = zone.write(alloc);
    let is_added = session.add_record(added).is_ok();
    let has_added = session.has_data(&same);
    is(&rt, has_added, is_added);
    let current = current_of(&rt, &mut session);
    is(&rt, current, (1, true, false));
    let is_made = commits(&rt, &mut session);
    let number = 1 + u64::from(is_made);
    let is_current = is_added && is_made;
    let current = current_of(&rt, &mut session);
    is(&rt, current, (number, true, is_current));
    let is_cleared = session.clear_all().is_ok();
    let has_added = session.has_data(&same);
    is(&rt, has_added, is_added && !is_cleared);
    let current = current_of(&rt, &mut session);
    is(&rt, current, (number, true, is_current));
    drop(session);
    zone.close(&rt);
    drop(same);
}
