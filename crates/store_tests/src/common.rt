// Names, records, sets and zones that several modules of tests use.

use dns_name::{NameRef, StoredName};
use dns_numbers::{Class, Rtype, Serial, Ttl};
use dns_rdata::{
    A, Cname, Ds, Ns, Record, RecordData, Soa, StoredRecord, StoredRecordData, ZoneRecordData,
};
use std::alloc::Global;
use std::fmt::{self, Debug, Write};
use std::process::Abort;
use std::sync::Wait;
use zone_store::{WriteZone, ZoneApex};
use zone_types::{AnswerRecords, InMemoryZoneDiff, Rrset, SharedRrset, ZoneDiff, ZoneDiffItem};

pub(crate) const APEX: &[u8] = b"\x07example\x00";

pub(crate) const SERVER: &[u8] = b"\x02ns\x07example\x00";

pub(crate) const HOST: &[u8] = b"\x01t\x07example\x00";

/// Asserts that a value is the one that is wanted. A call of this is proved sooner than an `assert_eq!`.
pub(crate) fn is<R: Abort, T: PartialEq + Debug + Drop>(rt: &R, found: T, wanted: T) {
    assert_eq!(rt; found, wanted);
    drop(wanted);
    drop(found);
}

/// Asserts that a value says this.
pub(crate) fn says<R: Abort, T: fmt::Display>(rt: &R, alloc: Global, value: &T, wanted: &str) {
    let mut said = String::new(alloc);
    write!(said, "{value}").expect(rt, "memory");
    is(rt, said.as_str(), wanted);
    drop(said);
}

/// Asserts what a value's `Debug` says.
pub(crate) fn shows<R: Abort, T: Debug>(rt: &R, alloc: Global, value: &T, wanted: &str) {
    let mut said = String::new(alloc);
    write!(said, "{value:?}").expect(rt, "memory");
    is(rt, said.as_str(), wanted);
    drop(said);
}

pub(crate) fn name<R: Abort>(rt: &R, alloc: Global, octets: &[u8]) -> StoredName {
    let found = NameRef::from_octets(octets).expect(rt, "a name");
    found.store(alloc).expect(rt, "memory")
}

fn record_of<R: Abort>(
    rt: &R,
    alloc: Global,
    owner: &[u8],
    ttl: u32,
    data: StoredRecordData,
) -> StoredRecord {
    let owner = name(rt, alloc, owner);
    Record::new(owner, Class::IN, Ttl::from_int(ttl), data)
}

/// The address 192.0.2.`last`.
pub(crate) fn host(last: u8) -> StoredRecordData {
    ZoneRecordData::A(A::new([192, 0, 2, last]))
}

pub(crate) fn target<R: Abort>(rt: &R, alloc: Global, octets: &[u8]) -> StoredRecordData {
    ZoneRecordData::Cname(Cname::new(name(rt, alloc, octets)))
}

pub(crate) fn address<R: Abort>(
    rt: &R,
    alloc: Global,
    owner: &[u8],
    ttl: u32,
    last: u8,
) -> StoredRecord {
    record_of(rt, alloc, owner, ttl, host(last))
}

pub(crate) fn alias<R: Abort>(rt: &R, alloc: Global, owner: &[u8], other: &[u8]) -> StoredRecord {
    record_of(rt, alloc, owner, 60, target(rt, alloc, other))
}

pub(crate) fn server<R: Abort>(
    rt: &R,
    alloc: Global,
    owner: &[u8],
    ttl: u32,
    other: &[u8],
) -> StoredRecord {
    let data = ZoneRecordData::Ns(Ns::new(name(rt, alloc, other)));
    record_of(rt, alloc, owner, ttl, data)
}

/// A DS record.
pub(crate) fn signer<R: Abort>(rt: &R, alloc: Global, owner: &[u8]) -> StoredRecord {
    let digest = Ds::new(1, 8, 2, b"digest".as_slice());
    let data: ZoneRecordData<&[u8], StoredName> = ZoneRecordData::Ds(
        digest.ok().expect(rt, "short data"),
    );
    let data = data.flatten(alloc).expect(rt, "memory");
    record_of(rt, alloc, owner, 60, data)
}

pub(crate) fn soa<R: Abort>(rt: &R, alloc: Global, serial: u32) -> Soa<StoredName> {
    let primary = name(rt, alloc, SERVER);
    let mailbox = name(rt, alloc, b"\x04host\x07example\x00");
    let serial = Serial::from(serial);
    let time = Ttl::from_int(1);
    Soa::new(primary, mailbox, serial, time, time, time, time)
}

/// How many records a section of an answer has.
pub(crate) fn count_records(section: AnswerRecords<'_>) -> usize {
    let mut number = 0_usize;
    for record in section {
        number = number.saturating_add(1);
        drop(record);
    }
    number
}

/// The set of one record.
pub(crate) fn set_of<R: Abort>(rt: &R, alloc: Global, first: StoredRecord) -> SharedRrset {
    let set = Rrset::from_record(alloc, first).expect(rt, "memory");
    set.into_shared(alloc).expect(rt, "memory")
}

/// The set of one SOA record at the apex.
pub(crate) fn soa_set<R: Abort>(rt: &R, alloc: Global, serial: u32) -> SharedRrset {
    let data = ZoneRecordData::Soa(soa(rt, alloc, serial));
    set_of(rt, alloc, record_of(rt, alloc, APEX, 3600, data))
}

/// Puts data of a set's type last.
pub(crate) fn push<R: Abort>(rt: &R, set: &mut Rrset, item: StoredRecordData) {
    assert!(rt; item.rtype() == set.rtype());
    set.push_data(item).expect(rt, "memory");
}

/// The addresses 192.0.2.1 to 192.0.2.3.
pub(crate) fn three<R: Abort>(rt: &R, alloc: Global, ttl: u32) -> SharedRrset {
    let mut set = Rrset::new(alloc, Rtype::A, Ttl::from_int(ttl));
    push(rt, &mut set, host(1));
    push(rt, &mut set, host(2));
    push(rt, &mut set, host(3));
    set.into_shared(alloc).expect(rt, "memory")
}

/// Two aliases of one name.
pub(crate) fn aliases<R: Abort>(rt: &R, alloc: Global, first: &[u8], second: &[u8]) -> SharedRrset {
    let mut set = Rrset::new(alloc, Rtype::CNAME, Ttl::from_int(30));
    push(rt, &mut set, target(rt, alloc, first));
    push(rt, &mut set, target(rt, alloc, second));
    set.into_shared(alloc).expect(rt, "memory")
}

/// How many records a set has, and their type.
fn shown<R: Abort, I: ZoneDiffItem + Drop>(rt: &R, item: Option<I>) -> (usize, Rtype) {
    let item = item.expect(rt, "an item");
    let shown = (item.value().as_rrset().data().len(), item.key().rtype());
    drop(item);
    shown
}

/// Asserts that a difference leads from the serial 1 to 2, and that three addresses at t, of the TTL 3600, come back with the TTL 60.
pub(crate) fn changes_the_ttl<R: Abort>(rt: &R, alloc: Global, diff: &InMemoryZoneDiff) {
    is(rt, diff.start_serial(), Serial::from(1));
    is(rt, diff.end_serial(), Serial::from(2));
    is(rt, diff.removed_len(), 2);
    is(rt, diff.added_len(), 2);
    is(rt, shown(rt, diff.removed_at(0)), (1, Rtype::SOA));
    is(rt, shown(rt, diff.removed_at(1)), (3, Rtype::A));
    is(rt, shown(rt, diff.added_at(0)), (1, Rtype::SOA));
    is(rt, shown(rt, diff.added_at(1)), (3, Rtype::A));
    assert!(rt; diff.added_at(2).is_none());
    let owner = name(rt, alloc, HOST);
    let set = diff.get_added(&owner, Rtype::A).expect(rt, "a set");
    is(rt, set.as_rrset().ttl(), Ttl::from_int(60));
    let set = diff.get_removed(&owner, Rtype::A).expect(rt, "a set");
    is(rt, set.as_rrset().ttl(), Ttl::from_int(3600));
    assert!(rt; diff.get_added(&owner, Rtype::SOA).is_none());
    drop(owner);
}

/// The zone `Example.` before any edit.
pub(crate) fn zone<R: Abort>(rt: &R, alloc: Global) -> ZoneApex {
    let apex = name(rt, alloc, b"\x07Example\x00");
    ZoneApex::new(alloc, apex, Class::IN).expect(rt, "memory")
}

pub(crate) fn add<R: Abort>(rt: &R, session: &mut WriteZone<'_>, added: StoredRecord) {
    session.add_record(added).expect(rt, "a new record");
}

pub(crate) fn put_soa<R: Abort>(rt: &R, alloc: Global, session: &mut WriteZone<'_>, serial: u32) {
    let soa = soa(rt, alloc, serial);
    session
        .set_soa(Ttl::from_int(3600), soa)
        .expect(rt, "memory");
}

/// Commits what is pending, and leaves aside what is told of it.
pub(crate) fn commit<R: Abort + Wait>(rt: &R, session: &mut WriteZone<'_>) {
    let told = session.commit(rt, false).expect(rt, "a version");
    drop(told);
}

/// A zone of the SOA 1, a server, and addresses at ns and at a.
pub(crate) fn filled<R: Abort + Wait>(rt: &R, alloc: Global) -> ZoneApex {
    let mut zone = zone(rt, alloc);
    let mut session = zone.write(alloc);
    let first = address(rt, alloc, b"\x02ns\x07EXAMPLE\x00", 60, 2);
    add(rt, &mut session, first);
    put_soa(rt, alloc, &mut session, 1);
    let second = address(rt, alloc, b"\x01a\x07example\x00", 60, 1);
    add(rt, &mut session, second);
    add(rt, &mut session, server(rt, alloc, APEX, 3600, SERVER));
    commit(rt, &mut session);
    drop(session);
    zone
}
