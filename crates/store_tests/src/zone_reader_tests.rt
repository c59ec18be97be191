// Zones that are opened for readers: what these read beside sessions that commit, and how many there may be.
ghost use Rattle.std.specs.Prelude.{◌≡◌};

use crate::common::{APEX, HOST, add, address, is, name};
use dns_name::NameRef;
use dns_numbers::{Class, Rcode, Rtype};
use published::ReaderError;
use std::alloc::Global;
use std::process::Abort;
use std::sync::Wait;
use zone_file::ZoneBuilder;
use zone_store::{Desk, MOST_READERS, ReadZone, ReadableZone, Receipt, ZoneReader};

const A: &[u8] = b"\x01a\x07example\x00";

/// A builder of the zone `example.` with an address of t.
fn builder<R: Abort>(rt: &R, alloc: Global) -> ZoneBuilder {
    let mut builder = ZoneBuilder::new(alloc, name(rt, alloc, APEX), Class::IN);
    let added = address(rt, alloc, HOST, 60, 1);
    builder.insert(added).expect(rt, "a record of the zone");
    builder
}

/// A zone with an address of t, whose version has this number.
fn opened<R: Abort + Wait>(rt: &R, alloc: Global, number: u64) -> (ZoneReader, Desk)
    ensures { result.0.book ≡ result.1.book }
{
    builder(rt, alloc).open_at(rt, number).expect(rt, "memory")
}

/// Commits an address of a name that has none, and gives word of it.
fn commit_host<R: Abort + Wait>(rt: &R, alloc: Global, desk: &mut Desk, owner: &[u8]) -> Receipt
    ensures { result.book ≡ desk.old.book }
{
    let added = address(rt, alloc, owner, 60, 2);
    let mut session = desk.write(alloc);
    session.add_record(added).expect(rt, "a new record");
    drop(session.commit(rt, false).expect(rt, "a version"));
    let receipt = session.receipt().expect(rt, "memory");
    drop(session);
    receipt
}

/// The number of what a reader holds.
fn held_number(reader: &ZoneReader) -> u64 {
    reader.held().version_number()
}

/// The number of what a reader gives.
fn read_number<R: Abort>(rt: &R, reader: &mut ZoneReader) -> u64
    ensures { reader.new.book ≡ reader.old.book }
{
    let read = reader.read().expect(rt, "memory");
    let number = read.version_number();
    drop(read);
    number
}

#[test]
fn a_commit_is_read_by_readers_that_learnt_nothing(rt: HostRuntime) {
    let alloc = rt.alloc();
    let (mut reader, mut desk) = opened(&rt, alloc, 7);
    let mut other = reader.another().expect(&rt, "a place");
    drop(commit_host(&rt, alloc, &mut desk, A));
    is(&rt, desk.current().version_number(), 8);
    is(&rt, held_number(&reader), 7);
    is(&rt, read_number(&rt, &mut reader), 8);
    is(&rt, held_number(&reader), 8);
    is(&rt, read_number(&rt, &mut other), 8);
    is(&rt, (reader.refused(), other.refused()), (0, 0));
    desk.close(&rt);
    drop(other);
    drop(reader);
}

/// Asserts which number a handle has, that its walk stops at the addresses of these owners and nowhere else, and what it answers for a.
fn answers<R: Abort>(rt: &R, read: &ReadZone, number: u64, owners: &[&[u8]], rcode: Rcode) {
    is(rt, read.version_number(), number);
    let mut stops = read.iter_rrsets();
    for owner in owners {
        let stop = stops.next().expect(rt, "a set");
        is(rt, stop.owner().as_slice(), *owner);
        is(rt, stop.rtype(), Rtype::A);
        drop(stop);
    }
    let after = stops.next();
    assert!(rt; after.is_none());
    drop(after);
    drop(stops);
    let qname = NameRef::from_octets(A).expect(rt, "a name");
    let found = read.look_up(&qname, Rtype::A);
    let found = found.expect(rt, "a name of the zone");
    is(rt, found.rcode(), rcode);
    drop(found);
}

#[test]
fn a_handle_stays_beside_a_commit(rt: HostRuntime) {
    let alloc = rt.alloc();
    let (mut reader, mut desk) = opened(&rt, alloc, 7);
    let before = reader.read().expect(&rt, "memory");
    drop(commit_host(&rt, alloc, &mut desk, A));
    let after = reader.read().expect(&rt, "memory");
    answers(&rt, &before, 7, [HOST].as_slice(), Rcode::NXDOMAIN);
    answers(&rt, &after, 8, [A, HOST].as_slice(), Rcode::NOERROR);
    desk.close(&rt);
    answers(&rt, &before, 7, [HOST].as_slice(), Rcode::NXDOMAIN);
    drop(after);
    drop(before);
    drop(reader);
}

/// The number of what a reader gives after a receipt.
fn number_after<R: Abort>(rt: &R, reader: &mut ZoneReader, receipt: &Receipt) -> u64
    ensures { reader.new.book ≡ reader.old.book }
{
    let read = reader.read_after(receipt).expect(rt, "memory");
    let number = read.version_number();
    drop(read);
    number
}

#[test]
fn a_receipt_is_learnt(rt: HostRuntime) {
    let alloc = rt.alloc();
    let (mut reader, mut desk) = opened(&rt, alloc, 7);
    let mut receipt = commit_host(&rt, alloc, &mut desk, A);
    reader.learn(&mut receipt).expect(&rt, "memory");
    is(&rt, receipt.entry().version_number(), 8);
    is(&rt, held_number(&reader), 8);
    desk.close(&rt);
    is(&rt, read_number(&rt, &mut reader), 8);
    drop(receipt);
    drop(reader);
}

#[test]
fn a_reader_reads_after_a_receipt(rt: HostRuntime) {
    let alloc = rt.alloc();
    let (mut reader, mut desk) = opened(&rt, alloc, 7);
    let first = commit_host(&rt, alloc, &mut desk, A);
    is(&rt, number_after(&rt, &mut reader, &first), 8);
    let second = commit_host(&rt, alloc, &mut desk, b"\x01b\x07example\x00");
    is(&rt, number_after(&rt, &mut reader, &first), 9);
    is(&rt, number_after(&rt, &mut reader, &second), 9);
    desk.close(&rt);
    drop(second);
    drop(first);
    drop(reader);
}

#[test]
fn a_receipt_of_another_zone(rt: HostRuntime) {
    let alloc = rt.alloc();
    let (other, mut other_desk) = opened(&rt, alloc, 20);
    let greater = commit_host(&rt, alloc, &mut other_desk, A);
    other_desk.close(&rt);
    drop(other);
    let (mut reader, desk) = opened(&rt, alloc, 7);
    let read = reader.read_after(&greater).expect(&rt, "memory");
    answers(&rt, &read, 21, [A, HOST].as_slice(), Rcode::NOERROR);
    drop(read);
    is(&rt, held_number(&reader), 7);
    desk.close(&rt);
    drop(reader);
    drop(greater);
}

/// So many other readers.
fn others<R: Abort>(
    rt: &R,
    alloc: Global,
    reader: &mut ZoneReader,
    count: usize,
) -> Vec<ZoneReader> {
    let mut others = Vec::new(alloc);
    for _ in 0..count {
        let other = reader.another().expect(rt, "a place");
        others.push(other).expect(rt, "memory");
    }
    others
}

#[test]
fn sixteen_other_readers(rt: HostRuntime) {
    let alloc = rt.alloc();
    is(&rt, MOST_READERS, 17);
    let (mut reader, desk) = opened(&rt, alloc, 7);
    let mut all = others(&rt, alloc, &mut reader, 16);
    let refused = reader.another().err();
    is(&rt, refused, Some(ReaderError::NoPlace));
    is(&rt, reader.refused(), 1);
    drop(all.pop());
    let mut again = reader.another().expect(&rt, "a place");
    is(&rt, read_number(&rt, &mut again), 7);
    is(&rt, (reader.refused(), again.refused()), (1, 0));
    desk.close(&rt);
    drop(again);
    drop(all);
    drop(reader);
}

#[test]
fn a_desk_with_one_place(rt: HostRuntime) {
    let alloc = rt.alloc();
    let first = builder(&rt, alloc).into_read(7).expect(&rt, "memory");
    let opened = Desk::open(alloc, &rt, first, 1);
    let (mut reader, desk) = opened.expect(&rt, "memory");
    let refused = reader.another().err();
    is(&rt, refused, Some(ReaderError::NoPlace));
    is(&rt, reader.refused(), 1);
    is(&rt, read_number(&rt, &mut reader), 7);
    desk.close(&rt);
    drop(reader);
}

#[test]
fn a_desk_that_was_closed(rt: HostRuntime) {
    let alloc = rt.alloc();
    let (mut reader, mut desk) = opened(&rt, alloc, 7);
    drop(commit_host(&rt, alloc, &mut desk, A));
    desk.close(&rt);
    is(&rt, reader.refused(), 0);
    is(&rt, read_number(&rt, &mut reader), 7);
    is(&rt, reader.refused(), 1);
    reader.refresh().expect(&rt, "memory");
    is(&rt, (held_number(&reader), reader.refused()), (7, 2));
    drop(reader);
}

// What a refused allocation leaves: tools/refused-memory refuses each in turn.
#[test]
fn a_zone_is_opened_for_readers_or_not_in_want_of_memory(rt: HostRuntime) {
    let alloc = rt.alloc();
    let builder = builder(&rt, alloc);
    let Ok((reader, desk)) = builder.open_at(&rt, 7) else {
        return;
    };
    let current = desk.current().version_number();
    is(&rt, (held_number(&reader), current), (7, 7));
    desk.close(&rt);
    drop(reader);
}

/// The number of what a reader gives, or none where memory is refused. Then it is the one that it holds.
fn number_or_none(reader: &mut ZoneReader) -> Option<u64> {
    match reader.read() {
        Ok(read) => {
            let number = read.version_number();
            drop(read);
            Some(number)
        }
        Err(_) => None,
    }
}

#[test]
fn readers_see_a_whole_commit_or_none_in_want_of_memory(rt: HostRuntime) {
    let alloc = rt.alloc();
    let (mut reader, mut desk) = opened(&rt, alloc, 7);
    let mut session = desk.write(alloc);
    add(&rt, &mut session, address(&rt, alloc, A, 60, 2));
    let told = session.commit(&rt, false);
    let is_made = told.is_ok();
    drop(told);
    drop(session);
    let now = 7 + u64::from(is_made);
    is(&rt, desk.current().version_number(), now);
    let found = number_or_none(&mut reader);
    is(&rt, found.is_none() || found == Some(now), true);
    let other = reader.another();
    let is_memory = other
        .as_ref()
        .err()
        .is_none_or(|e| *e == ReaderError::Memory);
    is(&rt, (is_memory, reader.refused()), (true, 0));
    desk.close(&rt);
    drop(other);
    drop(reader);
}
