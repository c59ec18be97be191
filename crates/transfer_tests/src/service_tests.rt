//! What the transfer service sends, message by message (RFC 5936, 2.2; RFC 1995, 2 and 4). Each wanted message is a header and question as RFC
//! 1035, 4.1 has them, and records as dnspython writes them. Of the zone of RFC 1995, 7 a record has 75 octets (`soa-N`), 37 (`ns`), 29 (`ns-a`),
//! 31 (`nezu-5`) or 34 (`bb-N`), and header and question have 28.
ghost use Rattle.std.specs.Prelude.{◌≡◌};

use crate::common::{KEY, digits_of, is, octets_of, shared_key};
use crate::transfer_vectors::{RECORDS, digits_at, octets_at};
use crate::updater_tests::{JAIN, zone_at};
use crate::xfr_server_tests::at;
use dns_rdata::record_from_octets;
use dns_wire::MessageBuf;
use std::alloc::Global;
use std::process::Abort;
use std::sync::Wait;
use tsig_port::Key;
use xfr_server::{
    CallResult, HistoryProvider, RefuseSvc, ReplyStream, Request, Service, ServiceFeedback,
    TransportSpecificContext, XfrDataProvider, XfrMiddlewareSvc, commits_may_be_pushed,
};
use zone_store::{Close, WriteZone, Zone, ZoneApex};

/// A request for the zone of RFC 1995, 7 by AXFR.
const AXFR: &str = "07cb00000001000000000000046a61696e026164026a700000fc0001";

/// By IXFR, before the record in the authority section.
const IXFR: &str = "07cb00000001000000010000046a61696e026164026a700000fb0001";

/// The text of the first version, and of the third, and the differences that lead from the first to the third.
const WHOLE_1: &str = "begin;00fc0005 soa-1 ns nezu-5 ns-a soa-1;end";

const WHOLE_3: &str = "begin;00fc0006 soa-3 ns bb-2 bb-3 ns-a soa-3;end";

const CHANGES: &str =
    "begin;00fb000b soa-3 soa-1 nezu-5 soa-2 bb-4 bb-2 soa-2 bb-4 soa-3 bb-3 soa-3;end";

/// Adds the record of a word, or deletes it.
fn edit<R: Abort>(rt: &R, alloc: Global, session: &mut WriteZone<'_>, word: &str, adds: bool)
    ensures { session.new.current ≡ session.old.current }
{
    let octets = octets_at(rt, alloc, RECORDS, word);
    let found = record_from_octets(octets.as_slice()).expect(rt, "a record");
    let edited = if adds {
        session.add_any(&found)
    } else {
        session.delete_any(&found)
    };
    drop(found);
    drop(octets);
    edited.expect(rt, "an edit");
}

/// Publishes the first version.
fn first_version<R: Abort + Wait>(rt: &R, alloc: Global, session: &mut WriteZone<'_>) {
    edit(rt, alloc, session, "soa-1", true);
    edit(rt, alloc, session, "ns", true);
    edit(rt, alloc, session, "ns-a", true);
    edit(rt, alloc, session, "nezu-5", true);
    drop(session.commit(rt, false).expect(rt, "a version"));
}

/// Makes the second version.
fn edit_second<R: Abort>(rt: &R, alloc: Global, session: &mut WriteZone<'_>)
    ensures { session.new.current ≡ session.old.current }
{
    edit(rt, alloc, session, "soa-1", false);
    edit(rt, alloc, session, "nezu-5", false);
    edit(rt, alloc, session, "soa-2", true);
    edit(rt, alloc, session, "bb-4", true);
    edit(rt, alloc, session, "bb-2", true);
}

/// Makes the third version.
fn edit_third<R: Abort>(rt: &R, alloc: Global, session: &mut WriteZone<'_>)
    ensures { session.new.current ≡ session.old.current }
{
    edit(rt, alloc, session, "soa-2", false);
    edit(rt, alloc, session, "bb-4", false);
    edit(rt, alloc, session, "soa-3", true);
    edit(rt, alloc, session, "bb-3", true);
}

/// Publishes what is pending, and pushes it with its difference.
fn push<R: Abort + Wait>(rt: &R, session: &mut WriteZone<'_>, provider: &mut HistoryProvider)
    requires { provider.old.kept ≡ session.old.current.version }
    ensures { provider.new.kept ≡ session.new.current.version }
{
    // For the proof: what a commit tells may be pushed.
    commits_may_be_pushed();
    session.want_difference(true);
    let told = session.commit(rt, false).expect(rt, "a version");
    let next = session.handle().expect(rt, "memory");
    provider.push(next, told).expect(rt, "memory");
}

/// A provider that keeps the version that is current, and grants it to the key.
fn keeper<R: Abort>(
    rt: &R,
    alloc: Global,
    session: &mut WriteZone<'_>,
    compatibility_mode: bool,
) -> HistoryProvider
    ensures kept { result.kept ≡ session.new.current.version }
    ensures same { session.new.current ≡ session.old.current }
{
    let version = session.handle().expect(rt, "memory");
    let mut provider = HistoryProvider::new(alloc, version);
    let key = shared_key(rt, KEY);
    let name = key.name().duplicate();
    provider.grant(name, key.algorithm()).expect(rt, "memory");
    drop(key);
    provider.set_compatibility(compatibility_mode);
    provider
}

/// A provider of the three versions.
fn three_versions<R: Abort + Wait>(
    rt: &R,
    alloc: Global,
    compatibility_mode: bool,
) -> HistoryProvider {
    let mut zone = zone_at(rt, alloc, JAIN);
    let mut session = zone.write(alloc);
    first_version(rt, alloc, &mut session);
    let mut provider = keeper(rt, alloc, &mut session, compatibility_mode);
    edit_second(rt, alloc, &mut session);
    push(rt, &mut session, &mut provider);
    edit_third(rt, alloc, &mut session);
    push(rt, &mut session, &mut provider);
    drop(session);
    zone.close(rt);
    provider
}

/// The zone with its first version.
fn first_zone<R: Abort + Wait>(rt: &R, alloc: Global) -> Zone<ZoneApex> {
    let mut zone = zone_at(rt, alloc, JAIN);
    let mut session = zone.write(alloc);
    first_version(rt, alloc, &mut session);
    drop(session);
    Zone::new(zone)
}

/// The message that digits spell.
fn message<R: Abort>(rt: &R, alloc: Global, digits: &str) -> MessageBuf {
    MessageBuf::from_octets(octets_of(rt, alloc, digits)).expect(rt, "a header")
}

/// A request by IXFR from the serial of an SOA record.
fn ixfr<R: Abort>(rt: &R, alloc: Global, soa: &str) -> MessageBuf {
    let mut digits = String::new(alloc);
    digits.push_str(IXFR).expect(rt, "memory");
    let known = digits_at(RECORDS, soa).expect(rt, "a word");
    digits.push_str(known).expect(rt, "memory");
    let asked = message(rt, alloc, digits.as_str());
    drop(digits);
    asked
}

/// What an item is, with a space after it: `begin`, `end`, or the digits of its message.
fn push_item<R: Abort>(rt: &R, alloc: Global, text: &mut String, item: &CallResult) {
    match item.feedback() {
        Some(ServiceFeedback::BeginTransaction) => text.push_str("begin").expect(rt, "memory"),
        Some(ServiceFeedback::EndTransaction) => text.push_str("end").expect(rt, "memory"),
        None => {}
    }
    if let Some(reply) = item.response() {
        let digits = digits_of(rt, alloc, reply.as_slice());
        text.push_str(digits.as_str()).expect(rt, "memory");
        drop(digits);
    }
    text.push_str(" ").expect(rt, "memory");
}

/// All items of a stream.
pub(crate) fn pulled<R: Abort, S: ReplyStream>(rt: &R, alloc: Global, stream: &mut S) -> String {
    let mut text = String::new(alloc);
    for _ in 0..16_u8 {
        let Some(item) = stream.next_item() else {
            break;
        };
        let item = item.expect(rt, "an item");
        push_item(rt, alloc, &mut text, &item);
        drop(item);
    }
    text
}

/// All items in answer to a message of which so many octets are reserved.
fn sent<R: Abort + Wait, M: Default + Drop, X: XfrDataProvider<M> + Drop>(
    rt: &R,
    alloc: Global,
    provider: X,
    asked: MessageBuf,
    transport: TransportSpecificContext,
    reserved: u16,
    metadata: M,
) -> String {
    let (text, provider) = sent_of(rt, alloc, provider, asked, transport, reserved, metadata);
    drop(provider);
    text
}

/// The same, and the provider again.
fn sent_of<R: Abort + Wait, M: Default + Drop, X: XfrDataProvider<M>>(
    rt: &R,
    alloc: Global,
    provider: X,
    asked: MessageBuf,
    transport: TransportSpecificContext,
    reserved: u16,
    metadata: M,
) -> (String, X) {
    let mut request = Request::new(asked, transport, at(), metadata);
    request.reserve_bytes(reserved);
    let service = XfrMiddlewareSvc::new(RefuseSvc, provider);
    let mut stream = service.call(rt, alloc, request).expect(rt, "replies");
    let text = pulled(rt, alloc, &mut stream);
    drop(stream);
    let (_, provider) = service.into_parts();
    (text, provider)
}

/// The same text of items in a line: between semicolons the feedback, or a message: the question's type, the count of records, and their words,
/// of which large ones have data of so many octets.
fn wanted<R: Abort>(rt: &R, alloc: Global, line: &str, len: u16) -> String {
    let mut text = String::new(alloc);
    for item in line.split(';') {
        push_wanted(rt, alloc, &mut text, item, len);
        text.push_str(" ").expect(rt, "memory");
    }
    text
}

/// Appends one item of a line.
fn push_wanted<R: Abort>(rt: &R, alloc: Global, text: &mut String, item: &str, len: u16) {
    let Some((head, words)) = item.split_once(' ') else {
        text.push_str(item).expect(rt, "memory");
        return;
    };
    let (qtype, count) = head.split_at_checked(4).expect(rt, "a type and a count");
    text.push_str("07cb84000001").expect(rt, "memory");
    text.push_str(count).expect(rt, "memory");
    text.push_str("00000000046a61696e026164026a7000")
        .expect(rt, "memory");
    text.push_str(qtype).expect(rt, "memory");
    text.push_str("0001").expect(rt, "memory");
    for word in words.split_ascii_whitespace() {
        push_record(rt, alloc, text, word, len);
    }
}

/// Appends the record of a word, or the large one whose octet is the word's length.
fn push_record<R: Abort>(rt: &R, alloc: Global, text: &mut String, word: &str, len: u16) {
    if let Some(digits) = digits_at(RECORDS, word) {
        text.push_str(digits).expect(rt, "memory");
        return;
    }
    let octet = u8::try_from(word.len()).ok().expect(rt, "a short word");
    let octets = large(rt, alloc, octet, len);
    let digits = digits_of(rt, alloc, octets.as_slice());
    drop(octets);
    text.push_str(digits.as_str()).expect(rt, "memory");
    drop(digits);
}

/// Asserts the items of a line.
fn are<R: Abort>(rt: &R, alloc: Global, found: String, line: &str) {
    let line = wanted(rt, alloc, line, 0);
    is(rt, found.as_str(), line.as_str());
    drop(line);
    drop(found);
}

/// What is sent of the first version by a stream, in messages of up to so many octets.
fn axfr_within<R: Abort + Wait>(rt: &R, alloc: Global, limit: u16) -> String {
    let asked = message(rt, alloc, AXFR);
    let reserved = 65_535 - limit;
    let stream = TransportSpecificContext::NonUdp;
    let zone = first_zone(rt, alloc);
    let (text, zone) = sent_of(rt, alloc, zone, asked, stream, reserved, ());
    zone.close(rt);
    text
}

// The whole text has 247 octets, and its first two records 112.
#[test]
fn a_full_transfer_fills_its_messages(rt: HostRuntime) {
    let alloc = rt.alloc();
    let one = axfr_within(&rt, alloc, 275);
    are(&rt, alloc, one, WHOLE_1);
    let less = axfr_within(&rt, alloc, 274);
    let two = "begin;00fc0004 soa-1 ns nezu-5 ns-a;00fc0001 soa-1;end";
    are(&rt, alloc, less, two);
    let exact = axfr_within(&rt, alloc, 140);
    let three = "begin;00fc0002 soa-1 ns;00fc0002 nezu-5 ns-a;00fc0001 soa-1;end";
    are(&rt, alloc, exact, three);
    let less = axfr_within(&rt, alloc, 139);
    let three = "begin;00fc0001 soa-1;00fc0003 ns nezu-5 ns-a;00fc0001 soa-1;end";
    are(&rt, alloc, less, three);
}

// SERVFAIL in place of a record that has no room in a message of its own, and nothing after it.
#[test]
fn a_record_without_room_is_a_failure(rt: HostRuntime) {
    let alloc = rt.alloc();
    let found = axfr_within(&rt, alloc, 102);
    let failure = "begin 07cb80020001000000000000046a61696e026164026a700000fc0001 ";
    is(&rt, found.as_str(), failure);
    drop(found);
}

/// What is sent in answer to a message by the key's owner.
fn sent_to_key<R: Abort + Wait>(
    rt: &R,
    alloc: Global,
    provider: HistoryProvider,
    asked: MessageBuf,
    transport: TransportSpecificContext,
) -> String {
    let key: Option<Key> = Some(shared_key(rt, KEY));
    sent(rt, alloc, provider, asked, transport, 0, key)
}

/// The same of the three versions.
fn sent_of_three<R: Abort + Wait>(
    rt: &R,
    alloc: Global,
    compatibility_mode: bool,
    asked: MessageBuf,
    transport: TransportSpecificContext,
) -> String {
    let provider = three_versions(rt, alloc, compatibility_mode);
    sent_to_key(rt, alloc, provider, asked, transport)
}

// The differences to one who has a serial of them, the SOA alone to one who has caught up, else the whole text.
#[test]
fn differences_are_sent(rt: HostRuntime) {
    let alloc = rt.alloc();
    let stream = TransportSpecificContext::NonUdp;
    let all = sent_of_three(&rt, alloc, false, ixfr(&rt, alloc, "soa-1"), stream);
    are(&rt, alloc, all, CHANGES);
    let last = sent_of_three(&rt, alloc, false, ixfr(&rt, alloc, "soa-2"), stream);
    let one = "begin;00fb0006 soa-3 soa-2 bb-4 soa-3 bb-3 soa-3;end";
    are(&rt, alloc, last, one);
    let none = sent_of_three(&rt, alloc, false, ixfr(&rt, alloc, "soa-3"), stream);
    are(&rt, alloc, none, "00fb0001 soa-3");
    let full = sent_of_three(&rt, alloc, false, message(&rt, alloc, AXFR), stream);
    are(&rt, alloc, full, WHOLE_3);
}

// One record a message, where the whole text is sent (RFC 5936, 7).
#[test]
fn compatibility_is_heeded(rt: HostRuntime) {
    let alloc = rt.alloc();
    let stream = TransportSpecificContext::NonUdp;
    let full = sent_of_three(&rt, alloc, true, message(&rt, alloc, AXFR), stream);
    let singles =
        "begin;00fc0001 soa-3;00fc0001 ns;00fc0001 bb-2;00fc0001 bb-3;00fc0001 ns-a;00fc0001 soa-3;end";
    are(&rt, alloc, full, singles);
    let changes = sent_of_three(&rt, alloc, true, ixfr(&rt, alloc, "soa-1"), stream);
    are(&rt, alloc, changes, CHANGES);
}

// By UDP one message without feedback, of up to as many octets as the requestor takes: the text of 617, or the SOA, or SERVFAIL; 512 where
// it says nothing.
#[test]
fn udp_has_one_message(rt: HostRuntime) {
    let alloc = rt.alloc();
    let exact = TransportSpecificContext::Udp(Some(645));
    let all = sent_of_three(&rt, alloc, false, ixfr(&rt, alloc, "soa-1"), exact);
    let changes = "00fb000b soa-3 soa-1 nezu-5 soa-2 bb-4 bb-2 soa-2 bb-4 soa-3 bb-3 soa-3";
    are(&rt, alloc, all, changes);
    let less = TransportSpecificContext::Udp(Some(644));
    let soa = sent_of_three(&rt, alloc, false, ixfr(&rt, alloc, "soa-1"), less);
    are(&rt, alloc, soa, "00fb0001 soa-3");
    let unsaid = TransportSpecificContext::Udp(None);
    let soa = sent_of_three(&rt, alloc, false, ixfr(&rt, alloc, "soa-1"), unsaid);
    are(&rt, alloc, soa, "00fb0001 soa-3");
    let small = TransportSpecificContext::Udp(Some(102));
    let found = sent_of_three(&rt, alloc, false, ixfr(&rt, alloc, "soa-1"), small);
    let failure = "07cb80020001000000000000046a61696e026164026a700000fb0001 ";
    is(&rt, found.as_str(), failure);
    drop(found);
    let found = sent_of_three(&rt, alloc, false, message(&rt, alloc, AXFR), exact);
    let not_done = "07cb80040001000000000000046a61696e026164026a700000fc0001 ";
    is(&rt, found.as_str(), not_done);
    drop(found);
}

// A stream tells of the version that was current as it began, whatever is published while it is pulled.
#[test]
fn a_commit_changes_no_stream(rt: HostRuntime) {
    let alloc = rt.alloc();
    let asked = message(&rt, alloc, AXFR);
    let request = Request::new(asked, TransportSpecificContext::NonUdp, at(), ());
    let service = XfrMiddlewareSvc::new(RefuseSvc, first_zone(&rt, alloc));
    let mut stream = service.call(&rt, alloc, request).expect(&rt, "replies");
    let (_, mut zone) = service.into_parts();
    let mut session = zone.write(alloc);
    edit_second(&rt, alloc, &mut session);
    drop(session.commit(&rt, false).expect(&rt, "a version"));
    drop(session);
    let found = pulled(&rt, alloc, &mut stream);
    drop(stream);
    zone.close(&rt);
    are(&rt, alloc, found, WHOLE_1);
}

/// A record of the apex of type 65280 in wire form, whose data are so many of this octet.
fn large<R: Abort>(rt: &R, alloc: Global, octet: u8, len: u16) -> Vec<u8> {
    let mut octets = octets_of(rt, alloc, JAIN);
    octets
        .extend_from_slice(b"\xff\x00\x00\x01\x00\x00\x0e\x10")
        .expect(rt, "memory");
    octets
        .extend_from_slice(&len.to_be_bytes())
        .expect(rt, "memory");
    for _ in 0..len {
        octets.push(octet).expect(rt, "memory");
    }
    octets
}

/// Adds such a record.
fn add_large<R: Abort>(rt: &R, alloc: Global, session: &mut WriteZone<'_>, octet: u8, len: u16)
    ensures { session.new.current ≡ session.old.current }
{
    let octets = large(rt, alloc, octet, len);
    let found = record_from_octets(octets.as_slice()).expect(rt, "a record");
    let added = session.add_any(&found);
    drop(found);
    drop(octets);
    added.expect(rt, "an edit");
}

/// What is sent by a stream, with the 76 octets of a TSIG reserved, of a zone with an SOA record and so many of these records, of the octets 1, 2 and
/// so on.
fn axfr_of_large<R: Abort + Wait>(rt: &R, alloc: Global, count: u8, len: u16) -> String {
    let mut zone = zone_at(rt, alloc, JAIN);
    let mut session = zone.write(alloc);
    edit(rt, alloc, &mut session, "soa-1", true);
    for before in 0..count {
        add_large(rt, alloc, &mut session, before + 1, len);
    }
    drop(session.commit(rt, false).expect(rt, "a version"));
    drop(session);
    let asked = message(rt, alloc, AXFR);
    let stream = TransportSpecificContext::NonUdp;
    let (text, zone) = sent_of(rt, alloc, Zone::new(zone), asked, stream, 76, ());
    zone.close(rt);
    text
}

/// Asserts the items of a line, in which a word stands for a large record: that of the octet 1 is `x`, of 2 `xx` and so on.
fn are_large<R: Abort + Wait>(rt: &R, alloc: Global, count: u8, len: u16, line: &str) {
    let found = axfr_of_large(rt, alloc, count, len);
    let line = wanted(rt, alloc, line, len);
    let is_same = found.as_str() == line.as_str();
    drop(line);
    drop(found);
    assert!(rt; is_same);
}

// Each message may have 65,459 octets. Three records of 32,022 octets don't fit one; 75, 65,281 and 75 octets do, and one octet more doesn't.
#[test]
fn three_messages_leave_room_for_a_tsig(rt: HostRuntime) {
    let alloc = rt.alloc();
    let three = "begin;00fc0003 soa-1 x xx;00fc0002 xxx xxxx;00fc0002 xxxxx soa-1;end";
    are_large(&rt, alloc, 5, 32_000, three);
    are_large(&rt, alloc, 1, 65_259, "begin;00fc0003 soa-1 x soa-1;end");
    let two = "begin;00fc0002 soa-1 x;00fc0001 soa-1;end";
    are_large(&rt, alloc, 1, 65_260, two);
}

/// A provider of the first version, and of one that has a large record more.
fn with_large<R: Abort + Wait>(rt: &R, alloc: Global, len: u16) -> HistoryProvider {
    let mut zone = zone_at(rt, alloc, JAIN);
    let mut session = zone.write(alloc);
    first_version(rt, alloc, &mut session);
    let mut provider = keeper(rt, alloc, &mut session, false);
    edit(rt, alloc, &mut session, "soa-1", false);
    edit(rt, alloc, &mut session, "soa-2", true);
    add_large(rt, alloc, &mut session, 1, len);
    push(rt, &mut session, &mut provider);
    drop(session);
    zone.close(rt);
    provider
}

/// What is sent by UDP to one who has the first version and says nothing of sizes, with the 76 octets of a TSIG reserved.
fn sent_by_udp<R: Abort + Wait>(rt: &R, alloc: Global, len: u16) -> String {
    let provider = with_large(rt, alloc, len);
    let asked = ixfr(rt, alloc, "soa-1");
    let key: Option<Key> = Some(shared_key(rt, KEY));
    let unsaid = TransportSpecificContext::Udp(None);
    sent(rt, alloc, provider, asked, unsaid, 76, key)
}

// By UDP 436 octets, 512 less the TSIG's 76: header and question have 28, four SOA records 300, and the large record 22 and its data. So with 86 octets
// of data the differences go whole, and one octet more is answered by the SOA alone.
#[test]
fn udp_leaves_room_for_a_tsig(rt: HostRuntime) {
    let alloc = rt.alloc();
    let whole = sent_by_udp(&rt, alloc, 86);
    let line = wanted(&rt, alloc, "00fb0005 soa-2 soa-1 soa-2 x soa-2", 86);
    is(&rt, whole.as_str(), line.as_str());
    drop(line);
    drop(whole);
    let soa = sent_by_udp(&rt, alloc, 87);
    are(&rt, alloc, soa, "00fb0001 soa-2");
}
