//! Requests for the zone `example.`, as a primary answers them.

use crate::common::{
    EXAMPLE, KEY, NS_EXAMPLE, assert_texts, digits_of, empty_zone, is, shared_key, stored_name,
};
use dns_name::StoredName;
use dns_numbers::{Class, Rtype, Serial, Ttl};
use dns_rdata::{A, Ns, Record, Soa, StoredRecord, StoredRecordData, ZoneRecordData};
use dns_wire::{AdditionalBuilder, Header, MessageBuf, MessageBuilder, Question};
use std::alloc::Global;
use std::process::Abort;
use std::sync::Wait;
use tsig_port::{ClientSequence, Key, Time48, ValidationError};
use xfr_server::{
    CallResult, HistoryProvider, PrimaryStack, RefuseSvc, ReplyStream, Request, Service,
    ServiceError, ServiceFeedback, TransportSpecificContext, TsigMiddlewareSvc,
    XfrDataProviderError, XfrMiddlewareSvc,
};
use zone_store::{ReadZone, WriteZone};

/// The services of a primary whose provider has the zone's history.
pub(crate) type Primary = PrimaryStack<RefuseSvc, HistoryProvider, Key>;

fn new_record<R: Abort>(
    rt: &R,
    alloc: Global,
    owner: &[u8],
    rdata: StoredRecordData,
) -> StoredRecord {
    let owner = stored_name(rt, alloc, owner);
    Record::new(owner, Class::IN, Ttl::from_int(3600), rdata)
}

fn soa() -> StoredRecordData {
    let zero = Ttl::from_int(0);
    ZoneRecordData::Soa(Soa::new(
        StoredName::root(),
        StoredName::root(),
        Serial::from(1),
        zero,
        zero,
        zero,
        zero,
    ))
}

/// Adds a record to a session.
fn add<R: Abort>(
    rt: &R,
    alloc: Global,
    session: &mut WriteZone<'_>,
    owner: &[u8],
    rdata: StoredRecordData,
) {
    let record = new_record(rt, alloc, owner, rdata);
    session.add_record(record).expect(rt, "a record");
}

fn fill<R: Abort + Wait>(rt: &R, alloc: Global, session: &mut WriteZone<'_>) {
    add(rt, alloc, session, EXAMPLE, soa());
    let server = ZoneRecordData::Ns(Ns::new(stored_name(rt, alloc, NS_EXAMPLE)));
    add(rt, alloc, session, EXAMPLE, server);
    for last in [1, 2] {
        let address = ZoneRecordData::A(A::new([192, 0, 2, last]));
        add(rt, alloc, session, NS_EXAMPLE, address);
    }
    session.commit(rt, false).expect(rt, "a version");
}

pub(crate) fn example_zone<R: Abort + Wait>(rt: &R, alloc: Global) -> ReadZone {
    let mut zone = empty_zone(rt, alloc);
    let mut session = zone.write(alloc);
    fill(rt, alloc, &mut session);
    let version = session.handle().expect(rt, "memory");
    drop(session);
    zone.close(rt);
    version
}

/// A primary of the zone `example.`, which grants it to the key or to none.
pub(crate) fn primary<R: Abort + Wait>(rt: &R, alloc: Global, grants: bool) -> Primary {
    let mut provider = HistoryProvider::new(alloc, example_zone(rt, alloc));
    let key = shared_key(rt, KEY);
    if grants {
        let name = key.name().duplicate();
        provider.grant(name, key.algorithm()).expect(rt, "memory");
    }
    let transfers = XfrMiddlewareSvc::new(RefuseSvc, provider);
    TsigMiddlewareSvc::new(transfers, key)
}

pub(crate) fn axfr_question<R: Abort>(rt: &R, alloc: Global, class: Class) -> AdditionalBuilder {
    let mut builder = MessageBuilder::new(alloc).expect(rt, "memory");
    builder.set_header(Header::new(1000));
    let mut section = builder.question();
    let question = Question::new(stored_name(rt, alloc, EXAMPLE), Rtype::AXFR, class);
    section.push(&question).expect(rt, "room");
    drop(question);
    section.additional()
}

/// The moment of all requests.
pub(crate) fn at() -> Time48 {
    Time48::from_u64(1000)
}

/// All items that the primary gives in answer.
fn items<R: Abort + Wait>(
    rt: &R,
    alloc: Global,
    primary: &Primary,
    message: MessageBuf,
) -> Vec<CallResult> {
    let request = Request::new(message, TransportSpecificContext::NonUdp, at(), ());
    let mut stream = primary.call(rt, alloc, request).expect(rt, "replies");
    let mut items = Vec::new(alloc);
    for _ in 0..9u8 {
        let Some(item) = stream.next_item() else {
            break;
        };
        let item = item.expect(rt, "an item");
        items.push(item).expect(rt, "memory");
    }
    drop(stream);
    items
}

/// The octets of an item's reply.
fn reply_octets<R: Abort>(rt: &R, alloc: Global, item: &CallResult) -> Vec<u8> {
    let reply = item.response().expect(rt, "a reply");
    reply.as_slice().to_vec(alloc).expect(rt, "memory")
}

/// The octets of the only item, which is a reply without feedback.
fn only_reply<R: Abort>(rt: &R, alloc: Global, items: Vec<CallResult>) -> Vec<u8> {
    let mut items = items;
    let item = items.pop().expect(rt, "an item");
    let is_only = items.is_empty();
    drop(items);
    assert!(rt; is_only);
    let is_plain = item.feedback().is_none();
    assert!(rt; is_plain);
    let octets = reply_octets(rt, alloc, &item);
    drop(item);
    octets
}

/// What the primary answers to a question signed by the key of this name, and the sequence that takes its replies.
fn signed_items<R: Abort + Wait>(
    rt: &R,
    alloc: Global,
    grants: bool,
    class: Class,
    name: &[u8],
) -> (Vec<CallResult>, ClientSequence<Key>) {
    let mut question = axfr_question(rt, alloc, class);
    let key = shared_key(rt, name);
    let client = ClientSequence::request(key, &mut question, at()).expect(rt, "a signature");
    let primary = primary(rt, alloc, grants);
    let items = items(rt, alloc, &primary, question.finish());
    drop(primary);
    (items, client)
}

/// The reply as the sequence takes it.
fn taken<R: Abort>(rt: &R, client: &mut ClientSequence<Key>, reply: Vec<u8>) -> MessageBuf {
    let mut message = MessageBuf::from_octets(reply).expect(rt, "a header");
    client
        .answer(&mut message, at())
        .expect(rt, "a good signature");
    message
}

/// The types of a message's answers.
fn answer_types<R: Abort>(rt: &R, alloc: Global, message: &MessageBuf) -> Vec<u16> {
    let mut types = Vec::new(alloc);
    for head in message.answer().expect(rt, "an answer section") {
        let head = head.expect(rt, "a record");
        types.push(head.rtype().to_int()).expect(rt, "memory");
    }
    types
}

#[test]
fn unsigned_request_is_refused_without_tsig(rt: HostRuntime) {
    let alloc = rt.alloc();
    let request = axfr_question(&rt, alloc, Class::IN).finish();
    let primary = primary(&rt, alloc, true);
    let items = items(&rt, alloc, &primary, request);
    drop(primary);
    let reply = only_reply(&rt, alloc, items);
    let digits = digits_of(&rt, alloc, reply.as_slice());
    // REFUSED, and the question.
    let whole = "03e880050001000000000000\
076578616d706c650000fc0001";
    let reply_digits = digits.as_str();
    is(&rt, reply_digits, whole);
    drop(digits);
    drop(reply);
}

#[test]
fn unknown_key_is_told_so(rt: HostRuntime) {
    let alloc = rt.alloc();
    let (items, mut client) = signed_items(&rt, alloc, true, Class::IN, NS_EXAMPLE);
    let reply = only_reply(&rt, alloc, items);
    let digits = digits_of(&rt, alloc, reply.as_slice());
    // NOTAUTH, the question, and a TSIG record without a MAC (RFC 8945, 4.2 and 5.3.2): the key's name, type, class ANY, TTL 0 and
    // length; the algorithm, the time 1000, the fudge 300, no MAC, the id, the error 17, no other data.
    let whole = "03e880090001000000000001\
076578616d706c650000fc0001\
026e73076578616d706c650000fa00ff00000000001d\
0b686d61632d73686132353600\
0000000003e8012c000003e800110000";
    let reply_digits = digits.as_str();
    is(&rt, reply_digits, whole);
    drop(digits);
    let mut message = MessageBuf::from_octets(reply).expect(&rt, "a header");
    let taken = client.answer(&mut message, at());
    is(&rt, taken, Err(ValidationError::ServerBadKey));
    drop(message);
    drop(client);
}

/// Asserts that a signed question's reply has these first octets, and its signature after them, which is good.
fn is_refused<R: Abort + Wait>(rt: &R, alloc: Global, grants: bool, class: Class, first: &str) {
    let (items, mut client) = signed_items(rt, alloc, grants, class, KEY);
    let reply = only_reply(rt, alloc, items);
    let digits = digits_of(rt, alloc, reply.as_slice());
    let len = digits.len();
    let starts_so = digits.starts_with(first);
    drop(digits);
    is(rt, len, 2 * (25 + 76));
    assert!(rt; starts_so);
    drop(taken(rt, &mut client, reply));
    drop(client);
}

#[test]
fn another_class_is_not_authoritative(rt: HostRuntime) {
    let first = "03e880090001000000000001076578616d706c650000fc0003";
    is_refused(&rt, rt.alloc(), true, Class::from_int(3), first);
}

#[test]
fn key_that_is_not_granted_is_refused(rt: HostRuntime) {
    let first = "03e880050001000000000001076578616d706c650000fc0001";
    is_refused(&rt, rt.alloc(), false, Class::IN, first);
}

#[test]
fn granted_key_gets_the_zone_in_one_signed_message(rt: HostRuntime) {
    let alloc = rt.alloc();
    let (items, mut client) = signed_items(&rt, alloc, true, Class::IN, KEY);
    assert!(rt; items.len() == 3);
    let first = items[0].feedback();
    let last = items[2].feedback();
    let reply = reply_octets(&rt, alloc, &items[1]);
    is(&rt, first, Some(ServiceFeedback::BeginTransaction));
    is(&rt, last, Some(ServiceFeedback::EndTransaction));
    drop(items);
    let message = taken(&rt, &mut client, reply);
    drop(client);
    let digits = digits_of(&rt, alloc, message.as_slice());
    let starts_so = digits.starts_with("03e884000001000500000000");
    drop(digits);
    assert!(rt; starts_so);
    let types = answer_types(&rt, alloc, &message);
    let numbers = types.as_slice();
    is(&rt, numbers, [6, 2, 1, 1, 6].as_slice());
    drop(types);
    drop(message);
}

#[test]
fn what_errors_print(rt: HostRuntime) {
    let services = [ServiceError::InternalError, ServiceError::Memory];
    let texts = "the reply can't be made\nout of memory\n";
    assert_texts(&rt, rt.alloc(), &services, texts);
    let providers = [
        XfrDataProviderError::ParseError,
        XfrDataProviderError::UnknownZone,
        XfrDataProviderError::Refused,
        XfrDataProviderError::TemporarilyUnavailable,
        XfrDataProviderError::Memory,
    ];
    let texts = "\
the question can't be read
unknown zone
refused
temporarily unavailable
out of memory
";
    assert_texts(&rt, rt.alloc(), &providers, texts);
}
