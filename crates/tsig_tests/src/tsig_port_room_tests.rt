// Messages without room for their TSIG, and refusals whose reply has no room: that is told, and not want of memory.
use crate::common::{accepted, asked, is, is_at, key, key_of, message, octets, received, refused};
use dns_wire::{AdditionalBuilder, MessageBuf, MessageBuilder, PushError};
use std::alloc::Global;
use std::process::Abort;
use tsig_port::{
    ClientSequence, ClientTransaction, Key, ServerSequence, ServerTransaction, Time48,
};

/// The octets of a message with one question: 12 of its header and 13.
const BARE: usize = 25;

/// The same with the key's TSIG, which has 76.
const SIGNED: usize = 101;

/// Push limits without room for the TSIG, and the least one with room.
const LIMITS: [usize; 4] = [0, BARE, 100, SIGNED];

/// A message with one question and no room beyond the limit.
fn limited<R: Abort>(rt: &R, alloc: Global, qr: bool, limit: usize) -> AdditionalBuilder {
    let mut message = message(rt, alloc, qr);
    message.set_push_limit(limit);
    message
}

/// How a TSIG is refused within the limit, and the octets of the message after that.
fn wanted_within(limit: usize) -> (Option<PushError>, usize) {
    if limit < SIGNED {
        return (Some(PushError::ShortBuf), BARE);
    }
    (None, SIGNED)
}

/// Asserts that a TSIG without room within the limit was refused for that and left the message alone, or else was added.
fn is_told<R: Abort>(rt: &R, message: AdditionalBuilder, limit: usize, refused: Option<PushError>) {
    let found = (refused, message.as_slice().len());
    is_at(rt, found, wanted_within(limit), &limit);
    drop(message);
}

/// A signed request.
fn signed_request<R: Abort>(rt: &R, alloc: Global, now: Time48) -> MessageBuf {
    let (client, request) = asked(rt, alloc, key(rt), now);
    drop(client);
    request
}

#[test]
fn requests(rt: HostRuntime) {
    let now = Time48::from_u64(1000);
    for limit in LIMITS {
        let mut request = limited(&rt, rt.alloc(), false, limit);
        let refused = ClientSequence::request(key(&rt), &mut request, now).err();
        is_told(&rt, request, limit, refused);
        let mut request = limited(&rt, rt.alloc(), false, limit);
        let refused = ClientTransaction::request(key(&rt), &mut request, now).err();
        is_told(&rt, request, limit, refused);
    }
}

/// Asserts that the server tells of each limit whether its next answer has room.
fn tells<R: Abort>(rt: &R, alloc: Global, server: &mut ServerSequence<Key>, now: Time48) {
    for limit in LIMITS {
        let mut reply = limited(rt, alloc, true, limit);
        let refused = server.answer(&mut reply, now).err();
        is_told(rt, reply, limit, refused);
    }
}

/// The first answer and a later one.
#[test]
fn answers_in_a_row(rt: HostRuntime) {
    let now = Time48::from_u64(1000);
    let alloc = rt.alloc();
    let mut request = signed_request(&rt, alloc, now);
    let mut server = accepted(&rt, &key(&rt), &mut request, now);
    drop(request);
    tells(&rt, alloc, &mut server, now);
    tells(&rt, alloc, &mut server, now);
    drop(server);
}

/// Asserts that a server that took a request tells whether its one answer has room within the limit.
fn tells_once<R: Abort>(rt: &R, alloc: Global, limit: usize, now: Time48) {
    let mut request = signed_request(rt, alloc, now);
    let checked = ServerTransaction::request(&key(rt), &mut request, now);
    drop(request);
    let found = checked.ok().expect(rt, "accepted");
    let server = found.expect(rt, "a TSIG");
    let mut reply = limited(rt, alloc, true, limit);
    let refused = server.answer(&mut reply, now).err();
    is_told(rt, reply, limit, refused);
}

#[test]
fn one_answer(rt: HostRuntime) {
    for limit in LIMITS {
        tells_once(&rt, rt.alloc(), limit, Time48::from_u64(1000));
    }
}

/// The reply of a server with that key, which refuses the request, within the limit.
fn reply_within<R: Abort>(
    rt: &R,
    alloc: Global,
    known: &Key,
    request: &mut MessageBuf,
    now: Time48,
    limit: usize,
) -> Result<AdditionalBuilder, PushError> {
    let refusal = refused(rt, known, request, now);
    let mut builder = MessageBuilder::new(alloc).expect(rt, "memory");
    builder.set_push_limit(limit);
    refusal.build_message(&request.as_message(), builder)
}

/// Asserts that the reply of a server with that key, which refuses the request, has so many octets, and no room within the limits.
fn replies<R: Abort>(
    rt: &R,
    alloc: Global,
    known: &Key,
    mut request: MessageBuf,
    now: Time48,
    limits: &[usize],
    len: usize,
) {
    for limit in limits {
        let refused = reply_within(rt, alloc, known, &mut request, now, *limit).err();
        is_at(rt, refused, Some(PushError::ShortBuf), limit);
    }
    let reply = reply_within(rt, alloc, known, &mut request, now, len);
    let reply = reply.expect(rt, "room");
    let found = reply.as_slice().len();
    is(rt, found, len);
    drop(reply);
    drop(request);
}

/// Without room for a header, for the question and for the TSIG.
#[test]
fn replies_to_refused_requests(rt: HostRuntime) {
    let now = Time48::from_u64(1000);
    let late = Time48::from_u64(1301);
    let alloc = rt.alloc();
    let key = key(&rt);
    let other = key_of(&rt, b"\0", &[0]);
    let request = signed_request(&rt, alloc, now);
    replies(&rt, alloc, &other, request, now, &[0, 11, 24, 25, 68], 69);
    let request = signed_request(&rt, alloc, now);
    replies(&rt, alloc, &key, request, late, &[0, 11, 24, 25, 106], 107);
    // An additional record is counted, and none is there.
    let digits = "03e800000001000000000001076578616d706c650000fc0001";
    let damaged = received(&rt, octets(&rt, alloc, digits));
    replies(&rt, alloc, &key, damaged, now, &[0, 11, 12, 24], 25);
}
