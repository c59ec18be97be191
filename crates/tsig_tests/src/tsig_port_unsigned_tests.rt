// Unsigned answers after a signed one: each is refused, where RFC 8945, 5.3.1, would have up to 99 taken.
use crate::common::{accepted, answers, asked, is, key, message, name, octets, says_of};
use dns_wire::MessageBuf;
use std::alloc::Global;
use std::process::Abort;
use tsig_port::{Algorithm, Mac, Time48, Tsig, TsigRecord, ValidationError};

/// The MAC of an answer after a signed one and 99 unsigned ones, all of which it covers (RFC 8945, 5.3.1), computed by another program.
const LAST_MAC: &str = "e5e3ba90166ec3991b6acd9c229791dfba44c890aa9e205aef871e877a7b65f7";

/// The answer with that MAC.
fn last<R: Abort>(rt: &R, alloc: Global, now: Time48) -> MessageBuf {
    let mac = octets(rt, alloc, LAST_MAC);
    let few = mac.len() <= 64;
    assert!(rt; few);
    let tsig = Tsig::signing(
        Algorithm::Sha256.to_name(),
        now,
        300,
        Mac::from_octets(mac.as_slice()),
        1000,
        0,
        Mac::from_octets(&[]),
    );
    drop(mac);
    let record = TsigRecord::new(name(rt, b"\x03key\0"), tsig);
    let mut reply = message(rt, alloc, true);
    reply.push(&record).expect(rt, "room");
    reply.finish()
}

#[test]
fn unsigned_answers(rt: HostRuntime) {
    let now = Time48::from_u64(1000);
    let alloc = rt.alloc();
    let (mut client, mut request) = asked(&rt, alloc, key(&rt), now);
    let mut server = accepted(&rt, &key(&rt), &mut request, now);
    drop(request);
    answers(&rt, alloc, &mut server, &mut client, now);
    for _ in 0..99 {
        let bare = message(&rt, alloc, true).finish();
        let wanted = Err(ValidationError::TooManyUnsigned);
        says_of(&rt, &mut client, bare, now, wanted);
    }
    is(&rt, client.unsigned(), 0);
    let last = last(&rt, alloc, now);
    says_of(&rt, &mut client, last, now, Err(ValidationError::BadSig));
    answers(&rt, alloc, &mut server, &mut client, now);
    drop(server);
    drop(client);
}
