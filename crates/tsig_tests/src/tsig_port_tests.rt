// A signed exchange, refusals, and moments.
use crate::common::{accepted, answers, asked, is, key, message, octets, refused, says_of};
use std::alloc::Global;
use std::process::Abort;
use tsig_port::{ServerSequence, Time48, ValidationError};

/// The MAC of the signed request, computed by another program.
const REQUEST_MAC: &str = "4f2e54bdf5ef25849370f4a96bdf2b0a262e461f38b76b833c64eb9e91a9be01";

#[test]
fn record_length(rt: HostRuntime) {
    let key = key(&rt);
    is(&rt, key.compose_len(), 76);
}

#[test]
fn time_in_a_message(rt: HostRuntime) {
    is(
        &rt,
        Time48::parse(&[9, 0, 0, 0, 0, 3, 0xe8, 9], 1),
        Ok((Time48::from_u64(1000), 7)),
    );
}

#[test]
fn moments(rt: HostRuntime) {
    let late = Time48::from_u64(0x0102_0304_0506);
    is(
        &rt,
        late.into_octets().as_slice(),
        [1, 2, 3, 4, 5, 6].as_slice(),
    );
    assert!(rt; late.eq_fudged(Time48::from_u64(0x0102_0304_0500), 6));
    assert!(rt; !Time48::fits(1 << 48));
    is(&rt, Time48::from_octets(&[1, 2, 3, 4, 5, 6]), Some(late));
}

/// Asserts that the request has so many octets, and that MAC.
fn is_signed<R: Abort>(rt: &R, alloc: Global, sent: &[u8]) {
    let mac = octets(rt, alloc, REQUEST_MAC);
    assert!(rt; sent.len() == 101);
    is(rt, &sent[63..95], mac.as_slice());
    drop(mac);
}

#[test]
fn signed_exchange(rt: HostRuntime) {
    let now = Time48::from_u64(1000);
    let alloc = rt.alloc();
    let (mut client, mut request) = asked(&rt, alloc, key(&rt), now);
    is_signed(&rt, alloc, request.as_slice());
    let mut server = accepted(&rt, &key(&rt), &mut request, now);
    let counts = request.counts();
    is(&rt, counts.arcount, 0);
    drop(request);
    for _ in 0..3 {
        answers(&rt, alloc, &mut server, &mut client, now);
    }
    drop(server);
    is(&rt, client.unsigned(), 0);
    let bare = message(&rt, alloc, true).finish();
    let wanted = Err(ValidationError::TooManyUnsigned);
    says_of(&rt, &mut client, bare, now, wanted);
    is(&rt, client.unsigned(), 0);
    let done = client.done();
    is(&rt, done, Ok(()));
}

#[test]
fn late_request(rt: HostRuntime) {
    let alloc = rt.alloc();
    let key = key(&rt);
    let (client, mut request) = asked(&rt, alloc, key.duplicate(), Time48::from_u64(1000));
    drop(client);
    let refusal = refused(&rt, &key, &mut request, Time48::from_u64(1301));
    drop(request);
    is(&rt, refusal.error().to_int(), 18);
    drop(refusal);
}

#[test]
fn without_a_tsig(rt: HostRuntime) {
    let now = Time48::from_u64(1000);
    let alloc = rt.alloc();
    let (mut client, request) = asked(&rt, alloc, key(&rt), now);
    drop(request);
    let mut bare = message(&rt, alloc, true).finish();
    let taken = client.answer(&mut bare, now);
    is(&rt, taken, Err(ValidationError::ServerUnsigned));
    drop(client);
    let unsigned = ServerSequence::request(&key(&rt), &mut bare, now);
    drop(bare);
    let found = unsigned.ok().expect(&rt, "no refusal");
    assert!(rt; found.is_none());
    drop(found);
}
