// One request and one answer.
use crate::common::{is, key, message};
use dns_wire::MessageBuf;
use std::alloc::Global;
use std::process::Abort;
use tsig_port::{
    ClientTransaction, Key, ServerSequence, ServerTransaction, Time48, ValidationError,
};

/// A client that has signed a request, and the server that took it.
fn begun<R: Abort>(
    rt: &R,
    alloc: Global,
    now: Time48,
) -> (ClientTransaction<Key>, ServerTransaction<Key>) {
    let key = key(rt);
    let mut request = message(rt, alloc, false);
    let signed = ClientTransaction::request(key.duplicate(), &mut request, now);
    let client = signed.expect(rt, "signed");
    let mut received = request.finish();
    let accepted = ServerTransaction::request(&key, &mut received, now);
    drop(received);
    let found = accepted.ok().expect(rt, "accepted");
    (client, found.expect(rt, "a TSIG"))
}

#[test]
fn signed_transaction(rt: HostRuntime) {
    let now = Time48::from_u64(1000);
    let alloc = rt.alloc();
    let (client, server) = begun(&rt, alloc, now);
    let mut bare = message(&rt, alloc, true).finish();
    let taken = client.answer(&mut bare, now);
    is(&rt, taken, Err(ValidationError::ServerUnsigned));
    drop(bare);
    let mut reply = message(&rt, alloc, true);
    let answered = server.answer(&mut reply, now);
    is(&rt, answered, Ok(()));
    let mut reply = reply.finish();
    is(&rt, client.answer(&mut reply, now), Ok(()));
    drop(reply);
    drop(client);
}

#[test]
fn transaction_that_goes_on(rt: HostRuntime) {
    let now = Time48::from_u64(1000);
    let alloc = rt.alloc();
    let (client, server) = begun(&rt, alloc, now);
    let mut server = ServerSequence::from(server);
    let mut reply = message(&rt, alloc, true);
    let answered = server.answer(&mut reply, now);
    is(&rt, answered, Ok(()));
    drop(server);
    let mut reply = reply.finish();
    is(&rt, client.answer(&mut reply, now), Ok(()));
    drop(reply);
    drop(client);
}
