// Replies to refused requests, and what a client takes of them.
use crate::common::{asked, is, key, key_of, moment, octets, received, refused, says_of};
use dns_wire::{MessageBuf, MessageBuilder};
use std::alloc::Global;
use std::process::Abort;
use tsig_port::{Key, ValidationError};

/// The header of a reply NOTAUTH: the request's id, QR, one question and the TSIG.
const NOTAUTH: &str = "03e880090001000000000001";

/// How a BADKEY reply ends: no MAC, the id, the error, no other octets.
const BADKEY_END: &str = "000003e800110000";

/// The same of a BADSIG reply.
const BADSIG_END: &str = "000003e800100000";

/// How a BADTIME reply ends: its MAC, computed by another program, the id, the error, and 1301 as six octets.
const BADTIME_END: &str =
    "d1a7662bddbc5270abca70d1e79886946e88558c24a1d6614c3163abdb954c1003e800120006000000000515";

/// The reply of a server with that key, which refuses the message so many seconds after the begin of 1970.
fn reply_to<R: Abort>(
    rt: &R,
    alloc: Global,
    known: &Key,
    mut received: MessageBuf,
    now: u64,
) -> MessageBuf {
    let refusal = refused(rt, known, &mut received, moment(rt, now));
    let builder = MessageBuilder::new(alloc).expect(rt, "memory");
    let built = refusal.build_message(&received.as_message(), builder);
    drop(received);
    built.expect(rt, "room").finish()
}

/// Asserts that there are so many octets, with that begin and that end.
fn is_between<R: Abort>(rt: &R, alloc: Global, found: &[u8], len: usize, begin: &str, end: &str) {
    is(rt, found.len(), len);
    let begin = octets(rt, alloc, begin);
    let begins = found.starts_with(begin.as_slice());
    assert!(rt; begins);
    drop(begin);
    let end = octets(rt, alloc, end);
    let ends = found.ends_with(end.as_slice());
    assert!(rt; ends);
    drop(end);
}

/// Asserts that the server with that key refuses a request of 1000 at that moment by a reply NOTAUTH with so many octets and that end, and that
/// the client has that refusal.
fn refuses<R: Abort>(
    rt: &R,
    alloc: Global,
    known: &Key,
    now: u64,
    len: usize,
    end: &str,
    wanted: ValidationError,
) {
    let (mut client, request) = asked(rt, alloc, key(rt), moment(rt, 1000));
    let reply = reply_to(rt, alloc, known, request, now);
    is_between(rt, alloc, reply.as_slice(), len, NOTAUTH, end);
    says_of(rt, &mut client, reply, moment(rt, 1000), Err(wanted));
    drop(client);
}

#[test]
fn replies_to_signed_requests(rt: HostRuntime) {
    let alloc = rt.alloc();
    let other = key_of(&rt, b"\x03key\0", &[0]);
    let wanted = ValidationError::ServerBadSig;
    refuses(&rt, alloc, &other, 1000, 69, BADSIG_END, wanted);
    let other = key_of(&rt, b"\0", &[0, 1, 2]);
    let wanted = ValidationError::ServerBadKey;
    refuses(&rt, alloc, &other, 1000, 69, BADKEY_END, wanted);
    let wanted = ValidationError::ServerBadTime {
        client: moment(&rt, 1000),
        server: moment(&rt, 1301),
    };
    refuses(&rt, alloc, &key(&rt), 1301, 107, BADTIME_END, wanted);
}

/// One question is counted, and none is there.
#[test]
fn form_err(rt: HostRuntime) {
    let alloc = rt.alloc();
    let asked = octets(&rt, alloc, "03e800000001000000000001");
    let reply = reply_to(&rt, alloc, &key(&rt), received(&rt, asked), 1000);
    let wanted = octets(&rt, alloc, "03e880010000000000000000");
    is(&rt, reply.as_slice(), wanted.as_slice());
    drop(reply);
    drop(wanted);
}
