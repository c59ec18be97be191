//! A transfer in three messages whose MACs are cut to 16 octets, reply by reply.
ghost use Rattle.std.specs.Prelude.{◌≡◌};

use crate::common::{empty_zone, is, octets_of, short_key};
use crate::exchanges::at;
use dns_rdata::record_from_octets;
use dns_wire::MessageBuf;
use std::alloc::Global;
use std::process::Abort;
use std::sync::Wait;
use tsig_port::ValidationError;
use xfr_server::{
    HistoryProvider, RefuseSvc, ReplyStream, Request, Service, TransportSpecificContext,
    TsigMiddlewareSvc, XfrMiddlewareSvc,
};
use zone_store::{ReadZone, WriteZone};
use zone_sync::{SyncError, SyncOk, XfrClient, XfrMode};

/// An SOA record of `example.` with serial 2.
const SOA: &str =
    "076578616d706c65000006000100000e10001600000000000200000000000000000000000000000000";

/// A TXT record of `example.` whose data have 65,400 octets: as many strings of none.
pub(crate) fn txt<R: Abort>(rt: &R, alloc: Global) -> Vec<u8> {
    let mut octets = octets_of(rt, alloc, "076578616d706c65000010000100000e10ff78");
    for _ in 0..65_400u16 {
        octets.push(0).expect(rt, "memory");
    }
    octets
}

/// Adds a record.
pub(crate) fn add<R: Abort>(rt: &R, session: &mut WriteZone<'_>, octets: Vec<u8>)
    ensures { session.new.current ≡ session.old.current }
{
    let found = record_from_octets(octets.as_slice()).expect(rt, "a record");
    session.add_any(&found).expect(rt, "an edit");
    drop(found);
    drop(octets);
}

/// The zone of these two records.
fn large_zone<R: Abort + Wait>(rt: &R, alloc: Global) -> ReadZone {
    let mut zone = empty_zone(rt, alloc);
    let mut session = zone.write(alloc);
    add(rt, &mut session, octets_of(rt, alloc, SOA));
    add(rt, &mut session, txt(rt, alloc));
    drop(session.commit(rt, false).expect(rt, "a version"));
    let version = session.handle().expect(rt, "memory");
    drop(session);
    zone.close(rt);
    version
}

/// The replies of a primary of that zone, which it signs by that key, the last one first.
fn large_replies<R: Abort + Wait>(rt: &R, alloc: Global, request: MessageBuf) -> Vec<Vec<u8>> {
    let key = short_key(rt);
    let mut provider = HistoryProvider::new(alloc, large_zone(rt, alloc));
    let name = key.name().duplicate();
    provider.grant(name, key.algorithm()).expect(rt, "memory");
    let service = TsigMiddlewareSvc::new(XfrMiddlewareSvc::new(RefuseSvc, provider), key);
    let request = Request::new(request, TransportSpecificContext::NonUdp, at(), ());
    let mut stream = service.call(rt, alloc, request).expect(rt, "replies");
    let mut replies = Vec::new(alloc);
    for _ in 0..9u8 {
        let Some(item) = stream.next_item() else {
            break;
        };
        if let Some(reply) = item.expect(rt, "an item").into_response() {
            replies
                .insert(0, reply.finish().into_octets())
                .expect(rt, "memory");
        }
    }
    drop(stream);
    drop(service);
    replies
}

/// What a client says of a reply, and how many versions there are then.
fn takes<R: Abort + Wait>(
    rt: &R,
    client: &mut XfrClient<'_, '_>,
    made: &mut Vec<ReadZone>,
    octets: Vec<u8>,
    wanted: (Result<Option<SyncOk>, SyncError>, usize),
) {
    let open = client.is_open();
    assert!(rt; open);
    let taken = client.take(rt, octets, made);
    is(rt, (taken, made.len()), wanted);
}

/// The next reply, of so many octets.
fn next_reply<R: Abort>(rt: &R, replies: &mut Vec<Vec<u8>>, len: usize) -> Vec<u8> {
    let reply = replies.pop().expect(rt, "a reply");
    is(rt, reply.len(), len);
    reply
}

/// Asserts what a client makes of the transfer; the second message is as it was sent, or the last octet of its MAC isn't.
fn transfers<R: Abort + Wait>(rt: &R, alloc: Global, is_damaged: bool) {
    let key = short_key(rt);
    let mut zone = empty_zone(rt, alloc);
    let mut session = zone.write(alloc);
    let mut client = XfrClient::new(alloc, &mut session, &key, XfrMode::Axfr, at());
    drop(key);
    let asked = client.request(65_535);
    let mut replies = large_replies(rt, alloc, asked.expect(rt, "a request"));
    let mut made = Vec::new(alloc);
    let first = next_reply(rt, &mut replies, 126);
    takes(rt, &mut client, &mut made, first, (Ok(None), 0));
    let mut second = next_reply(rt, &mut replies, 65_504);
    if is_damaged {
        let octet = second.get_mut(65_497).expect(rt, "an octet");
        *octet = *octet ^ 1;
        let refused = Err(SyncError::Tsig(ValidationError::BadSig));
        takes(rt, &mut client, &mut made, second, (refused, 0));
    } else {
        takes(rt, &mut client, &mut made, second, (Ok(None), 0));
        let third = next_reply(rt, &mut replies, 126);
        let updated = Ok(Some(SyncOk::Updated));
        takes(rt, &mut client, &mut made, third, (updated, 1));
        is(rt, replies.len(), 0);
    }
    drop(replies);
    drop(made);
    client.into_session();
    let number = session.handle().expect(rt, "memory").version_number();
    drop(session);
    zone.close(rt);
    is(rt, number == 0, is_damaged);
}

// Header and question have 25 octets, a TSIG with 16 octets of MAC 60, the records 41, 65,419 and 41: no two of them have room in one message.
#[test]
fn a_transfer_in_three_messages_with_cut_macs(rt: HostRuntime) {
    transfers(&rt, rt.alloc(), false);
    transfers(&rt, rt.alloc(), true);
}
