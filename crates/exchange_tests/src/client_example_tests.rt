//! The README's example: a zone transfer over a link of one's own.

use crate::common::{empty_zone, shared_key};
use crate::edited_reply_tests::large_primary;
use crate::exchanges::{Primary, at, primary_of};
use dns_wire::MessageBuf;
use std::alloc::Global;
use std::process::Abort;
use std::sync::Wait;
use tsig_port::{Key, Time48};
use xfr_server::{CallResult, ReplyStream, Request, Service, TransportSpecificContext};
use zone_store::{ReadZone, WriteZone};
use zone_sync::{SyncError, SyncOk, XfrClient, XfrMode};

/// Brings a session's zone to what the primary at the other end has, whose replies the key signs.
fn fetch_zone<R: Wait>(
    rt: &R,
    connection: &mut Connection,
    session: &mut WriteZone<'_>,
    key: &Key,
    now: Time48,
) -> Result<SyncOk, SyncError> {
    let mut client = XfrClient::new(connection.alloc, session, key, XfrMode::Axfr, now);
    let outcome = exchange(rt, connection, &mut client);
    client.into_session();
    outcome
}

/// Sends the request of a client, and gives it the replies.
fn exchange<R: Wait>(
    rt: &R,
    connection: &mut Connection,
    client: &mut XfrClient<'_, '_>,
) -> Result<SyncOk, SyncError> {
    let request = client.request(65_535)?;
    connection.send(rt, request.as_slice())?;
    let mut versions = Vec::new(connection.alloc);
    let mut outcome = None;
    for _ in 0..65_536u32 {
        if !client.is_open() {
            break;
        }
        let reply = connection.receive().ok_or(SyncError::Ended)?;
        outcome = client.take(rt, reply, &mut versions)?;
    }
    outcome.ok_or(SyncError::TooManyMessages)
}

/// A link of one's own: here a primary in the same program, and its replies that weren't taken yet.
#[derive(Drop)]
struct Connection {
    alloc: Global,
    primary: Primary,
    replies: Vec<Vec<u8>>,
    // How many more it gives before it is cut.
    left: usize,
}

impl Connection {
    /// Sends a request.
    fn send<R: Wait>(&mut self, rt: &R, octets: &[u8]) -> Result<(), SyncError> {
        let request = request_of(self.alloc, octets)?;
        let mut items = self.primary.call(rt, self.alloc, request)?;
        let taken = take_items(&mut self.replies, &mut items);
        drop(items);
        taken
    }

    /// Takes the next reply, where there is one.
    fn receive(&mut self) -> Option<Vec<u8>> {
        if self.replies.is_empty() || self.left == 0 {
            return None;
        }
        self.left -= 1;
        Some(self.replies.remove(0))
    }
}

/// The request of these octets, at the primary.
fn request_of(alloc: Global, octets: &[u8]) -> Result<Request<()>, SyncError> {
    let message = MessageBuf::from_octets(octets.to_vec(alloc)?)?;
    let transport = TransportSpecificContext::NonUdp;
    Ok(Request::new(message, transport, at(), ()))
}

/// Takes what a primary replies.
fn take_items<S: ReplyStream>(replies: &mut Vec<Vec<u8>>, items: &mut S) -> Result<(), SyncError> {
    for _ in 0..9u8 {
        let Some(item) = items.next_item() else {
            break;
        };
        take_item(replies, item?)?;
    }
    Ok(())
}

/// Takes the reply of an item, where it has one.
fn take_item(replies: &mut Vec<Vec<u8>>, item: CallResult) -> Result<(), SyncError> {
    if let Some(reply) = item.into_response() {
        let octets = reply.finish().into_octets();
        if replies.push(octets).is_err() {
            return Err(SyncError::Memory);
        }
    }
    Ok(())
}

/// How many RRsets a version has.
fn set_count(version: &ReadZone) -> usize {
    let mut count = 0_usize;
    for stop in version.iter_rrsets() {
        count = count.saturating_add(1);
        drop(stop);
    }
    count
}

/// Fetches a zone of a primary over a link that gives so many replies, and then publishes what is pending: the answer, the version's number
/// then, and how many RRsets it has.
fn fetched<R: Abort + Wait>(
    rt: &R,
    alloc: Global,
    key: &Key,
    primary: Primary,
    left: usize,
) -> (Result<SyncOk, SyncError>, u64, usize) {
    let mut connection = Connection {
        alloc,
        primary,
        replies: Vec::new(alloc),
        left,
    };
    let mut zone = empty_zone(rt, alloc);
    let mut session = zone.write(alloc);
    let outcome = fetch_zone(rt, &mut connection, &mut session, key, at());
    drop(session.commit(rt, false).expect(rt, "a version"));
    let version = session.handle().expect(rt, "memory");
    let found = (outcome, version.version_number(), set_count(&version));
    drop(version);
    drop(session);
    zone.close(rt);
    drop(connection);
    found
}

#[test]
fn a_zone_comes_over_a_link_of_ones_own(rt: HostRuntime) {
    let alloc = rt.alloc();
    let key = shared_key(&rt);
    let primary = primary_of(&rt, alloc, "soa-1 cut-1 t-1 t-2", "", &key);
    let found = fetched(&rt, alloc, &key, primary, 9);
    drop(key);
    assert_eq!(rt; found, (Ok(SyncOk::Updated), 2, 3));
}

// Two of three messages came, and none of the records in them is published.
#[test]
fn a_link_of_ones_own_is_cut(rt: HostRuntime) {
    let alloc = rt.alloc();
    let key = shared_key(&rt);
    let primary = large_primary(&rt, alloc, &key);
    let found = fetched(&rt, alloc, &key, primary, 2);
    drop(key);
    assert_eq!(rt; found, (Err(SyncError::Ended), 1, 0));
}
