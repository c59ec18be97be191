//! What providers give, to whom: one with a history after pushes, a zone, and a tree of zones.
ghost use Rattle.std.specs.Prelude.{◌≡◌};

use crate::common::{EXAMPLE, KEY, NS_EXAMPLE, empty_zone, is, shared_key, stored_name};
use crate::xfr_server_tests::at;
use dns_name::StoredName;
use dns_numbers::{Class, Rtype, Serial, Ttl};
use dns_rdata::Soa;
use dns_wire::{Header, MessageBuf, MessageBuilder, Question};
use std::alloc::{AllocError, Global};
use std::process::Abort;
use std::sync::Wait;
use tsig_port::Key;
use xfr_server::{
    HistoryProvider, Request, StoredZone, TransportSpecificContext, XfrDataProvider,
    XfrDataProviderError, commits_may_be_pushed,
};
use zone_file::{AtApex, Close, ZoneTree};
use zone_store::{ReadZone, WriteZone, Zone};

/// Gives the pending version an SOA record with this serial.
fn put_serial<R: Abort>(rt: &R, session: &mut WriteZone<'_>, serial: u32)
    ensures { session.new.current ≡ session.old.current }
{
    let zero = Ttl::from_int(0);
    let name = StoredName::root();
    let soa = Soa::new(
        name,
        StoredName::root(),
        Serial::from(serial),
        zero,
        zero,
        zero,
        zero,
    );
    session.set_soa(zero, soa).expect(rt, "memory");
}

/// A provider that keeps a version with this serial, and grants it to the key.
fn first_provider<R: Abort + Wait>(
    rt: &R,
    alloc: Global,
    session: &mut WriteZone<'_>,
    serial: u32,
) -> HistoryProvider
    ensures { result.kept ≡ session.new.current.version }
{
    put_serial(rt, session, serial);
    drop(session.commit(rt, false).expect(rt, "a version"));
    let first = session.handle().expect(rt, "memory");
    let mut provider = HistoryProvider::new(alloc, first);
    let key = shared_key(rt, KEY);
    let name = key.name().duplicate();
    provider.grant(name, key.algorithm()).expect(rt, "memory");
    drop(key);
    provider
}

/// Commits a version with this serial, and pushes it with what the commit tells, which is asked for or not.
fn push_serial<R: Abort + Wait>(
    rt: &R,
    session: &mut WriteZone<'_>,
    provider: &mut HistoryProvider,
    serial: u32,
    wanted: bool,
)
    requires { provider.old.kept ≡ session.old.current.version }
    ensures { provider.new.kept ≡ session.new.current.version }
{
    // For the proof: what a commit tells may be pushed.
    commits_may_be_pushed();
    session.want_difference(wanted);
    put_serial(rt, session, serial);
    let told = session.commit(rt, false).expect(rt, "a version");
    let next = session.handle().expect(rt, "memory");
    provider.push(next, told).expect(rt, "memory");
}

/// A message with one question.
fn question<R: Abort>(rt: &R, alloc: Global, qname: &[u8], class: Class) -> MessageBuf {
    let mut builder = MessageBuilder::new(alloc).expect(rt, "memory");
    builder.set_header(Header::new(1000));
    let mut section = builder.question();
    let question = Question::new(stored_name(rt, alloc, qname), Rtype::IXFR, class);
    section.push(&question).expect(rt, "room");
    drop(question);
    section.additional().finish()
}

/// A message without a question.
fn no_question<R: Abort>(rt: &R, alloc: Global) -> MessageBuf {
    let builder = MessageBuilder::new(alloc).expect(rt, "memory");
    builder.question().additional().finish()
}

/// A request with a message and this metadata.
fn request_of<M>(message: MessageBuf, metadata: M) -> Request<M> {
    Request::new(message, TransportSpecificContext::NonUdp, at(), metadata)
}

/// Where the differences begin and end, oldest first, that the provider gives to one who has the serial.
fn spans<R: Abort + Wait>(
    rt: &R,
    alloc: Global,
    provider: &HistoryProvider,
    serial: u32,
) -> Vec<u32> {
    let key = Some(shared_key(rt, KEY));
    let request = request_of(question(rt, alloc, EXAMPLE, Class::IN), key);
    let given = provider.request(rt, alloc, &request, Some(Serial::from(serial)));
    drop(request);
    let given = given.expect(rt, "an offer");
    let mut spans = Vec::new(alloc);
    for diff in given.diffs() {
        spans
            .push(diff.start_serial.into_int())
            .expect(rt, "memory");
        spans.push(diff.end_serial.into_int()).expect(rt, "memory");
    }
    drop(given);
    spans
}

/// Asserts these spans in answer to this serial.
fn gives<R: Abort + Wait>(
    rt: &R,
    alloc: Global,
    provider: &HistoryProvider,
    serial: u32,
    wanted: &[u32],
) {
    let found = spans(rt, alloc, provider, serial);
    let numbers = found.as_slice();
    is(rt, numbers, wanted);
    drop(found);
}

// From each serial on it gives all later differences, from the current one, and from one that it never had, none.
#[test]
fn three_pushes_asked_from_each_serial(rt: HostRuntime) {
    let alloc = rt.alloc();
    let mut zone = empty_zone(&rt, alloc);
    let mut session = zone.write(alloc);
    let mut provider = first_provider(&rt, alloc, &mut session, 1);
    push_serial(&rt, &mut session, &mut provider, 2, true);
    push_serial(&rt, &mut session, &mut provider, 3, true);
    push_serial(&rt, &mut session, &mut provider, 4, true);
    gives(&rt, alloc, &provider, 1, [1, 2, 2, 3, 3, 4].as_slice());
    gives(&rt, alloc, &provider, 2, [2, 3, 3, 4].as_slice());
    gives(&rt, alloc, &provider, 3, [3, 4].as_slice());
    gives(&rt, alloc, &provider, 4, [].as_slice());
    gives(&rt, alloc, &provider, 9, [].as_slice());
    // Without a difference all kept ones go.
    push_serial(&rt, &mut session, &mut provider, 5, false);
    gives(&rt, alloc, &provider, 3, [].as_slice());
    push_serial(&rt, &mut session, &mut provider, 6, true);
    gives(&rt, alloc, &provider, 4, [].as_slice());
    gives(&rt, alloc, &provider, 5, [5, 6].as_slice());
    drop(provider);
    drop(session);
    zone.close(&rt);
}

// 2147483648 is 1 and 2^31 - 1, the most that a serial may grow by (RFC 1982, 3.1); 4294967295 is that and 2^31 - 1 again, and 2 more are 1
// again, where the first difference starts. So that one goes, and at the next return the three older ones of four.
#[test]
fn a_serial_that_comes_back(rt: HostRuntime) {
    let alloc = rt.alloc();
    let mut zone = empty_zone(&rt, alloc);
    let mut session = zone.write(alloc);
    let mut provider = first_provider(&rt, alloc, &mut session, 1);
    push_serial(&rt, &mut session, &mut provider, 2_147_483_648, true);
    push_serial(&rt, &mut session, &mut provider, 4_294_967_295, true);
    let grown = [1, 2_147_483_648, 2_147_483_648, 4_294_967_295];
    gives(&rt, alloc, &provider, 1, grown.as_slice());
    push_serial(&rt, &mut session, &mut provider, 1, true);
    gives(&rt, alloc, &provider, 1, [].as_slice());
    let kept = [2_147_483_648, 4_294_967_295, 4_294_967_295, 1];
    gives(&rt, alloc, &provider, 2_147_483_648, kept.as_slice());
    push_serial(&rt, &mut session, &mut provider, 2, true);
    push_serial(&rt, &mut session, &mut provider, 2_147_483_648, true);
    gives(&rt, alloc, &provider, 2_147_483_648, [].as_slice());
    let kept = [4_294_967_295, 1, 1, 2, 2, 2_147_483_648];
    gives(&rt, alloc, &provider, 4_294_967_295, kept.as_slice());
    drop(provider);
    drop(session);
    zone.close(&rt);
}

/// How many differences a provider gives, or why it gives nothing.
fn told<R: Wait, M: Drop, X: XfrDataProvider<M>>(
    rt: &R,
    alloc: Global,
    provider: &X,
    request: Request<M>,
) -> Result<usize, XfrDataProviderError> {
    let given = provider.request(rt, alloc, &request, None);
    drop(request);
    match given {
        Ok(data) => {
            let count = data.diffs().len();
            drop(data);
            Ok(count)
        }
        Err(error) => Err(error),
    }
}

// A name or class that isn't the zone's is told first, then a key that isn't granted, or none.
#[test]
fn whom_a_history_is_denied(rt: HostRuntime) {
    let alloc = rt.alloc();
    let mut zone = empty_zone(&rt, alloc);
    let mut session = zone.write(alloc);
    let provider = first_provider(&rt, alloc, &mut session, 1);
    let asked = question(&rt, alloc, EXAMPLE, Class::IN);
    let unsigned: Option<Key> = None;
    let found = told(&rt, alloc, &provider, request_of(asked, unsigned));
    is(&rt, found, Err(XfrDataProviderError::Refused));
    let asked = question(&rt, alloc, EXAMPLE, Class::IN);
    let other = Some(shared_key(&rt, NS_EXAMPLE));
    let found = told(&rt, alloc, &provider, request_of(asked, other));
    is(&rt, found, Err(XfrDataProviderError::Refused));
    let asked = question(&rt, alloc, NS_EXAMPLE, Class::IN);
    let other = Some(shared_key(&rt, NS_EXAMPLE));
    let found = told(&rt, alloc, &provider, request_of(asked, other));
    is(&rt, found, Err(XfrDataProviderError::UnknownZone));
    let asked = no_question(&rt, alloc);
    let key = Some(shared_key(&rt, KEY));
    let found = told(&rt, alloc, &provider, request_of(asked, key));
    is(&rt, found, Err(XfrDataProviderError::ParseError));
    drop(provider);
    drop(session);
    zone.close(&rt);
}

/// A zone of a tree, of which one version is kept.
#[derive(Drop)]
struct Kept {
    read: ReadZone,
}

impl AtApex for Kept {
    ghost class_of = { λ z. z.read.version.class };

    ghost apex_of = { λ z. z.read.version.apex };

    fn class(&self) -> Class {
        self.read.class()
    }

    fn apex_name(&self) -> &StoredName {
        self.read.apex_name()
    }
}

impl StoredZone for Kept {
    ghost current = { λ z. z.read.version };

    fn read_current<R: Wait>(&self, _rt: &R) -> Result<ReadZone, AllocError> {
        self.read.clone()
    }
}

/// What a zone and a tree of it alone tell those who ask without a key for this name and class.
fn both_told<R: Abort + Wait>(
    rt: &R,
    alloc: Global,
    tree: &ZoneTree<Kept>,
    qname: &[u8],
    class: Class,
) -> (
    Result<usize, XfrDataProviderError>,
    Result<usize, XfrDataProviderError>,
) {
    let zone = Zone::new(empty_zone(rt, alloc));
    let asked = question(rt, alloc, qname, class);
    let of_zone = told(rt, alloc, &zone, request_of(asked, ()));
    zone.close(rt);
    let asked = question(rt, alloc, qname, class);
    let of_tree = told(rt, alloc, tree, request_of(asked, ()));
    (of_zone, of_tree)
}

// A zone answers for its apex, a tree for each name that lies in a zone of it.
#[test]
fn a_zone_and_a_tree_of_zones(rt: HostRuntime) {
    let alloc = rt.alloc();
    let mut tree = ZoneTree::new(alloc);
    let zone = empty_zone(&rt, alloc);
    let read = zone.read(&rt).expect(&rt, "memory");
    zone.close(&rt);
    tree.insert_zone(Kept { read }).expect(&rt, "a new zone");
    let unknown = Err(XfrDataProviderError::UnknownZone);
    let apex = both_told(&rt, alloc, &tree, EXAMPLE, Class::IN);
    is(&rt, apex, (Ok(0), Ok(0)));
    let below = both_told(&rt, alloc, &tree, NS_EXAMPLE, Class::IN);
    is(&rt, below, (unknown, Ok(0)));
    let outside = both_told(&rt, alloc, &tree, KEY, Class::IN);
    is(&rt, outside, (unknown, unknown));
    let class = both_told(&rt, alloc, &tree, EXAMPLE, Class::from_int(3));
    is(&rt, class, (unknown, unknown));
    drop(tree);
}
