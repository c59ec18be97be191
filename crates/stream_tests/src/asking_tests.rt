//! The whole zone `example.`, asked for over a source and a sink. The request has 101 octets: the header with the moment as its id, the question,
//! and the TSIG record (RFC 5936, 2.1; RFC 8945, 4.2); its MAC is by Python's `hmac`, request and reply are what dnspython makes.

use crate::common::{at, is, next_len, only, sink, source};
use dns_name::{Labelled, NameRef};
use dns_numbers::Class;
use std::alloc::Global;
use std::process::Abort;
use std::sync::Wait;
use tsig_port::{Algorithm, Key};
use zone_asking::{AskError, Limit, Limits, ask_zone};
use zone_devices::sinks::MemorySink;
use zone_devices::sources::{MemorySource, Source};
use zone_sessions::ZoneApex;
use zone_sync::{SyncError, SyncOk, XfrMode};

/// The request, behind its length.
const REQUEST: &str = "0065\
03e800000001000000000001076578616d706c650000fc0001\
036b65790000fa00ff00000000003d0b686d61632d73686132353600\
0000000003e8012c00204f2e54bdf5ef25849370f4a96bdf2b0a262e461f38b76b833c64eb9e91a9be0103e800000000";

/// The reply, behind its length: the SOA record with serial 2, once more, and the TSIG record.
const REPLY: &str = "00a9\
03e884000001000200000001076578616d706c650000fc0001\
c00c0006000100000e10001600000000000200000000000000000000000000000000\
c00c0006000100000e10001600000000000200000000000000000000000000000000\
036b65790000fa00ff00000000003d0b686d61632d73686132353600\
0000000003e8012c002015a6cce087ed3d6039d9ba0f8e037dca510019330c2b0eaf910f6df72e9cccdb03e800000000";

/// The same with two addresses of the apex between, in 203 octets: 192.0.2.1 and 192.0.2.2.
const ADDRESSES: &str = "00c9\
03e884000001000400000001076578616d706c650000fc0001\
c00c0006000100000e10001600000000000200000000000000000000000000000000\
c00c0001000100000e100004c0000201\
c00c0001000100000e100004c0000202\
c00c0006000100000e10001600000000000200000000000000000000000000000000\
036b65790000fa00ff00000000003d0b686d61632d73686132353600\
0000000003e8012c0020cf71f01a319ff651131eeb6d277a86a2791d44e612bf32b27cd30edf3cbdb76c03e800000000";

/// The octets that hexadecimal digits spell.
fn octets_of<R: Abort>(rt: &R, alloc: Global, digits: &str) -> Vec<u8> {
    hex::decode(alloc, digits.as_bytes()).expect(rt, "memory, or hexadecimal digits")
}

/// A source of the first octets of the reply's frame, which has 171.
fn reply<R: Abort>(rt: &R, alloc: Global, most: usize, failing: Vec<u64>) -> MemorySource {
    let octets = octets_of(rt, alloc, REPLY);
    let src = source(rt, alloc, octets.as_slice(), most, failing);
    drop(octets);
    src
}

/// The key `key.` for HMAC-SHA256 whose secret is 0, 1, 2.
pub(crate) fn shared_key<R: Abort>(rt: &R) -> Key {
    let name = NameRef::from_octets(b"\x03key\0").expect(rt, "a name");
    let made = Key::new(
        Algorithm::Sha256,
        &[0, 1, 2],
        name.to_key_name(),
        None,
        None,
    );
    made.expect(rt, "a key")
}

/// The zone `example.` in class IN without records.
pub(crate) fn empty_zone<R: Abort>(rt: &R, alloc: Global) -> ZoneApex {
    let apex = NameRef::from_octets(b"\x07example\0").expect(rt, "a name");
    let apex = apex.store(alloc).expect(rt, "memory");
    ZoneApex::new(alloc, apex, Class::IN).expect(rt, "memory")
}

/// Asks for the zone, of which there is nothing yet: the answer, how many versions came, and the number of the current one.
fn ask<R: Abort + Wait, S: Source>(
    rt: &R,
    alloc: Global,
    src: &mut S,
    out: &mut MemorySink,
) -> (Result<SyncOk, AskError>, usize, u64) {
    ask_within(rt, alloc, Limits::none(), src, out)
}

/// The same within limits.
fn ask_within<R: Abort + Wait, S: Source>(
    rt: &R,
    alloc: Global,
    limits: Limits,
    src: &mut S,
    out: &mut MemorySink,
) -> (Result<SyncOk, AskError>, usize, u64) {
    let key = shared_key(rt);
    let mut zone = empty_zone(rt, alloc);
    let mut session = zone.write(alloc);
    let mut made = Vec::new(alloc);
    let answer = ask_zone(
        rt,
        alloc,
        &mut session,
        &key,
        XfrMode::Axfr,
        at(),
        &limits,
        src,
        out,
        &mut made,
    );
    drop(key);
    let versions = made.len();
    drop(made);
    let current = session.handle().expect(rt, "memory");
    let number = current.version();
    drop(current);
    drop(session);
    zone.close(rt);
    (answer, versions, number)
}

/// Asserts an error, that nothing was committed, and that the sink took the first octets of the request's frame.
fn refuses<R: Abort + Wait>(
    rt: &R,
    alloc: Global,
    src: &mut MemorySource,
    out: &mut MemorySink,
    error: AskError,
    most: usize,
) {
    let found = ask(rt, alloc, src, out);
    is(rt, found, (Err(error), 0, 0));
    let request = octets_of(rt, alloc, REQUEST);
    let end = most.min(request.len());
    is(rt, out.as_slice(), &request[..end]);
    drop(request);
}

/// The same of a source, where the whole request goes out.
fn refused<R: Abort + Wait>(rt: &R, alloc: Global, mut src: MemorySource, error: AskError) {
    let mut out = sink(alloc);
    refuses(rt, alloc, &mut src, &mut out, error, 103);
    drop(out);
    drop(src);
}

/// The transfer ends with its last reply, and what stands behind that isn't read.
#[test]
fn one_frame_goes_out_and_one_comes_in(rt: HostRuntime) {
    let alloc = rt.alloc();
    let mut octets = octets_of(&rt, alloc, REPLY);
    octets.extend_from_slice(b"\0\x03abc").expect(&rt, "memory");
    let mut src = source(&rt, alloc, octets.as_slice(), 200, Vec::new(alloc));
    drop(octets);
    let mut out = sink(alloc);
    let found = ask(&rt, alloc, &mut src, &mut out);
    is(&rt, found, (Ok(SyncOk::Updated), 1, 1));
    let request = octets_of(&rt, alloc, REQUEST);
    is(&rt, out.as_slice(), request.as_slice());
    drop(request);
    drop(out);
    is(&rt, next_len(&rt, alloc, &mut src), Some(3));
    drop(src);
}

#[test]
fn replies_are_cut_at_every_octet(rt: HostRuntime) {
    let alloc = rt.alloc();
    for most in 0..171usize {
        let src = reply(&rt, alloc, most, Vec::new(alloc));
        let error = if most == 0 {
            AskError::Transfer(SyncError::Ended)
        } else {
            AskError::Cut
        };
        refused(&rt, alloc, src, error);
    }
}

/// A reply is read by two calls.
#[test]
fn failing_reads_end_the_transfer(rt: HostRuntime) {
    let alloc = rt.alloc();
    for call in 1..3u64 {
        let src = reply(&rt, alloc, 171, only(&rt, alloc, call));
        refused(&rt, alloc, src, AskError::SourceFault);
    }
}

/// The request is written by two calls: the length, and the message. Where one fails nothing is read.
#[test]
fn failing_writes_end_the_transfer(rt: HostRuntime) {
    let alloc = rt.alloc();
    for call in 1..3u64 {
        let mut src = reply(&rt, alloc, 171, Vec::new(alloc));
        let mut out = MemorySink::new(alloc, 200, only(&rt, alloc, call));
        let taken = if call == 1 { 0 } else { 2 };
        refuses(&rt, alloc, &mut src, &mut out, AskError::SinkFault, taken);
        is(&rt, next_len(&rt, alloc, &mut src), Some(169));
        drop(out);
        drop(src);
    }
}

/// What comes of the reply with addresses within limits: the answer, and how many versions came.
fn within<R: Abort + Wait>(
    rt: &R,
    alloc: Global,
    limits: Limits,
) -> (Result<SyncOk, AskError>, usize) {
    let octets = octets_of(rt, alloc, ADDRESSES);
    let mut src = source(rt, alloc, octets.as_slice(), 203, Vec::new(alloc));
    drop(octets);
    let mut out = sink(alloc);
    let (answer, versions, _) = ask_within(rt, alloc, limits, &mut src, &mut out);
    drop(out);
    drop(src);
    (answer, versions)
}

/// One reply of 201 octets with four records, two of them of one set: each limit that it just keeps, and the one below.
#[test]
fn limits_are_kept(rt: HostRuntime) {
    let alloc = rt.alloc();
    let kept = Limits {
        replies: 1,
        octets: 201,
        records: 4,
        set_records: Some(2),
    };
    let found = within(&rt, alloc, kept);
    is(&rt, found, (Ok(SyncOk::Updated), 1));
    let found = within(&rt, alloc, Limits { replies: 0, ..kept });
    is(&rt, found, (Err(AskError::Limit(Limit::Replies)), 0));
    let found = within(
        &rt,
        alloc,
        Limits {
            octets: 200,
            ..kept
        },
    );
    is(&rt, found, (Err(AskError::Limit(Limit::Octets)), 0));
    let found = within(&rt, alloc, Limits { records: 3, ..kept });
    is(&rt, found, (Err(AskError::Limit(Limit::Records)), 0));
    let one = Limits {
        set_records: Some(1),
        ..kept
    };
    let found = within(&rt, alloc, one);
    is(&rt, found, (Err(AskError::FullSet), 0));
}
