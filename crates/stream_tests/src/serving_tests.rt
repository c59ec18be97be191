//! Streams of requests to a service that answers REFUSED: a reply has the request's id, opcode, RD and question, QR and that rcode (RFC 1035,
//! 4.1.1), and stands behind its length (RFC 1035, 4.2.2).

use crate::common::{at, is, next_len, only, sink, source};
use std::alloc::Global;
use std::process::Abort;
use std::sync::Wait;
use xfr_services::RefuseSvc;
use zone_devices::sinks::MemorySink;
use zone_devices::sources::{Source, StdSource};
use zone_serving::{ServeError, Served, serve_stream};

/// Two requests: a query with RD for the SOA of `example.`, and one of opcode 4 for the whole zone of the root. Their frames end behind 27 and 46
/// octets.
const ASKED: &[u8] = b"\0\x19\x12\x34\x01\0\0\x01\0\0\0\0\0\0\x07example\0\0\x06\0\x01\
\0\x11\x56\x78\x20\0\0\x01\0\0\0\0\0\0\0\0\xfc\0\x01";

/// The replies to both.
const REPLIES: &[u8] = b"\0\x19\x12\x34\x81\x05\0\x01\0\0\0\0\0\0\x07example\0\0\x06\0\x01\
\0\x11\x56\x78\xa0\x05\0\x01\0\0\0\0\0\0\0\0\xfc\0\x01";

/// The second request between two others: one of 12 octets, which asks nothing, and one of 11.
const SHORT: &[u8] = b"\0\x0c\x9a\xbc\0\0\0\0\0\0\0\0\0\0\
\0\x0b\x9a\xbc\0\0\0\0\0\0\0\0\0\
\0\x11\x56\x78\x20\0\0\x01\0\0\0\0\0\0\0\0\xfc\0\x01";

/// The same with a request of no octets in the place of that of 11.
const EMPTY: &[u8] = b"\0\x0c\x9a\xbc\0\0\0\0\0\0\0\0\0\0\
\0\0\
\0\x11\x56\x78\x20\0\0\x01\0\0\0\0\0\0\0\0\xfc\0\x01";

/// The reply to a request that asks nothing.
const REPLY_TO_NOTHING: &[u8] = b"\0\x0c\x9a\xbc\x80\x05\0\0\0\0\0\0\0\0";

/// Asserts how a stream ends, and what a sink takes of the replies.
fn ends<R: Abort + Wait, S: Source>(
    rt: &R,
    alloc: Global,
    src: &mut S,
    out: &mut MemorySink,
    ended: Result<Served, ServeError>,
    replies: &[u8],
) {
    let found = serve_stream(rt, alloc, &RefuseSvc, at(), src, out);
    is(rt, out.as_slice(), replies);
    is(rt, found, ended);
}

#[test]
fn requests_are_answered_in_order(rt: HostRuntime) {
    let alloc = rt.alloc();
    let mut src = source(&rt, alloc, ASKED, 46, Vec::new(alloc));
    let mut out = sink(alloc);
    let ended = Ok(Served { requests: 2 });
    ends(&rt, alloc, &mut src, &mut out, ended, REPLIES);
    drop(out);
    drop(src);
}

#[test]
fn streams_are_cut_at_every_octet(rt: HostRuntime) {
    let alloc = rt.alloc();
    for most in 0..46usize {
        let mut src = source(&rt, alloc, ASKED, most, Vec::new(alloc));
        let mut out = sink(alloc);
        let ended = if most == 0 {
            Ok(Served { requests: 0 })
        } else if most == 27 {
            Ok(Served { requests: 1 })
        } else {
            Err(ServeError::Cut)
        };
        let replies = if most < 27 { b"" } else { &REPLIES[..27] };
        ends(&rt, alloc, &mut src, &mut out, ended, replies);
        drop(out);
        drop(src);
    }
}

/// A reader that gives one octet a call.
#[derive(Drop)]
struct OneOctet {
    octets: Vec<u8>,
    place: usize,
}

impl std::io::Read for OneOctet {
    fn read(&mut self, buf: &mut [u8]) -> std::io::Result<usize> {
        let (Some(octet), Some(first)) = (self.octets.get(self.place), buf.first_mut()) else {
            return Ok(0);
        };
        *first = *octet;
        self.place += 1;
        Ok(1)
    }
}

#[test]
fn one_octet_a_call(rt: HostRuntime) {
    let alloc = rt.alloc();
    let octets = ASKED.to_vec(alloc).expect(&rt, "memory");
    let mut src = StdSource::new(OneOctet { octets, place: 0 });
    let mut out = MemorySink::new(alloc, 1, Vec::new(alloc));
    let ended = Ok(Served { requests: 2 });
    ends(&rt, alloc, &mut src, &mut out, ended, REPLIES);
    drop(out);
    drop(src);
}

/// A request without a header ends the stream: what stands before it is answered, and what stands behind it isn't read.
#[test]
fn requests_without_a_header_end_the_stream(rt: HostRuntime) {
    let alloc = rt.alloc();
    for asked in [SHORT, EMPTY] {
        let mut src = source(&rt, alloc, asked, 100, Vec::new(alloc));
        let mut out = sink(alloc);
        let ended = Err(ServeError::Short);
        ends(&rt, alloc, &mut src, &mut out, ended, REPLY_TO_NOTHING);
        is(&rt, next_len(&rt, alloc, &mut src), Some(17));
        drop(out);
        drop(src);
    }
}

/// A request is read by two calls, and the end by one.
#[test]
fn failing_reads_end_the_stream(rt: HostRuntime) {
    let alloc = rt.alloc();
    for call in 1..6u64 {
        let mut src = source(&rt, alloc, ASKED, 46, only(&rt, alloc, call));
        let mut out = sink(alloc);
        let replies = if call < 3 {
            b""
        } else if call < 5 {
            &REPLIES[..27]
        } else {
            REPLIES
        };
        let ended = Err(ServeError::SourceFault);
        ends(&rt, alloc, &mut src, &mut out, ended, replies);
        drop(out);
        drop(src);
    }
}

/// A reply is written by two calls: the length, and the message. Where one fails no further request is read.
#[test]
fn failing_writes_end_the_stream(rt: HostRuntime) {
    let alloc = rt.alloc();
    for call in 1..5u64 {
        let mut src = source(&rt, alloc, ASKED, 46, Vec::new(alloc));
        let mut out = MemorySink::new(alloc, 100, only(&rt, alloc, call));
        let (taken, left) = if call == 1 {
            (0, Some(17))
        } else if call == 2 {
            (2, Some(17))
        } else if call == 3 {
            (27, None)
        } else {
            (29, None)
        };
        let ended = Err(ServeError::SinkFault);
        ends(&rt, alloc, &mut src, &mut out, ended, &REPLIES[..taken]);
        is(&rt, next_len(&rt, alloc, &mut src), left);
        drop(out);
        drop(src);
    }
}
