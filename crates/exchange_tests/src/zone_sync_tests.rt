//! The program over streams and links in memory. What it writes of whole scripts stands in the files of `cases/`.

use crate::common::is;
use std::alloc::Global;
use std::process::Abort;
use std::sync::Wait;
use std::thread::Threads;
use zone_sync::{
    Link, LoopLink, MemoryLink, MemorySink, MemorySource, Sink, Source, Status, StdSink, StdSource,
    run, write_all,
};

/// A script of a small zone: an SOA of serial 1, an NS record, and two addresses; without an `at` line the moments are 0.
const SCRIPT: &[u8] = b"zone 076578616d706c6500 1\n\
key 036b657900 hmac-sha256 000102 - -\n\
p 076578616d706c65000006000100000e10001600000000000100000000000000000000000000000000\n\
p 076578616d706c65000002000100000e10000c026e73076578616d706c6500\n\
p 026e73076578616d706c65000001000100000e100004c0000201\n\
p 026e73076578616d706c65000001000100000e100004c0000202\n";

/// The same with an `at` line.
const SCRIPT_AT_1000: &[u8] = b"zone 076578616d706c6500 1\n\
key 036b657900 hmac-sha256 000102 - -\n\
at 1000 1000\n\
p 076578616d706c65000006000100000e10001600000000000100000000000000000000000000000000\n\
p 076578616d706c65000002000100000e10000c026e73076578616d706c6500\n\
p 026e73076578616d706c65000001000100000e100004c0000201\n\
p 026e73076578616d706c65000001000100000e100004c0000202\n";

/// What is reported of a good transfer of that zone.
const REPORT: &[u8] = b"updated 1\n\
rr 0 076578616d706c65000002000100000e10000c026e73076578616d706c6500\n\
rr 0 076578616d706c65000006000100000e10001600000000000100000000000000000000000000000000\n\
rr 0 026e73076578616d706c65000001000100000e100004c0000201\n\
rr 0 026e73076578616d706c65000001000100000e100004c0000202\n";

/// Runs the word `axfr` over its streams and a link.
fn axfr<R: Abort + Threads + Wait + Sync, S: Source, K: Sink, L: Link>(
    rt: &R,
    alloc: Global,
    src: &mut S,
    out: &mut K,
    link: &mut L,
) -> Status {
    let mut words = Vec::new(alloc);
    let word = String::from_str(alloc, "axfr").expect(rt, "memory");
    words.push(word).expect(rt, "memory");
    let status = run(rt, alloc, words.as_slice(), src, out, link);
    drop(words);
    status
}

/// A script as a source whose calls of this list fail.
fn source<R: Abort>(rt: &R, alloc: Global, script: &[u8], failing: Vec<u64>) -> MemorySource {
    let script = script.to_vec(alloc).expect(rt, "memory");
    MemorySource::new(script, failing)
}

/// The number of the one call that fails.
fn only<R: Abort>(rt: &R, alloc: Global, call: u64) -> Vec<u64> {
    vec![in alloc; call].expect(rt, "memory")
}

/// Asserts status and output of a script over a link.
fn expect<R: Abort + Threads + Wait + Sync, L: Link>(
    rt: &R,
    alloc: Global,
    script: &[u8],
    link: &mut L,
    status: Status,
    output: &[u8],
) {
    let mut src = source(rt, alloc, script, Vec::new(alloc));
    let mut out = MemorySink::new(alloc, 7, Vec::new(alloc));
    let got = axfr(rt, alloc, &mut src, &mut out, link);
    drop(src);
    is(rt, out.as_slice(), output);
    drop(out);
    is(rt, got, status);
}

#[test]
fn axfr_brings_the_zone(rt: HostRuntime) {
    let alloc = rt.alloc();
    let mut link = LoopLink::new(alloc);
    expect(&rt, alloc, SCRIPT_AT_1000, &mut link, Status::Done, REPORT);
    drop(link);
}

/// Asserts status and output over a link that takes requests of up to so many octets.
fn expect_within<R: Abort + Threads + Wait + Sync>(
    rt: &R,
    alloc: Global,
    max_len: usize,
    status: Status,
    output: &[u8],
) {
    let mut link = MemoryLink::new(alloc, max_len, Vec::new(alloc));
    expect(rt, alloc, SCRIPT, &mut link, status, output);
    drop(link);
}

/// That the link has no room isn't told as want of memory.
#[test]
fn request_of_101_octets(rt: HostRuntime) {
    let alloc = rt.alloc();
    let refused = b"refused request-too-long\n";
    expect_within(&rt, alloc, 100, Status::Refused, refused);
    expect_within(&rt, alloc, 101, Status::Done, REPORT);
}

/// Asserts that the fault of a link's call is told.
fn fails_at<R: Abort + Threads + Wait + Sync>(rt: &R, alloc: Global, call: u64) {
    let mut link = MemoryLink::new(alloc, 65_535, only(rt, alloc, call));
    let refused = b"refused link-fault\n";
    let status = Status::LinkFault;
    expect(rt, alloc, SCRIPT_AT_1000, &mut link, status, refused);
    drop(link);
}

#[test]
fn failing_link(rt: HostRuntime) {
    for call in [1u64, 2, 3, 4] {
        fails_at(&rt, rt.alloc(), call);
    }
}

/// Runs `axfr` from a source to a sink, over a link that nothing goes wrong with.
fn axfr_to<R: Abort + Threads + Wait + Sync, S: Source + Drop>(
    rt: &R,
    alloc: Global,
    mut src: S,
    out: &mut MemorySink,
) -> Status {
    let mut link = LoopLink::new(alloc);
    let got = axfr(rt, alloc, &mut src, out, &mut link);
    drop(link);
    drop(src);
    got
}

#[test]
fn failing_source(rt: HostRuntime) {
    let alloc = rt.alloc();
    let src = source(&rt, alloc, SCRIPT_AT_1000, only(&rt, alloc, 2));
    let mut out = MemorySink::new(alloc, 4096, Vec::new(alloc));
    let got = axfr_to(&rt, alloc, src, &mut out);
    is(&rt, out.as_slice(), b"read fault\n".as_slice());
    drop(out);
    is(&rt, got, Status::SourceFault);
}

#[test]
fn failing_sink(rt: HostRuntime) {
    let alloc = rt.alloc();
    let src = source(&rt, alloc, SCRIPT_AT_1000, Vec::new(alloc));
    let mut out = MemorySink::new(alloc, 16, only(&rt, alloc, 3));
    let got = axfr_to(&rt, alloc, src, &mut out);
    let written = out.as_slice();
    is(&rt, written.len(), 32);
    assert!(rt; REPORT.starts_with(written));
    drop(out);
    is(&rt, got, Status::SinkFault);
}

#[test]
fn one_octet_a_call(rt: HostRuntime) {
    let alloc = rt.alloc();
    let octets = SCRIPT_AT_1000.to_vec(alloc).expect(&rt, "memory");
    let src = StdSource::new(OneOctet { octets, place: 0 });
    let mut out = MemorySink::new(alloc, 1, Vec::new(alloc));
    let got = axfr_to(&rt, alloc, src, &mut out);
    is(&rt, out.as_slice(), REPORT);
    drop(out);
    is(&rt, got, Status::Done);
}

/// A reader that gives one octet a call.
#[derive(Drop)]
struct OneOctet {
    octets: Vec<u8>,
    place: usize,
}

impl std::io::Read for OneOctet {
    fn read(&mut self, buf: &mut [u8]) -> std::io::Result<usize> {
        let (Some(octet), Some(first)) = (self.octets.get(self.place), buf.first_mut()) else {
            return Ok(0);
        };
        *first = *octet;
        self.place += 1;
        Ok(1)
    }
}

#[test]
fn std_source_reads(rt: HostRuntime) {
    let text: &[u8] = b"octets";
    let mut src = StdSource::new(text);
    let mut buf = [0u8; 4];
    let count = src.read(&mut buf);
    is(&rt, count, Ok(4));
    let taken = buf.as_slice();
    is(&rt, taken, b"octe".as_slice());
    let count = src.read(&mut buf);
    is(&rt, count, Ok(2));
    let count = src.read(&mut buf);
    is(&rt, count, Ok(0));
}

#[test]
fn std_sink_writes(rt: HostRuntime) {
    let mut out = StdSink::new(Vec::new(rt.alloc()));
    let written = write_all(&mut out, b"octets");
    is(&rt, written, Ok(()));
    drop(out);
    let mut full = StdSink::new(NoRoom);
    let refused = full.write(b"octets").is_err();
    assert!(rt; refused);
    drop(full);
}

/// A writer that takes nothing.
#[derive(Drop)]
struct NoRoom;

impl std::io::Write for NoRoom {
    fn write(&mut self, _buf: &[u8]) -> std::io::Result<usize> {
        Ok(0)
    }

    fn flush(&mut self) -> std::io::Result<()> {
        Ok(())
    }
}
