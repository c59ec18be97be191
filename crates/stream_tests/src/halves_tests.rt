//! Both halves over streams: what `run_secondary` and `transfer_zone` ask, `run_primary` answers, and what comes of the answers. The zone `example.` has
//! SOA records alone but where a test says more; scripts and reports are worked by hand (docs/SCRIPT.md).

use crate::asking_tests::{empty_zone, shared_key};
use crate::common::{at, is, sink, source, words_of};
use std::alloc::Global;
use std::process::Abort;
use std::sync::Wait;
use xfr_services::RefuseSvc;
use xfr_signing::TsigMiddlewareSvc;
use zone_asking::{AskError, Limit, Limits, RunEnd, run_secondary, transfer_zone};
use zone_devices::sinks::MemorySink;
use zone_primary_run::run_primary;
use zone_serving::serve_stream;
use zone_sync::{Status, SyncOk, XfrMode};

/// The zone with serial 1 and the addresses 192.0.2.1 and 192.0.2.2 of its apex.
pub(crate) const ADDRESSES: &str = "zone 076578616d706c6500 1
key 036b657900 hmac-sha256 000102 - -
p 076578616d706c65000006000100000e10001600000000000100000000000000000000000000000000
p 076578616d706c65000001000100000e100004c0000201
p 076578616d706c65000001000100000e100004c0000202
";

/// Both begin with serial 1; the primary commits serial 2.
const NEWER: &str = "zone 076578616d706c6500 1
key 036b657900 hmac-sha256 000102 - -
p 076578616d706c65000006000100000e10001600000000000100000000000000000000000000000000
s 076578616d706c65000006000100000e10001600000000000100000000000000000000000000000000
- 076578616d706c65000006000100000e10001600000000000100000000000000000000000000000000
+ 076578616d706c65000006000100000e10001600000000000200000000000000000000000000000000
commit
";

/// Both have serial 1.
const SAME: &str = "zone 076578616d706c6500 1
key 036b657900 hmac-sha256 000102 - -
p 076578616d706c65000006000100000e10001600000000000100000000000000000000000000000000
s 076578616d706c65000006000100000e10001600000000000100000000000000000000000000000000
";

/// The primary has serial 1, the secondary serial 2.
const AHEAD: &str = "zone 076578616d706c6500 1
key 036b657900 hmac-sha256 000102 - -
p 076578616d706c65000006000100000e10001600000000000100000000000000000000000000000000
s 076578616d706c65000006000100000e10001600000000000200000000000000000000000000000000
";

/// The zone `other.` with serial 1 is all that this primary has.
const OTHER: &str = "zone 056f7468657200 1
key 036b657900 hmac-sha256 000102 - -
p 056f74686572000006000100000e10001600000000000100000000000000000000000000000000
";

/// A primary's zone with serial 1 and one address, whose key `key.` signs with 32 octets and takes 16 ..
const LENIENT: &str = "zone 076578616d706c6500 1
key 036b657900 hmac-sha256 000102 32 16
p 076578616d706c65000006000100000e10001600000000000100000000000000000000000000000000
p 076578616d706c65000001000100000e100004c0000201
";

/// .. and a secondary that has it as `KEY.` and signs with 16 octets.
const SHORTER: &str = "zone 076578616d706c6500 1
key 034b455900 hmac-sha256 000102 16 16
";

/// The replies of a script's primary to the requests of a stream.
pub(crate) fn served<R: Abort + Wait>(
    rt: &R,
    alloc: Global,
    script: &str,
    requests: &[u8],
) -> Vec<u8> {
    let mut file = source(rt, alloc, script.as_bytes(), script.len(), Vec::new(alloc));
    let mut src = source(rt, alloc, requests, requests.len(), Vec::new(alloc));
    let mut out = sink(alloc);
    let ended = run_primary(rt, alloc, &mut file, at(), &mut src, &mut out);
    is(rt, ended.is_ok(), true);
    let replies = out.as_slice().to_vec(alloc).expect(rt, "memory");
    drop(out);
    drop(src);
    drop(file);
    replies
}

/// The program's words for a transfer without limits of its own.
fn words_for(mode: XfrMode) -> &'static str {
    match mode {
        XfrMode::Axfr => "axfr script",
        XfrMode::Ixfr => "ixfr script",
    }
}

/// How the program ends with these words over a script and these replies; its requests go to one sink, its report to another.
pub(crate) fn run_with<R: Abort + Wait>(
    rt: &R,
    alloc: Global,
    text: &str,
    script: &str,
    replies: &[u8],
    out: &mut MemorySink,
    report: &mut MemorySink,
) -> RunEnd {
    let words = words_of(rt, alloc, text);
    let mut file = source(rt, alloc, script.as_bytes(), script.len(), Vec::new(alloc));
    let mut src = source(rt, alloc, replies, replies.len(), Vec::new(alloc));
    let ended = run_secondary(
        rt,
        alloc,
        words.as_slice(),
        true,
        &mut file,
        Some(at()),
        &mut src,
        out,
        report,
    );
    drop(src);
    drop(file);
    drop(words);
    ended
}

/// What a script's secondary asks over these replies.
fn asked<R: Abort + Wait>(
    rt: &R,
    alloc: Global,
    mode: XfrMode,
    script: &str,
    replies: &[u8],
) -> Vec<u8> {
    let mut out = sink(alloc);
    let mut report = sink(alloc);
    let _ended = run_with(
        rt,
        alloc,
        words_for(mode),
        script,
        replies,
        &mut out,
        &mut report,
    );
    let requests = out.as_slice().to_vec(alloc).expect(rt, "memory");
    drop(report);
    drop(out);
    requests
}

/// The replies of a primary to a secondary that makes so many requests, one after another.
pub(crate) fn replies_to<R: Abort + Wait>(
    rt: &R,
    alloc: Global,
    mode: XfrMode,
    secondary: &str,
    primary: &str,
    requests: u8,
) -> Vec<u8> {
    let mut replies = Vec::new(alloc);
    for _ in 0..requests {
        let octets = asked(rt, alloc, mode, secondary, replies.as_slice());
        drop(replies);
        replies = served(rt, alloc, primary, octets.as_slice());
        drop(octets);
    }
    replies
}

/// Asserts how a secondary ends that makes so many requests of a primary, and what it reports.
fn ends<R: Abort + Wait>(
    rt: &R,
    alloc: Global,
    mode: XfrMode,
    secondary: &str,
    primary: &str,
    requests: u8,
    status: Status,
    wanted: &str,
) {
    let replies = replies_to(rt, alloc, mode, secondary, primary, requests);
    let mut out = sink(alloc);
    let mut report = sink(alloc);
    let ended = run_with(
        rt,
        alloc,
        words_for(mode),
        secondary,
        replies.as_slice(),
        &mut out,
        &mut report,
    );
    drop(replies);
    is(rt, report.as_slice(), wanted.as_bytes());
    is(rt, ended, RunEnd::By(status));
    drop(report);
    drop(out);
}

#[test]
fn the_whole_zone(rt: HostRuntime) {
    let wanted = "updated 1
rr 0 076578616d706c65000001000100000e100004c0000201
rr 0 076578616d706c65000001000100000e100004c0000202
rr 0 076578616d706c65000006000100000e10001600000000000100000000000000000000000000000000
";
    let alloc = rt.alloc();
    ends(
        &rt,
        alloc,
        XfrMode::Axfr,
        ADDRESSES,
        ADDRESSES,
        1,
        Status::Done,
        wanted,
    );
}

/// Both have one key, with a spelling and lengths of its own on each side.
#[test]
fn one_key_spelt_in_two_ways(rt: HostRuntime) {
    let wanted = "updated 1
rr 0 076578616d706c65000001000100000e100004c0000201
rr 0 076578616d706c65000006000100000e10001600000000000100000000000000000000000000000000
";
    let alloc = rt.alloc();
    ends(
        &rt,
        alloc,
        XfrMode::Axfr,
        SHORTER,
        LENIENT,
        1,
        Status::Done,
        wanted,
    );
}

/// One version is made of where the difference begins, one of where it ends.
#[test]
fn what_is_newer(rt: HostRuntime) {
    let wanted = "updated 2
rr 0 076578616d706c65000006000100000e10001600000000000200000000000000000000000000000000
";
    let alloc = rt.alloc();
    ends(
        &rt,
        alloc,
        XfrMode::Ixfr,
        NEWER,
        NEWER,
        1,
        Status::Done,
        wanted,
    );
}

#[test]
fn nothing_newer(rt: HostRuntime) {
    let wanted = "up-to-date
rr 0 076578616d706c65000006000100000e10001600000000000100000000000000000000000000000000
";
    let alloc = rt.alloc();
    ends(
        &rt,
        alloc,
        XfrMode::Ixfr,
        SAME,
        SAME,
        1,
        Status::Done,
        wanted,
    );
}

/// A primary that is behind answers by its SOA record alone; the whole zone is asked for in a second request (RFC 1995, 4).
#[test]
fn asked_again_after_one_soa(rt: HostRuntime) {
    let first = "refused ended
rr 0 076578616d706c65000006000100000e10001600000000000200000000000000000000000000000000
";
    let wanted = "updated 1
rr 0 076578616d706c65000006000100000e10001600000000000100000000000000000000000000000000
";
    let alloc = rt.alloc();
    ends(
        &rt,
        alloc,
        XfrMode::Ixfr,
        AHEAD,
        AHEAD,
        1,
        Status::Refused,
        first,
    );
    ends(
        &rt,
        alloc,
        XfrMode::Ixfr,
        AHEAD,
        AHEAD,
        2,
        Status::Done,
        wanted,
    );
}

/// A primary without the zone answers NOTAUTH (RFC 5936, 2.2.1), after which nothing is asked again.
#[test]
fn asked_once_where_the_zone_is_not_there(rt: HostRuntime) {
    let wanted = "refused not-valid
rr 0 076578616d706c65000006000100000e10001600000000000100000000000000000000000000000000
";
    let alloc = rt.alloc();
    ends(
        &rt,
        alloc,
        XfrMode::Ixfr,
        SAME,
        OTHER,
        1,
        Status::Refused,
        wanted,
    );
}

/// The signed REFUSED to each request of a stream.
fn refused<R: Abort + Wait>(rt: &R, alloc: Global, requests: &[u8]) -> Vec<u8> {
    let service = TsigMiddlewareSvc::new(RefuseSvc, shared_key(rt));
    let mut src = source(rt, alloc, requests, requests.len(), Vec::new(alloc));
    let mut out = sink(alloc);
    let ended = serve_stream(rt, alloc, &service, at(), &mut src, &mut out);
    is(rt, ended.is_ok(), true);
    let replies = out.as_slice().to_vec(alloc).expect(rt, "memory");
    drop(out);
    drop(src);
    drop(service);
    replies
}

/// What a secondary asks where each of these requests gets a signed REFUSED.
fn asked_after_refused<R: Abort + Wait>(
    rt: &R,
    alloc: Global,
    mode: XfrMode,
    requests: &[u8],
) -> Vec<u8> {
    let replies = refused(rt, alloc, requests);
    let more = asked(rt, alloc, mode, SAME, replies.as_slice());
    drop(replies);
    more
}

/// Where what is newer is refused, the whole zone is asked for, by a second request of 103 octets; where that is refused too, nothing more is.
#[test]
fn asked_again_after_refused(rt: HostRuntime) {
    let alloc = rt.alloc();
    let first = asked(&rt, alloc, XfrMode::Ixfr, SAME, b"");
    let both = asked_after_refused(&rt, alloc, XfrMode::Ixfr, first.as_slice());
    is(&rt, both.starts_with(first.as_slice()), true);
    is(&rt, both.len(), first.len() + 103);
    let last = asked_after_refused(&rt, alloc, XfrMode::Ixfr, both.as_slice());
    is(&rt, last.as_slice(), both.as_slice());
    drop(last);
    drop(both);
    drop(first);
    let whole = asked(&rt, alloc, XfrMode::Axfr, SAME, b"");
    let same = asked_after_refused(&rt, alloc, XfrMode::Axfr, whole.as_slice());
    is(&rt, same.as_slice(), whole.as_slice());
    drop(same);
    drop(whole);
}

/// The answer of a transfer of the whole zone within limits, and how many versions came.
fn within<R: Abort + Wait>(
    rt: &R,
    alloc: Global,
    limits: Limits,
) -> (Result<SyncOk, AskError>, usize) {
    let replies = replies_to(rt, alloc, XfrMode::Axfr, ADDRESSES, ADDRESSES, 1);
    let mut src = source(
        rt,
        alloc,
        replies.as_slice(),
        replies.len(),
        Vec::new(alloc),
    );
    drop(replies);
    let mut out = sink(alloc);
    let key = shared_key(rt);
    let mut zone = empty_zone(rt, alloc);
    let mut session = zone.write(alloc);
    let mut made = Vec::new(alloc);
    let answer = transfer_zone(
        rt,
        alloc,
        &mut session,
        &key,
        XfrMode::Axfr,
        at(),
        &limits,
        &mut src,
        &mut out,
        &mut made,
    );
    let versions = made.len();
    drop(made);
    drop(session);
    zone.close(rt);
    drop(key);
    drop(out);
    drop(src);
    (answer, versions)
}

/// One reply of 229 octets, names whole, with four records, two of them of one set: each limit that it just keeps, and the one below.
#[test]
fn limits_of_transfers(rt: HostRuntime) {
    let alloc = rt.alloc();
    let kept = Limits {
        replies: 1,
        octets: 229,
        records: 4,
        set_records: Some(2),
    };
    is(&rt, within(&rt, alloc, kept), (Ok(SyncOk::Updated), 1));
    let found = within(&rt, alloc, Limits { replies: 0, ..kept });
    is(&rt, found, (Err(AskError::Limit(Limit::Replies)), 0));
    let octets = Limits {
        octets: 228,
        ..kept
    };
    let found = within(&rt, alloc, octets);
    is(&rt, found, (Err(AskError::Limit(Limit::Octets)), 0));
    let found = within(&rt, alloc, Limits { records: 3, ..kept });
    is(&rt, found, (Err(AskError::Limit(Limit::Records)), 0));
    let one = Limits {
        set_records: Some(1),
        ..kept
    };
    is(&rt, within(&rt, alloc, one), (Err(AskError::FullSet), 0));
}
