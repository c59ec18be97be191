//! The words of the secondary's program: limits, and words that have no form; and what it tells where its file or the moment lacks.

use crate::common::{is, sink, source, words_of};
use crate::halves_tests::{ADDRESSES, replies_to, run_with};
use std::alloc::Global;
use std::process::Abort;
use std::sync::Wait;
use zone_asking::{RunEnd, run_secondary};
use zone_sync::{Status, XfrMode};

/// The usage line.
const USAGE: &str =
    "usage: zone_peer secondary axfr FILE [LIMIT N].. / ixfr FILE [LIMIT N].., LIMIT: replies, octets, records, set-records\n";

/// In each line the limit that the report names, and words of limits, where one reply comes of 229 octets with four records, two of them of one set.
const PASSED: &str = "\
replies replies 0
octets octets 228
records records 3
set-records set-records 1
records set-records 2 records 3 replies 1 octets 229
replies set-records 0 records 0 octets 0 replies 0";

/// Words that have no form.
const OTHER: &str = "\
axfr
AXFR script
axfr script 1
axfr script replies
axfr script replies 01
axfr script replies +1
axfr script records -
axfr script size 1
axfr script Octets 1
axfr script set_records 1
axfr script replies 4294967296
axfr script octets 281474976710656
axfr script replies 1 replies 1
axfr script octets 1 records 1 octets 1
ixfr script set-records 1 records";

/// Asserts how the program ends with these words over the replies of a primary to it, and what it reports.
fn reports<R: Abort + Wait>(rt: &R, alloc: Global, text: &str, status: Status, wanted: &str) {
    let replies = replies_to(rt, alloc, XfrMode::Axfr, ADDRESSES, ADDRESSES, 1);
    let mut out = sink(alloc);
    let mut report = sink(alloc);
    let ended = run_with(
        rt,
        alloc,
        text,
        ADDRESSES,
        replies.as_slice(),
        &mut out,
        &mut report,
    );
    drop(replies);
    drop(out);
    is(rt, report.as_slice(), wanted.as_bytes());
    drop(report);
    is(rt, ended, RunEnd::By(status));
}

/// Asserts that the limits of a row of `PASSED` end the transfer so.
fn passes<R: Abort + Wait>(rt: &R, alloc: Global, row: &str) {
    let (name, limits) = row.split_once(' ').expect(rt, "two words");
    let text = format!(in alloc; "axfr script {limits}").expect(rt, "memory");
    let wanted = format!(in alloc; "refused limit {name}\n").expect(rt, "memory");
    reports(rt, alloc, text.as_str(), Status::Refused, wanted.as_str());
    drop(wanted);
    drop(text);
}

#[test]
fn limits_that_are_passed(rt: HostRuntime) {
    for row in PASSED.split('\n') {
        passes(&rt, rt.alloc(), row);
    }
}

#[test]
fn limits_that_are_kept(rt: HostRuntime) {
    let wanted = "updated 1
rr 0 076578616d706c65000001000100000e100004c0000201
rr 0 076578616d706c65000001000100000e100004c0000202
rr 0 076578616d706c65000006000100000e10001600000000000100000000000000000000000000000000
";
    let text = "axfr script set-records 2 records 4 octets 229 replies 1";
    reports(&rt, rt.alloc(), text, Status::Done, wanted);
}

#[test]
fn words_without_a_form(rt: HostRuntime) {
    for text in OTHER.split('\n') {
        reports(&rt, rt.alloc(), text, Status::Usage, USAGE);
    }
}

/// Asserts how the program ends over words where its file isn't opened or is, and the moment isn't known, and what it tells.
fn lacks<R: Abort + Wait>(rt: &R, alloc: Global, text: &str, opened: bool, code: u8, wanted: &str) {
    let words = words_of(rt, alloc, text);
    let mut file = source(rt, alloc, b"", 0, Vec::new(alloc));
    let mut src = source(rt, alloc, b"", 0, Vec::new(alloc));
    let mut out = sink(alloc);
    let mut report = sink(alloc);
    let ended = run_secondary(
        rt,
        alloc,
        words.as_slice(),
        opened,
        &mut file,
        None,
        &mut src,
        &mut out,
        &mut report,
    );
    drop(out);
    drop(src);
    drop(file);
    drop(words);
    is(rt, report.as_slice(), wanted.as_bytes());
    drop(report);
    is(rt, ended.code(), code);
}

/// Words are tested first, then the file, then the moment.
#[test]
fn what_lacks_is_told(rt: HostRuntime) {
    let alloc = rt.alloc();
    lacks(&rt, alloc, "axfr", false, 2, USAGE);
    lacks(
        &rt,
        alloc,
        "axfr script",
        false,
        4,
        "the script can't be opened\n",
    );
    lacks(
        &rt,
        alloc,
        "axfr script",
        true,
        9,
        "the clock can't be read\n",
    );
}
