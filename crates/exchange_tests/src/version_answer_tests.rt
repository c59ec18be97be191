//! What each version answers after transfers, whichever came since.

use crate::common::{is, shared_key};
use crate::exchanges::{primary_of, transfer, zone_of};
use crate::incremental_tests::replies;
use std::alloc::Global;
use std::process::Abort;
use std::sync::Wait;
use zone_store::{ReadZone, WriteZone};
use zone_sync::{MemoryLink, ReplyEdit, SyncError, SyncOk, XfrMode};

/// The edits of a primary's commits, from the serial 1 on.
const FIRST: &str = "-soa-1 +soa-2 -a +b";

const BOTH: &str = "-soa-1 +soa-2 -a +b|-soa-2 +soa-3 -b +c";

/// What is answered in the versions 0 to 5, in a line each: the opening one, those of a transfer of what is newer by one difference, of
/// another one after it, and of the whole zone again.
const ANSWERS: &str = "\
a NOERROR 1 0,b NXDOMAIN 0 1,old NOERROR 1 0
a NOERROR 1 0,b NXDOMAIN 0 1,old NOERROR 1 0
a NXDOMAIN 0 1,b NOERROR 1 0,old NOERROR 1 0
a NXDOMAIN 0 1,b NOERROR 1 0,old NOERROR 1 0
b NXDOMAIN 0 1,c NOERROR 1 0,old NOERROR 1 0
b NXDOMAIN 0 1,c NOERROR 1 0,old NXDOMAIN 0 1";

/// Asserts what the versions answer, each of which has its place as its number.
fn answer_so<R: Abort>(rt: &R, alloc: Global, versions: &[ReadZone]) {
    let mut lines = ANSWERS.split('\n');
    let mut number = 0u64;
    for version in versions {
        is(rt, version.version_number(), number);
        let line = lines.next().expect(rt, "answers");
        for question in line.split(',') {
            replies(rt, alloc, version, question);
        }
        number = number.saturating_add(1);
    }
}

/// A transfer from a primary whose zone opened with the serial 1 and an address, and has these commits since.
fn fetch<R: Abort + Wait>(
    rt: &R,
    alloc: Global,
    session: &mut WriteZone<'_>,
    commits: &str,
    mode: XfrMode,
    edits: Vec<ReplyEdit>,
    made: &mut Vec<ReadZone>,
) -> Result<SyncOk, SyncError> {
    let key = shared_key(rt);
    let primary = primary_of(rt, alloc, "soa-1 a", commits, &key);
    let mut link = MemoryLink::with_edits(alloc, 65_535, Vec::new(alloc), edits);
    let answer = transfer(rt, alloc, &primary, session, &key, mode, &mut link, made);
    drop(link);
    drop(primary);
    drop(key);
    answer
}

/// Asserts what a transfer answers, and how many versions there are then, all of which still answer as they did.
fn gives<R: Abort + Wait>(
    rt: &R,
    alloc: Global,
    session: &mut WriteZone<'_>,
    commits: &str,
    mode: XfrMode,
    versions: &mut Vec<ReadZone>,
    count: usize,
) {
    let answer = fetch(rt, alloc, session, commits, mode, Vec::new(alloc), versions);
    is(rt, answer, Ok(SyncOk::Updated));
    is(rt, versions.len(), count);
    answer_so(rt, alloc, versions.as_slice());
}

#[test]
fn each_version_answers_as_it_did(rt: HostRuntime) {
    let alloc = rt.alloc();
    let mut zone = zone_of(&rt, alloc, "soa-1 a old", 0);
    let mut session = zone.write(alloc);
    let mut versions = Vec::new(alloc);
    let before = session.handle().expect(&rt, "memory");
    versions.push(before).expect(&rt, "memory");
    gives(
        &rt,
        alloc,
        &mut session,
        FIRST,
        XfrMode::Ixfr,
        &mut versions,
        3,
    );
    gives(
        &rt,
        alloc,
        &mut session,
        BOTH,
        XfrMode::Ixfr,
        &mut versions,
        5,
    );
    let edits = vec![in alloc; ReplyEdit::Flip { reply: 0, octet: 3 }];
    let edits = edits.ok().expect(&rt, "memory");
    let refused = fetch(
        &rt,
        alloc,
        &mut session,
        BOTH,
        XfrMode::Axfr,
        edits,
        &mut versions,
    );
    is(&rt, refused.is_err(), true);
    is(&rt, versions.len(), 5);
    gives(
        &rt,
        alloc,
        &mut session,
        BOTH,
        XfrMode::Axfr,
        &mut versions,
        6,
    );
    drop(versions);
    drop(session);
    zone.close(&rt);
}
