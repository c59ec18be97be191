//! Transfers of what is newer (RFC 1995) from a primary with a history, through all of both halves, over a link in memory.
use crate::common::{is, shared_key};
use crate::exchanges::{
    octets_at, primary_of, spelt_versions, stored_at, transfer, versions_of, zone_of,
};
use dns_rdata::record_from_octets;
use dns_wire::PushError;
use std::alloc::Global;
use std::process::Abort;
use std::sync::Wait;
use zone_store::{CommitError, ReadZone, ReadableZone, WriteZone};
use zone_sync::{MemoryLink, SyncError, SyncOk, XfrMode};
use zone_types::AnswerRecords;

/// In each row: what it shows; the records that the primary's zone opens with; the edits of its commits, with `|` between them; the
/// records that the secondary's zone opens with; the answer; the versions that are committed, `|` before each; and questions of the
/// secondary afterwards, each the owner and type of a record, the rcode, and how many records stand in answer and authority.
const CASES: &str = "\
the example of RFC 1995, 7;jain-1 jain-ns jain-a NEZU;-jain-1 +jain-2 -NEZU +BB-4 +BB-2|-jain-2 +jain-3 -BB-4 +BB-3;jain-1 jain-ns jain-a nezu;\
Ok(Updated);| jain-ns jain-1 nezu jain-a | jain-ns jain-2 bb-4 bb-2 jain-a | jain-ns jain-3 bb-2 bb-3 jain-a;nezu NXDOMAIN 0 1,bb-2 NOERROR 2 0
nothing is newer;soa-1;;soa-1;Ok(UpToDate);;
the secondary is ahead;soa-1;;soa-2;Err(Iteration(SingleSoaIxfrTcpRetrySignal));;
a serial half the circle away is neither less nor greater (RFC 1982, 3.2);soa-0;-soa-0 +soa-half;soa-0;Ok(Updated);| soa-0 | soa-half;
the last NS goes, and the DS with it;soa-1 cut-1 cut-2 cut-ds;-soa-1 +soa-2 -cut-1 -cut-2 -cut-ds;soa-1 cut-1 cut-2 cut-ds;\
Ok(Updated);| soa-1 cut-1 cut-2 cut-ds | soa-2;cut-1 NXDOMAIN 0 1
a name with nothing but a name below it;soa-1;-soa-1 +soa-2 +below-b;soa-1;\
Ok(Updated);| soa-1 | soa-2 below-b;below-b NOERROR 1 0,b NOERROR 0 1,beside-below-b NXDOMAIN 0 1
without a history two equal SOAs: nothing but the serial changes;soa-2;;soa-1 old;Ok(Updated);| soa-2 old;old NOERROR 1 0
a record to be deleted is missing;soa-1 a;-soa-1 +soa-2 -a;soa-1;Err(Update(IncompatibleUpdate));| soa-1;a NXDOMAIN 0 1
a secondary without an SOA doesn't ask;soa-1;;a;Err(NoSoa);;
what is added and deleted again comes and goes;soa-1;-soa-1 +soa-2 +a|-soa-2 +soa-3 -a;soa-1;Ok(Updated);| soa-1 | soa-2 a | soa-3;
a TTL changes, and with it all of the set;soa-1 t-1 t-2 t-3;-soa-1 +soa-2 -t-1 -t-2 -t-3 +short-t-1 +short-t-2 +short-t-3;soa-1 t-1 t-2 t-3;\
Ok(Updated);| soa-1 t-1 t-2 t-3 | soa-2 short-t-1 short-t-2 short-t-3;t-1 NOERROR 3 0
a set has the TTL of the record that was added last;soa-1 t-1 t-2 t-3;-soa-1 +soa-2 -t-2 +short-t-2;soa-1 t-1 t-2 t-3;\
Ok(Updated);| soa-1 t-1 t-2 t-3 | soa-2 short-t-1 short-t-3 short-t-2;
only the later commit is missing;soa-1;-soa-1 +soa-2 +a|-soa-2 +soa-3 -a;soa-2 a;Ok(Updated);| soa-2 a | soa-3;
a serial that there never was gets the whole zone;soa-1;-soa-1 +soa-3 +a;soa-2 old;Ok(Updated);| soa-3 a;old NXDOMAIN 0 1";

/// A row of the cases.
#[derive(Clone, Copy)]
struct Case {
    title: &'static str,
    opening: &'static str,
    commits: &'static str,
    secondary: &'static str,
    answer: &'static str,
    committed: &'static str,
    questions: &'static str,
}

/// The case of a row.
fn case_of(row: &'static str) -> Option<Case> {
    let (title, row) = row.split_once(';')?;
    let (opening, row) = row.split_once(';')?;
    let (commits, row) = row.split_once(';')?;
    let (secondary, row) = row.split_once(';')?;
    let (answer, row) = row.split_once(';')?;
    let (committed, questions) = row.split_once(';')?;
    Some(Case {
        title,
        opening,
        commits,
        secondary,
        answer,
        committed,
        questions,
    })
}

/// What the secondary of a case answers; the versions are added to `made`.
fn answer_to<R: Abort + Wait>(
    rt: &R,
    alloc: Global,
    case: Case,
    session: &mut WriteZone<'_>,
    made: &mut Vec<ReadZone>,
) -> Result<SyncOk, SyncError> {
    let key = shared_key(rt);
    let primary = primary_of(rt, alloc, case.opening, case.commits, &key);
    let mut link = MemoryLink::new(alloc, 65_535, Vec::new(alloc));
    let answer = transfer(
        rt,
        alloc,
        &primary,
        session,
        &key,
        XfrMode::Ixfr,
        &mut link,
        made,
    );
    drop(link);
    drop(primary);
    drop(key);
    answer
}

/// How many records a section has.
fn how_many(records: AnswerRecords<'_>) -> u64 {
    let mut count = 0u64;
    for _ in records {
        count = count.saturating_add(1);
    }
    count
}

/// Asserts what a version answers, with authority, to the question of a word.
pub(crate) fn replies<R: Abort>(rt: &R, alloc: Global, version: &ReadZone, question: &str) {
    let mut words = question.split_ascii_whitespace();
    let word = words.next().expect(rt, "a word");
    let octets = octets_at(rt, alloc, word);
    let asked = record_from_octets(octets.as_slice()).expect(rt, "a record");
    let found = version
        .look_up(asked.owner(), asked.rtype())
        .expect(rt, "a name of the zone");
    let rcode = found.rcode();
    let answers = how_many(found.answer(asked.owner()));
    let authority = how_many(found.authority());
    let told = format!(in alloc; "{word} {rcode} {answers} {authority}").expect(rt, "memory");
    is(rt, told.as_str(), question);
    assert!(rt; found.authoritative());
    drop(told);
    drop(found);
    drop(asked);
    drop(octets);
}

/// Asserts what a case says.
fn is_so<R: Abort + Wait>(rt: &R, alloc: Global, case: Case) {
    let mut zone = zone_of(rt, alloc, case.secondary, 0);
    let mut session = zone.write(alloc);
    let mut made = Vec::new(alloc);
    let answer = answer_to(rt, alloc, case, &mut session, &mut made);
    let answer = format!(in alloc; "{answer:?}").expect(rt, "memory");
    let told = answer.as_str();
    assert_eq!(rt; told, case.answer, "{}", case.title);
    drop(answer);
    let found = versions_of(rt, alloc, made.as_slice());
    drop(made);
    let wanted = spelt_versions(rt, alloc, case.committed);
    assert_eq!(rt; found, wanted, "{}", case.title);
    drop(wanted);
    drop(found);
    let current = session.handle().expect(rt, "memory");
    for question in case.questions.split(',') {
        if !question.is_empty() {
            replies(rt, alloc, &current, question);
        }
    }
    drop(current);
    drop(session);
    zone.close(rt);
}

#[test]
fn what_is_newer_comes(rt: HostRuntime) {
    let alloc = rt.alloc();
    for row in CASES.split('\n') {
        let case = case_of(row).expect(&rt, "a case");
        is_so(&rt, alloc, case);
    }
}

/// Asserts what a secondary whose only record is an SOA of serial 1, in the version of this number, answers a primary whose zone opened
/// alike and has these commits since, over a link that takes requests of so many octets, and how many versions it makes.
fn says<R: Abort + Wait>(
    rt: &R,
    alloc: Global,
    number: u64,
    commits: &str,
    max_len: usize,
    mode: XfrMode,
    wanted: (Result<SyncOk, SyncError>, usize),
) {
    let key = shared_key(rt);
    let primary = primary_of(rt, alloc, "soa-1", commits, &key);
    let mut zone = zone_of(rt, alloc, "soa-1", number);
    let mut session = zone.write(alloc);
    let mut link = MemoryLink::new(alloc, max_len, Vec::new(alloc));
    let mut made = Vec::new(alloc);
    let answer = transfer(
        rt,
        alloc,
        &primary,
        &mut session,
        &key,
        mode,
        &mut link,
        &mut made,
    );
    drop(link);
    drop(primary);
    drop(key);
    is(rt, (answer, made.len()), wanted);
    drop(made);
    drop(session);
    zone.close(rt);
}

/// Asserts that a request has too many octets for a link.
fn is_too_long<R: Abort + Wait>(rt: &R, alloc: Global, max_len: usize, mode: XfrMode) {
    let refused = Err(SyncError::Request(PushError::ShortBuf));
    says(rt, alloc, 0, "", max_len, mode, (refused, 0));
}

// A header has 12 octets, the question 13, the TSIG 76, and the SOA record of a request for what is newer 41.
#[test]
fn requests_of_101_and_of_142_octets(rt: HostRuntime) {
    let alloc = rt.alloc();
    let updated = Ok(SyncOk::Updated);
    let current = Ok(SyncOk::UpToDate);
    is_too_long(&rt, alloc, 100, XfrMode::Axfr);
    says(&rt, alloc, 0, "", 101, XfrMode::Axfr, (updated, 1));
    is_too_long(&rt, alloc, 141, XfrMode::Ixfr);
    says(&rt, alloc, 0, "", 142, XfrMode::Ixfr, (current, 0));
}

/// Asserts the same of one commit, with room for each request.
fn says_after<R: Abort + Wait>(
    rt: &R,
    alloc: Global,
    number: u64,
    mode: XfrMode,
    wanted: (Result<SyncOk, SyncError>, usize),
) {
    says(rt, alloc, number, "-soa-1 +soa-2 +a", 65_535, mode, wanted);
}

/// Asserts that no version number is left for it, after so many versions.
fn is_exhausted<R: Abort + Wait>(rt: &R, alloc: Global, number: u64, mode: XfrMode, count: usize) {
    let exhausted = Err(SyncError::VersionsExhausted);
    says_after(rt, alloc, number, mode, (exhausted, count));
}

/// Asserts that it comes, in so many versions.
fn is_updated<R: Abort + Wait>(rt: &R, alloc: Global, number: u64, mode: XfrMode, count: usize) {
    let updated = Ok(SyncOk::Updated);
    says_after(rt, alloc, number, mode, (updated, count));
}

#[test]
fn no_version_number_is_left(rt: HostRuntime) {
    let alloc = rt.alloc();
    let mut zone = zone_of(&rt, alloc, "soa-1", u64::MAX);
    let mut session = zone.write(alloc);
    let added = session.add_record(stored_at(&rt, alloc, "a"));
    is(&rt, added, Ok(()));
    let refused = session.commit(&rt, false).err();
    is(&rt, refused, Some(CommitError::VersionsExhausted));
    drop(session);
    zone.close(&rt);
    is_exhausted(&rt, alloc, u64::MAX, XfrMode::Axfr, 0);
    is_exhausted(&rt, alloc, u64::MAX, XfrMode::Ixfr, 0);
    is_exhausted(&rt, alloc, u64::MAX - 1, XfrMode::Ixfr, 1);
    is_updated(&rt, alloc, u64::MAX - 1, XfrMode::Axfr, 1);
    is_updated(&rt, alloc, u64::MAX - 2, XfrMode::Ixfr, 2);
}
