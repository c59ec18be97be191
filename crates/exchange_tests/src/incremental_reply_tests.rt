//! Signed replies as dnspython writes them, to a request for what is newer (RFC 1995, 4) and for the whole zone (RFC 5936, 2.2), taken one
//! by one.

use crate::common::{is, line_of, octets_of, shared_key};
use crate::exchanges::{at, spelt_versions, versions_of, zone_of};
use crate::incremental_vectors::{STREAMS, VERSIONS};
use std::alloc::Global;
use std::process::Abort;
use std::sync::Wait;
use zone_store::{ReadZone, WriteZone};
use zone_sync::{XfrClient, XfrMode};

/// In each row a stream of replies to a request for what is newer; what is answered to each of them, and how many versions there are then;
/// and the versions that were committed, `|` before each, where a serial stands for the records of that version. The first batch of all
/// commits the version that stands.
const NEWER: &str = "\
steps;Ok(Some(Updated)) 4;| 1 | 2 | 3 | 4
batches;Ok(None) 1 Ok(None) 2 Ok(Some(Updated)) 4;| 1 | 2 | 3 | 4
whole;Ok(Some(Updated)) 1;| 4
equal;Ok(Some(UpToDate)) 0;
less;Err(Iteration(SingleSoaIxfrTcpRetrySignal)) 0;
greater;Err(Iteration(SingleSoaIxfrTcpRetrySignal)) 0;";

/// The same where the secondary has nothing but the SOA record.
const NEWER_OF_LITTLE: &str = "\
added-twice;Err(Update(IncompatibleUpdate)) 1;| soa-1
outside-the-zone;Err(Update(OutOfZone)) 2;| soa-1 | soa-2 a
two-aliases;Err(Update(InvalidData)) 2;| soa-1 | soa-2 a";

/// The same of replies to a request for the whole zone.
const WHOLE: &str = "\
behind-the-end;Err(Iteration(AlreadyFinished)) 1;| soa-2 a
equal-data;Ok(Some(Updated)) 1;| soa-2 a
nothing-between;Ok(Some(Updated)) 1;| soa-2
no-soa-first;Err(Xfr(NotValidXfrResponse)) 0;
first-damaged;Err(Xfr(Malformed)) 0;
second-damaged;Err(Iteration(ParseError)) 0;
other-name;Err(OtherAnswer) 0;
other-type;Err(OtherAnswer) 0;";

/// The stream of a word: its request and its replies.
fn stream_of(word: &str) -> Option<(&'static str, &'static str)> {
    line_of(STREAMS, word)?.split_once(' ')
}

/// Makes the request of a client, which is the one that dnspython makes, and gives it the replies: what is answered to each of them.
fn answers<R: Abort + Wait>(
    rt: &R,
    alloc: Global,
    session: &mut WriteZone<'_>,
    made: &mut Vec<ReadZone>,
    mode: XfrMode,
    word: &str,
) -> String {
    let (asked, replies) = stream_of(word).expect(rt, "a stream");
    let key = shared_key(rt);
    let mut client = XfrClient::new(alloc, session, &key, mode, at());
    drop(key);
    let request = client.request(65_535).expect(rt, "a request");
    let wanted = octets_of(rt, alloc, asked);
    is(rt, request.as_slice(), wanted.as_slice());
    drop(wanted);
    drop(request);
    let mut text = String::new(alloc);
    for digits in replies.split_ascii_whitespace() {
        let open = client.is_open();
        assert!(rt; open);
        let taken = client.take(rt, octets_of(rt, alloc, digits), made);
        let told = format!(in alloc; " {taken:?} {}", made.len()).expect(rt, "memory");
        let pushed = text.push_str(told.as_str());
        drop(told);
        pushed.expect(rt, "memory");
    }
    is(rt, client.is_open(), false);
    client.into_session();
    text
}

/// The words of a version that a serial stands for.
fn words_of(word: &'static str) -> &'static str {
    let version = match word.parse::<usize>() {
        Ok(number) => VERSIONS.split('\n').nth(number.saturating_sub(1)),
        Err(_) => None,
    };
    match version {
        Some(words) => words,
        None => word,
    }
}

/// What versions have that words and serials name.
fn versions_at<R: Abort>(rt: &R, alloc: Global, text: &'static str) -> Vec<u8> {
    let mut all = Vec::new(alloc);
    for word in text.split_ascii_whitespace() {
        let one = spelt_versions(rt, alloc, words_of(word));
        let appended = all.extend_from_slice(one.as_slice());
        drop(one);
        appended.expect(rt, "memory");
    }
    all
}

/// What the pending version has, which is committed.
fn pending_of<R: Abort + Wait>(rt: &R, alloc: Global, session: &mut WriteZone<'_>) -> Vec<u8> {
    drop(session.commit(rt, false).expect(rt, "a version"));
    current_of(rt, alloc, session)
}

/// What the current version has.
fn current_of<R: Abort>(rt: &R, alloc: Global, session: &mut WriteZone<'_>) -> Vec<u8> {
    let mut handles = Vec::new(alloc);
    handles
        .push(session.handle().expect(rt, "memory"))
        .expect(rt, "memory");
    let walks = versions_of(rt, alloc, handles.as_slice());
    drop(handles);
    walks
}

/// Asserts what a row says of a secondary whose zone opens so; nothing is pending afterwards.
fn is_so<R: Abort + Wait>(
    rt: &R,
    alloc: Global,
    opening: &'static str,
    mode: XfrMode,
    row: &'static str,
) {
    let (word, rest) = row.split_once(';').expect(rt, "a stream");
    let (told, committed) = rest.split_once(';').expect(rt, "answers");
    let mut zone = zone_of(rt, alloc, opening, 0);
    let mut session = zone.write(alloc);
    let mut made = Vec::new(alloc);
    let found = answers(rt, alloc, &mut session, &mut made, mode, word);
    let text = found.as_str().trim_ascii_start();
    assert_eq!(rt; text, told, "{word}");
    drop(found);
    let walks = versions_of(rt, alloc, made.as_slice());
    drop(made);
    let wanted = versions_at(rt, alloc, committed);
    is(rt, walks, wanted);
    let current = current_of(rt, alloc, &mut session);
    let pending = pending_of(rt, alloc, &mut session);
    is(rt, pending, current);
    drop(session);
    zone.close(rt);
}

/// Asserts the rows of a table.
fn are_so<R: Abort + Wait>(
    rt: &R,
    alloc: Global,
    opening: &'static str,
    mode: XfrMode,
    table: &'static str,
) {
    for row in table.split('\n') {
        is_so(rt, alloc, opening, mode, row);
    }
}

#[test]
fn what_is_newer_of_another_server(rt: HostRuntime) {
    let alloc = rt.alloc();
    let opening = VERSIONS.split('\n').next().expect(&rt, "a version");
    are_so(&rt, alloc, opening, XfrMode::Ixfr, NEWER);
    are_so(&rt, alloc, "soa-1", XfrMode::Ixfr, NEWER_OF_LITTLE);
}

#[test]
fn whole_zones_of_another_server(rt: HostRuntime) {
    are_so(&rt, rt.alloc(), "soa-1 a", XfrMode::Axfr, WHOLE);
}
