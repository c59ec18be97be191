//! Replies as dnspython writes them, read and applied (RFC 1995, 4 and 7; RFC 5936, 2.2).

use crate::common::{digits_of, is};
use crate::transfer_vectors::{MESSAGES, RECORDS, digits_at, octets_at};
use crate::updater_tests::{COM, FIRST, JAIN, applies_anew, walks, zone_at};
use dns_numbers::Serial;
use dns_rdata::{ComposeRecord, ReadRecord};
use dns_wire::MessageBuf;
use std::alloc::Global;
use std::process::Abort;
use std::sync::Wait;
use xfr_client::protocol::IterationError;
use xfr_client::{XfrResponseInterpreter, XfrZoneUpdateIterator, ZoneUpdate, ZoneUpdater};
use zone_store::WriteZone;

/// In each line the messages of a reply, and the updates that they say, each with its record.
const SAID: &str = "\
steps;BeginBatchDelete soa-1 DeleteRecord nezu-5 BeginBatchAdd soa-2 AddRecord bb-4 AddRecord bb-2 \
BeginBatchDelete soa-2 DeleteRecord bb-4 BeginBatchAdd soa-3 AddRecord bb-3 Finished soa-3
first second third;BeginBatchDelete soa-1 DeleteRecord nezu-5 BeginBatchAdd soa-2 AddRecord bb-4 AddRecord bb-2 \
BeginBatchDelete soa-2 DeleteRecord bb-4 BeginBatchAdd soa-3 AddRecord bb-3 Finished soa-3
condensed;BeginBatchDelete soa-1 DeleteRecord nezu-5 BeginBatchAdd soa-3 AddRecord bb-3 AddRecord bb-2 Finished soa-3
whole;DeleteAllRecords AddRecord ns AddRecord ns-a AddRecord bb-2 AddRecord bb-3 Finished soa-3
equal;Finished soa-3
events;DeleteAllRecords AddRecord com-1 AddRecord com-2 Finished com-soa";

/// The message of a word.
fn message_at<R: Abort>(rt: &R, alloc: Global, word: &str) -> MessageBuf {
    let octets = octets_at(rt, alloc, MESSAGES, word);
    MessageBuf::from_octets(octets).expect(rt, "a header")
}

/// The updates that messages say one after another: each kind, and the digits of its record, with a space after either.
fn said<R: Abort>(rt: &R, alloc: Global, words: &str) -> String {
    let mut text = String::new(alloc);
    let mut interpreter = XfrResponseInterpreter::new();
    for word in words.split_ascii_whitespace() {
        let message = message_at(rt, alloc, word);
        let mut updates = interpreter
            .interpret_response(&message)
            .expect(rt, "a reply");
        push_updates(rt, alloc, &mut text, &mut updates);
        drop(updates);
        drop(message);
    }
    is(rt, interpreter.is_finished(), true);
    drop(interpreter);
    text
}

/// Appends the updates that are left of a message.
fn push_updates<R: Abort>(
    rt: &R,
    alloc: Global,
    text: &mut String,
    updates: &mut XfrZoneUpdateIterator<'_>,
) {
    for _ in 0..16_u8 {
        let Some(update) = updates.next_update() else {
            return;
        };
        let update = update.expect(rt, "an update");
        push_update(rt, alloc, text, update);
    }
}

/// Appends one update.
fn push_update<R: Abort>(
    rt: &R,
    alloc: Global,
    text: &mut String,
    update: ZoneUpdate<ReadRecord<'_>>,
) {
    let kind = format!(in alloc; "{update} ").expect(rt, "memory");
    text.push_str(kind.as_str()).expect(rt, "memory");
    drop(kind);
    let mut octets = Vec::new(alloc);
    if let Some(found) = record_in(&update) {
        found.compose_record(&mut octets).expect(rt, "memory");
        let digits = digits_of(rt, alloc, octets.as_slice());
        push_word(rt, text, digits.as_str());
        drop(digits);
    }
    drop(octets);
    drop(update);
}

/// The record of an update that has one.
fn record_in<'u, 'm>(update: &'u ZoneUpdate<ReadRecord<'m>>) -> Option<&'u ReadRecord<'m>> {
    match update {
        ZoneUpdate::DeleteAllRecords => None,
        ZoneUpdate::DeleteRecord(found) => Some(found),
        ZoneUpdate::AddRecord(found) => Some(found),
        ZoneUpdate::BeginBatchDelete(found) => Some(found),
        ZoneUpdate::BeginBatchAdd(found) => Some(found),
        ZoneUpdate::Finished(found) => Some(found),
    }
}

/// Appends a word and a space.
fn push_word<R: Abort>(rt: &R, text: &mut String, word: &str) {
    text.push_str(word).expect(rt, "memory");
    text.push_str(" ").expect(rt, "memory");
}

/// The same text of updates that a line names.
fn named<R: Abort>(rt: &R, alloc: Global, words: &str) -> String {
    let mut text = String::new(alloc);
    for word in words.split_ascii_whitespace() {
        match digits_at(RECORDS, word) {
            Some(digits) => push_word(rt, &mut text, digits),
            None => push_word(rt, &mut text, word),
        }
    }
    text
}

#[test]
fn replies_say_their_updates(rt: HostRuntime) {
    let alloc = rt.alloc();
    for line in SAID.split('\n') {
        let (messages, updates) = line.split_once(';').expect(&rt, "messages");
        let found = said(&rt, alloc, messages);
        let wanted = named(&rt, alloc, updates);
        is(&rt, found.as_str(), wanted.as_str());
        drop(wanted);
        drop(found);
    }
}

// A first message of one SOA in answer to IXFR asks for another way of transfer (RFC 1995, 2 and 4).
#[test]
fn one_soa_asks_again(rt: HostRuntime) {
    let message = message_at(&rt, rt.alloc(), "lone");
    let mut interpreter = XfrResponseInterpreter::new();
    let mut updates = interpreter
        .interpret_response(&message)
        .expect(&rt, "a reply");
    let error = match updates.next_update() {
        Some(Err(error)) => Some(error),
        _ => None,
    };
    drop(updates);
    is(
        &rt,
        error,
        Some(IterationError::SingleSoaIxfrTcpRetrySignal),
    );
    is(&rt, interpreter.is_finished(), true);
    is(&rt, interpreter.initial_serial(), Some(Serial::from(3)));
    drop(interpreter);
    drop(message);
}

/// Applies the updates of a message, the end too where it is wanted.
fn apply_message<R: Abort + Wait>(
    rt: &R,
    updater: &mut ZoneUpdater<'_, '_>,
    updates: &mut XfrZoneUpdateIterator<'_>,
    with_end: bool,
) {
    for _ in 0..16_u8 {
        let Some(update) = updates.next_update() else {
            return;
        };
        let update = update.expect(rt, "an update");
        if !with_end && matches!(&update, ZoneUpdate::Finished(_)) {
            drop(update);
            return;
        }
        let told = updater.apply(rt, update).expect(rt, "a fit");
        drop(told);
    }
}

/// Applies the messages of a reply to a session, by an interpreter and an updater of their own.
fn apply_reply<R: Abort + Wait>(
    rt: &R,
    alloc: Global,
    session: &mut WriteZone<'_>,
    words: &str,
    with_end: bool,
) {
    let mut interpreter = XfrResponseInterpreter::new();
    let mut updater = ZoneUpdater::new(alloc, session);
    for word in words.split_ascii_whitespace() {
        let message = message_at(rt, alloc, word);
        let mut updates = interpreter
            .interpret_response(&message)
            .expect(rt, "a reply");
        apply_message(rt, &mut updater, &mut updates, with_end);
        drop(updates);
        drop(message);
    }
    is(rt, updater.is_finished(), with_end);
    updater.into_session();
    drop(interpreter);
}

/// Asserts the version that a reply makes of the first one of RFC 1995, 7: its number, and its walk.
fn makes<R: Abort + Wait>(rt: &R, alloc: Global, words: &str, number: u64, walk: &str) {
    let mut zone = zone_at(rt, alloc, JAIN);
    let mut session = zone.write(alloc);
    let first = format!(in alloc; "{FIRST}\nFinished soa-1 Ok(None)").expect(rt, "memory");
    applies_anew(rt, alloc, &mut session, first.as_str());
    drop(first);
    apply_reply(rt, alloc, &mut session, words, true);
    let version = session.handle().expect(rt, "memory");
    is(rt, version.version_number(), number);
    walks(rt, alloc, &version, walk);
    drop(version);
    drop(session);
    zone.close(rt);
}

// The first version is published once more where a batch begins; equal SOAs leave all but the SOA.
#[test]
fn replies_make_their_versions(rt: HostRuntime) {
    let alloc = rt.alloc();
    makes(&rt, alloc, "steps", 4, "ns soa-3 bb-2 bb-3 ns-a");
    let three = "first second third";
    makes(&rt, alloc, three, 4, "ns soa-3 bb-2 bb-3 ns-a");
    makes(&rt, alloc, "condensed", 3, "ns soa-3 bb-3 bb-2 ns-a");
    makes(&rt, alloc, "whole", 2, "ns soa-3 bb-2 bb-3 ns-a");
    makes(&rt, alloc, "equal", 2, "ns soa-3 nezu-5 ns-a");
}

#[test]
fn axfr_response_generates_expected_events(rt: HostRuntime) {
    let alloc = rt.alloc();
    let mut zone = zone_at(&rt, alloc, COM);
    let mut session = zone.write(alloc);
    apply_reply(&rt, alloc, &mut session, "events", true);
    drop(session);
    let version = zone.read(&rt).expect(&rt, "memory");
    walks(&rt, alloc, &version, "com-1 com-2 com-soa");
    drop(version);
    zone.close(&rt);
}

// What is pending without an end goes with the updater: a commit behind it publishes nothing of it.
#[test]
fn check_rollback(rt: HostRuntime) {
    let alloc = rt.alloc();
    let mut zone = zone_at(&rt, alloc, COM);
    let mut session = zone.write(alloc);
    apply_reply(&rt, alloc, &mut session, "events", false);
    drop(session.commit(&rt, false).expect(&rt, "a version"));
    drop(session);
    let version = zone.read(&rt).expect(&rt, "memory");
    walks(&rt, alloc, &version, "");
    drop(version);
    zone.close(&rt);
}
