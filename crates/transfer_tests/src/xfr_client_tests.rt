//! Messages built octet by octet, read and applied (RFC 5936, 2.2).

use crate::common::{assert_texts, empty_zone, is, octets_of};
use dns_numbers::Rtype;
use dns_rdata::ReadRecord;
use dns_wire::MessageBuf;
use std::alloc::Global;
use std::process::Abort;
use std::sync::Wait;
use xfr_client::protocol::{Error, IterationError};
use xfr_client::{XfrResponseInterpreter, XfrZoneUpdateIterator, ZoneUpdate, ZoneUpdater, update};
use zone_store::ReadZone;

/// `example.` in class IN, asked for as a whole.
const QUESTION: &str = "076578616d706c650000fc0001";

/// The apex SOA of serial 1, both names the root.
const SOA: &str = "c00c0006000100000e10001600000000000100000000000000000000000000000000";

/// The address 192.0.2.1 of the apex.
const ADDRESS: &str = "c00c0001000100000e100004c0000201";

/// A reply with these flags, and this count of answer records, all as digits.
fn reply<R: Abort>(rt: &R, alloc: Global, flags: &str, count: &str, records: &str) -> MessageBuf {
    let digits = format!(in alloc; "0001{flags}0001{count}00000000{QUESTION}{records}");
    let digits = digits.expect(rt, "memory");
    let octets = octets_of(rt, alloc, digits.as_str());
    drop(digits);
    MessageBuf::from_octets(octets).expect(rt, "a header")
}

/// Why a message isn't taken.
fn refusal(message: &MessageBuf) -> Option<Error> {
    let mut interpreter = XfrResponseInterpreter::default();
    interpreter.interpret_response(message).err()
}

/// Applies a message's updates, and tells whether the last of them committed.
fn apply_all<R: Abort + Wait>(
    rt: &R,
    updater: &mut ZoneUpdater<'_, '_>,
    updates: &mut XfrZoneUpdateIterator<'_>,
) -> bool {
    let mut committed = false;
    for _ in 0..8u8 {
        let Some(update) = updates.next_update() else {
            return committed;
        };
        let update = update.expect(rt, "an update");
        committed = update.commits();
        let told = updater.apply(rt, update).expect(rt, "a fit");
        drop(told);
    }
    false
}

/// The zone that a whole transfer in one message makes.
fn transferred<R: Abort + Wait>(rt: &R, alloc: Global, message: &MessageBuf) -> ReadZone {
    let mut zone = empty_zone(rt, alloc);
    let mut session = zone.write(alloc);
    let mut updater = ZoneUpdater::new(alloc, &mut session);
    let mut interpreter = XfrResponseInterpreter::new();
    let mut updates = interpreter
        .interpret_response(message)
        .expect(rt, "a reply");
    let committed = apply_all(rt, &mut updater, &mut updates);
    drop(updates);
    assert!(rt; committed);
    let finished = interpreter.is_finished();
    assert!(rt; finished);
    drop(interpreter);
    let version = updater.handle().expect(rt, "memory");
    updater.into_session();
    drop(session);
    zone.close(rt);
    version
}

/// How many data the set of a type has that stands first.
fn first_data(zone: &ReadZone, rtype: Rtype) -> usize {
    let Some(stop) = zone.first_rrset() else {
        return 0;
    };
    if stop.rtype() == rtype {
        stop.items().len()
    } else {
        0
    }
}

#[test]
fn equal_data_are_passed_over(rt: HostRuntime) {
    let alloc = rt.alloc();
    let records = format!(in alloc; "{SOA}{ADDRESS}{ADDRESS}{SOA}").expect(&rt, "memory");
    let message = reply(&rt, alloc, "8400", "0004", records.as_str());
    let zone = transferred(&rt, alloc, &message);
    let number = zone.version_number();
    let count = first_data(&zone, Rtype::A);
    is(&rt, number, 1);
    is(&rt, count, 1);
    drop(zone);
    drop(message);
    drop(records);
}

/// The error of the next update.
fn next_error(updates: &mut XfrZoneUpdateIterator<'_>) -> Option<IterationError> {
    let update = updates.next_update();
    let error = error_in(&update);
    drop(update);
    error
}

/// The error that stands in the place of an update.
fn error_in(
    update: &Option<Result<ZoneUpdate<ReadRecord<'_>>, IterationError>>,
) -> Option<IterationError> {
    match update {
        Some(Err(error)) => Some(*error),
        _ => None,
    }
}

#[test]
fn a_record_behind_the_end_is_refused(rt: HostRuntime) {
    let alloc = rt.alloc();
    let records = format!(in alloc; "{SOA}{SOA}{ADDRESS}").expect(&rt, "memory");
    let message = reply(&rt, alloc, "8400", "0003", records.as_str());
    let mut interpreter = XfrResponseInterpreter::new();
    let mut updates = interpreter
        .interpret_response(&message)
        .expect(&rt, "a reply");
    drop(updates.next_update());
    drop(updates.next_update());
    let error = next_error(&mut updates);
    is(&rt, error, Some(IterationError::AlreadyFinished));
    drop(updates);
    drop(interpreter);
    drop(message);
    drop(records);
}

/// Asserts that a reply isn't one of a transfer.
fn is_no_transfer<R: Abort>(rt: &R, alloc: Global, flags: &str, count: &str, records: &str) {
    let message = reply(rt, alloc, flags, count, records);
    let error = refusal(&message);
    is(rt, error, Some(Error::NotValidXfrResponse));
    drop(message);
}

#[test]
fn a_first_record_that_is_no_soa_is_refused(rt: HostRuntime) {
    let alloc = rt.alloc();
    let records = format!(in alloc; "{ADDRESS}{SOA}").expect(&rt, "memory");
    is_no_transfer(&rt, alloc, "8400", "0002", records.as_str());
    drop(records);
}

#[test]
fn refusals_and_cut_messages_are_no_transfer(rt: HostRuntime) {
    is_no_transfer(&rt, rt.alloc(), "8405", "0001", SOA);
    is_no_transfer(&rt, rt.alloc(), "8600", "0001", SOA);
}

#[test]
fn what_errors_print(rt: HostRuntime) {
    let messages = [
        Error::ParseError,
        Error::NotValidXfrResponse,
        Error::Malformed,
        Error::Finished,
    ];
    let texts = "\
XFR response parsing error: unexpected end or malformed item
Not a valid XFR response
Malformed XFR response
XFR already finished
";
    assert_texts(&rt, rt.alloc(), &messages, texts);
    let records = [
        IterationError::ParseError,
        IterationError::AlreadyFinished,
        IterationError::SingleSoaIxfrTcpRetrySignal,
        IterationError::MissingInitialSoa,
    ];
    let texts = "\
a record can't be parsed
a record stands behind the end of the transfer
a single SOA asks for another way of transfer
the initial SOA is missing
";
    assert_texts(&rt, rt.alloc(), &records, texts);
    let updates = [
        update::Error::OutOfZone,
        update::Error::NotSoaRecord,
        update::Error::IncompatibleUpdate,
        update::Error::InvalidData,
        update::Error::VersionsExhausted,
        update::Error::Finished,
        update::Error::Memory,
    ];
    let texts = "\
OutOfZone
NotSoaRecord
IncompatibleUpdate
InvalidData
VersionsExhausted
Finished
Memory
";
    assert_texts(&rt, rt.alloc(), &updates, texts);
}
