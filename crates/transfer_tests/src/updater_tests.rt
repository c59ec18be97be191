//! Updates applied one by one: the example of RFC 1995, 7, and tests that the crate `domain` has under the same names.

use crate::common::{append_set, digits_of, is, octets_of, stored_name};
use crate::transfer_vectors::{RECORDS, octets_at};
use dns_name::StoredName;
use dns_numbers::{Class, Rtype};
use dns_rdata::{ReadRecord, RecordData, StoredRecord, record_from_octets};
use std::alloc::Global;
use std::process::Abort;
use std::sync::Wait;
use xfr_client::{ZoneUpdate, ZoneUpdater, update};
use zone_store::{EditError, ReadZone, WriteZone, ZoneApex, look_up};
use zone_types::{InMemoryZoneDiff, Rrset, ZoneDiff};

/// `jain.ad.jp.`
pub(crate) const JAIN: &str = "046a61696e026164026a7000";

/// `example.com.`
pub(crate) const COM: &str = "076578616d706c6503636f6d00";

/// `example.`
const EXAMPLE: &str = "076578616d706c6500";

/// The first version of RFC 1995, 7: in each line an update, its record, and what it answers.
pub(crate) const FIRST: &str = "\
AddRecord soa-1 Ok(None)
AddRecord ns Ok(None)
AddRecord ns-a Ok(None)
AddRecord nezu-5 Ok(None)";

/// What leads to the second version, up to its commit.
const SECOND: &str = "\
DeleteRecord nezu-5 Ok(None)
BeginBatchAdd soa-2 Ok(None)
AddRecord bb-4 Ok(None)
AddRecord bb-2 Ok(None)";

/// What leads to the third version, up to its commit.
const THIRD: &str = "\
DeleteRecord bb-4 Ok(None)
BeginBatchAdd soa-3 Ok(None)
AddRecord bb-3 Ok(None)";

/// The zone of this apex in class IN without records.
pub(crate) fn zone_at<R: Abort>(rt: &R, alloc: Global, apex: &str) -> ZoneApex {
    let apex = name_of(rt, alloc, apex);
    ZoneApex::new(alloc, apex, Class::IN).expect(rt, "memory")
}

/// The name that digits spell.
fn name_of<R: Abort>(rt: &R, alloc: Global, digits: &str) -> StoredName {
    let octets = octets_of(rt, alloc, digits);
    let name = stored_name(rt, alloc, octets.as_slice());
    drop(octets);
    name
}

/// The kinds of updates that lines name.
#[derive(Clone, Copy)]
enum Kind {
    AddRecord,
    DeleteRecord,
    BeginBatchDelete,
    BeginBatchAdd,
    Finished,
}

/// The kind that `ZoneUpdate` prints so.
fn kind_of(kind: &str) -> Option<Kind> {
    if kind == "AddRecord" {
        return Some(Kind::AddRecord);
    }
    if kind == "DeleteRecord" {
        return Some(Kind::DeleteRecord);
    }
    if kind == "BeginBatchDelete" {
        return Some(Kind::BeginBatchDelete);
    }
    if kind == "BeginBatchAdd" {
        return Some(Kind::BeginBatchAdd);
    }
    if kind == "Finished" {
        return Some(Kind::Finished);
    }
    None
}

/// An update of a kind.
fn update_of<T>(kind: Kind, record: T) -> ZoneUpdate<T> {
    match kind {
        Kind::AddRecord => ZoneUpdate::AddRecord(record),
        Kind::DeleteRecord => ZoneUpdate::DeleteRecord(record),
        Kind::BeginBatchDelete => ZoneUpdate::BeginBatchDelete(record),
        Kind::BeginBatchAdd => ZoneUpdate::BeginBatchAdd(record),
        Kind::Finished => ZoneUpdate::Finished(record),
    }
}

/// What an update tells: the serials of its difference, and how many sets are removed and added.
type Told = Option<(u32, u32, usize, usize)>;

/// Counts the sets of a difference.
fn counted(told: Option<InMemoryZoneDiff>) -> Told {
    let told = told?;
    let counted = (
        told.start_serial().into_int(),
        told.end_serial().into_int(),
        told.removed_len(),
        told.added_len(),
    );
    drop(told);
    Some(counted)
}

/// The record of octets, read.
fn read_of<'m, R: Abort>(rt: &R, octets: &'m [u8]) -> ReadRecord<'m> {
    record_from_octets(octets).expect(rt, "a record")
}

/// Applies an update, its record by octets.
fn apply_octets<R: Abort + Wait>(
    rt: &R,
    updater: &mut ZoneUpdater<'_, '_>,
    kind: Kind,
    octets: &[u8],
) -> Result<Option<InMemoryZoneDiff>, update::Error> {
    let update = update_of(kind, read_of(rt, octets));
    updater.apply(rt, update)
}

/// Applies an update, its record by a word.
fn apply<R: Abort + Wait>(
    rt: &R,
    alloc: Global,
    updater: &mut ZoneUpdater<'_, '_>,
    kind: &str,
    word: &str,
) -> Result<Told, update::Error> {
    let kind = kind_of(kind).expect(rt, "a kind of update");
    let octets = octets_at(rt, alloc, RECORDS, word);
    let told = apply_octets(rt, updater, kind, octets.as_slice());
    drop(octets);
    match told {
        Ok(told) => Ok(counted(told)),
        Err(error) => Err(error),
    }
}

/// Applies the updates of lines, and asserts what each answers.
fn applies<R: Abort + Wait>(rt: &R, alloc: Global, updater: &mut ZoneUpdater<'_, '_>, lines: &str) {
    for line in lines.split('\n') {
        let (kind, row) = line.split_once(' ').expect(rt, "an update");
        let (word, wanted) = row.split_once(' ').expect(rt, "a record");
        let told = apply(rt, alloc, updater, kind, word);
        is_told(rt, alloc, told, wanted);
    }
}

/// Asserts what an update answers.
fn is_told<R: Abort>(rt: &R, alloc: Global, told: Result<Told, update::Error>, wanted: &str) {
    let told = format!(in alloc; "{told:?}").expect(rt, "memory");
    is(rt, told.as_str(), wanted);
    drop(told);
}

/// Applies the updates of lines by an updater of its own, behind which nothing is pending.
pub(crate) fn applies_anew<R: Abort + Wait>(
    rt: &R,
    alloc: Global,
    session: &mut WriteZone<'_>,
    lines: &str,
) {
    let mut updater = ZoneUpdater::new(alloc, session);
    applies(rt, alloc, &mut updater, lines);
    updater.into_session();
}

/// Asserts that the walk of a version is the records of words.
pub(crate) fn walks<R: Abort>(rt: &R, alloc: Global, zone: &ReadZone, words: &str) {
    let mut found = Vec::new(alloc);
    for stop in zone.iter_rrsets() {
        append_set(rt, &mut found, zone.class(), &stop);
    }
    let mut wanted = Vec::new(alloc);
    for word in words.split_ascii_whitespace() {
        let octets = octets_at(rt, alloc, RECORDS, word);
        let appended = wanted.extend_from_slice(octets.as_slice());
        drop(octets);
        appended.expect(rt, "memory");
    }
    is(rt, found.as_slice(), wanted.as_slice());
    drop(wanted);
    drop(found);
}

/// The same of the version that an updater committed last.
fn updater_walks<R: Abort>(rt: &R, alloc: Global, updater: &mut ZoneUpdater<'_, '_>, words: &str) {
    let version = updater.handle().expect(rt, "memory");
    walks(rt, alloc, &version, words);
    drop(version);
}

// Each batch begins with a commit, the first of the version so far, of which no difference is told; the walk has four sets.
#[test]
fn rfc_1995_by_the_updater(rt: HostRuntime) {
    let alloc = rt.alloc();
    let mut zone = zone_at(&rt, alloc, JAIN);
    let mut session = zone.write(alloc);
    let mut updater = ZoneUpdater::new(alloc, &mut session);
    applies(&rt, alloc, &mut updater, FIRST);
    let begins = "BeginBatchDelete soa-1 Ok(None)";
    applies(&rt, alloc, &mut updater, begins);
    updater_walks(&rt, alloc, &mut updater, "ns soa-1 nezu-5 ns-a");
    applies(&rt, alloc, &mut updater, SECOND);
    let begins = "BeginBatchDelete soa-2 Ok(Some((1, 2, 2, 2)))";
    applies(&rt, alloc, &mut updater, begins);
    updater_walks(&rt, alloc, &mut updater, "ns soa-2 bb-4 bb-2 ns-a");
    applies(&rt, alloc, &mut updater, THIRD);
    let ends = "\
Finished soa-3 Ok(Some((2, 3, 2, 2)))
AddRecord nezu-5 Err(Finished)";
    applies(&rt, alloc, &mut updater, ends);
    updater_walks(&rt, alloc, &mut updater, "ns soa-3 bb-2 bb-3 ns-a");
    is(&rt, updater.is_finished(), true);
    updater.into_session();
    drop(session);
    is(&rt, zone.versions(), 3);
    zone.close(&rt);
}

/// Applies an update, its record by a word and stored.
fn apply_stored<R: Abort + Wait>(
    rt: &R,
    alloc: Global,
    updater: &mut ZoneUpdater<'_, '_>,
    kind: &str,
    word: &str,
) -> Result<Told, update::Error> {
    let kind = kind_of(kind).expect(rt, "a kind of update");
    let update = update_of(kind, stored_at(rt, alloc, word));
    match updater.apply(rt, update) {
        Ok(told) => Ok(counted(told)),
        Err(error) => Err(error),
    }
}

/// Applies the updates of lines, each of a record that is stored, and asserts what each answers.
fn applies_stored<R: Abort + Wait>(
    rt: &R,
    alloc: Global,
    updater: &mut ZoneUpdater<'_, '_>,
    lines: &str,
) {
    for line in lines.split('\n') {
        let (kind, row) = line.split_once(' ').expect(rt, "an update");
        let (word, wanted) = row.split_once(' ').expect(rt, "a record");
        let told = apply_stored(rt, alloc, updater, kind, word);
        is_told(rt, alloc, told, wanted);
    }
}

// The first two versions again, by stored records, with one of another type in an SOA's place.
#[test]
fn rfc_1995_by_stored_records(rt: HostRuntime) {
    let alloc = rt.alloc();
    let mut zone = zone_at(&rt, alloc, JAIN);
    let mut session = zone.write(alloc);
    let mut updater = ZoneUpdater::new(alloc, &mut session);
    applies_stored(&rt, alloc, &mut updater, FIRST);
    let begins = "BeginBatchDelete soa-1 Ok(None)";
    applies_stored(&rt, alloc, &mut updater, begins);
    updater_walks(&rt, alloc, &mut updater, "ns soa-1 nezu-5 ns-a");
    applies_stored(&rt, alloc, &mut updater, SECOND);
    let ends = "\
BeginBatchAdd ns Err(NotSoaRecord)
Finished soa-2 Ok(Some((1, 2, 2, 2)))
AddRecord nezu-5 Err(Finished)";
    applies_stored(&rt, alloc, &mut updater, ends);
    updater_walks(&rt, alloc, &mut updater, "ns soa-2 bb-4 bb-2 ns-a");
    updater.into_session();
    drop(session);
    is(&rt, zone.versions(), 2);
    zone.close(&rt);
}

/// What a version answers to a question about a name, by digits: the rcode, and the data of the set that was found, of a cut's servers and of
/// its DS, each datum with a space before it.
fn answered<R: Abort>(rt: &R, alloc: Global, zone: &ReadZone, qname: &str, qtype: Rtype) -> String {
    let qname = name_of(rt, alloc, qname);
    let answer = look_up(zone, &qname, qtype)
        .ok()
        .expect(rt, "a name of the zone");
    let mut text = format!(in alloc; "{}", answer.rcode().to_int()).expect(rt, "memory");
    push_data(rt, alloc, &mut text, answer.found());
    push_data(rt, alloc, &mut text, answer.servers());
    push_data(rt, alloc, &mut text, answer.signer());
    drop(answer);
    drop(qname);
    text
}

/// Appends the data of a set.
fn push_data<R: Abort>(rt: &R, alloc: Global, text: &mut String, set: Option<&Rrset>) {
    let Some(set) = set else {
        return;
    };
    for item in set.data() {
        let mut octets = Vec::new(alloc);
        item.compose_rdata(&mut octets).expect(rt, "memory");
        let digits = digits_of(rt, alloc, octets.as_slice());
        text.push_str(" ").expect(rt, "memory");
        text.push_str(digits.as_str()).expect(rt, "memory");
        drop(digits);
        drop(octets);
    }
}

/// Asserts what the version that a session committed last answers to a question.
fn answers<R: Abort + Wait>(
    rt: &R,
    alloc: Global,
    session: &mut WriteZone<'_>,
    qname: &str,
    qtype: Rtype,
    wanted: &str,
) {
    let version = session.handle().expect(rt, "memory");
    let text = answered(rt, alloc, &version, qname, qtype);
    is(rt, text.as_str(), wanted);
    drop(text);
    drop(version);
}

/// The data of the SOA of `example.com.` with the serial 1.
const COM_SOA: &str = "0 056d6e616d650005726e616d65000000000100000000000000000000000000000000";

#[test]
fn write_soa_read_soa(rt: HostRuntime) {
    let alloc = rt.alloc();
    let mut zone = zone_at(&rt, alloc, COM);
    let mut session = zone.write(alloc);
    let updates = "AddRecord com-soa Ok(None)\nFinished com-soa Ok(None)";
    applies_anew(&rt, alloc, &mut session, updates);
    answers(&rt, alloc, &mut session, COM, Rtype::SOA, COM_SOA);
    drop(session);
    zone.close(&rt);
}

// The second updater's end puts its SOA in the place of both, and tells the difference that the session was asked for.
#[test]
fn diff_check(rt: HostRuntime) {
    let alloc = rt.alloc();
    let mut zone = zone_at(&rt, alloc, COM);
    let mut session = zone.write(alloc);
    let mut updater = ZoneUpdater::new(alloc, &mut session);
    let updates = "AddRecord com-soa-22 Ok(None)\nFinished com-soa-22 Ok(None)";
    applies(&rt, alloc, &mut updater, updates);
    is(&rt, updater.is_finished(), true);
    let updates = "AddRecord com-soa-22 Err(Finished)";
    applies(&rt, alloc, &mut updater, updates);
    updater.into_session();
    session.want_difference(true);
    let updates = "\
AddRecord com-soa-23 Ok(None)
Finished com-soa-23 Ok(Some((20240922, 20240923, 1, 1)))";
    applies_anew(&rt, alloc, &mut session, updates);
    drop(session);
    zone.close(&rt);
}

#[test]
fn ixfr_delete_non_existing_record(rt: HostRuntime) {
    let alloc = rt.alloc();
    let mut zone = zone_at(&rt, alloc, COM);
    let mut session = zone.write(alloc);
    let updates =
        "DeleteRecord com-soa Err(IncompatibleUpdate)\nDeleteRecord com-soa Err(Finished)";
    applies_anew(&rt, alloc, &mut session, updates);
    drop(session);
    zone.close(&rt);
}

#[test]
fn ixfr_add_existing_record(rt: HostRuntime) {
    let alloc = rt.alloc();
    let mut zone = zone_at(&rt, alloc, COM);
    let mut session = zone.write(alloc);
    let updates = "\
AddRecord com-soa Ok(None)
AddRecord com-soa Err(IncompatibleUpdate)
AddRecord com-soa Err(Finished)";
    applies_anew(&rt, alloc, &mut session, updates);
    drop(session);
    zone.close(&rt);
}

/// The record of a word.
fn stored_at<R: Abort>(rt: &R, alloc: Global, word: &str) -> StoredRecord {
    let octets = octets_at(rt, alloc, RECORDS, word);
    let record = stored_of(rt, alloc, octets.as_slice());
    drop(octets);
    record
}

/// The record of octets.
fn stored_of<R: Abort>(rt: &R, alloc: Global, octets: &[u8]) -> StoredRecord {
    let found = read_of(rt, octets);
    let record = flat(rt, alloc, &found);
    drop(found);
    record
}

/// A record that was read, stored.
fn flat<R: Abort>(rt: &R, alloc: Global, found: &ReadRecord<'_>) -> StoredRecord {
    found.flatten(alloc).expect(rt, "memory")
}

/// Adds the record of a word by the session.
fn add<R: Abort>(rt: &R, alloc: Global, session: &mut WriteZone<'_>, word: &str) {
    let told = session.add_record(stored_at(rt, alloc, word));
    told.expect(rt, "a new record");
}

/// Adds the records of words by the session.
fn adds<R: Abort>(rt: &R, alloc: Global, session: &mut WriteZone<'_>, words: &str) {
    for word in words.split_ascii_whitespace() {
        add(rt, alloc, session, word);
    }
}

/// Deletes the record of a word by the session.
fn delete<R: Abort>(
    rt: &R,
    alloc: Global,
    session: &mut WriteZone<'_>,
    word: &str,
) -> Result<(), EditError> {
    let deleted = stored_at(rt, alloc, word);
    let told = session.delete_record(&deleted);
    drop(deleted);
    told
}

/// Deletes the records of words by the session, and asserts what each answers.
fn deletes<R: Abort>(
    rt: &R,
    alloc: Global,
    session: &mut WriteZone<'_>,
    words: &str,
    wanted: Result<(), EditError>,
) {
    for word in words.split_ascii_whitespace() {
        is(rt, delete(rt, alloc, session, word), wanted);
    }
}

/// The zone `example.` with five cuts and two aliases.
const SPECIAL: &str =
    "soa ns-1 ns-2 ns-ds ns2-1 ns2-2 ns2-ds ns3-1 ns3-2 ns3-ds ns4-1 ns4-2 ns4-ds ns5-1 ns5-2 ns5-ds cname cname2";

/// What is asked of it after the edits: in each line a label before `example.`, and the answer to a question for an address there. The data are
/// `ns1.example.`, `ns2.example.`, `target.example.`, and DS.
const SPECIAL_ANSWERS: &str = "\
026e73 0 036e7331076578616d706c6500 036e7332076578616d706c6500 001008011616161616161616161616161616161616161616
05636e616d65 0 06746172676574076578616d706c6500
036e7332 3
06636e616d6532 3
036e7333 0 036e7332076578616d706c6500 001008011616161616161616161616161616161616161616
036e7334 0 036e7331076578616d706c6500 036e7332076578616d706c6500
036e7335 0 036e7331076578616d706c6500 036e7332076578616d706c6500 006308019999999999999999999999999999999999999999";

#[test]
fn clear_special_on_delete(rt: HostRuntime) {
    let alloc = rt.alloc();
    let mut zone = zone_at(&rt, alloc, EXAMPLE);
    let mut session = zone.write(alloc);
    adds(&rt, alloc, &mut session, SPECIAL);
    drop(session.commit(&rt, false).expect(&rt, "a version"));
    let misfits = Err(EditError::Incompatible);
    deletes(&rt, alloc, &mut session, "cut-a alias-a", misfits);
    let edits = "ns2-1 ns2-2 cname2 ns3-1 ns4-ds ns5-ds";
    deletes(&rt, alloc, &mut session, edits, Ok(()));
    adds(&rt, alloc, &mut session, "ns5-ds-99");
    applies_anew(&rt, alloc, &mut session, "Finished soa Ok(None)");
    for line in SPECIAL_ANSWERS.split('\n') {
        let (label, wanted) = line.split_once(' ').expect(&rt, "a label");
        let qname = format!(in alloc; "{label}{EXAMPLE}").expect(&rt, "memory");
        answers(&rt, alloc, &mut session, qname.as_str(), Rtype::A, wanted);
        drop(qname);
    }
    drop(session);
    zone.close(&rt);
}
