//! What tests of transfers over a link in memory share: zones of records that words name, a primary with a history, and the transfer.
ghost use Rattle.std.specs.Prelude.{◌≡◌};

use crate::common::{append_set, line_of, octets_of};
use crate::incremental_vectors::RECORDS;
use dns_name::NameRef;
use dns_numbers::Class;
use dns_rdata::{StoredRecord, record_from_octets};
use std::alloc::Global;
use std::process::Abort;
use std::str::SplitAsciiWhitespace;
use std::sync::Wait;
use tsig_port::{Key, Time48};
use xfr_server::{
    HistoryProvider, PrimaryStack, RefuseSvc, TsigMiddlewareSvc, XfrMiddlewareSvc,
    commits_may_be_pushed,
};
use zone_store::{ReadZone, WriteZone, ZoneApex, ZoneBuilder};
use zone_sync::{MemoryLink, Moments, SyncError, SyncOk, XfrMode, sync_zone};

/// `jain.ad.jp.`, the zone of RFC 1995, 7, and `example.`
const APEXES: [&str; 2] = ["046a61696e026164026a7000", "076578616d706c6500"];

/// The services of a primary whose provider has the zone's history.
pub(crate) type Primary = PrimaryStack<RefuseSvc, HistoryProvider, Key>;

/// The moment of all requests and replies.
pub(crate) fn at() -> Time48 {
    Time48::from_u64(1000)
}

/// The octets of a word's record.
pub(crate) fn octets_at<R: Abort>(rt: &R, alloc: Global, word: &str) -> Vec<u8> {
    let digits = line_of(RECORDS, word).expect(rt, "a word of the records");
    octets_of(rt, alloc, digits)
}

/// The record of a word.
pub(crate) fn stored_at<R: Abort>(rt: &R, alloc: Global, word: &str) -> StoredRecord {
    let octets = octets_at(rt, alloc, word);
    let found = record_from_octets(octets.as_slice()).expect(rt, "a record");
    let record = found.flatten(alloc).expect(rt, "memory");
    drop(octets);
    record
}

/// A zone that opens with the records of words, as the version of this number; it is `jain.ad.jp.` where the first word says so, else
/// `example.`
pub(crate) fn zone_of<R: Abort>(rt: &R, alloc: Global, words: &str, number: u64) -> ZoneApex {
    let [jain, example] = APEXES;
    let apex = if words.starts_with("jain") {
        jain
    } else {
        example
    };
    let octets = octets_of(rt, alloc, apex);
    let name = NameRef::from_octets(octets.as_slice()).expect(rt, "a name");
    let apex = name.store(alloc).expect(rt, "memory");
    drop(octets);
    let mut builder = ZoneBuilder::new(alloc, apex, Class::IN);
    for word in words.split_ascii_whitespace() {
        builder
            .insert(stored_at(rt, alloc, word))
            .expect(rt, "a record of the zone");
    }
    builder.build_at(number).expect(rt, "memory")
}

/// Deletes the record of a word from the pending version.
fn delete<R: Abort>(rt: &R, alloc: Global, session: &mut WriteZone<'_>, word: &str)
    ensures { session.new.current ≡ session.old.current }
{
    let deleted = stored_at(rt, alloc, word);
    let done = session.delete_record(&deleted);
    drop(deleted);
    done.expect(rt, "a record of the zone");
}

/// Adds the record of a word to the pending version.
fn add<R: Abort>(rt: &R, alloc: Global, session: &mut WriteZone<'_>, word: &str)
    ensures { session.new.current ≡ session.old.current }
{
    let added = stored_at(rt, alloc, word);
    session.add_record(added).expect(rt, "a new record");
}

/// Edits the pending version: `-` and a word delete the record, `+` and a word add it.
pub(crate) fn edit<R: Abort>(rt: &R, alloc: Global, session: &mut WriteZone<'_>, edit: &str)
    ensures { session.new.current ≡ session.old.current }
{
    match edit.strip_prefix("-") {
        Some(word) => delete(rt, alloc, session, word),
        None => {
            let word = edit.strip_prefix("+").expect(rt, "an edit");
            add(rt, alloc, session, word);
        }
    }
}

/// Makes the next edit, where one is left.
fn next_edit<R: Abort>(
    rt: &R,
    alloc: Global,
    session: &mut WriteZone<'_>,
    words: &mut SplitAsciiWhitespace<'_>,
)
    ensures { session.new.current ≡ session.old.current }
{
    if let Some(word) = words.next() {
        edit(rt, alloc, session, word);
    }
}

/// Makes the next four edits, or as many as are left.
fn four_edits<R: Abort>(
    rt: &R,
    alloc: Global,
    session: &mut WriteZone<'_>,
    words: &mut SplitAsciiWhitespace<'_>,
)
    ensures { session.new.current ≡ session.old.current }
{
    next_edit(rt, alloc, session, words);
    next_edit(rt, alloc, session, words);
    next_edit(rt, alloc, session, words);
    next_edit(rt, alloc, session, words);
}

/// Commits what is pending, and pushes it with the difference that the commit tells.
pub(crate) fn commit_and_push<R: Abort + Wait>(
    rt: &R,
    session: &mut WriteZone<'_>,
    provider: &mut HistoryProvider,
)
    requires { provider.old.kept ≡ session.old.current.version }
    ensures { provider.new.kept ≡ session.new.current.version }
{
    // For the proof: what a commit tells may be pushed.
    commits_may_be_pushed();
    let told = session.commit(rt, false).expect(rt, "a version");
    let next = session.handle().expect(rt, "memory");
    provider.push(next, told).expect(rt, "memory");
}

/// Makes these edits, at most eight, commits them, and pushes the version with its difference.
fn push_edits<R: Abort + Wait>(
    rt: &R,
    alloc: Global,
    session: &mut WriteZone<'_>,
    provider: &mut HistoryProvider,
    edits: &str,
)
    requires { provider.old.kept ≡ session.old.current.version }
    ensures { provider.new.kept ≡ session.new.current.version }
{
    session.want_difference(true);
    let mut words = edits.split_ascii_whitespace();
    four_edits(rt, alloc, session, &mut words);
    four_edits(rt, alloc, session, &mut words);
    let are_made = words.next().is_none();
    assert!(rt; are_made);
    commit_and_push(rt, session, provider);
}

/// A provider of a session's current version, which grants it to the key.
pub(crate) fn provider_of<R: Abort>(
    rt: &R,
    alloc: Global,
    session: &mut WriteZone<'_>,
    key: &Key,
) -> HistoryProvider
    ensures provider { result.kept ≡ session.new.current.version }
{
    let first = session.handle().expect(rt, "memory");
    let mut provider = HistoryProvider::new(alloc, first);
    let name = key.name().duplicate();
    provider.grant(name, key.algorithm()).expect(rt, "memory");
    provider
}

/// A primary of a provider.
pub(crate) fn stack_of(provider: HistoryProvider, key: &Key) -> Primary {
    let transfers = XfrMiddlewareSvc::new(RefuseSvc, provider);
    TsigMiddlewareSvc::new(transfers, key.duplicate())
}

/// A primary whose zone opened with the records of words; its commits are two with `|` between their edits, one, or none.
pub(crate) fn primary_of<R: Abort + Wait>(
    rt: &R,
    alloc: Global,
    opening: &str,
    commits: &str,
    key: &Key,
) -> Primary {
    let mut zone = zone_of(rt, alloc, opening, 0);
    let mut session = zone.write(alloc);
    let mut provider = provider_of(rt, alloc, &mut session, key);
    match commits.split_once('|') {
        Some((first, second)) => {
            push_edits(rt, alloc, &mut session, &mut provider, first);
            push_edits(rt, alloc, &mut session, &mut provider, second);
        }
        None => {
            if !commits.is_empty() {
                push_edits(rt, alloc, &mut session, &mut provider, commits);
            }
        }
    }
    drop(session);
    zone.close(rt);
    stack_of(provider, key)
}

/// A transfer over a link, at whose both ends it is the same moment.
pub(crate) fn transfer<R: Abort + Wait>(
    rt: &R,
    alloc: Global,
    primary: &Primary,
    session: &mut WriteZone<'_>,
    key: &Key,
    mode: XfrMode,
    link: &mut MemoryLink,
    made: &mut Vec<ReadZone>,
) -> Result<SyncOk, SyncError> {
    let moments = Moments {
        at_primary: at(),
        at_secondary: at(),
    };
    sync_zone(rt, alloc, primary, session, key, mode, link, moments, made)
}

/// What versions have: `|` before each, and its records in the order of its walk.
pub(crate) fn versions_of<R: Abort>(rt: &R, alloc: Global, versions: &[ReadZone]) -> Vec<u8> {
    let mut all = Vec::new(alloc);
    for version in versions {
        all.push(b'|').expect(rt, "memory");
        for stop in version.iter_rrsets() {
            append_set(rt, &mut all, version.class(), &stop);
        }
    }
    all
}

/// The same of versions that words name, with `|` before each.
pub(crate) fn spelt_versions<R: Abort>(rt: &R, alloc: Global, words: &str) -> Vec<u8> {
    let mut all = Vec::new(alloc);
    for word in words.split_ascii_whitespace() {
        match line_of(RECORDS, word) {
            Some(digits) => {
                let octets = octets_of(rt, alloc, digits);
                let appended = all.extend_from_slice(octets.as_slice());
                drop(octets);
                appended.expect(rt, "memory");
            }
            None => all.extend_from_slice(word.as_bytes()).expect(rt, "memory"),
        }
    }
    all
}
