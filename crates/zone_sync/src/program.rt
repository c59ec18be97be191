//! The program over its streams and its link.
ghost use Rattle.std.specs.Prelude.{◌≡◌, ◌≢◌, ◌⊎◌, ◌<◌, ◌≤◌, ℕ, List, [], ◌∷◌, ◌++◌, Some, Ok, Err, map, length, take, option_copied, option_map, string_bytes, IfOk, OnOk, IfSome, IsTrue};
ghost use Rattle.zone_model.specs.TransferText.{Mode};
ghost use Rattle.zone_devices.specs.Calls.{Rose};
ghost use Rattle.zone_devices.specs.Streams.{with_more, emptied};
ghost use Rattle.zone_sync.specs.Reported.{ReportsOn, TransfersOn, Transferred, Untouched, FitsLink, AreTold, versions_of, pushed_all, provider_of, IsDue, IsDueOf, IsDueOfNumbers, ReportsNumbers, TransfersNumbers, EndsAs, crossed, generated_asking};
ghost use Rattle.xfr_providers.specs.Offers.{key_id};
ghost use Rattle.zone_generated.specs.Generated as numbers;
ghost use Rattle.zone_report.specs.ReportsWritten.{AreReaders, Took, TookFirst, Wrote, status_by};
ghost use Rattle.zone_sync.specs.Statuses.{AsksNoScript, IsOther, TellsLink, TellsNumbers, TellsScript, TellsWords};
ghost use Rattle.zone_report.specs.StreamFaults.{TellsSink, TellsSource};
ghost use Rattle.zone_sync.specs.Primaries.{refuser};
ghost use Rattle.zone_sync.specs.Serving.{request_at};
ghost use Rattle.zone_sync.specs.Delivery.{WasHonest};
ghost use Rattle.zone_script.specs.BadLines.{bad_line};
ghost use Rattle.zone_report.specs.Notices.{is_fault, is_reported, is_read};
ghost use Rattle.zone_script.specs.Script as scripts;
ghost use Rattle.zone_script.specs.Script.{script_of};
ghost use Rattle.tsig_port.specs.Tsig.{TsigKey};
ghost use Rattle.zone_script.specs.ScriptReaders.{wire_readers};
ghost use Rattle.zone_script.specs.Words.{form_of, Transfer, Generate};
ghost use Rattle.zone_sync.specs.Statuses.{read_by};
ghost use Rattle.xfr_client.specs.SoFar.{asks_with};
ghost use Rattle.xfr_outcomes.specs.Modes.{mode_of};

use crate::gate::{Gate, OpenGate};
use crate::laws::history_primaries_grant;
use crate::number_laws::generated_zones_are_granted;
use crate::reading::{Seat, Seen, numbers_after, read_before, seats, serve};
use crate::sync::{Moments, sync_zone};
use dns_name::Labelled;
use std::alloc::{AllocError, Global};
use std::sync::Wait;
use std::thread::Threads;
use tsig_port::{Key, Time48};
use xfr_outcomes::{SyncError, SyncOk};
use xfr_server::{
    HistoryProvider, PrimaryStack, RefuseSvc, Service, TsigMiddlewareSvc, XfrMiddlewareSvc,
};
use xfr_services::XfrMode;
use zone_devices::links::Link;
use zone_devices::read_to_end::{MOST_OCTETS, ReadError, read_whole};
use zone_devices::sinks::{Sink, write_all};
use zone_devices::sources::Source;
use zone_generated::{empty, generated, generated_key};
use zone_reads::{ReadZone, Receipt, ZoneReader};
use zone_report::report::{counts_octets, report_octets};
use zone_report::{ReaderNumbers, Status};
use zone_script::commits::Commits;
use zone_script::script::{Script, ScriptError, parse};
use zone_script::words::{generated_of, transfer_of};
use zone_sessions::{Desk, MOST_READERS, WriteZone};

/// The usage line.
const USAGE: &[u8] = b"usage: zonesync axfr [K] / ixfr [K] / gen N SEED\n";

/// The status of a transfer whose report was written.
fn status_of(outcome: &Result<SyncOk, SyncError>) -> Status
    ensures { result ≡ status_by outcome.now }
{
    match outcome {
        Ok(_) => Status::Done,
        Err(SyncError::LinkFault) => Status::LinkFault,
        Err(SyncError::Memory) => Status::Memory,
        Err(_) => Status::Refused,
    }
}

/// Runs the program: tests its words, reads the script, transfers the zone over the link, and writes the report. It may
/// wait where it reads a zone or commits, and for the threads on which it has readers of the secondary's zone read.
pub fn run<R: Threads + Wait + Sync, S: Source, K: Sink, L: Link>(
    rt: &R,
    alloc: Global,
    words: &[String],
    src: &mut S,
    out: &mut K,
    link: &mut L,
) -> Status
    // What is written with each status, with status 5 a first part of it; and what went over the link: one transfer, that of the
    // script, of the kind that the words ask for, or that of the zone that the words' numbers make, with a report; nothing with any
    // other line; and where memory ran out nothing or that transfer.
    ensures wrote { Wrote
        (IsDueOf (λ p key at m. ⟦<Primary as Service<()>>⟧.Sends ((refuser, p), key) (request_at m at))
        (form_of (map string_bytes words.now)) (S.remaining src.old) (crossed (L.longest link.old) (L.lists link.old) (L.lists link.new)
        (L.faults link.old) (L.faults link.new)))
        (K.taken out.old) (K.taken out.new) result }
    // Other words are answered by status 2 alone, or by 5, and only for a script is anything read.
    ensures by_words { TellsWords (form_of (map string_bytes words.now)) result }
    ensures unread { AsksNoScript (form_of (map string_bytes words.now)) → src.new ≡ src.old }
    // The statuses of faults come where a count of faults rose; only want of memory and a later fault hide one.
    ensures source_faults { TellsSource (S.faults src.old) (S.faults src.new) result }
    ensures sink_faults { TellsSink (K.faults out.old) (K.faults out.new) result }
    ensures link_faults { TellsLink (L.faults link.old) (L.faults link.new) result }
    // A script is too long only where it has more octets, and what one says decides the status.
    ensures long { result ≡ Status.TooLong → IfSome (S.remaining src.old) (λ xs. MOST_OCTETS < length xs) }
    ensures by_script { (mode : Mode) (readers : ℕ) (text : List ℕ) → form_of (map string_bytes words.now) ≡ Some (Transfer mode readers)
        → S.remaining src.old ≡ Some text
        → TellsScript mode text (S.faults src.old) (S.faults src.new) (K.faults out.old) (K.faults out.new)
        (crossed (L.longest link.old) (L.lists link.old) (L.lists link.new)
        (L.faults link.old) (L.faults link.new)) result }
    // A zone that numbers make is transferred well over any honest link that takes its request.
    ensures by_numbers { (size seed : ℕ) → form_of (map string_bytes words.now) ≡ Some (Generate size seed)
        → TellsNumbers (K.faults out.old) (K.faults out.new)
        (crossed (L.longest link.old) (L.lists link.old) (L.lists link.new)
        (L.faults link.old) (L.faults link.new)) result }
    // With a script's report or the number of a line, the source was read to its end.
    ensures none_left { (mode : Mode) (readers : ℕ) → form_of (map string_bytes words.now) ≡ Some (Transfer mode readers)
        → IsTrue (is_read result) → S.remaining src.new ≡ emptied (S.remaining src.old) }
{
    match transfer_of(words) {
        Some((mode, readers)) => { run_gated(rt, alloc, &OpenGate, mode, readers, src, out, link) }
        None => match generated_of(words) {
            Some((size, seed)) => run_generated(rt, alloc, size, seed, out, link),
            None => write_last(out, USAGE, Status::Usage),
        },
    }
}

/// Runs the program as `run`, over words that could be read or couldn't; those have no form.
pub fn run_words<R: Threads + Wait + Sync, S: Source, K: Sink, L: Link>(
    rt: &R,
    alloc: Global,
    words: Option<&[String]>,
    src: &mut S,
    out: &mut K,
    link: &mut L,
) -> Status
    // What is written with each status, with status 5 a first part of it; and what went over the link: one transfer, that of the
    // script, of the kind that the words ask for, or that of the zone that the words' numbers make, with a report; nothing with any
    // other line; and where memory ran out nothing or that transfer.
    ensures wrote { Wrote
        (IsDueOf (λ p key at m. ⟦<Primary as Service<()>>⟧.Sends ((refuser, p), key) (request_at m at))
        (read_by string_bytes (option_copied words.entry)) (S.remaining src.old) (crossed (L.longest link.old) (L.lists link.old) (L.lists link.new)
        (L.faults link.old) (L.faults link.new)))
        (K.taken out.old) (K.taken out.new) result }
    // Other words are answered by status 2 alone, or by 5, and only for a script is anything read.
    ensures by_words { TellsWords (read_by string_bytes (option_copied words.entry)) result }
    ensures unread { AsksNoScript (read_by string_bytes (option_copied words.entry)) → src.new ≡ src.old }
    // The statuses of faults come where a count of faults rose; only want of memory and a later fault hide one.
    ensures source_faults { TellsSource (S.faults src.old) (S.faults src.new) result }
    ensures sink_faults { TellsSink (K.faults out.old) (K.faults out.new) result }
    ensures link_faults { TellsLink (L.faults link.old) (L.faults link.new) result }
    // A script is too long only where it has more octets, and what one says decides the status.
    ensures long { result ≡ Status.TooLong → IfSome (S.remaining src.old) (λ xs. MOST_OCTETS < length xs) }
    ensures by_script { (mode : Mode) (readers : ℕ) (text : List ℕ) → read_by string_bytes (option_copied words.entry) ≡ Some (Transfer mode readers)
        → S.remaining src.old ≡ Some text
        → TellsScript mode text (S.faults src.old) (S.faults src.new) (K.faults out.old) (K.faults out.new)
        (crossed (L.longest link.old) (L.lists link.old) (L.lists link.new)
        (L.faults link.old) (L.faults link.new)) result }
    // A zone that numbers make is transferred well over any honest link that takes its request.
    ensures by_numbers { (size seed : ℕ) → read_by string_bytes (option_copied words.entry) ≡ Some (Generate size seed)
        → TellsNumbers (K.faults out.old) (K.faults out.new)
        (crossed (L.longest link.old) (L.lists link.old) (L.lists link.new)
        (L.faults link.old) (L.faults link.new)) result }
    // With a script's report or the number of a line, the source was read to its end.
    ensures none_left { (mode : Mode) (readers : ℕ) → read_by string_bytes (option_copied words.entry) ≡ Some (Transfer mode readers)
        → IsTrue (is_read result) → S.remaining src.new ≡ emptied (S.remaining src.old) }
{
    match words {
        Some(words) => run(rt, alloc, words, src, out, link),
        None => write_last(out, USAGE, Status::Usage),
    }
}

/// Reads the script, makes the transfer of this kind with so many readers beside it, and writes the report. The gate is asked before each read and before
/// the transfer; that of `run` holds nothing.
pub fn run_gated<R: Threads + Wait + Sync, G: Gate + Sync, S: Source, K: Sink, L: Link>(
    rt: &R,
    alloc: Global,
    gate: &G,
    mode: XfrMode,
    readers: u64,
    src: &mut S,
    out: &mut K,
    link: &mut L,
) -> Status
    ensures wrote { Wrote
        (IsDue (λ p key at m. ⟦<Primary as Service<()>>⟧.Sends ((refuser, p), key) (request_at m at))
        (Some (Transfer (mode_of mode) readers)) (S.remaining src.old) (crossed (L.longest link.old) (L.lists link.old) (L.lists link.new)
        (L.faults link.old) (L.faults link.new)))
        (K.taken out.old) (K.taken out.new) result }
    ensures source_faults { TellsSource (S.faults src.old) (S.faults src.new) result }
    ensures sink_faults { TellsSink (K.faults out.old) (K.faults out.new) result }
    ensures link_faults { TellsLink (L.faults link.old) (L.faults link.new) result }
    ensures long { result ≡ Status.TooLong → IfSome (S.remaining src.old) (λ xs. MOST_OCTETS < length xs) }
    ensures by_script { (text : List ℕ) → S.remaining src.old ≡ Some text
        → TellsScript (mode_of mode) text (S.faults src.old) (S.faults src.new) (K.faults out.old) (K.faults out.new)
        (crossed (L.longest link.old) (L.lists link.old) (L.lists link.new)
        (L.faults link.old) (L.faults link.new)) result }
    ensures none_left { IsTrue (is_read result) → S.remaining src.new ≡ emptied (S.remaining src.old) }
    ensures others { result ≢ Status.Usage }
{
    match read_whole(alloc, src) {
        Ok(text) => run_script(rt, alloc, gate, mode, readers, text.as_slice(), out, link),
        Err(ReadError::Failed) => write_last(out, b"read fault\n", Status::SourceFault),
        Err(ReadError::TooLong) => write_last(out, b"too long\n", Status::TooLong),
        Err(ReadError::Memory) => Status::Memory,
    }
}

/// Writes all that there is to write, and tells the status, unless the sink fails.
fn write_last<K: Sink>(out: &mut K, octets: &[u8], status: Status) -> Status
    requires { status ≢ Status.SinkFault }
    ensures done { result ≢ Status.SinkFault → result ≡ status }
    ensures written { result ≢ Status.SinkFault → K.taken out.new ≡ with_more octets.now (K.taken out.old) }
    ensures part { (n : ℕ) × (K.taken out.new ≡ with_more (take n octets.now) (K.taken out.old)) }
    ensures sink_faults { TellsSink (K.faults out.old) (K.faults out.new) result }
{
    match write_all(out, octets) {
        Ok(()) => status,
        Err(_) => Status::SinkFault,
    }
}

/// Reads a script and runs it.
fn run_script<R: Threads + Wait + Sync, G: Gate + Sync, K: Sink, L: Link>(
    rt: &R,
    alloc: Global,
    gate: &G,
    mode: XfrMode,
    readers: u64,
    text: &[u8],
    out: &mut K,
    link: &mut L,
) -> Status
    ensures wrote { Wrote
        (IsDue (λ p key at m. ⟦<Primary as Service<()>>⟧.Sends ((refuser, p), key) (request_at m at))
        (Some (Transfer (mode_of mode) readers)) (Some text.now) (crossed (L.longest link.old) (L.lists link.old) (L.lists link.new)
        (L.faults link.old) (L.faults link.new)))
        (K.taken out.old) (K.taken out.new) result }
    ensures sink_faults { TellsSink (K.faults out.old) (K.faults out.new) result }
    ensures link_faults { TellsLink (L.faults link.old) (L.faults link.new) result }
    ensures delivers { (script : scripts.Script TsigKey) (key : TsigKey)
        → script_of wire_readers text.now ≡ Ok script → FitsLink (mode_of mode) script key (L.longest link.old)
        → WasHonest (L.lists link.old) (L.lists link.new) (L.faults link.old) (L.faults link.new)
        → ¬ Rose (K.faults out.old) (K.faults out.new) → (result ≡ Status.Done) ⊎ (result ≡ Status.Memory) }
    ensures script { (s : scripts.Script TsigKey) → script_of wire_readers text.now ≡ Ok s
        → result ≢ Status.Script }
    ensures bad_script { (n : ℕ) → script_of wire_readers text.now ≡ Err n
        → (result ≡ Status.Script) ⊎ IsTrue (is_fault result) }
    ensures others { (result ≢ Status.Usage) × (result ≢ Status.SourceFault) × (result ≢ Status.TooLong) }
{
    // For the proof: such a primary grants.
    history_primaries_grant();
    match parse(rt, alloc, text) {
        Ok(script) => run_transfer(rt, alloc, gate, mode, readers, script, out, link),
        Err(ScriptError::Line(number)) => write_bad_line(alloc, out, number),
        Err(ScriptError::Memory) => Status::Memory,
    }
}

/// Writes the number of a bad line.
fn write_bad_line<K: Sink>(alloc: Global, out: &mut K, number: u64) -> Status
    ensures sink_faults { TellsSink (K.faults out.old) (K.faults out.new) result }
    ensures written { result ≡ Status.Script → K.taken out.new ≡ with_more (bad_line number) (K.taken out.old) }
    ensures part { result ≡ Status.SinkFault
        → (n : ℕ) × (K.taken out.new ≡ with_more (take n (bad_line number)) (K.taken out.old)) }
    ensures nothing { result ≡ Status.Memory → K.taken out.new ≡ K.taken out.old }
    ensures others { (result ≡ Status.Script) ⊎ ((result ≡ Status.SinkFault) ⊎ (result ≡ Status.Memory)) }
{
    match format!(in alloc; "line {number}\n") {
        Ok(text) => write_last(out, text.as_bytes(), Status::Script),
        Err(_) => Status::Memory,
    }
}

/// Transfers the zone, and writes the report.
fn run_transfer<R: Threads + Wait + Sync, G: Gate + Sync, K: Sink, L: Link>(
    rt: &R,
    alloc: Global,
    gate: &G,
    mode: XfrMode,
    readers: u64,
    script: Script,
    out: &mut K,
    link: &mut L,
) -> Status
    requires told { AreTold script.opening.version script.commits }
    ensures sink_faults { TellsSink (K.faults out.old) (K.faults out.new) result }
    ensures link_faults { TellsLink (L.faults link.old) (L.faults link.new) result }
    ensures written { IsTrue (is_reported result)
        → Took (λ octets. ReportsOn
        (λ p key at m. ⟦<Primary as Service<()>>⟧.Sends ((refuser, p), key) (request_at m at))
        (mode_of mode) readers script
        (crossed (L.longest link.old) (L.lists link.old) (L.lists link.new)
        (L.faults link.old) (L.faults link.new)) octets result)
        (K.taken out.old) (K.taken out.new) }
    ensures part { result ≡ Status.SinkFault
        → TookFirst (ReportsOn
        (λ p key at m. ⟦<Primary as Service<()>>⟧.Sends ((refuser, p), key) (request_at m at))
        (mode_of mode) readers script
        (crossed (L.longest link.old) (L.lists link.old) (L.lists link.new)
        (L.faults link.old) (L.faults link.new)))
        (K.taken out.old) (K.taken out.new) }
    ensures nothing { result ≡ Status.Memory → K.taken out.new ≡ K.taken out.old }
    ensures over_link { Untouched (crossed (L.longest link.old) (L.lists link.old) (L.lists link.new)
        (L.faults link.old) (L.faults link.new))
        ⊎ TransfersOn
        (λ p key at m. ⟦<Primary as Service<()>>⟧.Sends ((refuser, p), key) (request_at m at))
        (mode_of mode) script
        (crossed (L.longest link.old) (L.lists link.old) (L.lists link.new)
        (L.faults link.old) (L.faults link.new)) }
    ensures others { (result ≢ Status.Usage) × (result ≢ Status.SourceFault) × (result ≢ Status.TooLong)
        × (result ≢ Status.Script) }
{
    match transfer(rt, alloc, gate, mode, readers, script, link) {
        Ok((report, status)) => write_last(out, report.as_slice(), status),
        Err(_) => Status::Memory,
    }
}

/// The primary of a zone, which grants it to one key.
type Primary = PrimaryStack<RefuseSvc, HistoryProvider, Key>;

/// The primary that opened with a version, committed these after it, and grants them to a key.
fn primary_of(
    alloc: Global,
    opening: ReadZone,
    commits: Commits,
    key: &Key,
) -> Result<Primary, AllocError>
    requires { AreTold opening.version commits }
    ensures { IfOk result (λ p. p ≡ ((refuser, provider_of opening.version (versions_of commits) key.now), key.now)) }
{
    let mut provider = HistoryProvider::new(alloc, opening);
    match provide(&mut provider, commits, key) {
        Ok(()) => {
            let transfers = XfrMiddlewareSvc::new(RefuseSvc, provider);
            Ok(TsigMiddlewareSvc::new(transfers, key.duplicate()))
        }
        Err(error) => {
            drop(provider);
            Err(error)
        }
    }
}

/// Grants a provider's zone to a key, and pushes commits to it.
fn provide(provider: &mut HistoryProvider, commits: Commits, key: &Key) -> Result<(), AllocError>
    requires { AreTold provider.old.kept commits }
    ensures { OnOk result (provider.new ≡ pushed_all (record provider.old { grants = provider.old.grants ++ key_id key.now ∷ [] }) (versions_of commits)) }
{
    match provider.grant(key.name().duplicate(), key.algorithm()) {
        Ok(()) => push_all(provider, commits),
        Err(error) => {
            drop(commits);
            Err(error)
        }
    }
}

/// Pushes commits to a provider, each with its difference.
fn push_all(provider: &mut HistoryProvider, commits: Commits) -> Result<(), AllocError>
    requires { AreTold provider.old.kept commits }
    ensures { OnOk result (provider.new ≡ pushed_all provider.old (versions_of commits)) }
{
    for (handle, difference) in commits.into_entries() {
        provider.push(handle, difference)?;
    }
    Ok(())
}

/// How a transfer ended: its answer, how many versions it made, a handle of the last one, and the status of its report.
#[derive(Drop)]
struct Ended {
    outcome: Result<SyncOk, SyncError>,
    made: usize,
    last: ReadZone,
    status: Status,
}

/// Transfers a zone from a primary to a secondary.
fn transfer_to<R: Threads + Wait + Sync, G: Gate + Sync, L: Link>(
    rt: &R,
    alloc: Global,
    gate: &G,
    primary: &Primary,
    secondary: ReadZone,
    key: &Key,
    mode: XfrMode,
    readers: u64,
    moments: Moments,
    link: &mut L,
) -> Result<(Ended, Vec<ReaderNumbers>), AllocError>
    ensures ended { IfOk result (λ e. EndsAs
        (λ m. ⟦<Primary as Service<()>>⟧.Sends primary.now (request_at m moments.at_primary))
        (asks_with key.now (mode_of mode) moments.at_secondary secondary) moments.at_primary
        (crossed (L.longest link.old) (L.lists link.old) (L.lists link.new) (L.faults link.old) (L.faults link.new))
        e.0.outcome e.0.made e.0.last e.0.status) }
    ensures lines { IfOk result (λ e. AreReaders readers e.0.last.number e.1.items) }
    ensures over_link { Untouched (crossed (L.longest link.old) (L.lists link.old) (L.lists link.new)
        (L.faults link.old) (L.faults link.new))
        ⊎ Transferred
        (λ m. ⟦<Primary as Service<()>>⟧.Sends primary.now (request_at m moments.at_primary))
        (asks_with key.now (mode_of mode) moments.at_secondary secondary) moments.at_primary
        (crossed (L.longest link.old) (L.lists link.old) (L.lists link.new) (L.faults link.old) (L.faults link.new)) }
    ensures link_fault { IfOk result (λ e. e.0.status ≡ Status.LinkFault → Rose (L.faults link.old) (L.faults link.new)) }
    ensures link_fails { IfOk result (λ e. L.faults link.old < L.faults link.new → e.0.status ≡ Status.LinkFault) }
{
    let (mut reader, mut desk) = Desk::open(alloc, rt, secondary, MOST_READERS)?;
    let ended = transfer_at(
        rt,
        alloc,
        gate,
        primary,
        &mut reader,
        &mut desk,
        key,
        mode,
        readers,
        moments,
        link,
    );
    drop(reader);
    desk.close(rt);
    ended
}

/// The same to the zone of a desk, whose first reader this is.
fn transfer_at<R: Threads + Wait + Sync, G: Gate + Sync, L: Link>(
    rt: &R,
    alloc: Global,
    gate: &G,
    primary: &Primary,
    reader: &mut ZoneReader,
    desk: &mut Desk,
    key: &Key,
    mode: XfrMode,
    readers: u64,
    moments: Moments,
    link: &mut L,
) -> Result<(Ended, Vec<ReaderNumbers>), AllocError>
    ensures ended { IfOk result (λ e. EndsAs
        (λ m. ⟦<Primary as Service<()>>⟧.Sends primary.now (request_at m moments.at_primary))
        (asks_with key.now (mode_of mode) moments.at_secondary desk.old.last) moments.at_primary
        (crossed (L.longest link.old) (L.lists link.old) (L.lists link.new) (L.faults link.old) (L.faults link.new))
        e.0.outcome e.0.made e.0.last e.0.status) }
    ensures lines { IfOk result (λ e. AreReaders readers e.0.last.number e.1.items) }
    ensures over_link { Untouched (crossed (L.longest link.old) (L.lists link.old) (L.lists link.new)
        (L.faults link.old) (L.faults link.new))
        ⊎ Transferred
        (λ m. ⟦<Primary as Service<()>>⟧.Sends primary.now (request_at m moments.at_primary))
        (asks_with key.now (mode_of mode) moments.at_secondary desk.old.last) moments.at_primary
        (crossed (L.longest link.old) (L.lists link.old) (L.lists link.new) (L.faults link.old) (L.faults link.new)) }
    ensures link_fault { IfOk result (λ e. e.0.status ≡ Status.LinkFault → Rose (L.faults link.old) (L.faults link.new)) }
    ensures link_fails { IfOk result (λ e. L.faults link.old < L.faults link.new → e.0.status ≡ Status.LinkFault) }
{
    let mut made = Vec::new(alloc);
    let mut session = desk.write(alloc);
    let ended = transfer_beside(
        rt,
        alloc,
        gate,
        primary,
        reader,
        &mut session,
        key,
        mode,
        readers,
        moments,
        link,
        &mut made,
    );
    drop(session);
    drop(made);
    ended
}

/// The same into a session, with a new list of handles: before the zone is transferred each reader reads on a thread of its own, and after it once more. One
/// that has no place is served by the first reader.
fn transfer_beside<R: Threads + Wait + Sync, G: Gate + Sync, L: Link>(
    rt: &R,
    alloc: Global,
    gate: &G,
    primary: &Primary,
    reader: &mut ZoneReader,
    session: &mut WriteZone<'_>,
    key: &Key,
    mode: XfrMode,
    readers: u64,
    moments: Moments,
    link: &mut L,
    made: &mut Vec<ReadZone>,
) -> Result<(Ended, Vec<ReaderNumbers>), AllocError>
    requires new { made.old.items ≡ [] }
    ensures ended { IfOk result (λ e. EndsAs
        (λ m. ⟦<Primary as Service<()>>⟧.Sends primary.now (request_at m moments.at_primary))
        (asks_with key.now (mode_of mode) moments.at_secondary session.old.current) moments.at_primary
        (crossed (L.longest link.old) (L.lists link.old) (L.lists link.new) (L.faults link.old) (L.faults link.new))
        e.0.outcome e.0.made e.0.last e.0.status) }
    ensures lines { IfOk result (λ e. AreReaders readers e.0.last.number e.1.items) }
    ensures over_link { Untouched (crossed (L.longest link.old) (L.lists link.old) (L.lists link.new)
        (L.faults link.old) (L.faults link.new))
        ⊎ Transferred
        (λ m. ⟦<Primary as Service<()>>⟧.Sends primary.now (request_at m moments.at_primary))
        (asks_with key.now (mode_of mode) moments.at_secondary session.old.current) moments.at_primary
        (crossed (L.longest link.old) (L.lists link.old) (L.lists link.new) (L.faults link.old) (L.faults link.new)) }
    ensures link_fault { IfOk result (λ e. e.0.status ≡ Status.LinkFault → Rose (L.faults link.old) (L.faults link.new)) }
    ensures link_fails { IfOk result (λ e. L.faults link.old < L.faults link.new → e.0.status ≡ Status.LinkFault) }
{
    let seats = seats(alloc, reader, readers)?;
    let before = read_before(gate, reader, seats.len() as u64, readers)?;
    let (seen, ended) = one_by_one(
        rt, alloc, gate, primary, seats, session, key, mode, moments, link, made,
    );
    let (ended, receipt) = ended?;
    match numbers_after(alloc, gate, seen?, reader, before, readers, &receipt) {
        Ok(lines) => Ok((ended, lines)),
        Err(error) => {
            drop(ended);
            Err(error)
        }
    }
}

/// What the readers on threads have seen, and how the transfer behind them ended.
fn one_by_one<R: Threads + Wait + Sync, G: Gate + Sync, L: Link>(
    rt: &R,
    alloc: Global,
    gate: &G,
    primary: &Primary,
    seats: Vec<Seat>,
    session: &mut WriteZone<'_>,
    key: &Key,
    mode: XfrMode,
    moments: Moments,
    link: &mut L,
    made: &mut Vec<ReadZone>,
) -> (
    Result<Vec<Result<Seen, AllocError>>, AllocError>,
    Result<(Ended, Receipt), AllocError>,
)
    requires new { made.old.items ≡ [] }
    ensures ended { IfOk result.1 (λ e. EndsAs
        (λ m. ⟦<Primary as Service<()>>⟧.Sends primary.now (request_at m moments.at_primary))
        (asks_with key.now (mode_of mode) moments.at_secondary session.old.current) moments.at_primary
        (crossed (L.longest link.old) (L.lists link.old) (L.lists link.new) (L.faults link.old) (L.faults link.new))
        e.0.outcome e.0.made e.0.last e.0.status) }
    ensures receipt { IfOk result.1 (λ e. e.1.last ≡ e.0.last) }
    ensures over_link { Transferred
        (λ m. ⟦<Primary as Service<()>>⟧.Sends primary.now (request_at m moments.at_primary))
        (asks_with key.now (mode_of mode) moments.at_secondary session.old.current) moments.at_primary
        (crossed (L.longest link.old) (L.lists link.old) (L.lists link.new) (L.faults link.old) (L.faults link.new)) }
    ensures link_fault { IfOk result.1 (λ e. e.0.status ≡ Status.LinkFault → Rose (L.faults link.old) (L.faults link.new)) }
    ensures link_fails { IfOk result.1 (λ e. L.faults link.old < L.faults link.new → e.0.status ≡ Status.LinkFault) }
{
    let seen = serve(rt, gate, seats);
    let ended = transfer_into(
        rt, alloc, gate, primary, session, key, mode, moments, link, made,
    );
    (seen, ended)
}

/// Transfers a zone from a primary into a session, with a new list of handles.
fn transfer_into<R: Wait, G: Gate, L: Link>(
    rt: &R,
    alloc: Global,
    gate: &G,
    primary: &Primary,
    session: &mut WriteZone<'_>,
    key: &Key,
    mode: XfrMode,
    moments: Moments,
    link: &mut L,
    made: &mut Vec<ReadZone>,
) -> Result<(Ended, Receipt), AllocError>
    requires new { made.old.items ≡ [] }
    ensures ended { IfOk result (λ e. EndsAs
        (λ m. ⟦<Primary as Service<()>>⟧.Sends primary.now (request_at m moments.at_primary))
        (asks_with key.now (mode_of mode) moments.at_secondary session.old.current) moments.at_primary
        (crossed (L.longest link.old) (L.lists link.old) (L.lists link.new) (L.faults link.old) (L.faults link.new))
        e.0.outcome e.0.made e.0.last e.0.status) }
    ensures receipt { IfOk result (λ e. e.1.last ≡ e.0.last) }
    ensures over_link { Transferred
        (λ m. ⟦<Primary as Service<()>>⟧.Sends primary.now (request_at m moments.at_primary))
        (asks_with key.now (mode_of mode) moments.at_secondary session.old.current) moments.at_primary
        (crossed (L.longest link.old) (L.lists link.old) (L.lists link.new) (L.faults link.old) (L.faults link.new)) }
    ensures link_fault { IfOk result (λ e. e.0.status ≡ Status.LinkFault → Rose (L.faults link.old) (L.faults link.new)) }
    ensures link_fails { IfOk result (λ e. L.faults link.old < L.faults link.new → e.0.status ≡ Status.LinkFault) }
{
    gate.before_transfer();
    let outcome = sync_zone(rt, alloc, primary, session, key, mode, link, moments, made);
    let status = status_of(&outcome);
    if status == Status::Memory {
        return Err(AllocError);
    }
    // For the proof: the history ends with the current version.
    session.standing();
    let receipt = session.receipt()?;
    let last = session.handle()?;
    let made = made.len();
    Ok((
        Ended {
            outcome,
            made,
            last,
            status,
        },
        receipt,
    ))
}

/// Transfers a zone from the primary that opened with a version and committed these after it.
fn transfer_from<R: Threads + Wait + Sync, G: Gate + Sync, L: Link>(
    rt: &R,
    alloc: Global,
    gate: &G,
    opening: ReadZone,
    commits: Commits,
    secondary: ReadZone,
    key: &Key,
    mode: XfrMode,
    readers: u64,
    moments: Moments,
    link: &mut L,
) -> Result<(Ended, Vec<ReaderNumbers>), AllocError>
    requires told { AreTold opening.version commits }
    ensures ended { IfOk result (λ e. EndsAs
        (λ m. ⟦<Primary as Service<()>>⟧.Sends ((refuser, provider_of opening.version (versions_of commits) key.now), key.now) (request_at m moments.at_primary))
        (asks_with key.now (mode_of mode) moments.at_secondary secondary) moments.at_primary
        (crossed (L.longest link.old) (L.lists link.old) (L.lists link.new) (L.faults link.old) (L.faults link.new))
        e.0.outcome e.0.made e.0.last e.0.status) }
    ensures lines { IfOk result (λ e. AreReaders readers e.0.last.number e.1.items) }
    ensures over_link { Untouched (crossed (L.longest link.old) (L.lists link.old) (L.lists link.new)
        (L.faults link.old) (L.faults link.new))
        ⊎ Transferred
        (λ m. ⟦<Primary as Service<()>>⟧.Sends ((refuser, provider_of opening.version (versions_of commits) key.now), key.now) (request_at m moments.at_primary))
        (asks_with key.now (mode_of mode) moments.at_secondary secondary) moments.at_primary
        (crossed (L.longest link.old) (L.lists link.old) (L.lists link.new) (L.faults link.old) (L.faults link.new)) }
    ensures link_fault { IfOk result (λ e. e.0.status ≡ Status.LinkFault → Rose (L.faults link.old) (L.faults link.new)) }
    ensures link_fails { IfOk result (λ e. L.faults link.old < L.faults link.new → e.0.status ≡ Status.LinkFault) }
{
    match primary_of(alloc, opening, commits, key) {
        Ok(primary) => {
            let ended = transfer_to(
                rt, alloc, gate, &primary, secondary, key, mode, readers, moments, link,
            );
            drop(primary);
            ended
        }
        Err(error) => {
            drop(secondary);
            Err(error)
        }
    }
}

/// Transfers the zone; what is to be written, and the status.
fn transfer<R: Threads + Wait + Sync, G: Gate + Sync, L: Link>(
    rt: &R,
    alloc: Global,
    gate: &G,
    mode: XfrMode,
    readers: u64,
    script: Script,
    link: &mut L,
) -> Result<(Vec<u8>, Status), AllocError>
    requires told { AreTold script.opening.version script.commits }
    ensures report { IfOk result (λ r. ReportsOn
        (λ p key at m. ⟦<Primary as Service<()>>⟧.Sends ((refuser, p), key) (request_at m at))
        (mode_of mode) readers script
        (crossed (L.longest link.old) (L.lists link.old) (L.lists link.new)
        (L.faults link.old) (L.faults link.new)) r.0.items r.1) }
    ensures over_link { Untouched (crossed (L.longest link.old) (L.lists link.old) (L.lists link.new)
        (L.faults link.old) (L.faults link.new))
        ⊎ TransfersOn
        (λ p key at m. ⟦<Primary as Service<()>>⟧.Sends ((refuser, p), key) (request_at m at))
        (mode_of mode) script
        (crossed (L.longest link.old) (L.lists link.old) (L.lists link.new)
        (L.faults link.old) (L.faults link.new)) }
    ensures link_fault { IfOk result (λ r. r.1 ≡ Status.LinkFault → Rose (L.faults link.old) (L.faults link.new)) }
    ensures link_fails { IfOk result (λ r. L.faults link.old < L.faults link.new → r.1 ≡ Status.LinkFault) }
    ensures others { IfOk result (λ r. IsTrue (is_reported r.1)) }
{
    let Script {
        key,
        at_primary,
        at_secondary,
        opening,
        commits,
        secondary,
        queries,
    } = script;
    let moments = Moments {
        at_primary,
        at_secondary,
    };
    match transfer_from(
        rt, alloc, gate, opening, commits, secondary, &key, mode, readers, moments, link,
    ) {
        Ok((ended, lines)) => {
            let report = report_octets(
                alloc,
                &ended.outcome,
                ended.made,
                &ended.last,
                queries.as_slice(),
                lines.as_slice(),
            );
            let status = ended.status;
            drop(lines);
            drop(queries);
            drop(ended);
            Ok((report?, status))
        }
        Err(error) => {
            drop(queries);
            Err(error)
        }
    }
}

/// Makes the zone of so many hosts, transfers it to an empty one, and writes the report.
fn run_generated<R: Threads + Wait + Sync, K: Sink, L: Link>(
    rt: &R,
    alloc: Global,
    size: u32,
    seed: u64,
    out: &mut K,
    link: &mut L,
) -> Status
    requires some { 1 ≤ size }
    requires most { size ≤ 100000 }
    ensures wrote { Wrote
        (IsDueOfNumbers (λ p key at m. ⟦<Primary as Service<()>>⟧.Sends ((refuser, p), key) (request_at m at))
        size seed (crossed (L.longest link.old) (L.lists link.old) (L.lists link.new)
        (L.faults link.old) (L.faults link.new)))
        (K.taken out.old) (K.taken out.new) result }
    ensures sink_faults { TellsSink (K.faults out.old) (K.faults out.new) result }
    ensures link_faults { TellsLink (L.faults link.old) (L.faults link.new) result }
    ensures by_numbers { TellsNumbers (K.faults out.old) (K.faults out.new)
        (crossed (L.longest link.old) (L.lists link.old) (L.lists link.new)
        (L.faults link.old) (L.faults link.new)) result }
    ensures others { (result ≢ Status.Usage) × (result ≢ Status.SourceFault) × (result ≢ Status.TooLong)
        × (result ≢ Status.Script) }
{
    // For the proof: such a primary grants the zone.
    generated_zones_are_granted();
    match transfer_generated(rt, alloc, size, seed, link) {
        Ok((report, status)) => write_last(out, report.as_slice(), status),
        Err(_) => Status::Memory,
    }
}

/// Makes the zone of so many hosts, and transfers it to an empty one; what is to be written, and the status.
fn transfer_generated<R: Threads + Wait + Sync, L: Link>(
    rt: &R,
    alloc: Global,
    size: u32,
    seed: u64,
    link: &mut L,
) -> Result<(Vec<u8>, Status), AllocError>
    requires some { 1 ≤ size }
    ensures report { IfOk result (λ r. ReportsNumbers
        (λ p key at m. ⟦<Primary as Service<()>>⟧.Sends ((refuser, p), key) (request_at m at))
        size seed
        (crossed (L.longest link.old) (L.lists link.old) (L.lists link.new)
        (L.faults link.old) (L.faults link.new)) r.0.items r.1) }
    ensures over_link { Untouched (crossed (L.longest link.old) (L.lists link.old) (L.lists link.new)
        (L.faults link.old) (L.faults link.new))
        ⊎ TransfersNumbers
        (λ p key at m. ⟦<Primary as Service<()>>⟧.Sends ((refuser, p), key) (request_at m at))
        size seed
        (crossed (L.longest link.old) (L.lists link.old) (L.lists link.new)
        (L.faults link.old) (L.faults link.new)) }
    ensures link_fault { IfOk result (λ r. r.1 ≡ Status.LinkFault → Rose (L.faults link.old) (L.faults link.new)) }
    ensures link_fails { IfOk result (λ r. L.faults link.old < L.faults link.new → r.1 ≡ Status.LinkFault) }
    ensures others { IfOk result (λ r. IsTrue (is_reported r.1)) }
{
    let sent = generated(alloc, size, seed)?;
    match transfer_sent(rt, alloc, &sent, link) {
        Ok(ended) => {
            let report = counts_octets(alloc, &ended.outcome, ended.made, &ended.last, &sent);
            let status = ended.status;
            drop(ended);
            drop(sent);
            Ok((report?, status))
        }
        Err(error) => {
            drop(sent);
            Err(error)
        }
    }
}

/// Transfers a version to a zone without records, with the key of zones that numbers make.
fn transfer_sent<R: Threads + Wait + Sync, L: Link>(
    rt: &R,
    alloc: Global,
    sent: &ReadZone,
    link: &mut L,
) -> Result<Ended, AllocError>
    ensures ended { IfOk result (λ e. EndsAs
        (λ m. ⟦<Primary as Service<()>>⟧.Sends ((refuser, provider_of sent.now.version [] numbers.key), numbers.key) (request_at m 0))
        generated_asking 0
        (crossed (L.longest link.old) (L.lists link.old) (L.lists link.new) (L.faults link.old) (L.faults link.new))
        e.outcome e.made e.last e.status) }
    ensures over_link { Untouched (crossed (L.longest link.old) (L.lists link.old) (L.lists link.new)
        (L.faults link.old) (L.faults link.new))
        ⊎ Transferred
        (λ m. ⟦<Primary as Service<()>>⟧.Sends ((refuser, provider_of sent.now.version [] numbers.key), numbers.key) (request_at m 0))
        generated_asking 0
        (crossed (L.longest link.old) (L.lists link.old) (L.lists link.new) (L.faults link.old) (L.faults link.new)) }
    ensures link_fault { IfOk result (λ e. e.status ≡ Status.LinkFault → Rose (L.faults link.old) (L.faults link.new)) }
    ensures link_fails { IfOk result (λ e. L.faults link.old < L.faults link.new → e.status ≡ Status.LinkFault) }
{
    let secondary = empty(alloc)?;
    let begin = Time48::from_u64(0);
    let moments = Moments {
        at_primary: begin,
        at_secondary: begin,
    };
    match sent.clone() {
        Ok(opening) => {
            let (ended, lines) = transfer_from(
                rt,
                alloc,
                &OpenGate,
                opening,
                Commits::new(alloc),
                secondary,
                &generated_key(),
                XfrMode::Axfr,
                0,
                moments,
                link,
            )?;
            drop(lines);
            Ok(ended)
        }
        Err(error) => {
            drop(secondary);
            Err(error)
        }
    }
}
