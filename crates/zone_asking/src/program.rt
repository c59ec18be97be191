//! The secondary's program over its streams.
ghost use Rattle.std.specs.Prelude.{◌≡◌, ◌≢◌, ◌⊎◌, ◌<◌, ℕ, List, Some, Err, Ok, map, option_copied, take, string_bytes, IfOk, IsTrue};
ghost use Rattle.zone_devices.specs.Streams.{with_more};
ghost use Rattle.zone_script.specs.Script as scripts;
ghost use Rattle.zone_script.specs.declared.script.Script as read_scripts;
ghost use Rattle.zone_script.specs.Script.{script_of};
ghost use Rattle.zone_script.specs.ScriptReaders.{wire_readers};
ghost use Rattle.tsig_port.specs.Tsig.{TsigKey};
ghost use Rattle.xfr_outcomes.specs.Modes.{mode_of};
ghost use Rattle.xfr_client.specs.SoFar.{asks_with};
ghost use Rattle.zone_script.specs.BadLines.{bad_line};
ghost use Rattle.zone_report.specs.Notices.{is_fault, is_reported};
ghost use Rattle.zone_report.specs.ReportsWritten.{Took, TookFirst, Wrote};
ghost use Rattle.zone_report.specs.StreamFaults.{TellsSink, TellsSource};
ghost use Rattle.zone_asking.specs.Answers.{sync_answer};
ghost use Rattle.zone_asking.specs.Exchanges.{crossing};
ghost use Rattle.zone_asking.specs.Wishes as wishes;
ghost use Rattle.zone_asking.specs.Wishes.{wished};
ghost use Rattle.zone_asking.specs.Reporting.{ask_report, ask_status, limit_passed, limit_report};
ghost use Rattle.zone_asking.specs.Running.{IsDue, Notifies, ReportsOn, Runs, RunsAt, RunsWish, TellsScript, TellsStreams, Transferred, Untouched, end_code, met, with_parts};

use crate::errors::AskError;
use crate::limits::{Limit, Limits};
use crate::retrying::transfer_zone;
use crate::words::wish_of;
use std::alloc::{AllocError, Global};
use std::sync::Wait;
use tsig_port::{Key, Time48};
use xfr_outcomes::{SyncError, SyncOk};
use xfr_services::XfrMode;
use zone_devices::read_to_end::{ReadError, read_whole};
use zone_devices::sinks::{Sink, write_all};
use zone_devices::sources::Source;
use zone_lookup::Query;
use zone_reads::ReadZone;
use zone_report::report::report_octets;
use zone_report::{Status, append_answers, append_walk};
use zone_script::script::{Script, ScriptError, parse};
use zone_sessions::{Desk, MOST_READERS};

/// The usage line.
const USAGE: &[u8] =
    b"usage: zone_peer secondary axfr FILE [LIMIT N].. / ixfr FILE [LIMIT N].., LIMIT: replies, octets, records, set-records\n";

/// How a run of the secondary's program ends.
#[derive(Clone, Copy, Debug, PartialEq, Eq)]
pub enum RunEnd {
    /// With a status, that of words that ask for nothing among them.
    By(Status),
    /// The script's file can't be opened, and that was written.
    NoFile,
    /// The moment isn't known, and that was written.
    NoClock,
}

impl RunEnd {
    /// The exit status, 0 to 9.
    pub fn code(self) -> u8
        ensures { result ≡ end_code self }
    {
        match self {
            RunEnd::By(status) => status.code(),
            RunEnd::NoFile => 4,
            RunEnd::NoClock => 9,
        }
    }
}

/// Runs the program: reads the script in the file that its words name, where that was opened, brings the zone of its secondary up to date over a source and a
/// sink, within the limits that the words set, and writes the report to another sink. Of the script the zone, the key, the records of the secondary and the
/// questions count; the rest of it is read, and tested as ever. The moment, where it is known, is that at which the request is signed and the replies are
/// checked. It may wait where it commits, and for the streams.
pub fn run_secondary<R: Wait, F: Source, S: Source, K: Sink, E: Sink>(
    rt: &R,
    alloc: Global,
    words: &[String],
    opened: bool,
    file: &mut F,
    at: Option<Time48>,
    src: &mut S,
    sink: &mut K,
    report: &mut E,
) -> RunEnd
    // What is written with each status, and what went over the streams: one transfer, that of the script's secondary, as the words wish it, with a report;
    // nothing with any other line; and where memory ran out nothing or that transfer. Where the words ask for nothing, the file wasn't opened or the moment
    // isn't known, that is written alone.
    ensures { Runs (wishes.wish_of (map string_bytes words.now)) opened at
        (met (F.remaining file.old) (F.remaining file.new) (F.faults file.old) (F.faults file.new)
        (crossing (S.remaining src.old) (S.remaining src.new) (K.taken sink.old) (K.taken sink.new))
        (S.faults src.old) (S.faults src.new) (K.faults sink.old) (K.faults sink.new)
        (E.taken report.old) (E.taken report.new) (E.faults report.old) (E.faults report.new)) result }
{
    match wish_of(words) {
        Some((mode, limits)) => run_wish(
            rt, alloc, mode, limits, opened, file, at, src, sink, report,
        ),
        None => notify(report, USAGE, RunEnd::By(Status::Usage)),
    }
}

/// The same of words that ask for a transfer.
fn run_wish<R: Wait, F: Source, S: Source, K: Sink, E: Sink>(
    rt: &R,
    alloc: Global,
    mode: XfrMode,
    limits: Limits,
    opened: bool,
    file: &mut F,
    at: Option<Time48>,
    src: &mut S,
    sink: &mut K,
    report: &mut E,
) -> RunEnd
    ensures { RunsWish (wished (mode, limits)) opened at
        (met (F.remaining file.old) (F.remaining file.new) (F.faults file.old) (F.faults file.new)
        (crossing (S.remaining src.old) (S.remaining src.new) (K.taken sink.old) (K.taken sink.new))
        (S.faults src.old) (S.faults src.new) (K.faults sink.old) (K.faults sink.new)
        (E.taken report.old) (E.taken report.new) (E.faults report.old) (E.faults report.new)) result }
{
    if opened {
        run_at(rt, alloc, mode, limits, file, at, src, sink, report)
    } else {
        notify(report, b"the script can't be opened\n", RunEnd::NoFile)
    }
}

/// The same of a file that was opened.
fn run_at<R: Wait, F: Source, S: Source, K: Sink, E: Sink>(
    rt: &R,
    alloc: Global,
    mode: XfrMode,
    limits: Limits,
    file: &mut F,
    at: Option<Time48>,
    src: &mut S,
    sink: &mut K,
    report: &mut E,
) -> RunEnd
    ensures { RunsAt (wished (mode, limits)) at
        (met (F.remaining file.old) (F.remaining file.new) (F.faults file.old) (F.faults file.new)
        (crossing (S.remaining src.old) (S.remaining src.new) (K.taken sink.old) (K.taken sink.new))
        (S.faults src.old) (S.faults src.new) (K.faults sink.old) (K.faults sink.new)
        (E.taken report.old) (E.taken report.new) (E.faults report.old) (E.faults report.new)) result }
{
    match at {
        Some(at) => RunEnd::By(run_mode(rt, alloc, mode, limits, file, at, src, sink, report)),
        None => notify(report, b"the clock can't be read\n", RunEnd::NoClock),
    }
}

/// Writes a notice, and tells how the run ends, unless the sink fails.
fn notify<E: Sink>(report: &mut E, notice: &[u8], end: RunEnd) -> RunEnd
    ensures { Notifies notice.now end (E.taken report.old) (E.taken report.new) (E.faults report.old) (E.faults report.new) result }
{
    match write_all(report, notice) {
        Ok(()) => end,
        Err(_) => RunEnd::By(Status::SinkFault),
    }
}

/// Reads the script, makes the transfer of this kind, and writes the report.
fn run_mode<R: Wait, F: Source, S: Source, K: Sink, E: Sink>(
    rt: &R,
    alloc: Global,
    mode: XfrMode,
    limits: Limits,
    file: &mut F,
    at: Time48,
    src: &mut S,
    sink: &mut K,
    report: &mut E,
) -> Status
    ensures wrote { Wrote
        (IsDue (wished (mode, limits)) at (F.remaining file.old) (crossing (S.remaining src.old) (S.remaining src.new) (K.taken sink.old) (K.taken sink.new)))
        (E.taken report.old) (E.taken report.new) result }
    ensures file_faults { TellsSource (F.faults file.old) (F.faults file.new) result }
    ensures report_faults { TellsSink (E.faults report.old) (E.faults report.new) result }
    ensures stream_faults { TellsStreams (S.faults src.old) (S.faults src.new) (K.faults sink.old) (K.faults sink.new) result }
    ensures by_script { (text : List ℕ) → F.remaining file.old ≡ Some text → TellsScript text result }
{
    match read_whole(alloc, file) {
        Ok(text) => run_script(
            rt,
            alloc,
            mode,
            limits,
            text.as_slice(),
            at,
            src,
            sink,
            report,
        ),
        Err(ReadError::Failed) => write_last(report, b"read fault\n", Status::SourceFault),
        Err(ReadError::TooLong) => write_last(report, b"too long\n", Status::TooLong),
        Err(ReadError::Memory) => Status::Memory,
    }
}

/// Writes all that there is to write, and tells the status, unless the sink fails.
fn write_last<E: Sink>(report: &mut E, octets: &[u8], status: Status) -> Status
    requires { status ≢ Status.SinkFault }
    ensures done { result ≢ Status.SinkFault → result ≡ status }
    ensures written { result ≢ Status.SinkFault → E.taken report.new ≡ with_more octets.now (E.taken report.old) }
    ensures part { (n : ℕ) × (E.taken report.new ≡ with_more (take n octets.now) (E.taken report.old)) }
    ensures report_faults { TellsSink (E.faults report.old) (E.faults report.new) result }
{
    match write_all(report, octets) {
        Ok(()) => status,
        Err(_) => Status::SinkFault,
    }
}

/// Reads a script and runs it.
fn run_script<R: Wait, S: Source, K: Sink, E: Sink>(
    rt: &R,
    alloc: Global,
    mode: XfrMode,
    limits: Limits,
    text: &[u8],
    at: Time48,
    src: &mut S,
    sink: &mut K,
    report: &mut E,
) -> Status
    ensures wrote { Wrote
        (IsDue (wished (mode, limits)) at (Some text.now) (crossing (S.remaining src.old) (S.remaining src.new) (K.taken sink.old) (K.taken sink.new)))
        (E.taken report.old) (E.taken report.new) result }
    ensures report_faults { TellsSink (E.faults report.old) (E.faults report.new) result }
    ensures stream_faults { TellsStreams (S.faults src.old) (S.faults src.new) (K.faults sink.old) (K.faults sink.new) result }
    ensures script { (s : scripts.Script TsigKey) → script_of wire_readers text.now ≡ Ok s → result ≢ Status.Script }
    ensures bad_script { (n : ℕ) → script_of wire_readers text.now ≡ Err n → (result ≡ Status.Script) ⊎ IsTrue (is_fault result) }
    ensures others { (result ≢ Status.Usage) × (result ≢ Status.SourceFault) × (result ≢ Status.TooLong) }
{
    match parse(rt, alloc, text) {
        Ok(script) => run_transfer(rt, alloc, mode, limits, script, at, src, sink, report),
        Err(ScriptError::Line(number)) => write_bad_line(alloc, report, number),
        Err(ScriptError::Memory) => Status::Memory,
    }
}

/// Writes the number of a bad line.
fn write_bad_line<E: Sink>(alloc: Global, report: &mut E, number: u64) -> Status
    ensures report_faults { TellsSink (E.faults report.old) (E.faults report.new) result }
    ensures written { result ≡ Status.Script → E.taken report.new ≡ with_more (bad_line number) (E.taken report.old) }
    ensures part { result ≡ Status.SinkFault
        → (n : ℕ) × (E.taken report.new ≡ with_more (take n (bad_line number)) (E.taken report.old)) }
    ensures nothing { result ≡ Status.Memory → E.taken report.new ≡ E.taken report.old }
    ensures others { (result ≡ Status.Script) ⊎ ((result ≡ Status.SinkFault) ⊎ (result ≡ Status.Memory)) }
{
    match format!(in alloc; "line {number}\n") {
        Ok(text) => write_last(report, text.as_bytes(), Status::Script),
        Err(_) => Status::Memory,
    }
}

/// Makes the transfer, and writes the report.
fn run_transfer<R: Wait, S: Source, K: Sink, E: Sink>(
    rt: &R,
    alloc: Global,
    mode: XfrMode,
    limits: Limits,
    script: Script,
    at: Time48,
    src: &mut S,
    sink: &mut K,
    report: &mut E,
) -> Status
    ensures report_faults { TellsSink (E.faults report.old) (E.faults report.new) result }
    ensures stream_faults { TellsStreams (S.faults src.old) (S.faults src.new) (K.faults sink.old) (K.faults sink.new) result }
    ensures written { IsTrue (is_reported result) → Took (λ octets. ReportsOn (wished (mode, limits)) at script
        (crossing (S.remaining src.old) (S.remaining src.new) (K.taken sink.old) (K.taken sink.new)) octets result) (E.taken report.old) (E.taken report.new) }
    ensures part { result ≡ Status.SinkFault → TookFirst (ReportsOn (wished (mode, limits)) at script
        (crossing (S.remaining src.old) (S.remaining src.new) (K.taken sink.old) (K.taken sink.new))) (E.taken report.old) (E.taken report.new) }
    ensures nothing { result ≡ Status.Memory → E.taken report.new ≡ E.taken report.old }
    ensures over_streams { Untouched (crossing (S.remaining src.old) (S.remaining src.new) (K.taken sink.old) (K.taken sink.new))
        ⊎ Transferred limits (asks_with script.key (mode_of mode) at script.secondary)
        (crossing (S.remaining src.old) (S.remaining src.new) (K.taken sink.old) (K.taken sink.new)) }
    ensures others { (result ≢ Status.Usage) × (result ≢ Status.SourceFault) × (result ≢ Status.TooLong) × (result ≢ Status.Script) }
{
    match transfer(rt, alloc, mode, limits, script, at, src, sink) {
        Ok((octets, status)) => write_last(report, octets.as_slice(), status),
        Err(_) => Status::Memory,
    }
}

/// The answer of a transfer, as that of one over a link.
fn outcome_of(answer: &Result<SyncOk, AskError>) -> Result<SyncOk, SyncError>
    ensures { result ≡ sync_answer answer.now }
{
    match answer {
        Ok(done) => Ok(*done),
        Err(error) => Err(error.to_sync_error()),
    }
}

/// The status of a transfer whose report was written.
fn status_of(answer: &Result<SyncOk, AskError>) -> Status
    ensures { result ≡ ask_status answer.now }
{
    match answer {
        Ok(_) => Status::Done,
        Err(AskError::SourceFault) => Status::LinkFault,
        Err(AskError::SinkFault) => Status::LinkFault,
        Err(AskError::Transfer(SyncError::LinkFault)) => Status::LinkFault,
        Err(AskError::Transfer(SyncError::Memory)) => Status::Memory,
        Err(_) => Status::Refused,
    }
}

/// The name of the limit that a transfer passed.
fn limit_passed(answer: &Result<SyncOk, AskError>) -> Option<&'static [u8]>
    ensures { option_copied result ≡ limit_passed answer.now }
{
    match answer {
        Err(AskError::Limit(Limit::Replies)) => Some(b"replies".as_slice()),
        Err(AskError::Limit(Limit::Octets)) => Some(b"octets".as_slice()),
        Err(AskError::Limit(Limit::Records)) => Some(b"records".as_slice()),
        Err(AskError::FullSet) => Some(b"set-records".as_slice()),
        _ => None,
    }
}

/// The report of a transfer that was answered so.
fn report_of(
    alloc: Global,
    answer: &Result<SyncOk, AskError>,
    made: usize,
    zone: &ReadZone,
    queries: &[Query],
) -> Result<Vec<u8>, AllocError>
    ensures { IfOk result (λ v. v.items ≡ ask_report answer.now made zone.now.version queries.now) }
{
    match limit_passed(answer) {
        Some(limit) => limit_report(alloc, limit, zone, queries),
        None => {
            let outcome = outcome_of(answer);
            report_octets(alloc, &outcome, made, zone, queries, &[])
        }
    }
}

/// The report of a transfer that passed a limit of this name.
fn limit_report(
    alloc: Global,
    limit: &[u8],
    zone: &ReadZone,
    queries: &[Query],
) -> Result<Vec<u8>, AllocError>
    ensures { IfOk result (λ v. v.items ≡ limit_report limit.now zone.now.version queries.now) }
{
    let mut out = Vec::new(alloc);
    out.extend_from_slice(b"refused limit ")?;
    out.extend_from_slice(limit)?;
    out.extend_from_slice(b"\n")?;
    append_walk(alloc, &mut out, zone)?;
    append_answers(alloc, &mut out, zone, queries)?;
    Ok(out)
}

/// Makes the transfer of a script's secondary; what is to be written, and the status.
fn transfer<R: Wait, S: Source, K: Sink>(
    rt: &R,
    alloc: Global,
    mode: XfrMode,
    limits: Limits,
    script: Script,
    at: Time48,
    src: &mut S,
    sink: &mut K,
) -> Result<(Vec<u8>, Status), AllocError>
    ensures report { IfOk result (λ r. ReportsOn (wished (mode, limits)) at script
        (crossing (S.remaining src.old) (S.remaining src.new) (K.taken sink.old) (K.taken sink.new)) r.0.items r.1) }
    ensures over_streams { Untouched (crossing (S.remaining src.old) (S.remaining src.new) (K.taken sink.old) (K.taken sink.new))
        ⊎ Transferred limits (asks_with script.key (mode_of mode) at script.secondary)
        (crossing (S.remaining src.old) (S.remaining src.new) (K.taken sink.old) (K.taken sink.new)) }
    ensures stream_faults { IfOk result (λ r. TellsStreams (S.faults src.old) (S.faults src.new) (K.faults sink.old) (K.faults sink.new) r.1) }
    ensures others { IfOk result (λ r. IsTrue (is_reported r.1)) }
{
    let Script {
        key,
        at_primary: _,
        at_secondary: _,
        opening,
        commits,
        secondary,
        queries,
    } = script;
    drop(opening);
    drop(commits);
    let mut desk = opened(rt, alloc, secondary)?;
    let told = transfer_at(
        rt,
        alloc,
        mode,
        limits,
        &key,
        &mut desk,
        queries.as_slice(),
        at,
        src,
        sink,
    );
    desk.close(rt);
    told
}

/// The desk of a zone that opens with this version.
fn opened<R: Wait>(rt: &R, alloc: Global, first: ReadZone) -> Result<Desk, AllocError>
    ensures { IfOk result (λ d. d.last ≡ first) }
{
    let (reader, desk) = Desk::open(alloc, rt, first, MOST_READERS)?;
    drop(reader);
    Ok(desk)
}

/// Makes the transfer to the zone of a desk; what is to be written with these questions, and the status.
fn transfer_at<R: Wait, S: Source, K: Sink>(
    rt: &R,
    alloc: Global,
    mode: XfrMode,
    limits: Limits,
    key: &Key,
    desk: &mut Desk,
    queries: &[Query],
    at: Time48,
    src: &mut S,
    sink: &mut K,
) -> Result<(Vec<u8>, Status), AllocError>
    ensures report { (script : read_scripts.Script) → IfOk result (λ r. ReportsOn (wished (mode, limits)) at
        (with_parts script key.now desk.old.last queries.now)
        (crossing (S.remaining src.old) (S.remaining src.new) (K.taken sink.old) (K.taken sink.new)) r.0.items r.1) }
    ensures over_streams { Transferred limits (asks_with key.now (mode_of mode) at desk.old.last)
        (crossing (S.remaining src.old) (S.remaining src.new) (K.taken sink.old) (K.taken sink.new)) }
    ensures stream_faults { IfOk result (λ r. TellsStreams (S.faults src.old) (S.faults src.new) (K.faults sink.old) (K.faults sink.new) r.1) }
    ensures others { IfOk result (λ r. IsTrue (is_reported r.1)) }
{
    let mut made = Vec::new(alloc);
    let mut session = desk.write(alloc);
    let answer = transfer_zone(
        rt,
        alloc,
        &mut session,
        key,
        mode,
        at,
        &limits,
        src,
        sink,
        &mut made,
    );
    let status = status_of(&answer);
    let last = session.handle()?;
    if status == Status::Memory {
        return Err(AllocError);
    }
    let report = report_of(alloc, &answer, made.len(), &last, queries)?;
    Ok((report, status))
}
